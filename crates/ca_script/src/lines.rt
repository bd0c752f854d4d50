//! The lines that name a server's address, define a record, or give an access rule, read into their
//! parts. `record_file.rt` reads whole files of records and rules.
ghost use Rattle.std.specs.Prelude.{◌≡◌, ◌↔◌, ◌<◌, ◌∷◌, ℕ, Bool, List, IfErr, IfOk, IsTrue, OnOk};
ghost use Rattle.std.specs.Prelude.{option_map};
ghost use Rattle.ca_text.specs.declared.refusal.Refusal.TheVariants.{BadText};
ghost use Rattle.ca_script.specs.Grammar.{IsNumber, Refuses};
ghost use Rattle.ca_script.specs.Lines.{IsAddress, IsNamed, IsPattern, SaysRecord, SaysRule};
ghost use Rattle.ca_script.specs.Lines.{SaysServer, rights_word, slow_word};

use crate::element::{base_in, read_value};
use crate::words::{Pieces, Words, is_word};
use ca_records::{Records, Rule};
use ca_text::{PAYLOAD_LIMIT, Refusal};
use std::alloc::{AllocError, Global};

/// `A.B.C.D:PORT`, after the line's first word: an IPv4 address and a port. Refused as BadText.
pub fn read_server(mut words: Words<'_>) -> Result<(u32, u16), Refusal>
    ensures ok { IfOk result (λ p. SaysServer words.entry p.0 p.1) }
    ensures err { IfErr result (λ e.
        (e ≡ BadText) × ((address port : ℕ) → SaysServer words.entry address port → ⊥)) }
{
    let word = words.word()?;
    words.end()?;
    let mut parts = Pieces::<58>::new(word);
    let host = parts.word()?;
    let port = parts.number()?;
    parts.end()?;
    let address = address_in(host)?;
    match u16::try_from(port) {
        Ok(port) => Ok((address, port)),
        Err(_) => Err(Refusal::BadText),
    }
}

/// The address that a text is: four numbers below 256, separated by dots. Refused as BadText.
fn address_in(text: &[u8]) -> Result<u32, Refusal>
    ensures ok { IfOk result (λ address. IsAddress text.now address) }
    ensures err { IfErr result (λ e.
        (e ≡ BadText) × ((address : ℕ) → IsAddress text.now address → ⊥)) }
{
    let mut parts = Pieces::<46>::new(text);
    let a = octet(&mut parts)?;
    let b = octet(&mut parts)?;
    let c = octet(&mut parts)?;
    let d = octet(&mut parts)?;
    parts.end()?;
    Ok(u32::from_be_bytes([a, b, c, d]))
}

fn octet(parts: &mut Pieces<'_, 46>) -> Result<u8, Refusal>
    ensures ok { IfOk result (λ n. (w : List ℕ) × (parts.old ≡ w ∷ parts.new) × IsNumber w n) }
    ensures small { IfOk result (λ n. n < 256) }
    ensures err { IfErr result (λ e.
        (e ≡ BadText)
        × ((w : List ℕ) (ws : List (List ℕ)) (n : ℕ) → parts.old ≡ w ∷ ws → IsNumber w n → n < 256
        → ⊥)) }
{
    match u8::try_from(parts.number()?) {
        Ok(octet) => Ok(octet),
        Err(_) => Err(Refusal::BadText),
    }
}

/// `NAME TYPE COUNT quick|slow V1 V2 ..`, after the line's first word: a record of a new name is
/// defined. Refused as BadText, then as OutOfMemory, with no record defined.
pub fn read_record(
    alloc: Global,
    mut words: Words<'_>,
    records: &mut Records,
) -> Result<(), Refusal>
    ensures ok { OnOk result (SaysRecord words.entry records.old records.new) }
    ensures err { IfErr result (λ e. Refuses (SaysRecord words.entry records.old) e) }
{
    let name = words.word()?;
    let base = base_in(words.word()?)?;
    let count = words.number()?;
    let slow = slow_in(words.word()?)?;
    let value = read_value(alloc, base, words)?;
    let Ok(count) = u32::try_from(count) else {
        return Err(Refusal::BadText);
    };
    if records.has(name) {
        return Err(Refusal::BadText);
    }
    value.know();
    match records.define(name, count, slow, value) {
        Ok(()) => Ok(()),
        Err(refusal) => match refusal {
            Refusal::OutOfMemory => Err(Refusal::OutOfMemory),
            _ => Err(Refusal::BadText),
        },
    }
}

/// Whether a put takes the record time, as a word says. Refused as BadText.
pub fn slow_in(word: &[u8]) -> Result<bool, Refusal>
    ensures ok { IfOk result (λ slow. word.now ≡ slow_word slow) }
    ensures err { IfErr result (λ e.
        (e ≡ BadText) × ((slow : Bool) → word.now ≡ slow_word slow → ⊥)) }
{
    if is_word(word, "quick") {
        return Ok(false);
    }
    if is_word(word, "slow") {
        return Ok(true);
    }
    Err(Refusal::BadText)
}

/// `USER HOST RECORD rw|r|w|-`, after the line's first word: `*` stands for everything. Refused as
/// BadText, then as OutOfMemory.
pub(crate) fn read_rule(alloc: Global, mut words: Words<'_>) -> Result<Rule, Refusal>
    ensures ok { IfOk result (λ r. SaysRule words.entry r) }
    ensures err { IfErr result (λ e. Refuses (SaysRule words.entry) e) }
{
    let user = words.word()?;
    let host = words.word()?;
    let name = words.word()?;
    let (reads, writes) = rights_in(words.word()?)?;
    words.end()?;
    if !are_carried(user, host) {
        return Err(Refusal::BadText);
    }
    let user = pattern(alloc, user)?;
    let host = pattern(alloc, host)?;
    let name = pattern(alloc, name)?;
    Ok(Rule::new(user, host, name, reads, writes))
}

/// Whether messages can carry this user and this host.
pub fn are_carried(user: &[u8], host: &[u8]) -> bool
    ensures { IsTrue result ↔ IsNamed (user.now, host.now) }
{
    user.len() < PAYLOAD_LIMIT && host.len() < PAYLOAD_LIMIT
}

/// What a word of a rule stands for: none for everything.
pub fn pattern(alloc: Global, word: &[u8]) -> Result<Option<Vec<u8>>, AllocError>
    ensures { IfOk result (λ p. IsPattern word.now (option_map (λ v. v.items) p)) }
{
    if is_word(word, "*") {
        return Ok(None);
    }
    Ok(Some(Vec::from_slice(alloc, word)?))
}

/// Whether a rule lets read and write, as a word says. Refused as BadText.
pub fn rights_in(word: &[u8]) -> Result<(bool, bool), Refusal>
    ensures ok { IfOk result (λ r. word.now ≡ rights_word r.0 r.1) }
    ensures err { IfErr result (λ e.
        (e ≡ BadText) × ((reads writes : Bool) → word.now ≡ rights_word reads writes → ⊥)) }
{
    if is_word(word, "rw") {
        return Ok((true, true));
    }
    if is_word(word, "r") {
        return Ok((true, false));
    }
    if is_word(word, "w") {
        return Ok((false, true));
    }
    if is_word(word, "-") {
        return Ok((false, false));
    }
    Err(Refusal::BadText)
}
