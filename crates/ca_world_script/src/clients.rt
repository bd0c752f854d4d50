//! The line of a client, and words that are addresses.
ghost use Rattle.std.specs.Prelude.{◌≡◌, IfErr, IfOk};
ghost use Rattle.ca_text.specs.declared.refusal.Refusal.TheVariants.{BadText};
ghost use Rattle.ca_model.specs.Ends as ends;
ghost use Rattle.ca_script.specs.Grammar.{Refuses};
ghost use Rattle.ca_script.specs.Lines.{AreEach};
ghost use Rattle.ca_world_script.specs.Lines.{IsAddress, SaysClient};

use ca_client_core::Address;
use ca_script::{Words, read_server};
use ca_text::Refusal;
use ca_world_data::settings::ClientSetting;
use std::alloc::Global;

// The address that a word is. Refused as BadText.
pub(crate) fn read_address(word: &[u8]) -> Result<Address, Refusal>
    ensures ok { IfOk result (λ a. IsAddress word.now a) }
    ensures err { IfErr result (λ e.
        (e ≡ BadText) × ((a : ends.Address) → IsAddress word.now a → ⊥)) }
{
    let (host, port) = read_server(Words::new(word))?;
    Ok(Address { host, port })
}

// The addresses that the words left are. Refused as BadText, then as OutOfMemory.
fn read_addresses(alloc: Global, mut words: Words<'_>) -> Result<Vec<Address>, Refusal>
    ensures ok { IfOk result (λ v. AreEach IsAddress words.entry v.items) }
    ensures err { IfErr result (λ e. Refuses (AreEach IsAddress words.entry) e) }
{
    let mut items = Vec::new(alloc);
    while !words.is_empty() {
        items.push(read_address(words.word()?)?)?;
    }
    Ok(items)
}

// `USER HOST A.B.C.D:PORT ..`, after the line's first word. Refused as BadText,
// then as OutOfMemory.
pub(crate) fn read_client(alloc: Global, mut words: Words<'_>) -> Result<ClientSetting, Refusal>
    ensures ok { IfOk result (λ c. SaysClient words.entry c) }
    ensures err { IfErr result (λ e. Refuses (SaysClient words.entry) e) }
{
    let user = words.word()?;
    let host = words.word()?;
    let name_servers = read_addresses(alloc, words)?;
    let user = Vec::from_slice(alloc, user)?;
    let host = Vec::from_slice(alloc, host)?;
    match ClientSetting::new(user, host, name_servers) {
        Ok(client) => Ok(client),
        Err(_) => Err(Refusal::BadText),
    }
}
