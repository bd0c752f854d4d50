//! A line cut into words at single spaces, or a text cut at another separator. An empty word is
//! refused as BadText.
ghost use Rattle.std.specs.Prelude.{◌≡◌, ◌↔◌, IsTrue, ◌<◌, ◌∷◌, [], ℕ, List, IfErr, IfOk, IfSome};
ghost use Rattle.std.specs.Prelude.{MatchResult, length, option_map};
ghost use Rattle.ca_text.specs.declared.refusal.Refusal.TheVariants.{BadText};
ghost use Rattle.ca_script.specs.Grammar.{IsNumber, parted, pieces_left};

use crate::decimals::decimal;
use ca_text::Refusal;
use memchr::memchr;
use std::marker::Model;

/// What is before the first separator, and what is after it, if there is one.
pub fn cut<'a>(text: &'a [u8], separator: u8) -> (&'a [u8], Option<&'a [u8]>)
    ensures pieces { parted separator text.now
        ≡ result.0.now ∷ pieces_left separator (option_map (λ r. r.now) result.1) }
    ensures shorter { IfSome result.1 (λ r. length r.now < length text.now) }
{
    match memchr(separator, text) {
        None => (text, None),
        Some(place) => (&text[..place], Some(&text[place + 1..])),
    }
}

/// The pieces of a text that were not taken yet. One separator parts them.
#[derive(Drop)]
pub struct Pieces<'a, const SEPARATOR: u8> {
    rest: Option<&'a [u8]>,
}

/// The words of a line.
pub type Words<'a> = Pieces<'a, 32>;

impl<'a, const SEPARATOR: u8> Model for Pieces<'a, SEPARATOR> {
    ghost use Rattle.std.specs.Prelude.{ℕ, List, option_map};
    ghost use Rattle.ca_script.specs.Grammar.{pieces_left};

    ghost Value = { List (List ℕ) };

    ghost view = { λ w. pieces_left SEPARATOR (option_map (λ r. r.now) w.rest) };
}

impl<'a, const SEPARATOR: u8> Pieces<'a, SEPARATOR> {
    /// All pieces of a text.
    pub fn new(text: &'a [u8]) -> Pieces<'a, SEPARATOR>
        ensures { result ≡ parted SEPARATOR text.now }
    {
        Pieces { rest: Some(text) }
    }

    /// Whether none is left.
    pub fn is_empty(&self) -> bool
        ensures { IsTrue result ↔ (self.now ≡ []) }
    {
        match self.rest {
            None => true,
            Some(_) => false,
        }
    }

    /// Takes the next piece, which has a byte at least. Refused as BadText if there is none.
    pub fn word(&mut self) -> Result<&'a [u8], Refusal>
        ensures ok { IfOk result (λ w. (self.old ≡ w.now ∷ self.new) × (0 < length w.now)) }
        ensures err { IfErr result (λ e.
            (e ≡ BadText)
            × ((w : List ℕ) (ws : List (List ℕ)) → self.old ≡ w ∷ ws → 0 < length w → ⊥)) }
    {
        let Some(text) = self.rest else {
            return Err(Refusal::BadText);
        };
        let (word, rest) = cut(text, SEPARATOR);
        if word.is_empty() {
            return Err(Refusal::BadText);
        }
        self.rest = rest;
        Ok(word)
    }

    /// Takes the next piece, which is a decimal number. Refused as BadText if there is none.
    pub fn number(&mut self) -> Result<u64, Refusal>
        ensures ok { IfOk result (λ n. (w : List ℕ) × (self.old ≡ w ∷ self.new) × IsNumber w n) }
        ensures err { IfErr result (λ e.
            (e ≡ BadText)
            × ((w : List ℕ) (ws : List (List ℕ)) (n : ℕ) → self.old ≡ w ∷ ws → IsNumber w n → ⊥)) }
    {
        number_in(self.word()?)
    }

    /// Refused as BadText if a piece is left.
    pub fn end(&self) -> Result<(), Refusal>
        ensures ok { IfOk result (λ _. self.now ≡ []) }
        ensures err { IfErr result (λ e. (e ≡ BadText) × (self.now ≡ [] → ⊥)) }
    {
        if self.is_empty() {
            return Ok(());
        }
        Err(Refusal::BadText)
    }
}

/// Whether a word is this one.
pub fn is_word(word: &[u8], text: &str) -> bool
    ensures { IsTrue result ↔ (word.now ≡ text.now) }
{
    let text = text.as_bytes();
    if word.len() != text.len() {
        return false;
    }
    for place in 0..text.len() {
        if word[place] != text[place] {
            return false;
        }
    }
    true
}

/// The decimal number that a word is. Refused as BadText.
fn number_in(word: &[u8]) -> Result<u64, Refusal>
    ensures { MatchResult result (λ n. IsNumber word.now n)
        (λ e. (e ≡ BadText) × ((n : ℕ) → IsNumber word.now n → ⊥)) }
{
    match decimal(word) {
        Some(number) => Ok(number),
        None => Err(Refusal::BadText),
    }
}
