//! The names of an ENUM's states: an ENUM as a text, and a text as an ENUM.
ghost use Rattle.std.specs.Prelude.{◌≡◌, ◌≤◌, length};
ghost use Rattle.std.specs.List.{position_or_len};
ghost use Rattle.ca_display.specs.States.{is_named, state_text, state_number};

use crate::number::{Number, number_of_text};
use ca_dbr::{field_of, text_of};
use ca_text::{Refusal, is_same_name};
use itoa::Buffer;

/// An ENUM as a text: the name of its state, if it has one, else its number.
pub(crate) fn state_text(states: &[[u8; 26]], state: u16) -> [u8; 40]
    ensures { result ≡ state_text states.now state }
{
    let place = usize::from(state);
    if place < states.len() {
        let name = text_of(&states[place]);
        if !name.is_empty() {
            return field_of::<40>(name);
        }
    }
    let mut buffer = Buffer::new();
    field_of::<40>(buffer.format(state).as_bytes())
}

// The first state that has this name, or how many there are if none has it.
fn place_of(states: &[[u8; 26]], name: &[u8]) -> usize
    ensures place { result ≡ position_or_len (is_named name.now) states.now }
    ensures within { result ≤ length states.now }
{
    for (i, field) in states.iter().enumerate() {
        if is_same_name(text_of(field), name) {
            return i;
        }
    }
    states.len()
}

/// The number of the state whose name a text is, else the number that it writes. Refused as BadText
/// if it writes none.
pub(crate) fn state_number(states: &[[u8; 26]], text: &[u8]) -> Result<Number, Refusal>
    ensures { result ≡ state_number states.now text.now }
{
    let place = place_of(states, text);
    if text.is_empty() || place == states.len() {
        return number_of_text(text);
    }
    Ok(Number::Whole(place as i64))
}
