//! A number in each type, and the number that a text writes, as a record with display data converts
//! them.
ghost use Rattle.std.specs.Prelude.{◌≡◌, option_map};
ghost use Rattle.std.specs.List.{list_all};
ghost use Rattle.ca_dbr.specs.Number.{clipped, is_space};
ghost use Rattle.ca_display.specs.Number.{whole_of, in_type, as_float, as_double, float_in};
ghost use Rattle.ca_display.specs.Number.{float_text, is_word, text_number};

use ca_dbr::{Target, leading_spaces};
use ca_text::Refusal;
use fast_float::FastFloat;
use std::num::{
    f32_to_bits_with_nan, f64_to_bits_with_nan, nearest_f64_to_f32_with_nan, nearest_i64_to_f32,
    nearest_i64_to_f64, saturating_f64_to_i64,
};

// No number of a whole type is further from zero.
const FAR: i64 = 0x1_0000_0000;

const SPACE: u8 = b' ';

/// The number that an element is.
#[derive(Clone, Copy)]
pub enum Number {
    /// Of an INT, ENUM, CHAR or LONG.
    Whole(i64),
    /// Of a FLOAT or DOUBLE, which may be no number.
    Real(f64),
}

impl Number {
    /// The whole number that it is towards zero, or the nearest that matters; none if it is no
    /// number.
    fn near_whole(self) -> Option<i64>
        ensures { result ≡ option_map clipped (whole_of self) }
    {
        match self {
            Number::Whole(z) => Some(z.clamp(-FAR, FAR)),
            Number::Real(x) => {
                if x.is_nan() {
                    return None;
                }
                Some(saturating_f64_to_i64(x).clamp(-FAR, FAR))
            }
        }
    }

    /// As an element of a whole type, towards zero. Refused as OutOfRange if it is outside the
    /// type, or no number.
    pub fn to_whole<T: Target>(self) -> Result<T, Refusal>
        ensures { result ≡ in_type T.within T.made (whole_of self) }
    {
        match self.near_whole() {
            None => Err(Refusal::OutOfRange),
            Some(near) => match T::of_number(near) {
                None => Err(Refusal::OutOfRange),
                Some(element) => Ok(element),
            },
        }
    }

    /// The bit pattern of the FLOAT nearest to it.
    pub fn to_float(self) -> u32
        ensures { result ≡ as_float self }
    {
        match self {
            Number::Whole(z) => f32_to_bits_with_nan(nearest_i64_to_f32(z)),
            Number::Real(x) => f32_to_bits_with_nan(nearest_f64_to_f32_with_nan(x)),
        }
    }

    /// The bit pattern of the DOUBLE nearest to it.
    pub fn to_double(self) -> u64
        ensures { result ≡ as_double self }
    {
        match self {
            Number::Whole(z) => f64_to_bits_with_nan(nearest_i64_to_f64(z)),
            Number::Real(x) => f64_to_bits_with_nan(x),
        }
    }
}

// Whether these are spaces alone.
fn is_blank(bytes: &[u8]) -> bool
    ensures { result ≡ list_all is_space bytes.now }
{
    for byte in bytes {
        if *byte != SPACE {
            return false;
        }
    }
    true
}

// Whether no digit is among these: a number that they write is a word.
fn is_word(text: &[u8]) -> bool
    ensures { result ≡ is_word text.now }
{
    for byte in text {
        if byte.is_ascii_digit() {
            return false;
        }
    }
    true
}

// The number that a text writes, if it writes one.
fn read_float<F: FastFloat>(text: &[u8]) -> Option<F>
    ensures { option_map F.value result ≡ float_in F.format text.now }
{
    let rest = &text[leading_spaces(text)..];
    match fast_float::parse_partial::<F, _>(rest) {
        Err(_) => None,
        Ok((number, len)) => {
            if !is_blank(&rest[len..]) {
                return None;
            }
            Some(number)
        }
    }
}

/// The bit pattern of the FLOAT nearest to the number that a text writes, with spaces before it or
/// after it. Refused as BadText if it writes none, or one that is too large.
pub fn float_of_text(text: &[u8]) -> Result<u32, Refusal>
    ensures { result ≡ float_text text.now }
{
    match read_float::<f32>(text) {
        None => Err(Refusal::BadText),
        Some(x) => {
            if x.is_infinite() && !is_word(text) {
                return Err(Refusal::BadText);
            }
            Ok(f32_to_bits_with_nan(x))
        }
    }
}

/// The number that a text writes, as the DOUBLE nearest to it, with spaces before it or after it.
/// Refused as BadText if it writes none, or one that is too large.
pub fn number_of_text(text: &[u8]) -> Result<Number, Refusal>
    ensures { result ≡ text_number text.now }
{
    match read_float::<f64>(text) {
        None => Err(Refusal::BadText),
        Some(x) => {
            if x.is_infinite() && !is_word(text) {
                return Err(Refusal::BadText);
            }
            Ok(Number::Real(x))
        }
    }
}
