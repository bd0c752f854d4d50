//! Numbers of elements, and ways from them to other types.
ghost use Rattle.std.specs.Prelude.{◌≡◌, Result, Ok};
ghost use Rattle.ca_text.specs.declared.refusal.Refusal.{Refusal};
ghost use Rattle.ca_dbr.specs.Number.{text_of};
ghost use Rattle.ca_display.specs.declared.number.Number.{Number};
ghost use Rattle.ca_display.specs.Number.{as_float, as_double, float_text};
ghost use Rattle.ca_display.specs.Conversion.{and_number, as_whole, of_text, of_whole, of_natural};
ghost use Rattle.ca_display.specs.Conversion.{of_float, of_double};

use crate::number::{Number, float_of_text, number_of_text};
use ca_dbr::{Conversion, Target, text_of};
use ca_text::Refusal;
use std::num::{f32_from_bits_with_nan, f32_to_f64_with_nan, f64_from_bits_with_nan};

/// An element that is a number, or a text that may write one.
pub(crate) trait Numeric: Copy + Drop {
    ghost number: { Self → Result Number Refusal };

    /// Its number. Refused as BadText if it is a text that writes none.
    fn number(self) -> Result<Number, Refusal>
        ensures { result ≡ number self };
}

impl Numeric for [u8; 40] {
    ghost number = { of_text };

    fn number(self) -> Result<Number, Refusal> {
        number_of_text(text_of(&self))
    }
}

impl Numeric for i16 {
    ghost number = { of_whole };

    fn number(self) -> Result<Number, Refusal> {
        Ok(Number::Whole(i64::from(self)))
    }
}

impl Numeric for u16 {
    ghost number = { of_natural };

    fn number(self) -> Result<Number, Refusal> {
        Ok(Number::Whole(i64::from(self)))
    }
}

impl Numeric for u8 {
    ghost number = { of_natural };

    fn number(self) -> Result<Number, Refusal> {
        Ok(Number::Whole(i64::from(self)))
    }
}

impl Numeric for i32 {
    ghost number = { of_whole };

    fn number(self) -> Result<Number, Refusal> {
        Ok(Number::Whole(i64::from(self)))
    }
}

impl Numeric for u32 {
    ghost number = { of_float };

    fn number(self) -> Result<Number, Refusal> {
        Ok(Number::Real(f32_to_f64_with_nan(f32_from_bits_with_nan(self))))
    }
}

impl Numeric for u64 {
    ghost number = { of_double };

    fn number(self) -> Result<Number, Refusal> {
        Ok(Number::Real(f64_from_bits_with_nan(self)))
    }
}

/// From a number to a whole type.
pub(crate) struct ToWhole;

/// From a number to a FLOAT.
pub(crate) struct ToFloat;

/// From a number to a DOUBLE.
pub(crate) struct ToDouble;

/// From a text to a FLOAT.
pub(crate) struct TextToFloat;

impl<S: Numeric, T: Target> Conversion<S, T> for ToWhole {
    ghost gives = { λ x. and_number (as_whole T.within T.made) (S.number x) };

    fn convert(from: S) -> Result<T, Refusal> {
        match from.number() {
            Err(refusal) => Err(refusal),
            Ok(number) => number.to_whole(),
        }
    }
}

impl<S: Numeric> Conversion<S, u32> for ToFloat {
    ghost gives = { λ x. and_number (λ n. Ok (as_float n)) (S.number x) };

    fn convert(from: S) -> Result<u32, Refusal> {
        match from.number() {
            Err(refusal) => Err(refusal),
            Ok(number) => Ok(number.to_float()),
        }
    }
}

impl<S: Numeric> Conversion<S, u64> for ToDouble {
    ghost gives = { λ x. and_number (λ n. Ok (as_double n)) (S.number x) };

    fn convert(from: S) -> Result<u64, Refusal> {
        match from.number() {
            Err(refusal) => Err(refusal),
            Ok(number) => Ok(number.to_double()),
        }
    }
}

impl Conversion<[u8; 40], u32> for TextToFloat {
    ghost gives = { λ x. float_text (text_of x) };

    fn convert(from: [u8; 40]) -> Result<u32, Refusal> {
        float_of_text(text_of(&from))
    }
}
