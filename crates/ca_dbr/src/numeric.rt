//! How one element converts to another type: numbers by their range, texts by the integer that they
//! write. FLOAT and DOUBLE convert only to themselves. The text of a number is in `number.rt`.
ghost use Rattle.std.specs.Prelude.{Ok, Err, ◌≡◌, ℤ, pos, Bool, true, false, ◌<◌, Option, Some};
ghost use Rattle.std.specs.Prelude.{None, Result, option_map, unsigned_abs, MatchOption};
ghost use Rattle.ca_text.specs.declared.refusal.Refusal.{Refusal};
ghost use Rattle.ca_dbr.specs.declared.data_type.BaseType.TheVariants as base_type;
ghost use Rattle.ca_dbr.specs.Number.{text_of, number_in, number_text, clipped};
ghost use Rattle.ca_dbr.specs.Conversion.{in_signed, in_unsigned, numbered};

use crate::number::{read_number, text_of, write_number};
use ca_text::Refusal;

/// An element that may be a number.
pub(crate) trait NumberSource: Copy + Drop {
    /// Its number: none if it is a text that is no number.
    ghost number: { Self → Option ℤ };

    /// The number, or the nearest that matters.
    fn near_number(self) -> Option<i64>
        ensures { result ≡ option_map clipped (number self) };
}

/// An element that is a number.
pub(crate) trait Whole: NumberSource {
    fn whole(self) -> i64
        ensures { Self.number self ≡ Some result };
}

/// An element that a number may be made into.
pub trait Target: Copy + Drop {
    ghost within: { ℤ → Bool };

    ghost made: { ℤ → Self };

    /// The element of the number that this one is nearest to, if it has one.
    fn of_number(near: i64) -> Option<Self>
        ensures { (z : ℤ) → clipped z ≡ near
            → MatchOption result (within z ≡ false) (λ x. (within z ≡ true) × (x ≡ made z)) };
}

impl NumberSource for [u8; 40] {
    ghost number = { λ x. number_in (text_of x) };

    fn near_number(self) -> Option<i64> {
        read_number(text_of(&self))
    }
}

impl NumberSource for i16 {
    ghost number = { λ z. Some z };

    fn near_number(self) -> Option<i64> {
        Some(i64::from(self))
    }
}

impl Whole for i16 {
    fn whole(self) -> i64 {
        i64::from(self)
    }
}

impl NumberSource for u16 {
    ghost number = { λ n. Some (pos n) };

    fn near_number(self) -> Option<i64> {
        Some(i64::from(self))
    }
}

impl Whole for u16 {
    fn whole(self) -> i64 {
        i64::from(self)
    }
}

impl NumberSource for u8 {
    ghost number = { λ n. Some (pos n) };

    fn near_number(self) -> Option<i64> {
        Some(i64::from(self))
    }
}

impl Whole for u8 {
    fn whole(self) -> i64 {
        i64::from(self)
    }
}

impl NumberSource for i32 {
    ghost number = { λ z. Some z };

    fn near_number(self) -> Option<i64> {
        Some(i64::from(self))
    }
}

impl Whole for i32 {
    fn whole(self) -> i64 {
        i64::from(self)
    }
}

impl Target for i16 {
    ghost within = { in_signed 15 };

    ghost made = { λ z. z };

    fn of_number(near: i64) -> Option<i16> {
        if near < -32768 {
            return None;
        }
        if near > 32767 {
            return None;
        }
        Some(near as i16)
    }
}

impl Target for u16 {
    ghost within = { in_unsigned 16 };

    ghost made = { unsigned_abs };

    fn of_number(near: i64) -> Option<u16> {
        if near < 0 {
            return None;
        }
        if near > 65535 {
            return None;
        }
        Some(near as u16)
    }
}

impl Target for u8 {
    ghost within = { in_unsigned 8 };

    ghost made = { unsigned_abs };

    fn of_number(near: i64) -> Option<u8> {
        if near < 0 {
            return None;
        }
        if near > 255 {
            return None;
        }
        Some(near as u8)
    }
}

impl Target for i32 {
    ghost within = { in_signed 31 };

    ghost made = { λ z. z };

    fn of_number(near: i64) -> Option<i32> {
        if near < -2147483648 {
            return None;
        }
        if near > 2147483647 {
            return None;
        }
        Some(near as i32)
    }
}

/// A way from one element to another.
pub trait Conversion<S: Copy, T> {
    ghost gives: { S → Result T Refusal };

    fn convert(from: S) -> Result<T, Refusal>
        ensures { result ≡ gives from };
}

/// Through the number.
pub(crate) struct ToNumber;

/// From a number to its text.
pub(crate) struct ToText;

impl<S: NumberSource, T: Target> Conversion<S, T> for ToNumber {
    ghost gives = { λ x. numbered T.within T.made (S.number x) };

    fn convert(from: S) -> Result<T, Refusal> {
        match from.near_number() {
            None => Err(Refusal::BadText),
            Some(number) => match T::of_number(number) {
                None => Err(Refusal::OutOfRange),
                Some(to) => Ok(to),
            },
        }
    }
}

impl<S: Whole> Conversion<S, [u8; 40]> for ToText {
    ghost gives = { λ x. numbered (λ _. true) number_text (S.number x) };

    fn convert(from: S) -> Result<[u8; 40], Refusal> {
        Ok(write_number(from.whole()))
    }
}
