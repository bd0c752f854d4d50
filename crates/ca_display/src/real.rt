//! A FLOAT or DOUBLE as a text, by the precision of its record.
ghost use Rattle.std.specs.Prelude.{◌≡◌, ℕ, ◌≤◌, take, nat_le, from_bits};
ghost use Rattle.std.specs.Float.{Format, binary32, binary64};
ghost use Rattle.std.specs.Float.Ieee.{top};
ghost use Rattle.ca_display.specs.Real.{signed_units, units_of, fixed_limit, most_places};
ghost use Rattle.ca_display.specs.Real.{more_bytes, minus_text, printed_text, real_text};
ghost use Rattle.ca_display.specs.Decimal.{in_width};

use crate::decimal::{power_of, put, put_units};
use crate::printed::put_size;
use arrayvec::ArrayVec;
use ca_dbr::field_of;
use std::num::{
    f32_from_bits_with_nan, f32_to_f64_with_nan, f64_from_bits_with_nan, f64_to_bits_with_nan,
    nearest_u64_to_f32, nearest_u64_to_f64, saturating_f32_to_u64, saturating_f64_to_u64,
};

// The most places of a text without an exponent.
const MOST_PLACES: u16 = 8;

// What is shown by products of its format is at most this far from zero.
const NEAR: u64 = 10_000_000;

const SPACES: [u8; 24] = [b' '; 24];

// A DOUBLE from 0 on as units.
#[tactic(auto, using(crate::proofs::Decimals::units_fit))]
fn double_units(x: f64, power: u64) -> u128
    requires { power ≤ 100000000 }
    ensures { result ≡ units_of binary64 power x }
{
    let whole = saturating_f64_to_u64(x);
    let rest = x - nearest_u64_to_f64(whole);
    let tenths = rest * nearest_u64_to_f64(power) * nearest_u64_to_f64(10);
    let fraction = (u128::from(saturating_f64_to_u64(tenths)) + 5) / 10;
    u128::from(whole) * u128::from(power) + fraction
}

// A FLOAT from 0 on as units.
#[tactic(auto, using(crate::proofs::Decimals::units_fit))]
fn float_units(x: f32, power: u64) -> u128
    requires { power ≤ 100000000 }
    ensures { result ≡ units_of binary32 power x }
{
    let whole = saturating_f32_to_u64(x);
    let rest = x - nearest_u64_to_f32(whole);
    let tenths = rest * nearest_u64_to_f32(power) * nearest_u64_to_f32(10);
    let fraction = (u128::from(saturating_f32_to_u64(tenths)) + 5) / 10;
    u128::from(whole) * u128::from(power) + fraction
}

/// The bit pattern of a FLOAT or DOUBLE.
pub(crate) trait Real: Copy + Drop {
    ghost FORMAT: { Format };

    ghost pattern: { Self → ℕ };

    /// Whether it is below zero, and the units, if it is at most 10^7 from zero.
    fn units(self, power: u64) -> Option<(bool, u128)>
        requires { power ≤ 100000000 }
        ensures { result ≡ signed_units FORMAT power (from_bits FORMAT (pattern self)) };

    /// Whether its sign is a minus.
    fn is_minus(self) -> bool
        ensures { result ≡ nat_le (top FORMAT) (pattern self) };

    /// The bit pattern of it as a DOUBLE.
    fn as_double(self) -> u64
        ensures { from_bits binary64 result ≡ from_bits FORMAT (pattern self) };

    /// What is further from zero has an exponent, the most places of such a text, and how many
    /// bytes more it has at least.
    fn limits() -> (u64, u16, u16)
        ensures limit { result.0 ≡ fixed_limit FORMAT }
        ensures places { result.1 ≡ most_places FORMAT }
        ensures bytes { result.2 ≡ more_bytes FORMAT };
}

impl Real for u64 {
    ghost FORMAT = { binary64 };

    ghost pattern = { λ n. n };

    fn units(self, power: u64) -> Option<(bool, u128)> {
        let x = f64_from_bits_with_nan(self);
        if x.abs() <= nearest_u64_to_f64(NEAR) {
            return Some((x < nearest_u64_to_f64(0), double_units(x.abs(), power)));
        }
        None
    }

    fn is_minus(self) -> bool {
        self >= 1 << 63
    }

    fn as_double(self) -> u64 {
        self
    }

    fn limits() -> (u64, u16, u16) {
        (10_000_000_000_000_000, 17, 7)
    }
}

impl Real for u32 {
    ghost FORMAT = { binary32 };

    ghost pattern = { λ n. n };

    fn units(self, power: u64) -> Option<(bool, u128)> {
        let x = f32_from_bits_with_nan(self);
        if x.abs() <= nearest_u64_to_f32(NEAR) {
            return Some((x < nearest_u64_to_f32(0), float_units(x.abs(), power)));
        }
        None
    }

    fn is_minus(self) -> bool {
        self >= 1 << 31
    }

    fn as_double(self) -> u64 {
        f64_to_bits_with_nan(f32_to_f64_with_nan(f32_from_bits_with_nan(self)))
    }

    fn limits() -> (u64, u16, u16) {
        (99_999_999, 12, 6)
    }
}

// The beginning of a text.
fn sign_text(is_minus: bool) -> ArrayVec<u8, 40>
    ensures { result.items ≡ minus_text is_minus }
{
    let mut text = ArrayVec::new();
    if is_minus {
        text.push(b'-');
    }
    text
}

fn in_width(width: usize, text: &[u8]) -> ArrayVec<u8, 40>
    requires { width ≤ 24 }
    ensures { result.items ≡ take 40 (in_width width text.now) }
{
    let mut wide = ArrayVec::new();
    put(&SPACES[..width.saturating_sub(text.len())], &mut wide);
    put(text, &mut wide);
    wide
}

// A number as C's `printf` writes it.
fn printed_text<R: Real>(bits: R, places: u16) -> ArrayVec<u8, 40>
    ensures { result.items ≡ take 40
        (printed_text R.FORMAT places (minus_text (nat_le (top R.FORMAT) (R.pattern bits)))
        (from_bits R.FORMAT (R.pattern bits))) }
{
    let (limit, most, more) = R::limits();
    let double = bits.as_double();
    let mut text = sign_text(bits.is_minus());
    let size = f64_from_bits_with_nan(double).abs();
    if places > MOST_PLACES || nearest_u64_to_f64(limit) < size {
        let kept = places.min(most);
        put_size(double, kept, true, &mut text);
        return in_width(usize::from(kept + more), text.as_slice());
    }
    put_size(double, places.min(3), false, &mut text);
    text
}

/// A FLOAT or DOUBLE as a text, with as many places as the precision.
pub(crate) fn real_text<R: Real>(bits: R, precision: i16) -> [u8; 40]
    ensures { result ≡ real_text R.FORMAT precision (R.pattern bits) }
{
    let places = precision.cast_unsigned();
    if places <= MOST_PLACES {
        if let Some((is_below, units)) = bits.units(power_of(places)) {
            let mut text = sign_text(is_below);
            put_units(places, units, &mut text);
            return field_of::<40>(text.as_slice());
        }
    }
    field_of::<40>(printed_text(bits, places).as_slice())
}
