//! A FLOAT or DOUBLE as C's `printf` writes it.
ghost use Rattle.std.specs.Prelude.{◌≡◌, ◌≤◌, ◌<◌, ◌^◌, ◌++◌, false, if◌then◌else◌, take};
ghost use Rattle.std.specs.Prelude.{from_bits};
ghost use Rattle.std.specs.Float.{binary64};
ghost use Rattle.ca_display.specs.Decimal.{exponent_text, scientific_text, fixed_text, size_text};
ghost use Rattle.ca_display.specs.Exact.{number_of, CanRound, IsUpTo};

use crate::decimal::{power_of, put, put_padded, put_units};
use crate::exact::{Exact, exact_size};
use arrayvec::ArrayVec;
use std::num::f64_from_bits_with_nan;

// Puts the power of ten of the first of so many digits at the end of a text.
fn put_exponent(count: usize, places: usize, text: &mut ArrayVec<u8, 40>)
    requires { 0 < count }
    ensures { text.new.items ≡ take 40 (text.old.items ++ exponent_text count places) }
{
    if places < count {
        put(b"e+", text);
        put_padded(2, (count - 1 - places) as u128, text);
    } else {
        put(b"e-", text);
        put_padded(2, (places - count + 1) as u128, text);
    }
}

// Puts a number with an exponent at the end of a text.
fn put_scientific(places: u16, exact: &Exact, text: &mut ArrayVec<u8, 40>)
    requires few { places ≤ 17 }
    requires digits { CanRound exact.now.digits.items exact.now.places }
    ensures { text.new.items ≡ take 40 (text.old.items
        ++ scientific_text places (number_of exact.now.digits.items) exact.now.places) }
{
    let count = exact.digit_count();
    let units = exact.round_off(count - usize::from(places) - 1);
    let power = u128::from(power_of(places));
    if units == power * 10 {
        put_units(places, power, text);
        put_exponent(count + 1, exact.places, text);
    } else {
        put_units(places, units, text);
        put_exponent(count, exact.places, text);
    }
}

/// Puts the size of a DOUBLE of this bit pattern at the end of a text.
pub(crate) fn put_size(bits: u64, places: u16, has_exponent: bool, text: &mut ArrayVec<u8, 40>)
    requires few { places ≤ 17 }
    requires near { has_exponent ≡ false →
        (places ≤ 3) × IsUpTo 10000000000000000 (from_bits binary64 bits) }
    ensures { text.new.items ≡ take 40 (text.old.items
        ++ size_text (if has_exponent then scientific_text places else fixed_text places)
        (from_bits binary64 bits)) }
{
    let x = f64_from_bits_with_nan(bits);
    if x.is_nan() {
        put(b"nan", text);
    } else if x.is_infinite() {
        put(b"inf", text);
    } else {
        let exact = exact_size(bits);
        if has_exponent {
            put_scientific(places, &exact, text);
        } else {
            put_units(
                places,
                exact.round_off(exact.places - usize::from(places)),
                text,
            );
        }
    }
}
