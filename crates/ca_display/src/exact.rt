//! The exact size of a DOUBLE, by its decimal digits.
ghost use Rattle.std.specs.Prelude.{◌≡◌, ℕ, ◌+◌, ◌*◌, ◌^◌, ◌<◌, ◌≤◌, ◌==◌, true, length, from_bits};
ghost use Rattle.std.specs.List.{list_all};
ghost use Rattle.std.specs.Int.Digits.{AllBelowBase};
ghost use Rattle.std.specs.Float.{binary64, float_is_finite};
ghost use Rattle.std.specs.Float.Ieee.Nearest.{closest};
ghost use Rattle.ca_display.specs.Decimal.{digit_count};
ghost use Rattle.ca_display.specs.Exact.{number_of, with_above, AreDigits, CanRound, IsSize};

use arrayvec::ArrayVec;

// Decimal digits, the lowest first. No DOUBLE has more, with those by which it is rounded.
type Digits = ArrayVec<u8, 785>;

// The weights of the sign and of the exponent in the bit pattern of a DOUBLE.
const SIGN: u64 = 1 << 63;

const HIDDEN: u64 = 1 << 52;

// The smallest DOUBLE is 2 ^ -LOW.
const LOW: u64 = 1074;

// A number is rounded to 18 digits at most.
const ROUNDED: u64 = 18;

// By so many factors digits are multiplied at once: 10 * 5 ^ 25 is below 2 ^ 64.
const MOST_AT_ONCE: u64 = 25;

// Puts a number above digits.
fn put_above(mut number: u64, digits: &mut Digits)
    requires below { AllBelowBase 10 digits.old.items }
    requires room { with_above digits.old.items number < 10 ^ 785 }
    requires high { 0 < length digits.old.items →
        10 ^ length digits.old.items ≤ 10 * with_above digits.old.items number }
    ensures { AreDigits digits.new.items (with_above digits.old.items number) }
{
    while number > 0 {
        digits.push((number % 10) as u8);
        number /= 10;
    }
}

fn times(digits: &Digits, factor: u64) -> Digits
    requires digits { AreDigits digits.now.items (number_of digits.now.items) }
    requires some { 0 < factor }
    requires small { factor < 2 ^ 60 }
    requires room { number_of digits.now.items * factor < 10 ^ 785 }
    ensures { AreDigits result.items (number_of digits.now.items * factor) }
{
    let mut product = ArrayVec::new();
    let mut carry = 0;
    let items = digits.as_slice();
    for digit in items {
        carry += u64::from(*digit) * factor;
        product.push((carry % 10) as u8);
        carry /= 10;
    }
    put_above(carry, &mut product);
    product
}

fn times_power(mut digits: Digits, base: u64, mut exponent: u64) -> Digits
    requires digits { AreDigits digits.items (number_of digits.items) }
    requires some { 0 < base }
    requires small { base ≤ 5 }
    requires room { number_of digits.items * base ^ exponent < 10 ^ 785 }
    ensures { AreDigits result.items (number_of digits.items * base ^ exponent) }
{
    while exponent > 0 {
        let step = exponent.min(MOST_AT_ONCE);
        digits = times(&digits, base.pow(step as u32));
        exponent -= step;
    }
    digits
}

// The number of a few digits.
fn value_of(digits: &[u8]) -> u128
    requires { number_of digits.now < 2 ^ 128 }
    ensures { result ≡ number_of digits.now }
{
    let mut number = 0;
    for place in (0..digits.len()).rev() {
        number = number * 10 + u128::from(digits[place]);
    }
    number
}

fn are_zeros(digits: &[u8]) -> bool
    ensures { result ≡ list_all (λ d. d == 0) digits.now }
{
    digits.iter().all(|digit| *digit == 0)
}

/// A number from 0 on.
#[derive(Drop)]
pub(crate) struct Exact {
    digits: Digits,
    /// How many of its digits are after the point.
    pub(crate) places: usize,
}

impl Exact {
    /// How many digits it has from the first that is not 0 on; 0 counts as 1.
    pub(crate) fn digit_count(&self) -> usize
        requires { CanRound self.now.digits.items self.now.places }
        ensures count { result ≡ digit_count (number_of self.now.digits.items) self.now.places }
        ensures few { result ≤ 1093 }
    {
        if self.digits.is_empty() {
            return self.places + 1;
        }
        self.digits.len()
    }

    /// The nearest number without that many of its digits; of two as near, the even one.
    pub(crate) fn round_off(&self, dropped: usize) -> u128
        requires digits { CanRound self.now.digits.items self.now.places }
        requires some { 0 < dropped }
        requires fits { number_of self.now.digits.items < 10 ^ (dropped + 20) }
        ensures { result ≡ closest (number_of self.now.digits.items) (10 ^ dropped) }
    {
        let digits = self.digits.as_slice();
        let (rest, head) = digits.split_at(digits.len().min(dropped - 1));
        let number = value_of(head);
        let (kept, last) = (number / 10, number % 10);
        if last < 5 {
            return kept;
        }
        if last > 5 || !are_zeros(rest) {
            return kept + 1;
        }
        kept + kept % 2
    }
}

/// The size of a finite DOUBLE of this bit pattern, with enough digits to round it to 18.
pub(crate) fn exact_size(bits: u64) -> Exact
    requires { float_is_finite (from_bits binary64 bits) ≡ true }
    ensures digits { CanRound result.digits.items result.places }
    ensures size { IsSize (from_bits binary64 bits) (number_of result.digits.items) result.places }
{
    // Without a field there is no hidden digit, and the exponent is that of a field of 1.
    let field = bits % SIGN / HIDDEN;
    let significand = bits % HIDDEN + HIDDEN * field.min(1);
    let exponent = field.saturating_sub(1);
    let mut digits = ArrayVec::new();
    put_above(significand, &mut digits);
    let places = LOW.saturating_sub(exponent) + ROUNDED;
    let digits = times_power(digits, 2, exponent.saturating_sub(LOW) + ROUNDED);
    Exact {
        digits: times_power(digits, 5, places),
        places: places as usize,
    }
}
