//! Texts of decimals, which are cut to the 40 bytes of a STRING.
ghost use Rattle.std.specs.Prelude.{◌≡◌, ◌≤◌, ◌<◌, ◌^◌, ◌++◌, take};
ghost use Rattle.ca_display.specs.Decimal.{padded_digits, point_text};

use arrayvec::ArrayVec;
use itoa::Buffer;

const ZEROS: [u8; 17] = [b'0'; 17];

/// How many units are 1, with that many places.
#[tactic(auto, using(crate::proofs::Ten::fits, crate::proofs::Ten::some, crate::proofs::Ten::most))]
pub(crate) fn power_of(places: u16) -> u64
    requires { places ≤ 17 }
    ensures power { result ≡ 10 ^ places }
    ensures some { 0 < result }
    ensures most { places ≤ 8 → result ≤ 100000000 }
{
    10u64.pow(u32::from(places))
}

/// Puts bytes at the end of a text.
pub(crate) fn put(bytes: &[u8], text: &mut ArrayVec<u8, 40>)
    ensures { text.new.items ≡ take 40 (text.old.items ++ bytes.now) }
{
    let size = bytes.len().min(text.remaining_capacity());
    let kept = &bytes[..size];
    match text.try_extend_from_slice(kept) {
        Ok(()) => {}
        Err(_) => unreachable!(),
    }
}

/// Puts digits at the end of a text, with zeros before them up to that many.
pub(crate) fn put_padded(size: usize, number: u128, text: &mut ArrayVec<u8, 40>)
    requires { size ≤ 17 }
    ensures { text.new.items ≡ take 40 (text.old.items ++ padded_digits size number) }
{
    let mut buffer = Buffer::new();
    let digits = buffer.format(number).as_bytes();
    put(&ZEROS[..size.saturating_sub(digits.len())], text);
    put(digits, text);
}

/// Puts units at the end of a text, with that many places.
#[tactic(auto, using(crate::proofs::Decimals::point_none))]
pub(crate) fn put_units(places: u16, units: u128, text: &mut ArrayVec<u8, 40>)
    requires { places ≤ 17 }
    ensures { text.new.items ≡ take 40 (text.old.items ++ point_text places units) }
{
    let power = u128::from(power_of(places));
    put(Buffer::new().format(units / power).as_bytes(), text);
    if places == 0 {
        return;
    }
    put(b".", text);
    put_padded(usize::from(places), units % power, text);
}
