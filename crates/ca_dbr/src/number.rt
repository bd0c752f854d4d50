//! Integers in the text of a STRING: which texts are one, and how one is written.
ghost use Rattle.std.specs.Prelude.{◌≡◌, ◌≤◌, ◌<◌, ◌+◌, ◌-◌, ◌*◌, ◌^◌, ◌==◌, min, length};
ghost use Rattle.std.specs.Prelude.{option_map, Some};
ghost use Rattle.std.specs.Char.{is_ascii_digit};
ghost use Rattle.std.specs.List.{prefix_len};
ghost use Rattle.ca_dbr.specs.Number.{text_of, is_space, digits_number, unsigned_in, number_in};
ghost use Rattle.ca_dbr.specs.Number.{number_text, clipped};

use itoa::Buffer;

const SPACE: u8 = b' ';

const MINUS: u8 = b'-';

/// No number of a type is further from zero.
const FAR: u64 = 0x1_0000_0000;

/// The bytes before the first zero.
pub fn text_of(bytes: &[u8]) -> &[u8]
    ensures text { result.now ≡ text_of bytes.now }
    ensures within { length result.now ≤ length bytes.now }
{
    for (i, byte) in bytes.iter().enumerate() {
        if *byte == 0 {
            return &bytes[..i];
        }
    }
    bytes
}

/// How many spaces are at the front.
pub fn leading_spaces(bytes: &[u8]) -> usize
    ensures count { result ≡ prefix_len is_space bytes.now }
    ensures within { result ≤ length bytes.now }
{
    for (i, byte) in bytes.iter().enumerate() {
        if *byte != SPACE {
            return i;
        }
    }
    bytes.len()
}

/// How many digits are at the front.
fn leading_digits(bytes: &[u8]) -> usize
    ensures count { result ≡ prefix_len is_ascii_digit bytes.now }
    ensures within { result ≤ length bytes.now }
{
    for (i, byte) in bytes.iter().enumerate() {
        if !byte.is_ascii_digit() {
            return i;
        }
    }
    bytes.len()
}

/// The number of these digits, or the nearest that matters.
fn clipped_number(digits: &[u8]) -> u64
    requires { prefix_len is_ascii_digit digits.now ≡ length digits.now }
    ensures { result ≡ min (digits_number digits.now) (2 ^ 32) }
{
    let mut number = 0;
    for digit in digits {
        number = (number * 10 + u64::from(*digit - b'0')).min(FAR);
    }
    number
}

/// The number that digits, and then spaces alone, are.
fn read_unsigned(text: &[u8]) -> Option<u64>
    ensures { result ≡ option_map (λ n. min n (2 ^ 32)) (unsigned_in text.now) }
{
    let count = leading_digits(text);
    let (digits, after) = text.split_at(count);
    if count == 0 {
        return None;
    }
    if leading_spaces(after) < after.len() {
        return None;
    }
    Some(clipped_number(digits))
}

/// The number that a text is, or the nearest that matters.
pub(crate) fn read_number(text: &[u8]) -> Option<i64>
    ensures { result ≡ option_map clipped (number_in text.now) }
{
    let rest = &text[leading_spaces(text)..];
    if rest.is_empty() {
        return None;
    }
    if rest[0] == MINUS {
        return match read_unsigned(&rest[1..]) {
            None => None,
            Some(number) => Some(-(number as i64)),
        };
    }
    match read_unsigned(rest) {
        None => None,
        Some(number) => Some(number as i64),
    }
}

/// The decimal text of a number, filled with zero bytes.
pub(crate) fn write_number(number: i64) -> [u8; 40]
    ensures { result ≡ number_text number }
{
    let mut buffer = Buffer::new();
    let digits = buffer.format(number).as_bytes();
    let mut text = [0; 40];
    text[..digits.len()].copy_from_slice(digits);
    text
}
