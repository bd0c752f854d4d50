//! A fast comparison of names, for lookups that happen with each message.
ghost use Rattle.std.specs.Prelude.{◌≡◌, ◌+◌, ◌≤◌, drop, length, take};
ghost use Rattle.std.specs.Int.{from_le_bytes, w32, w64};
ghost use Rattle.std.specs.Str.{bytes_eq};

/// Whether two names are the same. Names are compared with each message, and most are short: one of
/// 4 to 16 bytes is compared by its first and its last four or eight bytes, which may overlap.
#[inline(always)]
pub fn is_same_name(a: &[u8], b: &[u8]) -> bool
    ensures { result ≡ bytes_eq a.now b.now }
{
    if a.len() != b.len() {
        return false;
    }
    match a.len() {
        4..=8 => is_same_in_fours(a, b),
        9..=16 => is_same_in_eights(a, b),
        _ => is_same_row(a, b),
    }
}

// Whether two names of 4 to 8 bytes are the same.
#[inline(always)]
fn is_same_in_fours(a: &[u8], b: &[u8]) -> bool
    requires least { 4 ≤ length a.now }
    requires most { length a.now ≤ 8 }
    requires both { length b.now ≡ length a.now }
    ensures { result ≡ bytes_eq a.now b.now }
{
    let last = a.len() - 4;
    four_at(a, 0) == four_at(b, 0) && four_at(a, last) == four_at(b, last)
}

// Whether two names of 8 to 16 bytes are the same.
#[inline(always)]
fn is_same_in_eights(a: &[u8], b: &[u8]) -> bool
    requires least { 8 ≤ length a.now }
    requires most { length a.now ≤ 16 }
    requires both { length b.now ≡ length a.now }
    ensures { result ≡ bytes_eq a.now b.now }
{
    let last = a.len() - 8;
    eight_at(a, 0) == eight_at(b, 0) && eight_at(a, last) == eight_at(b, last)
}

// Whether two names of any length are the same.
#[inline(never)]
fn is_same_row(a: &[u8], b: &[u8]) -> bool
    ensures { result ≡ bytes_eq a.now b.now }
{
    a == b
}

// The four bytes at this place as a number.
#[inline(always)]
fn four_at(bytes: &[u8], at: usize) -> u32
    requires { at + 4 ≤ length bytes.now }
    ensures { result ≡ from_le_bytes w32 (take 4 (drop at bytes.now)) }
{
    u32::from_le_bytes([bytes[at], bytes[at + 1], bytes[at + 2], bytes[at + 3]])
}

// The eight bytes at this place as a number.
#[inline(always)]
fn eight_at(bytes: &[u8], at: usize) -> u64
    requires { at + 8 ≤ length bytes.now }
    ensures { result ≡ from_le_bytes w64 (take 8 (drop at bytes.now)) }
{
    u64::from_le_bytes([
        bytes[at],
        bytes[at + 1],
        bytes[at + 2],
        bytes[at + 3],
        bytes[at + 4],
        bytes[at + 5],
        bytes[at + 6],
        bytes[at + 7],
    ])
}
