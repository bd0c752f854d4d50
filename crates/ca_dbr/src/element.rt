//! The elements of each base type as bytes of a payload, big-endian, one or many at a time.
ghost use Rattle.std.specs.Prelude.{[], ◌∷◌, ◌≡◌, ℕ, ◌≤◌, ◌<◌, ◌^◌, ◌+◌, ◌-◌, ◌*◌, ◌++◌, List};
ghost use Rattle.std.specs.Prelude.{length, replicate, take, All, IfOk, OnErr, ◌≢◌, FitsSigned};
ghost use Rattle.std.specs.Prelude.{vec_len, vec_capacity};
ghost use Rattle.std.specs.List.{flat_map};
ghost use Rattle.std.specs.Int.{to_be_bytes, w16, w32, w64};
ghost use Rattle.ca_dbr.specs.Elements.{string_bytes, byte_1, bytes_2, bytes_4, bytes_8};
ghost use Rattle.ca_dbr.specs.Elements.{signed_bytes_2, signed_bytes_4};

use std::alloc::AllocError;
use std::mem;

/// An element as it is in an image.
pub(crate) trait ImageElement: Copy + Drop {
    ghost SIZE: { ℕ };

    /// How many bytes it takes.
    const SIZE: usize;

    ghost spelled: { Self → List ℕ };

    ghost fits: { Self → Type 0 };

    /// Puts its bytes at the end, where room was made for them.
    fn put(self, out: &mut Vec<u8>)
        requires { vec_len out.old + SIZE ≤ vec_capacity out.old }
        ensures after { out.new.items ≡ out.old.items ++ spelled self }
        ensures len { vec_len out.new ≡ vec_len out.old + SIZE }
        ensures capacity { vec_capacity out.old ≤ vec_capacity out.new }
        ensures fits { fits self };

    /// Tells that it is in its range. It does nothing.
    fn know(self)
        ensures { fits self };

    /// The element that has these bytes.
    fn read(bytes: &[u8]) -> Self
        requires { length bytes.now ≡ SIZE }
        ensures again { spelled result ≡ bytes.now }
        ensures fits { fits result };
}

/// Puts these bytes at the end, where room was made for them: one by one, since no room is to be
/// asked for again.
#[inline(always)]
pub fn put_bytes(bytes: &[u8], out: &mut Vec<u8>)
    requires { vec_len out.old + length bytes.now ≤ vec_capacity out.old }
    ensures after { out.new.items ≡ out.old.items ++ bytes.now }
    ensures len { vec_len out.new ≡ vec_len out.old + length bytes.now }
    ensures capacity { vec_capacity out.old ≤ vec_capacity out.new }
{
    for byte in bytes {
        out.push_reserved(*byte);
    }
}

impl ImageElement for [u8; 40] {
    ghost SIZE = { 40 };

    ghost spelled = { string_bytes };

    ghost fits = { λ x. length x ≡ 40 };

    const SIZE: usize = 40;

    #[tactic(auto, unfolding(crate::specs::Elements::string_bytes))]
    fn put(self, out: &mut Vec<u8>) {
        put_bytes(&self, out);
    }

    fn know(self) {}

    #[tactic(auto, unfolding(crate::specs::Elements::string_bytes))]
    fn read(bytes: &[u8]) -> [u8; 40] {
        let mut text = [0; 40];
        text.copy_from_slice(bytes);
        text
    }
}

impl ImageElement for i16 {
    ghost SIZE = { 2 };

    ghost spelled = { signed_bytes_2 };

    ghost fits = { λ z. FitsSigned w16 z };

    const SIZE: usize = 2;

    #[tactic(auto, unfolding(crate::specs::Elements::signed_bytes_2))]
    fn put(self, out: &mut Vec<u8>) {
        put_bytes(&self.to_be_bytes(), out);
    }

    fn know(self) {}

    #[tactic(auto, unfolding(crate::specs::Elements::signed_bytes_2))]
    fn read(bytes: &[u8]) -> i16 {
        i16::from_be_bytes([bytes[0], bytes[1]])
    }
}

impl ImageElement for u32 {
    ghost SIZE = { 4 };

    ghost spelled = { bytes_4 };

    ghost fits = { λ n. n < 2 ^ 32 };

    const SIZE: usize = 4;

    #[tactic(auto, unfolding(crate::specs::Elements::bytes_4))]
    fn put(self, out: &mut Vec<u8>) {
        put_bytes(&self.to_be_bytes(), out);
    }

    fn know(self) {}

    #[tactic(auto, unfolding(crate::specs::Elements::bytes_4))]
    fn read(bytes: &[u8]) -> u32 {
        u32::from_be_bytes([bytes[0], bytes[1], bytes[2], bytes[3]])
    }
}

impl ImageElement for u16 {
    ghost SIZE = { 2 };

    ghost spelled = { bytes_2 };

    ghost fits = { λ n. n < 2 ^ 16 };

    const SIZE: usize = 2;

    #[tactic(auto, unfolding(crate::specs::Elements::bytes_2))]
    fn put(self, out: &mut Vec<u8>) {
        put_bytes(&self.to_be_bytes(), out);
    }

    fn know(self) {}

    #[tactic(auto, unfolding(crate::specs::Elements::bytes_2))]
    fn read(bytes: &[u8]) -> u16 {
        u16::from_be_bytes([bytes[0], bytes[1]])
    }
}

impl ImageElement for u8 {
    ghost SIZE = { 1 };

    ghost spelled = { byte_1 };

    ghost fits = { λ n. n < 2 ^ 8 };

    const SIZE: usize = 1;

    #[tactic(auto, unfolding(crate::specs::Elements::byte_1))]
    fn put(self, out: &mut Vec<u8>) {
        put_bytes(&[self], out);
    }

    fn know(self) {}

    #[tactic(auto, unfolding(crate::specs::Elements::byte_1))]
    fn read(bytes: &[u8]) -> u8 {
        bytes[0]
    }
}

impl ImageElement for i32 {
    ghost SIZE = { 4 };

    ghost spelled = { signed_bytes_4 };

    ghost fits = { λ z. FitsSigned w32 z };

    const SIZE: usize = 4;

    #[tactic(auto, unfolding(crate::specs::Elements::signed_bytes_4))]
    fn put(self, out: &mut Vec<u8>) {
        put_bytes(&self.to_be_bytes(), out);
    }

    fn know(self) {}

    #[tactic(auto, unfolding(crate::specs::Elements::signed_bytes_4))]
    fn read(bytes: &[u8]) -> i32 {
        i32::from_be_bytes([bytes[0], bytes[1], bytes[2], bytes[3]])
    }
}

impl ImageElement for u64 {
    ghost SIZE = { 8 };

    ghost spelled = { bytes_8 };

    ghost fits = { λ n. n < 2 ^ 64 };

    const SIZE: usize = 8;

    #[tactic(auto, unfolding(crate::specs::Elements::bytes_8))]
    fn put(self, out: &mut Vec<u8>) {
        put_bytes(&self.to_be_bytes(), out);
    }

    fn know(self) {}

    #[tactic(auto, unfolding(crate::specs::Elements::bytes_8))]
    fn read(bytes: &[u8]) -> u64 {
        u64::from_be_bytes([
            bytes[0], bytes[1], bytes[2], bytes[3], bytes[4], bytes[5], bytes[6], bytes[7],
        ])
    }
}

/// An element of at most 8 bytes.
pub(crate) trait Small: ImageElement {
    /// Its bytes and zeros after them as one number, the first byte the highest.
    fn word(self) -> u64
        ensures { Self.spelled self ++ replicate (8 - Self.SIZE) 0 ≡ to_be_bytes w64 result };
}

impl Small for i16 {
    #[tactic(auto, unfolding(crate::specs::Elements::signed_bytes_2))]
    fn word(self) -> u64 {
        let bytes = self.to_be_bytes();
        u64::from_be_bytes([bytes[0], bytes[1], 0, 0, 0, 0, 0, 0])
    }
}

impl Small for u32 {
    #[tactic(auto, unfolding(crate::specs::Elements::bytes_4))]
    fn word(self) -> u64 {
        let bytes = self.to_be_bytes();
        u64::from_be_bytes([bytes[0], bytes[1], bytes[2], bytes[3], 0, 0, 0, 0])
    }
}

impl Small for u16 {
    #[tactic(auto, unfolding(crate::specs::Elements::bytes_2))]
    fn word(self) -> u64 {
        let bytes = self.to_be_bytes();
        u64::from_be_bytes([bytes[0], bytes[1], 0, 0, 0, 0, 0, 0])
    }
}

impl Small for u8 {
    #[tactic(auto, unfolding(crate::specs::Elements::byte_1))]
    fn word(self) -> u64 {
        u64::from_be_bytes([self, 0, 0, 0, 0, 0, 0, 0])
    }
}

impl Small for i32 {
    #[tactic(auto, unfolding(crate::specs::Elements::signed_bytes_4))]
    fn word(self) -> u64 {
        let bytes = self.to_be_bytes();
        u64::from_be_bytes([bytes[0], bytes[1], bytes[2], bytes[3], 0, 0, 0, 0])
    }
}

impl Small for u64 {
    #[tactic(auto, unfolding(crate::specs::Elements::bytes_8))]
    fn word(self) -> u64 {
        self
    }
}

/// Tells that all elements are in their ranges. It does nothing.
pub(crate) fn know_all<E: ImageElement>(items: &[E])
    ensures { All E.fits items.now }
{
    for item in items {
        item.know();
    }
}

/// Puts the bytes of all elements at the end, where room was made for them.
pub(crate) fn put_all<E: ImageElement>(items: &[E], out: &mut Vec<u8>)
    requires { vec_len out.old + length items.now * E.SIZE ≤ vec_capacity out.old }
    ensures after { out.new.items ≡ out.old.items ++ flat_map E.spelled items.now }
    ensures len { vec_len out.new ≡ vec_len out.old + length items.now * E.SIZE }
    ensures capacity { vec_capacity out.old ≤ vec_capacity out.new }
    ensures fits { All E.fits items.now }
{
    let mut row = Vec::new(*out.allocator());
    mem::swap(&mut row, out);
    for item in items {
        item.put(&mut row);
    }
    mem::swap(&mut row, out);
}

/// Reads n elements from the front, into this room, of which nothing else is left.
#[inline(always)]
pub(crate) fn read_all<E: ImageElement>(
    room: Vec<E>,
    count: usize,
    bytes: &[u8],
) -> Result<Vec<E>, AllocError>
    requires { count * E.SIZE ≤ length bytes.now }
    ensures again { IfOk result (λ v.
        flat_map E.spelled v.items ≡ take (count * E.SIZE) bytes.now) }
    ensures count { IfOk result (λ v. length v.items ≡ count) }
    ensures fits { IfOk result (λ v. All E.fits v.items) }
    ensures some { OnErr result (count ≢ 0) }
{
    let mut items = emptied(room, count)?;
    let mut rest = bytes;
    for _ in 0..count {
        let (front, behind) = rest.split_at(E::SIZE);
        items.push_reserved(E::read(front));
        rest = behind;
    }
    Ok(items)
}

/// This room, empty, with place for n elements.
#[inline(always)]
fn emptied<E: ImageElement>(room: Vec<E>, count: usize) -> Result<Vec<E>, AllocError>
    ensures empty { IfOk result (λ v. v.items ≡ []) }
    ensures len { IfOk result (λ v. vec_len v ≡ 0) }
    ensures room { IfOk result (λ v. count ≤ vec_capacity v) }
    ensures some { OnErr result (count ≢ 0) }
{
    let mut items = room;
    items.clear();
    if items.capacity() >= count {
        return Ok(items);
    }
    grown(items, count)
}

/// This empty room, grown to have place for n elements. It takes the room and hands it back, so
/// that whoever has it keeps it in registers.
#[inline(never)]
fn grown<E: ImageElement>(room: Vec<E>, count: usize) -> Result<Vec<E>, AllocError>
    requires empty { room.items ≡ [] }
    requires len { vec_len room ≡ 0 }
    ensures empty { IfOk result (λ v. v.items ≡ []) }
    ensures len { IfOk result (λ v. vec_len v ≡ 0) }
    ensures room { IfOk result (λ v. count ≤ vec_capacity v) }
    ensures some { OnErr result (count ≢ 0) }
{
    let mut items = room;
    items.reserve(count)?;
    Ok(items)
}
