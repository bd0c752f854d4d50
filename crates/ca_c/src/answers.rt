//! What a call answers, as numbers: 0 or a refusal, and a handle.

ghost use Rattle.std.specs.Prelude.{◌≡◌, ◌≤◌, ◌++◌, drop, length, min, take};
ghost use Rattle.ca_dbr.specs.Data.{data_of};
ghost use Rattle.ca_dbr.specs.Elements.{elements};
ghost use Rattle.ca_c.specs.Answers.{CopiesDisplay, CopiesValue, ShowsAll, ShowsDisplay};
ghost use Rattle.ca_c.specs.Answers.{ShowsValue, code_of, handle_of, number_of, refusal_code};

use ca_arena::Handle;
use ca_dbr::{Display, Meta, Value, write_value};
use ca_display::write_display;
use ca_text::Refusal;
use std::alloc::Global;

/// The struct has no object.
pub(crate) const NO_OBJECT: i32 = -100;

/// The first type with display data.
pub(crate) const FIRST_DISPLAY: u16 = 21;

/// The first with control limits.
const FIRST_CONTROL: u16 = 28;

/// The number of a refusal, below zero.
pub(crate) fn refused(refusal: Refusal) -> i32
    ensures { result ≡ refusal_code refusal }
{
    -(refusal.number() as i32)
}

/// 0, or the number of a refusal.
pub(crate) fn code(answer: Result<(), Refusal>) -> i32
    ensures { result ≡ code_of answer }
{
    match answer {
        Ok(()) => 0,
        Err(refusal) => refused(refusal),
    }
}

/// A handle as one number: its generation, and then its index.
pub(crate) fn number(handle: Handle) -> u64
    ensures { result ≡ number_of handle }
{
    handle.generation as u64 * 65536 + handle.index as u64
}

/// The handle of a number.
pub(crate) fn handle(number: u64) -> Handle
    ensures { result ≡ handle_of number }
{
    Handle {
        index: (number % 65536) as u16,
        generation: (number / 65536 % 4294967296) as u32,
    }
}

/// Copies as many bytes as there is room for, and says how many.
pub(crate) fn filled(bytes: &[u8], room: &mut [u8]) -> usize
    ensures there { result ≤ length bytes.now }
    ensures filled { room.new ≡ take result bytes.now ++ drop result room.old }
    ensures most { result ≡ min (length bytes.now) (length room.old) }
{
    let n = bytes.len().min(room.len());
    room[..n].copy_from_slice(&bytes[..n]);
    n
}

/// Copies as many bytes as there is room for, and says how many they are in all.
pub(crate) fn copied(bytes: &[u8], room: &mut [u8]) -> usize
    ensures { ShowsAll bytes.now result room.old room.new }
{
    filled(bytes, room);
    bytes.len()
}

/// Copies the image of a value in this type, as far as there is room for it, and writes how long it
/// is. Refused as BadType, then as OutOfMemory.
pub(crate) fn shown(
    alloc: Global,
    data_type: u16,
    value: &Value,
    meta: &Meta,
    room: &mut [u8],
    size: &mut usize,
) -> i32
    ensures { ShowsValue data_type (elements value.now) meta.now result
        size.old size.new room.old room.new }
{
    code(copied_value(alloc, data_type, value, meta, room, size))
}

/// Copies the image of a value in this type, as far as there is room for it, and writes how long it
/// is, as `shown`. The answer is not yet a number.
pub(crate) fn copied_value(
    alloc: Global,
    data_type: u16,
    value: &Value,
    meta: &Meta,
    room: &mut [u8],
    size: &mut usize,
) -> Result<(), Refusal>
    ensures { CopiesValue data_type (elements value.now) meta.now result
        size.old size.new room.old room.new }
{
    let mut image = Vec::new(alloc);
    write_value(data_type, value, meta, &mut image)?;
    *size = copied(image.as_slice(), room);
    Ok(())
}

/// Copies the image of a value with display data in this type, as `shown`. A type with display data
/// is to be of the value's base.
pub(crate) fn displayed(
    alloc: Global,
    data_type: u16,
    value: &Value,
    meta: &Meta,
    display: &Display,
    room: &mut [u8],
    size: &mut usize,
) -> i32
    ensures { ShowsDisplay data_type (elements value.now) meta.now (data_of display.now) result
        size.old size.new room.old room.new }
{
    let own = value.base_type().number();
    if data_type == own + FIRST_DISPLAY || data_type == own + FIRST_CONTROL {
        code(copied_display(alloc, data_type, value, meta, display, room, size))
    } else {
        shown(alloc, data_type, value, meta, room, size)
    }
}

// Copies the image of a value with its display data. Refused as `write_display`.
fn copied_display(
    alloc: Global,
    data_type: u16,
    value: &Value,
    meta: &Meta,
    display: &Display,
    room: &mut [u8],
    size: &mut usize,
) -> Result<(), Refusal>
    ensures { CopiesDisplay data_type (elements value.now) meta.now (data_of display.now) result
        size.old size.new room.old room.new }
{
    // A message counts no more.
    let count = value.count().min(4294967295) as u32;
    let mut image = Vec::new(alloc);
    write_display(data_type, count, value, meta, display, &mut image)?;
    *size = copied(image.as_slice(), room);
    Ok(())
}
