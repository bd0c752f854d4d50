//! A value that becomes the same as another, in the memory that it has.
ghost use Rattle.std.specs.Prelude.{◌≡◌, ◌≤◌, [], OnErr, OnOk};
ghost use Rattle.ca_dbr.specs.Elements.{count_of, elements};

use ca_dbr::Value;
use std::alloc::{AllocError, Global};

// This value is the same as the other from now on. Its memory is kept if both are of one type.
// Without memory it has no elements, or is as it was.
#[inline(always)]
pub(crate) fn copy_over(alloc: Global, room: &mut Value, value: &Value) -> Result<(), AllocError>
    ensures ok { OnOk result (elements room.new ≡ elements value.now) }
    ensures few { OnErr result (count_of (elements room.new) ≤ count_of (elements room.old)) }
{
    match (value, &mut *room) {
        (Value::Strings(from), Value::Strings(to)) => renew(to, from),
        (Value::Ints(from), Value::Ints(to)) => renew(to, from),
        (Value::Floats(from), Value::Floats(to)) => renew(to, from),
        (Value::Enums(from), Value::Enums(to)) => renew(to, from),
        (Value::Chars(from), Value::Chars(to)) => renew(to, from),
        (Value::Longs(from), Value::Longs(to)) => renew(to, from),
        (Value::Doubles(from), Value::Doubles(to)) => renew(to, from),
        _ => replace(alloc, room, value),
    }
}

// This value is the same as the other from now on, in memory of its own.
#[inline(never)]
fn replace(alloc: Global, room: &mut Value, value: &Value) -> Result<(), AllocError>
    ensures ok { OnOk result (elements room.new ≡ elements value.now) }
    ensures err { OnErr result (room.new ≡ room.old) }
{
    match value.copy(alloc) {
        Ok(copy) => {
            *room = copy;
            Ok(())
        }
        Err(_) => Err(AllocError),
    }
}

// These items in place of those that were there. Without memory there are none.
#[inline(always)]
fn renew<T: Copy + Drop>(items: &mut Vec<T>, from: &[T]) -> Result<(), AllocError>
    ensures ok { OnOk result (items.new.items ≡ from.now) }
    ensures err { OnErr result (items.new.items ≡ []) }
{
    // Most values have one element, as the one before had.
    if items.len() == 1 && from.len() == 1 {
        items[0] = from[0];
        return Ok(());
    }
    renew_all(items, from)
}

// These items, however many there are, in place of those that were there.
#[inline(never)]
fn renew_all<T: Copy + Drop>(items: &mut Vec<T>, from: &[T]) -> Result<(), AllocError>
    ensures ok { OnOk result (items.new.items ≡ from.now) }
    ensures err { OnErr result (items.new.items ≡ []) }
{
    items.clear();
    items.extend_from_slice(from)
}
