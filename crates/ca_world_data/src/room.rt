//! Room in the lists of a circuit.
ghost use Rattle.std.specs.Prelude.{◌≡◌, ◌+◌, ◌<◌, ◌≤◌, OnErr, OnOk, vec_capacity, vec_len};

use std::alloc::AllocError;

// A list gets room for this many first. That is a page of memory for the larger items (of 64 and 72
// bytes): lists of many circuits lie on pages of their own then, so that less room would take the
// same pages, and each time that it doubles copy what no cache holds any more.
const FIRST_ROOM: usize = 64;

/// Makes room for n more items in a list of a circuit. Only a list that has less is refused.
pub fn reserve_list<T>(list: &mut Vec<T>, more: usize) -> Result<(), AllocError>
    ensures items { list.new.items ≡ list.old.items }
    ensures len { vec_len list.new ≡ vec_len list.old }
    ensures capacity { vec_capacity list.old ≤ vec_capacity list.new }
    ensures room { OnOk result (vec_len list.new + more ≤ vec_capacity list.new) }
    ensures less { OnErr result (vec_capacity list.old < vec_len list.old + more) }
{
    if more <= list.capacity() - list.len() {
        return Ok(());
    }
    if list.is_empty() {
        return list.reserve(more.max(FIRST_ROOM));
    }
    list.reserve(more)
}
