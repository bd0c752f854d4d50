//! How a queue kept as a plain list replaces the last entry of a subscription, and how it removes
//! all its entries.
ghost use Rattle.std.specs.Prelude.{◌≡◌, ◌+◌, ◌<◌, IsTrue, IsFalse, length, drop};
ghost use Rattle.std.specs.VecDeque.{deque_capacity};
ghost use Rattle.ca_queue.specs.Waiting.{has_entry, with_last, after_cancel};

use crate::entry::{SubKey, is_same};
use std::collections::VecDeque;

/// Puts this entry in place of the last one of its subscription.
pub(crate) fn replace_last<E: Drop>(entries: &mut VecDeque<(SubKey, E)>, key: SubKey, entry: E)
    requires { IsTrue (has_entry key entries.old.items) }
    ensures items { entries.new.items ≡ with_last key entry entries.old.items }
    ensures capacity { deque_capacity entries.new ≡ deque_capacity entries.old }
{
    let place = last_place(entries, key);
    entries[place] = (key, entry);
}

/// Where the last entry of this subscription is.
fn last_place<E>(entries: &VecDeque<(SubKey, E)>, key: SubKey) -> usize
    requires { IsTrue (has_entry key entries.now.items) }
    ensures within { result < length entries.now.items }
    ensures here { IsTrue (has_entry key (drop result entries.now.items)) }
    ensures behind { IsFalse (has_entry key (drop (result + 1) entries.now.items)) }
{
    let mut place = entries.len();
    while place > 0 {
        place -= 1;
        if is_same(key, entries[place].0) {
            return place;
        }
    }
    unreachable!()
}

/// Takes all entries of this subscription out.
pub(crate) fn drop_entries<E: Drop>(entries: &mut VecDeque<(SubKey, E)>, key: SubKey)
    ensures items { entries.new.items ≡ after_cancel key entries.old.items }
    ensures capacity { deque_capacity entries.new ≡ deque_capacity entries.old }
{
    entries.retain(|entry| !is_same(key, entry.0));
}
