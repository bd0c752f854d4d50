//! The ring buffer of an event queue: 144 places, allocated with the first subscription. What is
//! put into which place `event_queue.rt` decides.
ghost use Rattle.std.specs.Prelude.{◌≡◌, ◌<◌, true, None, OnOk, OnErr, is_some, length, slice_get};
ghost use Rattle.std.specs.Option.{option_map};
ghost use Rattle.ca_text.specs.Place.{At};
ghost use Rattle.ca_queue.specs.Ring.{HasPlace, made, waits, with_back, with_entry_at};
ghost use Rattle.ca_queue.specs.Ring.{without_front};

use crate::entry::SubKey;
use ca_text::QUEUE_PLACES;
use circular_buffer::HeapCircularBuffer;
use std::alloc::{AllocError, Global};

/// Makes the ring, unless it was made.
pub(crate) fn make<E: Drop>(
    ring: &mut Option<HeapCircularBuffer<(SubKey, E)>>,
    alloc: Global,
) -> Result<(), AllocError>
    ensures ok { OnOk result (ring.new ≡ made ring.old) }
    ensures err { OnErr result ((ring.new ≡ ring.old) × (ring.old ≡ None)) }
{
    match ring {
        Some(_) => Ok(()),
        None => {
            *ring = Some(HeapCircularBuffer::with_capacity(alloc, QUEUE_PLACES)?);
            Ok(())
        }
    }
}

/// How many entries wait in a ring, if one was made.
pub(crate) fn waiting<E>(ring: &Option<HeapCircularBuffer<(SubKey, E)>>) -> usize
    ensures { result ≡ length (waits ring.now) }
{
    match ring {
        None => 0,
        Some(ring) => ring.len(),
    }
}

/// How many entries wait in a ring that was made.
pub(crate) fn waiting_in<E>(ring: &Option<HeapCircularBuffer<(SubKey, E)>>) -> usize
    requires { is_some ring.now ≡ true }
    ensures { result ≡ length (waits ring.now) }
{
    match ring {
        None => unreachable!(),
        Some(ring) => ring.len(),
    }
}

/// The subscription of the entry that has this number from the front.
pub(crate) fn key_of<E>(ring: &Option<HeapCircularBuffer<(SubKey, E)>>, index: usize) -> SubKey
    requires { index < length (waits ring.now) }
    ensures { (w : SubKey × E) × At (waits ring.now) index w × (result ≡ w.0) }
{
    match ring {
        None => unreachable!(),
        Some(ring) => match ring.get(index) {
            None => unreachable!(),
            Some(entry) => entry.0,
        },
    }
}

/// The entry that has this number from the front, with its subscription: None if fewer wait.
pub(crate) fn entry_of<E>(
    ring: &Option<HeapCircularBuffer<(SubKey, E)>>,
    index: usize,
) -> Option<(SubKey, &E)>
    ensures { option_map (λ w. (w.0, w.1.now)) result ≡ slice_get (waits ring.now) index }
{
    match ring {
        None => None,
        Some(ring) => match ring.get(index) {
            None => None,
            Some(entry) => Some((entry.0, &entry.1)),
        },
    }
}

/// Puts this entry in the place of the one that has this number from the front.
pub(crate) fn replace<E: Drop>(
    ring: &mut Option<HeapCircularBuffer<(SubKey, E)>>,
    index: usize,
    key: SubKey,
    entry: E,
)
    requires { index < length (waits ring.old) }
    ensures { ring.new ≡ option_map (with_entry_at index (key, entry)) ring.old }
{
    match ring {
        None => unreachable!(),
        Some(ring) => match ring.get_mut(index) {
            None => unreachable!(),
            Some(place) => *place = (key, entry),
        },
    }
}

/// Puts an entry to the back.
pub(crate) fn put<E: Drop>(
    ring: &mut Option<HeapCircularBuffer<(SubKey, E)>>,
    key: SubKey,
    entry: E,
)
    requires { HasPlace ring.old }
    ensures { ring.new ≡ option_map (with_back (key, entry)) ring.old }
{
    match ring {
        None => unreachable!(),
        Some(ring) => match ring.try_push_back((key, entry)) {
            Ok(()) => {}
            Err(_) => unreachable!(),
        },
    }
}

/// Takes the entry at the front out.
pub(crate) fn pop<E>(ring: &mut Option<HeapCircularBuffer<(SubKey, E)>>) -> Option<(SubKey, E)>
    ensures gives { result ≡ slice_get (waits ring.old) 0 }
    ensures leaves { ring.new ≡ option_map without_front ring.old }
{
    match ring {
        None => None,
        Some(ring) => ring.pop_front(),
    }
}
