//! The subscriptions of an event queue, each with the number of the last put of one of its entries.
//! It tells `event_queue.rt` where the last entry of a subscription is without a search.
ghost use Rattle.std.specs.Prelude.{◌≡◌, ◌<◌, ◌≤◌, ◌+◌, ◌++◌, ◌∷◌, [], true, false, Some, OnOk};
ghost use Rattle.std.specs.Prelude.{OnErr, length, filter, not, position, slice_set, vec_capacity};
ghost use Rattle.ca_text.specs.Limits.{queue_subscriptions};
ghost use Rattle.indexmap.specs.IndexSet.{index_set_len, spare, IsEmpty};
ghost use Rattle.ca_queue.specs.Keys.{AreApart, same, is_among};
ghost use Rattle.ca_queue.specs.Ring.{IsAt, key_at, keys_of_lasts, last_at, unplaced};

use crate::entry::{SubKey, is_same};
use ca_text::QUEUE_SUBSCRIPTIONS;
use indexmap::IndexSet;
use std::alloc::{AllocError, Global};
use std::marker::Model;

// How many guesses are kept.
const GUESSES: usize = 64;

/// The subscriptions of a queue in the order of their adds, each with the number of its
/// last put, and an index by key. Contracts see the subscriptions, and whether room for
/// all that come was made.
#[derive(Drop)]
pub(crate) struct Lasts {
    index: IndexSet<SubKey>,
    lasts: Vec<Last>,
    // By a few bits of a key, the number of the subscription that was found there last. Most are
    // found again without the index.
    guesses: [u8; GUESSES],
}

/// A subscription, and the number of the put of its last entry, if it has one.
#[derive(Clone, Copy)]
pub(crate) struct Last {
    pub(crate) key: SubKey,
    pub(crate) put: usize,
}

impl Model for Lasts {
    ghost use Rattle.std.specs.Prelude.{List, Bool};
    ghost use Rattle.std.specs.Vec.{vec_capacity};
    ghost use Rattle.indexmap.specs.IndexSet.{index_set_len, spare};
    ghost use Rattle.ca_queue.specs.declared.lasts.Last.{Last};
    ghost use Rattle.ca_queue.specs.Ring.{has_room_for_all, IsIndexed};

    ghost Value = { List Last × Bool };

    ghost view = { λ s. (
      s.lasts.items,
      has_room_for_all (vec_capacity s.lasts) (index_set_len s.index) (spare s.index),
    ) };

    ghost invariant = { λ s.
        IsIndexed s.lasts.items s.index.keys (vec_capacity s.lasts) (index_set_len s.index)
        (spare s.index) };
}

impl Lasts {
    /// No subscription. It does not allocate yet.
    pub(crate) fn new(alloc: Global) -> Lasts
        ensures none { result.0 ≡ [] }
        ensures room { result.1 ≡ false }
    {
        Lasts {
            index: IndexSet::new(alloc),
            lasts: Vec::new(alloc),
            guesses: [0; GUESSES],
        }
    }

    /// How many there are.
    pub(crate) fn len(&self) -> usize
        ensures { result ≡ length self.now.0 }
    {
        self.lasts.len()
    }

    /// Makes room for all that come, unless it was made.
    pub(crate) fn reserve(&mut self) -> Result<(), AllocError>
        requires { length self.old.0 < queue_subscriptions }
        ensures lasts { self.new.0 ≡ self.old.0 }
        ensures ok { OnOk result (self.new.1 ≡ true) }
        ensures err { OnErr result ((self.old.0 ≡ []) × (self.old.1 ≡ false)) }
    {
        let more = QUEUE_SUBSCRIPTIONS - self.lasts.len();
        self.lasts.reserve(more)?;
        self.index.reserve(more)?;
        Ok(())
    }

    /// Adds a subscription, which has no entry yet.
    pub(crate) fn push(&mut self, key: SubKey)
        requires few { length self.old.0 < queue_subscriptions }
        requires room { self.old.1 ≡ true }
        requires new { is_among key (keys_of_lasts self.old.0) ≡ false }
        ensures { self.new ≡ (self.old.0 ++ unplaced key ∷ [], true) }
    {
        self.lasts.push_reserved(Last { key, put: 0 });
        match self.index.insert_full(key) {
            Ok(_) => {}
            Err(_) => unreachable!(),
        }
    }

    /// The number of a subscription in the order of adds.
    pub(crate) fn find(&mut self, key: SubKey) -> usize
        requires { is_among key (keys_of_lasts self.old.0) ≡ true }
        ensures at { IsAt key (keys_of_lasts self.new.0) result }
        ensures same { self.new ≡ self.old }
    {
        let slot = slot_of(key);
        let guess = usize::from(self.guesses[slot]);
        if self.is_at(guess, key) {
            return guess;
        }
        let number = look_up(&self.index, key);
        self.guesses[slot] = u8::try_from(number).unwrap_or(0);
        number
    }

    // Whether there is a subscription of this number, and it has this key.
    fn is_at(&self, number: usize, key: SubKey) -> bool
        ensures { result ≡ true → IsAt key (keys_of_lasts self.now.0) number }
    {
        if number >= self.lasts.len() {
            return false;
        }
        is_same(key, self.key(number))
    }

    /// The key of the subscription that has this number.
    pub(crate) fn key(&self, number: usize) -> SubKey
        requires { number < length self.now.0 }
        ensures { result ≡ key_at self.now.0 number }
    {
        self.lasts[number].key
    }

    /// The number of the last put of the subscription that has this number.
    pub(crate) fn last(&self, number: usize) -> usize
        requires { number < length self.now.0 }
        ensures { result ≡ last_at self.now.0 number }
    {
        self.lasts[number].put
    }

    /// Writes the number of the last put of this subscription, which has this number.
    pub(crate) fn set(&mut self, number: usize, key: SubKey, put: usize)
        requires { IsAt key (keys_of_lasts self.old.0) number }
        ensures { self.new ≡ (
          slice_set self.old.0 number (record { key = key; put = put }),
          self.old.1,
        ) }
    {
        self.lasts[number] = Last { key, put };
    }

    /// Takes this subscription out.
    pub(crate) fn forget(&mut self, key: SubKey)
        ensures lasts { self.new.0 ≡ filter (λ l. not (same key l.key)) self.old.0 }
        ensures room { self.old.1 ≡ true → self.new.1 ≡ true }
    {
        retain_others(&mut self.lasts, key);
        self.index.clear();
        index_all(&mut self.index, &self.lasts);
    }
}

// Where the guess for a key is kept.
fn slot_of(key: SubKey) -> usize
    ensures { result < 64 }
{
    key.sid.wrapping_add(key.sub) as usize % GUESSES
}

// The number of a key in the index.
#[cold]
#[inline(never)]
fn look_up(index: &IndexSet<SubKey>, key: SubKey) -> usize
    requires { is_among key index.now.keys ≡ true }
    ensures { position (same key) index.now.keys ≡ Some result }
{
    match index.get_index_of(&key) {
        None => unreachable!(),
        Some(number) => number,
    }
}

// Takes this subscription out.
fn retain_others(lasts: &mut Vec<Last>, key: SubKey)
    ensures items { lasts.new.items ≡ filter (λ l. not (same key l.key)) lasts.old.items }
    ensures capacity { vec_capacity lasts.new ≡ vec_capacity lasts.old }
{
    lasts.retain(|l| !is_same(key, l.key));
}

// Puts the keys of these subscriptions into the index, which is empty and has room.
fn index_all(index: &mut IndexSet<SubKey>, lasts: &[Last])
    requires empty { IsEmpty index.old }
    requires apart { AreApart (keys_of_lasts lasts.now) }
    requires room { length lasts.now ≤ spare index.old }
    ensures keys { index.new.keys ≡ keys_of_lasts lasts.now }
    ensures len { index_set_len index.new ≡ length lasts.now }
    ensures room { spare index.old ≤ index_set_len index.new + spare index.new }
{
    for l in lasts {
        match index.insert_full(l.key) {
            Ok(_) => {}
            Err(_) => unreachable!(),
        }
    }
}
