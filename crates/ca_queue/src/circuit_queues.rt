//! The eight event queues of one circuit at a server. A subscription goes into the first queue with
//! room; updates are taken from the first queue that has one to send.
ghost use Rattle.std.specs.Prelude.{◌≡◌, ◌≤◌, IfOk, MatchOption, map, option_map, replicate};
ghost use Rattle.ca_text.specs.Limits.{circuit_queues};
ghost use Rattle.ca_queue.specs.Circuit.{AreFull, Begins, IsFirstWithRoom, HasAt, HasNone, Takes};
ghost use Rattle.ca_queue.specs.Circuit.{entry_in, queue_posted, without_each};
ghost use Rattle.ca_queue.specs.Keys.{same};
ghost use Rattle.ca_queue.specs.Queue.{Queue, no_queue, switched};

use crate::entry::SubKey;
use crate::queues::Queues;
use ca_text::{CIRCUIT_QUEUES, Refusal};
use std::alloc::{AllocError, Global};
use std::marker::{Model, PhantomData};

/// The event queues of a circuit, in order. Each of its subscriptions is in one of them, at a place
/// that its caller keeps.
#[derive(Drop)]
pub struct CircuitQueues<E: Drop, Q: Queues<E>> {
    queues: Vec<Q>,
    // Behind this place nothing ever waited, so that a take looks no further.
    last: usize,
    entries: PhantomData<E>,
}

impl<E: Drop, Q: Queues<E>> Model for CircuitQueues<E, Q> {
    ghost use Rattle.std.specs.Coded.{coded_list};
    ghost use Rattle.std.specs.Prelude.{List, map};
    ghost use Rattle.ca_queue.specs.Queue.{Queue, queue_code};

    ghost Value = { List (Queue E) };

    ghost coded = { coded_list (queue_code E.code) };

    ghost use Rattle.ca_queue.specs.Circuit.{AreIdleBehind, AreInOne};

    ghost view = { λ s. map Q.contents s.queues.items };

    ghost invariant = { λ s.
        AreInOne (map Q.contents s.queues.items)
        × AreIdleBehind s.last (map Q.contents s.queues.items) };
}

impl<E: Drop, Q: Queues<E>> CircuitQueues<E, Q> {
    /// Eight queues with no subscription.
    pub fn new(alloc: Global) -> Result<Self, AllocError>
        ensures { IfOk result (λ queues. queues ≡ replicate circuit_queues no_queue) }
    {
        let mut queues = Vec::with_capacity(alloc, CIRCUIT_QUEUES)?;
        for _ in 0..CIRCUIT_QUEUES {
            queues.push_reserved(Q::new(alloc));
        }
        Ok(CircuitQueues {
            queues,
            last: 0,
            entries: PhantomData,
        })
    }

    /// Adds a subscription to the first queue with room, with its first entry, and
    /// returns the queue's place.
    ///
    /// Refused as `TooManySubscriptions` if no queue has room, and as `OutOfMemory` only by a queue
    /// that has no subscription, also if it had some. A refusal changes nothing.
    pub fn begin(&mut self, key: SubKey, entry: E) -> Result<usize, Refusal>
        requires { HasNone self.old key }
        ensures { Begins self.old key entry result self.new }
    {
        let Some(place) = self.first_with_room() else {
            return Err(Refusal::TooManySubscriptions);
        };
        if let Err(_) = self.queues[place].add(key) {
            return Err(Refusal::OutOfMemory);
        }
        self.queues[place].post(key, entry);
        self.last = self.last.max(place);
        Ok(place)
    }

    // The place of the first queue with room for a subscription.
    fn first_with_room(&self) -> Option<usize>
        ensures { MatchOption result (AreFull self.now)
            (λ place. (q : Queue E) × IsFirstWithRoom self.now place q) }
    {
        for place in 0..self.queues.len() {
            if !self.queues[place].is_full() {
                return Some(place);
            }
        }
        None
    }

    /// Puts an entry of a subscription into the queue that has it, which is at this place.
    /// It does not allocate.
    pub fn post(&mut self, place: usize, key: SubKey, entry: E)
        requires { HasAt self.old place key }
        ensures { self.new ≡ map (queue_posted key entry) self.old }
    {
        let queue = &mut self.queues[place];
        queue.post(key, entry);
        self.last = self.last.max(place);
    }

    /// Takes an entry from the first queue that has one that may be taken, and returns the
    /// queue's place with it.
    pub fn take(&mut self) -> Option<(usize, SubKey, E)>
        ensures { Takes self.old result self.new }
    {
        for place in 0..self.queues.len() {
            if place > self.last {
                return None;
            }
            if let Some((key, entry)) = self.queues[place].take() {
                return Some((place, key, entry));
            }
        }
        None
    }

    /// The entry that has this number from the front of the queue at this place, with its
    /// subscription: None if there is none. Only a recorder of histories needs it.
    pub fn entry(&self, place: usize, index: usize) -> Option<(SubKey, &E)>
        ensures { option_map (λ w. (w.0, w.1.now)) result ≡ entry_in self.now place index }
    {
        if place >= self.queues.len() {
            return None;
        }
        self.queues[place].entry(index)
    }

    /// Takes out a subscription and all its entries. The queue that has it is at this place.
    pub fn cancel(&mut self, place: usize, key: SubKey)
        requires { HasAt self.old place key }
        ensures { self.new ≡ without_each (same key) self.old }
    {
        self.queues[place].cancel(key);
        self.last = self.last.max(place);
    }

    /// Turns events on or off in all queues.
    pub fn set_events(&mut self, on: bool)
        ensures { self.new ≡ map (switched on) self.old }
    {
        for place in 0..self.queues.len() {
            self.queues[place].set_events(on);
        }
    }
}
