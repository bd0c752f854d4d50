//! The simple event queue: a list of entries that is searched from the back. Tests compare it with
//! the faster `event_queue.rt`, and simulated worlds use it.
ghost use Rattle.std.specs.Prelude.{◌≡◌, ◌<◌, ◌≤◌, ◌++◌, ◌∷◌, [], IsTrue, OnOk, OnErr, length, map};
ghost use Rattle.std.specs.Prelude.{filter, not, vec_capacity, nat_lt, nat_le, true, false, ◌-◌};
ghost use Rattle.std.specs.Prelude.{◌&&◌, ◌||◌, is_some};
ghost use Rattle.std.specs.VecDeque.{deque_capacity};
ghost use Rattle.std.specs.List.{list_any};
ghost use Rattle.ca_text.specs.Limits.{queue_low_places, queue_places, queue_subscriptions};
ghost use Rattle.ca_queue.specs.Keys.{same};
ghost use Rattle.ca_queue.specs.Layout.{HasRoom, count_at, is_roomy, recounted};
ghost use Rattle.ca_queue.specs.Waiting.{taken};

use crate::entry::{SubKey, is_same};
use crate::places::{drop_entries, replace_last};
use crate::queues::Queues;
use ca_text::{QUEUE_LOW_PLACES, QUEUE_PLACES, QUEUE_SUBSCRIPTIONS, Refusal};
use std::alloc::{AllocError, Global};
use std::collections::VecDeque;
use std::marker::Model;

/// An event queue of any entries as a plain list. Contracts see it as the queue that it is, and
/// whether its room was made.
///
/// A post that replaces looks for its subscription's last entry from the back. A take looks at no
/// entry but the front, and at the subscriptions, of which there are at most 36.
#[derive(Drop)]
pub struct ListQueue<E> {
    entries: VecDeque<(SubKey, E)>,
    subscriptions: Vec<Subscriber>,
    events_on: bool,
}

// A subscription, and how many entries it has.
#[derive(Clone, Copy)]
struct Subscriber {
    key: SubKey,
    waiting: usize,
}

impl<E> Model for ListQueue<E> {
    ghost use Rattle.std.specs.Vec.{vec_capacity};
    ghost use Rattle.std.specs.VecDeque.{deque_capacity};
    ghost use Rattle.std.specs.Coded.{coded×, coded_bool};
    ghost use Rattle.ca_queue.specs.Queue.{Queue, queue_code};
    ghost use Rattle.std.specs.Prelude.{Bool};

    ghost Value = { Queue E × Bool };

    ghost coded = { coded× (queue_code E.code) coded_bool };

    ghost use Rattle.ca_queue.specs.Layout.{queue_of, is_roomy, IsLaidOut};

    ghost view = { λ q. (
      queue_of q.entries.items q.subscriptions.items q.events_on,
      is_roomy
          (deque_capacity q.entries) (vec_capacity q.subscriptions),
    ) };

    ghost invariant = { λ q.
        IsLaidOut q.entries.items q.subscriptions.items q.events_on (deque_capacity q.entries)
        (vec_capacity q.subscriptions) };
}

impl<E: Drop> Queues<E> for ListQueue<E> {
    ghost contents = { λ q. q.0 };

    ghost has_room = { λ q. q.1 };

    fn new(alloc: Global) -> Self {
        ListQueue {
            entries: VecDeque::new(alloc),
            subscriptions: Vec::new(alloc),
            events_on: true,
        }
    }

    fn is_full(&self) -> bool {
        self.subscriptions.len() >= QUEUE_SUBSCRIPTIONS
    }

    fn add(&mut self, key: SubKey) -> Result<(), Refusal> {
        if self.subscriptions.len() == QUEUE_SUBSCRIPTIONS {
            return Err(Refusal::TooManySubscriptions);
        }
        make_room(&mut self.entries, &mut self.subscriptions)?;
        self.subscriptions
            .push_reserved(Subscriber { key, waiting: 0 });
        Ok(())
    }

    fn post(&mut self, key: SubKey, entry: E) {
        let count = waiting_of(&self.subscriptions, key);
        if is_replacing(count, self.entries.len(), self.events_on) {
            replace_last(&mut self.entries, key, entry);
            return;
        }
        self.entries.push_back_reserved((key, entry));
        recount(&mut self.subscriptions, key, count + 1);
    }

    fn take(&mut self) -> Option<(SubKey, E)> {
        if !may_take(&self.subscriptions, self.events_on) {
            return None;
        }
        let (key, entry) = self.entries.pop_front()?;
        let count = waiting_of(&self.subscriptions, key);
        recount(&mut self.subscriptions, key, count - 1);
        Some((key, entry))
    }

    fn entry(&self, index: usize) -> Option<(SubKey, &E)> {
        match self.entries.get(index) {
            None => None,
            Some(entry) => Some((entry.0, &entry.1)),
        }
    }

    fn cancel(&mut self, key: SubKey) {
        drop_entries(&mut self.entries, key);
        forget(&mut self.subscriptions, key);
    }

    fn set_events(&mut self, on: bool) {
        self.events_on = on;
    }
}

impl<E: Drop> ListQueue<E> {
    /// Makes the room for all that comes, so that `add` finds it. The queue stays as it is.
    pub fn reserve(&mut self) -> Result<(), AllocError>
        ensures same { self.new.0 ≡ self.old.0 }
        ensures room { OnOk result (IsTrue self.new.1) }
    {
        if !self.subscriptions.is_empty() {
            return Ok(());
        }
        make_room(&mut self.entries, &mut self.subscriptions)
    }

    /// How many entries wait.
    pub fn waiting(&self) -> usize
        ensures { result ≡ length self.now.0.waiting }
    {
        self.entries.len()
    }

    /// Whether an entry may be taken now.
    pub fn may_give(&self) -> bool
        ensures { result ≡ is_some (taken self.now.0.events_on self.now.0.waiting) }
    {
        if self.entries.len() == 0 {
            return false;
        }
        may_take(&self.subscriptions, self.events_on)
    }
}

// Makes the room for all entries and subscriptions that come, unless it was made.
fn make_room<E>(
    entries: &mut VecDeque<(SubKey, E)>,
    subscriptions: &mut Vec<Subscriber>,
) -> Result<(), AllocError>
    requires fits { length entries.old.items ≤ queue_places }
    requires few { length subscriptions.old.items < queue_subscriptions }
    requires roomy { HasRoom subscriptions.old.items (deque_capacity entries.old)
        (vec_capacity subscriptions.old) }
    ensures entries { entries.new.items ≡ entries.old.items }
    ensures subscriptions { subscriptions.new.items ≡ subscriptions.old.items }
    ensures places { OnOk result (queue_places ≤ deque_capacity entries.new) }
    ensures room { OnOk result (queue_subscriptions ≤ vec_capacity subscriptions.new) }
    ensures roomy { OnOk result (is_roomy (deque_capacity entries.new)
        (vec_capacity subscriptions.new) ≡ true) }
    ensures refused { OnErr result (subscriptions.old.items ≡ []) }
    ensures full { OnErr result (is_roomy (deque_capacity entries.old)
        (vec_capacity subscriptions.old) ≡ false) }
{
    entries.reserve(QUEUE_PLACES - entries.len())?;
    subscriptions.reserve(QUEUE_SUBSCRIPTIONS - subscriptions.len())?;
    Ok(())
}

// How many entries this subscription has.
fn waiting_of(subscriptions: &[Subscriber], key: SubKey) -> usize
    ensures { result ≡ count_at key subscriptions.now }
{
    for s in subscriptions {
        if is_same(key, s.key) {
            return s.waiting;
        }
    }
    0
}

// Writes how many entries this subscription has.
fn recount(subscriptions: &mut [Subscriber], key: SubKey, count: usize)
    ensures { subscriptions.new ≡ map (recounted key count) subscriptions.old }
{
    for s in subscriptions.iter_mut() {
        if is_same(key, s.key) {
            s.waiting = count;
        }
    }
}

// Whether some subscription has two entries or more.
fn is_crowded(subscriptions: &[Subscriber]) -> bool
    ensures { result ≡ list_any (λ s. nat_lt 1 s.waiting) subscriptions.now }
{
    subscriptions.iter().any(|s| s.waiting > 1)
}

// Whether an entry may be taken: with events off, only while some subscription has
// two entries or more.
fn may_take(subscriptions: &[Subscriber], events_on: bool) -> bool
    ensures { result ≡ (events_on || list_any (λ s. nat_lt 1 s.waiting) subscriptions.now) }
{
    events_on || is_crowded(subscriptions)
}

// Whether a post takes the place of its subscription's last entry: it has n, of m that wait.
fn is_replacing(count: usize, length: usize, events_on: bool) -> bool
    requires { length ≤ queue_places }
    ensures { result
        ≡ (nat_lt 0 count && (nat_le (queue_places - length) queue_low_places || not events_on)) }
{
    count > 0 && (QUEUE_PLACES - length <= QUEUE_LOW_PLACES || !events_on)
}

// Takes this subscription out.
fn forget(subscriptions: &mut Vec<Subscriber>, key: SubKey)
    ensures items { subscriptions.new.items
        ≡ filter (λ s. not (same key s.key)) subscriptions.old.items }
    ensures capacity { vec_capacity subscriptions.new ≡ vec_capacity subscriptions.old }
{
    subscriptions.retain(|s| !is_same(key, s.key));
}
