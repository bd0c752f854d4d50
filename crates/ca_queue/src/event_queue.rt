//! The event queue that servers use, as a ring buffer. Begin at `post` and `take`: neither searches
//! the entries. What they must do is said by the trait in `queues.rt`.
ghost use Rattle.std.specs.Prelude.{ℕ, ◌≡◌, ◌<◌, ◌≤◌, ◌+◌, ◌-◌, ◌^◌, [], true, Some, None, IsTrue};
ghost use Rattle.std.specs.Prelude.{length, is_some, nat_le, slice_set, not, ◌||◌, if◌then◌else◌};
ghost use Rattle.std.specs.Option.{option_map};
ghost use Rattle.ca_text.specs.Limits.{queue_low_places, queue_places};
ghost use Rattle.ca_queue.specs.Keys.{AreApart, is_among};
ghost use Rattle.ca_queue.specs.Waiting.{after_cancel, has_entry};
ghost use Rattle.ca_queue.specs.Ring.{AreInPlaces, AreNoted, HasPlace, IsAt, having, keys_of_lasts};
ghost use Rattle.ca_queue.specs.Ring.{last_index, next_put, puts_after, waits, with_back};
ghost use Rattle.ca_queue.specs.Ring.{with_items};

use crate::entry::{SubKey, is_same};
use crate::lasts::Lasts;
use crate::queues::Queues;
use crate::ring::{entry_of, key_of, make, pop, put, replace, waiting, waiting_in};
use ca_text::{QUEUE_LOW_PLACES, QUEUE_PLACES, QUEUE_SUBSCRIPTIONS, Refusal};
use circular_buffer::HeapCircularBuffer;
use std::alloc::Global;
use std::marker::Model;

/// An event queue of any entries as a ring. Contracts see it as the queue that it is, and
/// whether its room was made.
///
/// Each put at the back has a number, and with each subscription stands that of its last one. How
/// many puts there were since says where its last entry is, so a post looks at no entry but the one
/// whose place it takes, and a take at none but the front.
#[derive(Drop)]
pub struct EventQueue<E> {
    alloc: Global,
    ring: Option<HeapCircularBuffer<(SubKey, E)>>,
    lasts: Lasts,
    // The number of the last put.
    puts: usize,
    events_on: bool,
    // While events are off: how many entries wait besides one of each subscription that has one.
    extra: usize,
}

impl<E> Model for EventQueue<E> {
    ghost use Rattle.std.specs.Coded.{coded×, coded_bool};
    ghost use Rattle.std.specs.Prelude.{Bool, is_some};
    ghost use Rattle.ca_queue.specs.Queue.{Queue, queue_code};

    ghost Value = { Queue E × Bool };

    ghost coded = { coded× (queue_code E.code) coded_bool };

    ghost use Rattle.ca_queue.specs.Ring.{IsRing, ring_queue, waits};

    ghost view = { λ q. (ring_queue (waits q.ring) q.lasts.0 q.events_on, is_some q.ring) };

    ghost invariant = { λ q. IsRing q.ring q.lasts.0 q.lasts.1 q.events_on q.puts q.extra };
}

impl<E: Drop> Queues<E> for EventQueue<E> {
    ghost contents = { λ q. q.0 };

    ghost has_room = { λ q. q.1 };

    fn new(alloc: Global) -> Self {
        EventQueue {
            alloc,
            ring: None,
            lasts: Lasts::new(alloc),
            puts: 0,
            events_on: true,
            extra: 0,
        }
    }

    fn is_full(&self) -> bool {
        self.lasts.len() >= QUEUE_SUBSCRIPTIONS
    }

    fn add(&mut self, key: SubKey) -> Result<(), Refusal> {
        if self.lasts.len() == QUEUE_SUBSCRIPTIONS {
            return Err(Refusal::TooManySubscriptions);
        }
        self.lasts.reserve()?;
        make(&mut self.ring, self.alloc)?;
        self.lasts.push(key);
        Ok(())
    }

    fn post(&mut self, key: SubKey, entry: E) {
        let number = self.lasts.find(key);
        let behind = puts_since(self.puts, self.lasts.last(number));
        if let Some(index) = replaced(&self.ring, key, behind, self.events_on) {
            replace(&mut self.ring, index, key, entry);
            return;
        }
        append(
            &mut self.ring,
            &mut self.lasts,
            &mut self.puts,
            number,
            key,
            entry,
        );
    }

    fn take(&mut self) -> Option<(SubKey, E)> {
        if self.events_on {
            return pop(&mut self.ring);
        }
        if self.extra == 0 {
            return None;
        }
        let (key, entry) = pop(&mut self.ring)?;
        let number = self.lasts.find(key);
        let behind = puts_since(self.puts, self.lasts.last(number));
        self.extra -= one_if_some(last_of(&self.ring, key, behind));
        Some((key, entry))
    }

    fn entry(&self, index: usize) -> Option<(SubKey, &E)> {
        entry_of(&self.ring, index)
    }

    fn cancel(&mut self, key: SubKey) {
        self.lasts.forget(key);
        go_round(&mut self.ring, &mut self.lasts, &mut self.puts, key);
        self.extra = waiting(&self.ring) - occupied(&self.ring, &self.lasts, self.puts);
    }

    fn set_events(&mut self, on: bool) {
        self.extra = waiting(&self.ring) - occupied(&self.ring, &self.lasts, self.puts);
        self.events_on = on;
    }
}

// The number of the next put.
fn next(puts: usize) -> usize
    ensures { result ≡ next_put puts }
{
    puts.wrapping_add(1)
}

// How many puts there were after this one.
fn puts_since(puts: usize, put: usize) -> usize
    ensures { result ≡ puts_after puts put }
{
    puts.wrapping_sub(put)
}

// Puts an entry of this subscription, which has this number, to the back.
fn append<E: Drop>(
    ring: &mut Option<HeapCircularBuffer<(SubKey, E)>>,
    lasts: &mut Lasts,
    puts: &mut usize,
    number: usize,
    key: SubKey,
    entry: E,
)
    requires place { HasPlace ring.old }
    requires at { IsAt key (keys_of_lasts lasts.old.0) number }
    ensures puts { puts.new ≡ next_put puts.old }
    ensures lasts { lasts.new ≡ (
      slice_set lasts.old.0 number (record { key = key; put = next_put puts.old }),
      lasts.old.1,
    ) }
    ensures ring { ring.new ≡ option_map (with_back (key, entry)) ring.old }
{
    *puts = next(*puts);
    lasts.set(number, key, *puts);
    put(ring, key, entry);
}

// Where the entry is that a post takes the place of, if it does: its subscription's last
// one, after which n wait.
fn replaced<E>(
    ring: &Option<HeapCircularBuffer<(SubKey, E)>>,
    key: SubKey,
    behind: usize,
    events_on: bool,
) -> Option<usize>
    requires made { is_some ring.now ≡ true }
    requires within { length (waits ring.now) ≤ queue_places }
    requires behind { (i : ℕ) → last_index key (waits ring.now) ≡ Some i
        → i + 1 + behind ≡ length (waits ring.now) }
    ensures { result
        ≡ (if nat_le (queue_places - length (waits ring.now)) queue_low_places || not events_on
        then last_index key (waits ring.now) else None) }
{
    if QUEUE_PLACES - waiting_in(ring) > QUEUE_LOW_PLACES && events_on {
        return None;
    }
    last_of(ring, key, behind)
}

// Where the last entry of a subscription is, after which n wait, if it has one.
fn last_of<E>(
    ring: &Option<HeapCircularBuffer<(SubKey, E)>>,
    key: SubKey,
    behind: usize,
) -> Option<usize>
    requires { (i : ℕ) → last_index key (waits ring.now) ≡ Some i
        → i + 1 + behind ≡ length (waits ring.now) }
    ensures { result ≡ last_index key (waits ring.now) }
{
    let length = waiting(ring);
    if behind >= length {
        return None;
    }
    let index = length - 1 - behind;
    if is_same(key, key_of(ring, index)) {
        return Some(index);
    }
    None
}

// One for a subscription that has an entry, else none.
fn one_if_some(last: Option<usize>) -> usize
    ensures one { result ≡ (if is_some last then 1 else 0) }
    ensures most { result ≤ 1 }
{
    match last {
        None => 0,
        Some(_) => 1,
    }
}

// How many subscriptions have an entry.
fn occupied<E>(ring: &Option<HeapCircularBuffer<(SubKey, E)>>, lasts: &Lasts, puts: usize) -> usize
    requires noted { AreNoted puts (waits ring.now) lasts.now.0 }
    requires apart { AreApart (keys_of_lasts lasts.now.0) }
    requires known { (k : SubKey) → IsTrue (has_entry k (waits ring.now))
        → is_among k (keys_of_lasts lasts.now.0) ≡ true }
    ensures count { result ≡ having (waits ring.now) (keys_of_lasts lasts.now.0) }
    ensures within { result ≤ length (waits ring.now) }
{
    let mut occupied = 0;
    for number in 0..lasts.len() {
        let behind = puts_since(puts, lasts.last(number));
        occupied += one_if_some(last_of(ring, lasts.key(number), behind));
    }
    occupied
}

// Takes out all entries of this subscription, which goes once round the ring: each
// other one is put again.
fn go_round<E: Drop>(
    ring: &mut Option<HeapCircularBuffer<(SubKey, E)>>,
    lasts: &mut Lasts,
    puts: &mut usize,
    key: SubKey,
)
    requires fits { AreInPlaces ring.old }
    requires goes_round { puts.old < 2 ^ 64 }
    requires apart { AreApart (keys_of_lasts lasts.old.0) }
    requires known { (k : SubKey) → IsTrue (has_entry k (after_cancel key (waits ring.old)))
        → is_among k (keys_of_lasts lasts.old.0) ≡ true }
    ensures ring { ring.new ≡ option_map (with_items (after_cancel key (waits ring.old))) ring.old }
    ensures keys { keys_of_lasts lasts.new.0 ≡ keys_of_lasts lasts.old.0 }
    ensures room { lasts.new.1 ≡ lasts.old.1 }
    ensures noted { AreNoted puts.new (after_cancel key (waits ring.old)) lasts.new.0 }
    ensures goes_round { puts.new < 2 ^ 64 }
{
    for _ in 0..waiting(ring) {
        let Some((of, entry)) = pop(ring) else {
            unreachable!()
        };
        if !is_same(key, of) {
            let number = lasts.find(of);
            append(ring, lasts, puts, number, of, entry);
        }
    }
}
