//! Rounds on a circuit's queue of updates, and on a ring to compare it with, which knows no
//! subscription.
ghost use Rattle.std.specs.Prelude.{◌≡◌, ◌<◌, true, OnOk};
ghost use Rattle.ca_queue.specs.Keys.{is_among};
ghost use Rattle.ca_bench.specs.Begun.{HasBelow};

use ca_dbr::{Meta, Value};
use ca_queue::{Entry, EventQueue, Queues, SubKey};
use ca_text::{QUEUE_PLACES, Refusal};
use circular_buffer::HeapCircularBuffer;
use std::alloc::{AllocError, Global};

/// How many posts a round has.
pub const POSTS: u32 = 100;

/// Rounds of 100 posts, to n subscriptions in turn, and then n takes, on an event queue. Without
/// takes only the first 108 posts go to the back: each other one replaces an entry.
pub fn on_queue(alloc: Global, count: u32, rounds: u32, takes: u32) -> Result<(), Refusal> {
    let count = count.max(1);
    let mut queue = EventQueue::new(alloc);
    begin_all(&mut queue, count)?;
    for _ in 0..rounds {
        queue_round(alloc, &mut queue, count, takes)?;
    }
    Ok(())
}

/// Rounds of 100 posts and then that many takes on a plain ring, which knows no subscription.
pub fn on_ring(alloc: Global, count: u32, rounds: u32, takes: u32) -> Result<(), Refusal> {
    let count = count.max(1);
    let mut ring = HeapCircularBuffer::with_capacity(alloc, QUEUE_PLACES)?;
    for _ in 0..rounds {
        ring_round(alloc, &mut ring, count, takes)?;
    }
    Ok(())
}

// A round is a call that is not inlined, here and on the ring: neither is kept in registers from
// round to round.
#[inline(never)]
fn queue_round(
    alloc: Global,
    queue: &mut EventQueue<Entry>,
    count: u32,
    takes: u32,
) -> Result<(), AllocError>
    requires some { 0 < count }
    requires begun { HasBelow count queue.old.0.subscriptions }
    ensures { queue.new.0.subscriptions ≡ queue.old.0.subscriptions }
{
    for turn in 0..POSTS {
        let sub = turn % count;
        queue.post(SubKey { sid: 1, sub }, update(alloc)?);
    }
    for _ in 0..takes {
        queue.take();
    }
    Ok(())
}

#[inline(never)]
fn ring_round(
    alloc: Global,
    ring: &mut HeapCircularBuffer<(SubKey, Entry)>,
    count: u32,
    takes: u32,
) -> Result<(), AllocError>
    requires { 0 < count }
{
    for turn in 0..POSTS {
        let sub = turn % count;
        ring.push_back((SubKey { sid: 1, sub }, update(alloc)?));
    }
    for _ in 0..takes {
        ring.pop_front();
    }
    Ok(())
}

/// Adds n subscriptions.
fn begin_all(queue: &mut EventQueue<Entry>, count: u32) -> Result<(), Refusal>
    ensures { OnOk result (HasBelow count queue.new.0.subscriptions) }
{
    for sub in 0..count {
        begin_anew(queue, SubKey { sid: 1, sub })?;
    }
    Ok(())
}

/// Cancels a subscription, and adds it again.
fn begin_anew(queue: &mut EventQueue<Entry>, key: SubKey) -> Result<(), Refusal>
    ensures own { OnOk result (is_among key queue.new.0.subscriptions ≡ true) }
    ensures others { OnOk result ((k : SubKey)
        → is_among k queue.old.0.subscriptions ≡ true
        → is_among k queue.new.0.subscriptions ≡ true) }
{
    queue.cancel(key);
    queue.add(key)?;
    Ok(())
}

fn update(alloc: Global) -> Result<Entry, AllocError> {
    Ok(Entry {
        value: Value::Longs(vec![in alloc; 7; 1]?),
        meta: Meta::ZERO,
    })
}
