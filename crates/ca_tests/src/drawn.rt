//! The queue with a ring, which servers have, returns at drawn calls what the simple one of lists
//! returns.
ghost use Rattle.std.specs.Prelude.{◌≡◌, ◌<◌, ◌≤◌, true, OnOk};
ghost use Rattle.ca_queue.specs.Keys.{is_among};
ghost use Rattle.ca_tests.specs.Drawn.{HasBelow};

use ca_queue::{EventQueue, ListQueue, Queues, SubKey};
use ca_text::Refusal;
use std::alloc::Global;
use std::test::Fail;

/// How many subscriptions there are.
const SUBSCRIPTIONS: u32 = 5;

/// How many calls are drawn.
const CALLS: u64 = 1_000;

/// How many entries a queue holds.
const PLACES: usize = 144;

fn key_of(sub: u32) -> SubKey
    ensures { result ≡ record { sid = 1; sub = sub } }
{
    SubKey { sid: 1, sub }
}

/// Cancels a subscription, and adds it again.
fn begin_anew<Q: Queues<u64>>(queue: &mut Q, key: SubKey) -> Result<(), Refusal>
    ensures own { OnOk result (is_among key (Q.contents queue.new).subscriptions ≡ true) }
    ensures others { OnOk result ((k : SubKey)
        → is_among k (Q.contents queue.old).subscriptions ≡ true
        → is_among k (Q.contents queue.new).subscriptions ≡ true) }
{
    queue.cancel(key);
    queue.add(key)?;
    Ok(())
}

/// Adds all subscriptions.
fn begin_all<Q: Queues<u64>>(queue: &mut Q) -> Result<(), Refusal>
    ensures { OnOk result (HasBelow 5 (Q.contents queue.new).subscriptions) }
{
    for sub in 0..SUBSCRIPTIONS {
        begin_anew(queue, key_of(sub))?;
    }
    Ok(())
}

/// The next number of a linear congruence.
fn next(drawn: u32) -> u32 {
    drawn.wrapping_mul(1_664_525).wrapping_add(1_013_904_223)
}

/// Takes an entry, and notes its subscription and its number.
fn take<Q: Queues<u64>>(queue: &mut Q, given: &mut Vec<u64>) -> Result<(), Refusal>
    ensures { (Q.contents queue.new).subscriptions ≡ (Q.contents queue.old).subscriptions }
{
    match queue.take() {
        None => given.push(u64::MAX)?,
        Some((key, number)) => {
            given.push(key.sub as u64)?;
            given.push(number)?;
        }
    }
    Ok(())
}

/// One call, by the number that was drawn: of sixteen nine are posts, five takes, one is a cancel
/// and one turns events on or off.
fn call<Q: Queues<u64>>(
    queue: &mut Q,
    drawn: u32,
    number: u64,
    given: &mut Vec<u64>,
) -> Result<(), Refusal>
    requires { HasBelow 5 (Q.contents queue.old).subscriptions }
    ensures { OnOk result (HasBelow 5 (Q.contents queue.new).subscriptions) }
{
    let key = key_of((drawn >> 16) % SUBSCRIPTIONS);
    match (drawn >> 24) % 16 {
        0..=8 => {
            queue.post(key, number);
            Ok(())
        }
        9..=13 => take(queue, given),
        14 => begin_anew(queue, key),
        _ => {
            queue.set_events(drawn % 4096 < 2048);
            Ok(())
        }
    }
}

/// What a queue returns at these calls, and what it gives up when events are on again.
fn answers<Q: Queues<u64>>(alloc: Global, queue: &mut Q) -> Result<Vec<u64>, Refusal> {
    let mut given = Vec::new(alloc);
    let mut drawn = 1;
    begin_all(queue)?;
    for number in 0..CALLS {
        drawn = next(drawn);
        call(queue, drawn, number, &mut given)?;
    }
    queue.set_events(true);
    for _ in 0..PLACES {
        take(queue, &mut given)?;
    }
    Ok(given)
}

#[test]
fn both_queues_give_the_same(rt: HostRuntime) -> Result<(), Fail> {
    let mut list: ListQueue<u64> = ListQueue::new(rt.alloc());
    let mut ring: EventQueue<u64> = EventQueue::new(rt.alloc());
    let from_list = answers(rt.alloc(), &mut list)?;
    let from_ring = answers(rt.alloc(), &mut ring)?;
    assert!(rt; from_list == from_ring);
    assert!(rt; from_list.len() > 500);
    Ok(())
}
