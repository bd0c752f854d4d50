//! Posts to a record, and writes to it, reach the circuits that they concern: the number of
//! each post waits there.
ghost use Rattle.std.specs.Prelude.{ℕ, ◌≡◌, ◌<◌, true, OnOk, map, slice_set};
ghost use Rattle.std.specs.List.{fold};
ghost use Rattle.ca_ids.specs.Table.{under};
ghost use Rattle.ca_queue.specs.Queue.{Queue, posted};
ghost use Rattle.ca_text.specs.Place.{At};
ghost use Rattle.ca_model.specs.History as history;
ghost use Rattle.ca_model.specs.ServerEvents.{keys_concerned, numbers_posted, with_number};
ghost use Rattle.ca_model.specs.ServerEvents as world;
ghost use Rattle.ca_world_data.specs.declared.joined.AddedSubscription as kept;
ghost use Rattle.ca_world_data.specs.Numbering.{AllAlike, AllMayCount, HasKeyAt, IsAlike, IsPlaced};
ghost use Rattle.ca_world_data.specs.Numbering.{MayCount, keys_at, post_limit, with_counted};
ghost use Rattle.ca_world_data.specs.Seen.{joined_of, queue_of, record_of};

use crate::history::Cause;
use crate::joined::{AddedSubscription, Joined};
use crate::server::RecordSide;
use ca_queue::{ListQueue, Queues, SubKey};
use ca_server_core::ServerCore;
use ca_server_core::for_histories::concerned_at;
use std::alloc::AllocError;

/// Whether one more post can be counted for each subscription that stands.
pub fn check_counts(circuits: &[Joined]) -> Result<(), AllocError>
    ensures { OnOk result (AllMayCount circuits.now) }
{
    for joined in circuits {
        check_standing(&joined.standing)?;
    }
    Ok(())
}

// Whether one more post can be counted for each of these.
fn check_standing(standing: &[AddedSubscription]) -> Result<(), AllocError>
    ensures { OnOk result (MayCount standing.now) }
{
    for one in standing {
        if one.posts == usize::MAX {
            return Err(AllocError);
        }
    }
    Ok(())
}

/// A post to the record of this name, with this mask, reached the circuits of a server whose core
/// this is: those that it concerns have its numbers waiting.
pub fn post_numbers(
    server: usize,
    core: &ServerCore,
    circuits: &mut [Joined],
    name: &[u8],
    mask: u16,
)
    requires alike { AllAlike server core.now (map joined_of circuits.old) }
    requires counts { AllMayCount circuits.old }
    ensures { map joined_of circuits.new
        ≡ map (numbers_posted server core.now name.now mask) (map joined_of circuits.old) }
{
    for joined in circuits.iter_mut() {
        number_on(server, core, joined, name, mask);
    }
}

// A post to the record of this name reached this circuit: those that it concerns have
// their numbers waiting.
fn number_on(server: usize, core: &ServerCore, joined: &mut Joined, name: &[u8], mask: u16)
    requires alike { joined.old.server ≡ server → joined.old.lists.server_open ≡ true
        → IsAlike (under core.now.circuits joined.old.at_server) (joined_of joined.old) }
    requires counts { MayCount joined.old.standing.items }
    ensures { joined_of joined.new
        ≡ numbers_posted server core.now name.now mask (joined_of joined.old) }
{
    if joined.server == server && joined.lists.server_open {
        number_all(core, joined, name, mask);
    }
}

// A post to the record of this name reached this circuit, which is open at this server.
fn number_all(core: &ServerCore, joined: &mut Joined, name: &[u8], mask: u16)
    requires alike { IsAlike (under core.now.circuits joined.old.at_server) (joined_of joined.old) }
    requires counts { MayCount joined.old.standing.items }
    ensures { joined_of joined.new
        ≡ fold
        with_number
        (joined_of joined.old)
        (keys_concerned name.now mask (under core.now.circuits joined.old.at_server)) }
{
    for place in 0..joined.standing.len() {
        number_next(core, joined, place, name, mask);
    }
}

// A post to the record of this name reached the subscription at this place.
fn number_next(core: &ServerCore, joined: &mut Joined, place: usize, name: &[u8], mask: u16)
    requires alike { IsAlike (under core.now.circuits joined.old.at_server) (joined_of joined.old) }
    requires counts { (s : kept.AddedSubscription) → At joined.old.standing.items place s
        → s.posts < post_limit }
    ensures numbers { joined_of joined.new
        ≡ fold
        with_number
        (joined_of joined.old)
        (keys_at name.now mask place (under core.now.circuits joined.old.at_server)) }
    ensures others { (i : ℕ) (s : kept.AddedSubscription)
        → place < i → At joined.new.standing.items i s → At joined.old.standing.items i s }
{
    let Some(queue) = concerned_at(core, joined.at_server, place, name, mask) else {
        return;
    };
    number_at(joined, place, queue);
}

// Counts one more post of the subscription at this place, whose number waits in this
// queue, which has it.
fn number_at(joined: &mut Joined, place: usize, queue: usize)
    requires { IsPlaced place queue (joined_of joined.old) }
    ensures numbers { (h : IsPlaced place queue (joined_of joined.old))
        → joined_of joined.new ≡ with_counted h }
    ensures others { (i : ℕ) (s : kept.AddedSubscription)
        → place < i → At joined.new.standing.items i s → At joined.old.standing.items i s }
{
    let AddedSubscription {
        key,
        place: added,
        posts,
    } = joined.standing[place];
    joined.standing[place] = AddedSubscription {
        key,
        place: added,
        posts: posts + 1,
    };
    wait_in(&mut joined.queues, queue, key, added, posts);
}

// Puts the number of a post of this subscription into this queue, which has it.
fn wait_in(
    queues: &mut Vec<ListQueue<(usize, Cause)>>,
    queue: usize,
    key: SubKey,
    place: usize,
    number: usize,
)
    requires { HasKeyAt queues.old.items queue key }
    ensures { (q : Queue (ℕ × history.Cause))
        → At (map (λ w. queue_of w.0) queues.old.items) queue q
        → map (λ w. queue_of w.0) queues.new.items
        ≡ slice_set
        (map (λ w. queue_of w.0) queues.old.items)
        queue
        (posted key (place, history.Update number) q) }
{
    queues[queue].post(key, (place, Cause::Update(number)));
}

/// The number of the record of this name.
pub fn number_of(name: &[u8], records: &[RecordSide]) -> usize
    ensures { result ≡ world.number_of name.now (map record_of records.now) }
{
    for record in records {
        if record.name.as_slice() == name {
            return record.number;
        }
    }
    0
}
