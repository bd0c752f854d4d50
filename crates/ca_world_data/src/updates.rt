//! Updates that left a server's queues, read off the bytes that they became, into memory that was
//! made before they left.
ghost use Rattle.std.specs.Prelude.{◌≡◌, ◌+◌, ◌<◌, ◌≤◌, ◌^◌, ◌∷◌, IfOk, List, OnErr, false};
ghost use Rattle.std.specs.Prelude.{length, map, true};
ghost use Rattle.ca_queue.specs.Circuit.{RestBefore, Takes};
ghost use Rattle.ca_queue.specs.Queue.{Queue};
ghost use Rattle.ca_text.specs.Place.{At};
ghost use Rattle.ca_model.specs.Server.{ServerEnd};
ghost use Rattle.ca_model.specs.ServerSteps.{HasEnd, Rests, Update};
ghost use Rattle.ca_model.specs.Speech.{Stored};
ghost use Rattle.ca_world_data.specs.Does.{GivesSome, MayPump};
ghost use Rattle.ca_world_data.specs.Seen.{joined_of};
ghost use Rattle.ca_world_data.specs.ServerCuts.{IsServing};
ghost use Rattle.ca_world_data.specs.Updates.{AreRoomsFor, HaveRooms, IsReadyToPump, MayTell};
ghost use Rattle.ca_world_data.specs.Updates.{TellsNext, TellsUpdates, WaitsAlike, how_many};

use crate::history::{Cause, Told};
use crate::joined::Joined;
use crate::room::reserve_list;
use ca_arena::Handle;
use ca_queue::{ListQueue, Queues, SubKey};
use ca_server_core::ServerCore;
use ca_server_core::for_histories::update_size;
use ca_text::OUTPUT_LIMIT;
use ca_wire::{message_at, spelled_size};
use std::alloc::{AllocError, Global};
use std::collections::VecDeque;

/// Makes room for the updates that may leave the open end of a circuit: on the circuit, and memory
/// for each, a list for each queue, in the order of its entries. None is taken if none may leave.
pub fn reserve_updates(
    alloc: Global,
    core: &ServerCore,
    joined: &mut Joined,
) -> Result<Vec<VecDeque<Vec<u8>>>, AllocError>
    requires serves { IsServing core.now joined.old.at_server }
    requires alike { WaitsAlike core.now (joined_of joined.old) }
    ensures same { joined_of joined.new ≡ joined_of joined.old }
    ensures ready { IfOk result (λ rooms.
        IsReadyToPump core.now joined.new (map (λ own. own.items) rooms.items)) }
    ensures may { OnErr result (MayPump core.now (joined_of joined.old)) }
{
    if !may_pump(core, joined) {
        return Ok(Vec::new(alloc));
    }
    let rooms = make_rooms(alloc, core, joined)?;
    reserve_list(&mut joined.lists.down, count_rooms(&rooms))?;
    Ok(rooms)
}

// Whether an update may leave the open end of a circuit.
fn may_pump(core: &ServerCore, joined: &Joined) -> bool
    requires serves { IsServing core.now joined.now.at_server }
    requires alike { WaitsAlike core.now (joined_of joined.now) }
    ensures pumps { result ≡ true → MayPump core.now (joined_of joined.now) }
    ensures rests { result ≡ false → (e : ServerEnd) → HasEnd core.now joined.now.at_server e
        → Rests e }
{
    if core.out_bytes(joined.at_server).len() >= OUTPUT_LIMIT {
        return false;
    }
    gives_some(&joined.queues)
}

// Whether a queue gives a number.
fn gives_some(queues: &[ListQueue<(usize, Cause)>]) -> bool
    ensures gives { result ≡ true → GivesSome (map (λ q. q.0) queues.now) }
    ensures rests { result ≡ false → RestBefore (map (λ q. q.0) queues.now) (length queues.now) }
{
    for queue in queues {
        if queue.may_give() {
            return true;
        }
    }
    false
}

// Memory for the updates that wait at the open end of a circuit.
fn make_rooms(
    alloc: Global,
    core: &ServerCore,
    joined: &Joined,
) -> Result<Vec<VecDeque<Vec<u8>>>, AllocError>
    requires { WaitsAlike core.now (joined_of joined.now) }
    ensures { IfOk result (λ rooms. (e : ServerEnd) → HasEnd core.now joined.now.at_server e
        → HaveRooms e (map (λ own. own.items) rooms.items)) }
{
    let mut rooms = Vec::new(alloc);
    for place in 0..joined.queues.len() {
        let waiting = joined.queues[place].waiting();
        rooms.push(rooms_of(alloc, core, joined.at_server, place, waiting)?)?;
    }
    Ok(rooms)
}

// Memory for the updates of the first `waiting` entries of the queue at this place.
fn rooms_of(
    alloc: Global,
    core: &ServerCore,
    circuit: Handle,
    place: usize,
    waiting: usize,
) -> Result<VecDeque<Vec<u8>>, AllocError>
    ensures { IfOk result (λ own. (e : ServerEnd) (q : Queue Stored) → HasEnd core.now circuit e
        → At e.queues place q → length q.waiting ≤ waiting → AreRoomsFor e q.waiting own.items) }
{
    let mut own = VecDeque::new(alloc);
    for index in 0..waiting {
        let size = update_size(core, circuit, place, index).unwrap_or(0);
        own.push_back(Vec::with_capacity(alloc, size)?)?;
    }
    Ok(own)
}

// For how many updates that is memory, unless that is the largest number.
fn count_rooms(rooms: &[VecDeque<Vec<u8>>]) -> usize
    ensures { result + 1 < 2 ^ 64 → result ≡ how_many (map (λ own. own.items) rooms.now) }
{
    let mut updates: usize = 0;
    for own in rooms {
        updates = updates.saturating_add(own.len());
    }
    updates
}

// Takes the number in front of the first queue that gives one, and reports the place of the queue.
fn take_number(
    queues: &mut Vec<ListQueue<(usize, Cause)>>,
) -> Option<(usize, SubKey, (usize, Cause))>
    ensures { Takes (map (λ q. q.0) queues.old.items) result (map (λ q. q.0) queues.new.items) }
{
    for place in 0..queues.len() {
        if let Some((key, item)) = queues[place].take() {
            return Some((place, key, item));
        }
    }
    None
}

// Puts the update that begins these bytes after what the server sent, with the number that its
// queue gives, in the memory for it, and returns how many of the bytes it is.
fn tell_update(bytes: &[u8], joined: &mut Joined, rooms: &mut Vec<VecDeque<Vec<u8>>>) -> usize
    requires { (e : ServerEnd) × (u : Update) × (us : List Update)
        × MayTell e (u ∷ us) bytes.now joined.old (map (λ own. own.items) rooms.old.items) }
    ensures { (e : ServerEnd) (u : Update) (us : List Update)
        → MayTell e (u ∷ us) bytes.now joined.old (map (λ own. own.items) rooms.old.items)
        → TellsNext
        u
        us
        bytes.now
        joined.old
        result
        joined.new
        (map (λ own. own.items) rooms.new.items) }
{
    let Some((queue, _, (place, cause))) = take_number(&mut joined.queues) else {
        unreachable!()
    };
    let Some(room) = rooms[queue].pop_front() else {
        unreachable!()
    };
    let message = message_at(bytes, room);
    let size = spelled_size(&message);
    joined.lists.down.push_reserved(Told {
        message,
        place,
        cause,
    });
    size
}

/// Puts the updates that these bytes are after what the server sent, each with the number that its
/// queue gives, in the memory for it.
pub fn tell_updates(bytes: &[u8], joined: &mut Joined, mut rooms: Vec<VecDeque<Vec<u8>>>)
    requires { (e : ServerEnd) × (us : List Update)
        × MayTell e us bytes.now joined.old (map (λ own. own.items) rooms.items) }
    ensures { TellsUpdates
        bytes.now
        joined.old
        (map (λ own. own.items) rooms.items)
        (joined_of joined.new) }
{
    let mut read = 0;
    'telling: while read < bytes.len() {
        read += tell_update(&bytes[read..], joined, &mut rooms);
    }
}
