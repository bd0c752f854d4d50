//! What a message that a server handled leaves: its replies and its step on the circuit, the
//! channels and subscriptions there, and the puts of the records. All memory for it is made before,
//! by the calls that reserve: without it they change nothing.
ghost use Rattle.std.specs.Prelude.{◌≡◌, ◌+◌, ◌++◌, ◌≤◌, IsTrue, OnOk, false, true, if◌then◌else◌};
ghost use Rattle.std.specs.Prelude.{length, map, vec_capacity, vec_len};
ghost use Rattle.std.specs.Str.{bytes_eq};
ghost use Rattle.ca_queue.specs.Circuit.{HasNone};
ghost use Rattle.ca_queue.specs.Keys.{is_among, same};
ghost use Rattle.ca_queue.specs.Queue.{added, posted, switched};
ghost use Rattle.ca_model.specs.History as history;
ghost use Rattle.ca_model.specs.ClientEvents.{place_of as place_in};
ghost use Rattle.ca_model.specs.ServerEvents as world;
ghost use Rattle.ca_world_data.specs.declared.history.Cause.TheVariants as cause;
ghost use Rattle.ca_world_data.specs.Seen.{joined_of, place_of, queue_of, record_of, step_of};
ghost use Rattle.ca_world_data.specs.Seen.{told_of};
ghost use Rattle.ca_world_servers.specs.Handling.{FirstIsRoomy, HasRoomToBegin, HasRoomToCreate};
ghost use Rattle.ca_world_servers.specs.Handling.{HasRoomToNote, HasRoomToSubscribe};
ghost use Rattle.ca_world_servers.specs.Handling.{HaveRoomToWait, MayWait, has_room, made_busy};
ghost use Rattle.ca_world_servers.specs.Handling.{with_creation, with_handled, with_standing};
ghost use Rattle.ca_world_servers.specs.Handling.{with_switched, with_waiting, without_sid};
ghost use Rattle.ca_world_servers.specs.Losing.{AreSeated};

use crate::losing::{cancel_in, drop_lost};
use ca_queue::{ListQueue, Queues, SubKey};
use ca_text::Command;
use ca_world_data::history::{Cause, Step, Told};
use ca_world_data::joined::{AddedSubscription, CreatedChannel, Joined};
use ca_world_data::room::reserve_list;
use ca_world_data::server::{PutPlace, RecordSide};
use std::alloc::AllocError;

/// Makes room for n replies to a message that is handled, and for its step.
pub fn reserve_handled(joined: &mut Joined, replies: usize) -> Result<(), AllocError>
    ensures same { joined_of joined.new ≡ joined_of joined.old }
    ensures room { OnOk result (HasRoomToNote replies joined.new) }
{
    reserve_list(&mut joined.lists.down, replies)?;
    reserve_list(&mut joined.lists.handled, 1)
}

/// The next message of the client was handled in this step, by these replies.
pub fn note_handled(joined: &mut Joined, step: Step, replies: Vec<Told>)
    requires { HasRoomToNote (length replies.items) joined.old }
    ensures { joined_of joined.new
        ≡ with_handled (step_of step) (map told_of replies.items) (joined_of joined.old) }
{
    push_all(&mut joined.lists.down, replies);
    joined.lists.handled.push_reserved(step);
}

// Puts replies after what was sent. There is room for them.
fn push_all(down: &mut Vec<Told>, replies: Vec<Told>)
    requires { vec_len down.old + length replies.items ≤ vec_capacity down.old }
    ensures { down.new.items ≡ down.old.items ++ replies.items }
{
    for reply in replies {
        down.push_reserved(reply);
    }
}

/// Makes room for what a message of this command may begin on a circuit: a channel, or a
/// subscription with its first number.
pub fn reserve_begin(joined: &mut Joined, command: u16) -> Result<(), AllocError>
    ensures same { joined_of joined.new ≡ joined_of joined.old }
    ensures lists { joined.new.lists ≡ joined.old.lists }
    ensures room { OnOk result (HasRoomToBegin command joined.new) }
{
    if command == Command::CreateChannel.number() {
        return joined.creations.reserve(1);
    }
    if command == Command::EventAdd.number() {
        joined.standing.reserve(1)?;
        return reserve_first(&mut joined.queues);
    }
    Ok(())
}

// Makes the memory of the first queue with room for a subscription, if there is one.
fn reserve_first(queues: &mut Vec<ListQueue<(usize, Cause)>>) -> Result<(), AllocError>
    ensures same { map (λ q. queue_of q.0) queues.new.items
        ≡ map (λ q. queue_of q.0) queues.old.items }
    ensures roomy { OnOk result (FirstIsRoomy queues.new.items) }
{
    let at = first_with_room(queues);
    if at < queues.len() {
        queues[at].reserve()?;
    }
    Ok(())
}

/// A channel was created under this SID by the message at this place. There is room for it.
pub fn begin_channel(joined: &mut Joined, sid: u32, place: usize)
    requires { HasRoomToCreate joined.old }
    ensures { joined_of joined.new ≡ with_creation sid place (joined_of joined.old) }
{
    joined
        .creations
        .push_reserved(CreatedChannel { sid, place });
}

/// Events are turned on or off on a circuit.
pub fn switch_events(joined: &mut Joined, on: bool)
    ensures { joined_of joined.new ≡ with_switched on (joined_of joined.old) }
{
    switch_all(&mut joined.queues, on);
}

// Turns events on or off in all queues.
fn switch_all(queues: &mut [ListQueue<(usize, Cause)>], on: bool)
    ensures { map (λ q. queue_of q.0) queues.new
        ≡ map (switched on) (map (λ q. queue_of q.0) queues.old) }
{
    for queue in queues.iter_mut() {
        queue.set_events(on);
    }
}

/// A subscription, which no queue has, began by the message at this place: it stands, and its first
/// number waits in the first queue with room. There is room for both.
pub fn begin_standing(joined: &mut Joined, key: SubKey, place: usize)
    requires new { HasNone (map (λ q. queue_of q.0) joined.old.queues.items) key }
    requires room { HasRoomToSubscribe joined.old }
    ensures { joined_of joined.new ≡ with_standing key place (joined_of joined.old) }
{
    take_number(&mut joined.queues, key, place);
    joined.standing.push_reserved(AddedSubscription {
        key,
        place,
        posts: 1,
    });
}

/// A subscription is over: its numbers no longer wait.
pub fn end_standing(joined: &mut Joined, key: SubKey)
    requires { AreSeated (joined_of joined.old) }
    ensures { joined_of joined.new ≡ world.without_standing (same key) (joined_of joined.old) }
{
    cancel_in(&mut joined.queues, key);
    joined.standing.retain(|one| key != one.key);
}

/// The channel of this SID is over, and so are its subscriptions.
pub fn end_channel(joined: &mut Joined, sid: u32)
    requires { AreSeated (joined_of joined.old) }
    ensures { joined_of joined.new ≡ without_sid sid (joined_of joined.old) }
{
    // The CID is not looked at.
    let ended = [(sid, 0)];
    drop_lost(&mut joined.standing, &mut joined.queues, &ended);
    joined.creations.retain(|creation| creation.sid != sid);
}

// The first queue with room takes the subscription, and the number 0 of it. It has its memory.
fn take_number(queues: &mut Vec<ListQueue<(usize, Cause)>>, key: SubKey, place: usize)
    requires new { HasNone (map (λ q. queue_of q.0) queues.old.items) key }
    requires roomy { FirstIsRoomy queues.old.items }
    ensures { map (λ q. queue_of q.0) queues.new.items
        ≡ world.number_taken
        key
        (place, history.Update 0)
        (map (λ q. queue_of q.0) queues.old.items) }
{
    let at = first_with_room(queues);
    if at < queues.len() {
        begin_in(&mut queues[at], key, place);
    }
}

// The place of the first queue with room, or how many there are.
fn first_with_room(queues: &[ListQueue<(usize, Cause)>]) -> usize
    ensures { result ≡ place_in has_room queues.now }
{
    for place in 0..queues.len() {
        if !queues[place].is_full() {
            return place;
        }
    }
    queues.len()
}

// The queue, which has room and its memory, takes the subscription, and the number 0 of it.
fn begin_in(queue: &mut ListQueue<(usize, Cause)>, key: SubKey, place: usize)
    requires new { is_among key queue.old.0.subscriptions ≡ false }
    requires room { has_room queue.old ≡ true }
    requires roomy { IsTrue queue.old.1 }
    ensures { queue.new.0 ≡ posted key (place, cause.Update 0) (added key queue.old.0) }
{
    match queue.add(key) {
        Ok(()) => queue.post(key, (place, Cause::Update(0))),
        Err(_) => unreachable!(),
    }
}

/// The put at this place of its circuit makes the record of this name busy.
pub fn make_busy(records: &mut [RecordSide], name: &[u8], put: PutPlace)
    ensures { map record_of records.new
        ≡ world.with_record
        name.now
        (made_busy (place_of put))
        (map record_of records.old) }
{
    for record in records.iter_mut() {
        busy_if(record, name, put);
    }
}

// The put makes the record busy, if it has this name.
fn busy_if(side: &mut RecordSide, name: &[u8], put: PutPlace)
    ensures { record_of side.new
        ≡ if◌then◌else◌
        (bytes_eq side.old.name.items name.now)
        (made_busy (place_of put) (record_of side.old))
        (record_of side.old) }
{
    if side.name.as_slice() == name {
        side.busy = Some(put);
    }
}

/// Makes room for one more put that waits for the record of this name.
pub fn reserve_waiting(records: &mut [RecordSide], name: &[u8]) -> Result<(), AllocError>
    ensures same { map record_of records.new ≡ map record_of records.old }
    ensures room { OnOk result (HaveRoomToWait name.now records.new) }
{
    for record in records.iter_mut() {
        reserve_if(record, name)?;
    }
    Ok(())
}

// Makes room for one more put that waits for the record, if it has this name.
fn reserve_if(side: &mut RecordSide, name: &[u8]) -> Result<(), AllocError>
    ensures same { record_of side.new ≡ record_of side.old }
    ensures room { OnOk result (MayWait name.now side.new) }
{
    if side.name.as_slice() == name {
        side.waiting.reserve(1)?;
    }
    Ok(())
}

/// The put at this place of its circuit waits for the record of this name, which has room for it.
pub fn add_waiting(records: &mut [RecordSide], name: &[u8], put: PutPlace)
    requires { HaveRoomToWait name.now records.old }
    ensures { map record_of records.new
        ≡ world.with_record
        name.now
        (with_waiting (place_of put))
        (map record_of records.old) }
{
    for record in records.iter_mut() {
        wait_if(record, name, put);
    }
}

// The put waits for the record, if it has this name. There is room for it.
fn wait_if(side: &mut RecordSide, name: &[u8], put: PutPlace)
    requires { MayWait name.now side.old }
    ensures { record_of side.new
        ≡ if◌then◌else◌
        (bytes_eq side.old.name.items name.now)
        (with_waiting (place_of put) (record_of side.old))
        (record_of side.old) }
{
    if side.name.as_slice() == name {
        side.waiting.push_reserved(put);
    }
}
