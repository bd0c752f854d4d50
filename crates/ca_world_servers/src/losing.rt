//! A record of a server is removed: the circuits with channels to it lose them, and it
//! is no longer served.
ghost use Rattle.std.specs.Prelude.{ℕ, ◌≡◌, ◌≤◌, ◌+◌, ◌++◌, ◌<◌, IfOk, true, OnOk, filter};
ghost use Rattle.std.specs.Prelude.{if◌then◌else◌, length, map, not, take, vec_capacity, vec_len};
ghost use Rattle.std.specs.Str.{bytes_eq};
ghost use Rattle.ca_queue.specs.Queue.{cancelled};
ghost use Rattle.ca_model.specs.ServerEvents as world;
ghost use Rattle.ca_model.specs.World as model;
ghost use Rattle.ca_world_data.specs.Seen.{creation_of, entry_of, joined_of, queue_of, record_of};
ghost use Rattle.ca_world_data.specs.Seen.{told_of};
ghost use Rattle.ca_world_servers.specs.Losing.{AllMayLose, AllReady, AreLost, AreSeated, IsReady};
ghost use Rattle.ca_world_servers.specs.Losing.{MayLose, Disconnects, dropped, is_lost, lead_at};
ghost use Rattle.ca_world_servers.specs.Losing.{lost_by, lost_told, removed_all, withdrawn_entries};
ghost use Rattle.ca_world_servers.specs.Losing.{without_lost};

use ca_queue::{ListQueue, Queues, SubKey};
use ca_server_core::ServerCore;
use ca_server_core::for_histories::{bytes_of, channels_to};
use ca_wire::{Cid, disconnect};
use ca_world_data::history::{Cause, LogEntry, Told};
use ca_world_data::joined::{AddedSubscription, CreatedChannel, Joined};
use ca_world_data::room::reserve_list;
use ca_world_data::server::{PutPlace, RecordSide};
use std::alloc::{AllocError, Global};

/// The channels to a record at a circuit's open end at its server, each as its SID and its CID, and
/// how many bytes wait to be sent there.
#[derive(Drop)]
pub struct Leading {
    pub channels: Vec<(u32, u32)>,
    pub waited: usize,
}

/// What each circuit has to lose if the record of this name is removed at this server, with room
/// for its SERVER_DISCONNs.
pub fn prepare_losses(
    alloc: Global,
    server: usize,
    core: &ServerCore,
    circuits: &mut [Joined],
    name: &[u8],
) -> Result<Vec<Leading>, AllocError>
    ensures same { map joined_of circuits.new ≡ map joined_of circuits.old }
    ensures ready { IfOk result (λ all.
        AllReady server core.now name.now circuits.new all.items) }
{
    let mut all = Vec::new(alloc);
    for joined in circuits.iter_mut() {
        all.push(prepare_loss(alloc, server, core, joined, name)?)?;
    }
    Ok(all)
}

// What this circuit has to lose, with room for its SERVER_DISCONNs.
fn prepare_loss(
    alloc: Global,
    server: usize,
    core: &ServerCore,
    joined: &mut Joined,
    name: &[u8],
) -> Result<Leading, AllocError>
    ensures same { joined_of joined.new ≡ joined_of joined.old }
    ensures ready { IfOk result (λ l. IsReady server core.now name.now joined.new l) }
{
    let leading = leading_on(alloc, server, core, joined, name)?;
    reserve_list(&mut joined.lists.down, leading.channels.len())?;
    Ok(leading)
}

// What a circuit has to lose.
fn leading_on(
    alloc: Global,
    server: usize,
    core: &ServerCore,
    joined: &Joined,
    name: &[u8],
) -> Result<Leading, AllocError>
    ensures { IfOk result (λ l.
        (l.channels.items, l.waited) ≡ lead_at server core.now name.now (joined_of joined.now)) }
{
    if joined.server != server || !joined.lists.server_open {
        return Ok(Leading {
            channels: Vec::new(alloc),
            waited: 0,
        });
    }
    let channels = channels_to(core, joined.at_server, name)?;
    Ok(Leading {
        channels,
        waited: bytes_of(core, joined.at_server).len(),
    })
}

/// The record was removed at this server, whose core this is: each circuit loses the channels whose
/// SERVER_DISCONNs were sent.
pub fn lose_all(
    alloc: Global,
    server: usize,
    core: &ServerCore,
    circuits: &mut [Joined],
    leading: &[Leading],
)
    requires may { AllMayLose server core.now circuits.old leading.now }
    ensures { (f : model.Joined → model.Joined)
        → AreLost server core.now circuits.old leading.now f
        → map joined_of circuits.new ≡ map f (map joined_of circuits.old) }
{
    let mut place = 0;
    for joined in circuits.iter_mut() {
        lose_on(alloc, server, core, joined, &leading[place]);
        place += 1;
    }
}

// This circuit loses the channels whose SERVER_DISCONNs were sent.
fn lose_on(alloc: Global, server: usize, core: &ServerCore, joined: &mut Joined, leading: &Leading)
    requires may { MayLose server core.now joined.old leading.now }
    ensures { (n : ℕ)
        → (joined.old.server ≡ server → joined.old.lists.server_open ≡ true
        → Disconnects core.now (joined_of joined.old) leading.now n)
        → joined_of joined.new ≡ lost_by server leading.now n (joined_of joined.old) }
{
    if joined.server == server && joined.lists.server_open {
        lose_open(alloc, core, joined, leading);
    }
}

// This circuit, which is open at this server, loses the channels whose SERVER_DISCONNs were sent.
fn lose_open(alloc: Global, core: &ServerCore, joined: &mut Joined, leading: &Leading)
    requires sent { (n : ℕ) × Disconnects core.now (joined_of joined.old) leading.now n }
    requires room { vec_len joined.old.lists.down + length leading.now.channels.items
        ≤ vec_capacity joined.old.lists.down }
    requires seated { AreSeated (joined_of joined.old) }
    ensures { (n : ℕ) → Disconnects core.now (joined_of joined.old) leading.now n
        → joined_of joined.new ≡ without_lost (take n leading.now.channels.items)
        (joined_of joined.old) }
{
    let sent = (bytes_of(core, joined.at_server).len() - leading.waited) / 16;
    let lost = &leading.channels[..sent];
    tell_lost(alloc, &joined.creations, lost, &mut joined.lists.down);
    drop_lost(&mut joined.standing, &mut joined.queues, lost);
}

// The SERVER_DISCONNs of these channels went down. There is room for them.
fn tell_lost(alloc: Global, creations: &[CreatedChannel], lost: &[(u32, u32)], down: &mut Vec<Told>)
    requires { vec_len down.old + length lost.now ≤ vec_capacity down.old }
    ensures { map told_of down.new.items
        ≡ map told_of down.old.items
        ++ map (lost_told (map creation_of creations.now)) lost.now }
{
    for channel in lost {
        let (sid, cid) = *channel;
        down.push_reserved(Told {
            message: disconnect(alloc, Cid::new(cid)),
            place: created_at(sid, creations),
            cause: Cause::Removal,
        });
    }
}

// The place of the CREATE_CHAN of the open channel of this SID.
fn created_at(sid: u32, creations: &[CreatedChannel]) -> usize
    ensures { result ≡ world.created_at sid (map creation_of creations.now) }
{
    for creation in creations {
        if creation.sid == sid {
            return creation.place;
        }
    }
    0
}

// Subscriptions on these channels are over, and their numbers no longer wait.
pub(crate) fn drop_lost(
    standing: &mut Vec<AddedSubscription>,
    queues: &mut [ListQueue<(usize, Cause)>],
    lost: &[(u32, u32)],
)
    ensures standing { standing.new.items
        ≡ filter (λ s. not (is_lost lost.now s.key)) standing.old.items }
    ensures queues { map (λ q. queue_of q.0) queues.new
        ≡ map
        (dropped (is_lost lost.now) (map (λ s. s.key) standing.old.items))
        (map (λ q. queue_of q.0) queues.old) }
{
    for place in 0..standing.len() {
        cancel_on(queues, standing[place].key, lost);
    }
    standing.retain(|one| !is_on(lost, one.key));
}

// No queue has this subscription from now on, if it is on one of these channels.
fn cancel_on(queues: &mut [ListQueue<(usize, Cause)>], key: SubKey, lost: &[(u32, u32)])
    ensures { map (λ q. queue_of q.0) queues.new
        ≡ map
        (λ q. if is_lost lost.now key then cancelled key q else q)
        (map (λ q. queue_of q.0) queues.old) }
{
    if !is_on(lost, key) {
        return;
    }
    cancel_in(queues, key);
}

// Whether the key is that of a subscription on one of these channels.
fn is_on(lost: &[(u32, u32)], key: SubKey) -> bool
    ensures { result ≡ is_lost lost.now key }
{
    lost.iter().any(|channel| channel.0 == key.sid)
}

// No queue has this subscription from now on.
pub(crate) fn cancel_in(queues: &mut [ListQueue<(usize, Cause)>], key: SubKey)
    ensures { map (λ q. queue_of q.0) queues.new
        ≡ map (cancelled key) (map (λ q. queue_of q.0) queues.old) }
{
    for queue in queues.iter_mut() {
        queue.cancel(key);
    }
}

/// What the log tells of the removal of the record of this name: its waiting puts are withdrawn.
pub fn removal_entries(
    alloc: Global,
    name: &[u8],
    records: &[RecordSide],
) -> Result<Vec<LogEntry>, AllocError>
    ensures { IfOk result (λ all.
        map entry_of all.items ≡ removed_all name.now records.now) }
{
    let mut all = Vec::new(alloc);
    for record in records {
        if record.name.as_slice() == name {
            all.push(LogEntry::Removed(record.number))?;
            tell_withdrawn(&mut all, &record.waiting)?;
        }
    }
    Ok(all)
}

// Tells of the withdrawal of these puts.
fn tell_withdrawn(all: &mut Vec<LogEntry>, waiting: &[PutPlace]) -> Result<(), AllocError>
    ensures { OnOk result (map entry_of all.new.items
        ≡ map entry_of all.old.items ++ withdrawn_entries waiting.now) }
{
    for put in waiting {
        all.push(LogEntry::Withdrawn(put.circuit, put.place))?;
    }
    Ok(())
}

/// The record of this name is no longer served.
pub fn forget_record(records: &mut Vec<RecordSide>, name: &[u8])
    ensures { map record_of records.new.items
        ≡ filter (λ r. not (bytes_eq r.name name.now)) (map record_of records.old.items) }
{
    records.retain(|record| record.name.as_slice() != name);
}
