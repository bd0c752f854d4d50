//! A busy put is finished, as once its device is done: its reply goes down, and the put that waits
//! first is applied.
ghost use Rattle.std.specs.Prelude.{ℕ, ◌≡◌, ◌+◌, ◌<◌, ◌++◌, [], ◌∷◌, List, Ok, OnOk, map};
ghost use Rattle.std.specs.Prelude.{option_map, vec_capacity, vec_len};
ghost use Rattle.ca_records.specs.declared.puts.Put as puts;
ghost use Rattle.ca_server_core.specs.ForHistories.{bytes_under};
ghost use Rattle.ca_ids.specs.Table.{under};
ghost use Rattle.ca_wire.specs.Fields.{Fields};
ghost use Rattle.ca_arena.specs.declared.handle.Handle as handle;
ghost use Rattle.ca_model.specs.History as history;
ghost use Rattle.ca_model.specs.ServerCalls.{Finishes};
ghost use Rattle.ca_model.specs.Events as event;
ghost use Rattle.ca_model.specs.ServerEvents.{about, finish_entry};
ghost use Rattle.ca_model.specs.World.{grown};
ghost use Rattle.ca_world.specs.Finishing.{AreBehind, Finished, FinishesAt, HasRoomOn, IsBusy};
ghost use Rattle.ca_world.specs.Finishing.{IsBusyOn, IsFound, MayFinish, applied_of, numbered};
ghost use Rattle.ca_world.specs.Finishing.{with_down};
ghost use Rattle.ca_world_data.specs.Does.{Does};
ghost use Rattle.ca_world_data.specs.Numbering.{AllAlike, AllMayCount};
ghost use Rattle.ca_world_data.specs.Opening.{entries_in};
ghost use Rattle.ca_world_data.specs.Reporting.{AreServed, waits};
ghost use Rattle.ca_world_data.specs.Seen.{joined_of, place_of, server_of, told_of};
ghost use Rattle.ca_world_data.specs.ServerCuts.{HasRoomFor};

use crate::next_write::{first_put, next_records, next_value};
use crate::world::World;
use ca_arena::Handle;
use ca_display::Held;
use ca_server_core::ServerCore;
use ca_server_core::for_histories::bytes_of;
use ca_text::Refusal;
use ca_wire::message_at;
use ca_world_data::entries::push_entry;
use ca_world_data::history::{Cause, LogEntry, Stored, Told};
use ca_world_data::joined::Joined;
use ca_world_data::numbering::{check_counts, post_numbers};
use ca_world_data::reporting::{report_ends, reserve_reports};
use ca_world_data::room::reserve_list;
use ca_world_data::server::{PutPlace, RecordSide, ServerSide};
use ca_world_servers::doing::unstamped;
use std::alloc::{AllocError, Global};

// The mask of an applied write: VALUE and LOG.
const WRITE_MASK: u16 = 3;

impl World {
    /// The busy put of a record of a server is finished: its reply goes down, and the next put that
    /// waits is applied. A finish that the server refuses changes nothing.
    pub fn finish(&mut self, server: usize, name: &[u8]) -> Result<(), Refusal>
        ensures { Does self.old (event.Finish server name.now) result self.new }
    {
        if server >= self.servers.len() {
            return Err(Refusal::BadEvent);
        }
        finish_at(
            self.alloc,
            server,
            &mut self.servers[server],
            &mut self.circuits,
            &mut self.server_logs,
            name,
        )
    }
}

// A put is finished at this server. A finish that its core would refuse changes nothing. A record
// that is busy in the core is there beside it, with the place of its put, whose circuit is there.
fn finish_at(
    alloc: Global,
    server: usize,
    side: &mut ServerSide,
    circuits: &mut Vec<Joined>,
    logs: &mut Vec<Vec<LogEntry>>,
    name: &[u8],
) -> Result<(), Refusal>
    requires served { AreServed
        side.old.circuits.items
        (map joined_of circuits.old.items)
        server }
    requires alike { AllAlike server side.old.core (map joined_of circuits.old.items) }
    requires may { MayFinish
        name.now
        (server_of side.old)
        (map joined_of circuits.old.items)
        (entries_in logs.old.items) }
    ensures { FinishesAt
        server
        name.now
        side.old
        (map joined_of circuits.old.items)
        (entries_in logs.old.items)
        result
        side.new
        (map joined_of circuits.new.items)
        (entries_in logs.new.items) }
{
    if side.core.busy_value(name).is_none() {
        return Ok(());
    }
    let Some(found) = find_record(name, &side.records) else {
        unreachable!()
    };
    let Some(put) = found.busy else {
        unreachable!()
    };
    let number = found.number;
    let next = first_put(&found.waiting);
    let value = next_value(alloc, logs, side.life, &found.waiting)?;
    reserve_finish(put.circuit, &side.records, side.life, circuits, logs)?;
    finish_on(
        alloc,
        server,
        &mut side.core,
        circuits,
        name,
        put,
        next.is_some(),
    );
    next_records(&mut side.records, name);
    tell_entries(logs, side.life, put, number, next, value);
    report_ends(alloc, server, side, circuits, logs);
    Ok(())
}

// Makes room for all that a finish leaves: in the log of this life, and on this circuit for a
// reply. One more post may be counted for each subscription.
fn reserve_finish(
    circuit: usize,
    records: &[RecordSide],
    life: usize,
    circuits: &mut Vec<Joined>,
    logs: &mut Vec<Vec<LogEntry>>,
) -> Result<(), AllocError>
    requires { circuit < vec_len circuits.old }
    ensures same { map joined_of circuits.new.items ≡ map joined_of circuits.old.items }
    ensures len { vec_len circuits.new ≡ vec_len circuits.old }
    ensures logged { entries_in logs.new.items ≡ entries_in logs.old.items }
    ensures counts { OnOk result (AllMayCount circuits.new.items) }
    ensures space { OnOk result (HasRoomOn circuit circuits.new.items) }
    ensures room { OnOk result (HasRoomFor (waits records.now + 2) life logs.new.items) }
{
    check_counts(circuits)?;
    reserve_reports(logs, life, records, 2)?;
    reserve_down(&mut circuits[circuit])
}

// Makes room for one more message down.
fn reserve_down(joined: &mut Joined) -> Result<(), AllocError>
    ensures same { joined_of joined.new ≡ joined_of joined.old }
    ensures standing { joined.new.standing ≡ joined.old.standing }
    ensures room { OnOk result (vec_len joined.new.lists.down
        < vec_capacity joined.new.lists.down) }
{
    reserve_list(&mut joined.lists.down, 1)
}

// The log has the finish of a put, and the next as applied, if one waits.
fn tell_entries(
    logs: &mut Vec<Vec<LogEntry>>,
    life: usize,
    put: PutPlace,
    number: usize,
    next: Option<PutPlace>,
    value: Option<Held>,
)
    requires { HasRoomFor 2 life logs.old.items }
    ensures logged { entries_in logs.new.items
        ≡ grown
        life
        (finish_entry (place_of put)
        ∷ applied_of number (option_map place_of next) value)
        (entries_in logs.old.items) }
    ensures room { (n : ℕ)
        → HasRoomFor (n + 2) life logs.old.items → HasRoomFor n life logs.new.items }
{
    push_entry(logs, life, LogEntry::Finished(put.circuit, put.place));
    let Some(first) = next else {
        return;
    };
    let Some(applied) = value else {
        return;
    };
    let meta = unstamped(&applied);
    let stored = Stored {
        held: applied,
        meta,
    };
    push_entry(
        logs,
        life,
        LogEntry::Applied(first.circuit, first.place, number, stored, true),
    );
}

// The core finishes the busy put of a record, which came at this place: its reply goes down, and
// the numbers of the next wait, if there is one. They go by the core as it was. The circuit's
// messages down are held aside meanwhile, with room for the reply.
fn finish_on(
    alloc: Global,
    server: usize,
    core: &mut ServerCore,
    circuits: &mut Vec<Joined>,
    name: &[u8],
    put: PutPlace,
    waits: bool,
)
    requires alike { AllAlike server core.old (map joined_of circuits.old.items) }
    requires busy { IsBusyOn core.old name.now put.circuit (map joined_of circuits.old.items) }
    requires counts { AllMayCount circuits.old.items }
    requires within { put.circuit < vec_len circuits.old }
    requires space { HasRoomOn put.circuit circuits.old.items }
    ensures { Finished
        server
        name.now
        (place_of put)
        waits
        core.old
        (map joined_of circuits.old.items)
        core.new
        (map joined_of circuits.new.items) }
{
    let at_server = circuits[put.circuit].at_server;
    let waited = bytes_of(core, at_server).len();
    let mut down = take_down(alloc, &mut circuits[put.circuit]);
    post_next(server, core, circuits, name, waits);
    finish_core(core, name);
    tell_reply(alloc, core, at_server, &mut down, put.place, waited);
    give_down(&mut circuits[put.circuit], down);
}

// If a put is applied next, its numbers wait.
fn post_next(server: usize, core: &ServerCore, circuits: &mut Vec<Joined>, name: &[u8], waits: bool)
    requires alike { AllAlike server core.now (map joined_of circuits.old.items) }
    requires counts { AllMayCount circuits.old.items }
    ensures numbers { map joined_of circuits.new.items
        ≡ numbered waits server core.now name.now (map joined_of circuits.old.items) }
    ensures len { vec_len circuits.new ≡ vec_len circuits.old }
{
    if waits {
        post_numbers(server, core, circuits, name, WRITE_MASK);
    }
}

// The core finishes the busy put of this record, which is busy.
fn finish_core(core: &mut ServerCore, name: &[u8])
    requires { (b : puts.Put) × IsBusy core.old name.now b }
    ensures { (sent : List (handle.Handle × Fields))
        × Finishes core.old name.now sent (Ok tt) core.new }
{
    match core.finish(name) {
        Ok(()) => {}
        Err(_) => unreachable!(),
    }
}

// Takes the messages down from a circuit.
fn take_down(alloc: Global, joined: &mut Joined) -> Vec<Told>
    ensures circuit { joined_of joined.new ≡ with_down [] (joined_of joined.old) }
    ensures standing { joined.new.standing ≡ joined.old.standing }
    ensures down { result ≡ joined.old.lists.down }
{
    std::mem::replace(&mut joined.lists.down, Vec::new(alloc))
}

// Gives them to it.
fn give_down(joined: &mut Joined, down: Vec<Told>)
    ensures { joined_of joined.new ≡ with_down (map told_of down.items) (joined_of joined.old) }
{
    joined.lists.down = down;
}

// The reply went down if more bytes wait than before: its message has no payload, so
// that it needs no memory.
fn tell_reply(
    alloc: Global,
    core: &ServerCore,
    at_server: Handle,
    down: &mut Vec<Told>,
    place: usize,
    waited: usize,
)
    requires behind { (ms : List Fields)
        × AreBehind waited (bytes_under (under core.now.circuits at_server)) ms }
    requires room { vec_len down.old < vec_capacity down.old }
    ensures { (ms : List Fields)
        → AreBehind waited (bytes_under (under core.now.circuits at_server)) ms
        → map told_of down.new.items
        ≡ map told_of down.old.items ++ about place history.Reply ms }
{
    let bytes = bytes_of(core, at_server);
    if bytes.len() <= waited {
        return;
    }
    let message = message_at(&bytes[waited..], Vec::new(alloc));
    down.push_reserved(Told {
        message,
        place,
        cause: Cause::Reply,
    });
}

// The record of this name, or none has it.
fn find_record<'a>(name: &[u8], records: &'a [RecordSide]) -> Option<&'a RecordSide>
    ensures { IsFound records.now name.now (option_map (λ r. r.now) result) }
{
    for one in records {
        if one.name.as_slice() == name {
            return Some(one);
        }
    }
    None
}
