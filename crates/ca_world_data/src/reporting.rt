//! Ends of circuits at a server that ended in a call of its core, which did not report them: they
//! are reported at once.
ghost use Rattle.std.specs.Prelude.{[], ◌≡◌, ◌++◌, ◌+◌, ◌<◌, ◌≤◌, ◌==◌, ◌&&◌, IfOk, OnOk, Some};
ghost use Rattle.std.specs.Prelude.{MatchOption, filter, is_some, length, map, not, vec_capacity};
ghost use Rattle.std.specs.Prelude.{vec_len};
ghost use Rattle.ca_ids.specs.Table.{same_handle, under, with_freed};
ghost use Rattle.ca_model.specs.ServerEvents as world;
ghost use Rattle.ca_model.specs.World.{grown};
ghost use Rattle.ca_world_data.specs.EndsWith.{ReportsWith, closed_under, ends_under, goes_with};
ghost use Rattle.ca_world_data.specs.EndsWith.{gone_with};
ghost use Rattle.ca_world_data.specs.Opening.{entries_in};
ghost use Rattle.ca_world_data.specs.Reporting.{AreServed, IsServed, IsUnserved, Quits, Reports};
ghost use Rattle.ca_world_data.specs.Reporting.{ReportsAt, all_gone, gone_of, waits};
ghost use Rattle.ca_world_data.specs.Seen.{entry_of, joined_of, record_of};
ghost use Rattle.ca_world_data.specs.ServerCuts.{HasRoomFor};

use crate::closing::close_server;
use crate::entries::reserve_entries;
use crate::history::LogEntry;
use crate::joined::Joined;
use crate::naming::is_same;
use crate::server::{PutPlace, RecordSide, ServerSide};
use ca_arena::Handle;
use ca_server_core::for_histories::{ended_at, has_ended, places};
use ca_server_core::{CoreStep, ServerCore};
use ca_wire::Pipe;
use std::alloc::{AllocError, Global};

/// Makes room in the log of a life for the withdrawal of all puts that wait for these records,
/// and for n more entries.
pub fn reserve_reports(
    logs: &mut Vec<Vec<LogEntry>>,
    life: usize,
    records: &[RecordSide],
    more: usize,
) -> Result<(), AllocError>
    ensures same { entries_in logs.new.items ≡ entries_in logs.old.items }
    ensures room { OnOk result (HasRoomFor (waits records.now + more) life logs.new.items) }
{
    let puts = count_waits(records)?;
    let Some(entries) = puts.checked_add(more) else {
        return Err(AllocError);
    };
    reserve_entries(logs, life, entries)
}

// How many puts wait for these records.
fn count_waits(records: &[RecordSide]) -> Result<usize, AllocError>
    ensures { IfOk result (λ n. n ≡ waits records.now) }
{
    let mut puts: usize = 0;
    for record in records {
        let Some(more) = puts.checked_add(record.waiting.len()) else {
            return Err(AllocError);
        };
        puts = more;
    }
    Ok(puts)
}

/// A call of this server's core is over. Each end of a circuit that ended in it, and was not
/// reported, is reported: its circuit ends, with the bytes that it left, and its puts that wait are
/// withdrawn. There is room in the log.
pub fn report_ends(
    alloc: Global,
    server: usize,
    side: &mut ServerSide,
    circuits: &mut Vec<Joined>,
    logs: &mut Vec<Vec<LogEntry>>,
)
    requires room { HasRoomFor (waits side.old.records.items) side.old.life logs.old.items }
    requires served { AreServed side.old.circuits.items (map joined_of circuits.old.items) server }
    ensures { Reports
        server
        side.old
        (map joined_of circuits.old.items)
        (entries_in logs.old.items)
        side.new
        (map joined_of circuits.new.items)
        (entries_in logs.new.items) }
{
    withdraw_all(
        server,
        None,
        &side.core,
        circuits,
        &mut side.records,
        logs,
        side.life,
    );
    close_gone(alloc, server, &mut side.core, &side.circuits, circuits);
}

/// A step of this server's core closed the end under this handle, with these bytes left. Its
/// circuit ends, and so does each whose end ended in the same step, which is reported: the puts
/// that wait on them are withdrawn, record by record. There is room in the log.
pub fn report_ends_with(
    alloc: Global,
    server: usize,
    side: &mut ServerSide,
    circuits: &mut Vec<Joined>,
    logs: &mut Vec<Vec<LogEntry>>,
    handle: Handle,
    left: Pipe,
)
    requires room { HasRoomFor (waits side.old.records.items) side.old.life logs.old.items }
    requires served { AreServed
        side.old.circuits.items
        (map joined_of circuits.old.items)
        server }
    ensures { ReportsWith
        handle
        left
        server
        side.old
        (map joined_of circuits.old.items)
        (entries_in logs.old.items)
        side.new
        (map joined_of circuits.new.items)
        (entries_in logs.new.items) }
{
    withdraw_all(
        server,
        Some(handle),
        &side.core,
        circuits,
        &mut side.records,
        logs,
        side.life,
    );
    close_under(alloc, server, handle, left, &side.circuits, circuits);
    close_gone(alloc, server, &mut side.core, &side.circuits, circuits);
}

// The puts that wait on circuits that end are withdrawn, and the log of a life has that. Those end
// that ended in a call of the core, and the one that is closed under a handle, if one is.
fn withdraw_all(
    server: usize,
    closed: Option<Handle>,
    core: &ServerCore,
    circuits: &[Joined],
    records: &mut Vec<RecordSide>,
    logs: &mut Vec<Vec<LogEntry>>,
    life: usize,
)
    requires { HasRoomFor (waits records.old.items) life logs.old.items }
    ensures logged { entries_in logs.new.items
        ≡ grown
        life
        (world.withdrawals
        (gone_with closed server core.now (map joined_of circuits.now))
        (map record_of records.old.items))
        (entries_in logs.old.items) }
    ensures kept { map record_of records.new.items
        ≡ map
        (world.without_puts (gone_with closed server core.now (map joined_of circuits.now)))
        (map record_of records.old.items) }
{
    tell_gone(server, closed, core, circuits, records, logs, life);
    withdraw_gone(server, closed, core, circuits, records);
}

// Whether the end of this circuit at the server is the one that is closed, or has ended.
fn is_gone(
    server: usize,
    closed: Option<Handle>,
    core: &ServerCore,
    circuits: &[Joined],
    circuit: usize,
) -> bool
    ensures { result ≡ gone_with closed server core.now (map joined_of circuits.now) circuit }
{
    if circuit >= circuits.len() {
        return false;
    }
    ends_now(server, closed, core, &circuits[circuit])
}

// Whether this circuit's end at this server is the one that is closed, or has ended.
fn ends_now(server: usize, closed: Option<Handle>, core: &ServerCore, joined: &Joined) -> bool
    ensures { result ≡ is_some (goes_with closed server core.now (joined_of joined.now)) }
{
    match closed {
        Some(handle) => ends_under(server, handle, core, joined),
        None => has_quit(server, core, joined),
    }
}

// Whether this circuit's end at this server is the one under the handle, or has ended.
fn ends_under(server: usize, handle: Handle, core: &ServerCore, joined: &Joined) -> bool
    ensures { result ≡ is_some (ends_under handle [] server core.now (joined_of joined.now)) }
{
    is_under(server, handle, joined) || has_quit(server, core, joined)
}

// Whether the circuit's open end at this server is the one under the handle.
fn is_under(server: usize, handle: Handle, joined: &Joined) -> bool
    ensures { result
        ≡ (same_handle joined.now.at_server handle
        && (joined.now.server == server && joined.now.lists.server_open)) }
{
    is_same(joined.at_server, handle) && (joined.server == server && joined.lists.server_open)
}

// Whether this circuit's end at this server has ended.
fn has_quit(server: usize, core: &ServerCore, joined: &Joined) -> bool
    ensures { result ≡ is_some (world.ends_by server core.now (joined_of joined.now)) }
{
    joined.server == server && joined.lists.server_open && has_ended(core, joined.at_server)
}

// Tells the log of a life that the puts which wait on these circuits are withdrawn.
fn tell_gone(
    server: usize,
    closed: Option<Handle>,
    core: &ServerCore,
    circuits: &[Joined],
    records: &[RecordSide],
    logs: &mut Vec<Vec<LogEntry>>,
    life: usize,
)
    requires { HasRoomFor (waits records.now) life logs.old.items }
    ensures { entries_in logs.new.items
        ≡ grown
        life
        (world.withdrawals
        (gone_with closed server core.now (map joined_of circuits.now))
        (map record_of records.now))
        (entries_in logs.old.items) }
{
    if life < logs.len() {
        tell_in(server, closed, core, circuits, records, &mut logs[life]);
    }
}

// Tells the same in the log itself.
fn tell_in(
    server: usize,
    closed: Option<Handle>,
    core: &ServerCore,
    circuits: &[Joined],
    records: &[RecordSide],
    log: &mut Vec<LogEntry>,
)
    requires { vec_len log.old + waits records.now ≤ vec_capacity log.old }
    ensures { map entry_of log.new.items
        ≡ map entry_of log.old.items
        ++ all_gone
        (gone_with closed server core.now (map joined_of circuits.now))
        records.now }
{
    for record in records {
        tell_of(server, closed, core, circuits, &record.waiting, log);
    }
}

// Tells the same of the puts of one record.
fn tell_of(
    server: usize,
    closed: Option<Handle>,
    core: &ServerCore,
    circuits: &[Joined],
    waiting: &[PutPlace],
    log: &mut Vec<LogEntry>,
)
    requires { vec_len log.old + length waiting.now ≤ vec_capacity log.old }
    ensures told { map entry_of log.new.items
        ≡ map entry_of log.old.items
        ++ gone_of
        (gone_with closed server core.now (map joined_of circuits.now))
        waiting.now }
    ensures len { vec_len log.new ≤ vec_len log.old + length waiting.now }
    ensures capacity { vec_capacity log.new ≡ vec_capacity log.old }
{
    for put in waiting {
        if is_gone(server, closed, core, circuits, put.circuit) {
            log.push_reserved(LogEntry::Withdrawn(put.circuit, put.place));
        }
    }
}

// Withdraws the puts that wait on these circuits.
fn withdraw_gone(
    server: usize,
    closed: Option<Handle>,
    core: &ServerCore,
    circuits: &[Joined],
    records: &mut [RecordSide],
)
    ensures { map record_of records.new
        ≡ map
        (world.without_puts (gone_with closed server core.now (map joined_of circuits.now)))
        (map record_of records.old) }
{
    for record in records.iter_mut() {
        withdraw_from(server, closed, core, circuits, &mut record.waiting);
    }
}

// Takes the puts on these circuits out.
fn withdraw_from(
    server: usize,
    closed: Option<Handle>,
    core: &ServerCore,
    circuits: &[Joined],
    waiting: &mut Vec<PutPlace>,
)
    ensures { waiting.new.items
        ≡ filter
        (λ p. not (gone_with closed server core.now (map joined_of circuits.now) p.circuit))
        waiting.old.items }
{
    waiting.retain(|put| !is_gone(server, closed, core, circuits, put.circuit));
}

// The circuit that is open at this server under the handle ends, and leaves these bytes.
fn close_under(
    alloc: Global,
    server: usize,
    handle: Handle,
    left: Pipe,
    numbers: &[usize],
    circuits: &mut Vec<Joined>,
)
    requires { AreServed numbers.now (map joined_of circuits.old.items) server }
    ensures { map joined_of circuits.new.items
        ≡ map (closed_under handle left server) (map joined_of circuits.old.items) }
{
    let Some(number) = served_on(numbers, circuits, server, handle) else {
        return;
    };
    close_server(alloc, &mut circuits[number], left);
}

// Reports all ends that ended, and ends their circuits.
fn close_gone(
    alloc: Global,
    server: usize,
    core: &mut ServerCore,
    numbers: &[usize],
    circuits: &mut Vec<Joined>,
)
    requires { AreServed numbers.now (map joined_of circuits.old.items) server }
    ensures core { core.new ≡ world.reported core.old }
    ensures circuits { map joined_of circuits.new.items
        ≡ map (world.ending (world.ends_by server core.old)) (map joined_of circuits.old.items) }
{
    for index in 0..places(core) {
        close_at(alloc, server, core, numbers, circuits, index);
    }
}

// Reports the end of this index, if it ended, and ends its circuit.
fn close_at(
    alloc: Global,
    server: usize,
    core: &mut ServerCore,
    numbers: &[usize],
    circuits: &mut Vec<Joined>,
    index: usize,
)
    requires within { index < length core.old.circuits }
    requires served { AreServed numbers.now (map joined_of circuits.old.items) server }
    ensures { ReportsAt
        index
        server
        core.old
        (map joined_of circuits.old.items)
        core.new
        (map joined_of circuits.new.items) }
{
    let Some(circuit) = ended_at(core, index) else {
        return;
    };
    let left = left_of(alloc, core, circuit);
    let Some(number) = served_on(numbers, circuits, server, circuit) else {
        return;
    };
    close_server(alloc, &mut circuits[number], left);
}

// Reports the end of this circuit, which has ended, and of which no put waits: what it left.
fn left_of(alloc: Global, core: &mut ServerCore, circuit: Handle) -> Pipe
    requires { Quits core.old circuit }
    ensures left { world.left_by (under core.old.circuits circuit) ≡ Some result }
    ensures core { core.new
        ≡ record core.old { circuits = with_freed circuit core.old.circuits } }
{
    match core.step(circuit) {
        CoreStep::Closed(_, left) => left,
        CoreStep::Handled(_) => Pipe::new(alloc),
        CoreStep::NeedBytes => Pipe::new(alloc),
        CoreStep::OutputFull => Pipe::new(alloc),
    }
}

// The number of the circuit that is open at this server under this handle, by the server's
// numbers.
fn served_on(numbers: &[usize], circuits: &[Joined], server: usize, handle: Handle) -> Option<usize>
    requires { AreServed numbers.now (map joined_of circuits.now) server }
    ensures { MatchOption result (IsUnserved (map joined_of circuits.now) server handle)
        (IsServed (map joined_of circuits.now) server handle) }
{
    let place = handle.index as usize;
    if place >= numbers.len() {
        return None;
    }
    let number = numbers[place];
    if number >= circuits.len() {
        return None;
    }
    let joined = &circuits[number];
    if joined.server != server {
        return None;
    }
    if !joined.lists.server_open {
        return None;
    }
    if joined.at_server.index != handle.index {
        return None;
    }
    if joined.at_server.generation != handle.generation {
        return None;
    }
    Some(number)
}
