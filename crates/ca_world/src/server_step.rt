//! A server's end of a circuit handles its next message, which may concern each other circuit of
//! that server. Begin at `step_at`: all that needs memory is made before the step.
ghost use Rattle.std.specs.Prelude.{◌≡◌, ◌+◌, ◌<◌, ◌≤◌, [], Bool, IfOk, List, None, OnOk, Some};
ghost use Rattle.std.specs.Prelude.{length, map, vec_capacity, vec_len};
ghost use Rattle.ca_ids.specs.Table.{under};
ghost use Rattle.ca_model.specs.Server.{Server};
ghost use Rattle.ca_model.specs.ServerSteps.{output_of};
ghost use Rattle.ca_model.specs.Events as event;
ghost use Rattle.ca_model.specs.World as model;
ghost use Rattle.ca_model.specs.World.{log_length};
ghost use Rattle.ca_text.specs.Place.{At};
ghost use Rattle.ca_model.specs.History as history;
ghost use Rattle.ca_model.specs.ServerEvents.{about};
ghost use Rattle.ca_wire.specs.Fields.{Fields};
ghost use Rattle.ca_world_servers.specs.Losing.{AreSeated};
ghost use Rattle.ca_world.specs.Counted.{HasEntries};
ghost use Rattle.ca_world.specs.Resting.{ComesUp, StepsOrRests};
ghost use Rattle.ca_world.specs.ServerStepping.{StepsAt, with_lists};
ghost use Rattle.ca_world.specs.StepParts.{AreAside, HasRoomAhead, IsAheadOf};
ghost use Rattle.ca_world.specs.StepParts.{IsHandled, IsPrepared, IsSpareFor, MayBegin, MayStep};
ghost use Rattle.ca_world.specs.StepParts.{NotesAt, StandBehind, StepsServer};
ghost use Rattle.ca_world_data.specs.declared.joined.Joined as opened;
ghost use Rattle.ca_world_data.specs.Does.{Does};
ghost use Rattle.ca_world_data.specs.Numbering.{AllAlike, AllMayCount};
ghost use Rattle.ca_world_data.specs.Opening.{entries_in};
ghost use Rattle.ca_world_data.specs.Replies.{AreWithin, IsSpare};
ghost use Rattle.ca_world_data.specs.Reporting.{AreServed, waits};
ghost use Rattle.ca_world_data.specs.Seen.{joined_of, queue_of, record_of, server_of, step_of};
ghost use Rattle.ca_world_data.specs.Seen.{told_of};
ghost use Rattle.ca_world_data.specs.ServerCuts.{HasRoomFor};
ghost use Rattle.ca_world_servers.specs.declared.ahead.Ahead as known;
ghost use Rattle.ca_world_servers.specs.declared.coming.Coming as coming;
ghost use Rattle.ca_world_servers.specs.Effects.{AreApart, BeginsNew, HasRoomBy, IsPartingOf};
ghost use Rattle.ca_world_servers.specs.Effects.{MayWaitFor, numbers_by, wrote_by};
ghost use Rattle.ca_world_servers.specs.Handling.{with_handled};

use crate::circuits::count_up;
use crate::resting::may_take;
use crate::world::World;
use ca_arena::Handle;
use ca_server_core::{CoreStep as Did, Effect, ServerCore};
use ca_text::Refusal;
use ca_world_data::ends::ends_at;
use ca_world_data::history::{LogEntry, Step, Told};
use ca_world_data::joined::Joined;
use ca_world_data::numbering::check_counts;
use ca_world_data::replies::{MOST_REPLIES, Spare, make_spare, replies_in};
use ca_world_data::reporting::{report_ends, report_ends_with, reserve_reports};
use ca_world_data::server::{PutPlace, RecordSide, ServerSide};
use ca_world_servers::ahead::{Ahead, look_at};
use ca_world_servers::coming::Coming;
use ca_world_servers::doing::{tell_effect, tell_write};
use ca_world_servers::effects::{tell_on, wrote_of};
use ca_world_servers::handling::{note_handled, reserve_begin, reserve_handled};
use std::alloc::{AllocError, Global};

// The end whose step it is: the numbers of its circuit and its server, and the handle by which that
// has it. How many bytes waited there before the step, and how many writes were applied.
#[derive(Clone, Copy)]
struct SteppingEnd {
    alloc: Global,
    circuit: usize,
    server: usize,
    at: Handle,
    waited: usize,
    applied: u64,
}

// The replies to a message, and the lists of its circuit, held aside with room for them.
#[derive(Drop)]
struct Prepared {
    told: Vec<Told>,
    down: Vec<Told>,
    handled: Vec<Step>,
}

impl World {
    /// A step of a server's end of a circuit: it handles the next message that came, or there is
    /// none, or the end closes.
    pub fn server_step(&mut self, circuit: usize) -> Result<(), Refusal>
        ensures { Does self.old (event.ServerStep circuit) result self.new }
    {
        let Some(ends) = ends_at(&self.clients, &self.servers, &self.circuits, circuit) else {
            return Err(Refusal::BadEvent);
        };
        if !ends.server_open {
            return Err(Refusal::BadEvent);
        }
        let waiting = count_up(&self.clients[ends.client], &self.circuits[circuit]);
        step_or_rest(
            self.alloc,
            circuit,
            ends.server,
            waiting,
            &mut self.servers[ends.server],
            &mut self.circuits,
            &mut self.server_logs,
        )
    }
}

// A step of the end of a circuit at this server, while `waiting` bytes wait at its client. If there
// is no memory for it an end that takes no message rests.
fn step_or_rest(
    alloc: Global,
    circuit: usize,
    server: usize,
    waiting: usize,
    side: &mut ServerSide,
    circuits: &mut Vec<Joined>,
    logs: &mut Vec<Vec<LogEntry>>,
) -> Result<(), Refusal>
    requires within { circuit < vec_len circuits.old }
    requires served { AreServed
        side.old.circuits.items
        (map joined_of circuits.old.items)
        server }
    requires may { (j : model.Joined)
        → At (map joined_of circuits.old.items) circuit j
        → MayBegin server side.old.core j (map joined_of circuits.old.items)
        (map record_of side.old.records.items) }
    requires counted { HasEntries (server_of side.old) (entries_in logs.old.items) }
    requires comes { (j : model.Joined)
        → At (map joined_of circuits.old.items) circuit j → ComesUp waiting side.old.core j }
    ensures { StepsOrRests
        circuit
        side.old
        (map joined_of circuits.old.items)
        (entries_in logs.old.items)
        result
        side.new
        (map joined_of circuits.new.items)
        (entries_in logs.new.items) }
{
    match step_at(alloc, circuit, server, side, circuits, logs) {
        Ok(()) => Ok(()),
        Err(refusal) => {
            if may_take(&side.core, &circuits[circuit], waiting) {
                return Err(refusal);
            }
            Ok(())
        }
    }
}

// A step of the end of a circuit at this server, which may lack memory though it takes no message.
// All that needs memory is made before it.
fn step_at(
    alloc: Global,
    circuit: usize,
    server: usize,
    side: &mut ServerSide,
    circuits: &mut Vec<Joined>,
    logs: &mut Vec<Vec<LogEntry>>,
) -> Result<(), Refusal>
    requires within { circuit < vec_len circuits.old }
    requires served { AreServed
        side.old.circuits.items
        (map joined_of circuits.old.items)
        server }
    requires may { (j : model.Joined)
        → At (map joined_of circuits.old.items) circuit j
        → MayBegin server side.old.core j (map joined_of circuits.old.items)
        (map record_of side.old.records.items) }
    requires counted { HasEntries (server_of side.old) (entries_in logs.old.items) }
    ensures { StepsServer
        circuit
        side.old
        (map joined_of circuits.old.items)
        (entries_in logs.old.items)
        result
        side.new
        (map joined_of circuits.new.items)
        (entries_in logs.new.items) }
{
    let ahead = next_ahead(alloc, &side.core, &circuits[circuit], &mut side.records)?;
    reserve_step(&mut circuits[circuit], ahead.command)?;
    let spare = make_spare(alloc, ahead.reply)?;
    check_write(circuits, &ahead.write)?;
    reserve_reports(logs, side.life, &side.records, 2)?;
    let at = circuits[circuit].at_server;
    let turn = SteppingEnd {
        alloc,
        circuit,
        server,
        at,
        waited: side.core.out_bytes(at).len(),
        applied: side.core.applied(),
    };
    step_end(&turn, side, circuits, logs, ahead, spare);
    Ok(())
}

// Makes room on a circuit for its step, for the replies to a message of this command, and for what
// that may begin there.
fn reserve_step(joined: &mut Joined, command: u16) -> Result<(), AllocError>
    ensures same { joined_of joined.new ≡ joined_of joined.old }
    ensures room { OnOk result (HasRoomAhead command joined.new) }
{
    reserve_handled(joined, MOST_REPLIES)?;
    reserve_begin(joined, command)
}

// Whether one more post can be counted for each subscription that stands, if a message writes.
fn check_write(circuits: &[Joined], write: &Option<Coming>) -> Result<(), AllocError>
    ensures { OnOk result ((w : coming.Coming) → write.now ≡ Some w → AllMayCount circuits.now) }
{
    match write {
        Some(_) => check_counts(circuits),
        None => Ok(()),
    }
}

// What is known of the message of this circuit that is handled next, if it came.
fn next_ahead(
    alloc: Global,
    core: &ServerCore,
    joined: &Joined,
    records: &mut Vec<RecordSide>,
) -> Result<Ahead, AllocError>
    ensures same { map record_of records.new.items ≡ map record_of records.old.items }
    ensures known { IfOk result (λ a.
        IsAheadOf core.now (joined_of joined.now) (map record_of records.old.items) a) }
    ensures room { IfOk result (λ a. MayWaitFor a.write records.new.items) }
{
    let place = joined.lists.handled.len();
    if place >= joined.lists.up.len() {
        return Ok(Ahead {
            command: 0,
            write: None,
            parting: None,
            reply: 0,
        });
    }
    let ahead = look_at(
        alloc,
        core,
        joined.at_server,
        &joined.lists.up[place].message,
        records,
    )?;
    Ok(ahead)
}

// The step itself, and what it leaves.
fn step_end(
    turn: &SteppingEnd,
    side: &mut ServerSide,
    circuits: &mut Vec<Joined>,
    logs: &mut Vec<Vec<LogEntry>>,
    ahead: Ahead,
    spare: Spare,
)
    requires within { turn.now.circuit < vec_len circuits.old }
    requires may { (j : model.Joined)
        → At (map joined_of circuits.old.items) turn.now.circuit j
        → MayStep turn.now side.old.core j (map joined_of circuits.old.items)
        (map record_of side.old.records.items) ahead }
    requires served { AreServed
        side.old.circuits.items
        (map joined_of circuits.old.items)
        turn.now.server }
    requires counts { (w : coming.Coming) → ahead.write ≡ Some w → AllMayCount circuits.old.items }
    requires notes { (j : opened.Joined)
        → At circuits.old.items turn.now.circuit j → HasRoomAhead ahead.command j }
    requires spare { IsSpareFor ahead.reply spare }
    requires space { MayWaitFor ahead.write side.old.records.items }
    requires room { HasRoomFor (waits side.old.records.items + 2) side.old.life logs.old.items }
    ensures steps { (j : model.Joined)
        → At (map joined_of circuits.old.items) turn.now.circuit j
        → StepsAt
        turn.now.circuit
        j
        (server_of side.old)
        (map joined_of circuits.old.items)
        (entries_in logs.old.items)
        (server_of side.new)
        (map joined_of circuits.new.items)
        (entries_in logs.new.items) }
    ensures numbers { side.new.circuits.items ≡ side.old.circuits.items }
{
    match side.core.step(turn.at) {
        Did::Handled(effect) => {
            let prepared = prepare(turn, &side.core, &mut circuits[turn.circuit], effect, spare);
            note(turn, side, circuits, logs, ahead, effect, prepared);
        }
        Did::Closed(_, left) => {
            let wrote = wrote_of(&side.core, turn.applied, &ahead.write);
            let place = circuits[turn.circuit].lists.handled.len();
            let put = PutPlace {
                circuit: turn.circuit,
                place,
            };
            tell_write(put, turn.server, side, circuits, logs, wrote, ahead.write);
            report_ends_with(turn.alloc, turn.server, side, circuits, logs, turn.at, left);
        }
        Did::NeedBytes => {}
        Did::OutputFull => {}
    }
}

// The replies to a message that was handled with this effect, which is begun on its circuit.
fn prepare(
    turn: &SteppingEnd,
    core: &ServerCore,
    joined: &mut Joined,
    effect: Effect,
    spare: Spare,
) -> Prepared
    requires was { (before : Server) × (ks : List model.Joined) × (rs : List model.RecordSide)
        × (a : known.Ahead) × (m : MayStep turn.now before (joined_of joined.old) ks rs a)
        × IsHandled before core.now joined.old.at_server m.e effect
        × HasRoomAhead a.command joined.old × IsSpareFor a.reply spare }
    ensures prepared { (before : Server) (ks : List model.Joined) (rs : List model.RecordSide)
        (a : known.Ahead) (m : MayStep turn.now before (joined_of joined.old) ks rs a)
        (d : IsHandled before core.now joined.old.at_server m.e effect)
        → IsSpareFor a.reply spare
        → IsPrepared before m.e (joined_of joined.old) d.next result (joined_of joined.new) }
    ensures aside { AreAside (joined_of joined.old) result }
{
    let place = joined.lists.handled.len();
    let told = replies_behind(turn, core, place, spare);
    begin(turn.alloc, joined, effect, told, place)
}

// The replies after the bytes that waited on a circuit, as those to the message at this place, in
// the spare memory.
fn replies_behind(turn: &SteppingEnd, core: &ServerCore, place: usize, spare: Spare) -> Vec<Told>
    requires spare { IsSpare spare }
    requires behind { (ms : List Fields)
        × StandBehind turn.now.waited (output_of (under core.now.circuits turn.now.at)) ms
        × AreWithin (vec_capacity spare.payload) ms }
    ensures all { (ms : List Fields)
        → StandBehind turn.now.waited (output_of (under core.now.circuits turn.now.at)) ms
        → AreWithin (vec_capacity spare.payload) ms
        → map told_of result.items ≡ about place history.Reply ms }
    ensures two { length result.items ≤ 2 }
{
    let bytes = core.out_bytes(turn.at);
    replies_in(turn.alloc, &bytes[turn.waited..], place, spare)
}

// What the message did is begun on its circuit, whose lists are held aside. There is room for it.
fn begin(
    alloc: Global,
    joined: &mut Joined,
    effect: Effect,
    told: Vec<Told>,
    place: usize,
) -> Prepared
    requires seated { AreSeated (joined_of joined.old) }
    requires new { BeginsNew effect (map (λ q. queue_of q.0) joined.old.queues.items) }
    requires room { HasRoomBy effect joined.old }
    ensures circuit { joined_of joined.new
        ≡ numbers_by effect place (with_lists [] [] (joined_of joined.old)) }
    ensures told { result.told ≡ told }
    ensures down { result.down ≡ joined.old.lists.down }
    ensures handled { result.handled ≡ joined.old.lists.handled }
{
    let (down, handled) = take_lists(alloc, joined);
    tell_on(joined, effect, place);
    Prepared {
        told,
        down,
        handled,
    }
}

// Takes what went down and was handled from a circuit.
fn take_lists(alloc: Global, joined: &mut Joined) -> (Vec<Told>, Vec<Step>)
    ensures circuit { joined_of joined.new ≡ with_lists [] [] (joined_of joined.old) }
    ensures creations { joined.new.creations ≡ joined.old.creations }
    ensures standing { joined.new.standing ≡ joined.old.standing }
    ensures queues { joined.new.queues ≡ joined.old.queues }
    ensures down { result.0 ≡ joined.old.lists.down }
    ensures handled { result.1 ≡ joined.old.lists.handled }
{
    let down = std::mem::replace(&mut joined.lists.down, Vec::new(alloc));
    let handled = std::mem::replace(&mut joined.lists.handled, Vec::new(alloc));
    (down, handled)
}

// What the message did is told, ends that ended by it are reported, and it is noted on its
// circuit.
fn note(
    turn: &SteppingEnd,
    side: &mut ServerSide,
    circuits: &mut Vec<Joined>,
    logs: &mut Vec<Vec<LogEntry>>,
    ahead: Ahead,
    effect: Effect,
    prepared: Prepared,
)
    requires within { turn.now.circuit < vec_len circuits.old }
    requires alike { (busies : Bool) → wrote_by effect ≡ Some busies
        → AllAlike turn.now.server side.old.core (map joined_of circuits.old.items) }
    requires counts { (busies : Bool) (w : coming.Coming)
        → wrote_by effect ≡ Some busies → ahead.write ≡ Some w → AllMayCount circuits.old.items }
    requires apart { AreApart (map record_of side.old.records.items) }
    requires parted { IsPartingOf ahead.parting (map record_of side.old.records.items) }
    requires served { AreServed
        side.old.circuits.items
        (map joined_of circuits.old.items)
        turn.now.server }
    requires space { MayWaitFor ahead.write side.old.records.items }
    requires room { HasRoomFor (waits side.old.records.items + 2) side.old.life logs.old.items }
    requires down { vec_len prepared.down + length prepared.told.items
        ≤ vec_capacity prepared.down }
    requires handled { vec_len prepared.handled + 1 ≤ vec_capacity prepared.handled }
    ensures notes { NotesAt
        turn.now.circuit
        turn.now.server
        effect
        ahead
        prepared
        side.old
        (map joined_of circuits.old.items)
        (entries_in logs.old.items)
        side.new
        (map joined_of circuits.new.items)
        (entries_in logs.new.items) }
    ensures numbers { side.new.circuits.items ≡ side.old.circuits.items }
{
    let Prepared {
        told,
        down,
        handled,
    } = prepared;
    let sent = down.len();
    let place = handled.len();
    let logged = logged_of(logs, side.life);
    tell_effect(
        PutPlace {
            circuit: turn.circuit,
            place,
        },
        turn.server,
        side,
        circuits,
        logs,
        effect,
        ahead.write,
        ahead.parting,
    );
    report_ends(turn.alloc, turn.server, side, circuits, logs);
    let after = logged_of(logs, side.life);
    let step = Step {
        sent,
        logged,
        after,
    };
    note_on(&mut circuits[turn.circuit], down, handled, step, told);
}

// The lists of the circuit are given back, and the message is noted as handled in this
// step, by these replies.
fn note_on(joined: &mut Joined, down: Vec<Told>, handled: Vec<Step>, step: Step, told: Vec<Told>)
    requires down { vec_len down + length told.items ≤ vec_capacity down }
    requires handled { vec_len handled + 1 ≤ vec_capacity handled }
    ensures { joined_of joined.new
        ≡ with_handled
        (step_of step)
        (map told_of told.items)
        (with_lists (map told_of down.items) (map step_of handled.items) (joined_of joined.old)) }
{
    joined.lists.down = down;
    joined.lists.handled = handled;
    note_handled(joined, step, told);
}

// How long the log of a life is.
fn logged_of(logs: &[Vec<LogEntry>], life: usize) -> usize
    ensures { result ≡ log_length life (entries_in logs.now) }
{
    if life < logs.len() {
        return logs[life].len();
    }
    0
}
