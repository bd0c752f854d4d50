//! What a message did is told of the records of its server, in the log of its life and in the
//! numbers that wait on its circuits.
ghost use Rattle.std.specs.Prelude.{◌≡◌, ◌+◌, Bool, Some, map};
ghost use Rattle.ca_records.specs.Puts.{written_meta};
ghost use Rattle.ca_world_data.specs.Numbering.{AllAlike, AllMayCount};
ghost use Rattle.ca_world_data.specs.Opening.{entries_in};
ghost use Rattle.ca_world_data.specs.Reporting.{waits};
ghost use Rattle.ca_world_data.specs.Seen.{joined_of, place_of, record_of};
ghost use Rattle.ca_world_data.specs.ServerCuts.{HasRoomFor};
ghost use Rattle.ca_world_servers.specs.declared.coming.Coming as coming;
ghost use Rattle.ca_world_servers.specs.Effects.{AreApart, IsPartingOf, MayWaitFor, TellsClear};
ghost use Rattle.ca_world_servers.specs.Effects.{TellsMessage, TellsWait, TellsWrite, busy_after};
ghost use Rattle.ca_world_servers.specs.Effects.{no_stamp, wrote_by};

use crate::coming::Coming;
use crate::handling::{add_waiting, make_busy};
use crate::parting::{Parting, keep_waiting};
use ca_dbr::Meta;
use ca_display::Held;
use ca_server_core::Effect;
use ca_world_data::entries::{push_entries, push_entry};
use ca_world_data::history::{LogEntry, Stored};
use ca_world_data::joined::Joined;
use ca_world_data::numbering::{number_of, post_numbers};
use ca_world_data::server::{PutPlace, RecordSide, ServerSide};

// The mask of an applied write: VALUE and LOG.
const WRITE_MASK: u16 = 3;

/// What the message at this place of its circuit did is told of the records of its server, whose
/// core has it, in the log of its life and in the numbers that wait. There is room for all of it.
pub fn tell_effect(
    put: PutPlace,
    server: usize,
    side: &mut ServerSide,
    circuits: &mut Vec<Joined>,
    logs: &mut Vec<Vec<LogEntry>>,
    effect: Effect,
    write: Option<Coming>,
    parting: Option<Parting>,
)
    requires alike { (busies : Bool) → wrote_by effect ≡ Some busies
        → AllAlike server side.old.core (map joined_of circuits.old.items) }
    requires counts { (busies : Bool) (w : coming.Coming)
        → wrote_by effect ≡ Some busies → write ≡ Some w → AllMayCount circuits.old.items }
    requires apart { AreApart (map record_of side.old.records.items) }
    requires parted { IsPartingOf parting (map record_of side.old.records.items) }
    requires space { MayWaitFor write side.old.records.items }
    requires room { HasRoomFor (waits side.old.records.items + 2) side.old.life logs.old.items }
    ensures tells { TellsMessage
        server
        (place_of put)
        effect
        write
        parting
        side.old
        (map joined_of circuits.old.items)
        (entries_in logs.old.items)
        side.new
        (map joined_of circuits.new.items)
        (entries_in logs.new.items) }
    ensures room { HasRoomFor (waits side.new.records.items) side.new.life logs.new.items }
{
    match effect {
        Effect::Wrote(_) => tell_write(put, server, side, circuits, logs, Some(false), write),
        Effect::Busied(_) => tell_write(put, server, side, circuits, logs, Some(true), write),
        Effect::Queued(_) => tell_wait(put, side, logs, write),
        Effect::Cleared(_) => tell_clear(side, logs, parting),
        Effect::Quiet => {}
        Effect::Refused => {}
        Effect::WriteRefused(_) => {}
        Effect::Created(_) => {}
        Effect::Subscribed(_, _) => {}
        Effect::Cancelled(_, _) => {}
        Effect::Switched(_) => {}
    }
}

/// The write of the message at this place of its circuit, if it wrote, is in the log; it makes its
/// record busy or not, and its numbers wait.
pub fn tell_write(
    put: PutPlace,
    server: usize,
    side: &mut ServerSide,
    circuits: &mut Vec<Joined>,
    logs: &mut Vec<Vec<LogEntry>>,
    wrote: Option<bool>,
    write: Option<Coming>,
)
    requires alike { (busies : Bool) → wrote ≡ Some busies
        → AllAlike server side.old.core (map joined_of circuits.old.items) }
    requires counts { (busies : Bool) (w : coming.Coming)
        → wrote ≡ Some busies → write ≡ Some w → AllMayCount circuits.old.items }
    requires room { HasRoomFor (waits side.old.records.items + 2) side.old.life logs.old.items }
    ensures tells { TellsWrite
        server
        (place_of put)
        wrote
        write
        side.old
        (map joined_of circuits.old.items)
        (entries_in logs.old.items)
        side.new
        (map joined_of circuits.new.items)
        (entries_in logs.new.items) }
    ensures room { HasRoomFor (waits side.new.records.items) side.new.life logs.new.items }
{
    let Some(busies) = wrote else {
        return;
    };
    let Some(write) = write else {
        return;
    };
    let Coming { name, held, .. } = write;
    let number = number_of(&name, &side.records);
    let meta = unstamped(&held);
    let stored = Stored { held, meta };
    push_entry(
        logs,
        side.life,
        LogEntry::Applied(put.circuit, put.place, number, stored, busies),
    );
    busy_if(&mut side.records, &name, put, busies);
    post_numbers(server, &side.core, circuits, &name, WRITE_MASK);
}

/// What goes with a written value in a world: its alarm, and no stamp.
pub fn unstamped(held: &Held) -> Meta
    ensures { result ≡ written_meta held.now no_stamp }
{
    let (status, severity) = held.alarm();
    Meta {
        status,
        severity,
        ..Meta::ZERO
    }
}

// The put makes its record busy, or not.
fn busy_if(records: &mut [RecordSide], name: &[u8], put: PutPlace, busies: bool)
    ensures { map record_of records.new
        ≡ busy_after
        busies
        name.now
        (place_of put)
        (map record_of records.old) }
{
    if busies {
        make_busy(records, name, put);
    }
}

// The put waits. There is room for it.
fn tell_wait(
    put: PutPlace,
    side: &mut ServerSide,
    logs: &mut Vec<Vec<LogEntry>>,
    write: Option<Coming>,
)
    requires apart { AreApart (map record_of side.old.records.items) }
    requires space { MayWaitFor write side.old.records.items }
    requires room { HasRoomFor (waits side.old.records.items + 2) side.old.life logs.old.items }
    ensures tells { TellsWait
        (place_of put)
        write
        side.old
        (entries_in logs.old.items)
        side.new
        (entries_in logs.new.items) }
    ensures room { HasRoomFor (waits side.new.records.items) side.new.life logs.new.items }
{
    let Some(write) = write else {
        return;
    };
    let Coming { name, held, .. } = write;
    let number = number_of(&name, &side.records);
    let meta = unstamped(&held);
    let stored = Stored { held, meta };
    push_entry(
        logs,
        side.life,
        LogEntry::Waits(put.circuit, put.place, number, stored),
    );
    add_waiting(&mut side.records, &name, put);
}

// The puts of the channel that is cleared leave their records.
fn tell_clear(side: &mut ServerSide, logs: &mut Vec<Vec<LogEntry>>, parting: Option<Parting>)
    requires parted { IsPartingOf parting (map record_of side.old.records.items) }
    requires room { HasRoomFor (waits side.old.records.items) side.old.life logs.old.items }
    ensures tells { TellsClear
        parting
        side.old
        (entries_in logs.old.items)
        side.new
        (entries_in logs.new.items) }
    ensures room { HasRoomFor (waits side.new.records.items) side.new.life logs.new.items }
{
    let Some(parting) = parting else {
        return;
    };
    let Parting { kept, told } = parting;
    push_entries(logs, side.life, told);
    keep_waiting(&mut side.records, kept);
}
