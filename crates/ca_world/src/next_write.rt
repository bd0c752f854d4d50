//! The put that waits first for a record: its value, as the log of its server's life has it, and
//! the records once it makes its record busy.
ghost use Rattle.std.specs.Prelude.{◌≡◌, IfOk, if◌then◌else◌, map, option_map};
ghost use Rattle.std.specs.Str.{bytes_eq};
ghost use Rattle.ca_model.specs.ServerEvents as world;
ghost use Rattle.ca_world.specs.Finishing.{HasNext, IsNext, WaitIn, WaitsIn};
ghost use Rattle.ca_world_data.specs.Opening.{entries_in};
ghost use Rattle.ca_world_data.specs.Seen.{entry_of, place_of, record_of};

use ca_display::Held;
use ca_world_data::history::LogEntry;
use ca_world_data::server::{PutPlace, RecordSide};
use std::alloc::{AllocError, Global};

/// The put that waits first for the record of this name makes it busy, or none does.
pub(crate) fn next_records(records: &mut [RecordSide], name: &[u8])
    ensures { map record_of records.new
        ≡ world.with_record name.now world.next_busy (map record_of records.old) }
{
    for record in records.iter_mut() {
        next_if(record, name);
    }
}

// The put that waits first makes this record busy, or none does, if the record has the name.
fn next_if(side: &mut RecordSide, name: &[u8])
    ensures { record_of side.new
        ≡ if bytes_eq (record_of side.old).name name.now
        then world.next_busy (record_of side.old)
        else record_of side.old }
{
    if side.name.as_slice() == name {
        next_busy(side);
    }
}

// The put that waits first makes this record busy, or none does.
fn next_busy(side: &mut RecordSide)
    ensures { record_of side.new ≡ world.next_busy (record_of side.old) }
{
    side.busy = first_put(&side.waiting);
    if side.waiting.len() > 0 {
        side.waiting.remove(0);
    }
}

/// The value of the first of these puts, which wait, by the log of a life, which tells of it. None
/// if none waits.
pub(crate) fn next_value(
    alloc: Global,
    logs: &[Vec<LogEntry>],
    life: usize,
    waiting: &[PutPlace],
) -> Result<Option<Held>, AllocError>
    requires { HasNext (entries_in logs.now) life (map place_of waiting.now) }
    ensures { IfOk result (λ v.
        IsNext (entries_in logs.now) life (map place_of waiting.now) v) }
{
    let Some(put) = first_put(waiting) else {
        return Ok(None);
    };
    let Some(value) = value_waiting(&logs[life], put) else {
        unreachable!()
    };
    let copy = value.copy(alloc)?;
    Ok(Some(copy))
}

/// The first of these puts, if there is one.
pub(crate) fn first_put(waiting: &[PutPlace]) -> Option<PutPlace>
    ensures { option_map place_of result ≡ world.first_of (map place_of waiting.now) }
{
    if waiting.len() == 0 {
        return None;
    }
    Some(waiting[0])
}

// The value with which the put of this place came to wait, or no entry tells of it.
fn value_waiting<'a>(log: &'a [LogEntry], put: PutPlace) -> Option<&'a Held>
    ensures { WaitsIn
        (map entry_of log.now)
        (place_of put)
        (option_map (λ h. h.now) result) }
{
    for entry in log {
        if let Some(value) = value_in(entry, put) {
            return Some(value);
        }
    }
    None
}

// The value with which the put of this place came to wait, if this entry tells of it.
fn value_in<'a>(entry: &'a LogEntry, put: PutPlace) -> Option<&'a Held>
    ensures { WaitIn
        (entry_of entry.now)
        (place_of put)
        (option_map (λ h. h.now) result) }
{
    match entry {
        LogEntry::Waits(circuit, place, _, stored) => {
            if *circuit == put.circuit && *place == put.place {
                Some(&stored.held)
            } else {
                None
            }
        }
        _ => None,
    }
}
