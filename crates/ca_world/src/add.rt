//! A record is added to those of a server while it runs: to the core, to the world's own list,
//! which has the same order, and to the log.
ghost use Rattle.std.specs.Prelude.{ℕ, ◌≡◌, ◌<◌, ◌≤◌, IfOk, None, [], insert, length, map};
ghost use Rattle.std.specs.Prelude.{vec_capacity, vec_len};
ghost use Rattle.ca_dbr.specs.Elements.{elements};
ghost use Rattle.ca_events.specs.Events.{record_of as of_addition};
ghost use Rattle.ca_records.specs.Record.{unset};
ghost use Rattle.ca_model.specs.Events as event;
ghost use Rattle.ca_world.specs.Adding.{AddsAt, AreInOrder, StandsBehind};
ghost use Rattle.ca_world.specs.Counted.{HasEntries};
ghost use Rattle.ca_world_data.specs.Does.{Does};
ghost use Rattle.ca_world_data.specs.Opening.{entries_in};
ghost use Rattle.ca_world_data.specs.Seen.{record_of, server_of};

use crate::judging::takes_record;
use crate::wide::count_of;
use crate::world::World;
use ca_dbr::{Meta, Value};
use ca_display::Held;
use ca_events::Addition;
use ca_server_core::ServerCore;
use ca_server_core::for_histories::comes_before;
use ca_text::Refusal;
use ca_world_data::entries::{push_entry, reserve_entries};
use ca_world_data::history::{LogEntry, Recorded};
use ca_world_data::payloads::value_again;
use ca_world_data::server::{RecordSide, ServerSide};
use std::alloc::{AllocError, Global};

impl World {
    /// A record is added to those of a server, with a number that none of this life had. What the
    /// server refuses changes nothing.
    pub fn add(&mut self, addition: &Addition) -> Result<(), Refusal>
        ensures { Does
            self.old
            (event.Add addition.now.server (of_addition addition.now))
            result
            self.new }
    {
        addition.value.know();
        let server = addition.server as usize;
        if server >= self.servers.len() {
            return Err(Refusal::BadEvent);
        }
        add_at(
            self.alloc,
            &mut self.servers[server],
            &mut self.server_logs,
            &addition.name,
            addition.count,
            addition.slow,
            &addition.value,
        )
    }
}

// A record is added to those of this server. What its core refuses changes nothing, and takes no
// memory.
fn add_at(
    alloc: Global,
    side: &mut ServerSide,
    logs: &mut Vec<Vec<LogEntry>>,
    name: &[u8],
    count: u64,
    slow: bool,
    value: &Value,
) -> Result<(), Refusal>
    requires order { AreInOrder side.old.core.records (map record_of side.old.records.items) }
    requires counted { HasEntries (server_of side.old) (entries_in logs.old.items) }
    ensures adds { AddsAt
        (record {
          name = name.now;
          count = count;
          slow = slow;
          value = elements value.now;
          meta = unset;
        })
        (server_of side.old)
        (entries_in logs.old.items)
        result
        (server_of side.new)
        (entries_in logs.new.items) }
    ensures kept { side.new.circuits.items ≡ side.old.circuits.items }
{
    if !takes_record(&side.core, name, count, value) {
        return Ok(());
    }
    let carried = count_of(count);
    let told = Recorded {
        name: Vec::from_slice(alloc, name)?,
        count: carried,
        slow,
        held: Held::of(value_again(alloc, value)?),
        meta: Meta::ZERO,
    };
    let given = value_again(alloc, value)?;
    let begun = begin_record(alloc, name, side.added)?;
    side.records.reserve(1)?;
    reserve_entries(logs, side.life, 1)?;
    match side.core.add_record(name, carried, slow, given) {
        Ok(()) => {
            let number = side.added;
            let behind = count_before(&side.core, &side.records, name);
            put_in(&mut side.records, behind, begun);
            side.added += 1;
            push_entry(logs, side.life, LogEntry::Added(number, told));
            Ok(())
        }
        Err(_) => Err(Refusal::OutOfMemory),
    }
}

// A record that is neither busy nor waited for.
fn begin_record(alloc: Global, name: &[u8], number: usize) -> Result<RecordSide, AllocError>
    ensures { IfOk result (λ r. record_of r
        ≡ record { name = name.now; number = number; busy = None; waiting = [] }) }
{
    Ok(RecordSide {
        name: Vec::from_slice(alloc, name)?,
        number,
        busy: None,
        waiting: Vec::new(alloc),
    })
}

// How many of these records come before the one of this name, which the core has among them.
fn count_before(core: &ServerCore, records: &[RecordSide], name: &[u8]) -> usize
    ensures counts { (n : ℕ)
        → StandsBehind n core.now.records (map record_of records.now) name.now → result ≡ n }
    ensures within { result ≤ length records.now }
{
    for place in 0..records.len() {
        if !comes_before(core, &records[place].name, name) {
            return place;
        }
    }
    records.len()
}

// Puts a record at this place, for which there is room.
fn put_in(records: &mut Vec<RecordSide>, place: usize, one: RecordSide)
    requires within { place ≤ vec_len records.old }
    requires room { vec_len records.old < vec_capacity records.old }
    ensures { records.new.items ≡ insert records.old.items place one }
{
    match records.insert(place, one) {
        Ok(()) => {}
        Err(_) => {}
    }
}
