//! The puts that wait on a channel which a message clears leave their records, and the log
//! has them as withdrawn.
ghost use Rattle.std.specs.Prelude.{◌≡◌, ◌++◌, IfOk, OnOk, map, not};
ghost use Rattle.ca_model.specs.ServerEvents as world;
ghost use Rattle.ca_world_data.specs.Seen.{entry_of, place_of, record_of};
ghost use Rattle.ca_world_servers.specs.Parting.{all_gone, all_kept, gone_of, kept_of, places_in};
ghost use Rattle.ca_world_servers.specs.Parting.{put_if, with_kept, withdrawn_at};

use ca_arena::Handle;
use ca_ids::WireId;
use ca_records::Put;
use ca_server_core::ServerCore;
use ca_server_core::for_histories::waiting_at;
use ca_world_data::history::LogEntry;
use ca_world_data::naming::is_same;
use ca_world_data::server::{PutPlace, RecordSide};
use std::alloc::{AllocError, Global};

/// What becomes of the puts that wait if a channel is cleared: those that each record keeps, and
/// what the log tells of the others.
#[derive(Drop)]
pub struct Parting {
    pub kept: Vec<Vec<PutPlace>>,
    pub told: Vec<LogEntry>,
}

/// That of the channel of this SID on this circuit of the core.
pub fn part_puts(
    alloc: Global,
    core: &ServerCore,
    circuit: Handle,
    sid: u32,
    records: &[RecordSide],
) -> Result<Parting, AllocError>
    ensures kept { IfOk result (λ p.
        map places_in p.kept.items ≡ all_kept core.now circuit sid (map record_of records.now)) }
    ensures told { IfOk result (λ p.
        map entry_of p.told.items ≡ all_gone core.now circuit sid (map record_of records.now)) }
{
    let mut kept = Vec::new(alloc);
    let mut told = Vec::new(alloc);
    for record in records {
        kept.push(part_waiting(alloc, core, circuit, sid, record, &mut told)?)?;
    }
    Ok(Parting { kept, told })
}

// The puts that one record keeps. The log tells of the others.
fn part_waiting(
    alloc: Global,
    core: &ServerCore,
    circuit: Handle,
    sid: u32,
    side: &RecordSide,
    told: &mut Vec<LogEntry>,
) -> Result<Vec<PutPlace>, AllocError>
    ensures kept { IfOk result (λ v.
        places_in v ≡ kept_of core.now circuit sid (record_of side.now)) }
    ensures told { OnOk result (map entry_of told.new.items
        ≡ map entry_of told.old.items
        ++ map withdrawn_at (gone_of core.now circuit sid (record_of side.now))) }
{
    let mut kept = Vec::new(alloc);
    for place in 0..side.waiting.len() {
        let Some(put) = waiting_at(core, &side.name, place) else {
            return Ok(kept);
        };
        let gone = is_on_channel(put, circuit, sid);
        put_aside(&mut kept, told, side.waiting[place], gone)?;
    }
    Ok(kept)
}

// The put at this place is kept, or the log says that it is withdrawn.
fn put_aside(
    kept: &mut Vec<PutPlace>,
    told: &mut Vec<LogEntry>,
    put: PutPlace,
    gone: bool,
) -> Result<(), AllocError>
    ensures kept { OnOk result (places_in kept.new
        ≡ places_in kept.old ++ put_if (not gone) (place_of put)) }
    ensures told { OnOk result (map entry_of told.new.items
        ≡ map entry_of told.old.items ++ map withdrawn_at (put_if gone (place_of put))) }
{
    if gone {
        told.push(LogEntry::Withdrawn(put.circuit, put.place))?;
    } else {
        kept.push(put)?;
    }
    Ok(())
}

// Whether the put came on the channel of this SID on this circuit.
fn is_on_channel(put: Put, circuit: Handle, sid: u32) -> bool
    ensures { result ≡ world.is_of_channel circuit sid put }
{
    is_same(put.circuit, circuit) && WireId::of(put.channel).number() == sid
}

/// The puts that wait for these records are from now on those that were kept of each.
pub fn keep_waiting(records: &mut [RecordSide], kept: Vec<Vec<PutPlace>>)
    ensures { map record_of records.new
        ≡ with_kept (map places_in kept.items) (map record_of records.old) }
{
    let mut place = 0;
    for waiting in kept {
        if place < records.len() {
            records[place].waiting = waiting;
            place += 1;
        }
    }
}
