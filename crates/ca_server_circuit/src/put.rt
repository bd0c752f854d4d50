//! Puts with notification: their elements, and how they begin.
ghost use Rattle.std.specs.Prelude.{◌≡◌, IfOk, OnErr};
ghost use Rattle.ca_dbr.specs.Reading.{least_size};
ghost use Rattle.ca_records.specs.Store.{IsThere};
ghost use Rattle.ca_server_circuit.specs.Putting.{IsGiven, WritesTo, asked};

use ca_arena::Handle;
use ca_dbr::{BaseType, Value, read_value_into};
use ca_records::{Begun, Put, Record, ServedRecords};
use ca_text::{Refusal, Status};
use ca_wire::Wanted;
use std::alloc::{AllocError, Global};

/// What the payload of a put holds.
#[derive(Drop)]
pub(crate) enum Given {
    /// These elements.
    Elements(Value),
    /// They are not read: the put is refused by this status.
    Fault(Status),
}

/// The put with notification on this channel that names this.
#[inline(always)]
pub(crate) fn put_from(circuit: Handle, channel: Handle, wanted: &Wanted) -> Put
    ensures { result ≡ record {
      circuit = circuit;
      channel = channel;
      data_type = wanted.now.data_type;
      count = wanted.now.count;
      ioid = wanted.now.id;
    } }
{
    Put {
        circuit,
        channel,
        data_type: wanted.data_type,
        count: wanted.count,
        ioid: wanted.id.number(),
    }
}

/// Begins the write of this payload to the record at this place under these rights: a put with
/// notification, or a plain write, which has none. Without memory nothing changes.
#[inline(always)]
pub(crate) fn begin(
    alloc: Global,
    records: &mut ServedRecords,
    place: usize,
    rights: u32,
    put: Option<Put>,
    wanted: &Wanted,
    payload: &[u8],
) -> Result<Begun, AllocError>
    requires { IsThere records.old place }
    ensures ok { IfOk result (λ begun.
        WritesTo records.old place rights put (asked wanted.now payload.now) begun records.new) }
    ensures err { OnErr result (records.new ≡ records.old) }
{
    let room = records.take_spare(place);
    match read_elements(
        alloc,
        room,
        records.at(place).state(),
        rights,
        wanted,
        payload,
    )? {
        Given::Fault(status) => Ok(Begun::Refused(status)),
        Given::Elements(value) => {
            let begun = records.begin_write(place, put, value)?;
            Ok(begun)
        }
    }
}

/// The elements of a put to this record under these rights, or its first fault before they are
/// read. They may take the memory of a value that is no longer used.
#[inline(always)]
fn read_elements(
    alloc: Global,
    room: Option<Value>,
    of: &Record,
    rights: u32,
    wanted: &Wanted,
    payload: &[u8],
) -> Result<Given, AllocError>
    ensures { IfOk result (λ given.
        IsGiven of.now rights (asked wanted.now payload.now) given) }
{
    let Some(base) = BaseType::of(wanted.data_type) else {
        return Ok(Given::Fault(Status::BADTYPE));
    };
    if rights / 2 % 2 != 1 {
        return Ok(Given::Fault(Status::NOWTACCESS));
    }
    let count = wanted.count;
    if count == 0 {
        return Ok(Given::Fault(Status::BADCOUNT));
    }
    if count > of.count() {
        return Ok(Given::Fault(Status::BADCOUNT));
    }
    if payload.len() < least_size(base, count) {
        return Ok(Given::Fault(Status::BADCOUNT));
    }
    match read_value_into(alloc, room, base.number(), count, payload) {
        Ok((value, _)) => Ok(Given::Elements(value)),
        Err(refusal) => match refusal {
            Refusal::OutOfMemory => Err(AllocError),
            _ => unreachable!(),
        },
    }
}

/// How many bytes n elements take at least: a single STRING may come in any number.
fn least_size(base: BaseType, count: u32) -> usize
    ensures { result ≡ least_size base count }
{
    match base {
        BaseType::String if count == 1 => 0,
        _ => count as usize * base.element_size(),
    }
}
