//! The write that the next message on a circuit may be, known before the step that handles it: its
//! record, its value in that record's type, and whether it makes the record busy.
ghost use Rattle.std.specs.Prelude.{◌≡◌, IfOk, option_map};
ghost use Rattle.ca_dbr.specs.Elements.{elements};
ghost use Rattle.ca_dbr.specs.Held.{kind_of};
ghost use Rattle.ca_world_servers.specs.Coming.{Foresees, GivesElements, GivesValue, busies_by};

use ca_arena::Handle;
use ca_dbr::{BaseType, Value, read_value};
use ca_display::Held;
use ca_records::Record;
use ca_server_core::ServerCore;
use ca_text::{Command, Refusal};
use ca_wire::{Message, Sid};
use std::alloc::{AllocError, Global};

/// A write that may come: the name of its record, what that is to hold, and whether it makes the
/// record busy.
#[derive(Drop)]
pub struct Coming {
    pub name: Vec<u8>,
    pub held: Held,
    pub busies: bool,
}

/// The write that this message is, if it is one that the server's end of a circuit takes. None
/// if it cannot be one.
pub fn coming_write(
    alloc: Global,
    core: &ServerCore,
    circuit: Handle,
    message: &Message,
) -> Result<Option<Coming>, AllocError>
    ensures { IfOk result (λ found. Foresees core.now circuit message.now found) }
{
    let Some(name) = core.served_name(circuit, Sid::new(message.p1())) else {
        return Ok(None);
    };
    let Some(present) = core.record(name) else {
        return Ok(None);
    };
    let Some(given) = held_in(alloc, message, present.held())? else {
        return Ok(None);
    };
    let busies = makes_busy(present, message);
    let name = Vec::from_slice(alloc, name)?;
    Ok(Some(Coming {
        name,
        held: given,
        busies,
    }))
}

// Whether a write of this message makes this record busy.
fn makes_busy(of: &Record, message: &Message) -> bool
    ensures { result ≡ busies_by message.now of.now }
{
    message.command() == Command::WriteNotify.number() && of.is_slow()
}

// What a record that holds this is to hold after a put of this message. None if its value is not
// read, or not converted.
fn held_in(alloc: Global, message: &Message, present: &Held) -> Result<Option<Held>, AllocError>
    ensures { IfOk result (λ found.
        GivesValue message.now (kind_of present.now) found) }
{
    let Some(given) = elements_in(alloc, message)? else {
        return Ok(None);
    };
    match present.convert(alloc, &given) {
        Ok(value) => {
            let held = present.with_value(value)?;
            Ok(Some(held))
        }
        Err(refusal) => match refusal {
            Refusal::OutOfMemory => Err(AllocError),
            _ => Ok(None),
        },
    }
}

// The elements that a put of this message gives. None if they are not read.
fn elements_in(alloc: Global, message: &Message) -> Result<Option<Value>, AllocError>
    ensures { IfOk result (λ found. GivesElements message.now (option_map elements found)) }
{
    let Some(base) = BaseType::of(message.data_type()) else {
        return Ok(None);
    };
    match read_value(alloc, base.number(), message.count(), message.payload()) {
        Ok((value, _)) => Ok(Some(value)),
        Err(refusal) => match refusal {
            Refusal::OutOfMemory => Err(AllocError),
            _ => Ok(None),
        },
    }
}
