//! What is known of the next message on a circuit before the step that handles it, with
//! room for what it leaves.
ghost use Rattle.std.specs.Prelude.{◌≡◌, IfOk, OnOk, Some, map, true};
ghost use Rattle.ca_text.specs.Command.{command_number};
ghost use Rattle.ca_text.specs.declared.command.Command.TheVariants as command;
ghost use Rattle.ca_world_data.specs.Seen.{record_of};
ghost use Rattle.ca_world_servers.specs.declared.parting.Parting as part;
ghost use Rattle.ca_world_servers.specs.Coming.{Foresees};
ghost use Rattle.ca_world_servers.specs.Effects.{IsAhead, IsParting, IsPartingOf, IsWrite};
ghost use Rattle.ca_world_servers.specs.Effects.{MayWaitFor};

use crate::answering::reply_size;
use crate::coming::{Coming, coming_write};
use crate::handling::reserve_waiting;
use crate::parting::{Parting, part_puts};
use ca_arena::Handle;
use ca_server_core::ServerCore;
use ca_text::Command;
use ca_wire::Message;
use ca_world_data::server::RecordSide;
use std::alloc::{AllocError, Global};

/// The next message: its command, the write that it may be, the puts of the channel that it clears,
/// and how many bytes of payload the first reply to it has at most.
#[derive(Drop)]
pub struct Ahead {
    pub command: u16,
    pub write: Option<Coming>,
    pub parting: Option<Parting>,
    pub reply: usize,
}

/// That of this message, the next one on this circuit; the record of its write has room for one
/// more put that waits.
pub fn look_at(
    alloc: Global,
    core: &ServerCore,
    circuit: Handle,
    message: &Message,
    records: &mut [RecordSide],
) -> Result<Ahead, AllocError>
    ensures same { map record_of records.new ≡ map record_of records.old }
    ensures known { IfOk result (λ a.
        IsAhead core.now circuit (map record_of records.old) message.now a) }
    ensures room { IfOk result (λ a. MayWaitFor a.write records.new) }
{
    let write = look_write(alloc, core, circuit, message, records)?;
    let parting = look_clear(alloc, core, circuit, message, records)?;
    Ok(Ahead {
        command: message.command(),
        write,
        parting,
        reply: reply_size(core, circuit, message),
    })
}

// The write that the message may be; its record has room for one more put that waits.
fn look_write(
    alloc: Global,
    core: &ServerCore,
    circuit: Handle,
    message: &Message,
    records: &mut [RecordSide],
) -> Result<Option<Coming>, AllocError>
    ensures same { map record_of records.new ≡ map record_of records.old }
    ensures known { IfOk result (λ found.
        IsWrite message.now → Foresees core.now circuit message.now found) }
    ensures room { IfOk result (λ found. MayWaitFor found records.new) }
{
    if !is_write(message) {
        return Ok(None);
    }
    let found = coming_write(alloc, core, circuit, message)?;
    reserve_for(records, &found)?;
    Ok(found)
}

// Whether the message is a write.
fn is_write(message: &Message) -> bool
    ensures { IsWrite message.now → result ≡ true }
{
    if message.command() == Command::Write.number() {
        return true;
    }
    message.command() == Command::WriteNotify.number()
}

// Makes room for one more put that waits for the record of a write, if there is one.
fn reserve_for(records: &mut [RecordSide], write: &Option<Coming>) -> Result<(), AllocError>
    ensures same { map record_of records.new ≡ map record_of records.old }
    ensures room { OnOk result (MayWaitFor write.now records.new) }
{
    match write {
        Some(write) => reserve_waiting(records, &write.name),
        None => Ok(()),
    }
}

// What becomes of the puts of the channel that the message clears, if it does.
fn look_clear(
    alloc: Global,
    core: &ServerCore,
    circuit: Handle,
    message: &Message,
    records: &[RecordSide],
) -> Result<Option<Parting>, AllocError>
    ensures clears { IfOk result (λ found.
        message.now.command ≡ command_number command.ClearChannel
        → (p : part.Parting) × (found ≡ Some p)
        × IsParting core.now circuit message.now.p1 (map record_of records.now) p) }
    ensures parted { IfOk result (λ found. IsPartingOf found (map record_of records.now)) }
{
    if message.command() != Command::ClearChannel.number() {
        return Ok(None);
    }
    let parting = part_puts(alloc, core, circuit, message.p1(), records)?;
    Ok(Some(parting))
}
