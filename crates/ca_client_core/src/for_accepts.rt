//! Calls for a recorder of histories before a circuit is connected. No client needs them.
ghost use Rattle.std.specs.Prelude.{◌≡◌, ◌≢◌, ◌≤◌, ◌++◌, [], IfOk, OnErr, OnOk, map};
ghost use Rattle.ca_text.specs.Limits.{priority_limit};
ghost use Rattle.ca_arena.specs.Arena.{place_at};
ghost use Rattle.ca_ids.specs.Table.{held, held_at};
ghost use Rattle.ca_client_core.specs.ForAccepts.{connecting_sent, creations_among};
ghost use Rattle.ca_client_core.specs.ForAccepts.{creations_of_one, greeting_sent};
ghost use Rattle.ca_client_core.specs.ForHistories.{sending_of};

use crate::client::ClientCore;
use crate::for_histories::{Aim, Sending, of_circuit};
use ca_arena::Handle;
use ca_client_tables::Channels;
use ca_text::{Command, PAYLOAD_LIMIT};
use ca_wire::{Priority, name_request, version_request};
use std::alloc::{AllocError, Global};

/// What the client sends once this circuit is connected: its set-up, and then the CREATE_CHAN of
/// each channel that waits for it, in order of index. Nothing, if it is not wanted or is connected.
/// Only a message takes memory.
pub fn sent_when_connected(core: &ClientCore, circuit: Handle) -> Result<Vec<Sending>, AllocError>
    ensures ok { IfOk result (λ sent.
        map sending_of sent.items ≡ connecting_sent core.now circuit) }
    ensures some { OnErr result (connecting_sent core.now circuit ≢ []) }
{
    let mut sent = Vec::new(core.alloc);
    let Some(found) = core.unconnected(circuit) else {
        return Ok(sent);
    };
    let priority = found.priority;
    list_set_up(
        core.alloc, priority, &core.user, &core.host, circuit, &mut sent,
    )?;
    list_creations(core.alloc, &core.channels, circuit, &mut sent)?;
    Ok(sent)
}

// Puts VERSION, CLIENT_NAME and HOST_NAME of a circuit after what is sent. A name that has no room
// in a message counts as out of memory.
fn list_set_up(
    alloc: Global,
    priority: u16,
    user: &[u8],
    host: &[u8],
    circuit: Handle,
    sent: &mut Vec<Sending>,
) -> Result<(), AllocError>
    requires { priority ≤ priority_limit }
    ensures { OnOk result (map sending_of sent.new.items
        ≡ map sending_of sent.old.items ++ greeting_sent circuit priority user.now host.now) }
{
    if user.len() >= PAYLOAD_LIMIT || host.len() >= PAYLOAD_LIMIT {
        return Err(AllocError);
    }
    let priority = match Priority::read(u64::from(priority)) {
        Ok(priority) => priority,
        Err(_) => unreachable!(),
    };
    let client_name = name_request(alloc, Command::ClientName, user)?;
    let host_name = name_request(alloc, Command::HostName, host)?;
    sent.push(of_circuit(circuit, version_request(alloc, priority)))?;
    sent.push(of_circuit(circuit, client_name))?;
    sent.push(of_circuit(circuit, host_name))?;
    Ok(())
}

// Puts the CREATE_CHAN of each channel that waits for this circuit after what is
// sent, in order of index.
fn list_creations(
    alloc: Global,
    channels: &Channels,
    circuit: Handle,
    sent: &mut Vec<Sending>,
) -> Result<(), AllocError>
    ensures { OnOk result (map sending_of sent.new.items
        ≡ map sending_of sent.old.items ++ creations_among circuit (held channels.now)) }
{
    for index in 0..channels.places() {
        list_creation(alloc, channels, circuit, index, sent)?;
    }
    Ok(())
}

// Puts that of the channel at this index after it, if it waits for this circuit.
fn list_creation(
    alloc: Global,
    channels: &Channels,
    circuit: Handle,
    index: usize,
    sent: &mut Vec<Sending>,
) -> Result<(), AllocError>
    ensures { OnOk result (map sending_of sent.new.items
        ≡ map sending_of sent.old.items
        ++ creations_of_one circuit (held_at index (place_at channels.now index))) }
{
    let Some((handle, channel)) = channels.at(index) else {
        return Ok(());
    };
    if !channel.is_connecting_on(circuit) {
        return Ok(());
    }
    let message = channel.create_message(alloc, handle)?;
    sent.push(Sending {
        circuit,
        message,
        aim: Aim::Create(handle),
    })?;
    Ok(())
}
