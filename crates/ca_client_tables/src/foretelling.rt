//! What a reply to a SEARCH makes a client send, told before it is taken.
ghost use Rattle.std.specs.Prelude.{◌≡◌, ◌≢◌, [], IfOk, None, OnErr};
ghost use Rattle.ca_ids.specs.Table.{with_all_held};
ghost use Rattle.ca_requests.specs.Meaning.{message_of};
ghost use Rattle.ca_client_tables.specs.Foretelling.{creation_by};
ghost use Rattle.ca_client_tables.specs.Opening.{AreOpening};

use crate::address::Address;
use crate::channels::Channels;
use crate::circuit::ClientCircuit;
use crate::finding::{circuit_to, found_at, searched_by};
use ca_arena::Handle;
use ca_ids::HeldTable;
use ca_wire::{Header, Message};
use std::alloc::{AllocError, Global};

/// The CREATE_CHAN of a channel, and the circuit on which it goes.
#[derive(Debug, Drop)]
pub struct Creation {
    /// The circuit.
    pub circuit: Handle,
    /// The channel.
    pub channel: Handle,
    /// Its CREATE_CHAN.
    pub message: Message,
}

/// The CREATE_CHAN that a reply to a SEARCH, which came from this address, makes a client send:
/// that of the channel that was found, if the circuit to its server is connected, once those that
/// are to be opened are. Only a CREATE_CHAN takes memory.
pub fn creation_by(
    alloc: Global,
    channels: &Channels,
    circuits: &HeldTable<ClientCircuit>,
    opening: &[(Handle, ClientCircuit)],
    from: Address,
    reply: &Header,
) -> Result<Option<Creation>, AllocError>
    requires { AreOpening opening.now circuits.now }
    ensures ok { IfOk result (λ o. o
        ≡ creation_by
        channels.now
        (with_all_held opening.now circuits.now)
        from
        (message_of reply.now [])) }
    ensures some { OnErr result (creation_by
        channels.now
        (with_all_held opening.now circuits.now)
        from
        (message_of reply.now []) ≢ None) }
{
    let Some((channel, found)) = searched_by(channels, reply.p2) else {
        return Ok(None);
    };
    let address = found_at(from, reply);
    let Some((circuit, connected)) = circuit_to(circuits, opening, address, found.priority()) else {
        return Ok(None);
    };
    if !connected {
        return Ok(None);
    }
    let message = found.create_message(alloc, channel)?;
    Ok(Some(Creation {
        circuit,
        channel,
        message,
    }))
}
