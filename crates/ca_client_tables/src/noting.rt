//! The messages of a datagram are received, and the CREATE_CHANs that they make a
//! client send are noted.
ghost use Rattle.std.specs.Prelude.{◌≡◌, ◌+◌, ◌≤◌, IfOk, vec_capacity, vec_len};
ghost use Rattle.ca_ids.specs.Table.{with_all_held};
ghost use Rattle.ca_client_tables.specs.Noting.{NotesAll, NotesOne, creation_in};
ghost use Rattle.ca_client_tables.specs.Opening.{AreOpening};
ghost use Rattle.ca_client_tables.specs.Receiving.{half_parts, parts};

use crate::address::Address;
use crate::channels::Channels;
use crate::circuit::ClientCircuit;
use crate::foretelling::{Creation, creation_by};
use crate::receiving::{Received, receive};
use crate::undoing::{open_or_undo, undo_all};
use ca_arena::Handle;
use ca_beacon::BeaconTable;
use ca_ids::HeldTable;
use ca_text::Command;
use ca_wire::Message;
use std::alloc::{AllocError, Global};

/// What the messages of a datagram did, and the CREATE_CHANs that went out by them, in order.
#[derive(Drop)]
pub struct Noted {
    /// What each message did.
    pub done: Vec<Received>,
    /// The CREATE_CHANs, at most one for each message.
    pub sent: Vec<Creation>,
}

/// The messages of a datagram from this address were received, one after another, and what they
/// sent was noted; the searches are still to follow. Only a message takes memory. Without memory
/// nothing changes.
pub fn receive_all(
    alloc: Global,
    channels: &mut Channels,
    circuits: &mut HeldTable<ClientCircuit>,
    order: &mut Vec<Handle>,
    beacons: &mut BeaconTable,
    from: Address,
    messages: &[Message],
) -> Result<Noted, AllocError>
    ensures { NotesAll
        (parts channels.old circuits.old order.old.items beacons.old)
        from
        messages.now
        result
        (parts channels.new circuits.new order.new.items beacons.new) }
{
    let mut done = Vec::new(alloc);
    let mut sent = Vec::new(alloc);
    let mut opening = Vec::new(alloc);
    done.reserve(messages.len())?;
    sent.reserve(messages.len())?;
    for index in 0..messages.len() {
        let message = &messages[index];
        match receive_noting(
            alloc,
            channels,
            circuits,
            &mut opening,
            order,
            beacons,
            from,
            message,
            &mut sent,
        ) {
            Ok(received) => done.push_reserved(received),
            Err(_) => {
                undo_all(channels, circuits, &mut opening, order, beacons, done);
                return Err(AllocError);
            }
        }
    }
    let done = open_or_undo(channels, circuits, opening, order, beacons, done)?;
    Ok(Noted { done, sent })
}

// A message of a datagram from this address was received, and its CREATE_CHAN noted, for which
// there is room. Without memory nothing changes.
fn receive_noting(
    alloc: Global,
    channels: &mut Channels,
    circuits: &mut HeldTable<ClientCircuit>,
    opening: &mut Vec<(Handle, ClientCircuit)>,
    order: &mut Vec<Handle>,
    beacons: &mut BeaconTable,
    from: Address,
    message: &Message,
    sent: &mut Vec<Creation>,
) -> Result<Received, AllocError>
    requires room { vec_len sent.old + 1 ≤ vec_capacity sent.old }
    requires opening { AreOpening opening.old.items circuits.old }
    ensures notes { NotesOne
        (half_parts channels.old circuits.old opening.old.items order.old.items beacons.old)
        from
        message.now
        sent.old.items
        result
        sent.new.items
        (half_parts channels.new circuits.new opening.new.items order.new.items beacons.new) }
    ensures opening { AreOpening opening.new.items circuits.new }
    ensures capacity { vec_capacity sent.new ≡ vec_capacity sent.old }
{
    let creation = sent_by(alloc, channels, circuits, opening, from, message)?;
    let received = receive(
        alloc, channels, circuits, opening, order, beacons, from, message,
    )?;
    if let Some(creation) = creation {
        sent.push_reserved(creation);
    }
    Ok(received)
}

// The CREATE_CHAN that a message of a datagram from this address makes the client send, if any.
fn sent_by(
    alloc: Global,
    channels: &Channels,
    circuits: &HeldTable<ClientCircuit>,
    opening: &[(Handle, ClientCircuit)],
    from: Address,
    message: &Message,
) -> Result<Option<Creation>, AllocError>
    requires { AreOpening opening.now circuits.now }
    ensures { IfOk result (λ o. o
        ≡ creation_in channels.now (with_all_held opening.now circuits.now) from message.now) }
{
    if message.command() == Command::Search.number() {
        let reply = message.header();
        return creation_by(alloc, channels, circuits, opening, from, &reply);
    }
    Ok(None)
}
