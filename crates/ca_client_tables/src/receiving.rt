//! What the messages of a datagram do to the tables of a client.
ghost use Rattle.std.specs.Prelude.{◌≡◌, ℕ};
ghost use Rattle.ca_text.specs.declared.command.Command.TheVariants as command;
ghost use Rattle.ca_client_tables.specs.Opening.{AreOpening};
ghost use Rattle.ca_client_tables.specs.Receiving.{HearsIn, ReceivesIn, all_settled_in};
ghost use Rattle.ca_client_tables.specs.Receiving.{boosted_if, half_parts, settled_in};

use crate::address::Address;
use crate::beacons::{Beacon, beacon_port, hear_beacon};
use crate::channels::Channels;
use crate::circuit::ClientCircuit;
use crate::finding::{Found, find_one};
use crate::searches::Searches;
use ca_arena::Handle;
use ca_beacon::BeaconTable;
use ca_ids::HeldTable;
use ca_text::Command;
use ca_wire::Message;
use std::alloc::{AllocError, Global};

/// What a message of a datagram did, so that it can be undone.
#[derive(Clone, Copy, Debug)]
pub enum Received {
    /// Nothing.
    Nothing,
    /// A channel was found.
    Found(Found),
    /// A beacon was heard.
    Beacon(Beacon),
}

// A message of a datagram from this address was received; the searches are still to follow. Without
// memory nothing changes.
pub(crate) fn receive(
    alloc: Global,
    channels: &mut Channels,
    circuits: &mut HeldTable<ClientCircuit>,
    opening: &mut Vec<(Handle, ClientCircuit)>,
    order: &mut Vec<Handle>,
    beacons: &mut BeaconTable,
    from: Address,
    message: &Message,
) -> Result<Received, AllocError>
    requires { AreOpening opening.old.items circuits.old }
    ensures receives { ReceivesIn
        (half_parts channels.old circuits.old opening.old.items order.old.items beacons.old)
        from
        message.now
        result
        (half_parts channels.new circuits.new opening.new.items order.new.items beacons.new) }
    ensures opening { AreOpening opening.new.items circuits.new }
{
    let command = message.command();
    if command == Command::Search.number() {
        let reply = message.header();
        return match find_one(alloc, channels, circuits, opening, order, from, &reply) {
            Ok(Some(found)) => Ok(Received::Found(found)),
            Ok(None) => Ok(Received::Nothing),
            Err(refused) => Err(refused),
        };
    }
    if command == Command::RsrvIsUp.number() {
        return receive_beacon(beacons, from, message);
    }
    Ok(Received::Nothing)
}

// RSRV_IS_UP: a beacon, if it has a port.
fn receive_beacon(
    beacons: &mut BeaconTable,
    from: Address,
    message: &Message,
) -> Result<Received, AllocError>
    ensures { HearsIn beacons.old from message.now result beacons.new }
{
    let Some(port) = beacon_port(message) else {
        return Ok(Received::Nothing);
    };
    match hear_beacon(beacons, from, message, port) {
        Ok(beacon) => Ok(Received::Beacon(beacon)),
        Err(refused) => Err(refused),
    }
}

/// The searches follow what was received: those for channels that were found are paused, and after
/// an anomaly all others begin again.
pub fn settle(searches: &mut Searches, moment: u64, done: &[Received])
    ensures { searches.new.entries ≡ all_settled_in moment done.now searches.old.entries }
{
    let mut anomaly = false;
    for received in done {
        anomaly = settle_one(searches, received, anomaly);
    }
    if anomaly {
        searches.boost(moment);
    }
}

// They follow one more message, except that an anomaly does not yet make them begin again. It says
// whether there was one so far.
fn settle_one(searches: &mut Searches, received: &Received, anomaly: bool) -> bool
    ensures { (moment : ℕ) → boosted_if result moment searches.new.entries
        ≡ settled_in moment received.now (boosted_if anomaly moment searches.old.entries) }
{
    match *received {
        Received::Nothing => anomaly,
        Received::Found(found) => {
            searches.pause(found.channel);
            anomaly
        }
        Received::Beacon(beacon) => anomaly || beacon.anomaly,
    }
}
