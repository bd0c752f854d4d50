//! What the messages of a datagram did is undone.
ghost use Rattle.std.specs.Prelude.{◌≡◌};
ghost use Rattle.ca_ids.specs.Table.{with_changed};
ghost use Rattle.ca_client_tables.specs.Ends.{cut_in};
ghost use Rattle.ca_client_tables.specs.Finding.{found_undone, halfway};
ghost use Rattle.ca_client_tables.specs.Receiving.{OpensOrUndoes, all_undone, half_parts, parts};
ghost use Rattle.ca_client_tables.specs.Receiving.{received_undone};

use crate::beacons::forget_beacon;
use crate::channel::Standing;
use crate::channels::{Channels, set_standing};
use crate::circuit::ClientCircuit;
use crate::finding::{Found, How};
use crate::receiving::Received;
use ca_arena::Handle;
use ca_beacon::BeaconTable;
use ca_ids::HeldTable;
use std::alloc::AllocError;

// Opens the circuits that are to be opened. Without memory what was received is undone,
// the last message first.
pub(crate) fn open_or_undo(
    channels: &mut Channels,
    circuits: &mut HeldTable<ClientCircuit>,
    opening: Vec<(Handle, ClientCircuit)>,
    order: &mut Vec<Handle>,
    beacons: &mut BeaconTable,
    done: Vec<Received>,
) -> Result<Vec<Received>, AllocError>
    ensures { OpensOrUndoes
        (half_parts channels.old circuits.old opening.items order.old.items beacons.old)
        done
        result
        (parts channels.new circuits.new order.new.items beacons.new) }
{
    match circuits.open_all(opening) {
        Ok(()) => Ok(done),
        Err(mut opening) => {
            undo_all(channels, circuits, &mut opening, order, beacons, done);
            Err(AllocError)
        }
    }
}

// These messages are undone, the last one first.
pub(crate) fn undo_all(
    channels: &mut Channels,
    circuits: &mut HeldTable<ClientCircuit>,
    opening: &mut Vec<(Handle, ClientCircuit)>,
    order: &mut Vec<Handle>,
    beacons: &mut BeaconTable,
    mut done: Vec<Received>,
)
    ensures { half_parts channels.new circuits.new opening.new.items order.new.items beacons.new
        ≡ all_undone done.items
        (half_parts channels.old circuits.old opening.old.items order.old.items beacons.old) }
{
    while let Some(received) = done.pop() {
        undo(channels, circuits, opening, order, beacons, received);
    }
}

// This message is undone.
fn undo(
    channels: &mut Channels,
    circuits: &mut HeldTable<ClientCircuit>,
    opening: &mut Vec<(Handle, ClientCircuit)>,
    order: &mut Vec<Handle>,
    beacons: &mut BeaconTable,
    received: Received,
)
    ensures { half_parts channels.new circuits.new opening.new.items order.new.items beacons.new
        ≡ received_undone received
        (half_parts channels.old circuits.old opening.old.items order.old.items beacons.old) }
{
    match received {
        Received::Nothing => {}
        Received::Found(found) => lose(channels, circuits, opening, order, found),
        Received::Beacon(beacon) => forget_beacon(beacons, beacon),
    }
}

// A channel was not found: it is searched for, and the circuit is as it was.
pub(crate) fn lose(
    channels: &mut Channels,
    circuits: &mut HeldTable<ClientCircuit>,
    opening: &mut Vec<(Handle, ClientCircuit)>,
    order: &mut Vec<Handle>,
    found: Found,
)
    ensures { halfway channels.new circuits.new opening.new.items order.new.items
        ≡ found_undone found
        (halfway channels.old circuits.old opening.old.items order.old.items) }
{
    set_standing(channels, found.channel, Standing::Searching);
    match found.how {
        How::Waits => {}
        How::Created(waiting) => cut_on(circuits, found.circuit, waiting),
        How::Wanted => {
            let _ = opening.pop();
            let _ = order.pop();
        }
    }
}

// Only the first n of the bytes on a circuit still wait.
fn cut_on(circuits: &mut HeldTable<ClientCircuit>, circuit: Handle, n: usize)
    ensures { circuits.new ≡ with_changed (cut_in n) circuit circuits.old }
{
    if let Some(found) = circuits.by_handle_mut(circuit) {
        found.cut_back(n);
    }
}
