//! What the reply to a SEARCH does to the tables of a client.
ghost use Rattle.std.specs.Prelude.{◌≡◌, ◌<◌, ◌≤◌, [], is_some, length, option_map};
ghost use Rattle.ca_text.specs.Limits.{priority_limit};
ghost use Rattle.ca_ids.specs.Table.{held_at, with_all_held};
ghost use Rattle.ca_arena.specs.Arena.{place_at};
ghost use Rattle.ca_requests.specs.Meaning.{message_of};
ghost use Rattle.ca_model.specs.Hears.{found_at, is_searched};
ghost use Rattle.ca_client_tables.specs.Finding.{CreatesIn, FindsIn, FindsOne, WantsNew};
ghost use Rattle.ca_client_tables.specs.Finding.{circuit_in, first_to, goes_to, halfway};
ghost use Rattle.ca_client_tables.specs.Finding.{searched_in, tables, undone, unopened};
ghost use Rattle.ca_client_tables.specs.Opening.{AreOpening};

use crate::address::Address;
use crate::beginning::is_same;
use crate::channel::{Channel, Phase, Standing};
use crate::channels::{Channels, set_standing};
use crate::circuit::ClientCircuit;
use crate::queue::{queue_on, waiting_on};
use crate::undoing::lose;
use ca_arena::Handle;
use ca_ids::{HeldTable, WireId};
use ca_wire::{Header, Message};
use std::alloc::{AllocError, Global};

/// In place of an address, in a reply: the server is where the reply came from.
const NO_ADDRESS: u32 = 0xFFFF_FFFF;

/// A channel that was found: on which circuit it is, and how it came there.
#[derive(Clone, Copy, Debug)]
pub struct Found {
    /// The channel.
    pub channel: Handle,
    /// The circuit on which it is now.
    pub circuit: Handle,
    /// How it came there.
    pub how: How,
}

/// How a channel that was found came to its circuit.
#[derive(Clone, Copy, Debug)]
pub enum How {
    /// It waits there for the circuit to be connected.
    Waits,
    /// Its CREATE_CHAN waits there, after this many bytes.
    Created(usize),
    /// The circuit is wanted from now on.
    Wanted,
}

/// A reply to a SEARCH came from this address: a channel that is searched for is put on the
/// circuit to its server. It is named, since its searches are still to be paused. Without
/// memory nothing changes.
pub fn find(
    alloc: Global,
    channels: &mut Channels,
    circuits: &mut HeldTable<ClientCircuit>,
    order: &mut Vec<Handle>,
    from: Address,
    reply: &Header,
) -> Result<Option<Handle>, AllocError>
    ensures { FindsIn
        (tables channels.old circuits.old order.old.items)
        from
        (message_of reply.now [])
        result
        (tables channels.new circuits.new order.new.items) }
{
    let mut opening = Vec::new(alloc);
    let found = find_one(alloc, channels, circuits, &mut opening, order, from, reply)?;
    match circuits.open_all(opening) {
        Ok(()) => match found {
            Some(found) => Ok(Some(found.channel)),
            None => Ok(None),
        },
        Err(opening) => {
            lose_found(channels, circuits, opening, order, found);
            Err(AllocError)
        }
    }
}

// What was found is undone, and nothing is to be opened.
fn lose_found(
    channels: &mut Channels,
    circuits: &mut HeldTable<ClientCircuit>,
    mut opening: Vec<(Handle, ClientCircuit)>,
    order: &mut Vec<Handle>,
    found: Option<Found>,
)
    ensures { tables channels.new circuits.new order.new.items
        ≡ unopened (undone found
        (halfway channels.old circuits.old opening.items order.old.items)) }
{
    if let Some(found) = found {
        lose(channels, circuits, &mut opening, order, found);
    }
}

// As `find`, but a circuit that is wanted from now on is still to be opened, under the handle that
// it will have. Without memory nothing changes.
pub(crate) fn find_one(
    alloc: Global,
    channels: &mut Channels,
    circuits: &mut HeldTable<ClientCircuit>,
    opening: &mut Vec<(Handle, ClientCircuit)>,
    order: &mut Vec<Handle>,
    from: Address,
    reply: &Header,
) -> Result<Option<Found>, AllocError>
    requires { AreOpening opening.old.items circuits.old }
    ensures finds { FindsOne
        (halfway channels.old circuits.old opening.old.items order.old.items)
        from
        (message_of reply.now [])
        result
        (halfway channels.new circuits.new opening.new.items order.new.items) }
    ensures opening { AreOpening opening.new.items circuits.new }
{
    let Some((channel, found)) = searched_by(channels, reply.p2) else {
        return Ok(None);
    };
    let priority = found.priority();
    let address = found_at(from, reply);
    match circuit_to(circuits, opening, address, priority) {
        None => want_new(
            channels, circuits, opening, order, address, priority, channel,
        ),
        Some((circuit, connected)) => {
            if !connected {
                set_standing(channels, channel, Standing::On(circuit, Phase::Connecting));
                let how = How::Waits;
                return Ok(Some(Found {
                    channel,
                    circuit,
                    how,
                }));
            }
            let create = found.create_message(alloc, channel)?;
            create_on(channels, circuits, circuit, channel, &create)
        }
    }
}

// The channel of this CID, if it is searched for.
pub(crate) fn searched_by(channels: &Channels, cid: u32) -> Option<(Handle, &Channel)>
    ensures { option_map (λ e. (e.0, e.1.now)) result ≡ searched_in cid channels.now }
{
    match channels.by_wire(WireId::new(cid)) {
        Some((handle, channel)) if channel.is_searched() => Some((handle, channel)),
        _ => None,
    }
}

// The channel waits for a new circuit, after the others, which is still to be opened. If no more
// circuits can be had, nothing happens; nor without memory.
fn want_new(
    channels: &mut Channels,
    circuits: &HeldTable<ClientCircuit>,
    opening: &mut Vec<(Handle, ClientCircuit)>,
    order: &mut Vec<Handle>,
    address: Address,
    priority: u16,
    channel: Handle,
) -> Result<Option<Found>, AllocError>
    requires { priority ≤ priority_limit }
    ensures { WantsNew
        (halfway channels.old circuits.now opening.old.items order.old.items)
        address
        priority
        channel
        result
        (halfway channels.new circuits.now opening.new.items order.new.items) }
{
    let Ok(vacant) = circuits.vacant_after(opening) else {
        return Err(AllocError);
    };
    let Some(circuit) = vacant else {
        return Ok(None);
    };
    opening.reserve(1)?;
    order.reserve(1)?;
    let wanted = ClientCircuit {
        address,
        priority,
        is_name: false,
        connection: None,
    };
    opening.push_reserved((circuit, wanted));
    order.push_reserved(circuit);
    set_standing(channels, channel, Standing::On(circuit, Phase::Connecting));
    let how = How::Wanted;
    Ok(Some(Found {
        channel,
        circuit,
        how,
    }))
}

// The channel is created on this circuit, by this message. Without memory nothing happens.
fn create_on(
    channels: &mut Channels,
    circuits: &mut HeldTable<ClientCircuit>,
    circuit: Handle,
    channel: Handle,
    message: &Message,
) -> Result<Option<Found>, AllocError>
    ensures { CreatesIn
        channels.old
        circuits.old
        circuit
        channel
        message.now
        result
        channels.new
        circuits.new }
{
    let waiting = waiting_on(circuits, circuit);
    queue_on(circuits, circuit, message)?;
    set_standing(channels, channel, Standing::On(circuit, Phase::Creating(0)));
    let how = How::Created(waiting);
    Ok(Some(Found {
        channel,
        circuit,
        how,
    }))
}

// Where the server of a search reply is: at the address in it, or where the reply came from.
pub(crate) fn found_at(from: Address, reply: &Header) -> Address
    ensures { result ≡ found_at from (message_of reply.now []) }
{
    let host = if reply.p1 == NO_ADDRESS {
        from.host
    } else {
        reply.p1
    };
    Address {
        host,
        port: reply.data_type,
    }
}

// The circuit to this address, under this priority, and whether it is connected, once those that
// are to be opened are.
pub(crate) fn circuit_to(
    circuits: &HeldTable<ClientCircuit>,
    opening: &[(Handle, ClientCircuit)],
    address: Address,
    priority: u16,
) -> Option<(Handle, bool)>
    requires { AreOpening opening.now circuits.now }
    ensures { result ≡ circuit_in address priority (with_all_held opening.now circuits.now) }
{
    let mut found = circuit_in_table(circuits, address, priority);
    for place in 0..opening.len() {
        found = first_to(address, priority, found, &opening[place]);
    }
    found
}

// Of the circuit that was found and one that is to be opened, the first by index that goes there.
fn first_to(
    address: Address,
    priority: u16,
    found: Option<(Handle, bool)>,
    opening: &(Handle, ClientCircuit),
) -> Option<(Handle, bool)>
    ensures { result ≡ first_to address priority found opening.now }
{
    let (handle, circuit) = opening;
    if !(is_same(circuit.address, address) && circuit.priority == priority) {
        return found;
    }
    match found {
        Some((first, connected)) if first.index < handle.index => Some((first, connected)),
        _ => Some((*handle, circuit.connection.is_some())),
    }
}

// The circuit to this address, under this priority, in the table, and whether it is connected.
fn circuit_in_table(
    circuits: &HeldTable<ClientCircuit>,
    address: Address,
    priority: u16,
) -> Option<(Handle, bool)>
    ensures { result ≡ circuit_in address priority circuits.now }
{
    for index in 0..circuits.places() {
        if let Some(found) = circuit_at(circuits, address, priority, index) {
            return Some(found);
        }
    }
    None
}

// The circuit at this index, if it goes to this address under this priority.
fn circuit_at(
    circuits: &HeldTable<ClientCircuit>,
    address: Address,
    priority: u16,
    index: usize,
) -> Option<(Handle, bool)>
    requires { index < length circuits.now }
    ensures { result ≡ goes_to address priority (held_at index (place_at circuits.now index)) }
{
    let Some((handle, circuit)) = circuits.at(index) else {
        return None;
    };
    if is_same(circuit.address, address) && circuit.priority == priority {
        return Some((handle, circuit.connection.is_some()));
    }
    None
}

impl Channel {
    // Whether it is searched for.
    pub(crate) fn is_searched(&self) -> bool
        ensures { result ≡ is_searched self.now.standing }
    {
        match self.standing() {
            Standing::Searching => true,
            Standing::On(_, _) => false,
        }
    }
}
