//! A circuit that a client wants is accepted by its server. All room is made first, since no core
//! takes such a call back.
ghost use Rattle.std.specs.Prelude.{◌≡◌, ◌<◌, ◌≤◌, ◌+◌, [], IfOk, OnOk, length, map};
ghost use Rattle.std.specs.Prelude.{option_and_then, replicate, slice_set};
ghost use Rattle.ca_client_core.specs.ForAccepts.{connecting_sent};
ghost use Rattle.ca_client_core.specs.ForHistories.{sending_of};
ghost use Rattle.ca_client_core.specs.Wanted.{wanted_in_place};
ghost use Rattle.ca_queue.specs.Queue.{no_queue};
ghost use Rattle.ca_text.specs.Limits.{circuit_queues};
ghost use Rattle.ca_model.specs.Client.{farewell};
ghost use Rattle.ca_model.specs.ClientCalls.{wanted};
ghost use Rattle.ca_model.specs.Ends.{same_address};
ghost use Rattle.ca_world_data.specs.Accepting.{
  AcceptsOn,
  ConnectsSide,
  Extends,
  HasRoomToAccept,
  MayRefuse,
  RefusedAs,
  StaysAs,
  begun_circuit,
  first_served,
  served,
  server_at,
};
ghost use Rattle.ca_world_data.specs.Logs.{HasRoom, lines_in};
ghost use Rattle.ca_world_data.specs.Seen.{
  client_of,
  joined_of,
  names_of,
  queue_of,
  sent_of,
  server_of,
};
ghost use Rattle.ca_world_data.specs.Speaking.{stamped};

use crate::client::{ClientSide, Names};
use crate::closing::close_client;
use crate::history::{Cause, Line, Sent};
use crate::joined::{CircuitHistory, Joined};
use crate::logs::reserve_lines;
use crate::room::reserve_list;
use crate::sending::intent_for;
use crate::server::ServerSide;
use crate::telling::tell_all;
use ca_arena::Handle;
use ca_client_core::for_accepts::sent_when_connected;
use ca_client_core::for_histories::Sending;
use ca_client_core::{Address, ClientCore, WantedCircuit};
use ca_queue::{ListQueue, Queues};
use ca_text::{ARENA_SLOTS, CIRCUIT_QUEUES, Refusal};
use ca_wire::Pipe;
use std::alloc::{AllocError, Global};

/// The first circuit that a client wants whose address has a server, with the
/// number of that server.
pub fn first_served(core: &ClientCore, servers: &[ServerSide]) -> Option<(WantedCircuit, usize)>
    ensures { result ≡ first_served servers.now (wanted core.now) }
{
    for place in 0..core.circuits_listed() {
        if let Some(found) = served_at(core, servers, place) {
            return Some(found);
        }
    }
    None
}

// The circuit at this place, if it is wanted and its address has a server.
fn served_at(
    core: &ClientCore,
    servers: &[ServerSide],
    place: usize,
) -> Option<(WantedCircuit, usize)>
    requires { place < length core.now.order }
    ensures { result ≡ option_and_then (served servers.now) (wanted_in_place core.now place) }
{
    let Some(wanted) = core.wanted_at(place) else {
        return None;
    };
    let server = server_at(servers, wanted.address);
    if server >= servers.len() {
        return None;
    }
    Some((wanted, server))
}

// The number of the first server at this address, or how many servers there are.
fn server_at(servers: &[ServerSide], address: Address) -> usize
    ensures { result ≡ server_at servers.now address }
{
    for place in 0..servers.len() {
        let setting = &servers[place].setting;
        if is_same(setting.address, address) {
            return place;
        }
    }
    servers.len()
}

fn is_same(a: Address, b: Address) -> bool
    ensures { result ≡ same_address a b }
{
    a.host == b.host && a.port == b.port
}

/// This server accepts the circuit that this client wants under this handle, which is connected
/// then. A server without room refuses it, and nothing changes.
pub fn accept_on(
    alloc: Global,
    client: usize,
    side: &mut ClientSide,
    server: usize,
    there: &mut ServerSide,
    circuits: &mut Vec<Joined>,
    logs: &mut Vec<Vec<Line>>,
    circuit: Handle,
) -> Result<(), Refusal>
    requires few { length (farewell circuit side.old.core)
        ≤ length side.old.names.requests.items + length side.old.names.channels.items }
    ensures { AcceptsOn client server circuit
        side.old
        there.old
        circuits.old.items
        logs.old.items
        result
        side.new
        there.new
        circuits.new.items
        logs.new.items }
{
    let up = first_messages(alloc, side, circuit)?;
    let queues = new_queues(alloc)?;
    make_room(side, there, circuits, logs, circuit)?;
    match there.core.accept() {
        Ok(at_server) => {
            let number = circuits.len();
            let mut joined = begin_circuit(
                alloc, client, side.life, circuit, server, there.life, at_server, queues,
            );
            connect_side(side, logs, &mut joined, up);
            set_number(&mut side.circuits, usize::from(circuit.index), number);
            set_number(&mut there.circuits, usize::from(at_server.index), number);
            circuits.push_reserved(joined);
            Ok(())
        }
        Err(refusal) => refuse(refusal),
    }
}

// A server without room is no refusal of the event; one without memory is.
fn refuse(refusal: Refusal) -> Result<(), Refusal>
    requires { MayRefuse refusal }
    ensures { RefusedAs refusal result }
{
    match refusal {
        Refusal::ArenaFull => Ok(()),
        _ => Err(Refusal::OutOfMemory),
    }
}

// What goes up the circuit of this handle first, once it is connected.
fn first_messages(
    alloc: Global,
    side: &ClientSide,
    circuit: Handle,
) -> Result<Vec<Sent>, AllocError>
    ensures { IfOk result (λ up. map sent_of up.items
        ≡ map (stamped (names_of side.now.names)) (connecting_sent side.now.core circuit)) }
{
    let sendings = sent_when_connected(&side.core, circuit)?;
    stamp_all(alloc, &side.names, sendings)
}

// These messages as their circuit has them.
fn stamp_all(alloc: Global, names: &Names, sendings: Vec<Sending>) -> Result<Vec<Sent>, AllocError>
    ensures { IfOk result (λ up. map sent_of up.items
        ≡ map (stamped (names_of names.now)) (map sending_of sendings.items)) }
{
    let mut up = Vec::new(alloc);
    reserve_list(&mut up, sendings.len())?;
    for sending in sendings {
        up.push(stamp(names, sending))?;
    }
    Ok(up)
}

// A message as its circuit has it.
fn stamp(names: &Names, sending: Sending) -> Sent
    ensures { sent_of result ≡ stamped (names_of names.now) (sending_of sending) }
{
    Sent {
        message: sending.message,
        intent: intent_for(names, sending.aim),
    }
}

// The queues of a circuit, in which nothing waits.
fn new_queues(alloc: Global) -> Result<Vec<ListQueue<(usize, Cause)>>, AllocError>
    ensures { IfOk result (λ queues. map (λ q. queue_of q.0) queues.items
        ≡ replicate circuit_queues no_queue) }
{
    let mut queues = Vec::with_capacity(alloc, CIRCUIT_QUEUES)?;
    for _ in 0..CIRCUIT_QUEUES {
        queues.push_reserved(ListQueue::new(alloc));
    }
    Ok(queues)
}

// Makes room for what accepting a circuit leaves.
fn make_room(
    side: &mut ClientSide,
    there: &mut ServerSide,
    circuits: &mut Vec<Joined>,
    logs: &mut Vec<Vec<Line>>,
    circuit: Handle,
) -> Result<(), AllocError>
    requires few { length (farewell circuit side.old.core)
        ≤ length side.old.names.requests.items + length side.old.names.channels.items }
    ensures stays { StaysAs
        side.old
        there.old
        circuits.old.items
        logs.old.items
        side.new
        there.new
        circuits.new.items
        logs.new.items }
    ensures room { OnOk result (HasRoomToAccept
        circuit
        side.new
        there.new
        circuits.new
        logs.new.items) }
{
    let few = side.names.requests.len() + side.names.channels.len();
    reserve_lines(logs, side.life, few)?;
    widen(&mut side.circuits, usize::from(circuit.index) + 1)?;
    widen(&mut there.circuits, ARENA_SLOTS)?;
    circuits.reserve(1)
}

// Makes it n numbers at least.
fn widen(numbers: &mut Vec<usize>, places: usize) -> Result<(), AllocError>
    ensures kept { Extends numbers.old.items numbers.new.items }
    ensures wide { OnOk result (places ≤ length numbers.new.items) }
{
    while numbers.len() < places {
        numbers.push(0)?;
    }
    Ok(())
}

// By this index there is this number from now on.
fn set_number(numbers: &mut Vec<usize>, index: usize, number: usize)
    requires { index < length numbers.old.items }
    ensures { numbers.new.items ≡ slice_set numbers.old.items index number }
{
    numbers[index] = number;
}

// A circuit on which nothing was sent, of these lives of a client and of a server.
fn begin_circuit(
    alloc: Global,
    client: usize,
    client_life: usize,
    at_client: Handle,
    server: usize,
    server_life: usize,
    at_server: Handle,
    queues: Vec<ListQueue<(usize, Cause)>>,
) -> Joined
    requires { map (λ q. queue_of q.0) queues.items ≡ replicate circuit_queues no_queue }
    ensures { joined_of result
        ≡ begun_circuit client client_life at_client server server_life at_server }
{
    Joined {
        client,
        server,
        at_client,
        at_server,
        lists: CircuitHistory {
            client_open: true,
            server_open: true,
            up: Vec::new(alloc),
            down: Vec::new(alloc),
            handled: Vec::new(alloc),
            heard: Vec::new(alloc),
            client: client_life,
            server: server_life,
        },
        left_up: Pipe::new(alloc),
        left_down: Pipe::new(alloc),
        creations: Vec::new(alloc),
        standing: Vec::new(alloc),
        queues,
    }
}

// The client connects a circuit on which nothing was sent: what it sends first goes up, or its end
// has ended at once, which is told.
fn connect_side(
    side: &mut ClientSide,
    logs: &mut Vec<Vec<Line>>,
    joined: &mut Joined,
    up: Vec<Sent>,
)
    requires room { HasRoom
        (length (farewell joined.old.at_client side.old.core))
        side.old.life
        logs.old.items }
    requires first { map sent_of up.items
        ≡ map
        (stamped (names_of side.old.names))
        (connecting_sent side.old.core joined.old.at_client) }
    requires new { (joined_of joined.old).lists.up ≡ [] }
    ensures connects { ConnectsSide
        (client_of side.old)
        (lines_in logs.old.items)
        (joined_of joined.old)
        (client_of side.new)
        (lines_in logs.new.items)
        (joined_of joined.new) }
    ensures kept { side.new.circuits.items ≡ side.old.circuits.items }
{
    match side.core.connected(joined.at_client) {
        None => {
            joined.lists.up = up;
        }
        Some(closing) => {
            tell_all(logs, side.life, &side.names, closing.notices);
            close_client(joined, closing.left);
        }
    }
}
