//! Bytes go down a circuit, from the server or from what its end left. The client handles none of
//! them yet, but may send EVENTS_OFF or EVENTS_ON, by whether more wait.
ghost use Rattle.std.specs.Prelude.{◌≡◌, ◌++◌, ◌+◌, ◌≤◌, OnErr, OnOk, is_some, length, map, true};
ghost use Rattle.std.specs.Prelude.{vec_capacity, vec_len};
ghost use Rattle.ca_model.specs.Events as event;
ghost use Rattle.ca_world_data.specs.Does.{Does};
ghost use Rattle.ca_world_data.specs.Downs.{HandsDown, LeavesDown, TakesDown, flow_said};
ghost use Rattle.ca_world_data.specs.Seen.{sent_of};

use crate::world::World;
use ca_arena::Handle;
use ca_client_core::for_histories::flow_of;
use ca_text::{Command, Refusal};
use ca_wire::header_only;
use ca_world_data::client::ClientSide;
use ca_world_data::ends::ends_at;
use ca_world_data::history::{Intent, Sent};
use ca_world_data::joined::Joined;
use ca_world_data::server::ServerSide;
use std::alloc::{AllocError, Global};

impl World {
    /// The first n bytes that wait at a server, or that its end left, reach the client of a
    /// circuit: it may ask for a pause of updates, or for their return.
    pub fn down(&mut self, circuit: usize, n: usize) -> Result<(), Refusal>
        ensures { Does self.old (event.Down circuit n) result self.new }
    {
        let Some(ends) = ends_at(&self.clients, &self.servers, &self.circuits, circuit) else {
            return Err(Refusal::BadEvent);
        };
        if !ends.client_open {
            return Err(Refusal::BadEvent);
        }
        let side = &mut self.clients[ends.client];
        let joined = &mut self.circuits[circuit];
        if ends.server_open {
            let server = &mut self.servers[ends.server];
            return hand_down(self.alloc, side, server, joined, n);
        }
        leave_down(self.alloc, side, joined, n)
    }
}

// The first n bytes that wait at the server reach the client.
fn hand_down(
    alloc: Global,
    side: &mut ClientSide,
    server: &mut ServerSide,
    joined: &mut Joined,
    n: usize,
) -> Result<(), Refusal>
    ensures { HandsDown side.old server.old joined.old n result side.new server.new joined.new }
{
    let at_server = joined.at_server;
    let bytes = server.core.out_bytes(at_server);
    let waiting = bytes.len();
    if n > waiting {
        return Err(Refusal::BadEvent);
    }
    let at_client = joined.at_client;
    take_down(
        alloc,
        side,
        at_client,
        &mut joined.lists.up,
        &bytes[..n],
        n < waiting,
    )?;
    server.core.sent(at_server, n);
    Ok(())
}

// The first n bytes that the server left reach the client.
fn leave_down(
    alloc: Global,
    side: &mut ClientSide,
    joined: &mut Joined,
    n: usize,
) -> Result<(), Refusal>
    ensures { LeavesDown side.old joined.old n result side.new joined.new }
{
    let at_client = joined.at_client;
    let bytes = joined.left_down.bytes();
    let waiting = bytes.len();
    if n > waiting {
        return Err(Refusal::BadEvent);
    }
    take_down(
        alloc,
        side,
        at_client,
        &mut joined.lists.up,
        &bytes[..n],
        n < waiting,
    )?;
    joined.left_down.sent(n);
    Ok(())
}

// The client takes these bytes, and what that makes it send goes up.
fn take_down(
    alloc: Global,
    side: &mut ClientSide,
    at_client: Handle,
    up: &mut Vec<Sent>,
    bytes: &[u8],
    more: bool,
) -> Result<(), Refusal>
    ensures { TakesDown
        side.old
        at_client
        bytes.now
        more
        (map sent_of up.old.items)
        result
        side.new
        (map sent_of up.new.items) }
{
    let flow = flow_of(&side.core, at_client, more);
    reserve_flow(up, flow)?;
    match side.core.give(at_client, bytes, more) {
        Ok(()) => {
            push_flow(alloc, up, flow);
            Ok(())
        }
        Err(_) => Err(Refusal::OutOfMemory),
    }
}

// Makes room for this command after what the client sent, if there is one.
fn reserve_flow(up: &mut Vec<Sent>, flow: Option<Command>) -> Result<(), AllocError>
    ensures same { map sent_of up.new.items ≡ map sent_of up.old.items }
    ensures room { OnOk result (vec_len up.new + length (flow_said flow) ≤ vec_capacity up.new) }
    ensures some { OnErr result (is_some flow ≡ true) }
{
    match flow {
        Some(_) => up.reserve(1),
        None => Ok(()),
    }
}

// Puts this command after what the client sent, if there is one. There is room for it.
fn push_flow(alloc: Global, up: &mut Vec<Sent>, flow: Option<Command>)
    requires { vec_len up.old + length (flow_said flow) ≤ vec_capacity up.old }
    ensures { map sent_of up.new.items ≡ map sent_of up.old.items ++ flow_said flow }
{
    let Some(command) = flow else {
        return;
    };
    up.push_reserved(Sent {
        message: header_only(alloc, command),
        intent: Intent::OfCircuit,
    });
}
