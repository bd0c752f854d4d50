//! Bytes go up a circuit, from the client or from what its end left. The server handles none of
//! them: that takes its own step.
ghost use Rattle.ca_model.specs.Events as event;
ghost use Rattle.ca_world_data.specs.Does.{Does};
ghost use Rattle.ca_world_data.specs.ServerCuts.{IsServing};
ghost use Rattle.ca_world_data.specs.Ups.{HandsUp, LeavesUp};

use crate::world::World;
use ca_arena::Handle;
use ca_text::Refusal;
use ca_world_data::client::ClientSide;
use ca_world_data::ends::ends_at;
use ca_world_data::joined::Joined;
use ca_world_data::server::ServerSide;

impl World {
    /// The first n bytes that wait at a client, or that its end left, reach the
    /// server of a circuit.
    pub fn up(&mut self, circuit: usize, n: usize) -> Result<(), Refusal>
        ensures { Does self.old (event.Up circuit n) result self.new }
    {
        let Some(ends) = ends_at(&self.clients, &self.servers, &self.circuits, circuit) else {
            return Err(Refusal::BadEvent);
        };
        if !ends.server_open {
            return Err(Refusal::BadEvent);
        }
        let server = &mut self.servers[ends.server];
        if ends.client_open {
            let side = &mut self.clients[ends.client];
            return hand_up(side, server, ends.at_client, ends.at_server, n);
        }
        leave_up(&mut self.circuits[circuit], server, ends.at_server, n)
    }
}

// The first n bytes that wait at the client reach the server.
fn hand_up(
    side: &mut ClientSide,
    server: &mut ServerSide,
    at_client: Handle,
    at_server: Handle,
    n: usize,
) -> Result<(), Refusal>
    requires { IsServing server.old.core at_server }
    ensures { HandsUp side.old server.old at_client at_server n result side.new server.new }
{
    let bytes = side.core.out_bytes(at_client);
    if n > bytes.len() {
        return Err(Refusal::BadEvent);
    }
    match server.core.give(at_server, &bytes[..n]) {
        Ok(()) => {
            side.core.sent(at_client, n);
            Ok(())
        }
        Err(_) => Err(Refusal::OutOfMemory),
    }
}

// The first n bytes that the client left reach the server.
fn leave_up(
    joined: &mut Joined,
    server: &mut ServerSide,
    at_server: Handle,
    n: usize,
) -> Result<(), Refusal>
    requires { IsServing server.old.core at_server }
    ensures { LeavesUp joined.old server.old at_server n result joined.new server.new }
{
    let bytes = joined.left_up.bytes();
    if n > bytes.len() {
        return Err(Refusal::BadEvent);
    }
    match server.core.give(at_server, &bytes[..n]) {
        Ok(()) => {
            joined.left_up.sent(n);
            Ok(())
        }
        Err(_) => Err(Refusal::OutOfMemory),
    }
}
