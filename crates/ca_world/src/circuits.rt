//! How many circuits a world has, how many bytes wait on one each way, and which of its ends are
//! open. `ca_replay` draws events by the first two.
ghost use Rattle.std.specs.Prelude.{◌≡◌, ◌↔◌, IsTrue, length};
ghost use Rattle.ca_model.specs.ClientEvents.{waiting_down, waiting_up};
ghost use Rattle.ca_world.specs.Waiting.{AreWaiting, Receives, joined_alone};
ghost use Rattle.ca_world_data.specs.Seen.{client_of, joined_of, server_of};

use crate::stopped::Stopped;
use crate::world::World;
use ca_world_data::client::ClientSide;
use ca_world_data::ends::ends_at;
use ca_world_data::joined::Joined;
use ca_world_data::server::ServerSide;

/// Which way bytes go on a circuit.
#[derive(Clone, Copy, Debug, PartialEq, Eq)]
pub enum Way {
    /// From the client to the server.
    Up,
    /// From the server to the client.
    Down,
}

impl World {
    /// How many circuits there are, with those whose ends have ended.
    pub fn circuits(&self) -> u64
        ensures { result ≡ length self.now.circuits }
    {
        self.circuits.len() as u64
    }

    /// How many bytes of a circuit wait to go this way, at their end or of what it left: 0 if
    /// there is no such circuit.
    pub fn waiting(&self, circuit: u64, way: Way) -> u64
        ensures { AreWaiting self.now circuit way result }
    {
        count(&self.clients, &self.servers, &self.circuits, circuit, way)
    }
}

impl Stopped {
    /// How many bytes of a circuit wait to go this way, at their end or of what it left: 0 if
    /// there is no such circuit.
    pub fn waiting(&self, circuit: u64, way: Way) -> u64
        ensures { AreWaiting self.now circuit way result }
    {
        count(&self.clients, &self.servers, &self.circuits, circuit, way)
    }

    /// Whether the end of a circuit that bytes reach this way is there, and open.
    pub fn receives(&self, circuit: u64, way: Way) -> bool
        ensures { IsTrue result ↔ Receives self.now circuit way }
    {
        let place = circuit as usize;
        let Some(ends) = ends_at(&self.clients, &self.servers, &self.circuits, place) else {
            return false;
        };
        match way {
            Way::Up => ends.server_open,
            Way::Down => ends.client_open,
        }
    }
}

// How many bytes of a circuit of these wait to go this way.
fn count(
    clients: &Vec<ClientSide>,
    servers: &Vec<ServerSide>,
    circuits: &Vec<Joined>,
    circuit: u64,
    way: Way,
) -> u64
    ensures { AreWaiting
        (joined_alone clients.now.items servers.now.items circuits.now.items)
        circuit
        way
        result }
{
    let place = circuit as usize;
    let Some(ends) = ends_at(clients, servers, circuits, place) else {
        return 0;
    };
    let joined = &circuits[place];
    match way {
        Way::Up => count_up(&clients[ends.client], joined) as u64,
        Way::Down => count_down(&servers[ends.server], joined) as u64,
    }
}

/// How many bytes wait for the server of a circuit.
pub(crate) fn count_up(side: &ClientSide, joined: &Joined) -> usize
    ensures { result ≡ length (waiting_up (client_of side.now) (joined_of joined.now)) }
{
    if joined.lists.client_open {
        return side.core.out_bytes(joined.at_client).len();
    }
    joined.left_up.bytes().len()
}

/// How many bytes wait for the client of a circuit.
pub(crate) fn count_down(side: &ServerSide, joined: &Joined) -> usize
    ensures { result ≡ length (waiting_down (server_of side.now) (joined_of joined.now)) }
{
    if joined.lists.server_open {
        return side.core.out_bytes(joined.at_server).len();
    }
    joined.left_down.bytes().len()
}
