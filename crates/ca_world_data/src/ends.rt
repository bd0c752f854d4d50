//! Which client and server a circuit joins, their handles for it, and which of its ends are open.
//! Looked up by the circuit's number.
ghost use Rattle.std.specs.Prelude.{MatchOption, length};
ghost use Rattle.ca_world_data.specs.Ends.{AreEnds, NoEnds};

use crate::client::ClientSide;
use crate::joined::Joined;
use crate::server::ServerSide;
use ca_arena::Handle;

/// What a circuit joins, and which of its ends are open.
#[derive(Clone, Copy)]
pub struct Ends {
    pub client: usize,
    pub server: usize,
    pub at_client: Handle,
    pub at_server: Handle,
    pub client_open: bool,
    pub server_open: bool,
}

/// The ends of the circuit at this place, if its client and its server are among these.
pub fn ends_at(
    clients: &[ClientSide],
    servers: &[ServerSide],
    circuits: &[Joined],
    circuit: usize,
) -> Option<Ends>
    ensures { MatchOption result
        (NoEnds (length clients.now) (length servers.now) circuits.now circuit)
        (AreEnds (length clients.now) (length servers.now) circuits.now circuit) }
{
    if circuit >= circuits.len() {
        return None;
    }
    let joined = &circuits[circuit];
    if joined.client >= clients.len() {
        return None;
    }
    if joined.server >= servers.len() {
        return None;
    }
    Some(Ends {
        client: joined.client,
        server: joined.server,
        at_client: joined.at_client,
        at_server: joined.at_server,
        client_open: joined.lists.client_open,
        server_open: joined.lists.server_open,
    })
}
