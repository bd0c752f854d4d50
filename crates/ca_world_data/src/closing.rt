//! Ends that end with bytes left.
ghost use Rattle.std.specs.Prelude.{◌≡◌, map};
ghost use Rattle.ca_model.specs.ClientEvents.{client_closed};
ghost use Rattle.ca_model.specs.ServerEvents.{server_closed};
ghost use Rattle.ca_world_data.specs.Closing.{client_over, server_over, with_lefts};
ghost use Rattle.ca_world_data.specs.Seen.{joined_of};

use crate::joined::Joined;
use ca_wire::Pipe;
use std::alloc::Global;

/// Ends a circuit's open end at this client. It leaves these bytes.
fn end_client(client: usize, joined: &mut Joined, left: Pipe)
    ensures { joined_of joined.new ≡ client_over client left (joined_of joined.old) }
{
    if joined.client == client && joined.lists.client_open {
        close_client(joined, left);
    }
}

/// The end of a circuit at its client has ended, and left these bytes.
pub fn close_client(joined: &mut Joined, left: Pipe)
    ensures { joined_of joined.new ≡ client_closed left (joined_of joined.old) }
{
    joined.lists.client_open = false;
    joined.left_up = left;
}

/// Ends a circuit's open end at this server. It leaves these bytes.
fn end_server(alloc: Global, server: usize, joined: &mut Joined, left: Pipe)
    ensures { joined_of joined.new ≡ server_over server left (joined_of joined.old) }
{
    if joined.server == server && joined.lists.server_open {
        close_server(alloc, joined, left);
    }
}

/// The end of a circuit at its server has ended, and left these bytes: nothing waits there now.
pub fn close_server(alloc: Global, joined: &mut Joined, left: Pipe)
    ensures { joined_of joined.new ≡ server_closed left (joined_of joined.old) }
{
    joined.lists.server_open = false;
    joined.left_down = left;
    joined.creations = Vec::new(alloc);
    joined.standing = Vec::new(alloc);
    joined.queues = Vec::new(alloc);
}

/// Ends all open ends at this client, which leave these bytes, circuit by circuit.
pub fn end_clients(client: usize, circuits: &mut Vec<Joined>, lefts: Vec<Pipe>)
    ensures { map joined_of circuits.new.items
        ≡ with_lefts (client_over client) (map joined_of circuits.old.items) lefts.items }
{
    let mut place = 0;
    for left in lefts {
        if place < circuits.len() {
            end_client(client, &mut circuits[place], left);
            place += 1;
        }
    }
}

/// Ends all open ends at this server, which leave these bytes, circuit by circuit.
pub fn end_servers(alloc: Global, server: usize, circuits: &mut Vec<Joined>, lefts: Vec<Pipe>)
    ensures { map joined_of circuits.new.items
        ≡ with_lefts (server_over server) (map joined_of circuits.old.items) lefts.items }
{
    let mut place = 0;
    for left in lefts {
        if place < circuits.len() {
            end_server(alloc, server, &mut circuits[place], left);
            place += 1;
        }
    }
}
