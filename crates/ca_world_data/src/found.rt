//! Circuits by the handles under which a client's core knows them.
ghost use Rattle.std.specs.Prelude.{MatchOption, map};
ghost use Rattle.ca_world_data.specs.Found.{AreNumbered, IsAt, IsNowhere};
ghost use Rattle.ca_world_data.specs.Seen.{joined_of};

use crate::joined::Joined;
use ca_arena::Handle;

/// The number of the circuit that is open at this client under this handle, by
/// the client's numbers.
pub fn circuit_of(
    numbers: &[usize],
    circuits: &[Joined],
    client: usize,
    handle: Handle,
) -> Option<usize>
    requires { AreNumbered numbers.now (map joined_of circuits.now) client }
    ensures { MatchOption result (IsNowhere (map joined_of circuits.now) client handle)
        (IsAt (map joined_of circuits.now) client handle) }
{
    let place = handle.index as usize;
    if place >= numbers.len() {
        return None;
    }
    let number = numbers[place];
    if number >= circuits.len() {
        return None;
    }
    let joined = &circuits[number];
    if joined.client != client {
        return None;
    }
    if !joined.lists.client_open {
        return None;
    }
    if joined.at_client.index != handle.index {
        return None;
    }
    if joined.at_client.generation != handle.generation {
        return None;
    }
    Some(number)
}
