//! What open ends leave whose side begins again: a copy of the bytes that wait there.
ghost use Rattle.std.specs.Prelude.{◌≡◌, IfOk, map};
ghost use Rattle.ca_world_data.specs.Closing.{client_left, server_left};
ghost use Rattle.ca_world_data.specs.Seen.{joined_of};

use crate::joined::Joined;
use ca_client_core::ClientCore;
use ca_server_core::ServerCore;
use ca_wire::Pipe;
use std::alloc::{AllocError, Global};

/// What each circuit's end at this client leaves: nothing if it is not open.
pub fn client_lefts(
    alloc: Global,
    client: usize,
    core: &ClientCore,
    circuits: &[Joined],
) -> Result<Vec<Pipe>, AllocError>
    ensures { IfOk result (λ all. all.items
        ≡ map (λ j. client_left client core.now (joined_of j)) circuits.now) }
{
    let mut all = Vec::new(alloc);
    for joined in circuits {
        all.push(client_left(alloc, client, core, joined)?)?;
    }
    Ok(all)
}

// What this circuit's end at the client leaves.
fn client_left(
    alloc: Global,
    client: usize,
    core: &ClientCore,
    joined: &Joined,
) -> Result<Pipe, AllocError>
    ensures { IfOk result (λ left. left ≡ client_left client core.now (joined_of joined.now)) }
{
    if joined.client == client && joined.lists.client_open {
        let bytes = Vec::from_slice(alloc, core.out_bytes(joined.at_client))?;
        return Ok(Pipe::of(bytes, 0));
    }
    Ok(Pipe::new(alloc))
}

/// What each circuit's end at this server leaves: nothing if it is not open.
pub fn server_lefts(
    alloc: Global,
    server: usize,
    core: &ServerCore,
    circuits: &[Joined],
) -> Result<Vec<Pipe>, AllocError>
    ensures { IfOk result (λ all. all.items
        ≡ map (λ j. server_left server core.now (joined_of j)) circuits.now) }
{
    let mut all = Vec::new(alloc);
    for joined in circuits {
        all.push(server_left(alloc, server, core, joined)?)?;
    }
    Ok(all)
}

// What this circuit's end at the server leaves.
fn server_left(
    alloc: Global,
    server: usize,
    core: &ServerCore,
    joined: &Joined,
) -> Result<Pipe, AllocError>
    ensures { IfOk result (λ left. left ≡ server_left server core.now (joined_of joined.now)) }
{
    if joined.server == server && joined.lists.server_open {
        let bytes = Vec::from_slice(alloc, core.out_bytes(joined.at_server))?;
        return Ok(Pipe::of(bytes, 0));
    }
    Ok(Pipe::new(alloc))
}
