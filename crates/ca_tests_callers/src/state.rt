//! What lies under a client's lock, with a socket in memory. Requests that the core refuses use up
//! no cells of the board, and neither do requests that complete; a full board refuses a request
//! before the core does; a socket that fails at any of its calls completes each open request with
//! Disconnected, once; and so does a circuit that falls silent, whose channel is told as lost.

mod circuit;
mod faults;
pub(crate) mod growths;
mod requests;
mod silence;
mod tape;

use crate::state::circuit::{live, memory, turn};
use crate::state::faults::{lost, lost_at};
use crate::state::requests::{MadeRequests, accepted, answered, make_requests, refused_as};
use crate::state::silence::silenced;
use crate::tell;
use ca_board::Ticket;
use ca_client::{Caller, ClientState};
use ca_client_core::Address;
use ca_text::Refusal;
use std::alloc::Global;
use std::io::Write;

pub(crate) fn show<W: Write>(alloc: Global, out: &mut W) -> Result<(), Refusal> {
    let mut state = new_state(alloc)?;
    show_all(alloc, &mut state, out)
}

fn new_state(alloc: Global) -> Result<ClientState, Refusal> {
    let user = Vec::from_slice(alloc, b"ca")?;
    let host = Vec::from_slice(alloc, b"localhost")?;
    let servers: Vec<Address> = Vec::new(alloc);
    ClientState::new(alloc, user, host, servers, &[], 0)
}

fn show_all<W: Write>(alloc: Global, state: &mut ClientState, out: &mut W) -> Result<(), Refusal> {
    let channel = state.open(b"TEMP", 0, 0)?;
    let requests = make_requests(alloc, channel)?;
    let mut caller = state.caller()?;
    show_cells(alloc, state, &mut caller, &requests, out)?;
    show_faults(alloc, state, &mut caller, &requests, out)?;
    let (ended, channels) = silenced(alloc, state, &mut caller, &requests, channel)?;
    say(out, "lost to a silence", ended)?;
    say(out, "channels told as lost", channels)
}

/// More requests than the board has cells complete, and more are refused by the core; then all
/// cells can be in use, and the board refuses.
fn show_cells<W: Write>(
    alloc: Global,
    state: &mut ClientState,
    caller: &mut Caller,
    requests: &MadeRequests,
    out: &mut W,
) -> Result<(), Refusal> {
    let mut tape = memory(alloc)?;
    let circuit = live(state, &mut tape)?;
    let done = answered(state, caller, &requests.put, circuit, &mut tape)?;
    say(out, "answered", done)?;
    say(out, "refused as 10", refused_as(state, &requests.stale, 10))?;
    let tickets = all_cells(alloc, state, requests, out)?;
    tape.calls_left = 0;
    turn(state, circuit, &mut tape);
    say(out, "lost", lost(caller, &tickets))
}

/// As many requests as there are cells.
fn all_cells<W: Write>(
    alloc: Global,
    state: &mut ClientState,
    requests: &MadeRequests,
    out: &mut W,
) -> Result<Vec<Ticket>, Refusal> {
    let tickets = accepted(alloc, state, &requests.read)?;
    say(out, "outstanding", tickets.len())?;
    say(out, "refused as 24", refused_as(state, &requests.stale, 24))?;
    Ok(tickets)
}

/// The socket fails at its first call, then on another circuit at its second, and so on: where a
/// turn writes and finds nothing to read, and where it makes as many calls as a turn can, which are
/// one write and eight reads.
fn show_faults<W: Write>(
    alloc: Global,
    state: &mut ClientState,
    caller: &mut Caller,
    requests: &MadeRequests,
    out: &mut W,
) -> Result<(), Refusal> {
    for (versions, most) in [(0, 8u64), (8 * 256, 10)] {
        for calls in 0..most {
            let lost = lost_at(alloc, state, caller, requests, versions, calls)?;
            say(out, "lost", lost)?;
        }
    }
    Ok(())
}

fn say<W: Write>(out: &mut W, what: &str, count: usize) -> Result<(), Refusal> {
    tell(out, what, count as u64)
}
