//! A circuit whose socket is in memory.
use crate::state::tape::Tape;
use ca_arena::Handle;
use ca_client::{ClientState, CoreCall, step_under_lock, turn_over};
use ca_client_core::Address;
use ca_text::Refusal;
use std::alloc::Global;

/// The server, which is only told of.
pub(crate) const SERVER: Address = Address {
    host: 0x7f00_0001,
    port: 5064,
};

/// VERSION, of which 256 are what one read takes.
pub(crate) const VERSION: [u8; 16] = [0, 0, 0, 0, 0, 0, 0, 13, 0, 0, 0, 0, 0, 0, 0, 0];

/// VERSION, and a reply to the search for CID 00010000 by a server at port 5064 of the
/// host that it comes from.
pub(crate) const FOUND: [u8; 40] = [
    0, 0, 0, 0, 0, 0, 0, 13, 0, 0, 0, 0, 0, 0, 0, 0, 0, 6, 0, 8, 0x13, 0xc8, 0, 0, 0xff, 0xff,
    0xff, 0xff, 0, 1, 0, 0, 0, 13, 0, 0, 0, 0, 0, 0,
];

/// VERSION, the rights to read and write, and SID 00010000 for that channel, of one LONG.
const CREATED: [u8; 48] = [
    0, 0, 0, 0, 0, 0, 0, 13, 0, 0, 0, 0, 0, 0, 0, 0, 0, 22, 0, 0, 0, 0, 0, 0, 0, 1, 0, 0, 0, 0, 0,
    3, 0, 18, 0, 0, 0, 5, 0, 1, 0, 1, 0, 0, 0, 1, 0, 0,
];

/// A socket that gives what the server says of the channel, and does not fail.
pub(crate) fn memory(alloc: Global) -> Result<Tape, Refusal> {
    Ok(Tape {
        incoming: Vec::from_slice(alloc, &CREATED[..])?,
        at: 0,
        outgoing: Vec::new(alloc),
        calls_left: 1_000_000,
        failed: 0,
    })
}

/// The channel is found, and its circuit connected over this socket.
pub(crate) fn live(state: &mut ClientState, tape: &mut Tape) -> Result<Handle, Refusal> {
    state.datagram(0, SERVER, &FOUND[..])?;
    let circuit = wanted(state)?;
    step_under_lock(state, CoreCall::Connect(circuit));
    turn(state, circuit, tape);
    for _ in 0..3 {
        step_under_lock(state, CoreCall::Step(circuit));
    }
    Ok(circuit)
}

/// The first circuit that is wanted.
fn wanted(state: &ClientState) -> Result<Handle, Refusal> {
    match state.core().wanted(0) {
        Some(first) => Ok(first.circuit),
        None => Err(Refusal::NotLive),
    }
}

/// Moves bytes between a circuit and its socket. Whether the circuit goes on.
pub(crate) fn turn(state: &mut ClientState, circuit: Handle, tape: &mut Tape) -> bool {
    if tape.failed > 0 {
        return false;
    }
    turn_over(state, circuit, tape).is_none()
}
