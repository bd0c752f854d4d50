//! A turn of a circuit: bytes move between it and its socket.
ghost use Rattle.std.specs.Prelude.{◌<◌, ◌^◌};
ghost use Rattle.ca_client.specs.Turning.{Tries};
ghost use Rattle.ca_client.specs.Turns.{Turns};

use crate::socket::{Moved, Socket};
use crate::state::ClientState;
use crate::stepping::cut;
use ca_arena::Handle;
use ca_client_core::Closing;
use ca_text::Refusal;

/// How often a socket is called in one turn.
const CALLS: usize = 16;

// What one call of a socket did.
#[derive(Drop)]
enum Turned {
    // There may be more to move.
    GoesOn,
    // What waited was written as far as it could be, and there is nothing to read yet.
    Idle,
    // The circuit was cut.
    Cut(Closing),
}

/// Moves bytes between a circuit and its socket, by at most 16 reads and writes. A fault of the
/// socket cuts the circuit, and so do bytes for which there is no memory: then it answers as a
/// step with `CoreCall::Cut`.
pub fn turn_over<S: Socket>(
    state: &mut ClientState,
    circuit: Handle,
    socket: &mut S,
) -> Option<Closing>
    requires { S.fault_count socket.old < 2 ^ 63 }
    ensures { Turns
        S.fault_count
        S.gives
        S.takes
        circuit
        16
        socket.old
        state.old
        result
        socket.new
        state.new }
{
    for call in 0..CALLS {
        match once(state, circuit, socket, call % 2 == 0) {
            Turned::GoesOn => {}
            Turned::Idle => return None,
            Turned::Cut(closing) => return Some(closing),
        }
    }
    None
}

// One read or one write.
fn once<S: Socket>(state: &mut ClientState, circuit: Handle, socket: &mut S, writes: bool) -> Turned
    requires { S.fault_count socket.old < 2 ^ 63 }
    ensures { Tries
        S.fault_count
        S.gives
        S.takes
        circuit
        socket.old
        state.old
        result
        socket.new
        state.new }
{
    if writes {
        write_once(state, circuit, socket)
    } else {
        read_once(state, circuit, socket)
    }
}

#[tactic(auto, using(crate::proofs::Given::refused_so))]
fn read_once<S: Socket>(state: &mut ClientState, circuit: Handle, socket: &mut S) -> Turned
    requires { S.fault_count socket.old < 2 ^ 63 }
    ensures { Tries
        S.fault_count
        S.gives
        S.takes
        circuit
        socket.old
        state.old
        result
        socket.new
        state.new }
{
    let mut buffer = [0u8; 4096];
    let count = match socket.read(&mut buffer[..]) {
        Moved::Count(count) => count,
        Moved::Later => return Turned::Idle,
        Moved::Fault => return Turned::Cut(cut(state, circuit)),
    };
    match state.give(circuit, &buffer[..count], count == 4096) {
        Ok(()) => Turned::GoesOn,
        Err(refusal) => match refusal {
            Refusal::CircuitClosed => Turned::Idle,
            _ => Turned::Cut(cut(state, circuit)),
        },
    }
}

fn write_once<S: Socket>(state: &mut ClientState, circuit: Handle, socket: &mut S) -> Turned
    requires { S.fault_count socket.old < 2 ^ 63 }
    ensures { Tries
        S.fault_count
        S.gives
        S.takes
        circuit
        socket.old
        state.old
        result
        socket.new
        state.new }
{
    let out = state.core().out_bytes(circuit);
    if out.is_empty() {
        return Turned::GoesOn;
    }
    match socket.write(out) {
        Moved::Count(count) => {
            state.sent(circuit, count);
            Turned::GoesOn
        }
        Moved::Later => Turned::GoesOn,
        Moved::Fault => Turned::Cut(cut(state, circuit)),
    }
}
