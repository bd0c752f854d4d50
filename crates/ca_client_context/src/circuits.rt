//! The circuits that are connected, with their sockets. Under the lock they are connected, their
//! bytes are moved, and what came is handed to the core.
ghost use Rattle.std.specs.Prelude.{◌<◌};
ghost use Rattle.std.specs.Vec.{vec_capacity, vec_len};

use crate::addresses::to_system;
use crate::circuit_stream::CircuitStream;
use ca_arena::Handle;
use ca_client::{Answer, ClientState, CoreCall, Socket, step_all, step_under_lock, turn_over};
use ca_client_core::{Notice, Notices, WantedCircuit};
use mio::net::TcpStream;
use mio::{Interest, Registry, Token};
use std::alloc::{AllocError, Global};
use std::net::Net;

// At most this many messages of a circuit are read in a turn.
const STEPS: usize = 512;

// A socket with this many faults is dropped: `turn_over` asks for fewer.
const MOST_FAULTS: u64 = 1 << 63;

// A circuit that could not be connected is tried again after this many milliseconds.
const REST: u64 = 1_000;

// The events of circuits. Which circuit has one is not asked: each is turned over in each turn.
const CIRCUITS: Token = Token(2);

// A circuit that is connected, and its socket.
#[derive(Drop)]
pub(crate) struct ConnectedCircuit {
    pub(crate) circuit: Handle,
    socket: CircuitStream,
}

// When each circuit was last tried, at the index of its handle: that of a name server is wanted
// again under the same handle.
#[derive(Drop)]
pub(crate) struct Tries {
    last: Vec<Option<(Handle, u64)>>,
}

impl Tries {
    pub(crate) fn new(alloc: Global) -> Tries {
        Tries {
            last: Vec::new(alloc),
        }
    }

    // Whether the circuit may be tried now.
    fn is_due(&self, circuit: Handle, now: u64) -> bool {
        match self.last.get(usize::from(circuit.index)) {
            Some(Some((tried, moment))) => {
                *tried != circuit || now.saturating_sub(*moment) >= REST
            }
            _ => true,
        }
    }

    fn note(&mut self, circuit: Handle, now: u64) -> Result<(), AllocError> {
        let place = usize::from(circuit.index);
        for _ in self.last.len()..place + 1 {
            self.last.push(None)?;
        }
        if let Some(last) = self.last.get_mut(place) {
            *last = Some((circuit, now));
        }
        Ok(())
    }
}

// Connects the circuits that are wanted. One that cannot be is cut, and if it is gone then the next
// one waits for the next turn.
pub(crate) fn connect<R: Net>(
    rt: &R,
    state: &mut ClientState,
    registry: &Registry,
    circuits: &mut Vec<ConnectedCircuit>,
    tries: &mut Tries,
    now: u64,
) {
    for place in 0..state.core().circuits_listed() {
        let Some(wanted) = state.core().wanted_at(place) else {
            continue;
        };
        let circuit = wanted.circuit;
        if !tries.is_due(circuit, now) {
            continue;
        }
        if circuits.reserve(1).is_err() || tries.note(circuit, now).is_err() {
            return;
        }
        match reach(rt, registry, wanted) {
            Some(connected) => {
                if let Answer::Connected = step_under_lock(state, CoreCall::Connect(circuit)) {
                    circuits.push_reserved(connected);
                }
            }
            None => {
                step_under_lock(state, CoreCall::Cut(circuit));
            }
        }
    }
}

fn reach<R: Net>(rt: &R, registry: &Registry, wanted: WantedCircuit) -> Option<ConnectedCircuit> {
    let Ok(mut stream) = TcpStream::connect(rt, to_system(wanted.address)) else {
        return None;
    };
    // Requests are small, and each is to go at once.
    let Ok(()) = stream.set_nodelay(true) else {
        return None;
    };
    let both = Interest::READABLE | Interest::WRITABLE;
    let Ok(()) = registry.register(&mut stream, CIRCUITS, both) else {
        return None;
    };
    Some(ConnectedCircuit {
        circuit: wanted.circuit,
        socket: CircuitStream::new(stream),
    })
}

// Notices that listeners are to be told: one at least.
#[derive(Drop)]
pub(crate) struct ListenerNotices {
    pub(crate) first: Notice,
    pub(crate) rest: Notices,
}

// Keeps the notices for the listeners. There are none if a message completed requests alone.
pub(crate) fn keep(told: &mut Vec<ListenerNotices>, notices: Notices)
    requires { vec_len told.old < vec_capacity told.old }
{
    let mut rest = notices;
    if let Some(first) = rest.next() {
        told.push_reserved(ListenerNotices { first, rest });
    }
}

// What a turn brought.
#[derive(Clone, Copy, Drop)]
pub(crate) struct Brought {
    // Messages came, or circuits ended: so there may be something to send at once.
    pub(crate) any: bool,
    // Messages, or bytes, are left for the next turn, or may be.
    pub(crate) more: bool,
    // Messages came that complete no request, or circuits ended: so there may be something to do
    // for the thread of input and output.
    pub(crate) news: bool,
}

impl Brought {
    pub(crate) fn nothing() -> Brought {
        Brought {
            any: false,
            more: false,
            news: false,
        }
    }

    fn of_end() -> Brought {
        Brought {
            any: true,
            more: false,
            news: true,
        }
    }

    pub(crate) fn and(self, other: Brought) -> Brought {
        Brought {
            any: self.any || other.any,
            more: self.more || other.more,
            news: self.news || other.news,
        }
    }
}

// Sends what waits on all circuits, as far as that can be now, and reads their messages, or none.
pub(crate) fn serve(
    state: &mut ClientState,
    circuits: &mut Vec<ConnectedCircuit>,
    told: &mut Vec<ListenerNotices>,
    reads: bool,
) -> Brought {
    let mut brought = Brought::nothing();
    // From the last to the first, so that one that ends can be taken out.
    for index in (0..circuits.len()).rev() {
        let Some(connected) = circuits.get_mut(index) else {
            continue;
        };
        match serve_one(state, connected, told, reads) {
            Some(one) => brought = brought.and(one),
            None => {
                forget_at(circuits, index);
                brought = brought.and(Brought::of_end());
            }
        }
    }
    brought
}

// Whether what waits to be sent on a circuit waits for room in its socket.
pub(crate) fn is_any_full(circuits: &[ConnectedCircuit]) -> bool {
    circuits.iter().any(|connected| connected.socket.full)
}

// What a turn brought on one circuit, unless it has ended.
fn serve_one(
    state: &mut ClientState,
    connected: &mut ConnectedCircuit,
    told: &mut Vec<ListenerNotices>,
    reads: bool,
) -> Option<Brought> {
    // Nothing is moved without room for what it tells.
    if told.reserve(1).is_err() {
        return Some(Brought::nothing());
    }
    if connected.socket.faults() >= MOST_FAULTS {
        if let Answer::Closed(closing) = step_under_lock(state, CoreCall::Cut(connected.circuit)) {
            keep(told, closing.notices);
        }
        return None;
    }
    connected.socket.drained = !reads;
    connected.socket.came = false;
    if let Some(closing) = turn_over(state, connected.circuit, &mut connected.socket) {
        keep(told, closing.notices);
        return None;
    }
    if !reads {
        return Some(Brought {
            any: false,
            more: connected.socket.behind,
            news: false,
        });
    }
    let brought = handle_all(state, connected.circuit, told)?;
    Some(brought.and(connected.left(brought)))
}

impl ConnectedCircuit {
    // What is left to be moved after a turn, and may be: after bytes that make no message there may
    // be the end of the stream, of which nothing tells again.
    fn left(&self, brought: Brought) -> Brought {
        let is_behind = !self.socket.drained || self.socket.behind;
        Brought {
            any: is_behind,
            more: is_behind || self.socket.came && !brought.any,
            news: false,
        }
    }
}

// Handles the messages that came on a circuit.
fn handle_all(
    state: &mut ClientState,
    circuit: Handle,
    told: &mut Vec<ListenerNotices>,
) -> Option<Brought> {
    let mut brought = Brought::nothing();
    let mut left = STEPS;
    for _ in 0..STEPS {
        if told.reserve(1).is_err() {
            return Some(brought);
        }
        let steps = step_all(state, circuit, left);
        brought.any = brought.any || steps.replies > 0;
        left = left.saturating_sub(steps.replies.saturating_add(1));
        match steps.answer {
            Answer::Notices(notices) => {
                keep(told, notices);
                brought.any = true;
                brought.news = true;
            }
            Answer::Filled => break,
            Answer::Closed(closing) => {
                keep(told, closing.notices);
                return None;
            }
            _ => return Some(brought),
        }
    }
    Some(Brought {
        any: true,
        more: true,
        news: brought.news,
    })
}

fn forget_at(circuits: &mut Vec<ConnectedCircuit>, index: usize) {
    if index < circuits.len() {
        circuits.swap_remove(index);
    }
}

// The circuit has ended.
pub(crate) fn forget(circuits: &mut Vec<ConnectedCircuit>, circuit: Handle) {
    for index in 0..circuits.len() {
        if index < circuits.len() && circuits[index].circuit == circuit {
            forget_at(circuits, index);
        }
    }
}

// Ends all circuits.
pub(crate) fn close_all(state: &mut ClientState, circuits: &mut Vec<ConnectedCircuit>) {
    for index in 0..circuits.len() {
        step_under_lock(state, CoreCall::Close(circuits[index].circuit));
    }
    circuits.clear();
}
