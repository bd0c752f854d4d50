//! The thread of one circuit. Begin at its `run`: each turn (`turned`) handles messages under the
//! lock; the socket is written, read and waited for with the lock released.
ghost use Rattle.std.specs.Prelude.{◌≡◌, ◌<◌};

use crate::circuit_socket::{CircuitSocket, SocketRead, Written};
use crate::locked::{LockedServer, SharedServer};
use crate::parking::{park, token_of, unpark};
use crate::patience::Patience;
use crate::processing::Device;
use crate::ringing::{Rings, ring};
use crate::tally::Tally;
use crate::work::ThreadWork;
use ca_arena::Handle;
use ca_server_core::CoreStep;
use ca_wire::Pipe;
use indexmap::IndexSet;
use std::net::{Net, TcpListener, TcpStream};
use std::sync::atomic::{AtomicBool, Ordering};
use std::sync::ledger::{Ledger, Share};
use std::sync::{Arc, Wait};
use std::time::Clock;

// Messages that are handled while the lock is held, at most.
const STEPS: u32 = 256;

// A client that takes nothing of what its closed circuit left is waited for this often, and for
// fewer once the server is to end.
const WAITS: u32 = 300;

const WAITS_AT_END: u32 = 10;

/// What a circuit's thread hands back.
#[derive(Drop)]
pub(crate) struct Gathered<L: Ledger> {
    pub(crate) share: Share<L>,
    ghost one_part: { share.parts ≡ 1 },
}

/// A circuit's thread.
#[derive(Drop)]
pub(crate) struct CircuitThread<L: Ledger, D: Device> {
    shared: Arc<SharedServer<L, D>>,
    socket: CircuitSocket,
    circuit: Handle,
    number: u64,
    tally: Tally,
    // Whether the circuit is to be closed at once.
    is_to_end: Arc<AtomicBool>,
    share: Share<L>,
    ghost one_part: { share.parts ≡ 1 },
}

// What a turn left.
#[derive(Drop)]
enum Turn {
    // Messages wait, or bytes to be sent.
    Busy,
    // It waits for bytes.
    Idle,
    Closed(Pipe),
}

impl<L: Ledger, D: Device> CircuitThread<L, D> {
    pub(crate) fn new(
        shared: Arc<SharedServer<L, D>>,
        socket: CircuitSocket,
        circuit: Handle,
        number: u64,
        tally: Tally,
        is_to_end: Arc<AtomicBool>,
        share: Share<L>,
    ) -> CircuitThread<L, D>
        requires { share.parts ≡ 1 }
    {
        CircuitThread {
            shared,
            socket,
            circuit,
            number,
            tally,
            is_to_end,
            share,
        }
    }
}

impl<L: Ledger, D: Device> ThreadWork<Gathered<L>> for CircuitThread<L, D> {
    // Reads, steps and writes until the circuit is closed.
    fn run<R: Wait + Clock + Net<Stream = TcpStream, Listener = TcpListener>>(
        self,
        rt: &R,
    ) -> Gathered<L> {
        let CircuitThread {
            shared,
            mut socket,
            circuit,
            number,
            mut tally,
            is_to_end,
            mut share,
        } = self;
        let is_joined = socket.join(&shared.parking.registry, token_of(circuit));
        let mut moved = if is_joined && !is_to_end.load(Ordering::SeqCst) {
            SocketRead::Later
        } else {
            SocketRead::Ended
        };
        let mut rings = Rings::new(shared.alloc);
        let mut patience = Patience::new(shared.patience);
        let mut was_idle = false;
        tally.begin();
        for _ in rt.forever() {
            let turn = turned(
                rt,
                &shared,
                circuit,
                moved,
                was_idle,
                &mut socket,
                &mut share,
                &mut rings,
            );
            match turn {
                Turn::Closed(left) => {
                    tally.end(left.bytes());
                    rings.ring_all();
                    ring(&shared.accepting);
                    if !patience.is_over {
                        write_left(rt, &shared, &mut socket, left);
                    }
                    break;
                }
                turn => {
                    tally.count_all(socket.taken());
                    // After much is written: then only a few threads at a time write much, and a
                    // read on another circuit waits for these, not for all.
                    if !socket.has_much() {
                        rings.ring_all();
                    }
                    let before = socket.written;
                    let written = socket.write();
                    let took = socket.written != before;
                    rings.ring_all();
                    let written = patience.after(rt, written, took);
                    let is_busy = took || matches!(moved, SocketRead::Count(_));
                    was_idle = matches!(turn, Turn::Idle);
                    moved = go_on(
                        rt,
                        &shared,
                        circuit,
                        is_busy,
                        &turn,
                        written,
                        &patience,
                        &mut socket,
                    );
                }
            }
        }
        if !socket.is_parked() {
            shared.parking.give_back(rt);
        }
        note_gone(rt, &shared, number);
        handed_back(share)
    }
}

fn handed_back<L: Ledger>(share: Share<L>) -> Gathered<L>
    requires { share.parts ≡ 1 }
{
    Gathered { share }
}

// The thread that accepts circuits is to join this one. Where there were no room for its number, it
// would be joined at the server's end.
fn note_gone<L: Ledger, D: Device, R: Wait>(rt: &R, shared: &SharedServer<L, D>, number: u64) {
    let _full = shared.locked.lock(rt).gone.push(number);
    ring(&shared.accepting);
}

// A turn under the lock: takes in what was read, handles messages, and takes bytes out that are to
// be sent. A circuit that was idle has no message if nothing came to it: its thread was woken for
// what it is to send.
fn turned<L: Ledger, D: Device, R: Wait + Clock>(
    rt: &R,
    shared: &SharedServer<L, D>,
    circuit: Handle,
    moved: SocketRead,
    was_idle: bool,
    socket: &mut CircuitSocket,
    share: &mut Share<L>,
    rings: &mut Rings,
) -> Turn
    requires { 0 < share.old.parts }
    ensures { share.new.parts ≡ share.old.parts }
{
    let mut guard = shared.lock(rt);
    let locked = &mut *guard;
    take_in(locked, circuit, moved, socket.input.as_slice());
    let turn = match moved {
        SocketRead::Later if was_idle => Turn::Idle,
        _ => steps(rt, locked, &shared.slow, circuit, share),
    };
    let turn = take_out(locked, circuit, turn, socket);
    let is_given = !locked.busy.is_empty();
    locked.bells.share_out(rings);
    shared.note_writes(locked);
    drop(guard);
    if is_given {
        shared.given.notify_all();
    }
    turn
}

// After a turn and a write, with no lock held: reads if nothing else is to be done. A circuit to
// which bytes came, or whose socket took some, is parked no more; one whose socket has no room for
// a second is parked.
fn go_on<L: Ledger, D: Device, R: Wait + Clock + Net>(
    rt: &R,
    shared: &SharedServer<L, D>,
    circuit: Handle,
    is_busy: bool,
    turn: &Turn,
    written: Written,
    patience: &Patience,
    socket: &mut CircuitSocket,
) -> SocketRead {
    if is_busy && socket.is_parked() {
        unpark(rt, shared, circuit, socket);
    }
    match written {
        Written::Failed => SocketRead::Ended,
        Written::Some => {
            let registry = &shared.parking.registry;
            if socket.is_full(rt, registry, token_of(circuit), patience.left(rt)) {
                park(rt, shared, circuit, socket);
            }
            SocketRead::Later
        }
        Written::All => match turn {
            Turn::Idle => read(rt, shared, circuit, socket),
            _ => SocketRead::Later,
        },
    }
}

// Reads; if nothing is there, waits until something may be, and reads again. If nothing comes for a
// second the circuit is parked.
fn read<L: Ledger, D: Device, R: Wait + Clock>(
    rt: &R,
    shared: &SharedServer<L, D>,
    circuit: Handle,
    socket: &mut CircuitSocket,
) -> SocketRead {
    match socket.read() {
        SocketRead::Later => {
            if socket.is_idle(rt) {
                park(rt, shared, circuit, socket);
                return SocketRead::Later;
            }
            socket.read()
        }
        moved => moved,
    }
}

// Gives the server what was read. A circuit at its end is cut, and so is one whose bytes there is
// no memory for.
fn take_in<L: Ledger>(
    locked: &mut LockedServer<L>,
    circuit: Handle,
    moved: SocketRead,
    buffer: &[u8],
) {
    if locked.ending {
        locked.state.cut(circuit);
        return;
    }
    match moved {
        SocketRead::Later => {}
        SocketRead::Ended => locked.state.cut(circuit),
        SocketRead::Count(count) => {
            if count > buffer.len() {
                return;
            }
            if locked.state.give(circuit, &buffer[..count]).is_err() {
                locked.state.cut(circuit);
            }
        }
    }
}

// Handles messages of a circuit, up to a number of them. The clock
// is read once: that takes as long as a third of a put. A write after another is a nanosecond
// later.
fn steps<L: Ledger, R: Clock>(
    rt: &R,
    locked: &mut LockedServer<L>,
    slow: &IndexSet<Vec<u8>>,
    circuit: Handle,
    share: &mut Share<L>,
) -> Turn
    requires { 0 < share.old.parts }
    ensures { share.new.parts ≡ share.old.parts }
{
    locked.stamp(rt);
    // The channel of the last write.
    let mut reached = None;
    for _ in 0..STEPS {
        match locked.step(slow, circuit, share, &mut reached) {
            CoreStep::Handled(_) => {}
            CoreStep::NeedBytes => return Turn::Idle,
            CoreStep::OutputFull => return Turn::Busy,
            CoreStep::Closed(_, left) => return Turn::Closed(left),
        }
    }
    Turn::Busy
}

// Pumps the circuit, and hands what waits over to the socket. A circuit is idle if nothing more
// waits then: neither bytes nor updates, which a pump leaves in the queues once 262,144 bytes wait.
// One that is closed is counted, and has no bell any more.
fn take_out<L: Ledger>(
    locked: &mut LockedServer<L>,
    circuit: Handle,
    turn: Turn,
    socket: &mut CircuitSocket,
) -> Turn {
    if let Turn::Closed(left) = turn {
        locked.bells.remove(circuit);
        locked.closed = locked.closed.saturating_add(1);
        return Turn::Closed(left);
    }
    let is_all = socket.take_out(&mut locked.state, circuit) && !socket.is_at_most();
    let is_idle = matches!(turn, Turn::Idle) && is_all && locked.state.core().is_open(circuit);
    locked.bells.rest(circuit, is_idle);
    match turn {
        Turn::Idle if !is_idle => Turn::Busy,
        turn => turn,
    }
}

// Writes what a closed circuit left. A client that takes nothing is waited for that often.
fn write_left<L: Ledger, D: Device, R: Wait + Clock>(
    rt: &R,
    shared: &SharedServer<L, D>,
    socket: &mut CircuitSocket,
    left: Pipe,
) {
    let mut left = left;
    let mut waits = 0u32;
    for _ in rt.forever() {
        socket.take_left(&mut left);
        let before = socket.written;
        match socket.write() {
            Written::Failed => return,
            Written::All if left.bytes().is_empty() => return,
            Written::All => {}
            Written::Some => {
                let is_ending = shared.locked.lock(rt).ending;
                if socket.written != before && !is_ending {
                    waits = 0;
                }
                let most = if is_ending { WAITS_AT_END } else { WAITS };
                if waits >= most {
                    return;
                }
                waits = waits.saturating_add(1);
                socket.pause(rt);
            }
        }
    }
}
