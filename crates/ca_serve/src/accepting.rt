//! The thread that accepts connections, which is the one that called `serve`. Each connection gets
//! a thread, with a share in the count of applied writes, which comes back as the thread is joined.
//! Begin at `accept_all`.
ghost use Rattle.std.specs.Prelude.{◌≡◌, ◌<◌, ◌+◌, ◌-◌, ◌^◌};
ghost use Rattle.indexmap.specs.IndexMap.{index_map_len};

use crate::circuit::{CircuitThread, Gathered};
use crate::circuit_socket::CircuitSocket;
use crate::locked::SharedServer;
use crate::processing::Device;
use crate::tally::Tally;
use crate::work::started_or_ended;
use ca_arena::Handle;
use ca_text::Refusal;
use indexmap::IndexMap;
use mio::net::{TcpListener, TcpStream};
use mio::{Events, Poll, Token, Waker};
use std::alloc::Global;
use std::net::Net;
use std::sync::atomic::{AtomicBool, Ordering};
use std::sync::ledger::{Ledger, Share};
use std::sync::{Arc, Wait};
use std::thread::{JoinHandle, Parker, Threads};
use std::time::{Clock, Duration};
use std::{io, net, thread};

// Circuits at a time, at most.
const MOST_CIRCUITS: usize = 65_536;

/// What the readiness of the only socket of a poll is told under.
pub(crate) const SOCKET: Token = Token(0);

// What a wake is told under: no circuit has this index.
const WAKER: Token = Token(MOST_CIRCUITS);

// After a connection that could neither be taken nor closed nothing is taken for this many
// milliseconds.
const PAUSE: u64 = 10;

// What the system says if no descriptor is left: ENFILE and EMFILE.
const NO_DESCRIPTOR: [i32; 2] = [23, 24];

/// Where connections come in.
#[derive(Drop)]
pub(crate) struct Door {
    pub(crate) listener: TcpListener,
    pub(crate) poll: Poll,
    pub(crate) events: Events<Global>,
    /// A descriptor that is given up to take a connection for which there is none, and to close it.
    pub(crate) spare: Option<Poll>,
}

/// The circuits' threads, by the numbers of their circuits.
pub(crate) type Running<L> = IndexMap<u64, JoinHandle<Gathered<L>>>;

// What a circuit's thread needs beside its circuit and its share.
#[derive(Drop)]
struct Accepted<L: Ledger, D: Device> {
    shared: Arc<SharedServer<L, D>>,
    socket: CircuitSocket,
    tally: Tally,
    // Whether the circuit is to be closed at once.
    is_to_end: Arc<AtomicBool>,
    // That word, for the circuit's thread.
    ends: Arc<AtomicBool>,
}

/// Accepts connections until that many circuits were closed, without a number for ever, or the
/// server is to end. Each gets a thread and a share.
pub(crate) fn accept_all<
    L: Ledger + Send + Sync + 'static,
    D: Device + Send + Sync + 'static,
    R: Threads
        + Wait
        + Clock
        + Net<Stream = net::TcpStream, Listener = net::TcpListener>
        + Copy
        + Send
        + 'static,
>(
    rt: R,
    alloc: Global,
    shared: &Arc<SharedServer<L, D>>,
    door: &mut Door,
    circuits: Option<u64>,
    running: &mut Running<L>,
    all: &mut Share<L>,
)
    requires { all.old.parts + index_map_len running.old ≡ 2 ^ 64 - 1 }
    ensures { all.new.parts + index_map_len running.new ≡ 2 ^ 64 - 1 }
{
    let mut number = 0u64;
    for _ in rt.forever() {
        let (closed, gone, is_ending) = looked(&rt, shared);
        if is_ending || circuits.is_some_and(|circuits| closed >= circuits) {
            break;
        }
        if let Some(gone) = gone {
            reap(&rt, running, gone, all);
        }
        match door.listener.accept() {
            Ok((stream, _)) => {
                accept_one(rt, alloc, shared, stream, number, running, all);
                number = number.wrapping_add(1);
            }
            Err(error) => {
                if gone.is_none() {
                    door.wait(&rt, shared, &error);
                }
            }
        }
    }
}

impl Door {
    // Waits until a connection may be there, or the thread is woken. One for which there is no
    // descriptor is closed; one that its client has given up is left.
    fn wait<L: Ledger, D: Device, R: Wait + Net + Clock>(
        &mut self,
        rt: &R,
        shared: &SharedServer<L, D>,
        error: &io::Error,
    ) {
        let goes_on = match error.kind() {
            io::ErrorKind::WouldBlock => self.poll.poll(&mut self.events, None).is_ok(),
            io::ErrorKind::Interrupted | io::ErrorKind::ConnectionAborted => true,
            _ => has_no_descriptor(error) && self.turn_away(rt, shared),
        };
        if !goes_on {
            thread::sleep(rt, Duration::from_millis(PAUSE));
        }
    }

    // Closes a connection, and says whether it could. The spare descriptor serves for that, and is
    // there again afterwards: no circuit takes it meanwhile.
    fn turn_away<L: Ledger, D: Device, R: Wait + Net>(
        &mut self,
        rt: &R,
        shared: &SharedServer<L, D>,
    ) -> bool {
        let _held = shared.parking.polls.lock(rt);
        self.spare = None;
        let is_closed = self.listener.accept().is_ok();
        if is_closed {
            shared.note_closed();
        }
        self.spare = Poll::new(rt).ok();
        is_closed
    }
}

fn has_no_descriptor(error: &io::Error) -> bool {
    error
        .raw_os_error()
        .is_some_and(|code| NO_DESCRIPTOR.contains(&code))
}

// How many circuits were closed, the number of one whose thread is at its end, and whether the
// server is to end.
fn looked<L: Ledger, D: Device, R: Wait>(
    rt: &R,
    shared: &SharedServer<L, D>,
) -> (u64, Option<u64>, bool) {
    let mut guard = shared.locked.lock(rt);
    let gone = guard.gone.pop();
    (guard.closed, gone, guard.ending)
}

// A connection for which there is no room is closed: its stream is dropped. So is a circuit for
// which no thread can be had.
fn accept_one<
    L: Ledger + Send + Sync + 'static,
    D: Device + Send + Sync + 'static,
    R: Threads
        + Wait
        + Clock
        + Net<Stream = net::TcpStream, Listener = net::TcpListener>
        + Copy
        + Send
        + 'static,
>(
    rt: R,
    alloc: Global,
    shared: &Arc<SharedServer<L, D>>,
    stream: TcpStream,
    number: u64,
    running: &mut Running<L>,
    all: &mut Share<L>,
)
    requires { all.old.parts + index_map_len running.old ≡ 2 ^ 64 - 1 }
    ensures { all.new.parts + index_map_len running.new ≡ 2 ^ 64 - 1 }
{
    let has_room = running.len() < MOST_CIRCUITS && running.reserve(1).is_ok();
    let taken = if has_room {
        taken(&rt, alloc, shared, stream, running.len())
    } else {
        None
    };
    let Some((accepted, circuit)) = taken else {
        shared.note_closed();
        return;
    };
    let Accepted {
        shared: held,
        socket,
        tally,
        is_to_end,
        ends,
    } = accepted;
    let share = one_part(all);
    let work = CircuitThread::new(held, socket, circuit, number, tally, ends, share);
    match started_or_ended(rt, work, &is_to_end) {
        Ok(handle) => keep(&rt, running, number, handle, all),
        Err(gathered) => {
            shared.note_closed();
            let Gathered { share } = gathered;
            all.merge(share);
        }
    }
}

// What a thread counts by. Nothing is counted in it yet.
fn one_part<L: Ledger>(all: &mut Share<L>) -> Share<L>
    requires { 1 < all.old.parts }
    ensures one { result.parts ≡ 1 }
    ensures left { all.new.parts + 1 ≡ all.old.parts }
{
    all.split_off(1, 0)
}

// A circuit for a connection.
fn taken<L: Ledger, D: Device, R: Wait>(
    rt: &R,
    alloc: Global,
    shared: &Arc<SharedServer<L, D>>,
    stream: TcpStream,
    running: usize,
) -> Option<(Accepted<L, D>, Handle)> {
    let (accepted, parker) = prepared(alloc, shared, stream).ok()?;
    let circuit = entered(rt, shared, parker, running, &accepted.is_to_end)?;
    Some((accepted, circuit))
}

// Keeps a thread under its circuit's number. There is room, and no thread has the number; else the
// one that is left over is joined.
fn keep<L: Ledger, R: Threads>(
    rt: &R,
    running: &mut Running<L>,
    number: u64,
    handle: JoinHandle<Gathered<L>>,
    all: &mut Share<L>,
)
    ensures { all.new.parts + index_map_len running.new
        ≡ all.old.parts + index_map_len running.old + 1 }
{
    match running.insert(number, handle) {
        Ok(None) => {}
        Ok(Some(other)) => merge(rt, other, all),
        Err(failed) => {
            let (_, handle) = failed.value;
            merge(rt, handle, all);
        }
    }
}

// Joins a thread, and takes its share over.
fn merge<L: Ledger, R: Threads>(rt: &R, handle: JoinHandle<Gathered<L>>, all: &mut Share<L>)
    ensures { all.new.parts ≡ all.old.parts + 1 }
{
    let Gathered { share } = handle.join(rt);
    all.merge(share);
}

// The circuit of a connection, whose thread has this parker. Without memory for that the thread is
// to close it at once.
fn entered<L: Ledger, D: Device, R: Wait>(
    rt: &R,
    shared: &SharedServer<L, D>,
    parker: Arc<Parker>,
    running: usize,
    is_to_end: &AtomicBool,
) -> Option<Handle> {
    let mut guard = shared.locked.lock(rt);
    let locked = &mut *guard;
    if locked.gone.reserve(running.saturating_add(1)).is_err() {
        return None;
    }
    let Ok(circuit) = locked.state.accept() else {
        return None;
    };
    if locked.bells.add(circuit, parker).is_err() {
        is_to_end.store(true, Ordering::SeqCst);
    }
    Some(circuit)
}

fn prepared<L: Ledger, D: Device>(
    alloc: Global,
    shared: &Arc<SharedServer<L, D>>,
    stream: TcpStream,
) -> Result<(Accepted<L, D>, Arc<Parker>), Refusal> {
    let shared = Arc::try_clone(shared)?;
    let is_to_end = Arc::new(alloc, AtomicBool::new(false))?;
    let parker = Arc::new(alloc, Parker::new())?;
    let tally = shared.tally()?;
    let accepted = Accepted {
        shared,
        socket: CircuitSocket::new(alloc, stream, Arc::try_clone(&parker)?)?,
        tally,
        ends: Arc::try_clone(&is_to_end)?,
        is_to_end,
    };
    Ok((accepted, parker))
}

/// What a thread waits at, and what wakes it.
pub(crate) fn new_poll<R: Net>(rt: &R) -> Result<(Poll, Waker), Refusal> {
    let Ok(poll) = Poll::new(rt) else {
        return Err(Refusal::Device);
    };
    match Waker::new(poll.registry(), WAKER) {
        Ok(waker) => Ok((poll, waker)),
        Err(_) => Err(Refusal::Device),
    }
}

// Joins the thread of this number, which is at its end.
fn reap<L: Ledger, R: Threads>(rt: &R, running: &mut Running<L>, number: u64, all: &mut Share<L>)
    ensures { all.new.parts + index_map_len running.new
        ≡ all.old.parts + index_map_len running.old }
{
    if let Some(handle) = running.swap_remove(&number) {
        merge(rt, handle, all);
    }
}

/// Joins all threads, and takes their shares over.
pub(crate) fn join_all<L: Ledger, R: Threads>(rt: &R, running: &mut Running<L>, all: &mut Share<L>)
    ensures { all.new.parts ≡ all.old.parts + index_map_len running.old }
{
    while let Some(one) = running.pop() {
        let (_, handle) = one;
        merge(rt, handle, all);
    }
}
