//! Parking: a circuit on which nothing moves gives up its own poll, and its socket joins a poll
//! that all such circuits share. Here are the way there and back, and the thread that waits at that
//! poll.
ghost use Rattle.std.specs.Prelude.{◌≡◌, ◌<◌};

use crate::accepting::new_poll;
use crate::circuit_socket::{CircuitSocket, Own};
use crate::locked::SharedServer;
use crate::processing::Device;
use crate::ringing::{Rings, ring};
use crate::work::ThreadWork;
use ca_arena::Handle;
use ca_text::Refusal;
use mio::{Events, Poll, Registry, Token, Waker};
use std::alloc::Global;
use std::net::{Net, TcpListener, TcpStream};
use std::sync::ledger::Ledger;
use std::sync::{Arc, Mutex, Wait};
use std::thread;
use std::time::{Clock, Duration};

// Circuits that have a poll of their own, at most. More that are busy go on by the one that all
// share.
const MOST_POLLS: usize = 1_024;

/// Sockets that the polling thread hears of at once, at most.
pub(crate) const SOCKETS: usize = 256;

// A wait that the system refuses is this many milliseconds long.
const PAUSE: u64 = 10;

/// What a circuit needs to be parked, and to have a poll of its own again. While it is parked its
/// socket is in the poll that all such circuits share, and its thread waits for its parker.
#[derive(Drop)]
pub(crate) struct Parking {
    /// Of the poll that all share.
    pub(crate) registry: Registry,
    /// Wakes the polling thread.
    pub(crate) waker: Waker,
    /// How many circuits have a poll of their own. Who makes a descriptor has this lock, so that
    /// nobody takes the one that another has just given up.
    pub(crate) polls: Mutex<usize>,
}

impl Parking {
    // A poll for one circuit.
    fn own<R: Wait + Net>(
        &self,
        rt: &R,
        alloc: Global,
        socket: &mut CircuitSocket,
    ) -> Result<Arc<Waker>, Refusal> {
        let mut polls = self.polls.lock(rt);
        if *polls >= MOST_POLLS {
            return Err(Refusal::Device);
        }
        let (poll, waker) = new_poll(rt)?;
        let waker = Arc::new(alloc, waker)?;
        let events = Events::with_capacity(alloc, 4)?;
        socket.leave(Own::new(poll, events), &self.registry)?;
        *polls += 1;
        Ok(waker)
    }

    /// A circuit has no poll of its own any more.
    pub(crate) fn give_back<R: Wait>(&self, rt: &R) {
        let mut polls = self.polls.lock(rt);
        *polls = polls.saturating_sub(1);
    }
}

/// What the socket of a parked circuit is told under.
pub(crate) fn token_of(circuit: Handle) -> Token {
    Token(usize::from(circuit.index))
}

/// Has a circuit that is parked have a poll of its own. Without a descriptor or memory for that it
/// stays parked.
///
/// A ring that came before the change was for the parker: so the poll is rung, and a turn follows
/// the next wait.
pub(crate) fn unpark<L: Ledger, D: Device, R: Wait + Net>(
    rt: &R,
    shared: &SharedServer<L, D>,
    circuit: Handle,
    socket: &mut CircuitSocket,
) {
    if let Ok(waker) = shared.parking.own(rt, shared.alloc, socket) {
        ring(&waker);
        hang(rt, shared, circuit, Some(waker));
    }
}

/// Parks a circuit. If its socket has no room among those of the others, it keeps its poll.
///
/// A ring that came before the change was for the poll: so a turn is to follow before the thread
/// waits.
pub(crate) fn park<L: Ledger, D: Device, R: Wait>(
    rt: &R,
    shared: &SharedServer<L, D>,
    circuit: Handle,
    socket: &mut CircuitSocket,
) {
    if !socket.join(&shared.parking.registry, token_of(circuit)) {
        return;
    }
    hang(rt, shared, circuit, None);
    socket.drop_own();
    shared.parking.give_back(rt);
}

// From now on a ring of the circuit's bell is for this waker, or for the parker.
fn hang<L: Ledger, D: Device, R: Wait>(
    rt: &R,
    shared: &SharedServer<L, D>,
    circuit: Handle,
    waker: Option<Arc<Waker>>,
) {
    let mut guard = shared.locked.lock(rt);
    let _other = guard.bells.hang(circuit, waker);
    drop(guard);
}

/// The thread that waits at the sockets of all circuits that are parked.
#[derive(Drop)]
pub(crate) struct Poller<L: Ledger, D: Device> {
    pub(crate) shared: Arc<SharedServer<L, D>>,
    pub(crate) poll: Poll,
    pub(crate) events: Events<Global>,
}

impl<L: Ledger, D: Device> ThreadWork<()> for Poller<L, D> {
    // Wakes the threads of the circuits whose sockets are ready, until the server is to end; after
    // a wait that failed those of all.
    fn run<R: Wait + Clock + Net<Stream = TcpStream, Listener = TcpListener>>(self, rt: &R) {
        let Poller {
            shared,
            mut poll,
            mut events,
        } = self;
        let mut rings = Rings::new(shared.alloc);
        for _ in rt.forever() {
            let is_told = poll.poll(&mut events, None).is_ok();
            if !is_told {
                thread::sleep(rt, Duration::from_millis(PAUSE));
            }
            if noted(rt, &shared, is_told, &events, &mut rings) {
                break;
            }
            rings.ring_all();
        }
    }
}

// Notes whose threads are to be woken. Says whether the server is to end.
fn noted<L: Ledger, D: Device, R: Wait>(
    rt: &R,
    shared: &SharedServer<L, D>,
    is_told: bool,
    events: &Events<Global>,
    rings: &mut Rings,
) -> bool {
    let guard = shared.locked.lock(rt);
    if !is_told {
        guard.bells.call_all(rings);
    }
    for event in events {
        let Token(token) = event.token();
        if let Ok(index) = u16::try_from(token) {
            guard.bells.call(index, rings);
        }
    }
    guard.ending
}
