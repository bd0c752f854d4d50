//! The thread of input and output. Begin at `run` of `Engine`: it waits, takes one turn under the
//! lock (`work`), and then calls the listeners with the lock released.
use crate::addresses::{from_system, to_system};
use crate::circuits::{Brought, ListenerNotices, Tries, close_all, connect, forget, keep};
use crate::lead::{EventPoll, TURN};
use crate::listener::{Listener, SubscribedListeners};
use crate::shared::{LockedClient, SharedClient, WaitPlace};
use ca_client::{Answer, ClientState, CoreCall, step_under_lock};
use ca_client_core::{Notice, Ticked};
use ca_dbr::Outcome;
use ca_text::Refusal;
use mio::Registry;
use mio::net::UdpSocket;
use std::mem::swap;
use std::net::Net;
use std::sync::{Arc, Wait};
use std::thread;
use std::thread::{JoinHandle, Threads};
use std::time::{Clock, Duration, Instant};

// While there is more to read, waits are ended only once in this many milliseconds: each that ends
// finds more outcomes.
const HURRY: u64 = 2;

// At most this many datagrams are read in a turn.
const DATAGRAMS: usize = 64;

// A turn's moment is at most this many milliseconds after that of the turn before.
const STEP: u64 = 1_000;

/// Work for a thread of its own.
pub trait Work: Drop {
    fn run<R: Wait + Clock>(self, rt: &R);
}

/// Starts a thread for the work: for a client's engine, its thread of input and output. Refused as
/// Device if the system has none.
///
/// A function that is generic in the runtime names its streams for this call:
/// `R: Net<Stream = TcpStream, Listener = TcpListener>`, those of std.
pub fn start<R: Threads + Wait + Clock + Copy + Send + 'static, W: Work + Send + 'static>(
    rt: R,
    work: W,
) -> Result<JoinHandle<()>, Refusal> {
    match thread::spawn(&rt, move || work.run(&rt)) {
        Ok(handle) => Ok(handle),
        Err(_) => Err(Refusal::Device),
    }
}

/// What the thread of input and output alone uses: its work is that thread.
#[derive(Drop)]
pub struct Engine<N: Net + Drop, L: Listener> {
    // Where it connects circuits.
    pub(crate) net: N,
    pub(crate) shared: Arc<SharedClient<L>>,
    // What waits for the sockets.
    pub(crate) registry: Registry,
    // What waits to be called, while callers wait for the sockets.
    pub(crate) call: EventPoll,
    pub(crate) datagrams: UdpSocket,
    pub(crate) tries: Tries,
    pub(crate) listeners: SubscribedListeners<L>,
    pub(crate) told: Vec<ListenerNotices>,
    pub(crate) moments: Moments,
}

// The moments of turns, in milliseconds. They follow the clock, but for a thread that stood still:
// what was not read meanwhile is no silence of a server.
#[derive(Clone, Copy, Drop)]
pub(crate) struct Moments {
    began: Instant,
    seen: u64,
    moment: u64,
}

impl Moments {
    pub(crate) fn new(began: Instant) -> Moments {
        Moments {
            began,
            seen: 0,
            moment: 0,
        }
    }

    // The moment of a turn that begins now.
    fn next<R: Clock>(&mut self, rt: &R) -> u64 {
        let now = passed(rt, &self.began);
        let step = now.saturating_sub(self.seen).min(STEP);
        self.seen = now;
        self.moment = self.moment.saturating_add(step);
        self.moment
    }
}

impl<N: Net + Drop, L: Listener> Work for Engine<N, L> {
    // The thread of input and output.
    fn run<R: Wait + Clock>(self, rt: &R) {
        let mut engine = self;
        let mut waits = Waits {
            told: 0,
            owed: false,
        };
        let mut place = WaitPlace::Nowhere;
        for _ in rt.forever() {
            engine.rest(rt, place);
            let now = engine.moments.next(rt);
            let (next, brought) = engine.work(rt, now);
            let own = &mut engine;
            tell_all(rt, &own.shared, &mut own.listeners, &mut own.told);
            match next {
                Some(next) => place = next,
                None => {
                    engine.shared.pass(true);
                    break;
                }
            }
            if waits.end(brought, now) {
                engine.shared.pass(false);
            }
        }
    }
}

impl<N: Net + Drop, L: Listener> Engine<N, L> {
    // Waits at a place.
    fn rest<R: Wait + Clock>(&mut self, rt: &R, place: WaitPlace) {
        let most = Duration::from_millis(TURN);
        match place {
            WaitPlace::Nowhere => {}
            WaitPlace::Sockets => self.shared.watch(rt, most),
            WaitPlace::Call => self.call.watch(rt, most),
        }
        self.shared.rise();
    }

    // A turn, with the lock. It says where the thread waits for the next, or that there is none,
    // since the client ends.
    fn work<R: Wait>(&mut self, rt: &R, now: u64) -> (Option<WaitPlace>, Brought) {
        self.shared.let_ask();
        // The context was dropped if nobody else has what the two share.
        let is_left = Arc::strong_count(&self.shared) == 1;
        let mut guard = self.shared.hold(rt);
        let locked = &mut *guard;
        locked.moment = now;
        locked.ending = locked.ending || is_left;
        if locked.lead.rise(now) {
            self.shared.tick();
        }
        let brought = turn(
            &self.net,
            locked,
            &self.registry,
            &self.datagrams,
            &mut self.tries,
            &mut self.listeners,
            now,
        );
        swap(&mut locked.told, &mut self.told);
        if locked.ending {
            close_all(&mut locked.state, &mut locked.circuits);
            return (None, brought);
        }
        // What it was brought may be the leader's.
        if brought.any && locked.lead.is_led() {
            self.shared.call_leader();
        }
        let place = if brought.any || brought.more {
            WaitPlace::Nowhere
        } else {
            self.shared.doze(locked)
        };
        (Some(place), brought)
    }
}

// Those that wait for an outcome.
#[derive(Drop)]
struct Waits {
    // When they were last told that a turn is over.
    told: u64,
    // Whether turns since then brought something.
    owed: bool,
}

impl Waits {
    // Whether waits end now. A turn that brought nothing ends none: it has sent what callers ask.
    fn end(&mut self, brought: Brought, now: u64) -> bool {
        self.owed = self.owed || brought.any;
        let since = now.saturating_sub(self.told);
        let over = since >= TURN || self.owed && (!brought.more || since >= HURRY);
        if over {
            self.told = now;
            self.owed = false;
        }
        over
    }
}

// Milliseconds since the start.
fn passed<R: Clock>(rt: &R, start: &Instant) -> u64 {
    match start.elapsed(rt) {
        Ok(passed) => u64::try_from(passed.as_millis()).unwrap_or(u64::MAX),
        Err(_) => 0,
    }
}

// One turn, under the lock. What came is read before the moment is told, so that no
// circuit counts as silent whose bytes are there; what the moment asks and what circuits
// begin with is sent after that.
fn turn<N: Net, L: Listener>(
    net: &N,
    locked: &mut LockedClient<L>,
    registry: &Registry,
    datagrams: &UdpSocket,
    tries: &mut Tries,
    listeners: &mut SubscribedListeners<L>,
    now: u64,
) -> Brought {
    // A caller found that a circuit ended.
    let told_before = !locked.told.is_empty();
    listeners.follow(&mut locked.changes);
    let brought = locked.serve();
    let hears = hear(&mut locked.state, datagrams, now);
    let ended = tick(locked, datagrams, now);
    connect(
        net,
        &mut locked.state,
        registry,
        &mut locked.circuits,
        tries,
        now,
    );
    let sent = locked.move_bytes(false);
    let brought = brought.and(sent);
    Brought {
        any: brought.any || ended || told_before,
        more: brought.more || hears,
        news: brought.news,
    }
}

// Search replies and beacons. It says whether there may be more.
fn hear(state: &mut ClientState, datagrams: &UdpSocket, now: u64) -> bool {
    let mut buffer = [0u8; 4096];
    for _ in 0..DATAGRAMS {
        let Ok((size, from)) = datagrams.recv_from(&mut buffer[..]) else {
            return false;
        };
        if let Some(address) = from_system(from) {
            let _ = state.datagram(now, address, &buffer[..size.min(4096)]);
        }
    }
    true
}

// A moment: its searches are sent, and circuits that were silent too long are let go, as those that
// were cut. It says whether there were any.
fn tick<L: Listener>(locked: &mut LockedClient<L>, datagrams: &UdpSocket, now: u64) -> bool {
    // No moment is told without room for what it tells.
    if locked.told.reserve(locked.circuits.len()).is_err() {
        return false;
    }
    let Answer::Ticked(ticked) = step_under_lock(&mut locked.state, CoreCall::Tick(now)) else {
        return false;
    };
    let Ticked {
        datagrams: searches,
        closings,
    } = ticked;
    for index in 0..searches.len() {
        let _ = datagrams.send_to(
            searches[index].bytes.as_slice(),
            to_system(searches[index].to),
        );
    }
    let any = !closings.is_empty();
    for left in closings {
        forget(&mut locked.circuits, left.circuit);
        if locked.told.reserve(1).is_ok() {
            keep(&mut locked.told, left.notices);
        }
    }
    any
}

// Tells the listeners, in order.
fn tell_all<R: Wait, L: Listener>(
    rt: &R,
    shared: &SharedClient<L>,
    listeners: &mut SubscribedListeners<L>,
    told: &mut Vec<ListenerNotices>,
) {
    for index in 0..told.len() {
        tell_each(rt, shared, listeners, &mut told[index]);
    }
    told.clear();
}

fn tell_each<R: Wait, L: Listener>(
    rt: &R,
    shared: &SharedClient<L>,
    listeners: &mut SubscribedListeners<L>,
    heard: &mut ListenerNotices,
) {
    tell(rt, shared, listeners, &heard.first);
    while let Some(notice) = heard.rest.next() {
        tell(rt, shared, listeners, &notice);
    }
}

// Channels that are live or lost are seen by `wait_live` and `channel_state`. A subscription that
// was cancelled meanwhile is told nothing more.
fn tell<R: Wait, L: Listener>(
    rt: &R,
    shared: &SharedClient<L>,
    listeners: &mut SubscribedListeners<L>,
    notice: &Notice,
) {
    if listeners.is_behind(shared.cancels()) {
        listeners.forget_cancelled(&shared.hold(rt).changes);
    }
    match notice {
        Notice::Update(subscription, outcome) => listeners.tell(*subscription, outcome),
        Notice::SubscriptionEnded(subscription, status) => {
            listeners.tell(*subscription, &Outcome::Failed(*status));
            listeners.forget(*subscription);
        }
        _ => {}
    }
}
