//! What the threads of a server share (`SharedServer`), and the part of it that is under the lock
//! (`LockedServer`). A step and a finish note here which threads are to be woken for what they did.
ghost use Rattle.std.specs.Prelude.{◌≡◌, ◌<◌};

use crate::clock::{milliseconds, next_stamp, parts_of, stamp_after};
use crate::meter::Meter;
use crate::parking::Parking;
use crate::processing::Device;
use crate::ringing::{Bells, ring};
use crate::serving::Options;
use crate::tally::Tally;
use ca_arena::Handle;
use ca_server::{State, locked_finish, locked_step};
use ca_server_core::{CoreStep, Effect, EndCause};
use ca_wire::Sid;
use indexmap::IndexSet;
use mio::Waker;
use std::alloc::{AllocError, Global};
use std::collections::VecDeque;
use std::sync::ledger::{Ledger, Share};
use std::sync::{Condvar, Mutex, MutexGuard, Wait};
use std::thread;
use std::time::Clock;

// Looks at the lock, each a call of the system, before a thread sleeps.
const LOOKS: u32 = 32;

/// What lies under the lock.
#[derive(Drop)]
pub(crate) struct LockedServer<L: Ledger> {
    pub(crate) state: State<L>,
    /// The records that a put made busy, and that no thread has taken up yet, by their places among
    /// the slow ones. There is room for all.
    pub(crate) busy: VecDeque<usize>,
    /// By their places among the slow ones: whether a record waits for that, or is processed.
    pub(crate) in_hand: Vec<bool>,
    pub(crate) bells: Bells,
    /// The time stamp that was handed in last, in nanoseconds since 1990-01-01 00:00:00 UTC.
    pub(crate) stamped: u64,
    /// How many circuits were closed.
    pub(crate) closed: u64,
    /// The numbers of the circuits whose threads are at their end, and were not joined yet. There
    /// is room for all that run.
    pub(crate) gone: Vec<u64>,
    /// The server is to end.
    pub(crate) ending: bool,
}

/// What the threads share.
#[derive(Drop)]
pub(crate) struct SharedServer<L: Ledger, D: Device> {
    pub(crate) locked: Mutex<LockedServer<L>>,
    /// A record became busy, or the server is to end.
    pub(crate) given: Condvar,
    pub(crate) parking: Parking,
    /// Wakes the thread that accepts circuits.
    pub(crate) accepting: Waker,
    /// Wakes the thread that answers datagrams.
    pub(crate) answering: Waker,
    pub(crate) device: D,
    /// The names of the slow records.
    pub(crate) slow: IndexSet<Vec<u8>>,
    /// For how many milliseconds a socket may take nothing of what waits, if there is a limit.
    pub(crate) patience: Option<u64>,
    pub(crate) meter: Option<Meter>,
    pub(crate) alloc: Global,
}

impl<L: Ledger, D: Device> SharedServer<L, D> {
    /// No record is busy, and there was no circuit yet.
    pub(crate) fn new(
        alloc: Global,
        state: State<L>,
        slow: IndexSet<Vec<u8>>,
        parking: Parking,
        accepting: Waker,
        answering: Waker,
        device: D,
        options: Options,
    ) -> Result<SharedServer<L, D>, AllocError> {
        let Options {
            circuits: _,
            patience,
            meter,
        } = options;
        let busy = VecDeque::with_capacity(alloc, slow.len())?;
        let mut in_hand = Vec::new(alloc);
        in_hand.resize(slow.len(), false)?;
        Ok(SharedServer {
            locked: Mutex::new(LockedServer {
                state,
                busy,
                in_hand,
                bells: Bells::new(alloc),
                stamped: 0,
                closed: 0,
                gone: Vec::new(alloc),
                ending: false,
            }),
            given: Condvar::new(),
            parking,
            accepting,
            answering,
            device,
            slow,
            patience: patience.map(milliseconds),
            meter,
            alloc,
        })
    }

    /// Takes the lock for a turn. While others have it the thread looks again for some
    /// microseconds: a turn takes less than a sleep and a wake.
    pub(crate) fn lock<R: Wait>(&self, rt: &R) -> MutexGuard<'_, LockedServer<L>> {
        for _ in 0..LOOKS {
            if let Some(guard) = self.locked.try_lock() {
                return guard;
            }
            thread::yield_now();
        }
        self.locked.lock(rt)
    }

    /// What counts for the meter, if there is one.
    pub(crate) fn tally(&self) -> Result<Tally, AllocError> {
        let meter = match &self.meter {
            Some(meter) => Some(meter.share()?),
            None => None,
        };
        Ok(Tally::new(self.alloc, meter))
    }

    /// Tells the meter how many writes were applied.
    pub(crate) fn note_writes(&self, locked: &LockedServer<L>) {
        if let Some(meter) = &self.meter {
            meter.note_writes(locked.state.core().applied());
        }
    }

    /// Tells the meter of a connection that is closed at once.
    pub(crate) fn note_closed(&self) {
        if let Some(meter) = &self.meter {
            meter.note_closed();
        }
    }

    /// Has all threads end.
    pub(crate) fn end<R: Wait>(&self, rt: &R) {
        let mut guard = self.locked.lock(rt);
        let locked = &mut *guard;
        locked.ending = true;
        locked.bells.ring_all();
        drop(guard);
        self.given.notify_all();
        ring(&self.parking.waker);
        ring(&self.accepting);
        ring(&self.answering);
    }
}

impl<L: Ledger> LockedServer<L> {
    /// One step of a circuit. A record that it makes busy is handed on, and idle circuits that its
    /// write may have reached are to be rung, unless this turn did so for another write on the same
    /// channel: none of them is idle again before the turn ends.
    pub(crate) fn step(
        &mut self,
        slow: &IndexSet<Vec<u8>>,
        circuit: Handle,
        share: &mut Share<L>,
        reached: &mut Option<u32>,
    ) -> CoreStep
        requires { 0 < share.old.parts }
        ensures { share.new.parts ≡ share.old.parts }
    {
        let step = locked_step(&mut self.state, circuit, share);
        match &step {
            CoreStep::Handled(Effect::Wrote(sid)) => self.reach_by(circuit, *sid, reached),
            CoreStep::Handled(Effect::Busied(sid)) => {
                self.hand_on_of(slow, circuit, *sid);
                self.reach_by(circuit, *sid, reached);
            }
            CoreStep::Closed(EndCause::OutOfMemory, _) => {
                // It had no memory for the update of its own write, and does not tell of the record
                // that it wrote.
                self.hand_on_all(slow);
                self.bells.note_all();
            }
            _ => {}
        }
        step
    }

    // The record of this channel is to be processed.
    fn hand_on_of(&mut self, slow: &IndexSet<Vec<u8>>, circuit: Handle, sid: u32) {
        let Some(name) = self.state.core().served_name(circuit, Sid::new(sid)) else {
            return;
        };
        if let Some(place) = slow.get_index_of(name) {
            self.hand_on(place);
        }
    }

    // A write was applied on this channel: the next one is to be later, and the other circuits that
    // may have updates of it are to be rung. The circuit that wrote is in its turn.
    fn reach_by(&mut self, circuit: Handle, sid: u32, reached: &mut Option<u32>) {
        self.stamp_as(next_stamp(self.stamped));
        if *reached == Some(sid) {
            return;
        }
        *reached = Some(sid);
        let LockedServer { state, bells, .. } = self;
        if let Some(name) = state.core().served_name(circuit, Sid::new(sid)) {
            reach(state, bells, name, Some(circuit));
        }
    }

    // All records that are busy are to be processed: a circuit that had no memory for the update of
    // its own put does not tell of the record that this put made busy.
    fn hand_on_all(&mut self, slow: &IndexSet<Vec<u8>>) {
        for place in 0..slow.len() {
            let Some(name) = slow.get_index(place) else {
                return;
            };
            if self.state.core().busy_value(name).is_some() {
                self.hand_on(place);
            }
        }
    }

    // A record is to be processed, unless it is in hand: so there is room among those that wait.
    fn hand_on(&mut self, place: usize) {
        let Some(is_in_hand) = self.in_hand.get_mut(place) else {
            return;
        };
        if !*is_in_hand {
            *is_in_hand = true;
            let _full = self.busy.push_back(place);
        }
    }

    /// Hands the machine's time in: the next write that is applied has this time stamp, and no
    /// write had it before.
    pub(crate) fn stamp<R: Clock>(&mut self, rt: &R) {
        self.stamp_as(stamp_after(rt, self.stamped));
    }

    // The next write that is applied has this time stamp.
    fn stamp_as(&mut self, stamp: u64) {
        self.stamped = stamp;
        let (seconds, nanos) = parts_of(stamp);
        self.state.stamp(seconds, nanos);
    }

    /// Finishes the put that makes the record of this name busy. If a put that waited makes it busy
    /// again, it goes to the end of those that wait to be processed, so that no record keeps others
    /// waiting. The circuit of the put is to be rung, and those that the next put may have reached.
    pub(crate) fn finish<R: Clock>(&mut self, rt: &R, place: usize, name: &[u8]) {
        self.stamp(rt);
        if let Some(circuit) = self.state.core().busy_circuit(name) {
            self.bells.note(circuit);
        }
        let applied = self.state.core().applied();
        // Nobody else finishes it, so that this is not refused.
        let _refused = locked_finish(&mut self.state, name);
        if self.state.core().applied() != applied {
            reach(&self.state, &mut self.bells, name, None);
        }
        if let Some(is_in_hand) = self.in_hand.get_mut(place) {
            *is_in_hand = false;
        }
        if self.state.core().busy_value(name).is_some() {
            self.hand_on(place);
        }
    }
}

// The circuits that may have subscriptions on the record of this name are to be rung, but for this
// one.
fn reach<L: Ledger>(state: &State<L>, bells: &mut Bells, name: &[u8], but: Option<Handle>) {
    let Some(watching) = state.core().watching(name) else {
        return;
    };
    for place in 0..watching.len() {
        match watching.at(place) {
            Some(circuit) if Some(circuit) != but => bells.note(circuit),
            _ => {}
        }
    }
}
