//! What callers and the thread of input and output share: what is under the lock, and the atomic
//! words by which they wake each other without it. That no wake is lost depends on the order of
//! writes and reads: see the comments of `doze`, `park`, `pass` and `leave`.
use crate::circuits::{Brought, ConnectedCircuit, ListenerNotices, is_any_full, serve};
use crate::context::Setting;
use crate::lead::{EventPoll, LATELY, Lead};
use crate::listener::{Change, Listener};
use crate::spread::Spread;
use ca_board::Ticket;
use ca_client::{ClientState, RequestCall, issue_under_lock};
use ca_dbr::Value;
use ca_text::Refusal;
use mio::Waker;
use std::alloc::Global;
use std::sync::atomic::{AtomicU64, Ordering};
use std::sync::{Mutex, MutexGuard, Wait};
use std::time::{Clock, Duration};

// Requests that callers make while none of them looks for an outcome go out this many at a time:
// then the server answers them while the next are made.
const TOGETHER: u64 = 256;

// The thread of input and output is told of one request in this many, and of the
// first that was not sent.
const SOME: u64 = 8;

// A thread tries this often to have the lock before it sleeps: it is mostly held for as long as a
// few requests take, and to be woken takes longer.
const TRIES: usize = 64;

// Between two tries it pauses, so that whoever has the lock can make several requests with what
// lies under it in its processor's cache.
const BACKOFF: usize = 200;

// Before a turn the thread of input and output waits until no request was made in a pause, or
// for this many pauses.
const QUIET: usize = 400;

const PATIENCE: usize = 500;

// Where the thread of input and output may be waiting: what `asleep` says.
const NOWHERE: u64 = 0;

const AT_SOCKETS: u64 = 1;

const AT_CALL: u64 = 2;

// Where the thread of input and output waits.
#[derive(Clone, Copy, Drop)]
pub(crate) enum WaitPlace {
    // It takes another turn at once.
    Nowhere,
    // For the sockets.
    Sockets,
    // To be called, while callers wait for the sockets.
    Call,
}

// What lies under the lock.
#[derive(Drop)]
pub(crate) struct LockedClient<L: Listener> {
    pub(crate) state: ClientState,
    pub(crate) circuits: Vec<ConnectedCircuit>,
    pub(crate) spread: Spread,
    // What listeners have not been told yet.
    pub(crate) told: Vec<ListenerNotices>,
    // What became of listeners, in the order of the calls. The thread of input and output
    // has not followed yet.
    pub(crate) changes: Vec<Change<L>>,
    // How many requests were made since all were last sent.
    pub(crate) unsent: u64,
    pub(crate) lead: Lead,
    // The moment of the last turn of the thread of input and output.
    pub(crate) moment: u64,
    pub(crate) ending: bool,
}

impl<L: Listener> LockedClient<L> {
    pub(crate) fn new(alloc: Global, setting: Setting) -> Result<LockedClient<L>, Refusal> {
        let Setting {
            user,
            host,
            servers,
            names,
            ..
        } = setting;
        let spread = Spread::new(alloc)?;
        let state = ClientState::new(alloc, user, host, servers, &names, 0)?;
        Ok(LockedClient {
            state,
            circuits: Vec::new(alloc),
            spread,
            told: Vec::new(alloc),
            changes: Vec::new(alloc),
            unsent: 0,
            lead: Lead::new(),
            moment: 0,
            ending: false,
        })
    }

    // Makes a request, to whose value this one gives its memory: its ticket, and whether there is
    // nothing more to be done for it now.
    pub(crate) fn issue(
        &mut self,
        room: Option<Value>,
        request: &RequestCall,
    ) -> Result<(Ticket, bool), Refusal> {
        if let Some(room) = room {
            self.state.recycle(room);
        }
        let (_, ticket) = issue_under_lock(&mut self.state, request)?;
        self.unsent = self.unsent.saturating_add(1);
        let all = self.unsent < TOGETHER || self.send();
        Ok((ticket, all))
    }

    // Makes requests, until one is refused. It says what came of them, and whether there is nothing
    // more to be done for those that were made.
    pub(crate) fn request_each(
        &mut self,
        requests: &[RequestCall],
        rooms: &mut Vec<Value>,
        tickets: &mut Vec<Ticket>,
    ) -> (Result<(), Refusal>, bool) {
        let mut all = true;
        for index in 0..requests.len() {
            match self.request_one(&requests[index], rooms, tickets) {
                Ok(done) => all = all && done,
                Err(refusal) => return (Err(refusal), all),
            }
        }
        (Ok(()), all)
    }

    fn request_one(
        &mut self,
        request: &RequestCall,
        rooms: &mut Vec<Value>,
        tickets: &mut Vec<Ticket>,
    ) -> Result<bool, Refusal> {
        tickets.reserve(1)?;
        let (ticket, all) = self.issue(rooms.pop(), request)?;
        tickets.push_reserved(ticket);
        Ok(all)
    }

    // Whether the thread of input and output is to be told of the request that was made.
    pub(crate) fn needs_thread(&self) -> bool {
        self.unsent % SOME == 1
    }

    // Sends what waits on all circuits, as far as that can be now. It says whether nothing is left
    // for the thread of input and output.
    pub(crate) fn send(&mut self) -> bool {
        let brought = self.move_bytes(false);
        !brought.any && !brought.more
    }

    // A caller would move bytes. It says whether that may.
    fn may_lead(&mut self) -> bool {
        self.lead.may_lead() && !self.ending
    }

    // Moves bytes for the thread of input and output, and reads what came. While a caller
    // waits for the sockets it leaves the reading to that one, who may have been told of what
    // came, and is not late.
    pub(crate) fn serve(&mut self) -> Brought {
        let reads = !self.lead.is_read();
        self.move_bytes(reads)
    }

    // Sends what waits on all circuits, as far as that can be now, and reads what came, or nothing.
    pub(crate) fn move_bytes(&mut self, reads: bool) -> Brought {
        self.unsent = 0;
        serve(&mut self.state, &mut self.circuits, &mut self.told, reads)
    }

    // Whether there is something for the thread of input and output to do, after
    // what a caller moved.
    pub(crate) fn calls(&self, brought: Brought) -> bool {
        brought.news || self.lead.hears() || self.ending || !self.told.is_empty()
    }
}

// What threads share.
#[derive(Drop)]
pub(crate) struct SharedClient<L: Listener> {
    pub(crate) locked: Mutex<LockedClient<L>>,
    // Whoever waits for the sockets has it. What lies under the other lock says who that is, so
    // nobody waits for this one for long.
    sockets: Mutex<EventPoll>,
    // Ends a wait for the sockets.
    sockets_waker: Waker,
    // Ends the wait of the thread of input and output while callers wait for the sockets.
    thread_waker: Waker,
    // Where the thread of input and output may be waiting, if it was not woken since.
    asleep: AtomicU64,
    // How many requests were made that may not have been sent.
    asked: AtomicU64,
    // How many turns of the thread of input and output ended the waits of callers.
    turns: AtomicU64,
    // How many callers wait.
    waiting: AtomicU64,
    // Above 0 if several callers waited at once lately. The thread of input and output
    // serves them together.
    crowded: AtomicU64,
    // 1 if the thread of input and output has ended.
    ended: AtomicU64,
    // How many subscriptions were cancelled.
    cancels: AtomicU64,
}

impl<L: Listener> SharedClient<L> {
    pub(crate) fn new(
        locked: LockedClient<L>,
        sockets: EventPoll,
        sockets_waker: Waker,
        thread_waker: Waker,
    ) -> SharedClient<L> {
        SharedClient {
            locked: Mutex::new(locked),
            sockets: Mutex::new(sockets),
            sockets_waker,
            thread_waker,
            asleep: AtomicU64::new(NOWHERE),
            asked: AtomicU64::new(0),
            turns: AtomicU64::new(0),
            waiting: AtomicU64::new(0),
            crowded: AtomicU64::new(0),
            ended: AtomicU64::new(0),
            cancels: AtomicU64::new(0),
        }
    }

    // Takes the lock.
    pub(crate) fn hold<R: Wait>(&self, rt: &R) -> MutexGuard<'_, LockedClient<L>> {
        for _ in 0..TRIES {
            if let Some(guard) = self.locked.try_lock() {
                return guard;
            }
            pause(BACKOFF);
        }
        self.locked.lock(rt)
    }

    // Waits while requests are being made, for a short time at most: a turn holds the lock for as
    // long as many requests take, so those that make them would sleep meanwhile. Those that make
    // many send them themselves, so that the server need not wait.
    pub(crate) fn let_ask(&self) {
        for _ in 0..PATIENCE {
            let before = self.asked();
            if before == 0 {
                return;
            }
            pause(QUIET);
            if self.asked() == before {
                return;
            }
        }
    }

    // The thread of input and output is about to wait. It says so while it has the lock, so that
    // whoever has it next wakes it.
    //
    // It says that it leaves the sockets to callers before it looks whether one waits that does not
    // lead. Such a caller says that it waits before it looks whether the sockets are left: so
    // either the thread waits for them, or the caller wakes it.
    pub(crate) fn doze(&self, locked: &mut LockedClient<L>) -> WaitPlace {
        self.asked.store(0, Ordering::SeqCst);
        let serves = self.crowded.load(Ordering::SeqCst) != 0 || is_any_full(&locked.circuits);
        if locked.lead.is_left(serves) {
            self.asleep.store(AT_CALL, Ordering::SeqCst);
            if locked.lead.is_led() || !self.is_awaited() {
                return WaitPlace::Call;
            }
        }
        locked.lead.take();
        self.asleep.store(AT_SOCKETS, Ordering::SeqCst);
        WaitPlace::Sockets
    }

    // Waits for the sockets, for this time or a turn at most.
    pub(crate) fn watch<R: Wait + Clock>(&self, rt: &R, most: Duration) {
        self.sockets.lock(rt).watch(rt, most);
    }

    // Takes the lock for a caller that leads, if this one may: no other waits, or did lately, and
    // nobody waits for the sockets.
    pub(crate) fn hold_to_lead<R: Wait>(&self, rt: &R) -> Option<MutexGuard<'_, LockedClient<L>>> {
        if self.is_crowded() {
            return None;
        }
        let mut guard = self.hold(rt);
        if guard.may_lead() {
            self.asked.store(0, Ordering::SeqCst);
            return Some(guard);
        }
        if guard.lead.is_led() {
            self.crowd();
        }
        None
    }

    // Whether several callers wait, or did lately. This one does.
    fn is_crowded(&self) -> bool {
        if self.is_awaited() {
            self.crowd();
            return true;
        }
        self.crowded.load(Ordering::SeqCst) != 0
    }

    // Several callers wait. While they do, the word is only read.
    fn crowd(&self) {
        if self.crowded.load(Ordering::SeqCst) != LATELY {
            self.crowded.store(LATELY, Ordering::SeqCst);
        }
    }

    // 10 ms have passed.
    pub(crate) fn tick(&self) {
        let crowded = self.crowded.load(Ordering::SeqCst);
        if crowded != 0 {
            self.crowded.store(crowded - 1, Ordering::SeqCst);
        }
    }

    // A caller has moved bytes. Those that wait look for their outcomes, and the thread of input
    // and output takes over, if there are some.
    //
    // The turn is counted before it is looked whether some wait, as `pass` says: so whoever is
    // about to wait sees the new number.
    pub(crate) fn leave(&self, calls: bool) {
        self.pass(false);
        if calls || self.is_awaited() {
            self.wake();
        }
    }

    // Something was changed that may have ended the waits of others: all look, and the thread of
    // input and output takes a turn.
    pub(crate) fn call_all(&self) {
        self.pass(false);
        self.call_leader();
        self.wake();
    }

    // Ends the wait of a caller for the sockets.
    pub(crate) fn call_leader(&self) {
        let _ = self.sockets_waker.wake();
    }

    // It has woken: its next turn begins after whatever was changed under the lock until now. So
    // nobody need wake it before that turn is over.
    pub(crate) fn rise(&self) {
        self.asleep.store(NOWHERE, Ordering::SeqCst);
    }

    // A request was made, which goes out with the next turn.
    pub(crate) fn ask(&self) {
        self.asked.fetch_add(1, Ordering::SeqCst);
    }

    // How many requests were made that may not have been sent.
    fn asked(&self) -> u64 {
        self.asked.load(Ordering::SeqCst)
    }

    // Has the requests go out at once: somebody looks for an outcome.
    //
    // Whoever finds that there are some has those of all callers sent, so that the others need not.
    // While others wait it leaves them to the thread of input and output, which sends those of
    // several callers together. Else it sends them itself. If it cannot have the lock, they are
    // left to that thread too: it has the lock, and its turn began with sending them; or another
    // caller has it, and then it is woken, if it is not at work.
    pub(crate) fn flush(&self) {
        if self.asked.swap(0, Ordering::SeqCst) != 0 && (self.is_awaited() || !self.send_now()) {
            self.wake();
        }
    }

    // Sends what waits on all circuits, if it can have the lock at once. It says whether nothing is
    // left for the thread of input and output.
    fn send_now(&self) -> bool {
        match self.locked.try_lock() {
            Some(mut guard) => guard.send(),
            None => false,
        }
    }

    // Whether callers wait.
    fn is_awaited(&self) -> bool {
        self.waiting.load(Ordering::SeqCst) != 0
    }

    // Somebody looks for an outcome, and does not wait. If the sockets are left to callers it reads
    // what came, for its next look; while several wait the thread of input and output does.
    pub(crate) fn look(&self) {
        if self.asleep.load(Ordering::SeqCst) == AT_CALL {
            if self.is_crowded() {
                self.wake();
            } else if self.move_now() {
                return;
            }
        }
        self.flush();
    }

    // Moves bytes for a caller that does not wait, if it can have the lock at once, and may. It
    // says whether it did.
    fn move_now(&self) -> bool {
        let Some(mut guard) = self.locked.try_lock() else {
            return false;
        };
        if !guard.may_lead() {
            return false;
        }
        self.asked.store(0, Ordering::SeqCst);
        let brought = guard.move_bytes(true);
        let calls = guard.calls(brought);
        drop(guard);
        self.leave(calls);
        true
    }

    // Ends its wait, once for all that was changed under the lock meanwhile.
    pub(crate) fn wake(&self) {
        let place = self.asleep.swap(NOWHERE, Ordering::SeqCst);
        if place == AT_SOCKETS {
            let _ = self.sockets_waker.wake();
        } else if place == AT_CALL {
            let _ = self.thread_waker.wake();
        }
    }

    // Tells those that wait that a turn is over.
    //
    // A caller says that it waits before it looks whether a turn is over. So whom this does not
    // find among those that wait sees the new number, and whom it finds is woken.
    pub(crate) fn pass(&self, ended: bool) {
        if ended {
            self.ended.store(1, Ordering::SeqCst);
        }
        self.turns.fetch_add(1, Ordering::SeqCst);
        if self.is_awaited() {
            self.turns.wake_all();
        }
    }

    // How many turns are over.
    pub(crate) fn turns(&self) -> u64 {
        self.turns.load(Ordering::SeqCst)
    }

    // Waits until another turn is over, for this time at most, and says whether the thread of input
    // and output has ended. It may return before that.
    //
    // The time ends a wait while a listener keeps that thread, and a wait that a listener makes.
    pub(crate) fn park<R: Wait>(&self, rt: &R, seen: u64, most: Duration) -> bool {
        self.waiting.fetch_add(1, Ordering::SeqCst);
        if self.asleep.load(Ordering::SeqCst) == AT_CALL {
            self.wake();
        }
        if self.turns() == seen && !self.has_ended() {
            // It sleeps only while no other turn is over.
            self.turns.park_timeout(rt, (seen % (1 << 32)) as u32, most);
        }
        self.waiting.fetch_sub(1, Ordering::SeqCst);
        self.has_ended()
    }

    pub(crate) fn has_ended(&self) -> bool {
        self.ended.load(Ordering::SeqCst) == 1
    }

    // A subscription was cancelled, which lies among the changes.
    pub(crate) fn cancel(&self) {
        self.cancels.fetch_add(1, Ordering::SeqCst);
    }

    // How many were cancelled.
    pub(crate) fn cancels(&self) -> u64 {
        self.cancels.load(Ordering::SeqCst)
    }
}

// Passes some nanoseconds a step, on no memory of others and with no call of the system, which
// could give a whole slice of time away.
fn pause(steps: usize) {
    let own = AtomicU64::new(0);
    for _ in 0..steps {
        own.fetch_add(1, Ordering::SeqCst);
    }
}
