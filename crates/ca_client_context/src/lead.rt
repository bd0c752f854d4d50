//! Who waits for the sockets: the thread of input and output, or a caller in its place, which is
//! said to lead. This is only the state, which is under the lock; `shared.rt` wakes and waits by
//! it.
use ca_text::Refusal;
use mio::{Events, Poll, Registry, Token, Waker};
use std::alloc::Global;
use std::net::Net;
use std::thread;
use std::time::{Clock, Duration};

// The events of wakers.
const WAKER: Token = Token(0);

// A wait of the thread of input and output, and one for the sockets, takes at most
// this many milliseconds.
pub(crate) const TURN: u64 = 10;

// What callers did is remembered for this many times 10 ms, the time that is under way among them.
pub(crate) const LATELY: u64 = 2;

// A caller that leads, and was not seen for this many times 10 ms, keeps nobody else from reading.
const LATE: u64 = 2;

// Waits for events: of the sockets, or to be called. One thread at a time waits at each.
#[derive(Drop)]
pub(crate) struct EventPoll {
    poll: Poll,
    // Those that one wait brings, and nobody reads.
    events: Events<Global>,
}

impl EventPoll {
    // Refused as Device if the system has none, and as OutOfMemory.
    pub(crate) fn new<R: Net>(rt: &R, alloc: Global, most: usize) -> Result<EventPoll, Refusal> {
        let Ok(poll) = Poll::new(rt) else {
            return Err(Refusal::Device);
        };
        let events = Events::with_capacity(alloc, most)?;
        Ok(EventPoll { poll, events })
    }

    pub(crate) fn registry(&self) -> &Registry {
        self.poll.registry()
    }

    // What ends a wait.
    pub(crate) fn waker(&self) -> Result<Waker, Refusal> {
        match Waker::new(self.registry(), WAKER) {
            Ok(waker) => Ok(waker),
            Err(_) => Err(Refusal::Device),
        }
    }

    // Waits for this time or a turn at most. A wait that the system refuses takes as long, so that
    // a fault that lasts costs no processor.
    pub(crate) fn watch<R: Clock>(&mut self, rt: &R, most: Duration) {
        let most = most.min(Duration::from_millis(TURN));
        if self.poll.poll(&mut self.events, Some(most)).is_err() {
            thread::sleep(rt, most);
        }
    }
}

// Who waits for the sockets.
#[derive(Clone, Copy, Drop)]
enum Watcher {
    Nobody,
    // The thread of input and output.
    Thread,
    // A caller that leads: it moves bytes itself until its outcome is there, so no thread
    // has to wake another.
    Caller,
}

// Who waits for the sockets, and who is to.
#[derive(Clone, Copy, Drop)]
pub(crate) struct Lead {
    watcher: Watcher,
    // Above 0 if a caller led lately, or would have.
    wished: u64,
    // Whether there was a subscription. Its updates come at any time, so the thread of input and
    // output waits for them.
    hears: bool,
    // When it was last seen that 10 ms had passed.
    ticked: u64,
    // For how many times 10 ms the caller that waits for the sockets was not seen.
    unseen: u64,
}

impl Lead {
    pub(crate) fn new() -> Lead {
        Lead {
            watcher: Watcher::Nobody,
            wished: 0,
            hears: false,
            ticked: 0,
            unseen: 0,
        }
    }

    // There is a subscription.
    pub(crate) fn hear(&mut self) {
        self.hears = true;
    }

    pub(crate) fn hears(&self) -> bool {
        self.hears
    }

    // A caller would lead. It says whether that may.
    pub(crate) fn may_lead(&mut self) -> bool {
        self.wished = LATELY;
        !self.hears && matches!(self.watcher, Watcher::Nobody)
    }

    // Whether a caller waits for the sockets.
    pub(crate) fn is_led(&self) -> bool {
        matches!(self.watcher, Watcher::Caller)
    }

    // Whether a caller waits for the sockets, and is to read what comes. One that was not seen for
    // long may have no processor.
    pub(crate) fn is_read(&self) -> bool {
        self.is_led() && self.unseen < LATE
    }

    // A caller waits for the sockets from now on.
    pub(crate) fn begin(&mut self) {
        self.watcher = Watcher::Caller;
        self.unseen = 0;
    }

    // It does no longer.
    pub(crate) fn end(&mut self) {
        self.watcher = Watcher::Nobody;
    }

    // The thread of input and output waits for the sockets from now on.
    pub(crate) fn take(&mut self) {
        self.watcher = Watcher::Thread;
    }

    // The thread of input and output is at work. It says whether 10 ms have passed.
    pub(crate) fn rise(&mut self, now: u64) -> bool {
        if !self.is_led() {
            self.watcher = Watcher::Nobody;
        }
        let passed = now.saturating_sub(self.ticked) / TURN;
        if passed == 0 {
            return false;
        }
        self.ticked = now;
        self.wished = self.wished.saturating_sub(1);
        self.unseen = self.unseen.saturating_add(passed);
        true
    }

    // Whether the sockets are left to callers. They are not if the thread of input and output
    // has to serve them: several callers waited at once lately, or a socket has no room for
    // what waits to be sent.
    pub(crate) fn is_left(&self, serves: bool) -> bool {
        self.is_led() || self.wished != 0 && !serves && !self.hears
    }
}
