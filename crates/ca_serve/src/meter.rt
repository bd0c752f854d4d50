//! What a server counts, for a program that looks while it runs.

use std::alloc::{AllocError, Global};
use std::sync::Arc;
use std::sync::atomic::{AtomicU64, Ordering};

/// What a server did so far, and what it has.
#[derive(Clone, Copy, Debug, PartialEq, Eq)]
pub struct Stats {
    /// Circuits that are open.
    pub circuits: u64,
    /// Channels that are open, on all circuits.
    pub channels: u64,
    /// Searches that were answered by its port, by datagram and on circuits.
    pub searches: u64,
    /// Reads that were answered by a value.
    pub reads: u64,
    /// Writes that were applied.
    pub writes: u64,
    /// Updates of subscriptions that were handed to a circuit's socket, the first of each too.
    pub updates: u64,
    /// Channels, reads, writes and subscriptions that were refused, each by its reply.
    pub refused: u64,
    /// Connections that were closed at once, since there was no room for them.
    pub closed: u64,
}

/// Where a server counts. Its holders see the same numbers.
#[derive(Drop)]
pub struct Meter {
    numbers: Arc<Numbers>,
}

/// Replies that went to a socket.
#[derive(Clone, Copy)]
pub(crate) struct Replies {
    pub(crate) created: u64,
    pub(crate) cleared: u64,
    pub(crate) searches: u64,
    pub(crate) reads: u64,
    pub(crate) updates: u64,
    pub(crate) refused: u64,
}

impl Replies {
    pub(crate) const NONE: Replies = Replies {
        created: 0,
        cleared: 0,
        searches: 0,
        reads: 0,
        updates: 0,
        refused: 0,
    };
}

// Each number is written alone, so that nobody waits for one that looks.
#[derive(Drop)]
struct Numbers {
    circuits: AtomicU64,
    channels: AtomicU64,
    searches: AtomicU64,
    reads: AtomicU64,
    writes: AtomicU64,
    updates: AtomicU64,
    refused: AtomicU64,
    closed: AtomicU64,
}

impl Meter {
    /// Nothing is counted yet.
    pub fn new(alloc: Global) -> Result<Meter, AllocError> {
        let numbers = Numbers {
            circuits: AtomicU64::new(0),
            channels: AtomicU64::new(0),
            searches: AtomicU64::new(0),
            reads: AtomicU64::new(0),
            writes: AtomicU64::new(0),
            updates: AtomicU64::new(0),
            refused: AtomicU64::new(0),
            closed: AtomicU64::new(0),
        };
        Ok(Meter {
            numbers: Arc::new(alloc, numbers)?,
        })
    }

    /// Another holder, as for the server.
    pub fn share(&self) -> Result<Meter, AllocError> {
        Ok(Meter {
            numbers: Arc::try_clone(&self.numbers)?,
        })
    }

    /// The numbers as they are. Each is exact; one may be of a later moment than another.
    pub fn stats(&self) -> Stats {
        let numbers = &self.numbers;
        Stats {
            circuits: numbers.circuits.load(Ordering::Relaxed),
            channels: numbers.channels.load(Ordering::Relaxed),
            searches: numbers.searches.load(Ordering::Relaxed),
            reads: numbers.reads.load(Ordering::Relaxed),
            writes: numbers.writes.load(Ordering::Relaxed),
            updates: numbers.updates.load(Ordering::Relaxed),
            refused: numbers.refused.load(Ordering::Relaxed),
            closed: numbers.closed.load(Ordering::Relaxed),
        }
    }
}

impl Meter {
    /// A circuit is open from now on, or no more.
    pub(crate) fn note_circuit(&self, is_open: bool) {
        if is_open {
            self.numbers.circuits.fetch_add(1, Ordering::Relaxed);
        } else {
            self.numbers.circuits.fetch_sub(1, Ordering::Relaxed);
        }
    }

    /// A connection was closed at once.
    pub(crate) fn note_closed(&self) {
        self.numbers.closed.fetch_add(1, Ordering::Relaxed);
    }

    /// These replies went to a socket.
    pub(crate) fn add(&self, replies: &Replies) {
        let numbers = &self.numbers;
        add(&numbers.channels, replies.created);
        add(&numbers.searches, replies.searches);
        add(&numbers.reads, replies.reads);
        add(&numbers.updates, replies.updates);
        add(&numbers.refused, replies.refused);
        if replies.cleared != 0 {
            numbers
                .channels
                .fetch_sub(replies.cleared, Ordering::Relaxed);
        }
    }

    /// So many writes were applied so far. Whoever has the server's lock says so.
    pub(crate) fn note_writes(&self, applied: u64) {
        self.numbers.writes.store(applied, Ordering::Relaxed);
    }
}

// What stays as it is is not touched, since other threads write it too.
fn add(number: &AtomicU64, more: u64) {
    if more != 0 {
        number.fetch_add(more, Ordering::Relaxed);
    }
}
