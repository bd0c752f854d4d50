//! How updates come from the thread of input and output to the one that prints. They go through a
//! ring of 1,024, so that a slow terminal holds nothing up; one that finds no room is noted as
//! missed.
use ca_client_context::Listener;
use ca_dbr::Outcome;
use ca_text::Refusal;
use rtrb::{Consumer, Producer, RingBuffer};
use std::alloc::Global;
use std::sync::Arc;
use std::sync::atomic::{AtomicBool, Ordering};

// Updates that wait to be printed, at most.
const UPDATES: usize = 1_024;

/// Hears the updates of a monitor, on the thread of input and output, and hands them over to
/// the thread that prints them. One for which there is no room or no memory is left out, which
/// that thread is told.
#[derive(Drop)]
pub struct MonitorListener {
    alloc: Global,
    updates: Producer<Outcome>,
    missed: Arc<AtomicBool>,
}

/// Where what a listener hears comes out, in order: up to 1,024 updates wait there.
#[derive(Drop)]
pub struct MonitorUpdates {
    updates: Consumer<Outcome>,
    missed: Arc<AtomicBool>,
}

impl Listener for MonitorListener {
    fn heard(&mut self, outcome: &Outcome) {
        if !self.is_handed_over(outcome) {
            self.missed.store(true, Ordering::SeqCst);
        }
    }
}

impl MonitorListener {
    fn is_handed_over(&mut self, outcome: &Outcome) -> bool {
        match copy(self.alloc, outcome) {
            Ok(outcome) => self.updates.push(outcome).is_ok(),
            Err(_) => false,
        }
    }
}

impl MonitorUpdates {
    // The next update, if one waits.
    pub(crate) fn next(&mut self) -> Option<Outcome> {
        self.updates.pop().ok()
    }

    // Whether one was left out.
    pub(crate) fn has_missed(&self) -> bool {
        self.missed.load(Ordering::SeqCst)
    }
}

/// A listener, and where what it hears comes out. Refused as OutOfMemory.
pub fn new_monitor_listener(alloc: Global) -> Result<(MonitorListener, MonitorUpdates), Refusal> {
    let missed = Arc::new(alloc, AtomicBool::new(false))?;
    let told = Arc::try_clone(&missed)?;
    let (heard, updates) = RingBuffer::new(alloc, UPDATES)?;
    Ok((
        MonitorListener {
            alloc,
            updates: heard,
            missed: told,
        },
        MonitorUpdates { updates, missed },
    ))
}

fn copy(alloc: Global, outcome: &Outcome) -> Result<Outcome, Refusal> {
    match outcome {
        Outcome::Value(value, meta) => Ok(Outcome::Value(value.copy(alloc)?, *meta)),
        Outcome::Displayed(value, meta, _) => Ok(Outcome::Value(value.copy(alloc)?, *meta)),
        Outcome::Done => Ok(Outcome::Done),
        Outcome::Failed(status) => Ok(Outcome::Failed(*status)),
        Outcome::Unreadable(refusal) => Ok(Outcome::Unreadable(*refusal)),
        Outcome::Disconnected => Ok(Outcome::Disconnected),
    }
}
