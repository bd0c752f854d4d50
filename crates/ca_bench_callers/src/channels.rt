//! Many channels of one client: opened until all are live, read once each, and subscribed to until
//! each has its first update.

use ca_arena::Handle;
use ca_board::Ticket;
use ca_client_context::{Context, Listener};
use ca_dbr::Outcome;
use ca_text::{Mask, Refusal};
use std::alloc::Global;
use std::io::Write;
use std::sync::atomic::{AtomicU64, Ordering};
use std::sync::{Arc, Wait};
use std::thread;
use std::time::{Clock, Duration, Instant};

// Waits for at most this many turns.
const TURNS: u64 = 1_000_000;

// Reads that are outstanding at once.
const WINDOW: usize = 512;

// Looks for updates at most this often, a millisecond apart.
const LOOKS: u64 = 600_000;

/// n channels of the server at this port, over this many circuits: with 0 over as few as there may
/// be for a subscription on each channel.
#[derive(Clone, Copy)]
pub(crate) struct Crowd {
    pub(crate) port: u16,
    pub(crate) channels: u64,
    pub(crate) circuits: u16,
}

/// The microseconds until all are live, then until all were read, and then until each has heard
/// its first update.
#[derive(Clone, Copy)]
pub(crate) struct Took {
    pub(crate) live: u128,
    pub(crate) read: u128,
    pub(crate) heard: u128,
}

/// Counts the updates that are heard.
#[derive(Drop)]
pub(crate) struct Counter {
    heard: Arc<AtomicU64>,
}

impl Listener for Counter {
    fn heard(&mut self, outcome: &Outcome) {
        if let Outcome::Value(_, _) = outcome {
            self.heard.fetch_add(1, Ordering::SeqCst);
        }
    }
}

/// What the words ask for, if they ask for it.
pub(crate) fn read_words(words: &[String]) -> Option<Crowd> {
    let [word, port, channels, circuits] = words else {
        return None;
    };
    if word.as_str() != "channels" {
        return None;
    }
    Some(Crowd {
        port: port.as_str().parse::<u16>().ok()?,
        channels: channels.as_str().parse::<u64>().ok()?,
        circuits: circuits.as_str().parse::<u16>().ok()?,
    })
}

pub(crate) fn took<R: Wait + Clock>(
    rt: &R,
    alloc: Global,
    context: &Context<Counter>,
    crowd: Crowd,
) -> Result<Took, Refusal> {
    let Ok(began) = Instant::now(rt) else {
        return Err(Refusal::Device);
    };
    let channels = open_all(rt, alloc, context, crowd)?;
    let live = since(rt, began)?;
    read_all(rt, alloc, context, &channels)?;
    let read = since(rt, began)?;
    hear_all(rt, alloc, context, &channels)?;
    let heard = since(rt, began)?;
    Ok(Took {
        live,
        read: read.saturating_sub(live),
        heard: heard.saturating_sub(read),
    })
}

// The microseconds since then.
fn since<R: Clock>(rt: &R, began: Instant) -> Result<u128, Refusal> {
    match began.elapsed(rt) {
        Ok(time) => Ok(time.as_micros()),
        Err(_) => Err(Refusal::Device),
    }
}

// The channels, each named R and its number, once all are live.
fn open_all<R: Wait + Clock>(
    rt: &R,
    alloc: Global,
    context: &Context<Counter>,
    crowd: Crowd,
) -> Result<Vec<Handle>, Refusal> {
    let mut channels = Vec::new(alloc);
    let mut priority = 0u16;
    for number in 0..crowd.channels {
        let mut name = Vec::new(alloc);
        if write!(name, "R{number}").is_err() {
            return Err(Refusal::OutOfMemory);
        }
        if crowd.circuits == 0 {
            channels.push(context.open_spread(rt, &name)?)?;
        } else {
            channels.push(context.open(rt, &name, priority)?)?;
            priority = priority.wrapping_add(1);
            if priority >= crowd.circuits {
                priority = 0;
            }
        }
    }
    for channel in &channels {
        if !context.wait_live(rt, *channel, TURNS) {
            return Err(Refusal::NotLive);
        }
    }
    Ok(channels)
}

fn read_all<R: Wait + Clock>(
    rt: &R,
    alloc: Global,
    context: &Context<Counter>,
    channels: &[Handle],
) -> Result<(), Refusal> {
    let mut caller = context.caller(rt)?;
    let mut tickets: Vec<Ticket> = Vec::new(alloc);
    for some in channels.chunks(WINDOW) {
        for channel in some {
            tickets.push(context.get(rt, *channel, 5, 1)?)?;
        }
        for ticket in &tickets {
            let Some(Outcome::Value(_, _)) = context.wait(rt, &mut caller, *ticket, TURNS) else {
                return Err(Refusal::Disconnected);
            };
        }
        tickets.clear();
    }
    Ok(())
}

fn hear_all<R: Wait + Clock>(
    rt: &R,
    alloc: Global,
    context: &Context<Counter>,
    channels: &[Handle],
) -> Result<(), Refusal> {
    let heard = Arc::new(alloc, AtomicU64::new(0))?;
    let Some(mask) = Mask::new(1) else {
        return Err(Refusal::BadText);
    };
    for channel in channels {
        let listener = Counter {
            heard: Arc::try_clone(&heard)?,
        };
        if let Err((_, refusal)) = context.monitor(rt, *channel, 5, 1, mask, listener) {
            return Err(refusal);
        }
    }
    for _ in 0..LOOKS {
        if heard.load(Ordering::SeqCst) >= channels.len() as u64 {
            return Ok(());
        }
        thread::sleep(rt, Duration::from_millis(1));
    }
    Err(Refusal::Disconnected)
}
