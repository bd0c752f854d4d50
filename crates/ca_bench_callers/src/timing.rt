//! Reads by callers in threads, timed.

use ca_arena::Handle;
use ca_board::Ticket;
use ca_client::Caller;
use ca_client_context::{Context, Nobody, Work, start};
use ca_dbr::{Outcome, Value};
use ca_text::Refusal;
use std::alloc::Global;
use std::io::Write;
use std::sync::atomic::{AtomicU64, Ordering};
use std::sync::{Arc, Wait};
use std::thread::{JoinHandle, Threads};
use std::time::{Clock, Instant};

/// Waits for at most this many turns.
const TURNS: u64 = 1_000_000;

/// What is measured: at this port, by this many callers, with this many reads of TEMP each and this
/// many outstanding at each.
#[derive(Clone, Copy)]
pub(crate) struct Measurement {
    pub(crate) port: u16,
    pub(crate) callers: u64,
    pub(crate) reads: u64,
    pub(crate) window: usize,
}

/// What the words ask for, if they ask for it.
pub(crate) fn read_words(words: &[String]) -> Option<Measurement> {
    let [port, callers, reads, window] = words else {
        return None;
    };
    Some(Measurement {
        port: port.as_str().parse::<u16>().ok()?,
        callers: callers.as_str().parse::<u64>().ok()?,
        reads: reads.as_str().parse::<u64>().ok()?,
        window: usize::from(window.as_str().parse::<u16>().ok()?),
    })
}

/// The microseconds from when the channel is live until all callers have read.
pub(crate) fn took<R: Threads + Wait + Clock + Copy + Send + 'static>(
    rt: R,
    alloc: Global,
    context: &Arc<Context<Nobody>>,
    course: Measurement,
) -> Result<u128, Refusal> {
    let channel = context.open(&rt, b"TEMP", 0)?;
    if !context.wait_live(&rt, channel, TURNS) {
        return Err(Refusal::NotLive);
    }
    let read = Arc::new(alloc, AtomicU64::new(0))?;
    let Ok(began) = Instant::now(&rt) else {
        return Err(Refusal::Device);
    };
    let threads = start_all(rt, alloc, context, channel, course, &read)?;
    for thread in threads {
        thread.join(&rt);
    }
    let Ok(took) = began.elapsed(&rt) else {
        return Err(Refusal::Device);
    };
    if read.load(Ordering::SeqCst) != course.reads.saturating_mul(course.callers) {
        return Err(Refusal::Disconnected);
    }
    Ok(took.as_micros())
}

fn start_all<R: Threads + Wait + Clock + Copy + Send + 'static>(
    rt: R,
    alloc: Global,
    context: &Arc<Context<Nobody>>,
    channel: Handle,
    course: Measurement,
    read: &Arc<AtomicU64>,
) -> Result<Vec<JoinHandle<()>>, Refusal> {
    let mut threads = Vec::new(alloc);
    for _ in 0..course.callers {
        let reader = TimedCaller {
            alloc,
            context: Arc::try_clone(context)?,
            channel,
            reads: course.reads,
            window: course.window,
            read: Arc::try_clone(read)?,
        };
        threads.push(start(rt, reader)?)?;
    }
    Ok(threads)
}

/// A caller, with its part of the reads.
#[derive(Drop)]
struct TimedCaller {
    alloc: Global,
    context: Arc<Context<Nobody>>,
    channel: Handle,
    reads: u64,
    window: usize,
    read: Arc<AtomicU64>,
}

impl Work for TimedCaller {
    fn run<R: Wait + Clock>(self, rt: &R) {
        let reads = self.reads;
        if read_all(rt, &self).is_ok() {
            self.read.fetch_add(reads, Ordering::SeqCst);
        }
    }
}

// This many reads, of which a window's are outstanding at once.
fn read_all<R: Wait + Clock>(rt: &R, reader: &TimedCaller) -> Result<(), Refusal> {
    let mut caller = reader.context.caller(rt)?;
    let mut tickets = Vec::new(reader.alloc);
    tickets.reserve(reader.window)?;
    let mut rooms = Vec::new(reader.alloc);
    rooms.reserve(reader.window)?;
    for _ in 0..reader.reads {
        let ticket = match rooms.pop() {
            Some(room) => reader.context.get_into(rt, reader.channel, 5, 1, room)?,
            None => reader.context.get(rt, reader.channel, 5, 1)?,
        };
        tickets.push(ticket)?;
        if tickets.len() >= reader.window {
            collect_all(rt, &reader.context, &mut caller, &mut tickets, &mut rooms)?;
        }
    }
    collect_all(rt, &reader.context, &mut caller, &mut tickets, &mut rooms)
}

fn collect_all<R: Wait + Clock>(
    rt: &R,
    context: &Context<Nobody>,
    caller: &mut Caller,
    tickets: &mut Vec<Ticket>,
    rooms: &mut Vec<Value>,
) -> Result<(), Refusal> {
    for index in 0..tickets.len() {
        match context.wait(rt, caller, tickets[index], TURNS) {
            Some(Outcome::Value(value, _)) => rooms.push(value)?,
            _ => return Err(Refusal::Disconnected),
        }
    }
    tickets.clear();
    Ok(())
}
