//! A client whose callers are four threads. All 1,024 tickets are outstanding at once, 256
//! for each caller: one request more is refused, and each caller collects the outcomes of
//! its own tickets, once.

use crate::client::setting;
use crate::server::{bound, start_server};
use crate::tell;
use ca_arena::Handle;
use ca_board::Ticket;
use ca_client::Caller;
use ca_client_context::{Context, Nobody, Work, start};
use ca_dbr::{Outcome, Value};
use ca_records::Records;
use ca_script::RecordFile;
use ca_text::Refusal;
use std::alloc::Global;
use std::io::Write;
use std::net::{Net, TcpListener, TcpStream};
use std::sync::atomic::{AtomicU64, Ordering};
use std::sync::{Arc, Wait};
use std::thread::{JoinHandle, Threads};
use std::time::Clock;

/// Waits for at most this many turns, which is long on an idle machine.
const TURNS: u64 = 100_000;

/// The tickets of a caller.
const EACH: u32 = 256;

/// The server ends when the client's circuit is closed.
pub(crate) fn show<
    R: Threads
        + Wait
        + Clock
        + Net<Stream = TcpStream, Listener = TcpListener>
        + Copy
        + Drop
        + Send
        + 'static,
    W: Write,
>(rt: R, alloc: Global, out: &mut W) -> Result<(), Refusal> {
    let file = records(alloc)?;
    let (places, address) = bound(&rt)?;
    let server = start_server(rt, alloc, places, file, 1)?;
    let talked = use_client(rt, alloc, address.port(), out);
    let served = server.join(&rt);
    talked?;
    served?;
    Ok(())
}

fn use_client<
    R: Threads
        + Wait
        + Clock
        + Net<Stream = TcpStream, Listener = TcpListener>
        + Copy
        + Drop
        + Send
        + 'static,
    W: Write,
>(rt: R, alloc: Global, port: u16, out: &mut W) -> Result<(), Refusal> {
    let (context, engine) = Context::new(rt, alloc, setting(alloc, port)?)?;
    let context = Arc::new(alloc, context)?;
    let thread = start(rt, engine)?;
    let talked = talk(rt, alloc, &context, out);
    context.end(&rt);
    thread.join(&rt);
    talked
}

/// The record WAVE, of as many LONGs as there are tickets.
fn records(alloc: Global) -> Result<RecordFile, Refusal> {
    let mut records = Records::new(alloc);
    if !records.has(b"WAVE") {
        let wave = Value::Longs(vec![in alloc; 7; 1_024]?);
        records.define(b"WAVE", 1_024, false, wave)?;
    }
    Ok(RecordFile {
        records,
        rules: Vec::new(alloc),
    })
}

/// Uses up the tickets, has four callers collect them, and asks again.
fn talk<R: Threads + Wait + Clock + Copy + Send + 'static, W: Write>(
    rt: R,
    alloc: Global,
    context: &Arc<Context<Nobody>>,
    out: &mut W,
) -> Result<(), Refusal> {
    let wave = context.open(&rt, b"WAVE", 0)?;
    if !context.wait_live(&rt, wave, TURNS) {
        return Err(Refusal::NotLive);
    }
    let right = Arc::new(alloc, AtomicU64::new(0))?;
    let parts = all_parts(&rt, alloc, context, wave, &right)?;
    one_more(&rt, context, wave, out)?;
    collected(rt, alloc, parts)?;
    tell(out, "collected", right.load(Ordering::SeqCst))?;
    one_more(&rt, context, wave, out)
}

/// What becomes of one request more.
fn one_more<R: Wait, W: Write>(
    rt: &R,
    context: &Context<Nobody>,
    wave: Handle,
    out: &mut W,
) -> Result<(), Refusal> {
    let said = match context.get(rt, wave, 5, 1) {
        Ok(_) => writeln!(out, "one more: accepted"),
        Err(refusal) => writeln!(out, "one more: refused {refusal}"),
    };
    match said {
        Ok(()) => Ok(()),
        Err(_) => Err(Refusal::Device),
    }
}

/// A caller with its tickets: the first asked for `first` elements, the next for
/// one more, and so on.
#[derive(Drop)]
struct Part {
    context: Arc<Context<Nobody>>,
    caller: Caller,
    tickets: Vec<Ticket>,
    first: u32,
    // How many outcomes were what their ticket asked for, and there once.
    right: Arc<AtomicU64>,
}

/// Four callers, with 256 tickets each.
fn all_parts<R: Wait + Clock>(
    rt: &R,
    alloc: Global,
    context: &Arc<Context<Nobody>>,
    wave: Handle,
    right: &Arc<AtomicU64>,
) -> Result<Vec<Part>, Refusal> {
    let mut parts = Vec::new(alloc);
    for first in [1u32, 257, 513, 769] {
        parts.push(make_part(rt, alloc, context, wave, first, right)?)?;
    }
    Ok(parts)
}

fn make_part<R: Wait + Clock>(
    rt: &R,
    alloc: Global,
    context: &Arc<Context<Nobody>>,
    wave: Handle,
    first: u32,
    right: &Arc<AtomicU64>,
) -> Result<Part, Refusal> {
    Ok(Part {
        context: Arc::try_clone(context)?,
        caller: context.caller(rt)?,
        tickets: asked(rt, alloc, context, wave, first)?,
        first,
        right: Arc::try_clone(right)?,
    })
}

/// Reads of n elements, of one more, and so on.
fn asked<R: Wait + Clock>(
    rt: &R,
    alloc: Global,
    context: &Context<Nobody>,
    wave: Handle,
    first: u32,
) -> Result<Vec<Ticket>, Refusal> {
    let mut tickets = Vec::new(alloc);
    for place in 0..EACH {
        tickets.push(context.get(rt, wave, 5, first.saturating_add(place))?)?;
    }
    Ok(tickets)
}

/// Starts a thread for each caller, and waits for all.
fn collected<R: Threads + Wait + Clock + Copy + Send + 'static>(
    rt: R,
    alloc: Global,
    parts: Vec<Part>,
) -> Result<(), Refusal> {
    let mut threads: Vec<JoinHandle<()>> = Vec::new(alloc);
    for part in parts {
        threads.push(start(rt, part)?)?;
    }
    for thread in threads {
        thread.join(&rt);
    }
    Ok(())
}

impl Work for Part {
    fn run<R: Wait + Clock>(self, rt: &R) {
        let Part {
            context,
            mut caller,
            tickets,
            first,
            right,
        } = self;
        let mut wanted = first as usize;
        for ticket in tickets {
            if is_right(rt, &context, &mut caller, ticket, wanted) {
                right.fetch_add(1, Ordering::SeqCst);
            }
            wanted = wanted.saturating_add(1);
        }
    }
}

/// Whether a ticket's outcome has n elements, and is there once.
fn is_right<R: Wait + Clock>(
    rt: &R,
    context: &Context<Nobody>,
    caller: &mut Caller,
    ticket: Ticket,
    wanted: usize,
) -> bool {
    let outcome = context.wait(rt, caller, ticket, TURNS);
    longs_in(&outcome) == wanted && context.collect(caller, ticket).is_none()
}

/// How many LONGs an outcome has: none if it is no value.
fn longs_in(outcome: &Option<Outcome>) -> usize {
    match outcome {
        Some(Outcome::Value(Value::Longs(longs), _)) => longs.len(),
        _ => 0,
    }
}
