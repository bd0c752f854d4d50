//! The runs of `get`, `put` and `monitor`: a client with one channel, over `ca_client_context`.
//! Begin at `done`, which is one `match` on what is asked; each waits first until the channel is
//! live.
use crate::monitor_listener::{MonitorListener, MonitorUpdates, new_monitor_listener};
use crate::printing::{print_done, print_value};
use crate::tool_line::{Task, ToolLine};
use crate::turns::{TURN, Turns};
use ca_arena::Handle;
use ca_board::Ticket;
use ca_client_context::{Context, Engine, Setting, Waited, start};
use ca_client_core::{Address, ChannelState};
use ca_dbr::{Outcome, Value};
use ca_link::{Sink, report};
use ca_text::{ChannelName, Mask, Refusal};
use std::alloc::Global;
use std::io::Write;
use std::net::{Net, SocketAddrV4, TcpListener, TcpStream};
use std::sync::Wait;
use std::thread;
use std::thread::Threads;
use std::time::{Clock, Duration};

// The mask of posts of values.
const VALUES: u16 = 1;

/// Reads, puts or monitors a channel: tells on the sink what came, and a refusal on `err`, and
/// returns the exit status.
///
/// A monitor's updates are heard by this listener, and printed as they come out of what belongs to
/// it; and if one was left out by a further pair, as `new_monitor_listener` makes it.
pub fn tool_run<
    R: Threads
        + Wait
        + Clock
        + Net<Stream = TcpStream, Listener = TcpListener>
        + Copy
        + Drop
        + Send
        + 'static,
    K: Sink,
    W: Write,
>(
    rt: R,
    alloc: Global,
    line: ToolLine<'_>,
    listener: (MonitorListener, MonitorUpdates),
    sink: &mut K,
    err: &mut W,
) -> u8 {
    let outcome = used(rt, alloc, line, listener, sink);
    report(outcome, err)
}

// The name is judged first, then sockets are made. The thread of input and output is joined.
fn used<
    R: Threads
        + Wait
        + Clock
        + Net<Stream = TcpStream, Listener = TcpListener>
        + Copy
        + Drop
        + Send
        + 'static,
    K: Sink,
>(
    rt: R,
    alloc: Global,
    line: ToolLine<'_>,
    listener: (MonitorListener, MonitorUpdates),
    sink: &mut K,
) -> Result<(), Refusal> {
    ChannelName::read(line.name.as_bytes())?;
    let setting = setting_of(alloc, line.server)?;
    let (context, engine) = Context::new(rt, alloc, setting)?;
    run_with_engine(rt, alloc, &context, engine, line, listener, sink)
}

fn run_with_engine<
    R: Threads
        + Wait
        + Clock
        + Net<Stream = TcpStream, Listener = TcpListener>
        + Copy
        + Drop
        + Send
        + 'static,
    K: Sink,
>(
    rt: R,
    alloc: Global,
    context: &Context<MonitorListener>,
    engine: Engine<R, MonitorListener>,
    line: ToolLine<'_>,
    listener: (MonitorListener, MonitorUpdates),
    sink: &mut K,
) -> Result<(), Refusal> {
    let thread = start(rt, engine)?;
    let outcome = done(&rt, alloc, context, line, listener, sink);
    context.end(&rt);
    thread.join(&rt);
    outcome
}

// A client that searches at one place.
fn setting_of(alloc: Global, server: SocketAddrV4) -> Result<Setting, Refusal> {
    Ok(Setting {
        user: Vec::from_slice(alloc, b"ca")?,
        host: Vec::from_slice(alloc, b"localhost")?,
        servers: vec![in alloc; address_of(server)]?,
        names: Vec::new(alloc),
        repeater: None,
    })
}

fn address_of(server: SocketAddrV4) -> Address {
    Address {
        host: server.ip().to_bits(),
        port: server.port(),
    }
}

// Refused as Disconnected if the turns are used up.
fn done<R: Wait + Clock, K: Sink>(
    rt: &R,
    alloc: Global,
    context: &Context<MonitorListener>,
    line: ToolLine<'_>,
    listener: (MonitorListener, MonitorUpdates),
    sink: &mut K,
) -> Result<(), Refusal> {
    let turns = Turns::new(rt, line.turns)?;
    let channel = context.open(rt, line.name.as_bytes(), 0)?;
    match line.task {
        Task::Get => get(rt, alloc, context, channel, line.name, &turns, sink),
        Task::Put(text) => put(rt, alloc, context, channel, text, line.name, &turns, sink),
        Task::Monitor(updates) => monitor(
            rt, alloc, context, channel, updates, line.name, listener, &turns, sink,
        ),
    }
}

// Waits until a channel is live, and reports its type and its greatest count.
fn live_at<R: Wait + Clock>(
    rt: &R,
    context: &Context<MonitorListener>,
    channel: Handle,
    turns: &Turns,
) -> Result<(u16, u32), Refusal> {
    match context.wait_live_for(rt, channel, turns.left(rt))? {
        ChannelState::Live(data_type, count, _) => Ok((data_type, count)),
        _ => Err(Refusal::Disconnected),
    }
}

fn get<R: Wait + Clock, K: Sink>(
    rt: &R,
    alloc: Global,
    context: &Context<MonitorListener>,
    channel: Handle,
    name: &str,
    turns: &Turns,
    sink: &mut K,
) -> Result<(), Refusal> {
    let (data_type, count) = live_at(rt, context, channel, turns)?;
    let ticket = context.get(rt, channel, data_type, count)?;
    let value = value_in(outcome_of(rt, context, ticket, turns)?)?;
    print_value(alloc, name, &value, sink)
}

fn put<R: Wait + Clock, K: Sink>(
    rt: &R,
    alloc: Global,
    context: &Context<MonitorListener>,
    channel: Handle,
    text: &str,
    name: &str,
    turns: &Turns,
    sink: &mut K,
) -> Result<(), Refusal> {
    live_at(rt, context, channel, turns)?;
    let value = text_value(alloc, text)?;
    let ticket = context.put_notify(rt, channel, value)?;
    is_done(outcome_of(rt, context, ticket, turns)?)?;
    print_done(alloc, name, sink)
}

// Waits for the outcome of a ticket: none if the turns are used up.
fn outcome_of<R: Wait + Clock>(
    rt: &R,
    context: &Context<MonitorListener>,
    ticket: Ticket,
    turns: &Turns,
) -> Result<Option<Outcome>, Refusal> {
    let mut caller = context.caller(rt)?;
    match context.wait_for(rt, &mut caller, ticket, turns.left(rt)) {
        Waited::Outcome(outcome) => Ok(Some(outcome)),
        _ => Ok(None),
    }
}

// Prints n updates. If one was left out, the channel is subscribed to again once all others were
// printed: that brings the newest value.
fn monitor<R: Wait + Clock, K: Sink>(
    rt: &R,
    alloc: Global,
    context: &Context<MonitorListener>,
    channel: Handle,
    updates: u64,
    name: &str,
    listener: (MonitorListener, MonitorUpdates),
    turns: &Turns,
    sink: &mut K,
) -> Result<(), Refusal> {
    let mut left = updates;
    let mut pair = listener;
    for _ in 0..u64::MAX {
        let (listener, mut heard) = pair;
        let subscription = subscribe(rt, context, channel, listener, turns)?;
        left = print_updates(rt, alloc, &mut heard, left, name, turns, sink)?;
        if left == 0 {
            break;
        }
        context.unsubscribe(rt, subscription)?;
        pair = new_monitor_listener(alloc)?;
    }
    Ok(())
}

// Has the listener hear changes of the value, once the channel is live. Refused as Disconnected if
// the turns are used up.
fn subscribe<R: Wait + Clock>(
    rt: &R,
    context: &Context<MonitorListener>,
    channel: Handle,
    listener: MonitorListener,
    turns: &Turns,
) -> Result<Handle, Refusal> {
    // It is none only without an event.
    let Some(mask) = Mask::new(VALUES) else {
        return Err(Refusal::BadEvent);
    };
    let mut listener = listener;
    for _ in 0..u64::MAX {
        let (data_type, count) = live_at(rt, context, channel, turns)?;
        match context.monitor(rt, channel, data_type, count, mask, listener) {
            Ok(subscription) => return Ok(subscription),
            // The circuit ended meanwhile.
            Err((back, Refusal::NotLive)) => listener = back,
            Err((_, refusal)) => return Err(refusal),
        }
    }
    Err(Refusal::Disconnected)
}

// Prints n updates, or as many as there are if one was left out: how many are left to print.
fn print_updates<R: Clock, K: Sink>(
    rt: &R,
    alloc: Global,
    heard: &mut MonitorUpdates,
    updates: u64,
    name: &str,
    turns: &Turns,
    sink: &mut K,
) -> Result<u64, Refusal> {
    for printed in 0..updates {
        let Some(update) = next_update(rt, heard, turns)? else {
            return Ok(updates - printed);
        };
        print_value(alloc, name, &value_in(Some(update))?, sink)?;
    }
    Ok(0)
}

// Waits for an update: none if one was left out and no other waits. Refused as Disconnected if
// the turns are used up.
fn next_update<R: Clock>(
    rt: &R,
    heard: &mut MonitorUpdates,
    turns: &Turns,
) -> Result<Option<Outcome>, Refusal> {
    for _ in 0..u64::MAX {
        if let Some(outcome) = heard.next() {
            return Ok(Some(outcome));
        }
        if heard.has_missed() {
            return Ok(None);
        }
        if turns.left(rt) == Duration::ZERO {
            break;
        }
        thread::sleep(rt, Duration::from_millis(TURN));
    }
    Err(Refusal::Disconnected)
}

// The text as a STRING: of zeros after its bytes, of which there are 40 at most.
fn text_value(alloc: Global, text: &str) -> Result<Value, Refusal> {
    let mut bytes = [0u8; 40];
    for (place, byte) in bytes.iter_mut().zip(text.as_bytes()) {
        *place = *byte;
    }
    Ok(Value::Strings(vec![in alloc; bytes]?))
}

// The value that an outcome has.
fn value_in(outcome: Option<Outcome>) -> Result<Value, Refusal> {
    match outcome {
        Some(Outcome::Value(value, _)) => Ok(value),
        Some(Outcome::Displayed(value, _, _)) => Ok(value),
        Some(Outcome::Failed(status)) => Err(Refusal::ServerRefused(status)),
        Some(Outcome::Unreadable(refusal)) => Err(refusal),
        Some(Outcome::Done) => Err(Refusal::Disconnected),
        Some(Outcome::Disconnected) => Err(Refusal::Disconnected),
        None => Err(Refusal::Disconnected),
    }
}

// Whether an outcome says that a put is done.
fn is_done(outcome: Option<Outcome>) -> Result<(), Refusal> {
    match outcome {
        Some(Outcome::Done) => Ok(()),
        other => match value_in(other) {
            Ok(_) => Err(Refusal::Disconnected),
            Err(refusal) => Err(refusal),
        },
    }
}
