//! Listeners that take their time. One waits for a reply, which its own thread would read: its
//! wait ends, and hangs no other caller. Another takes three seconds, and holds up no call
//! that waits for nobody.

use crate::client::setting;
use crate::moments::{began, is_within};
use crate::say_yes;
use crate::server::{bound, start_server};
use ca_arena::Handle;
use ca_client::Caller;
use ca_client_context::{Context, Listener, start};
use ca_dbr::{Outcome, Value};
use ca_script::read_records;
use ca_text::{Mask, Refusal};
use std::alloc::Global;
use std::io::Write;
use std::net::{Net, TcpListener, TcpStream};
use std::sync::atomic::{AtomicU64, Ordering};
use std::sync::{Arc, Wait};
use std::thread;
use std::thread::Threads;
use std::time::{Clock, Duration};

/// Waits for at most this many turns, which is long on an idle machine.
const TURNS: u64 = 2_000;

/// A listener that waits for a read, in the thread that would read its reply.
#[derive(Drop)]
struct ReadingListener<R: Wait + Clock + Drop> {
    rt: R,
    context: Arc<Context<ReadingListener<R>>>,
    channel: Handle,
    caller: Caller,
    // 1 if the wait ended with nothing, and 2 if with something.
    ended: Arc<AtomicU64>,
}

impl<R: Wait + Clock + Drop> Listener for ReadingListener<R> {
    fn heard(&mut self, _outcome: &Outcome) {
        let Ok(ticket) = self.context.get(&self.rt, self.channel, 5, 1) else {
            return;
        };
        let outcome = self.context.wait(&self.rt, &mut self.caller, ticket, 20);
        let ended = if outcome.is_none() { 1 } else { 2 };
        self.ended.store(ended, Ordering::SeqCst);
    }
}

/// A listener that takes three seconds.
#[derive(Drop)]
struct Sleeping<R: Clock + Drop> {
    rt: R,
    // 1 while it takes its time, and 2 after that.
    stage: Arc<AtomicU64>,
}

impl<R: Clock + Drop> Listener for Sleeping<R> {
    fn heard(&mut self, _outcome: &Outcome) {
        self.stage.store(1, Ordering::SeqCst);
        thread::sleep(&self.rt, Duration::from_millis(3_000));
        self.stage.store(2, Ordering::SeqCst);
    }
}

pub(crate) fn show<
    R: Threads
        + Wait
        + Clock
        + Net<Stream = TcpStream, Listener = TcpListener>
        + Copy
        + Drop
        + Send
        + Sync
        + 'static,
    W: Write,
>(rt: R, alloc: Global, out: &mut W) -> Result<(), Refusal> {
    let file = read_records(alloc, b"record TEMP LONG 1 quick 21\n")?;
    let (places, address) = bound(&rt)?;
    let server = start_server(rt, alloc, places, file, 2)?;
    let waited = show_waiting(rt, alloc, address.port(), out);
    let slept = show_sleeping(rt, alloc, address.port(), out);
    let served = server.join(&rt);
    waited?;
    slept?;
    served?;
    Ok(())
}

fn show_waiting<
    R: Threads
        + Wait
        + Clock
        + Net<Stream = TcpStream, Listener = TcpListener>
        + Copy
        + Drop
        + Send
        + Sync
        + 'static,
    W: Write,
>(rt: R, alloc: Global, port: u16, out: &mut W) -> Result<(), Refusal> {
    let (context, engine) = Context::<ReadingListener<R>>::new(rt, alloc, setting(alloc, port)?)?;
    let context = Arc::new(alloc, context)?;
    let thread = start(rt, engine)?;
    let shown = wait_in_listener(rt, alloc, &context, out);
    context.end(&rt);
    thread.join(&rt);
    shown
}

fn show_sleeping<
    R: Threads
        + Wait
        + Clock
        + Net<Stream = TcpStream, Listener = TcpListener>
        + Copy
        + Drop
        + Send
        + Sync
        + 'static,
    W: Write,
>(rt: R, alloc: Global, port: u16, out: &mut W) -> Result<(), Refusal> {
    let (context, engine) = Context::<Sleeping<R>>::new(rt, alloc, setting(alloc, port)?)?;
    let thread = start(rt, engine)?;
    let shown = call_during_listener(rt, alloc, &context, out);
    context.end(&rt);
    thread.join(&rt);
    shown
}

/// Calls that wait for nobody, while a listener takes its time.
fn call_during_listener<R: Wait + Clock + Copy + Drop, W: Write>(
    rt: R,
    alloc: Global,
    context: &Context<Sleeping<R>>,
    out: &mut W,
) -> Result<(), Refusal> {
    let channel = context.open(&rt, b"TEMP", 0)?;
    if !context.wait_live(&rt, channel, TURNS) {
        return Err(Refusal::NotLive);
    }
    let stage = Arc::new(alloc, AtomicU64::new(0))?;
    let listener = Sleeping {
        rt,
        stage: Arc::try_clone(&stage)?,
    };
    let Some(mask) = Mask::new(1) else {
        return Err(Refusal::BadEvent);
    };
    let Ok(_) = context.monitor(&rt, channel, 5, 1, mask, listener) else {
        return Err(Refusal::Device);
    };
    for _ in 0..TURNS {
        if stage.load(Ordering::SeqCst) != 0 {
            break;
        }
        thread::sleep(&rt, Duration::from_millis(1));
    }
    let began = began(&rt)?;
    let mut caller = context.caller(&rt)?;
    let state = context.channel_state(&rt, channel);
    let ticket = context.get(&rt, channel, 5, 1)?;
    let _ = context.collect(&mut caller, ticket);
    let is_soon = is_within(&rt, &began, 2_000) && stage.load(Ordering::SeqCst) == 1;
    say_yes(
        out,
        "calls return while a listener takes its time:",
        state.is_ok() && is_soon,
    )?;
    let outcome = context.wait(&rt, &mut caller, ticket, TURNS);
    say_yes(out, "and what they asked comes after it:", is_21(&outcome))
}

/// A read by another caller while a listener waits.
fn wait_in_listener<R: Wait + Clock + Copy + Drop, W: Write>(
    rt: R,
    alloc: Global,
    context: &Arc<Context<ReadingListener<R>>>,
    out: &mut W,
) -> Result<(), Refusal> {
    let channel = context.open(&rt, b"TEMP", 0)?;
    if !context.wait_live(&rt, channel, TURNS) {
        return Err(Refusal::NotLive);
    }
    let ended = Arc::new(alloc, AtomicU64::new(0))?;
    let listener = ReadingListener {
        rt,
        context: Arc::try_clone(context)?,
        channel,
        caller: context.caller(&rt)?,
        ended: Arc::try_clone(&ended)?,
    };
    let Some(mask) = Mask::new(1) else {
        return Err(Refusal::BadEvent);
    };
    let Ok(_) = context.monitor(&rt, channel, 5, 1, mask, listener) else {
        return Err(Refusal::Device);
    };
    let mut caller = context.caller(&rt)?;
    let ticket = context.get(&rt, channel, 5, 1)?;
    let outcome = context.wait(&rt, &mut caller, ticket, TURNS);
    say_yes(
        out,
        "a caller reads beside a listener that waits:",
        is_21(&outcome),
    )?;
    // The caller's outcome may be there before the listener begins to wait.
    for _ in 0..TURNS {
        if ended.load(Ordering::SeqCst) != 0 {
            break;
        }
        thread::sleep(&rt, Duration::from_millis(10));
    }
    let is_ended = ended.load(Ordering::SeqCst) == 1;
    say_yes(
        out,
        "the wait of the listener ended with nothing:",
        is_ended,
    )
}

fn is_21(outcome: &Option<Outcome>) -> bool {
    match outcome {
        Some(Outcome::Value(Value::Longs(longs), _)) => longs.first() == Some(&21),
        _ => false,
    }
}
