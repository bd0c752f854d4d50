//! Reads one after another, each of which is waited for. What comes of one is told at once, and not
//! with the next turn of the thread of input and output, which is 10 ms later.

use crate::client::setting;
use crate::moments::{began, is_within};
use crate::say_yes;
use crate::server::{bound, start_server};
use ca_arena::Handle;
use ca_client::Caller;
use ca_client_context::{Context, Nobody, Work, start};
use ca_dbr::{Outcome, Value};
use ca_script::read_records;
use ca_text::{Mask, Refusal};
use std::alloc::Global;
use std::io::Write;
use std::net::{Net, TcpListener, TcpStream};
use std::sync::atomic::{AtomicU64, Ordering};
use std::sync::{Arc, Wait};
use std::thread::{JoinHandle, Threads};
use std::time::Clock;

/// The reads of a row. A busy machine holds up some of them: one in four is over within half a
/// turn, in one of some rows.
const READS: u64 = 200;

const PROMPT: u64 = 50;

const HALF: u64 = 5;

const ROWS: u64 = 5;

/// Those of four callers at once are over within this many milliseconds. They take twice as many if
/// each is left to a turn.
const LEFT: u64 = 1_000;

const CALLERS: u64 = 4;

/// Waits for at most this many turns.
const TURNS: u64 = 2_000;

pub(crate) fn show<
    R: Threads
        + Wait
        + Clock
        + Net<Stream = TcpStream, Listener = TcpListener>
        + Copy
        + Drop
        + Send
        + 'static,
    W: Write,
>(rt: R, alloc: Global, out: &mut W) -> Result<(), Refusal> {
    let file = read_records(alloc, b"record TEMP LONG 1 quick 21\n")?;
    let (places, address) = bound(&rt)?;
    let server = start_server(rt, alloc, places, file, 1)?;
    let shown = show_with_engine(rt, alloc, address.port(), out);
    let served = server.join(&rt);
    shown?;
    served?;
    Ok(())
}

fn show_with_engine<
    R: Threads
        + Wait
        + Clock
        + Net<Stream = TcpStream, Listener = TcpListener>
        + Copy
        + Drop
        + Send
        + 'static,
    W: Write,
>(rt: R, alloc: Global, port: u16, out: &mut W) -> Result<(), Refusal> {
    let (context, engine) = Context::<Nobody>::new(rt, alloc, setting(alloc, port)?)?;
    let context = Arc::new(alloc, context)?;
    let thread = start(rt, engine)?;
    let shown = show_rows(rt, alloc, &context, out);
    context.end(&rt);
    thread.join(&rt);
    shown
}

/// First by a client without a subscription, whose callers read what comes themselves; then by one
/// that has one, for which the thread reads.
fn show_rows<R: Threads + Wait + Clock + Copy + Send + 'static, W: Write>(
    rt: R,
    alloc: Global,
    context: &Arc<Context<Nobody>>,
    out: &mut W,
) -> Result<(), Refusal> {
    let channel = context.open(&rt, b"TEMP", 0)?;
    if !context.wait_live(&rt, channel, TURNS) {
        return Err(Refusal::NotLive);
    }
    let alone = is_soon(&rt, context, channel)?;
    say_yes(out, "what comes of a read is told at once:", alone)?;
    let crowd = is_crowd_soon(rt, alloc, context, channel)?;
    say_yes(out, "by four callers:", crowd)?;
    let Some(mask) = Mask::new(1) else {
        return Err(Refusal::BadEvent);
    };
    if let Err((_, refusal)) = context.monitor(&rt, channel, 5, 1, mask, Nobody) {
        return Err(refusal);
    }
    let alone = is_soon(&rt, context, channel)?;
    say_yes(out, "beside a subscription:", alone)?;
    let crowd = is_crowd_soon(rt, alloc, context, channel)?;
    say_yes(out, "beside a subscription, by four callers:", crowd)
}

/// Whether reads by one caller bring the value, and are prompt.
fn is_soon<R: Wait + Clock>(
    rt: &R,
    context: &Context<Nobody>,
    channel: Handle,
) -> Result<bool, Refusal> {
    let mut caller = context.caller(rt)?;
    for _ in 0..ROWS {
        let (right, prompt) = reads(rt, context, channel, &mut caller)?;
        if right != READS {
            return Err(Refusal::Disconnected);
        }
        if prompt >= PROMPT {
            return Ok(true);
        }
    }
    Ok(false)
}

/// How many reads of a row brought the value, and how many of these within half a turn.
fn reads<R: Wait + Clock>(
    rt: &R,
    context: &Context<Nobody>,
    channel: Handle,
    caller: &mut Caller,
) -> Result<(u64, u64), Refusal> {
    let mut right = 0u64;
    let mut prompt = 0u64;
    for _ in 0..READS {
        let began = began(rt)?;
        let ticket = context.get(rt, channel, 5, 1)?;
        let outcome = context.wait(rt, caller, ticket, TURNS);
        let is_prompt = is_within(rt, &began, HALF);
        let is_right = is_21(&outcome);
        right = right.wrapping_add(u64::from(is_right));
        prompt = prompt.wrapping_add(u64::from(is_right && is_prompt));
    }
    Ok((right, prompt))
}

fn is_21(outcome: &Option<Outcome>) -> bool {
    match outcome {
        Some(Outcome::Value(Value::Longs(longs), _)) => longs.first() == Some(&21),
        _ => false,
    }
}

/// Whether a row of reads by each of four callers, one at a time, is soon over.
fn is_crowd_soon<R: Threads + Wait + Clock + Copy + Send + 'static>(
    rt: R,
    alloc: Global,
    context: &Arc<Context<Nobody>>,
    channel: Handle,
) -> Result<bool, Refusal> {
    for _ in 0..ROWS {
        let right = Arc::new(alloc, AtomicU64::new(0))?;
        let began = began(&rt)?;
        let mut threads: Vec<JoinHandle<()>> = Vec::new(alloc);
        for _ in 0..CALLERS {
            let reader = ReadingCaller {
                context: Arc::try_clone(context)?,
                channel,
                right: Arc::try_clone(&right)?,
            };
            threads.push(start(rt, reader)?)?;
        }
        for thread in threads {
            thread.join(&rt);
        }
        if right.load(Ordering::SeqCst) != READS.saturating_mul(CALLERS) {
            return Err(Refusal::Disconnected);
        }
        if is_within(&rt, &began, LEFT) {
            return Ok(true);
        }
    }
    Ok(false)
}

/// A caller in a thread of its own, with a row of reads.
#[derive(Drop)]
struct ReadingCaller {
    context: Arc<Context<Nobody>>,
    channel: Handle,
    // How many reads brought the value.
    right: Arc<AtomicU64>,
}

impl Work for ReadingCaller {
    fn run<R: Wait + Clock>(self, rt: &R) {
        let Ok(mut caller) = self.context.caller(rt) else {
            return;
        };
        if let Ok((right, _)) = reads(rt, &self.context, self.channel, &mut caller) {
            self.right.fetch_add(right, Ordering::SeqCst);
        }
    }
}
