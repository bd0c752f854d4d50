//! A client with 10,000 channels of one server and a subscription on each, which `open_spread`
//! spreads over circuits of 288; and one that opens as many channels as there is room for.

use crate::client::setting;
use crate::server::{bound, start_server};
use crate::tell;
use ca_arena::Handle;
use ca_client_context::{Context, Listener, Nobody, start};
use ca_dbr::{Outcome, Value};
use ca_script::{RecordFile, read_records};
use ca_text::{Mask, Refusal};
use std::alloc::Global;
use std::fmt::Write as _;
use std::io::Write;
use std::net::{Net, TcpListener, TcpStream};
use std::sync::atomic::{AtomicU64, Ordering};
use std::sync::{Arc, Wait};
use std::thread;
use std::thread::Threads;
use std::time::{Clock, Duration};

/// Waits for at most this many turns, which is long on an idle machine.
const TURNS: u64 = 3_000;

const CHANNELS: usize = 10_000;

/// A value is put to one channel of this many.
const PUTS: usize = 100;

/// 288 channels at each of 100 priorities.
const MOST: u64 = 28_800;

/// How many listeners heard the first value, and how many heard one that was put.
#[derive(Drop)]
struct ListenerCounts {
    first: AtomicU64,
    put: AtomicU64,
}

/// Hears one subscription, and counts each of the two values once.
#[derive(Drop)]
struct Hearer {
    heard: Arc<ListenerCounts>,
    has_first: bool,
    has_put: bool,
}

impl Listener for Hearer {
    fn heard(&mut self, outcome: &Outcome) {
        if !self.has_first && is_value(outcome, 7) {
            self.has_first = true;
            self.heard.first.fetch_add(1, Ordering::SeqCst);
        }
        if !self.has_put && is_value(outcome, 8) {
            self.has_put = true;
            self.heard.put.fetch_add(1, Ordering::SeqCst);
        }
    }
}

fn is_value(outcome: &Outcome, wanted: i32) -> bool {
    match outcome {
        Outcome::Value(Value::Longs(longs), _) => longs.first() == Some(&wanted),
        _ => false,
    }
}

/// The server ends when the first of the client's circuits is closed: that is when the client ends.
pub(crate) fn show<
    R: Threads
        + Wait
        + Clock
        + Net<Stream = TcpStream, Listener = TcpListener>
        + Copy
        + Drop
        + Send
        + 'static,
    W: Write,
>(rt: R, alloc: Global, out: &mut W) -> Result<(), Refusal> {
    let (places, address) = bound(&rt)?;
    let server = start_server(rt, alloc, places, records(alloc)?, 1)?;
    let shown = show_all(rt, alloc, address.port(), out);
    let served = server.join(&rt);
    shown?;
    served?;
    show_full(rt, alloc, address.port(), out)
}

/// 10,000 records, of the value 7.
fn records(alloc: Global) -> Result<RecordFile, Refusal> {
    let mut text = String::new(alloc);
    for place in 0..CHANNELS {
        if writeln!(text, "record R{place} LONG 1 quick 7").is_err() {
            return Err(Refusal::OutOfMemory);
        }
    }
    read_records(alloc, text.as_bytes())
}

/// The client of the 10,000.
fn show_all<
    R: Threads
        + Wait
        + Clock
        + Net<Stream = TcpStream, Listener = TcpListener>
        + Copy
        + Drop
        + Send
        + 'static,
    W: Write,
>(rt: R, alloc: Global, port: u16, out: &mut W) -> Result<(), Refusal> {
    let (context, engine) = Context::<Hearer>::new(rt, alloc, setting(alloc, port)?)?;
    let thread = start(rt, engine)?;
    let shown = show_values(&rt, alloc, &context, out);
    context.end(&rt);
    thread.join(&rt);
    shown
}

fn show_values<R: Wait + Clock, W: Write>(
    rt: &R,
    alloc: Global,
    context: &Context<Hearer>,
    out: &mut W,
) -> Result<(), Refusal> {
    let channels = opened(rt, alloc, context)?;
    let heard = Arc::new(
        alloc,
        ListenerCounts {
            first: AtomicU64::new(0),
            put: AtomicU64::new(0),
        },
    )?;
    for index in 0..channels.len() {
        watch(rt, context, channels[index], &heard)?;
    }
    tell(
        out,
        "first values of channels",
        counted(rt, &heard.first, 10_000),
    )?;
    let value = Value::Longs(vec![in alloc; 8]?);
    for index in 0..channels.len() {
        if index % PUTS == 0 {
            context.put(rt, channels[index], &value)?;
        }
    }
    tell(out, "values that were put", counted(rt, &heard.put, 100))
}

/// A channel of each record.
fn opened<R: Wait>(
    rt: &R,
    alloc: Global,
    context: &Context<Hearer>,
) -> Result<Vec<Handle>, Refusal> {
    let mut channels = Vec::new(alloc);
    for place in 0..CHANNELS {
        let mut name = String::new(alloc);
        if write!(name, "R{place}").is_err() {
            return Err(Refusal::OutOfMemory);
        }
        channels.push(context.open_spread(rt, name.as_bytes())?)?;
    }
    Ok(channels)
}

/// Subscribes to a channel once it is live.
fn watch<R: Wait + Clock>(
    rt: &R,
    context: &Context<Hearer>,
    channel: Handle,
    heard: &Arc<ListenerCounts>,
) -> Result<(), Refusal> {
    let hearer = Hearer {
        heard: Arc::try_clone(heard)?,
        has_first: false,
        has_put: false,
    };
    let Some(mask) = Mask::new(1) else {
        return Err(Refusal::BadEvent);
    };
    if !context.wait_live(rt, channel, TURNS) {
        return Err(Refusal::NotLive);
    }
    match context.monitor(rt, channel, 5, 1, mask, hearer) {
        Ok(_) => Ok(()),
        Err((_, refusal)) => Err(refusal),
    }
}

/// Waits until n were counted, and some turns more, and returns how many they are.
fn counted<R: Clock>(rt: &R, count: &AtomicU64, wanted: u64) -> u64 {
    for _ in 0..TURNS {
        if count.load(Ordering::SeqCst) >= wanted {
            break;
        }
        thread::sleep(rt, Duration::from_millis(10));
    }
    thread::sleep(rt, Duration::from_millis(100));
    count.load(Ordering::SeqCst)
}

/// A client with as many channels as there is room for. Its engine is not started, so that
/// it searches for none.
fn show_full<
    R: Threads
        + Wait
        + Clock
        + Net<Stream = TcpStream, Listener = TcpListener>
        + Copy
        + Drop
        + Send
        + 'static,
    W: Write,
>(rt: R, alloc: Global, port: u16, out: &mut W) -> Result<(), Refusal> {
    let (context, _engine) = Context::<Nobody>::new(rt, alloc, setting(alloc, port)?)?;
    let first = context.open_spread(&rt, b"NONE")?;
    let mut opened = 1u64;
    for _ in 0..MOST {
        if context.open_spread(&rt, b"NONE").is_err() {
            break;
        }
        opened = opened.saturating_add(1);
    }
    tell(out, "channels for which there is room", opened)?;
    one_more(&rt, &context, out)?;
    context.clear(&rt, first)?;
    one_more(&rt, &context, out)?;
    one_more(&rt, &context, out)
}

/// What becomes of one channel more.
fn one_more<R: Wait, W: Write>(
    rt: &R,
    context: &Context<Nobody>,
    out: &mut W,
) -> Result<(), Refusal> {
    let said = match context.open_spread(rt, b"NONE") {
        Ok(_) => writeln!(out, "one channel more: opened"),
        Err(refusal) => writeln!(out, "one channel more: refused {refusal}"),
    };
    match said {
        Ok(()) => Ok(()),
        Err(_) => Err(Refusal::Device),
    }
}
