//! Servers whose device holds puts, and clients of them, which speak the protocol by hand. The
//! device of one holds a put until a read on another circuit was answered, and more puts come
//! meanwhile than may wait. Another ends while its device holds puts: what the device has not begun
//! by then is not processed.

use crate::server::bound;
use crate::wire::{connected, greet, is_done, is_refused, opened, put, read};
use crate::{say_yes, tell};
use ca_dbr::Value;
use ca_script::{RecordFile, read_records};
use ca_serve::{Device, Options, Places, serve};
use ca_text::Refusal;
use std::alloc::Global;
use std::io::Write;
use std::net::{Net, SocketAddr, TcpListener, TcpStream};
use std::sync::atomic::{AtomicU64, Ordering};
use std::sync::{Arc, Wait};
use std::thread;
use std::thread::{JoinHandle, Threads};
use std::time::Clock;

/// What the gate and the clients tell each other.
#[derive(Drop)]
struct Signs {
    entered: AtomicU64,
    opened: AtomicU64,
    passed: AtomicU64,
}

/// Holds each put until it is opened, for n turns at most.
#[derive(Drop)]
struct Gate {
    signs: Arc<Signs>,
}

const TURNS: u32 = 20_000_000;

/// Puts that may wait for a busy record.
const WAITING: u8 = 16;

impl Device for Gate {
    fn process(&self, _record: &[u8], _value: &Value) {
        self.signs.entered.fetch_add(1, Ordering::SeqCst);
        if is_at(&self.signs.opened, 1) {
            self.signs.passed.fetch_add(1, Ordering::SeqCst);
        }
    }
}

/// Whether a sign comes to be this number.
fn is_at(sign: &AtomicU64, number: u64) -> bool {
    for _ in 0..TURNS {
        if sign.load(Ordering::SeqCst) == number {
            return true;
        }
        thread::yield_now();
    }
    false
}

fn new_signs(alloc: Global) -> Result<Arc<Signs>, Refusal> {
    Ok(Arc::new(
        alloc,
        Signs {
            entered: AtomicU64::new(0),
            opened: AtomicU64::new(0),
            passed: AtomicU64::new(0),
        },
    )?)
}

pub(crate) fn show<
    R: Threads
        + Wait
        + Clock
        + Net<Stream = TcpStream, Listener = TcpListener>
        + Copy
        + Drop
        + Send
        + 'static,
    W: Write,
>(rt: R, alloc: Global, out: &mut W) -> Result<(), Refusal> {
    show_held(rt, alloc, out)?;
    show_ended(rt, alloc, out)
}

/// The server ends once both circuits are closed.
fn show_held<
    R: Threads
        + Wait
        + Clock
        + Net<Stream = TcpStream, Listener = TcpListener>
        + Copy
        + Drop
        + Send
        + 'static,
    W: Write,
>(rt: R, alloc: Global, out: &mut W) -> Result<(), Refusal> {
    let signs = new_signs(alloc)?;
    let (places, address) = bound(&rt)?;
    let server = start_server(rt, alloc, places, &signs, b"record SLOW LONG 1 slow 3\n", 2)?;
    let talked = talk(&rt, &signs, address, out);
    let served = server.join(&rt);
    talked?;
    tell(out, "writes that the server applied", served?)?;
    let passed = signs.passed.load(Ordering::SeqCst);
    tell(out, "puts that passed the device", passed)
}

/// The server ends once one circuit is closed. Of four puts its device has begun two by then, one
/// has made its record busy, and one waits for another.
fn show_ended<
    R: Threads
        + Wait
        + Clock
        + Net<Stream = TcpStream, Listener = TcpListener>
        + Copy
        + Drop
        + Send
        + 'static,
    W: Write,
>(rt: R, alloc: Global, out: &mut W) -> Result<(), Refusal> {
    let signs = new_signs(alloc)?;
    let (places, address) = bound(&rt)?;
    let text = b"record SLOA LONG 1 slow 3\nrecord SLOB LONG 1 slow 3\nrecord SLOC LONG 1 slow 3\n";
    let server = start_server(rt, alloc, places, &signs, text, 1)?;
    let ended = end_by_another(&rt, &signs, address, out);
    signs.opened.store(1, Ordering::SeqCst);
    let served = server.join(&rt);
    ended?;
    tell(out, "writes that it had applied by then", served?)?;
    let begun = signs.entered.load(Ordering::SeqCst);
    tell(out, "puts that its device had begun, and no more", begun)
}

/// Puts on three records, the first of them twice; and then another circuit is closed, and so
/// the server is to end.
fn end_by_another<R: Net<Stream = TcpStream, Listener = TcpListener>, W: Write>(
    rt: &R,
    signs: &Signs,
    address: SocketAddr,
    out: &mut W,
) -> Result<(), Refusal> {
    let last = connected(rt, address)?;
    greet(&last)?;
    let stream = connected(rt, address)?;
    greet(&stream)?;
    let first = opened(&stream, b'A')?;
    let second = opened(&stream, b'B')?;
    let third = opened(&stream, b'C')?;
    put(&stream, first, 41)?;
    put(&stream, second, 42)?;
    say_yes(out, "the device has two puts:", is_at(&signs.entered, 2))?;
    put(&stream, third, 43)?;
    put(&stream, first, 44)?;
    // Once the reads are answered the server has handled the puts before them.
    tell(out, "a third record has", read(&stream, third)?)?;
    tell(out, "the first has still", read(&stream, first)?)?;
    drop(last);
    // It is closed once the server is to end. No put is done by then.
    let is_closed = is_done(&stream).is_err();
    say_yes(
        out,
        "the end closes a circuit whose puts are not done:",
        is_closed,
    )
}

/// A server of these records, whose puts the gate holds, until n circuits are closed.
fn start_server<
    R: Threads
        + Wait
        + Clock
        + Net<Stream = TcpStream, Listener = TcpListener>
        + Copy
        + Drop
        + Send
        + 'static,
>(
    rt: R,
    alloc: Global,
    places: Places,
    signs: &Arc<Signs>,
    text: &[u8],
    circuits: u64,
) -> Result<JoinHandle<Result<u64, Refusal>>, Refusal> {
    let file = read_records(alloc, text)?;
    let device = Gate {
        signs: Arc::try_clone(signs)?,
    };
    let spawned = thread::spawn(&rt, move || {
        let RecordFile { records, rules } = file;
        let options = Options::new(Some(circuits));
        serve(rt, alloc, places, &records, rules, device, options)
    });
    match spawned {
        Ok(server) => Ok(server),
        Err(_) => Err(Refusal::Device),
    }
}

/// A put on one circuit, which the device holds; a read on another; and then the put is let go,
/// and its circuit reads.
fn talk<R: Net<Stream = TcpStream, Listener = TcpListener>, W: Write>(
    rt: &R,
    signs: &Signs,
    address: SocketAddr,
    out: &mut W,
) -> Result<(), Refusal> {
    let first = connected(rt, address)?;
    let second = connected(rt, address)?;
    greet(&first)?;
    greet(&second)?;
    let sid = opened(&first, b'W')?;
    put(&first, sid, 42)?;
    say_yes(out, "the device has the put:", is_at(&signs.entered, 1))?;
    let other = opened(&second, b'W')?;
    let read_beside = read(&second, other).is_ok();
    say_yes(out, "a read on another circuit is answered:", read_beside)?;
    for value in 0..=WAITING {
        put(&second, other, value)?;
    }
    let is_full = is_refused(&second)?;
    say_yes(out, "one put more than may wait is refused:", is_full)?;
    signs.opened.store(1, Ordering::SeqCst);
    say_yes(out, "the put is done:", is_done(&first)?)?;
    let mut done = 0u64;
    for _ in 0..WAITING {
        done = done.wrapping_add(u64::from(is_done(&second)?));
    }
    tell(out, "puts that waited and are done", done)?;
    tell(out, "its circuit reads", read(&first, sid)?)
}
