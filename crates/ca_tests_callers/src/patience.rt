//! Servers with and without patience, and clients that take nothing, or take it slowly.

use crate::server::{IdleDevice, bound};
use crate::wire::{connected, greet, opened, read, send, take};
use crate::{say, say_yes};
use ca_script::{RecordFile, read_records};
use ca_serve::{Meter, Options, Places, serve};
use ca_text::Refusal;
use std::alloc::Global;
use std::io::{Read, Write};
use std::net::{Net, SocketAddr, TcpListener, TcpStream};
use std::sync::Wait;
use std::thread;
use std::thread::{JoinHandle, Threads};
use std::time::{Clock, Duration};

const RECORDS: &[u8] = b"record SLOA LONG 16380 quick 7\nrecord SLOB LONG 1 quick 3\n";

/// Reads of 16,380 elements, the bytes of a reply, and of all, which are more than the systems of
/// both ends hold.
const READS: u64 = 400;

const REPLY: u64 = 65_536;

const ALL: u64 = READS * REPLY;

/// A circuit whose socket takes nothing for this time, in milliseconds, is cut.
const PATIENCE: u64 = 1_500;

/// A client that is slow takes four replies and then waits, in milliseconds; and how often it does.
const PAUSE: u64 = 100;

const PAUSES: u64 = 30;

pub(crate) fn show<
    R: Threads
        + Wait
        + Clock
        + Net<Stream = TcpStream, Listener = TcpListener>
        + Copy
        + Drop
        + Send
        + 'static,
    W: Write,
>(rt: R, alloc: Global, out: &mut W) -> Result<(), Refusal> {
    say(out, "a server with patience:", "1.5 s")?;
    show_one(rt, alloc, Some(Duration::from_millis(PATIENCE)), out)?;
    say(out, "a server with patience:", "none")?;
    show_one(rt, alloc, None, out)
}

/// A server with this patience, and three clients.
fn show_one<
    R: Threads
        + Wait
        + Clock
        + Net<Stream = TcpStream, Listener = TcpListener>
        + Copy
        + Drop
        + Send
        + 'static,
    W: Write,
>(rt: R, alloc: Global, patience: Option<Duration>, out: &mut W) -> Result<(), Refusal> {
    let (places, address) = bound(&rt)?;
    let meter = Meter::new(alloc)?;
    let mut options = Options::new(Some(3));
    options.patience = patience;
    options.meter = Some(meter.share()?);
    let server = start_server(rt, alloc, places, options)?;
    let talked = talk(&rt, alloc, &meter, address, out);
    let served = server.join(&rt);
    talked?;
    served?;
    Ok(())
}

fn start_server<
    R: Threads
        + Wait
        + Clock
        + Net<Stream = TcpStream, Listener = TcpListener>
        + Copy
        + Drop
        + Send
        + 'static,
>(
    rt: R,
    alloc: Global,
    places: Places,
    options: Options,
) -> Result<JoinHandle<Result<u64, Refusal>>, Refusal> {
    let file = read_records(alloc, RECORDS)?;
    let spawned = thread::spawn(&rt, move || {
        let RecordFile { records, rules } = file;
        serve(rt, alloc, places, &records, rules, IdleDevice, options)
    });
    match spawned {
        Ok(server) => Ok(server),
        Err(_) => Err(Refusal::Device),
    }
}

/// One client takes nothing of its replies, one takes them slowly, and one has asked for nothing.
fn talk<R: Net<Stream = TcpStream, Listener = TcpListener> + Clock, W: Write>(
    rt: &R,
    alloc: Global,
    meter: &Meter,
    address: SocketAddr,
    out: &mut W,
) -> Result<(), Refusal> {
    let idle = connected(rt, address)?;
    greet(&idle)?;
    let begun = now(rt)?;
    let deaf = asked(rt, address)?;
    let slow = asked(rt, address)?;
    let mut room = vec![in alloc; 0u8; 262_144]?;
    let mut is_cut = false;
    let mut is_early = false;
    for _ in 0..PAUSES {
        take(&slow, room.as_mut_slice())?;
        thread::sleep(rt, Duration::from_millis(PAUSE));
        if !is_cut && meter.stats().circuits < 3 {
            is_cut = true;
            is_early = now(rt)?.saturating_sub(begun) < Duration::from_millis(PATIENCE);
        }
    }
    say_yes(out, "a client that takes nothing is cut:", is_cut)?;
    say_yes(out, "before its time:", is_early)?;
    let rest = ALL - PAUSES * 4 * REPLY;
    say_yes(
        out,
        "one that is slow has all:",
        has_all(&slow, &mut room, rest),
    )?;
    say_yes(out, "and so has that one:", has_all(&deaf, &mut room, ALL))?;
    let sid = opened(&idle, b'B')?;
    say_yes(out, "one that is idle is served:", read(&idle, sid)? == 3)
}

fn now<R: Clock>(rt: &R) -> Result<Duration, Refusal> {
    match rt.monotonic() {
        Ok(time) => Ok(time),
        Err(_) => Err(Refusal::Device),
    }
}

/// A circuit on which all reads are asked, and nothing else.
fn asked<R: Net<Stream = TcpStream, Listener = TcpListener>>(
    rt: &R,
    address: SocketAddr,
) -> Result<TcpStream, Refusal> {
    let stream = connected(rt, address)?;
    greet(&stream)?;
    let sid = opened(&stream, b'A')?;
    for _ in 0..READS {
        send(&stream, &[0, 15, 0, 0, 0, 5, 0x3F, 0xFC])?;
        send(&stream, &sid.to_be_bytes())?;
        send(&stream, &[0, 0, 0, 2])?;
    }
    Ok(stream)
}

/// Whether this number of bytes comes before the circuit ends.
fn has_all(stream: &TcpStream, room: &mut Vec<u8>, bytes: u64) -> bool {
    let mut left = bytes;
    for _ in 0..bytes {
        let mut wire = stream;
        match wire.read(room.as_mut_slice()) {
            Ok(count) if count > 0 => left = left.saturating_sub(count as u64),
            _ => break,
        }
        if left == 0 {
            break;
        }
    }
    left == 0
}
