//! A server whose device takes its time, and clients that keep two slow records busy: a put on a
//! third is not kept waiting.

use crate::server::bound;
use crate::wire::{connected, greet, is_done, opened, put};
use crate::{say_yes, tell};
use ca_dbr::Value;
use ca_script::{RecordFile, read_records};
use ca_serve::{Device, Options, Places, serve};
use ca_text::Refusal;
use std::alloc::Global;
use std::io::Write;
use std::net::{Net, SocketAddr, TcpListener, TcpStream};
use std::sync::atomic::{AtomicU64, Ordering};
use std::sync::{Arc, Wait};
use std::thread;
use std::thread::{JoinHandle, Threads};
use std::time::{Clock, Duration};

/// The puts on each of the two records: one that is processed, and sixteen that wait,
/// which is as many as may.
const PUTS: u8 = 17;

/// A call of the device takes this many milliseconds.
const CALL: u64 = 50;

/// This many calls may begin between the put on the third record and its own, at most: two, and
/// what a busy machine adds. 32 begin if it has to wait for all others.
const CALLS_BETWEEN: u64 = 20;

/// The records are SLO and a letter.
const FIRST: u8 = b'A';

const LAST: u8 = b'C';

/// What the device saw.
#[derive(Drop)]
struct Seen {
    calls: AtomicU64,
    inside: AtomicU64,
    // Whether a record was in the device twice at once, and whether two records were.
    doubled: AtomicU64,
    together: AtomicU64,
    // Which records are in the device, one bit each.
    records: AtomicU64,
    // The number of the first call of the third record.
    third: AtomicU64,
}

/// A device whose calls take a while.
#[derive(Drop)]
struct Slow<R: Clock + Drop> {
    rt: R,
    seen: Arc<Seen>,
}

impl<R: Clock + Drop> Device for Slow<R> {
    fn process(&self, record: &[u8], _value: &Value) {
        let seen = &self.seen;
        let place = place_of(record);
        let call = seen.calls.fetch_add(1, Ordering::SeqCst).wrapping_add(1);
        if seen.inside.fetch_add(1, Ordering::SeqCst) != 0 {
            seen.together.store(1, Ordering::SeqCst);
        }
        if seen.records.load(Ordering::SeqCst) >> place & 1 != 0 {
            seen.doubled.store(1, Ordering::SeqCst);
        }
        seen.records.fetch_add(1 << place, Ordering::SeqCst);
        if place == 2 {
            let _ = seen
                .third
                .compare_exchange(0, call, Ordering::SeqCst, Ordering::SeqCst);
        }
        thread::sleep(&self.rt, Duration::from_millis(CALL));
        seen.records.fetch_sub(1 << place, Ordering::SeqCst);
        seen.inside.fetch_sub(1, Ordering::SeqCst);
    }
}

/// Which of the records it is: their names are SLO and a letter.
fn place_of(record: &[u8]) -> u32 {
    match record.get(3) {
        Some(letter) => u32::from(letter.saturating_sub(b'A')) % 32,
        None => 31,
    }
}

fn nothing_seen(alloc: Global) -> Result<Arc<Seen>, Refusal> {
    Ok(Arc::new(
        alloc,
        Seen {
            calls: AtomicU64::new(0),
            inside: AtomicU64::new(0),
            doubled: AtomicU64::new(0),
            together: AtomicU64::new(0),
            records: AtomicU64::new(0),
            third: AtomicU64::new(0),
        },
    )?)
}

pub(crate) fn show<
    R: Threads
        + Wait
        + Clock
        + Net<Stream = TcpStream, Listener = TcpListener>
        + Copy
        + Drop
        + Send
        + Sync
        + 'static,
    W: Write,
>(rt: R, alloc: Global, out: &mut W) -> Result<(), Refusal> {
    let seen = nothing_seen(alloc)?;
    let (places, address) = bound(&rt)?;
    let server = start_server(rt, alloc, places, &seen, 3)?;
    let talked = keep_two_busy(&rt, &seen, address, out);
    let served = server.join(&rt);
    talked?;
    served?;
    Ok(())
}

/// A server of these records, with such a device.
fn start_server<
    R: Threads
        + Wait
        + Clock
        + Net<Stream = TcpStream, Listener = TcpListener>
        + Copy
        + Drop
        + Send
        + Sync
        + 'static,
>(
    rt: R,
    alloc: Global,
    places: Places,
    seen: &Arc<Seen>,
    circuits: u64,
) -> Result<JoinHandle<Result<u64, Refusal>>, Refusal> {
    let mut text = Vec::new(alloc);
    for letter in FIRST..=LAST {
        text.extend_from_slice(b"record SLO")?;
        text.push(letter)?;
        text.extend_from_slice(b" LONG 1 slow 3\n")?;
    }
    let file = read_records(alloc, &text)?;
    let device = Slow {
        rt,
        seen: Arc::try_clone(seen)?,
    };
    let spawned = thread::spawn(&rt, move || {
        let RecordFile { records, rules } = file;
        let options = Options::new(Some(circuits));
        serve(rt, alloc, places, &records, rules, device, options)
    });
    match spawned {
        Ok(server) => Ok(server),
        Err(_) => Err(Refusal::Device),
    }
}

/// Two clients have as many puts as may wait, each on its record, and a third puts once.
fn keep_two_busy<R: Net<Stream = TcpStream, Listener = TcpListener> + Clock, W: Write>(
    rt: &R,
    seen: &Seen,
    address: SocketAddr,
    out: &mut W,
) -> Result<(), Refusal> {
    let one = connected(rt, address)?;
    let two = connected(rt, address)?;
    let three = connected(rt, address)?;
    for stream in [&one, &two, &three] {
        greet(stream)?;
    }
    let third = opened(&three, b'C')?;
    put_all(&one, b'A')?;
    put_all(&two, b'B')?;
    await_sign(rt, &seen.together);
    let before = seen.calls.load(Ordering::SeqCst);
    put(&three, third, 9)?;
    let is_answered = is_done(&three)?;
    let call = seen.third.load(Ordering::SeqCst);
    say_yes(out, "a put on a third slow record is done:", is_answered)?;
    let is_soon = call.saturating_sub(before) <= CALLS_BETWEEN;
    say_yes(out, "within some turns of the two others:", is_soon)?;
    let mut done = 0u64;
    for stream in [&one, &two] {
        for _ in 0..PUTS {
            done = done.wrapping_add(u64::from(is_done(stream)?));
        }
    }
    tell(out, "puts of the two others that are done", done)?;
    tell(
        out,
        "calls of the device",
        seen.calls.load(Ordering::SeqCst),
    )?;
    let is_alone = seen.doubled.load(Ordering::SeqCst) == 0;
    say_yes(out, "for one record one at a time:", is_alone)?;
    let is_together = seen.together.load(Ordering::SeqCst) != 0;
    say_yes(out, "for two records at once:", is_together)
}

/// As many puts as may wait, on the record of this letter.
fn put_all(stream: &TcpStream, letter: u8) -> Result<(), Refusal> {
    let sid = opened(stream, letter)?;
    for value in 0..PUTS {
        put(stream, sid, value)?;
    }
    Ok(())
}

/// Waits until the device has set this sign, for a second at most.
fn await_sign<R: Clock>(rt: &R, sign: &AtomicU64) {
    for _ in 0..1_000 {
        if sign.load(Ordering::SeqCst) != 0 {
            break;
        }
        thread::sleep(rt, Duration::from_millis(1));
    }
}
