//! A server whose numbers a program sees while it runs, and clients of it, which speak the protocol
//! by hand.

use crate::server::{IdleDevice, bound};
use crate::wire::{connected, greet, is_done, opened, put, read, send, take};
use crate::{say_yes, tell};
use ca_script::{RecordFile, read_records};
use ca_serve::{Meter, Options, Places, Stats, serve};
use ca_text::Refusal;
use std::alloc::Global;
use std::io::Write;
use std::net::{Ipv4Addr, Net, SocketAddr, TcpListener, TcpStream, UdpSocket};
use std::sync::Wait;
use std::thread;
use std::thread::{JoinHandle, Threads};
use std::time::{Clock, Duration};

/// Of B clients may only read. C takes two pieces of what is sent at once, and a header in the long
/// form.
const RECORDS: &[u8] = b"record SLOA LONG 1 quick 3\nrecord SLOB LONG 1 quick 3\n\
    record SLOC LONG 20000 quick 3\nrecord SLOD LONG 1 slow 3\nrule * * SLOB r\n";

/// Bytes of the reply to a read of all of C.
const ARRAY: usize = 24 + 80_000;

pub(crate) fn show<
    R: Threads
        + Wait
        + Clock
        + Net<Stream = TcpStream, Listener = TcpListener>
        + Copy
        + Drop
        + Send
        + 'static,
    W: Write,
>(rt: R, alloc: Global, out: &mut W) -> Result<(), Refusal> {
    let (places, address) = bound(&rt)?;
    let meter = Meter::new(alloc)?;
    let mut options = Options::new(Some(2));
    options.meter = Some(meter.share()?);
    let server = start_server(rt, alloc, places, options)?;
    let talked = talk(&rt, alloc, &meter, address, out);
    let served = server.join(&rt);
    talked?;
    let applied = served?;
    let at_end = meter.stats();
    say_yes(
        out,
        "the server applied as many writes:",
        at_end.writes == applied,
    )?;
    tell(out, "circuits at its end", at_end.circuits)?;
    tell(out, "channels at its end", at_end.channels)
}

fn start_server<
    R: Threads
        + Wait
        + Clock
        + Net<Stream = TcpStream, Listener = TcpListener>
        + Copy
        + Drop
        + Send
        + 'static,
>(
    rt: R,
    alloc: Global,
    places: Places,
    options: Options,
) -> Result<JoinHandle<Result<u64, Refusal>>, Refusal> {
    let file = read_records(alloc, RECORDS)?;
    let spawned = thread::spawn(&rt, move || {
        let RecordFile { records, rules } = file;
        serve(rt, alloc, places, &records, rules, IdleDevice, options)
    });
    match spawned {
        Ok(server) => Ok(server),
        Err(_) => Err(Refusal::Device),
    }
}

/// What each client did is in the numbers as soon as its reply is there.
fn talk<R: Net<Stream = TcpStream, Listener = TcpListener> + Clock, W: Write>(
    rt: &R,
    alloc: Global,
    meter: &Meter,
    address: SocketAddr,
    out: &mut W,
) -> Result<(), Refusal> {
    say_all(out, "before anybody came", &meter.stats())?;
    let first = connected(rt, address)?;
    let second = connected(rt, address)?;
    greet(&first)?;
    greet(&second)?;
    let quick = opened(&first, b'A')?;
    let shut = opened(&first, b'B')?;
    let large = opened(&first, b'C')?;
    let slow = opened(&second, b'D')?;
    let watched = opened(&second, b'A')?;
    say_all(out, "with two circuits and five channels", &meter.stats())?;
    for _ in 0..3 {
        read(&first, quick)?;
    }
    for _ in 0..2 {
        read_array(&first, large, alloc)?;
    }
    read_stray(&first)?;
    say_all(out, "after six reads, one on no channel", &meter.stats())?;
    watch(&second, watched)?;
    put(&first, quick, 40)?;
    let is_put = is_done(&first)?;
    take_update(&second)?;
    write_twice(&first, quick)?;
    take_update(&second)?;
    take_update(&second)?;
    cancel(&second, watched)?;
    say_yes(out, "a put is done:", is_put)?;
    put(&second, slow, 41)?;
    say_yes(out, "a put on a slow record is done:", is_done(&second)?)?;
    put(&first, shut, 42)?;
    say_yes(out, "one on the other is done:", is_done(&first)?)?;
    say_all(
        out,
        "after four writes, four updates and a refusal",
        &meter.stats(),
    )?;
    open_none(&first)?;
    clear(&first, quick)?;
    clear(&first, quick)?;
    search(&second)?;
    search_by_datagram(rt, address)?;
    say_all(
        out,
        "after a name that is not there, two clears and searches",
        &meter.stats(),
    )?;
    drop(first);
    let is_told = (0..2_000u32).any(|_| {
        thread::sleep(rt, Duration::from_millis(1));
        meter.stats().circuits == 1
    });
    say_yes(out, "a circuit that is closed is told:", is_told)?;
    say_all(out, "with one circuit", &meter.stats())
}

fn say_all<W: Write>(out: &mut W, when: &str, stats: &Stats) -> Result<(), Refusal> {
    let said = writeln!(
        out,
        "{when}: {} circuits, {} channels, {} searches, {} reads, {} writes, {} updates, {} \
            refused",
        stats.circuits,
        stats.channels,
        stats.searches,
        stats.reads,
        stats.writes,
        stats.updates,
        stats.refused
    );
    match said {
        Ok(()) => Ok(()),
        Err(_) => Err(Refusal::Device),
    }
}

/// A message of no payload on a channel.
fn ask(stream: &TcpStream, command: u8, sid: u32, id: u8) -> Result<(), Refusal> {
    send(stream, &[0, command, 0, 0, 0, 5, 0, 1])?;
    send(stream, &sid.to_be_bytes())?;
    send(stream, &[0, 0, 0, id])
}

/// A read of all 20,000 elements.
fn read_array(stream: &TcpStream, sid: u32, alloc: Global) -> Result<(), Refusal> {
    send(stream, &[0, 15, 0, 0, 0, 5, 0x4E, 0x20])?;
    send(stream, &sid.to_be_bytes())?;
    send(stream, &[0, 0, 0, 2])?;
    let mut reply = vec![in alloc; 0u8; ARRAY]?;
    take(stream, reply.as_mut_slice())
}

/// A read on a channel that is not there, which is refused in its reply.
fn read_stray(stream: &TcpStream) -> Result<(), Refusal> {
    ask(stream, 15, 0xffff_ffff, 2)?;
    let mut reply = [0u8; 16];
    take(stream, &mut reply)
}

/// A subscription, which begins with an update.
fn watch(stream: &TcpStream, sid: u32) -> Result<(), Refusal> {
    send(stream, &[0, 1, 0, 16, 0, 5, 0, 1])?;
    send(stream, &sid.to_be_bytes())?;
    send(
        stream,
        &[0, 0, 0, 9, 0, 0, 0, 0, 0, 0, 0, 0, 0, 0, 0, 0, 0, 1, 0, 0],
    )?;
    take_update(stream)
}

fn take_update(stream: &TcpStream) -> Result<(), Refusal> {
    let mut update = [0u8; 24];
    take(stream, &mut update)
}

/// The end of the subscription, which is confirmed.
fn cancel(stream: &TcpStream, sid: u32) -> Result<(), Refusal> {
    ask(stream, 2, sid, 9)?;
    let mut reply = [0u8; 16];
    take(stream, &mut reply)
}

/// Two writes that have no reply, the second after the first has reached its subscribers.
fn write_twice(stream: &TcpStream, sid: u32) -> Result<(), Refusal> {
    for value in [50u8, 51] {
        send(stream, &[0, 4, 0, 8, 0, 5, 0, 1])?;
        send(stream, &sid.to_be_bytes())?;
        send(stream, &[0, 0, 0, 1, 0, 0, 0, value, 0, 0, 0, 0])?;
        echo(stream)?;
    }
    Ok(())
}

/// Whatever came before is handled once its reply is there.
fn echo(stream: &TcpStream) -> Result<(), Refusal> {
    send(stream, &[0, 23, 0, 0, 0, 0, 0, 0, 0, 0, 0, 0, 0, 0, 0, 0])?;
    let mut reply = [0u8; 16];
    take(stream, &mut reply)
}

/// A channel to a record that is not there.
fn open_none(stream: &TcpStream) -> Result<(), Refusal> {
    send(
        stream,
        b"\0\x12\0\x08\0\0\0\0\0\0\0\x77\0\0\0\x0DNONE\0\0\0\0",
    )?;
    let mut reply = [0u8; 16];
    take(stream, &mut reply)
}

/// The end of a channel, which is answered also if it is not there.
fn clear(stream: &TcpStream, sid: u32) -> Result<(), Refusal> {
    ask(stream, 12, sid, 1)?;
    let mut reply = [0u8; 16];
    take(stream, &mut reply)
}

const SEARCHES: &[u8] =
    b"\0\x06\0\x08\0\x05\0\x0D\0\0\0\x07\0\0\0\x07SLOA\0\0\0\0\0\x06\0\x08\0\x05\0\x0D\0\0\0\x08\
        \0\0\0\x08NONE\0\0\0\0";

/// Two searches on a circuit, for a name that is there and for one that is not, which has no reply.
fn search(stream: &TcpStream) -> Result<(), Refusal> {
    send(stream, SEARCHES)?;
    let mut reply = [0u8; 24];
    take(stream, &mut reply)?;
    echo(stream)
}

/// Two searches by a datagram, of which one finds a record.
fn search_by_datagram<R: Net<Stream = TcpStream, Listener = TcpListener>>(
    rt: &R,
    address: SocketAddr,
) -> Result<(), Refusal> {
    let any = SocketAddr::from((Ipv4Addr::LOCALHOST, 0));
    let Ok(socket) = UdpSocket::bind(rt, any) else {
        return Err(Refusal::Device);
    };
    let mut reply = [0u8; 256];
    match socket.send_to(SEARCHES, address) {
        Ok(_) => {}
        Err(_) => return Err(Refusal::Device),
    }
    match socket.recv_from(&mut reply) {
        Ok(_) => Ok(()),
        Err(_) => Err(Refusal::Device),
    }
}
