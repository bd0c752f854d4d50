//! Clients that begin with something else than one server for searches: name servers alone, a
//! repeater, two servers, and a server whose circuits have a port of their own. Each waits for some
//! seconds, so they run beside each other.

use crate::client::setting;
use crate::moments::{began, is_within};
use crate::peer::{Peer, TEMP};
use crate::server::{bound, start_server};
use crate::{say_yes, tell};
use ca_arena::Handle;
use ca_client::Caller;
use ca_client_context::{Context, Nobody, Setting, Waited, start};
use ca_client_core::{Address, ChannelState};
use ca_dbr::{Outcome, Value};
use ca_script::read_records;
use ca_serve::Places;
use ca_text::Refusal;
use std::alloc::Global;
use std::io::Write;
use std::net::{Ipv4Addr, Net, SocketAddr, TcpListener, TcpStream};
use std::sync::Wait;
use std::thread;
use std::thread::{JoinHandle, Threads};
use std::time::{Clock, Duration};

/// A name server listens after this many milliseconds, and one that closes each circuit at once is
/// watched for as long.
const LATE: u64 = 2_500;

/// REPEATER_REGISTER of a client at 127.0.0.1.
const REGISTER: [u8; 16] = [0, 24, 0, 0, 0, 0, 0, 0, 0, 0, 0, 0, 127, 0, 0, 1];

/// A beacon of a server at port 5064 of 10.0.0.1.
const BEACON: [u8; 16] = [0, 13, 0, 0, 0, 13, 0x13, 0xC8, 0, 0, 0, 0, 10, 0, 0, 1];

fn long() -> Duration {
    Duration::from_secs(10)
}

pub(crate) fn show<
    R: Threads
        + Wait
        + Clock
        + Net<Stream = TcpStream, Listener = TcpListener>
        + Copy
        + Drop
        + Send
        + 'static,
    W: Write,
>(rt: R, alloc: Global, out: &mut W) -> Result<(), Refusal> {
    let late = in_thread(rt, move || at_late_name_server(rt, alloc))?;
    let closing = in_thread(rt, move || at_closing_name_server(rt, alloc))?;
    let repeated = in_thread(rt, move || with_a_repeater(rt, alloc))?;
    let named = at_name_server(rt, alloc)?;
    say_yes(out, "a name server alone finds the channel:", named)?;
    let late = late.join(&rt)?;
    say_yes(out, "one that listens later does:", late)?;
    let closing = closing.join(&rt)?;
    say_yes(
        out,
        "one that closes each circuit is tried once a second:",
        closing,
    )?;
    let repeated = repeated.join(&rt)?;
    say_yes(out, "a beacon by the repeater brings a search:", repeated)?;
    tell(
        out,
        "reads of channels at two servers",
        at_two_servers(rt, alloc)?,
    )?;
    let apart = at_two_ports(rt, alloc)?;
    say_yes(
        out,
        "a circuit goes to the port that the answer names:",
        apart,
    )
}

/// Says whether a client reads TEMP that has the server at this port for a name server alone.
pub(crate) fn show_name_server<
    R: Threads
        + Wait
        + Clock
        + Net<Stream = TcpStream, Listener = TcpListener>
        + Copy
        + Drop
        + Send
        + 'static,
    W: Write,
>(rt: R, alloc: Global, port: &str, out: &mut W) -> Result<(), Refusal> {
    let Ok(port) = port.parse::<u16>() else {
        return Err(Refusal::BadText);
    };
    let read = is_read(rt, alloc, named(alloc, port)?)?;
    say_yes(out, "a name server alone finds the channel:", read)
}

fn in_thread<R: Threads + Drop, F: FnOnce() -> Result<bool, Refusal> + Send + Drop + 'static>(
    rt: R,
    work: F,
) -> Result<JoinHandle<Result<bool, Refusal>>, Refusal> {
    match thread::spawn(&rt, work) {
        Ok(handle) => Ok(handle),
        Err(_) => Err(Refusal::Device),
    }
}

fn of_port(port: u16) -> Address {
    Address {
        host: Ipv4Addr::LOCALHOST.to_bits(),
        port,
    }
}

/// A client that searches on a circuit to this port alone.
fn named(alloc: Global, port: u16) -> Result<Setting, Refusal> {
    let mut setting = setting(alloc, port)?;
    setting.servers.clear();
    setting.names.push(of_port(port))?;
    Ok(setting)
}

/// Whether a client with this setting reads this value of TEMP within some seconds.
fn is_read<
    R: Threads
        + Wait
        + Clock
        + Net<Stream = TcpStream, Listener = TcpListener>
        + Copy
        + Drop
        + Send
        + 'static,
>(rt: R, alloc: Global, setting: Setting) -> Result<bool, Refusal> {
    let (context, engine) = Context::<Nobody>::new(rt, alloc, setting)?;
    let thread = start(rt, engine)?;
    let read = read_temp(&rt, &context);
    context.end(&rt);
    thread.join(&rt);
    read
}

fn read_temp<R: Wait + Clock>(rt: &R, context: &Context<Nobody>) -> Result<bool, Refusal> {
    let channel = context.open(rt, b"TEMP", 0)?;
    let _ = context.wait_live_for(rt, channel, long())?;
    let mut caller = context.caller(rt)?;
    Ok(value_of(rt, context, &mut caller, channel)? == 21)
}

/// What a read returns: 0 if it gives no value, or is refused.
fn value_of<R: Wait + Clock>(
    rt: &R,
    context: &Context<Nobody>,
    caller: &mut Caller,
    channel: Handle,
) -> Result<i32, Refusal> {
    let Ok(ticket) = context.get(rt, channel, 5, 1) else {
        return Ok(0);
    };
    match context.wait_for(rt, caller, ticket, long()) {
        Waited::Outcome(Outcome::Value(Value::Longs(longs), _)) => {
            Ok(longs.first().copied().unwrap_or(0))
        }
        _ => Ok(0),
    }
}

/// A server, and a client that searches there on a circuit alone.
fn at_name_server<
    R: Threads
        + Wait
        + Clock
        + Net<Stream = TcpStream, Listener = TcpListener>
        + Copy
        + Drop
        + Send
        + 'static,
>(rt: R, alloc: Global) -> Result<bool, Refusal> {
    let file = read_records(alloc, b"record TEMP LONG 1 quick 21\n")?;
    let (places, address) = bound(&rt)?;
    let server = start_server(rt, alloc, places, file, 1)?;
    let read = is_read(rt, alloc, named(alloc, address.port())?);
    join_server(&rt, server, address)?;
    read
}

/// Joins a server that ends after one circuit: if it had none yet, after this one.
fn join_server<R: Threads + Net<Stream = TcpStream, Listener = TcpListener>>(
    rt: &R,
    server: JoinHandle<Result<u64, Refusal>>,
    address: SocketAddr,
) -> Result<(), Refusal> {
    let last = TcpStream::connect(rt, address);
    drop(last);
    server.join(rt)?;
    Ok(())
}

/// The client's first tries are refused, since nobody listens yet.
fn at_late_name_server<
    R: Threads
        + Wait
        + Clock
        + Net<Stream = TcpStream, Listener = TcpListener>
        + Copy
        + Drop
        + Send
        + 'static,
>(rt: R, alloc: Global) -> Result<bool, Refusal> {
    let file = read_records(alloc, b"record TEMP LONG 1 quick 21\n")?;
    let (places, address) = bound(&rt)?;
    let Places {
        listener,
        datagrams,
        beacons,
    } = places;
    drop(listener);
    let setting = named(alloc, address.port())?;
    let client = in_thread(rt, move || is_read(rt, alloc, setting))?;
    thread::sleep(&rt, Duration::from_millis(LATE));
    let Ok(listener) = TcpListener::bind(&rt, address) else {
        return Err(Refusal::Device);
    };
    let places = Places {
        listener,
        datagrams,
        beacons,
    };
    let server = start_server(rt, alloc, places, file, 1)?;
    let read = client.join(&rt);
    join_server(&rt, server, address)?;
    read
}

/// Each circuit is closed as soon as it is there. A client that tries at once has hundreds.
fn at_closing_name_server<
    R: Threads
        + Wait
        + Clock
        + Net<Stream = TcpStream, Listener = TcpListener>
        + Copy
        + Drop
        + Send
        + 'static,
>(rt: R, alloc: Global) -> Result<bool, Refusal> {
    let peer = Peer::new(&rt)?;
    let setting = named(alloc, peer.port)?;
    let (context, engine) = Context::<Nobody>::new(rt, alloc, setting)?;
    let thread = start(rt, engine)?;
    let opened = context.open(&rt, b"TEMP", 0);
    let began = began(&rt)?;
    let mut tries = 0u64;
    for _ in 0..LATE {
        if let Some(stream) = peer.accept_now() {
            drop(stream);
            tries = tries.saturating_add(1);
        }
        if !is_within(&rt, &began, LATE) {
            break;
        }
        thread::sleep(&rt, Duration::from_millis(1));
    }
    context.end(&rt);
    thread.join(&rt);
    opened?;
    Ok(tries >= 2 && tries <= 4)
}

/// The client registers, and a beacon of a server that it had not heard of brings its next search
/// at once, which was due after two seconds.
fn with_a_repeater<
    R: Threads
        + Wait
        + Clock
        + Net<Stream = TcpStream, Listener = TcpListener>
        + Copy
        + Drop
        + Send
        + 'static,
>(rt: R, alloc: Global) -> Result<bool, Refusal> {
    let peer = Peer::new(&rt)?;
    let repeater = Peer::new(&rt)?;
    let mut setting = setting(alloc, peer.port)?;
    setting.repeater = Some(of_port(repeater.port));
    let (context, engine) = Context::<Nobody>::new(rt, alloc, setting)?;
    let thread = start(rt, engine)?;
    let searched = searched_at_beacon(&rt, &context, &peer, &repeater);
    context.end(&rt);
    thread.join(&rt);
    searched
}

fn searched_at_beacon<R: Wait + Clock>(
    rt: &R,
    context: &Context<Nobody>,
    peer: &Peer,
    repeater: &Peer,
) -> Result<bool, Refusal> {
    let mut register = [0u8; 16];
    let client = repeater.datagram(&mut register)?;
    context.open(rt, b"TEMP", 0)?;
    // They come after 32 ms, and then each after twice as long.
    for _ in 0..7 {
        peer.searched(TEMP)?;
    }
    let began = began(rt)?;
    repeater.send(&BEACON, client)?;
    peer.searched(TEMP)?;
    Ok(register == REGISTER && is_within(rt, &began, 1_200))
}

/// A channel at each of two servers, each read twice: how many reads gave what that server has.
fn at_two_servers<
    R: Threads
        + Wait
        + Clock
        + Net<Stream = TcpStream, Listener = TcpListener>
        + Copy
        + Drop
        + Send
        + 'static,
>(rt: R, alloc: Global) -> Result<u64, Refusal> {
    let first = read_records(alloc, b"record FIRST LONG 1 quick 1\n")?;
    let second = read_records(alloc, b"record SECOND LONG 1 quick 2\n")?;
    let (places, one) = bound(&rt)?;
    let (other_places, two) = bound(&rt)?;
    let server = start_server(rt, alloc, places, first, 1)?;
    let other = start_server(rt, alloc, other_places, second, 1)?;
    let mut setting = setting(alloc, one.port())?;
    setting.servers.push(of_port(two.port()))?;
    let (context, engine) = Context::<Nobody>::new(rt, alloc, setting)?;
    let thread = start(rt, engine)?;
    let right = reads_of_both(&rt, &context);
    context.end(&rt);
    thread.join(&rt);
    join_server(&rt, server, one)?;
    join_server(&rt, other, two)?;
    right
}

fn reads_of_both<R: Wait + Clock>(rt: &R, context: &Context<Nobody>) -> Result<u64, Refusal> {
    let first = context.open(rt, b"FIRST", 0)?;
    let second = context.open(rt, b"SECOND", 0)?;
    for channel in [first, second] {
        let state = context.wait_live_for(rt, channel, long())?;
        if !matches!(state, ChannelState::Live(_, _, _)) {
            return Ok(0);
        }
    }
    let mut caller = context.caller(rt)?;
    let mut right = 0u64;
    for (channel, value) in [(first, 1), (second, 2), (first, 1), (second, 2)] {
        let read = value_of(rt, context, &mut caller, channel)?;
        right = right.wrapping_add(u64::from(read == value));
    }
    Ok(right)
}

/// A server whose searches come to one port, and its circuits to another.
fn at_two_ports<
    R: Threads
        + Wait
        + Clock
        + Net<Stream = TcpStream, Listener = TcpListener>
        + Copy
        + Drop
        + Send
        + 'static,
>(rt: R, alloc: Global) -> Result<bool, Refusal> {
    let file = read_records(alloc, b"record TEMP LONG 1 quick 21\n")?;
    let (of_circuits, circuits) = bound(&rt)?;
    let (of_searches, searches) = bound(&rt)?;
    let places = Places {
        listener: of_circuits.listener,
        datagrams: of_searches.datagrams,
        beacons: of_circuits.beacons,
    };
    let server = start_server(rt, alloc, places, file, 1)?;
    let read = is_read(rt, alloc, setting(alloc, searches.port())?);
    join_server(&rt, server, circuits)?;
    read
}
