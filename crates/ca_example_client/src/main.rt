//! A complete client, and a server of one circuit for it in a thread: the client reads a record,
//! writes it, waits until that is done, and reads it again. Then the server's numbers are printed.
#![tactic(auto)]

use ca_client_context::{Context, Engine, Nobody, Setting, start};
use ca_client_core::Address;
use ca_dbr::{Outcome, Value};
use ca_records::Records;
use ca_serve::{Device, Meter, Options, Places, serve};
use ca_text::Refusal;
use std::alloc::Global;
use std::io::Write;
use std::net::{Ipv4Addr, Net, SocketAddr, TcpListener, TcpStream, UdpSocket};
use std::process::ExitCode;
use std::sync::Wait;
use std::thread;
use std::thread::Threads;
use std::time::Clock;

/// Waits for at most this many turns, which is long on an idle machine.
const TURNS: u64 = 2_000;

/// The server's device, which has nothing to do.
#[derive(Clone, Copy, Drop)]
struct ExampleDevice;

impl Device for ExampleDevice {
    fn process(&self, _record: &[u8], _value: &Value) {}
}

fn main(rt: HostRuntime) -> ExitCode {
    let mut out = rt.stdout();
    match both_ends(rt, rt.alloc(), &mut out) {
        Ok(()) => ExitCode::SUCCESS,
        Err(_) => ExitCode::FAILURE,
    }
}

/// The server in a thread of its own, which ends when the client's circuit is closed.
fn both_ends<
    R: Threads
        + Wait
        + Clock
        + Net<Stream = TcpStream, Listener = TcpListener>
        + Copy
        + Drop
        + Send
        + 'static,
    W: Write,
>(rt: R, alloc: Global, out: &mut W) -> Result<(), Refusal> {
    let (places, address) = bound(&rt)?;
    let records = records(alloc)?;
    let meter = Meter::new(alloc)?;
    let mut options = Options::new(Some(1));
    options.meter = Some(meter.share()?);
    let spawned = thread::spawn(&rt, move || {
        serve(
            rt,
            alloc,
            places,
            &records,
            Vec::new(alloc),
            ExampleDevice,
            options,
        )
    });
    let Ok(server) = spawned else {
        return Err(Refusal::Device);
    };
    let talked = use_client(rt, alloc, address, &meter, out);
    let served = server.join(&rt);
    talked?;
    served?;
    Ok(())
}

/// The server's sockets, on one port of the system's choice, and where searches go.
fn bound<R: Net<Stream = TcpStream, Listener = TcpListener>>(
    rt: &R,
) -> Result<(Places, Address), Refusal> {
    let any = SocketAddr::from((Ipv4Addr::LOCALHOST, 0));
    let Ok(listener) = TcpListener::bind(rt, any) else {
        return Err(Refusal::Device);
    };
    let Ok(local) = listener.local_addr() else {
        return Err(Refusal::Device);
    };
    let Ok(datagrams) = UdpSocket::bind(rt, local) else {
        return Err(Refusal::Device);
    };
    let address = Address {
        host: Ipv4Addr::LOCALHOST.to_bits(),
        port: local.port(),
    };
    let beacons = SocketAddr::from((Ipv4Addr::LOCALHOST, 5065));
    Ok((
        Places {
            listener,
            datagrams,
            beacons,
        },
        address,
    ))
}

/// The record TEMP, of one LONG.
fn records(alloc: Global) -> Result<Records, Refusal> {
    let mut records = Records::new(alloc);
    if !records.has(b"TEMP") {
        records.define(b"TEMP", 1, false, Value::Longs(vec![in alloc; 21]?))?;
    }
    Ok(records)
}

/// The client, and its thread of input and output.
fn use_client<
    R: Threads
        + Wait
        + Clock
        + Net<Stream = TcpStream, Listener = TcpListener>
        + Copy
        + Drop
        + Send
        + 'static,
    W: Write,
>(rt: R, alloc: Global, server: Address, meter: &Meter, out: &mut W) -> Result<(), Refusal> {
    let setting = setting(alloc, server)?;
    let (context, engine) = Context::new(rt, alloc, setting)?;
    talk_with_engine(rt, alloc, &context, engine, meter, out)
}

fn setting(alloc: Global, server: Address) -> Result<Setting, Refusal> {
    Ok(Setting {
        user: Vec::from_slice(alloc, b"ca")?,
        host: Vec::from_slice(alloc, b"localhost")?,
        servers: Vec::from_slice(alloc, &[server])?,
        names: Vec::new(alloc),
        repeater: None,
    })
}

fn talk_with_engine<
    R: Threads
        + Wait
        + Clock
        + Net<Stream = TcpStream, Listener = TcpListener>
        + Copy
        + Drop
        + Send
        + 'static,
    W: Write,
>(
    rt: R,
    alloc: Global,
    context: &Context<Nobody>,
    engine: Engine<R, Nobody>,
    meter: &Meter,
    out: &mut W,
) -> Result<(), Refusal> {
    let thread = start(rt, engine)?;
    let talked = talk(&rt, alloc, context, meter, out);
    context.end(&rt);
    thread.join(&rt);
    talked
}

/// Reads, writes and reads again, and prints what came, and what the server has counted.
fn talk<R: Wait + Clock, W: Write>(
    rt: &R,
    alloc: Global,
    context: &Context<Nobody>,
    meter: &Meter,
    out: &mut W,
) -> Result<(), Refusal> {
    let mut caller = context.caller(rt)?;
    let channel = context.open(rt, b"TEMP", 0)?;
    if !context.wait_live(rt, channel, TURNS) {
        return Err(Refusal::NotLive);
    }
    let ticket = context.get(rt, channel, 5, 1)?;
    say(out, "read", &context.wait(rt, &mut caller, ticket, TURNS))?;
    let value = Value::Longs(vec![in alloc; 42]?);
    let ticket = context.put_notify(rt, channel, value)?;
    say(
        out,
        "written",
        &context.wait(rt, &mut caller, ticket, TURNS),
    )?;
    let ticket = context.get(rt, channel, 5, 1)?;
    say(out, "read", &context.wait(rt, &mut caller, ticket, TURNS))?;
    let stats = meter.stats();
    let said = writeln!(
        out,
        "the server has {} circuit and {} channel, answered {} reads, and applied {} write",
        stats.circuits, stats.channels, stats.reads, stats.writes
    );
    match said {
        Ok(()) => Ok(()),
        Err(_) => Err(Refusal::Device),
    }
}

fn say<W: Write>(out: &mut W, what: &str, outcome: &Option<Outcome>) -> Result<(), Refusal> {
    let said = match outcome {
        Some(Outcome::Value(Value::Longs(longs), _)) => {
            writeln!(out, "{what}: {}", longs.first().copied().unwrap_or(0))
        }
        Some(Outcome::Done) => writeln!(out, "{what}: done"),
        _ => writeln!(out, "{what}: no outcome"),
    };
    match said {
        Ok(()) => Ok(()),
        Err(_) => Err(Refusal::Device),
    }
}
