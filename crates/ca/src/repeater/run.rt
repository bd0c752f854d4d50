//! The run of `repeater`: a datagram comes, the core returns what is to be sent, and a send that
//! fails has the core drop that member.
ghost use Rattle.std.specs.Prelude.{◌≡◌, ◌<◌, ◌^◌, OnErr};
ghost use Rattle.ca.specs.Repeating.{Repeats, RepeatsFrom, RepeatsTo, Sends, SendsOne, Takes};

use crate::repeater::{Datagrams, RepeaterLine};
use ca_link::{Fault, Sink, report};
use ca_repeat::{Outgoing, RepeaterCore};
use ca_text::Refusal;
use std::alloc::Global;
use std::io::Write;
use std::net::Ipv4Addr;

/// Bytes of the greatest datagram.
const DATAGRAM: usize = 65_535;

/// Runs the host's repeater on what was bound, reports a refusal on `err`, and returns the exit
/// status. If nothing could be bound it is refused as Device. Port 0 is the system's choice, and a
/// line to the sink says which it is.
pub fn repeater_bound<D: Datagrams + Drop, K: Sink, W: Write>(
    alloc: Global,
    bound: Result<D, Fault>,
    line: RepeaterLine,
    sink: &mut K,
    err: &mut W,
) -> u8
    requires sink_calls { K.call_count sink.old < 2 ^ 63 }
    requires sink_faults { K.fault_count sink.old < 2 ^ 63 }
    ensures repeats { RepeatsFrom D.went D.refuses D.came D.fails bound line result }
    ensures quiet { (line.port ≡ 0 → ⊥) → sink.new ≡ sink.old }
{
    match bound {
        Err(Fault) => report(Err(Refusal::Device), err),
        Ok(mut datagrams) => match write_port(alloc, &datagrams, line.port, sink) {
            Err(refusal) => report(Err(refusal), err),
            Ok(()) => repeater_run(alloc, &mut datagrams, line.datagrams, err),
        },
    }
}

/// Writes where datagrams are received, if the system chose the port. Refused as Device if it
/// cannot, and as OutOfMemory.
fn write_port<D: Datagrams, K: Sink>(
    alloc: Global,
    datagrams: &D,
    port: u16,
    sink: &mut K,
) -> Result<(), Refusal>
    requires sink_calls { K.call_count sink.old < 2 ^ 63 }
    requires sink_faults { K.fault_count sink.old < 2 ^ 63 }
    ensures chosen { OnErr result (port ≡ 0) }
    ensures quiet { (port ≡ 0 → ⊥) → sink.new ≡ sink.old }
{
    if port != 0 {
        return Ok(());
    }
    let address = datagrams.address()?;
    let mut text = String::new(alloc);
    match writeln!(
        text,
        "repeating {}:{}",
        Ipv4Addr::from_bits(address.ip),
        address.port
    ) {
        Err(_) => Err(Refusal::OutOfMemory),
        Ok(()) => {
            sink.write(text.as_bytes())?;
            Ok(())
        }
    }
}

/// Runs the host's repeater until it took n datagrams, or without end; reports a refusal on `err`,
/// and returns the exit status.
///
/// A send that is refused drops that member. A receive that fails ends the run with refusal
/// 23, no memory with 1.
pub fn repeater_run<D: Datagrams, W: Write>(
    alloc: Global,
    datagrams: &mut D,
    limit: Option<u64>,
    err: &mut W,
) -> u8
    ensures { RepeatsTo D.went D.refuses D.came D.fails limit datagrams.old datagrams.new result }
{
    // More than can ever come: the repeater has no end.
    let count = match limit {
        None => u64::MAX,
        Some(count) => count,
    };
    report(repeat(alloc, datagrams, count), err)
}

/// Runs the host's repeater until n datagrams came. Refused as Device if a receive fails, and as
/// OutOfMemory; a send that fails drops that member.
pub fn repeat<D: Datagrams>(alloc: Global, datagrams: &mut D, count: u64) -> Result<(), Refusal>
    ensures { Repeats D.went D.refuses D.came D.fails count datagrams.old result datagrams.new }
{
    let mut repeater = RepeaterCore::new(alloc);
    let mut buffer = vec![in alloc; 0u8; DATAGRAM]?;
    for _ in 0..count {
        match take_one(datagrams, &mut repeater, &mut buffer) {
            Ok(()) => {}
            Err(refusal) => return Err(refusal),
        }
    }
    Ok(())
}

/// Takes one datagram, and sends what is due for it.
fn take_one<D: Datagrams>(
    datagrams: &mut D,
    repeater: &mut RepeaterCore,
    buffer: &mut [u8],
) -> Result<(), Refusal>
    ensures { Takes D.went D.refuses D.came D.fails datagrams.old repeater.old result datagrams.new
        repeater.new }
{
    match datagrams.receive(buffer) {
        Err(_) => Err(Refusal::Device),
        Ok((size, from)) => match repeater.receive(from, &buffer[..size]) {
            Err(refusal) => Err(refusal),
            Ok(sends) => {
                send_all(datagrams, repeater, &sends);
                Ok(())
            }
        },
    }
}

fn send_all<D: Datagrams>(datagrams: &mut D, repeater: &mut RepeaterCore, sends: &[Outgoing])
    ensures { Sends D.went D.refuses datagrams.old repeater.old sends.now datagrams.new
        repeater.new }
{
    for send in sends {
        send_one(datagrams, repeater, send);
    }
}

fn send_one<D: Datagrams>(datagrams: &mut D, repeater: &mut RepeaterCore, send: &Outgoing)
    ensures { SendsOne D.went D.refuses datagrams.old repeater.old send.now datagrams.new
        repeater.new }
{
    match datagrams.send(send.to(), send.bytes()) {
        Ok(()) => {}
        Err(_) => repeater.refused(send.to()),
    }
}
