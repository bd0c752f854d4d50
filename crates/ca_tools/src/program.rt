//! `run`: the first word leads to a line with threads. For `serve` the file and the sockets are
//! opened here; the runs themselves are in `serving.rt` and `tool.rt`.
ghost use Rattle.std.specs.Prelude.{◌<◌, ◌^◌};

use crate::line::{ServeLine, read_serve};
use crate::monitor_listener::new_monitor_listener;
use crate::serving::serve_run;
use crate::tool::tool_run;
use crate::tool_line::{ToolLine, ToolVerb, read_tool, verb_of};
use ca_link::{Sink, not_understood, report};
use ca_script::{RecordFile, read_records};
use ca_text::Refusal;
use std::alloc::Global;
use std::fs::File;
use std::io::{ErrorKind, Read, Write};
use std::net::{Net, SocketAddr, SocketAddrV4, TcpListener, TcpStream, UdpSocket};
use std::rt::Files;
use std::sync::Wait;
use std::thread::Threads;
use std::time::Clock;

/// Whether the words after the program's name are for `run`: the first is the name
/// of one of these lines.
pub fn takes(words: &[String]) -> bool {
    match words.first() {
        Some(first) => first.as_str() == "serve" || verb_of(first.as_str()).is_some(),
        None => false,
    }
}

/// Runs the program by the words after its name, of which the first says which line it is, and
/// returns the exit status.
pub fn run<
    R: Threads
        + Wait
        + Clock
        + Net<Stream = TcpStream, Listener = TcpListener>
        + Files
        + Copy
        + Drop
        + Send
        + 'static,
    K: Sink,
    W: Write,
>(rt: R, alloc: Global, words: &[String], sink: &mut K, err: &mut W) -> u8
    requires sink_calls { K.call_count sink.old < 2 ^ 63 }
    requires sink_faults { K.fault_count sink.old < 2 ^ 63 }
{
    let Some((first, rest)) = words.split_first() else {
        return not_understood(err);
    };
    match verb_of(first.as_str()) {
        Some(verb) => run_tool(rt, alloc, verb, rest, sink, err),
        None => run_serve(rt, alloc, rest, sink, err),
    }
}

fn run_serve<
    R: Threads
        + Wait
        + Clock
        + Net<Stream = TcpStream, Listener = TcpListener>
        + Files
        + Copy
        + Send
        + 'static,
    K: Sink,
    W: Write,
>(rt: R, alloc: Global, words: &[String], sink: &mut K, err: &mut W) -> u8
    requires sink_calls { K.call_count sink.old < 2 ^ 63 }
    requires sink_faults { K.fault_count sink.old < 2 ^ 63 }
{
    match read_serve(alloc, words) {
        Ok(Some(line)) => serve_line(rt, alloc, line, sink, err),
        Ok(None) => not_understood(err),
        Err(refusal) => report(Err(refusal), err),
    }
}

// The file is judged first, then the sockets are bound.
fn serve_line<
    R: Threads
        + Wait
        + Clock
        + Net<Stream = TcpStream, Listener = TcpListener>
        + Files
        + Copy
        + Send
        + 'static,
    K: Sink,
    W: Write,
>(rt: R, alloc: Global, line: ServeLine<'_>, sink: &mut K, err: &mut W) -> u8
    requires sink_calls { K.call_count sink.old < 2 ^ 63 }
    requires sink_faults { K.fault_count sink.old < 2 ^ 63 }
{
    match made_ready(&rt, alloc, line) {
        Ok((file, listener, datagrams)) => serve_run(
            rt,
            alloc,
            file,
            listener,
            datagrams,
            line.circuits,
            sink,
            err,
        ),
        Err(refusal) => report(Err(refusal), err),
    }
}

// Refused as Device if the file cannot be read or a socket cannot be bound, as BadText if the file
// is not understood, and as OutOfMemory.
fn made_ready<R: Net<Stream = TcpStream, Listener = TcpListener> + Files>(
    rt: &R,
    alloc: Global,
    line: ServeLine<'_>,
) -> Result<(RecordFile, TcpListener, UdpSocket), Refusal> {
    let text = bytes_of(rt, alloc, line.records)?;
    let file = read_records(alloc, &text)?;
    let (listener, datagrams) = bound(rt, line.listen)?;
    Ok((file, listener, datagrams))
}

fn bytes_of<R: Files>(rt: &R, alloc: Global, file: &str) -> Result<Vec<u8>, Refusal> {
    let Ok(mut file) = File::open(rt, file) else {
        return Err(Refusal::Device);
    };
    let mut bytes = Vec::new(alloc);
    match file.read_to_end(&mut bytes) {
        Ok(_) => Ok(bytes),
        Err(error) => match error.kind() {
            ErrorKind::OutOfMemory => Err(Refusal::OutOfMemory),
            _ => Err(Refusal::Device),
        },
    }
}

// The listener first, and then the socket for datagrams, on its port.
fn bound<R: Net<Stream = TcpStream, Listener = TcpListener>>(
    rt: &R,
    listen: SocketAddrV4,
) -> Result<(TcpListener, UdpSocket), Refusal> {
    let Ok(listener) = TcpListener::bind(rt, SocketAddr::V4(listen)) else {
        return Err(Refusal::Device);
    };
    let Ok(address) = listener.local_addr() else {
        return Err(Refusal::Device);
    };
    match UdpSocket::bind(rt, address) {
        Ok(datagrams) => Ok((listener, datagrams)),
        Err(_) => Err(Refusal::Device),
    }
}

fn run_tool<
    R: Threads
        + Wait
        + Clock
        + Net<Stream = TcpStream, Listener = TcpListener>
        + Copy
        + Drop
        + Send
        + 'static,
    K: Sink,
    W: Write,
>(rt: R, alloc: Global, verb: ToolVerb, words: &[String], sink: &mut K, err: &mut W) -> u8 {
    match read_tool(alloc, verb, words) {
        Ok(Some(line)) => use_tool(rt, alloc, line, sink, err),
        Ok(None) => not_understood(err),
        Err(refusal) => report(Err(refusal), err),
    }
}

fn use_tool<
    R: Threads
        + Wait
        + Clock
        + Net<Stream = TcpStream, Listener = TcpListener>
        + Copy
        + Drop
        + Send
        + 'static,
    K: Sink,
    W: Write,
>(rt: R, alloc: Global, line: ToolLine<'_>, sink: &mut K, err: &mut W) -> u8 {
    match new_monitor_listener(alloc) {
        Ok(listener) => tool_run(rt, alloc, line, listener, sink, err),
        Err(refusal) => report(Err(refusal), err),
    }
}
