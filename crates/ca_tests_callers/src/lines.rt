//! Both ends in one process, over the six standing records: the lines `get`, `put` and `monitor`
//! against the server of the line `serve`, which is given its sockets. Each line, what it says, and
//! its status; and at last what the server says, and its.

use crate::server::bound;
use crate::{say, say_yes};
use ca_link::Writer;
use ca_script::{RecordFile, read_records};
use ca_serve::Places;
use ca_text::Refusal;
use ca_tools::serve_run;
use std::alloc::Global;
use std::io::Write;
use std::net::{Net, SocketAddr, TcpListener, TcpStream};
use std::rt::Files;
use std::sync::Wait;
use std::thread;
use std::thread::{JoinHandle, Threads};
use std::time::Clock;

/// The lines. Each but the last opens one circuit.
const LINES: [&str; 12] = [
    "get TEMP",
    "get GAIN",
    "get NOTE",
    "put SETP --value=42",
    "get SETP",
    "put WAVE --value=8",
    "put SLOW --value=-3",
    "get SLOW",
    "monitor TEMP --count 1",
    "put SETP --value=4x2",
    "put GAIN --value=42",
    "get NONE --turns 20",
];

/// The circuits after which the server ends.
const CIRCUITS: u64 = 11;

/// The records that are served: those that a server has without a file.
const RECORDS: &[u8] = b"record TEMP LONG 1 quick 21
record SETP LONG 1 quick 0
record GAIN DOUBLE 1 quick 3ff0000000000000
record NOTE STRING 1 quick 4f4b
record WAVE LONG 20000 quick 7
record SLOW LONG 1 slow 0
";

/// What the server said, and its status.
#[derive(Drop)]
struct Said {
    line: Vec<u8>,
    refused: Vec<u8>,
    status: u8,
}

pub(crate) fn show<
    R: Threads
        + Wait
        + Clock
        + Net<Stream = TcpStream, Listener = TcpListener>
        + Files
        + Copy
        + Drop
        + Send
        + 'static,
    W: Write,
    E: Write,
>(rt: R, alloc: Global, out: &mut W, err: &mut E) -> Result<(), Refusal> {
    let file = read_records(alloc, RECORDS)?;
    let (places, address) = bound(&rt)?;
    let server = start_server(rt, alloc, places, file)?;
    let asked = ask_all(rt, alloc, address, out, err);
    let said = server.join(&rt);
    asked?;
    let mut wanted = Vec::from_slice(alloc, b"serving ")?;
    wanted.extend_from_slice(address.to_string(alloc)?.as_bytes())?;
    wanted.push(b'\n')?;
    let is_there = said.line.as_slice() == wanted.as_slice();
    say_yes(out, "the server says where it is:", is_there)?;
    let is_well = said.status == 0 && said.refused.is_empty();
    say(out, "status", if is_well { "0" } else { "1" })
}

/// The server of the line `serve`, at these sockets.
fn start_server<
    R: Threads
        + Wait
        + Clock
        + Net<Stream = TcpStream, Listener = TcpListener>
        + Copy
        + Drop
        + Send
        + 'static,
>(rt: R, alloc: Global, places: Places, file: RecordFile) -> Result<JoinHandle<Said>, Refusal> {
    let spawned = thread::spawn(&rt, move || served(rt, alloc, places, file));
    match spawned {
        Ok(server) => Ok(server),
        Err(_) => Err(Refusal::Device),
    }
}

fn served<
    R: Threads
        + Wait
        + Clock
        + Net<Stream = TcpStream, Listener = TcpListener>
        + Copy
        + Drop
        + Send
        + 'static,
>(rt: R, alloc: Global, places: Places, file: RecordFile) -> Said {
    let Places {
        listener,
        datagrams,
        ..
    } = places;
    let mut line = Vec::new(alloc);
    let mut refused = Vec::new(alloc);
    let mut sink = Writer::new(&mut line);
    let status = serve_run(
        rt,
        alloc,
        file,
        listener,
        datagrams,
        Some(CIRCUITS),
        &mut sink,
        &mut refused,
    );
    Said {
        line,
        refused,
        status,
    }
}

fn ask_all<
    R: Threads
        + Wait
        + Clock
        + Net<Stream = TcpStream, Listener = TcpListener>
        + Files
        + Copy
        + Drop
        + Send
        + 'static,
    W: Write,
    E: Write,
>(rt: R, alloc: Global, address: SocketAddr, out: &mut W, err: &mut E) -> Result<(), Refusal> {
    for index in 0..LINES.len() {
        let words = words_of(alloc, LINES[index], address)?;
        say(out, "ca", LINES[index])?;
        let status = ask(rt, alloc, words.as_slice(), out, err);
        say(out, "status", if status == 0 { "0" } else { "1" })?;
    }
    Ok(())
}

fn ask<
    R: Threads
        + Wait
        + Clock
        + Net<Stream = TcpStream, Listener = TcpListener>
        + Files
        + Copy
        + Drop
        + Send
        + 'static,
    W: Write,
    E: Write,
>(rt: R, alloc: Global, words: &[String], out: &mut W, err: &mut E) -> u8 {
    let mut sink = Writer::new(out);
    ca_tools::run(rt, alloc, words, &mut sink, err)
}

/// The words of a line, and then where the server is.
fn words_of(alloc: Global, line: &str, address: SocketAddr) -> Result<Vec<String>, Refusal> {
    let mut words = Vec::new(alloc);
    for word in line.split_whitespace() {
        words.push(String::from_str(alloc, word)?)?;
    }
    words.push(String::from_str(alloc, "--server")?)?;
    words.push(address.to_string(alloc)?)?;
    Ok(words)
}
