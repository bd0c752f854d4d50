//! What lies under a client's lock (`state`), and servers and clients in one process, each with a
//! thread of its own. What came of it is `stdout`:
//!
//! - servers whose device holds puts, until a read on another circuit was answered, and at
//!   their end (`holding`);
//! - the lines `get`, `put` and `monitor`, what each says, and its status (`lines`);
//! - servers whose device takes its time (`fairness`);
//! - a server whose numbers are looked at (`counting`), and servers with and without patience
//!   (`patience`);
//! - a client whose callers are four threads (`callers`), and the calls that these
//!   do not make (`calls`);
//! - reads one after another, whose outcomes are told at once (`prompt`);
//! - listeners that take their time (`listening`);
//! - what a client does on its circuits, seen by a server by hand (`conduct`, `peer`), and what it
//!   does at once (`at_once`, `bursts`, `reaching`);
//! - clients of name servers, a repeater and two servers (`settings`);
//! - a client with 10,000 subscriptions on one server (`spreading`).
//!
//! With words it prints something else instead:
//!
//! - large: whether writes go on at once that are larger than a socket takes (`at_once::large`);
//! - growths: what came of growths that were refused under a client's lock (`state::growths`);
//! - names PORT: whether a client that searches on a circuit to this port of this host alone reads
//!   21 from TEMP (`settings`);
//! - shown PORT, and five words a record: it serves records with display data (`shown`).
#![tactic(auto)]

mod at_once;
mod bursts;
mod callers;
mod calls;
mod client;
mod conduct;
mod counting;
mod fairness;
mod holding;
mod lines;
mod listening;
mod moments;
mod patience;
mod peer;
mod prompt;
mod reaching;
mod server;
mod settings;
mod shown;
mod spreading;
mod state;
mod wire;

use ca_text::Refusal;
use std::alloc::Global;
use std::env;
use std::io::Write;
use std::net::{Net, TcpListener, TcpStream};
use std::process::ExitCode;
use std::rt::Files;
use std::sync::Wait;
use std::thread::Threads;
use std::time::Clock;

fn main(rt: HostRuntime) -> ExitCode {
    let mut out = rt.stdout();
    let done = match words(&rt) {
        Ok(words) => match words.as_slice() {
            [] => show(rt, rt.alloc(), &mut out, &mut rt.stdout()),
            [word] => match word.as_str() {
                "large" => at_once::large::show(rt, rt.alloc(), &mut out),
                _ => state::growths::show(rt.alloc(), &mut out),
            },
            [_, port] => settings::show_name_server(rt, rt.alloc(), port.as_str(), &mut out),
            [_, port, records @ ..] => shown::run(rt, rt.alloc(), port.as_str(), records, &mut out),
        },
        Err(refusal) => Err(refusal),
    };
    match done {
        Ok(()) => ExitCode::SUCCESS,
        Err(_) => ExitCode::FAILURE,
    }
}

fn words(rt: &HostRuntime) -> Result<Vec<String>, Refusal> {
    match env::args(rt) {
        Ok(words) => Ok(words.skip(1).collect(rt.alloc())?),
        Err(_) => Err(Refusal::Device),
    }
}

fn show<
    R: Threads
        + Wait
        + Clock
        + Net<Stream = TcpStream, Listener = TcpListener>
        + Files
        + Copy
        + Drop
        + Send
        + Sync
        + 'static,
    W: Write,
    E: Write,
>(rt: R, alloc: Global, out: &mut W, err: &mut E) -> Result<(), Refusal> {
    state::show(alloc, out)?;
    holding::show(rt, alloc, out)?;
    fairness::show(rt, alloc, out)?;
    counting::show(rt, alloc, out)?;
    patience::show(rt, alloc, out)?;
    lines::show(rt, alloc, out, err)?;
    callers::show(rt, alloc, out)?;
    prompt::show(rt, alloc, out)?;
    listening::show(rt, alloc, out)?;
    calls::show(rt, alloc, out)?;
    at_once::show(rt, alloc, out)?;
    bursts::show(rt, alloc, out)?;
    reaching::show(rt, alloc, out)?;
    let conduct = conduct::show(rt, alloc, out);
    settings::show(rt, alloc, out)?;
    spreading::show(rt, alloc, out)?;
    conduct
}

/// Tells a number.
fn tell<W: Write>(out: &mut W, what: &str, number: u64) -> Result<(), Refusal> {
    match writeln!(out, "{what}: {number}") {
        Ok(()) => Ok(()),
        Err(_) => Err(Refusal::Device),
    }
}

/// Says a word.
fn say<W: Write>(out: &mut W, what: &str, word: &str) -> Result<(), Refusal> {
    match writeln!(out, "{what} {word}") {
        Ok(()) => Ok(()),
        Err(_) => Err(Refusal::Device),
    }
}

/// Says whether something holds.
fn say_yes<W: Write>(out: &mut W, what: &str, holds: bool) -> Result<(), Refusal> {
    say(out, what, if holds { "yes" } else { "no" })
}
