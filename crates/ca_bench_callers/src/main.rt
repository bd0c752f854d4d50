//! Callers of one client, timed at a server that runs already on this host: what
//! `bench/client_threads` and `bench/channels` run.
//!
//! With the words PORT CALLERS READS WINDOW it prints the microseconds that READS reads of TEMP by
//! each caller took, with WINDOW outstanding at each, from when the channel was live. With the
//! words channels PORT CHANNELS CIRCUITS it prints the microseconds until all channels were live,
//! until all were read, and until each had its first update.
//!
//! It is a program of its own, so that tests which are added do not change what is measured.
#![tactic(auto)]

mod channels;
mod timing;

use crate::channels::Took;
use ca_client_context::{Context, Listener, Setting, start};
use ca_client_core::Address;
use ca_text::Refusal;
use std::alloc::Global;
use std::env;
use std::io::Write;
use std::net::{Ipv4Addr, Net, TcpListener, TcpStream};
use std::process::ExitCode;
use std::sync::{Arc, Wait};
use std::thread::{JoinHandle, Threads};
use std::time::Clock;

fn main(rt: HostRuntime) -> ExitCode {
    let mut out = rt.stdout();
    let done = match words(&rt) {
        Ok(words) => show(rt, rt.alloc(), &words, &mut out),
        Err(refusal) => Err(refusal),
    };
    match done {
        Ok(()) => ExitCode::SUCCESS,
        Err(_) => ExitCode::FAILURE,
    }
}

fn words(rt: &HostRuntime) -> Result<Vec<String>, Refusal> {
    match env::args(rt) {
        Ok(words) => Ok(words.skip(1).collect(rt.alloc())?),
        Err(_) => Err(Refusal::Device),
    }
}

// Measures what the words ask for.
fn show<
    R: Threads
        + Wait
        + Clock
        + Net<Stream = TcpStream, Listener = TcpListener>
        + Copy
        + Drop
        + Send
        + 'static,
    W: Write,
>(rt: R, alloc: Global, words: &[String], out: &mut W) -> Result<(), Refusal> {
    let written = if let Some(course) = timing::read_words(words) {
        let (context, thread) = client(rt, alloc, course.port)?;
        let took = timing::took(rt, alloc, &context, course);
        context.end(&rt);
        thread.join(&rt);
        let took = took?;
        writeln!(out, "{took}")
    } else if let Some(crowd) = channels::read_words(words) {
        let (context, thread) = client(rt, alloc, crowd.port)?;
        let took = channels::took(&rt, alloc, &context, crowd);
        context.end(&rt);
        thread.join(&rt);
        let Took { live, read, heard } = took?;
        writeln!(out, "{live} {read} {heard}")
    } else {
        return Err(Refusal::BadText);
    };
    match written {
        Ok(()) => Ok(()),
        Err(_) => Err(Refusal::Device),
    }
}

// A client of the server at this port, with its thread of input and output.
fn client<
    L: Listener + Send + 'static,
    R: Threads
        + Wait
        + Clock
        + Net<Stream = TcpStream, Listener = TcpListener>
        + Copy
        + Drop
        + Send
        + 'static,
>(rt: R, alloc: Global, port: u16) -> Result<(Arc<Context<L>>, JoinHandle<()>), Refusal> {
    let (context, engine) = Context::<L>::new(rt, alloc, setting(alloc, port)?)?;
    let context = Arc::new(alloc, context)?;
    let thread = start(rt, engine)?;
    Ok((context, thread))
}

fn setting(alloc: Global, port: u16) -> Result<Setting, Refusal> {
    let host = Ipv4Addr::LOCALHOST.to_bits();
    Ok(Setting {
        user: Vec::from_slice(alloc, b"ca")?,
        host: Vec::from_slice(alloc, b"localhost")?,
        servers: Vec::from_slice(alloc, &[Address { host, port }])?,
        names: Vec::new(alloc),
        repeater: None,
    })
}
