//! What a client does at once, and not with the next turn of its thread of input and output, which
//! is 10 ms later: seen by a server that speaks by hand, in rows of which each piece is done once
//! the one before has come there. A row takes some milliseconds, and a second or more if each piece
//! is left to a turn. A busy machine holds rows up, so one of some is to be soon over.

pub(crate) mod channels;
pub(crate) mod large;

use crate::client::setting;
use crate::moments::{began, is_within};
use crate::peer::{Peer, PeerMessage, next_message, tell_message, tell_value};
use crate::say_yes;
use ca_arena::Handle;
use ca_client::Caller;
use ca_client_context::{Context, Nobody, Waited, start};
use ca_dbr::{Outcome, Value};
use ca_text::{Mask, Refusal};
use std::alloc::Global;
use std::io::Write;
use std::net::{Net, TcpListener, TcpStream};
use std::sync::{Arc, Wait};
use std::thread::{JoinHandle, Threads};
use std::time::{Clock, Duration};

const EVENT_ADD: u16 = 1;

const EVENT_CANCEL: u16 = 2;

const WRITE: u16 = 4;

const READ_NOTIFY: u16 = 15;

/// An ECHO, to which a client does nothing.
const NOTHING: PeerMessage = PeerMessage {
    command: 23,
    data_type: 0,
    count: 0,
    p1: 0,
    p2: 0,
};

/// What is done in a row.
#[derive(Clone, Copy)]
enum Row {
    Writes,
    // Two writes, once the server has spoken: so its system says later that the first of them came.
    Pairs,
    // Each after a read, for which its caller waited: so the thread of input and output has left
    // the sockets to callers.
    WritesAfterReads,
    // Subscriptions that are made, and cancelled.
    Subscriptions,
}

impl Row {
    /// How often: that takes 1,000 ms if each is left to a turn, or 1,200 if each pair waits for
    /// what the system says 40 ms later.
    fn times(self) -> u64 {
        match self {
            Row::Pairs => 30,
            _ => 100,
        }
    }
}

/// A row is soon over within this many milliseconds.
pub(crate) const LEFT: u64 = 600;

pub(crate) const ROWS: u64 = 20;

pub(crate) fn long() -> Duration {
    Duration::from_secs(10)
}

/// A client, and a server by hand.
#[derive(Drop)]
pub(crate) struct ClientAndServer {
    pub(crate) alloc: Global,
    pub(crate) context: Arc<Context<Nobody>>,
    caller: Caller,
    pub(crate) peer: Peer,
    // How many names channels had, beside TEMP.
    pub(crate) names: u32,
}

pub(crate) fn show<
    R: Threads
        + Wait
        + Clock
        + Net<Stream = TcpStream, Listener = TcpListener>
        + Copy
        + Drop
        + Send
        + 'static,
    W: Write,
>(rt: R, alloc: Global, out: &mut W) -> Result<(), Refusal> {
    let (mut both, thread) = begun(rt, alloc)?;
    let shown = both.show_all(&rt, out);
    both.end(&rt, thread);
    shown
}

fn begun<
    R: Threads
        + Wait
        + Clock
        + Net<Stream = TcpStream, Listener = TcpListener>
        + Copy
        + Drop
        + Send
        + 'static,
>(rt: R, alloc: Global) -> Result<(ClientAndServer, JoinHandle<()>), Refusal> {
    let peer = Peer::new(&rt)?;
    let (context, engine) = Context::<Nobody>::new(rt, alloc, setting(alloc, peer.port)?)?;
    let thread = start(rt, engine)?;
    let both = ClientAndServer {
        alloc,
        caller: context.caller(&rt)?,
        context: Arc::new(alloc, context)?,
        peer,
        names: 0,
    };
    Ok((both, thread))
}

impl ClientAndServer {
    fn end<R: Threads + Wait>(&self, rt: &R, thread: JoinHandle<()>) {
        self.context.end(rt);
        thread.join(rt);
    }

    fn show_all<R: Threads + Wait + Clock + Copy + Send + 'static, W: Write>(
        &mut self,
        rt: &R,
        out: &mut W,
    ) -> Result<(), Refusal> {
        let channel = self.context.open(rt, b"TEMP", 0)?;
        let (stream, _) = self.peer.live(rt, 1)?;
        let _ = self.context.wait_live_for(rt, channel, long())?;
        let is_soon = self.is_row_soon(rt, channel, &stream, Row::Writes)?;
        say_yes(out, "writes without an outcome go out at once:", is_soon)?;
        let is_soon = self.is_row_soon(rt, channel, &stream, Row::Pairs)?;
        say_yes(out, "and wait for no acknowledgement of others:", is_soon)?;
        let is_soon = self.is_row_soon(rt, channel, &stream, Row::WritesAfterReads)?;
        say_yes(out, "nor do those that come after reads wait:", is_soon)?;
        self.show_channels(rt, channel, &stream, out)?;
        let is_soon = self.are_waits_soon_over(*rt, &stream)?;
        say_yes(out, "a clear ends the wait of another at once:", is_soon)?;
        let is_soon = self.is_row_soon(rt, channel, &stream, Row::Subscriptions)?;
        say_yes(out, "subscriptions begin and end at once:", is_soon)?;
        let is_soon = self.are_waits_soon_over(*rt, &stream)?;
        say_yes(
            out,
            "beside them, too, a clear ends the wait of another:",
            is_soon,
        )
    }

    /// Rows, until one is soon over.
    fn is_row_soon<R: Wait + Clock>(
        &mut self,
        rt: &R,
        channel: Handle,
        stream: &TcpStream,
        row: Row,
    ) -> Result<bool, Refusal> {
        for _ in 0..ROWS {
            let began = began(rt)?;
            let right = self.rights(rt, channel, stream, row)?;
            if right == row.times() && is_within(rt, &began, LEFT) {
                return Ok(true);
            }
        }
        Ok(false)
    }

    /// How many of a row came as they should.
    fn rights<R: Wait + Clock>(
        &mut self,
        rt: &R,
        channel: Handle,
        stream: &TcpStream,
        row: Row,
    ) -> Result<u64, Refusal> {
        let mut right = 0u64;
        for _ in 0..row.times() {
            let is_right = match row {
                Row::Writes => self.is_written(rt, channel, stream)?,
                Row::Pairs => {
                    tell_message(stream, NOTHING, &[])?;
                    self.is_written(rt, channel, stream)? && self.is_written(rt, channel, stream)?
                }
                Row::WritesAfterReads => {
                    self.is_read(rt, channel, stream)? && self.is_written(rt, channel, stream)?
                }
                Row::Subscriptions => self.is_cancelled(rt, channel, stream)?,
            };
            right = right.wrapping_add(u64::from(is_right));
        }
        Ok(right)
    }

    /// A write that has no outcome, and comes.
    fn is_written<R: Wait + Clock>(
        &self,
        rt: &R,
        channel: Handle,
        stream: &TcpStream,
    ) -> Result<bool, Refusal> {
        let value = Value::Longs(vec![in self.alloc; 24]?);
        self.context.put(rt, channel, &value)?;
        Ok(next_message(stream)?.command == WRITE)
    }

    /// A read that goes out as soon as it is looked for, and brings what is there
    /// when it is waited for.
    pub(crate) fn is_read<R: Wait + Clock>(
        &mut self,
        rt: &R,
        channel: Handle,
        stream: &TcpStream,
    ) -> Result<bool, Refusal> {
        let ticket = self.context.get(rt, channel, 5, 1)?;
        let none = self.context.collect(&mut self.caller, ticket);
        let request = next_message(stream)?;
        tell_value(stream, request, 21)?;
        let outcome = self.context.wait_for(rt, &mut self.caller, ticket, long());
        Ok(none.is_none() && request.command == READ_NOTIFY && is_21(&outcome))
    }

    /// A subscription that comes, and is cancelled.
    fn is_cancelled<R: Wait + Clock>(
        &self,
        rt: &R,
        channel: Handle,
        stream: &TcpStream,
    ) -> Result<bool, Refusal> {
        let Some(mask) = Mask::new(1) else {
            return Err(Refusal::BadEvent);
        };
        let subscription = match self.context.monitor(rt, channel, 5, 1, mask, Nobody) {
            Ok(subscription) => subscription,
            Err((_, refusal)) => return Err(refusal),
        };
        let is_added = next_message(stream)?.command == EVENT_ADD;
        self.context.unsubscribe(rt, subscription)?;
        Ok(is_added && next_message(stream)?.command == EVENT_CANCEL)
    }
}

fn is_21(outcome: &Waited) -> bool {
    match outcome {
        Waited::Outcome(Outcome::Value(Value::Longs(longs), _)) => longs.first() == Some(&21),
        _ => false,
    }
}
