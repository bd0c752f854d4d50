//! What a client does on its circuits, seen by a server that speaks by hand: its priority, its
//! subscriptions and their ends, and what becomes of requests that are given up, are not answered,
//! or whose channel is cleared or lost.

use crate::client::setting;
use crate::moments::is_within;
use crate::peer::{
    Peer, PeerMessage, header_of, next_message, tell_message, tell_updates, tell_value,
};
use crate::{moments, say_yes};
use ca_arena::Handle;
use ca_board::Ticket;
use ca_client::{Caller, RequestCall};
use ca_client_context::{Context, Listener, Waited, Work, start};
use ca_client_core::ChannelState;
use ca_dbr::{Outcome, Value};
use ca_text::{Mask, Refusal};
use std::alloc::Global;
use std::io::Write;
use std::net::{Net, TcpListener, TcpStream};
use std::sync::atomic::{AtomicU64, Ordering};
use std::sync::{Arc, Wait};
use std::thread;
use std::thread::{JoinHandle, Threads};
use std::time::{Clock, Duration};

const VERSION: u16 = 0;

const EVENT_ADD: u16 = 1;

const EVENT_CANCEL: u16 = 2;

const ERROR: u16 = 11;

const CLEAR: u16 = 12;

const READ_NOTIFY: u16 = 15;

/// A status that a server refuses a subscription with.
const NO_READ_ACCESS: u32 = 376;

/// Subscriptions that are cancelled as soon as they were made: of many some are so before the
/// thread of input and output has seen them.
const AT_ONCE: u64 = 100;

/// Updates that come after a subscription was cancelled.
const LATE: u8 = 25;

fn long() -> Duration {
    Duration::from_secs(10)
}

/// What listeners heard: how many values, and with which status a subscription ended. While the
/// gate is closed a listener waits in it.
#[derive(Drop)]
struct Log {
    values: AtomicU64,
    status: AtomicU64,
    gate: AtomicU64,
}

/// The gate: open, closed, and closed with a listener in it.
const OPEN: u64 = 0;

const CLOSED: u64 = 1;

const WAITED_IN: u64 = 2;

#[derive(Drop)]
struct Keeping {
    log: Arc<Log>,
}

impl Listener for Keeping {
    fn heard(&mut self, outcome: &Outcome) {
        match outcome {
            Outcome::Value(_, _) => {
                self.log.values.fetch_add(1, Ordering::SeqCst);
                self.log.pass();
            }
            Outcome::Failed(status) => {
                let number = u64::from(status.number);
                self.log.status.store(number, Ordering::SeqCst);
            }
            _ => {}
        }
    }
}

impl Log {
    fn pass(&self) {
        let closed = self.gate.load(Ordering::SeqCst) == CLOSED;
        if closed {
            self.gate.store(WAITED_IN, Ordering::SeqCst);
        }
        for _ in 0..u64::MAX {
            if self.gate.load(Ordering::SeqCst) != WAITED_IN {
                break;
            }
            thread::yield_now();
        }
    }

    fn is_waited_in(&self) -> bool {
        self.gate.load(Ordering::SeqCst) == WAITED_IN
    }
}

/// A caller that waits for a read, for longer than a server by hand waits for it to come.
#[derive(Drop)]
struct PatientCaller {
    context: Arc<Context<Keeping>>,
    caller: Caller,
    channel: Handle,
}

impl Work for PatientCaller {
    fn run<R: Wait + Clock>(self, rt: &R) {
        let PatientCaller {
            context,
            mut caller,
            channel,
        } = self;
        if let Ok(ticket) = context.get(rt, channel, 5, 1) {
            let _ = context.wait_for(rt, &mut caller, ticket, Duration::from_secs(60));
        }
    }
}

/// A client, a server by hand, and what both use.
#[derive(Drop)]
struct ClientUnderTest {
    alloc: Global,
    context: Arc<Context<Keeping>>,
    caller: Caller,
    peer: Peer,
    log: Arc<Log>,
}

pub(crate) fn show<
    R: Threads
        + Wait
        + Clock
        + Net<Stream = TcpStream, Listener = TcpListener>
        + Copy
        + Drop
        + Send
        + 'static,
    W: Write,
>(rt: R, alloc: Global, out: &mut W) -> Result<(), Refusal> {
    let peer = Peer::new(&rt)?;
    let (context, engine) = Context::<Keeping>::new(rt, alloc, setting(alloc, peer.port)?)?;
    let log = Log {
        values: AtomicU64::new(0),
        status: AtomicU64::new(0),
        gate: AtomicU64::new(OPEN),
    };
    let thread = start(rt, engine)?;
    let mut both = ClientUnderTest {
        alloc,
        caller: context.caller(&rt)?,
        context: Arc::new(alloc, context)?,
        peer,
        log: Arc::new(alloc, log)?,
    };
    let shown = both.show_all(&rt, out);
    both.context.end(&rt);
    thread.join(&rt);
    // The server keeps the circuit until then.
    let (ticket, _stream) = shown?;
    both.show_ended(&rt, ticket, out)
}

impl ClientUnderTest {
    fn show_all<R: Threads + Wait + Clock + Copy + Send + 'static, W: Write>(
        &mut self,
        rt: &R,
        out: &mut W,
    ) -> Result<(Ticket, TcpStream), Refusal> {
        let channel = self.context.open(rt, b"TEMP", 7)?;
        let (stream, greeting) = self.peer.live(rt, 1)?;
        let is_first = greeting.command == VERSION && greeting.data_type == 7;
        say_yes(out, "the first message has the priority:", is_first)?;
        let state = self.context.wait_live_for(rt, channel, long())?;
        let is_live = state == ChannelState::Live(5, 1, 3);
        say_yes(out, "the channel is as it was created:", is_live)?;
        self.show_requests(rt, channel, &stream, out)?;
        self.show_refused(rt, channel, &stream, out)?;
        self.show_sent(rt, channel, &stream, out)?;
        self.show_cancelled(rt, channel, &stream, out)?;
        self.show_cleared(rt, channel, &stream, out)?;
        self.show_lost(rt, out)
    }

    /// The request that was open when the client ended.
    fn show_ended<R: Wait + Clock, W: Write>(
        &mut self,
        rt: &R,
        ticket: Ticket,
        out: &mut W,
    ) -> Result<(), Refusal> {
        let outcome = self.context.wait_for(rt, &mut self.caller, ticket, long());
        say_yes(
            out,
            "the end ends requests that are open:",
            is_disconnected(&outcome),
        )
    }

    /// A request that is not answered for a while, and one that is given up.
    fn show_requests<R: Wait + Clock, W: Write>(
        &mut self,
        rt: &R,
        channel: Handle,
        stream: &TcpStream,
        out: &mut W,
    ) -> Result<(), Refusal> {
        let ticket = self.context.get(rt, channel, 5, 1)?;
        let began = moments::began(rt)?;
        let most = Duration::from_millis(200);
        let first = self.context.wait_for(rt, &mut self.caller, ticket, most);
        let is_late = !is_within(rt, &began, 200) && is_within(rt, &began, 1_500);
        let is_timed = matches!(first, Waited::TimedOut) && is_late;
        say_yes(out, "a wait ends in its time:", is_timed)?;
        let began = moments::began(rt)?;
        let turns = self.context.wait(rt, &mut self.caller, ticket, 20);
        let is_late = !is_within(rt, &began, 200) && is_within(rt, &began, 1_500);
        say_yes(out, "and one of twenty turns:", turns.is_none() && is_late)?;
        let request = next_message(stream)?;
        tell_value(stream, request, 21)?;
        let then = self.context.wait_for(rt, &mut self.caller, ticket, long());
        let is_read = request.command == READ_NOTIFY && has(&then, 21);
        say_yes(out, "its outcome comes later all the same:", is_read)?;
        let given = self.context.get(rt, channel, 5, 1)?;
        let other = next_message(stream)?;
        let none = self.context.give_up(&mut self.caller, given);
        tell_value(stream, other, 22)?;
        let next = self.read(rt, channel, stream, 23)?;
        let over = self.context.wait_for(rt, &mut self.caller, given, long());
        let is_over = none.is_none() && next && matches!(over, Waited::Over);
        say_yes(out, "a request that was given up has no outcome:", is_over)
    }

    /// Reads, and answers with this value.
    fn read<R: Wait + Clock>(
        &mut self,
        rt: &R,
        channel: Handle,
        stream: &TcpStream,
        value: u8,
    ) -> Result<bool, Refusal> {
        let ticket = self.context.get(rt, channel, 5, 1)?;
        let request = next_message(stream)?;
        tell_value(stream, request, value)?;
        let outcome = self.context.wait_for(rt, &mut self.caller, ticket, long());
        Ok(request.command == READ_NOTIFY && has(&outcome, value))
    }

    /// Subscribes.
    fn added<R: Wait + Clock>(&mut self, rt: &R, channel: Handle) -> Result<Handle, Refusal> {
        let Some(mask) = Mask::new(1) else {
            return Err(Refusal::BadEvent);
        };
        let listener = Keeping {
            log: Arc::try_clone(&self.log)?,
        };
        match self.context.monitor(rt, channel, 5, 1, mask, listener) {
            Ok(subscription) => Ok(subscription),
            Err((_, refusal)) => Err(refusal),
        }
    }

    /// Subscribes, and says what came at the server, and the subscription.
    fn subscribe<R: Wait + Clock>(
        &mut self,
        rt: &R,
        channel: Handle,
        stream: &TcpStream,
    ) -> Result<(PeerMessage, Handle), Refusal> {
        let subscription = self.added(rt, channel)?;
        Ok((next_message(stream)?, subscription))
    }

    /// Subscriptions that are cancelled at once, and whether their listeners are dropped.
    fn are_dropped<R: Wait + Clock>(
        &mut self,
        rt: &R,
        channel: Handle,
        stream: &TcpStream,
    ) -> Result<bool, Refusal> {
        let mut cancelled = 0u64;
        for _ in 0..AT_ONCE {
            let subscription = self.added(rt, channel)?;
            self.context.unsubscribe(rt, subscription)?;
        }
        for _ in 0..AT_ONCE {
            let is_added = next_message(stream)?.command == EVENT_ADD;
            let is_cancelled = next_message(stream)?.command == EVENT_CANCEL;
            cancelled = cancelled.wrapping_add(u64::from(is_added && is_cancelled));
        }
        Ok(cancelled == AT_ONCE && self.has_no_other_owner(rt))
    }

    /// Whether all listeners that there were are dropped, within some seconds: none
    /// but this has their log.
    fn has_no_other_owner<R: Wait + Clock>(&self, rt: &R) -> bool {
        for _ in 0..1_000 {
            if Arc::strong_count(&self.log) == 1 {
                return true;
            }
            thread::sleep(rt, Duration::from_millis(10));
        }
        false
    }

    /// A subscription that the server refuses.
    fn show_refused<R: Wait + Clock, W: Write>(
        &mut self,
        rt: &R,
        channel: Handle,
        stream: &TcpStream,
        out: &mut W,
    ) -> Result<(), Refusal> {
        let (added, subscription) = self.subscribe(rt, channel, stream)?;
        let error = PeerMessage {
            command: ERROR,
            data_type: 0,
            count: 0,
            p1: 0,
            p2: NO_READ_ACCESS,
        };
        tell_message(stream, error, &quoted(added))?;
        let is_told = reaches(rt, &self.log.status, u64::from(NO_READ_ACCESS));
        let is_over = self.context.unsubscribe(rt, subscription) == Err(Refusal::StaleHandle);
        let is_ended = added.command == EVENT_ADD && is_told && is_over;
        say_yes(
            out,
            "a subscription that is refused ends with its status:",
            is_ended && self.has_no_other_owner(rt),
        )
    }

    /// Requests while a listener waits, and the thread of input and output with it. Its
    /// subscription is cancelled meanwhile: it was told the first of three updates.
    fn show_sent<R: Threads + Wait + Clock + Copy + Send + 'static, W: Write>(
        &mut self,
        rt: &R,
        channel: Handle,
        stream: &TcpStream,
        out: &mut W,
    ) -> Result<(), Refusal> {
        let (added, subscription) = self.subscribe(rt, channel, stream)?;
        self.log.gate.store(CLOSED, Ordering::SeqCst);
        tell_updates(stream, added, [1, 2, 3])?;
        let is_kept = reaches(rt, &self.log.gate, WAITED_IN);
        let sent = self.sent(rt, channel, stream);
        let waiter = self.sent_for_waiter(*rt, channel, stream);
        self.context.unsubscribe(rt, subscription)?;
        self.log.gate.store(OPEN, Ordering::SeqCst);
        let is_sent = is_kept && matches!(sent, Ok(2));
        say_yes(out, "requests go out while a listener waits:", is_sent)?;
        let (thread, is_sent) = waiter?;
        thread.join(rt);
        say_yes(out, "and while their callers do:", is_kept && is_sent)?;
        // It goes out once what was read before it was told.
        let is_cancelled = next_message(stream)?.command == EVENT_CANCEL;
        let is_quiet = self.log.values.swap(0, Ordering::SeqCst) == 1;
        let what = "what was read before a cancel is not heard after it:";
        say_yes(out, what, is_cancelled && is_quiet)
    }

    /// How many of two requests come while a listener waits: one that is looked for, and one by the
    /// call that makes several.
    fn sent<R: Wait + Clock>(
        &mut self,
        rt: &R,
        channel: Handle,
        stream: &TcpStream,
    ) -> Result<u64, Refusal> {
        let looked = self.context.get(rt, channel, 5, 1)?;
        self.context.collect(&mut self.caller, looked);
        let sent = u64::from(self.is_sent(stream)?);
        let mut rooms = Vec::new(self.alloc);
        let mut tickets = Vec::new(self.alloc);
        let requests = [RequestCall::Read(channel, 5, 1)];
        self.context
            .request_all(rt, &requests, &mut rooms, &mut tickets)?;
        if let Some(joint) = tickets.pop() {
            self.context.wait(rt, &mut self.caller, joint, 1);
        }
        Ok(sent.wrapping_add(u64::from(self.is_sent(stream)?)))
    }

    /// A caller in a thread of its own that waits for a read, and whether that comes before its
    /// wait is over. It is answered.
    fn sent_for_waiter<R: Threads + Wait + Clock + Copy + Send + 'static>(
        &self,
        rt: R,
        channel: Handle,
        stream: &TcpStream,
    ) -> Result<(JoinHandle<()>, bool), Refusal> {
        let waiter = PatientCaller {
            context: Arc::try_clone(&self.context)?,
            caller: self.context.caller(&rt)?,
            channel,
        };
        let thread = start(rt, waiter)?;
        let request = next_message(stream)?;
        tell_value(stream, request, 24)?;
        Ok((
            thread,
            request.command == READ_NOTIFY && self.log.is_waited_in(),
        ))
    }

    /// Whether a read comes while a listener waits.
    fn is_sent(&self, stream: &TcpStream) -> Result<bool, Refusal> {
        let request = next_message(stream)?;
        Ok(request.command == READ_NOTIFY && self.log.is_waited_in())
    }

    /// A subscription that is cancelled: one message goes out, and what comes after
    /// it is heard by nobody.
    fn show_cancelled<R: Wait + Clock, W: Write>(
        &mut self,
        rt: &R,
        channel: Handle,
        stream: &TcpStream,
        out: &mut W,
    ) -> Result<(), Refusal> {
        let (added, subscription) = self.subscribe(rt, channel, stream)?;
        tell_value(stream, added, 1)?;
        let is_heard = reaches(rt, &self.log.values, 1);
        self.context.unsubscribe(rt, subscription)?;
        let cancelled = next_message(stream)?;
        for value in 0..LATE {
            tell_value(stream, added, value)?;
        }
        // It is the only one if the next message is the read's.
        let is_only = self.read(rt, channel, stream, 25)?;
        let is_one = cancelled.command == EVENT_CANCEL && cancelled.p2 == added.p2 && is_only;
        say_yes(
            out,
            "a cancelled subscription sends one message:",
            is_heard && is_one,
        )?;
        let is_quiet = self.log.values.load(Ordering::SeqCst) == 1;
        say_yes(out, "and hears nothing more:", is_quiet)?;
        let are_dropped = self.are_dropped(rt, channel, stream)?;
        say_yes(out, "listeners go with their subscriptions:", are_dropped)
    }

    /// A channel that is cleared while a request is open.
    fn show_cleared<R: Wait + Clock, W: Write>(
        &mut self,
        rt: &R,
        channel: Handle,
        stream: &TcpStream,
        out: &mut W,
    ) -> Result<(), Refusal> {
        let ticket = self.context.get(rt, channel, 5, 1)?;
        let request = next_message(stream)?;
        self.context.clear(rt, channel)?;
        let began = moments::began(rt)?;
        let outcome = self.context.wait_for(rt, &mut self.caller, ticket, long());
        let is_told = is_disconnected(&outcome) && is_within(rt, &began, 5_000);
        let cleared = next_message(stream)?;
        let is_sent = request.command == READ_NOTIFY && cleared.command == CLEAR;
        let is_stale = self.context.channel_state(rt, channel) == Err(Refusal::StaleHandle);
        say_yes(
            out,
            "a channel that is cleared ends its requests:",
            is_told && is_sent && is_stale,
        )
    }

    /// A circuit that ends while a request is open: its channel is searched again, and live on
    /// another. There a request is open at the end.
    fn show_lost<R: Wait + Clock, W: Write>(
        &mut self,
        rt: &R,
        out: &mut W,
    ) -> Result<(Ticket, TcpStream), Refusal> {
        let channel = self.context.open(rt, b"TEMP", 0)?;
        let (stream, _) = self.peer.live(rt, 1)?;
        let _ = self.context.wait_live_for(rt, channel, long())?;
        let ticket = self.context.get(rt, channel, 5, 1)?;
        let _ = next_message(&stream)?;
        drop(stream);
        let outcome = self.context.wait_for(rt, &mut self.caller, ticket, long());
        say_yes(
            out,
            "a circuit that is lost ends its requests:",
            is_disconnected(&outcome),
        )?;
        let (again, _) = self.peer.live(rt, 1)?;
        let state = self.context.wait_live_for(rt, channel, long())?;
        let is_back = matches!(state, ChannelState::Live(_, _, _));
        let is_read = self.read(rt, channel, &again, 26)?;
        say_yes(
            out,
            "and its channel is live on another:",
            is_back && is_read,
        )?;
        Ok((self.context.get(rt, channel, 5, 1)?, again))
    }
}

/// What an ERROR says after its header: the header of the request, and no text.
fn quoted(request: PeerMessage) -> [u8; 24] {
    let mut payload = [0u8; 24];
    payload[0..16].copy_from_slice(&header_of(request, 16));
    payload
}

/// Whether a number comes to be this one within some seconds.
fn reaches<R: Clock>(rt: &R, number: &AtomicU64, wanted: u64) -> bool {
    for _ in 0..1_000 {
        if number.load(Ordering::SeqCst) == wanted {
            return true;
        }
        thread::sleep(rt, Duration::from_millis(10));
    }
    false
}

fn has(outcome: &Waited, value: u8) -> bool {
    match outcome {
        Waited::Outcome(Outcome::Value(Value::Longs(longs), _)) => {
            longs.first() == Some(&i32::from(value))
        }
        _ => false,
    }
}

fn is_disconnected(outcome: &Waited) -> bool {
    matches!(outcome, Waited::Outcome(Outcome::Disconnected))
}
