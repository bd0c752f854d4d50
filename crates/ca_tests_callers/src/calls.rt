//! Calls of a context that the other programs do not make, against a server: requests by one call,
//! reads into the memory of a value and reads that nobody waits for, a subscription that is refused
//! and one that is cancelled, reads with display data, waits that end in their time, at once for a
//! ticket that has ended, and at the end of the client; and a context that is dropped.

use crate::client::setting;
use crate::moments::{began, is_within};
use crate::server::{bound, start_server};
use crate::{say_yes, tell};
use ca_arena::Handle;
use ca_board::Ticket;
use ca_client::{Caller, RequestCall};
use ca_client_context::{Context, Listener, Waited, Work, start};
use ca_client_core::ChannelState;
use ca_dbr::{Display, Limits, Outcome, Value};
use ca_script::read_records;
use ca_text::{Mask, Refusal};
use std::alloc::Global;
use std::io::Write;
use std::net::{Net, TcpListener, TcpStream};
use std::sync::atomic::{AtomicU64, Ordering};
use std::sync::{Arc, Wait};
use std::thread;
use std::thread::Threads;
use std::time::{Clock, Duration};

/// Waits for at most this many turns, which is long on an idle machine.
const TURNS: u64 = 2_000;

/// What is there at once is there within this many milliseconds: much less than a long wait takes.
const SOON: u64 = 5_000;

/// Reads one after another, each of which is waited for. They take some milliseconds, and this many
/// if each is left to a turn of another thread.
const READS: u64 = 500;

const LEFT: u64 = 4_000;

/// The limits of GAIN: 100.5, -20.25, 90.5, 80.25, -10.5, -15.75, 95.125 and -18.0625.
const LIMITS: Limits = Limits {
    upper_display: 0x4059_2000_0000_0000,
    lower_display: 0xc034_4000_0000_0000,
    upper_alarm: 0x4056_a000_0000_0000,
    upper_warning: 0x4054_1000_0000_0000,
    lower_warning: 0xc025_0000_0000_0000,
    lower_alarm: 0xc02f_8000_0000_0000,
    upper_control: 0x4057_c800_0000_0000,
    lower_control: 0xc032_1000_0000_0000,
};

/// Its value: 2.75.
const GAIN: u64 = 0x4006_0000_0000_0000;

/// A wait that is to end before this.
fn long() -> Duration {
    Duration::from_millis(20_000)
}

/// Counts what it hears.
#[derive(Drop)]
struct Counting {
    heard: Arc<AtomicU64>,
}

impl Listener for Counting {
    fn heard(&mut self, _outcome: &Outcome) {
        self.heard.fetch_add(1, Ordering::SeqCst);
    }
}

/// A thread that waits for a channel that nobody has.
#[derive(Drop)]
struct Searching {
    context: Arc<Context<Counting>>,
    channel: Handle,
}

impl Work for Searching {
    fn run<R: Wait + Clock>(self, rt: &R) {
        let _ = self.context.wait_live_for(rt, self.channel, long());
    }
}

pub(crate) fn show<
    R: Threads
        + Wait
        + Clock
        + Net<Stream = TcpStream, Listener = TcpListener>
        + Copy
        + Drop
        + Send
        + 'static,
    W: Write,
>(rt: R, alloc: Global, out: &mut W) -> Result<(), Refusal> {
    let mut file = read_records(alloc, b"record TEMP LONG 1 quick 21\n")?;
    let display = Arc::new(alloc, Display::new(alloc, b"mA/s", 3, LIMITS)?)?;
    let value = Value::Doubles(vec![in alloc; GAIN]?);
    file.records
        .define_displayed(b"GAIN", 1, false, value, display)?;
    let (places, address) = bound(&rt)?;
    let server = start_server(rt, alloc, places, file, 2)?;
    let shown = show_ended(rt, alloc, address.port(), out);
    let dropped = show_dropped(rt, alloc, address.port(), out);
    let served = server.join(&rt);
    shown?;
    dropped?;
    served?;
    Ok(())
}

/// A client that makes its calls, and is ended while one of its threads waits.
fn show_ended<
    R: Threads
        + Wait
        + Clock
        + Net<Stream = TcpStream, Listener = TcpListener>
        + Copy
        + Drop
        + Send
        + 'static,
    W: Write,
>(rt: R, alloc: Global, port: u16, out: &mut W) -> Result<(), Refusal> {
    let (context, engine) = Context::<Counting>::new(rt, alloc, setting(alloc, port)?)?;
    let context = Arc::new(alloc, context)?;
    let thread = start(rt, engine)?;
    let shown = show_calls(&rt, alloc, &context, out);
    let channel = context.open(&rt, b"NONE", 0)?;
    let searching = Searching {
        context: Arc::try_clone(&context)?,
        channel,
    };
    let waiter = start(rt, searching)?;
    let began = began(&rt)?;
    context.end(&rt);
    waiter.join(&rt);
    thread.join(&rt);
    shown?;
    say_yes(
        out,
        "the end ends the wait of another:",
        is_within(&rt, &began, SOON),
    )
}

/// A client whose context is dropped, which ends its thread.
fn show_dropped<
    R: Threads
        + Wait
        + Clock
        + Net<Stream = TcpStream, Listener = TcpListener>
        + Copy
        + Drop
        + Send
        + 'static,
    W: Write,
>(rt: R, alloc: Global, port: u16, out: &mut W) -> Result<(), Refusal> {
    let (context, engine) = Context::<Counting>::new(rt, alloc, setting(alloc, port)?)?;
    let thread = start(rt, engine)?;
    let channel = context.open(&rt, b"TEMP", 0)?;
    let is_live = context.wait_live(&rt, channel, TURNS);
    drop(context);
    thread.join(&rt);
    say_yes(
        out,
        "a client whose context was dropped has ended:",
        is_live,
    )
}

fn show_calls<R: Wait + Clock, W: Write>(
    rt: &R,
    alloc: Global,
    context: &Context<Counting>,
    out: &mut W,
) -> Result<(), Refusal> {
    let channel = context.open(rt, b"TEMP", 0)?;
    if !context.wait_live(rt, channel, TURNS) {
        return Err(Refusal::NotLive);
    }
    let mut caller = context.caller(rt)?;
    show_requests(rt, alloc, context, channel, &mut caller, out)?;
    show_reads(rt, alloc, context, channel, &mut caller, out)?;
    show_waits(rt, context, channel, &mut caller, out)?;
    show_subscriptions(rt, alloc, context, channel, &mut caller, out)?;
    show_displays(rt, context, channel, &mut caller, out)
}

/// A hundred reads by one call.
fn show_requests<R: Wait + Clock, W: Write>(
    rt: &R,
    alloc: Global,
    context: &Context<Counting>,
    channel: Handle,
    caller: &mut Caller,
    out: &mut W,
) -> Result<(), Refusal> {
    let mut requests = Vec::new(alloc);
    for _ in 0..100 {
        requests.push(RequestCall::Read(channel, 5, 1))?;
    }
    let mut rooms = Vec::new(alloc);
    let mut tickets = Vec::new(alloc);
    context.request_all(rt, &requests, &mut rooms, &mut tickets)?;
    let mut right = 0u64;
    for index in 0..tickets.len() {
        if let Waited::Outcome(outcome) = context.wait_for(rt, caller, tickets[index], long()) {
            right = right.wrapping_add(u64::from(is_21(&outcome)));
        }
    }
    tell(out, "reads by one call", right)
}

/// Reads into the memory of a value, reads that are looked for and not waited for, and many that
/// are waited for in turn.
fn show_reads<R: Wait + Clock, W: Write>(
    rt: &R,
    alloc: Global,
    context: &Context<Counting>,
    channel: Handle,
    caller: &mut Caller,
    out: &mut W,
) -> Result<(), Refusal> {
    let began = began(rt)?;
    let mut right = 0u64;
    for _ in 0..READS {
        let room = Value::Longs(vec![in alloc; 5; 3]?);
        let ticket = context.get_into(rt, channel, 5, 1, room)?;
        if let Waited::Outcome(outcome) = context.wait_for(rt, caller, ticket, long()) {
            right = right.wrapping_add(u64::from(is_21(&outcome)));
        }
    }
    tell(out, "reads into the memory of a value", right)?;
    say_yes(
        out,
        "each is read by whoever waits for it:",
        is_within(rt, &began, LEFT),
    )?;
    let mut found = 0u64;
    for _ in 0..10 {
        let ticket = context.get(rt, channel, 5, 1)?;
        found = found.wrapping_add(u64::from(is_found(rt, context, caller, ticket)));
    }
    tell(out, "reads that nobody waits for", found)
}

/// Whether an outcome comes that is looked for every millisecond.
fn is_found<R: Wait + Clock>(
    rt: &R,
    context: &Context<Counting>,
    caller: &mut Caller,
    ticket: Ticket,
) -> bool {
    for _ in 0..SOON {
        if let Some(outcome) = context.collect(caller, ticket) {
            return is_21(&outcome);
        }
        thread::sleep(rt, Duration::from_millis(1));
    }
    false
}

fn is_21(outcome: &Outcome) -> bool {
    match outcome {
        Outcome::Value(Value::Longs(longs), _) => longs.first() == Some(&21),
        _ => false,
    }
}

/// A wait for a ticket that has ended, and one for a channel that nobody has.
fn show_waits<R: Wait + Clock, W: Write>(
    rt: &R,
    context: &Context<Counting>,
    channel: Handle,
    caller: &mut Caller,
    out: &mut W,
) -> Result<(), Refusal> {
    let ticket = context.get(rt, channel, 5, 1)?;
    let first = context.wait_for(rt, caller, ticket, long());
    let began = began(rt)?;
    let second = context.wait_for(rt, caller, ticket, long());
    let is_over = matches!(first, Waited::Outcome(_)) && matches!(second, Waited::Over);
    let is_over = is_over && is_within(rt, &began, SOON);
    say_yes(out, "a ticket that has ended is told at once:", is_over)?;
    let nobody = context.open(rt, b"NONE", 0)?;
    let state = context.wait_live_for(rt, nobody, Duration::from_millis(50))?;
    let is_searching = state == ChannelState::Searching && is_within(rt, &began, SOON);
    context.clear(rt, nobody)?;
    let is_stale = context.wait_live_for(rt, nobody, long()) == Err(Refusal::StaleHandle);
    say_yes(
        out,
        "a wait for a channel ends in its time:",
        is_searching && is_stale,
    )
}

/// A subscription that is refused, and one that is cancelled.
fn show_subscriptions<R: Wait + Clock, W: Write>(
    rt: &R,
    alloc: Global,
    context: &Context<Counting>,
    channel: Handle,
    caller: &mut Caller,
    out: &mut W,
) -> Result<(), Refusal> {
    let heard = Arc::new(alloc, AtomicU64::new(0))?;
    let Some(mask) = Mask::new(1) else {
        return Err(Refusal::BadEvent);
    };
    let refused = Counting {
        heard: Arc::try_clone(&heard)?,
    };
    let Err((again, Refusal::BadType)) = context.monitor(rt, channel, 99, 1, mask, refused) else {
        return say_yes(out, "a refusal hands the listener back:", false);
    };
    let Ok(subscription) = context.monitor(rt, channel, 5, 1, mask, again) else {
        return say_yes(out, "a refusal hands the listener back:", false);
    };
    for _ in 0..TURNS {
        if heard.load(Ordering::SeqCst) != 0 {
            break;
        }
        thread::sleep(rt, Duration::from_millis(10));
    }
    say_yes(
        out,
        "a refusal hands the listener back:",
        heard.load(Ordering::SeqCst) == 1,
    )?;
    context.unsubscribe(rt, subscription)?;
    for value in 0..20i32 {
        let ticket = context.put_notify(rt, channel, Value::Longs(vec![in alloc; value]?))?;
        let _ = context.wait_for(rt, caller, ticket, long());
    }
    say_yes(
        out,
        "after it was cancelled nothing more is heard:",
        heard.load(Ordering::SeqCst) == 1,
    )
}

/// Reads with display data, of a record that has them and of one that has not.
fn show_displays<R: Wait + Clock, W: Write>(
    rt: &R,
    context: &Context<Counting>,
    plain: Handle,
    caller: &mut Caller,
    out: &mut W,
) -> Result<(), Refusal> {
    let channel = context.open(rt, b"GAIN", 0)?;
    if !context.wait_live(rt, channel, TURNS) {
        return Err(Refusal::NotLive);
    }
    let ticket = context.get_display(rt, channel, 34, 1)?;
    let is_gain = match context.wait_for(rt, caller, ticket, long()) {
        Waited::Outcome(Outcome::Displayed(Value::Doubles(doubles), _, display)) => {
            doubles.first() == Some(&GAIN)
                && display.units == *b"mA/s\0\0\0\0"
                && display.precision == 3
                && display.limits == LIMITS
                && display.states.is_empty()
        }
        _ => false,
    };
    say_yes(
        out,
        "a read with display data brings those of its record:",
        is_gain,
    )?;
    // LONG with control limits; the status is ECA_BADTYPE.
    let ticket = context.get_display(rt, plain, 33, 1)?;
    let is_refused = match context.wait_for(rt, caller, ticket, long()) {
        Waited::Outcome(Outcome::Failed(status)) => status.number == 114,
        _ => false,
    };
    say_yes(out, "of a record without them it is refused:", is_refused)?;
    let is_bad = context.get_display(rt, channel, 20, 1) == Err(Refusal::BadType);
    say_yes(out, "and so is a type without them:", is_bad)
}
