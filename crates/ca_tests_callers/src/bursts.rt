//! Datagrams that come together, more than are read in a turn: the next turn follows at once,
//! and not 10 ms later.

use crate::at_once::LEFT;
use crate::at_once::channels::name_of;
use crate::client::setting;
use crate::moments::{began, is_within};
use crate::peer::{Peer, PeerMessage, next_message, tell_value};
use crate::say_yes;
use ca_client_context::{Context, Listener, start};
use ca_dbr::Outcome;
use ca_text::{Mask, Refusal};
use std::alloc::Global;
use std::io::Write;
use std::net::{Net, TcpListener, TcpStream};
use std::sync::atomic::{AtomicU64, Ordering};
use std::sync::{Arc, Wait};
use std::thread;
use std::thread::Threads;
use std::time::{Clock, Duration};

const EVENT_ADD: u16 = 1;

const CREATE: u16 = 18;

/// This many come together, for which a socket has room: those of two turns are read at once in any
/// case, and the others take two turns more.
const DATAGRAMS: u32 = 200;

/// The first of CIDs that no channel has.
const NOBODYS: u32 = 0xf000_0000;

/// The bursts of a row, which takes 1,000 ms if two turns of each wait.
const BURSTS: u64 = 50;

const ROWS: u64 = 20;

/// The gate in which a listener waits: open, closed, and closed with the listener in it.
const OPEN: u64 = 0;

const CLOSED: u64 = 1;

const WAITED_IN: u64 = 2;

/// A listener that waits in a gate, and with it the thread of input and output.
#[derive(Drop)]
struct GatedListener {
    gate: Arc<AtomicU64>,
}

impl Listener for GatedListener {
    fn heard(&mut self, _outcome: &Outcome) {
        if self.gate.load(Ordering::SeqCst) != CLOSED {
            return;
        }
        self.gate.store(WAITED_IN, Ordering::SeqCst);
        for _ in 0..u64::MAX {
            if self.gate.load(Ordering::SeqCst) != WAITED_IN {
                break;
            }
            thread::yield_now();
        }
    }
}

/// A client with a subscription, and a server by hand.
#[derive(Drop)]
struct SubscribedClient {
    context: Context<GatedListener>,
    peer: Peer,
    gate: Arc<AtomicU64>,
    // How many names channels had, beside TEMP.
    names: u32,
}

pub(crate) fn show<
    R: Threads
        + Wait
        + Clock
        + Net<Stream = TcpStream, Listener = TcpListener>
        + Copy
        + Drop
        + Send
        + 'static,
    W: Write,
>(rt: R, alloc: Global, out: &mut W) -> Result<(), Refusal> {
    let peer = Peer::new(&rt)?;
    let (context, engine) = Context::<GatedListener>::new(rt, alloc, setting(alloc, peer.port)?)?;
    let thread = start(rt, engine)?;
    let mut both = SubscribedClient {
        context,
        peer,
        gate: Arc::new(alloc, AtomicU64::new(OPEN))?,
        names: 0,
    };
    let shown = both.show_rows(&rt, out);
    both.gate.store(OPEN, Ordering::SeqCst);
    both.context.end(&rt);
    thread.join(&rt);
    shown
}

impl SubscribedClient {
    fn show_rows<R: Wait + Clock, W: Write>(&mut self, rt: &R, out: &mut W) -> Result<(), Refusal> {
        let channel = self.context.open(rt, b"TEMP", 0)?;
        let (stream, _) = self.peer.live(rt, 1)?;
        let most = Duration::from_secs(10);
        let _ = self.context.wait_live_for(rt, channel, most)?;
        let Some(mask) = Mask::new(1) else {
            return Err(Refusal::BadEvent);
        };
        let listener = GatedListener {
            gate: Arc::try_clone(&self.gate)?,
        };
        if let Err((_, refusal)) = self.context.monitor(rt, channel, 5, 1, mask, listener) {
            return Err(refusal);
        }
        let added = next_message(&stream)?;
        let mut is_soon = false;
        for _ in 0..ROWS {
            let began = began(rt)?;
            let right = self.rights(rt, &stream, added)?;
            is_soon = right == BURSTS && is_within(rt, &began, LEFT);
            if is_soon {
                break;
            }
        }
        let is_soon = is_soon && added.command == EVENT_ADD;
        say_yes(out, "all datagrams of a burst are read at once:", is_soon)
    }

    /// How many bursts of a row were read to the end.
    fn rights<R: Wait + Clock>(
        &mut self,
        rt: &R,
        stream: &TcpStream,
        added: PeerMessage,
    ) -> Result<u64, Refusal> {
        let mut right = 0u64;
        for _ in 0..BURSTS {
            let is_right = self.is_read(rt, stream, added)?;
            right = right.wrapping_add(u64::from(is_right));
        }
        Ok(right)
    }

    /// A burst that comes while a listener waits, and whether the client creates the channel that
    /// the last of its search replies is for.
    fn is_read<R: Wait + Clock>(
        &mut self,
        rt: &R,
        stream: &TcpStream,
        added: PeerMessage,
    ) -> Result<bool, Refusal> {
        self.names = self.names.saturating_add(1);
        let name = name_of(self.names);
        self.context.open(rt, &name[0..7], 0)?;
        let (cid, to) = self.peer.searched(name)?;
        self.gate.store(CLOSED, Ordering::SeqCst);
        tell_value(stream, added, 1)?;
        let is_kept = self.is_waited_in(rt)?;
        for other in 1..DATAGRAMS {
            self.peer.answer(NOBODYS.wrapping_add(other), to)?;
        }
        self.peer.answer(cid, to)?;
        self.gate.store(OPEN, Ordering::SeqCst);
        let asked = next_message(stream)?;
        Ok(is_kept && asked.command == CREATE && asked.p1 == cid)
    }

    /// Whether the listener comes into the gate, within some seconds.
    fn is_waited_in<R: Clock>(&self, rt: &R) -> Result<bool, Refusal> {
        let began = began(rt)?;
        for _ in 0..u64::MAX {
            if self.gate.load(Ordering::SeqCst) == WAITED_IN {
                return Ok(true);
            }
            if !is_within(rt, &began, 10_000) {
                break;
            }
            thread::yield_now();
        }
        Ok(false)
    }
}
