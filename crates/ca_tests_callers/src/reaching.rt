//! Circuits that a client begins while a caller waits for the sockets: what that one reads and is
//! no reply is looked after at once, and not with the next turn of the thread of input and output,
//! which is 10 ms later.

use crate::at_once::{LEFT, long};
use crate::client::setting;
use crate::moments::{began, is_within};
use crate::peer::{Peer, PeerMessage, create, next_message, tell_message, tell_value};
use crate::say_yes;
use ca_arena::Handle;
use ca_client::Caller;
use ca_client_context::{Context, Nobody, Work, start};
use ca_client_core::Address;
use ca_text::Refusal;
use std::alloc::Global;
use std::io::Write;
use std::net::{Ipv4Addr, Net, TcpListener, TcpStream};
use std::sync::{Arc, Wait};
use std::thread::Threads;
use std::time::{Clock, Duration};

const SEARCH: u16 = 6;

const READ_NOTIFY: u16 = 15;

const CREATE: u16 = 18;

/// The circuits of a row, one for each priority but the lowest. They take 990 ms if
/// each is left to a turn.
const CIRCUITS: u16 = 99;

/// Each at a server of its own, and all circuits stay until the end.
const ROWS: u64 = 4;

/// This many messages are looked through for one.
const LOOKED_THROUGH: u64 = 1_000;

/// A caller that waits for a read, which is answered at the end.
#[derive(Drop)]
struct Waiter {
    context: Arc<Context<Nobody>>,
    caller: Caller,
    channel: Handle,
}

impl Work for Waiter {
    fn run<R: Wait + Clock>(self, rt: &R) {
        let Waiter {
            context,
            mut caller,
            channel,
        } = self;
        if let Ok(ticket) = context.get(rt, channel, 5, 1) {
            let _ = context.wait_for(rt, &mut caller, ticket, Duration::from_secs(60));
        }
    }
}

/// A client that searches on a circuit to a name server by hand, and what that one has heard.
#[derive(Drop)]
struct SearchingClient {
    alloc: Global,
    context: Arc<Context<Nobody>>,
    names: TcpStream,
    cids: Vec<u32>,
}

pub(crate) fn show<
    R: Threads
        + Wait
        + Clock
        + Net<Stream = TcpStream, Listener = TcpListener>
        + Copy
        + Drop
        + Send
        + 'static,
    W: Write,
>(rt: R, alloc: Global, out: &mut W) -> Result<(), Refusal> {
    let names = Peer::new(&rt)?;
    let mut setting = setting(alloc, names.port)?;
    setting.servers.clear();
    setting.names.push(Address {
        host: Ipv4Addr::LOCALHOST.to_bits(),
        port: names.port,
    })?;
    let (context, engine) = Context::<Nobody>::new(rt, alloc, setting)?;
    let thread = start(rt, engine)?;
    let mut both = SearchingClient {
        alloc,
        context: Arc::new(alloc, context)?,
        names: names.accept(&rt)?,
        cids: Vec::new(alloc),
    };
    let shown = both.show_all(rt, out);
    both.context.end(&rt);
    thread.join(&rt);
    shown
}

impl SearchingClient {
    fn show_all<
        R: Threads
            + Wait
            + Clock
            + Net<Stream = TcpStream, Listener = TcpListener>
            + Copy
            + Drop
            + Send
            + 'static,
        W: Write,
    >(&mut self, rt: R, out: &mut W) -> Result<(), Refusal> {
        let peer = Peer::new(&rt)?;
        let (channel, stream) = self.reached(&rt, &peer, 0)?;
        let asked = message_of(&stream, CREATE)?;
        create(&stream, asked.p1, 1)?;
        let _ = self.context.wait_live_for(&rt, channel, long())?;
        let waiter = Waiter {
            context: Arc::try_clone(&self.context)?,
            caller: self.context.caller(&rt)?,
            channel,
        };
        let thread = start(rt, waiter)?;
        let request = message_of(&stream, READ_NOTIFY)?;
        let is_soon = self.is_row_soon(&rt)?;
        tell_value(&stream, request, 21)?;
        thread.join(&rt);
        say_yes(out, "circuits begin at once while a caller leads:", is_soon)
    }

    /// Rows, until one is soon over.
    fn is_row_soon<R: Wait + Clock + Net<Stream = TcpStream, Listener = TcpListener>>(
        &mut self,
        rt: &R,
    ) -> Result<bool, Refusal> {
        let mut kept = Vec::new(self.alloc);
        for _ in 0..ROWS {
            let peer = Peer::new(rt)?;
            let began = began(rt)?;
            for priority in 1..CIRCUITS + 1 {
                let (_, stream) = self.reached(rt, &peer, priority)?;
                kept.push(stream)?;
            }
            if is_within(rt, &began, LEFT) {
                return Ok(true);
            }
        }
        Ok(false)
    }

    /// A channel that is searched, and found at this server, and the circuit of this priority
    /// that comes there for it.
    fn reached<R: Wait + Clock>(
        &mut self,
        rt: &R,
        peer: &Peer,
        priority: u16,
    ) -> Result<(Handle, TcpStream), Refusal> {
        let channel = self.context.open(rt, b"TEMP", priority)?;
        let cid = self.searched()?;
        let found = PeerMessage {
            command: SEARCH,
            data_type: peer.port,
            count: 0,
            p1: u32::MAX,
            p2: cid,
        };
        tell_message(&self.names, found, &[0, 13, 0, 0, 0, 0, 0, 0])?;
        Ok((channel, peer.accept(rt)?))
    }

    /// The CID of the next search that was not answered: one may come again before its answer does.
    fn searched(&mut self) -> Result<u32, Refusal> {
        for _ in 0..LOOKED_THROUGH {
            let cid = message_of(&self.names, SEARCH)?.p1;
            if !self.cids.iter().any(|other| *other == cid) {
                self.cids.push(cid)?;
                return Ok(cid);
            }
        }
        Err(Refusal::Device)
    }
}

/// The next message of this command.
fn message_of(stream: &TcpStream, command: u16) -> Result<PeerMessage, Refusal> {
    for _ in 0..LOOKED_THROUGH {
        let message = next_message(stream)?;
        if message.command == command {
            return Ok(message);
        }
    }
    Err(Refusal::Device)
}
