//! Channels that are opened, and cleared, one after another; and waits of another caller, each
//! of which a clear ends.

use crate::at_once::{ClientAndServer, LEFT, ROWS, long};
use crate::moments::{began, is_within};
use crate::peer::{create, next_message, tell_message};
use crate::say_yes;
use ca_arena::Handle;
use ca_board::Ticket;
use ca_client::Caller;
use ca_client_context::{Context, Nobody, Waited, Work, start};
use ca_client_core::ChannelState;
use ca_dbr::Outcome;
use ca_text::Refusal;
use std::io::Write;
use std::net::{SocketAddr, TcpStream};
use std::sync::atomic::{AtomicU64, Ordering};
use std::sync::{Arc, Wait};
use std::thread;
use std::thread::Threads;
use std::time::{Clock, Duration};

const CLEAR: u16 = 12;

const CREATE: u16 = 18;

/// The channels of a row: each other is opened by either call, which takes 1,000 ms if the channels
/// of one are left to a turn.
const CHANNELS: u8 = 200;

/// The channels that are cleared while another waits for a request of each.
const AWAITED: u8 = 100;

/// A caller that waits for requests in turn, each of which ends without a reply, and how many did.
#[derive(Drop)]
struct WaitingCaller {
    context: Arc<Context<Nobody>>,
    caller: Caller,
    tickets: Vec<Ticket>,
    ended: Arc<AtomicU64>,
}

impl Work for WaitingCaller {
    fn run<R: Wait + Clock>(self, rt: &R) {
        let WaitingCaller {
            context,
            mut caller,
            tickets,
            ended,
        } = self;
        for ticket in tickets {
            let outcome = context.wait_for(rt, &mut caller, ticket, long());
            if matches!(outcome, Waited::Outcome(Outcome::Disconnected)) {
                ended.fetch_add(1, Ordering::SeqCst);
            }
        }
    }
}

impl ClientAndServer {
    /// Channels that are opened, each once the one before is searched for; and, once
    /// they are live, cleared.
    pub(crate) fn show_channels<R: Wait + Clock, W: Write>(
        &mut self,
        rt: &R,
        temp: Handle,
        stream: &TcpStream,
        out: &mut W,
    ) -> Result<(), Refusal> {
        let mut is_opened = false;
        let mut is_cleared = false;
        for _ in 0..ROWS {
            let began = began(rt)?;
            let (channels, searches) = self.opened(rt, CHANNELS)?;
            is_opened = is_opened || is_within(rt, &began, LEFT);
            self.make_live(rt, &channels, &searches, stream)?;
            is_cleared = self.are_cleared_soon(rt, &channels, temp, stream)? || is_cleared;
            if is_opened && is_cleared {
                break;
            }
        }
        say_yes(out, "channels are searched for at once:", is_opened)?;
        say_yes(out, "and cleared at once:", is_cleared)
    }

    /// This many channels, each opened once the one before is searched for, with the searches.
    fn opened<R: Wait + Clock>(
        &mut self,
        rt: &R,
        count: u8,
    ) -> Result<(Vec<Handle>, Vec<(u32, SocketAddr)>), Refusal> {
        let mut channels = Vec::new(self.alloc);
        let mut searches = Vec::new(self.alloc);
        for _ in 0..count {
            let (channel, search) = self.searched(rt)?;
            channels.push(channel)?;
            searches.push(search)?;
        }
        Ok((channels, searches))
    }

    /// A channel that is opened by one of the two calls, and the search for it. No other had its
    /// name, since its searches may come late.
    fn searched<R: Wait + Clock>(
        &mut self,
        rt: &R,
    ) -> Result<(Handle, (u32, SocketAddr)), Refusal> {
        self.names = self.names.saturating_add(1);
        let name = name_of(self.names);
        let channel = if self.names % 2 == 0 {
            self.context.open(rt, &name[0..7], 0)?
        } else {
            self.context.open_spread(rt, &name[0..7])?
        };
        Ok((channel, self.peer.searched(name)?))
    }

    /// Answers these searches, one by one, and has their channels created.
    fn make_live<R: Wait + Clock>(
        &self,
        rt: &R,
        channels: &[Handle],
        searches: &[(u32, SocketAddr)],
        stream: &TcpStream,
    ) -> Result<(), Refusal> {
        for search in searches {
            let (cid, to) = *search;
            self.peer.answer(cid, to)?;
            let asked = next_message(stream)?;
            if asked.command != CREATE || asked.p1 != cid {
                return Err(Refusal::NotLive);
            }
            create(stream, cid, 1)?;
        }
        for channel in channels {
            let state = self.context.wait_live_for(rt, *channel, long())?;
            if state != ChannelState::Live(5, 1, 3) {
                return Err(Refusal::NotLive);
            }
        }
        Ok(())
    }

    /// Whether these channels are soon cleared, each other after a read. That is confirmed at the
    /// end, so that nothing else has the client take turns.
    fn are_cleared_soon<R: Wait + Clock>(
        &mut self,
        rt: &R,
        channels: &[Handle],
        temp: Handle,
        stream: &TcpStream,
    ) -> Result<bool, Refusal> {
        let mut messages = Vec::new(self.alloc);
        let mut right = true;
        let began = began(rt)?;
        for (place, channel) in channels.iter().enumerate() {
            if place % 2 == 0 {
                right = self.is_read(rt, temp, stream)? && right;
            }
            self.context.clear(rt, *channel)?;
            messages.push(next_message(stream)?)?;
        }
        let is_soon = is_within(rt, &began, LEFT);
        for message in messages {
            right = right && message.command == CLEAR;
            tell_message(stream, message, &[])?;
        }
        Ok(is_soon && right)
    }

    /// Whether another's waits for requests soon end, each as its channel is cleared,
    /// in one of some rows.
    pub(crate) fn are_waits_soon_over<R: Threads + Wait + Clock + Copy + Send + 'static>(
        &mut self,
        rt: R,
        stream: &TcpStream,
    ) -> Result<bool, Refusal> {
        for _ in 0..ROWS {
            let (channels, searches) = self.opened(&rt, AWAITED)?;
            self.make_live(&rt, &channels, &searches, stream)?;
            let is_soon = self.are_ended_soon(rt, &channels)?;
            // A read and a clear of each came meanwhile.
            for _ in 0..2 * u32::from(AWAITED) {
                let message = next_message(stream)?;
                if message.command == CLEAR {
                    tell_message(stream, message, &[])?;
                }
            }
            if is_soon {
                return Ok(true);
            }
        }
        Ok(false)
    }

    /// Clears channels while another waits for a request of each in turn: it has a
    /// millisecond to begin.
    fn are_ended_soon<R: Threads + Wait + Clock + Copy + Send + 'static>(
        &self,
        rt: R,
        channels: &[Handle],
    ) -> Result<bool, Refusal> {
        let mut tickets = Vec::new(self.alloc);
        for channel in channels {
            tickets.push(self.context.get(&rt, *channel, 5, 1)?)?;
        }
        let ended = Arc::new(self.alloc, AtomicU64::new(0))?;
        let waiter = WaitingCaller {
            context: Arc::try_clone(&self.context)?,
            caller: self.context.caller(&rt)?,
            tickets,
            ended: Arc::try_clone(&ended)?,
        };
        let thread = start(rt, waiter)?;
        let began = began(&rt)?;
        let mut cleared = 0u64;
        for channel in channels {
            thread::sleep(&rt, Duration::from_millis(1));
            self.context.clear(&rt, *channel)?;
            cleared = cleared.saturating_add(1);
            await_number(&rt, &ended, cleared);
        }
        let is_soon = is_within(&rt, &began, LEFT);
        thread.join(&rt);
        Ok(is_soon && ended.load(Ordering::SeqCst) == cleared)
    }
}

/// Waits until a number is as large as this one, for some seconds at most.
fn await_number<R: Clock>(rt: &R, number: &AtomicU64, wanted: u64) {
    let Ok(began) = began(rt) else {
        return;
    };
    for _ in 0..u64::MAX {
        if number.load(Ordering::SeqCst) >= wanted || !is_within(rt, &began, 10_000) {
            break;
        }
        thread::yield_now();
    }
}

/// A name of seven bytes with this number, and a zero.
pub(crate) fn name_of(number: u32) -> [u8; 8] {
    let mut name = *b"C000000\0";
    let mut left = number;
    for place in [6usize, 5, 4, 3, 2, 1] {
        name[place] = b'0' + u8::try_from(left % 10).unwrap_or(0);
        left /= 10;
    }
    name
}
