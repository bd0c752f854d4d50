//! Writes larger than a socket takes, each after a read, so that the thread of input and output has
//! left the sockets to callers: what is left of a write goes on as soon as its server takes some,
//! and not with the next turn. `tools/faults` runs this, with small buffers of sockets.

use crate::at_once::{ClientAndServer, begun, long};
use crate::moments::{began, is_within};
use crate::say_yes;
use crate::wire::take;
use ca_arena::Handle;
use ca_dbr::Value;
use ca_text::Refusal;
use std::alloc::Global;
use std::io::Write;
use std::net::{Net, TcpListener, TcpStream};
use std::sync::Wait;
use std::thread;
use std::thread::Threads;
use std::time::{Clock, Duration};

const WRITE: u8 = 4;

/// The LONGs of a write, of which the buffers hold a third, and how many of them the
/// server takes at once.
const LONGS: u16 = 30_000;

const AT_ONCE: usize = 1_000;

/// The writes of a row. A busy machine holds up some of them: one in four comes within half a turn,
/// in one of some rows.
const WRITES: u64 = 100;

const PROMPT: u64 = 25;

const HALF: u64 = 5;

const ROWS: u64 = 5;

pub(crate) fn show<
    R: Threads
        + Wait
        + Clock
        + Net<Stream = TcpStream, Listener = TcpListener>
        + Copy
        + Drop
        + Send
        + 'static,
    W: Write,
>(rt: R, alloc: Global, out: &mut W) -> Result<(), Refusal> {
    let (mut both, thread) = begun(rt, alloc)?;
    let shown = both.show_large(&rt, out);
    both.end(&rt, thread);
    shown
}

impl ClientAndServer {
    fn show_large<R: Wait + Clock, W: Write>(
        &mut self,
        rt: &R,
        out: &mut W,
    ) -> Result<(), Refusal> {
        let channel = self.context.open(rt, b"TEMP", 0)?;
        let (stream, _) = self.peer.live(rt, LONGS)?;
        let _ = self.context.wait_live_for(rt, channel, long())?;
        let value = Value::Longs(vec![in self.alloc; 7; usize::from(LONGS)]?);
        let mut is_prompt = false;
        for _ in 0..ROWS {
            if self.prompt(rt, channel, &stream, &value)? >= PROMPT {
                is_prompt = true;
                break;
            }
        }
        say_yes(
            out,
            "a write that is larger than its socket takes goes on at once:",
            is_prompt,
        )
    }

    /// How many of a row come within half a turn, from when the server begins to take them: by then
    /// the client has sent what the buffers hold.
    fn prompt<R: Wait + Clock>(
        &mut self,
        rt: &R,
        channel: Handle,
        stream: &TcpStream,
        value: &Value,
    ) -> Result<u64, Refusal> {
        let mut prompt = 0u64;
        for _ in 0..WRITES {
            if !self.is_read(rt, channel, stream)? {
                return Err(Refusal::Disconnected);
            }
            self.context.put(rt, channel, value)?;
            thread::sleep(rt, Duration::from_millis(2));
            let began = began(rt)?;
            take_write(stream)?;
            prompt = prompt.wrapping_add(u64::from(is_within(rt, &began, HALF)));
        }
        Ok(prompt)
    }
}

/// Takes a write. Its header is a long one.
fn take_write(stream: &TcpStream) -> Result<(), Refusal> {
    let mut header = [0u8; 24];
    take(stream, &mut header)?;
    if header[1] != WRITE {
        return Err(Refusal::BadText);
    }
    let mut longs = [0u8; 4 * AT_ONCE];
    for _ in 0..usize::from(LONGS) / AT_ONCE {
        take(stream, &mut longs)?;
    }
    Ok(())
}
