//! The socket of one circuit, its bytes on their way in and out, and where its thread waits for it:
//! at a poll of its own, or, while the circuit is parked, at its parker.
use crate::accepting::SOCKET;
use ca_arena::Handle;
use ca_server::State;
use ca_server_core::CircuitOutput;
use ca_text::{OUTPUT_LIMIT, Refusal};
use ca_wire::Pipe;
use mio::net::TcpStream;
use mio::{Events, Interest, Poll, Registry, Token};
use std::alloc::Global;
use std::io::{IoSlice, Read};
use std::sync::ledger::Ledger;
use std::sync::{Arc, Wait};
use std::thread::Parker;
use std::time::{Clock, Duration};
use std::{io, thread};

// Bytes that are read at once, and bytes that are copied for output at once, at most.
const ROOM: usize = 65_536;

// Bytes that are read at once while the circuit is parked. What is had then is had always, so that
// no lack of memory holds a circuit up.
const PARKED_ROOM: usize = 512;

// Bytes of an image that are handed to the system at once, at most: while it copies them it runs no
// other thread there.
const PIECE: usize = 65_536;

// A circuit to which nothing comes for this many seconds is parked.
const IDLE: u64 = 1;

// A wait that the system refuses is this many milliseconds long.
const PAUSE: u64 = 10;

/// A circuit's socket, what was read of it last, and what is to be written on it. Only `take_out`
/// is called under the lock.
#[derive(Drop)]
pub(crate) struct CircuitSocket {
    stream: TcpStream,
    // There is none while the circuit is parked.
    own: Option<Own>,
    parker: Arc<Parker>,
    // The poll that all parked circuits share tells of room, too.
    asks_room: bool,
    pub(crate) input: Vec<u8>,
    output: CircuitOutput,
    // These bytes were taken in the last turn.
    is_taken: bool,
    /// How many bytes of the output were written.
    pub(crate) written: usize,
}

/// What the thread of one circuit waits at.
#[derive(Drop)]
pub(crate) struct Own {
    poll: Poll,
    events: Events<Global>,
    // A read found nothing, and the poll has told of nothing since: so another would find nothing.
    is_drained: bool,
}

/// What a read did.
#[derive(Clone, Copy)]
pub(crate) enum SocketRead {
    Count(usize),
    Later,
    Ended,
}

/// What is left of the output.
#[derive(Clone, Copy)]
pub(crate) enum Written {
    All,
    Some,
    Failed,
}

impl CircuitSocket {
    /// Nothing was read, and the socket is in no poll yet. Replies are small, and each is to go at
    /// once.
    pub(crate) fn new(
        alloc: Global,
        stream: TcpStream,
        parker: Arc<Parker>,
    ) -> Result<CircuitSocket, Refusal> {
        let Ok(()) = stream.set_nodelay(true) else {
            return Err(Refusal::Device);
        };
        Ok(CircuitSocket {
            stream,
            own: None,
            parker,
            asks_room: false,
            input: vec![in alloc; 0; PARKED_ROOM]?,
            output: CircuitOutput::new(alloc),
            is_taken: false,
            written: 0,
        })
    }

    pub(crate) fn is_parked(&self) -> bool {
        self.own.is_none()
    }

    /// What was taken for output in the last turn: it gives that once.
    pub(crate) fn taken(&mut self) -> Option<&CircuitOutput> {
        let is_taken = self.is_taken;
        self.is_taken = false;
        is_taken.then_some(&self.output)
    }

    /// Puts the socket among those of the circuits that are parked, and says whether it could. It
    /// is told of what is there already, too.
    pub(crate) fn join(&mut self, registry: &Registry, token: Token) -> bool {
        let readable = Interest::READABLE;
        self.asks_room = false;
        registry.register(&mut self.stream, token, readable).is_ok()
    }

    /// Takes the socket out of these, and has the thread wait at a poll of its own.
    pub(crate) fn leave(&mut self, own: Own, registry: &Registry) -> Result<(), Refusal> {
        let both = Interest::READABLE | Interest::WRITABLE;
        let Ok(()) = own.poll.registry().register(&mut self.stream, SOCKET, both) else {
            return Err(Refusal::Device);
        };
        self.own = Some(own);
        let _gone = registry.deregister(&mut self.stream);
        Ok(())
    }

    /// Gives the poll of the circuit's own back, and the room for many bytes, but for those that
    /// are still to be written.
    pub(crate) fn drop_own(&mut self) {
        self.own = None;
        self.input.truncate(PARKED_ROOM);
        self.input.shrink_to(PARKED_ROOM);
        if self.is_written() {
            self.let_go();
            self.written = 0;
        }
    }

    /// Reads what is there. Readiness is told of once, so that a wait is safe only after a read
    /// that found nothing.
    pub(crate) fn read(&mut self) -> SocketRead {
        if self.own.as_ref().is_some_and(|own| own.is_drained) {
            return SocketRead::Later;
        }
        match self.stream.read(self.input.as_mut_slice()) {
            Ok(0) => SocketRead::Ended,
            Ok(count) => {
                self.make_room(count);
                SocketRead::Count(count)
            }
            Err(error) => match error.kind() {
                io::ErrorKind::WouldBlock => {
                    if let Some(own) = &mut self.own {
                        own.is_drained = true;
                    }
                    SocketRead::Later
                }
                // It is made again after a turn.
                io::ErrorKind::Interrupted => SocketRead::Count(0),
                _ => SocketRead::Ended,
            },
        }
    }

    // A read that filled the room of a parked circuit has the next one find more. Without memory
    // for that it does as well.
    fn make_room(&mut self, count: usize) {
        if self.own.is_some() && count == self.input.len() && count < ROOM {
            let _same = self.input.resize(ROOM, 0);
        }
    }

    /// Waits until bytes may be there, or the thread is woken. Says whether neither came for a
    /// second: one that is parked waits for ever.
    pub(crate) fn is_idle<R: Wait + Clock>(&mut self, rt: &R) -> bool {
        match &mut self.own {
            Some(own) => own.is_idle(rt, Some(Duration::from_secs(IDLE))),
            None => {
                self.parker.park(rt);
                false
            }
        }
    }

    /// Waits until the socket may have room, or the thread is woken, for so long at most. Says
    /// whether neither came for a second: one that is parked waits on. The socket of a circuit that
    /// is parked tells of room from here on. It is asked once: it tells again of bytes that were
    /// not read each time that it is asked.
    pub(crate) fn is_full<R: Wait + Clock>(
        &mut self,
        rt: &R,
        registry: &Registry,
        token: Token,
        most: Option<Duration>,
    ) -> bool {
        if let Some(own) = &mut self.own {
            let idle = Duration::from_secs(IDLE);
            return match most {
                Some(most) if most < idle => {
                    let _woken = own.is_idle(rt, Some(most));
                    false
                }
                _ => own.is_idle(rt, Some(idle)),
            };
        }
        let both = Interest::READABLE | Interest::WRITABLE;
        self.asks_room = self.asks_room
            || registry.reregister(&mut self.stream, token, both).is_ok();
        match most {
            _ if !self.asks_room => self.pause(rt),
            Some(most) => self.parker.park_timeout(rt, most),
            None => self.parker.park(rt),
        }
        false
    }

    /// Waits for a short time, or until the thread is woken.
    pub(crate) fn pause<R: Wait + Clock>(&mut self, rt: &R) {
        let most = Duration::from_millis(PAUSE);
        match &mut self.own {
            Some(own) => {
                let _woken = own.is_idle(rt, Some(most));
            }
            None => self.parker.park_timeout(rt, most),
        }
    }

    /// Writes the output, as far as the socket takes it.
    pub(crate) fn write(&mut self) -> Written {
        for _ in 0..u64::MAX {
            if self.is_written() {
                // Images that no other circuit shares any more are freed here, with no lock held.
                self.output.clear();
                self.let_go();
                return Written::All;
            }
            let parts = rest_of(&self.output, self.written);
            match self.stream.write_vectored(&parts.map(IoSlice::new)) {
                Ok(0) => return Written::Failed,
                Ok(count) => {
                    self.written = self.written.saturating_add(count);
                    if !self.is_written() {
                        // Others go first: so no read waits until many have written all of a large
                        // value.
                        thread::yield_now();
                    }
                }
                Err(error) => match error.kind() {
                    io::ErrorKind::WouldBlock => return Written::Some,
                    io::ErrorKind::Interrupted => {}
                    _ => return Written::Failed,
                },
            }
        }
        Written::Failed
    }

    // What was written is let go of while the circuit is parked.
    fn let_go(&mut self) {
        if self.own.is_none() {
            self.output = CircuitOutput::new(*self.input.allocator());
        }
    }

    /// Whether more was taken for output than is handed to the system at once.
    pub(crate) fn has_much(&self) -> bool {
        self.output.len() > PIECE
    }

    /// Whether all that was taken for output was written, so that more may be taken.
    pub(crate) fn is_written(&self) -> bool {
        self.written >= self.output.len()
    }

    /// Pumps the circuit and takes all that waits on it for output, if all before was written, and
    /// says whether it did. Few bytes are copied, so that memory for many stays with those who send
    /// many; a circuit that is parked keeps none.
    pub(crate) fn take_out<L: Ledger>(&mut self, state: &mut State<L>, circuit: Handle) -> bool {
        if !self.is_written() {
            return false;
        }
        let copied = if self.is_parked() { 0 } else { ROOM };
        self.written = 0;
        self.is_taken = true;
        state.pump_over(circuit, copied, &mut self.output);
        true
    }

    /// Whether no fewer bytes were taken than may be at once, so that more may wait.
    pub(crate) fn is_at_most(&self) -> bool {
        self.output.len() >= OUTPUT_LIMIT
    }

    /// Takes all that a closed circuit left for output, if all before was written.
    pub(crate) fn take_left(&mut self, left: &mut Pipe) {
        if self.is_written() {
            self.output.take(left);
            self.written = 0;
        }
    }
}

impl Own {
    /// One at which nothing has come yet.
    pub(crate) fn new(poll: Poll, events: Events<Global>) -> Own {
        Own {
            poll,
            events,
            is_drained: false,
        }
    }

    // Waits until something comes, for so long at most. Says whether nothing did.
    fn is_idle<R: Clock>(&mut self, rt: &R, most: Option<Duration>) -> bool {
        match self.poll.poll(&mut self.events, most) {
            Ok(()) => {
                if self.events.iter().any(|event| event.token() == SOCKET) {
                    self.is_drained = false;
                }
                self.events.is_empty()
            }
            Err(_) => {
                // Whether bytes are there only a read can tell.
                self.is_drained = false;
                thread::sleep(rt, Duration::from_millis(PAUSE));
                false
            }
        }
    }
}

// The parts of what leaves from this byte on, as many as are written at once.
fn rest_of(output: &CircuitOutput, written: usize) -> [&[u8]; 3] {
    let mut left = written;
    for piece in output.pieces() {
        let (before, header, image) = piece.parts();
        let parts = [
            after(before, &mut left),
            after(header, &mut left),
            first_of(after(image, &mut left)),
        ];
        if parts.iter().any(|part| !part.is_empty()) {
            return parts;
        }
    }
    [after(output.last(), &mut left), &[], &[]]
}

// As many of these bytes as are handed to the system at once.
fn first_of(bytes: &[u8]) -> &[u8] {
    &bytes[..bytes.len().min(PIECE)]
}

// These bytes without those of the first n that they have; n is less by these.
fn after<'a>(bytes: &'a [u8], left: &mut usize) -> &'a [u8] {
    let count = bytes.len().min(*left);
    *left = left.saturating_sub(count);
    bytes.get(count..).unwrap_or(&[])
}
