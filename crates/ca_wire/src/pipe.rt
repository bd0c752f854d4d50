//! Bytes of messages on their way out: they are put at its end, and leave its front once they are
//! sent. A circuit of a core has one, and so has the socket that takes a circuit's output over.
ghost use Rattle.std.specs.Prelude.{ℕ, List, ◌≡◌, ◌≢◌, ◌≤◌, ◌++◌, [], drop, length, take, IfOk};
ghost use Rattle.std.specs.Prelude.{OnErr, OnOk};
ghost use Rattle.ca_text.specs.Limits.{payload_limit};
ghost use Rattle.ca_wire.specs.Made.{PutsMade};
ghost use Rattle.ca_wire.specs.Message.{spelling};
ghost use Rattle.ca_wire.specs.Messages.{scalar, done};

use crate::buffer::Buffer;
use crate::done::Done;
use crate::made::Payload;
use crate::message::Message;
use crate::scalar_message::ScalarMessage;
use ca_text::Refusal;
use std::alloc::{AllocError, Global};
use std::marker::Model;
use std::mem;

/// Bytes that wait to be sent.
#[derive(Debug, Drop)]
pub struct Pipe {
    buffer: Buffer,
}

impl Model for Pipe {
    ghost use Rattle.std.specs.Prelude.{List, ℕ};

    ghost Value = { List ℕ };

    ghost view = { λ p. p.buffer };
}

impl Pipe {
    /// One in which nothing waits.
    pub fn new(alloc: Global) -> Pipe
        ensures { result ≡ [] }
    {
        Pipe {
            buffer: Buffer::new(alloc),
        }
    }

    /// The bytes from this place on.
    pub fn of(bytes: Vec<u8>, start: usize) -> Pipe
        requires { start ≤ length bytes.items }
        ensures { result ≡ drop start bytes.items }
    {
        Pipe {
            buffer: Buffer::of(bytes, start),
        }
    }

    /// The bytes that wait.
    pub fn bytes(&self) -> &[u8]
        ensures { result.now ≡ self.now }
    {
        self.buffer.bytes()
    }

    /// Puts the one spelling of the message after what waits. A refusal changes nothing; a
    /// message takes memory.
    pub fn put(&mut self, message: &Message) -> Result<(), AllocError>
        ensures ok { OnOk result (self.new ≡ self.old ++ spelling message.now) }
        ensures err { OnErr result (self.new ≡ self.old) }
    {
        self.buffer.put(message)
    }

    /// Puts the message after what waits, with this payload of n bytes, which is made in its place.
    /// A refusal changes nothing.
    pub fn put_made<P: Payload>(
        &mut self,
        head: &Message,
        size: usize,
        payload: &P,
    ) -> Result<(), Refusal>
        requires within { size ≤ payload_limit }
        requires sized { IfOk (P.made payload.now) (λ bytes. length bytes ≡ size) }
        ensures { PutsMade head.now (P.made payload.now) self.old result self.new }
    {
        self.buffer.put_made(head, size, payload)
    }

    /// Puts the one spelling of this after what waits. A refusal changes nothing.
    #[inline(always)]
    pub fn put_scalar(&mut self, said: ScalarMessage) -> Result<(), AllocError>
        ensures ok { OnOk result (self.new ≡ self.old ++ spelling (scalar said)) }
        ensures err { OnErr result (self.new ≡ self.old) }
    {
        self.buffer.put_scalar(said)
    }

    /// Puts the one spelling of this after what waits. A refusal changes nothing.
    #[inline(always)]
    pub fn put_done(&mut self, said: Done) -> Result<(), AllocError>
        ensures ok { OnOk result (self.new ≡ self.old ++ spelling (done said)) }
        ensures err { OnErr result (self.new ≡ self.old) }
    {
        self.buffer.put_done(said)
    }

    /// Only the first n of the bytes still wait.
    pub fn truncate(&mut self, n: usize)
        ensures { self.new ≡ take n self.old }
    {
        self.buffer.truncate(n);
    }

    /// The first n of the bytes that wait were sent.
    pub fn sent(&mut self, n: usize)
        requires { n ≤ length self.old }
        ensures { self.new ≡ drop n self.old }
    {
        self.buffer.drop_front(n);
    }

    /// All bytes that wait go over to this one, in place of those that it has, whose memory stays
    /// here for more. Nothing is copied, and it does not allocate.
    pub fn hand_over(&mut self, to: &mut Pipe)
        ensures handed { to.new ≡ self.old }
        ensures nothing { self.new ≡ [] }
    {
        to.buffer.truncate(0);
        mem::swap(&mut self.buffer, &mut to.buffer);
    }

    /// Puts these bytes after what waits. A refusal changes nothing, and no bytes need no memory.
    pub fn push(&mut self, bytes: &[u8]) -> Result<(), AllocError>
        ensures ok { OnOk result (self.new ≡ self.old ++ bytes.now) }
        ensures err { OnErr result ((self.new ≡ self.old) × (bytes.now ≢ [])) }
    {
        self.buffer.push(bytes)
    }

    /// Takes the memory of a spare row, if it has none.
    pub fn borrow_from(&mut self, spare: &mut Vec<u8>)
        ensures { self.new ≡ self.old }
    {
        self.buffer.borrow_from(spare);
    }

    /// If nothing waits it gives its memory to a spare row that has none.
    pub fn give_back(&mut self, spare: &mut Vec<u8>)
        ensures { self.new ≡ self.old }
    {
        self.buffer.give_back(spare);
    }
}
