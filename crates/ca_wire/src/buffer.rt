//! A queue of bytes: messages are written at its end, and bytes that were read or sent are dropped
//! from its front. Both directions of a circuit use it.
ghost use Rattle.std.specs.Prelude.{ℕ, List, ◌≡◌, ◌≢◌, ◌≤◌, ◌++◌, [], drop, length, take, IfOk};
ghost use Rattle.std.specs.Prelude.{OnErr, OnOk, vec_capacity, vec_len};
ghost use Rattle.ca_text.specs.Limits.{payload_limit};
ghost use Rattle.ca_wire.specs.Made.{PutsMade};
ghost use Rattle.ca_wire.specs.Message.{spelling};
ghost use Rattle.ca_wire.specs.Messages.{scalar, done};

use crate::done::{Done, spell_done};
use crate::made::{Payload, spell_made};
use crate::message::{Message, spell};
use crate::scalar_message::{ScalarMessage, spell_scalar};
use ca_text::Refusal;
use std::alloc::{AllocError, Global};
use std::marker::Model;
use std::mem;

/// Bytes in a row: new ones come at the end, and old ones go at the front.
#[derive(Debug, Drop)]
pub struct Buffer {
    bytes: Vec<u8>,
    start: usize,
}

impl Model for Buffer {
    ghost use Rattle.std.specs.Prelude.{List, ℕ, ◌≤◌, drop, length};

    ghost Value = { List ℕ };

    ghost view = { λ b. drop b.start b.bytes.items };

    ghost invariant = { λ b. b.start ≤ length b.bytes.items };
}

impl Buffer {
    /// One with no bytes.
    pub fn new(alloc: Global) -> Buffer
        ensures { result ≡ [] }
    {
        Buffer {
            bytes: Vec::new(alloc),
            start: 0,
        }
    }

    /// The bytes from this place on.
    pub fn of(bytes: Vec<u8>, start: usize) -> Buffer
        requires { start ≤ length bytes.items }
        ensures { result ≡ drop start bytes.items }
    {
        Buffer { bytes, start }
    }

    /// The bytes.
    pub fn bytes(&self) -> &[u8]
        ensures { result.now ≡ self.now }
    {
        &self.bytes[self.start..]
    }

    /// Puts these bytes after the others. A refusal changes nothing, and no bytes need no memory.
    pub fn push(&mut self, bytes: &[u8]) -> Result<(), AllocError>
        ensures ok { OnOk result (self.new ≡ self.old ++ bytes.now) }
        ensures err { OnErr result ((self.new ≡ self.old) × (bytes.now ≢ [])) }
    {
        if bytes.is_empty() {
            return Ok(());
        }
        self.let_go();
        self.bytes.extend_from_slice(bytes)
    }

    /// Puts the one spelling of the message after the others. A refusal changes nothing.
    #[inline(always)]
    pub fn put(&mut self, message: &Message) -> Result<(), AllocError>
        ensures ok { OnOk result (self.new ≡ self.old ++ spelling message.now) }
        ensures err { OnErr result (self.new ≡ self.old) }
    {
        self.let_go();
        spell(message, &mut self.bytes)
    }

    /// Puts the message after the others with this payload of n bytes, which is made in its place.
    /// A refusal changes nothing.
    pub fn put_made<P: Payload>(
        &mut self,
        head: &Message,
        size: usize,
        payload: &P,
    ) -> Result<(), Refusal>
        requires within { size ≤ payload_limit }
        requires sized { IfOk (P.made payload.now) (λ bytes. length bytes ≡ size) }
        ensures { PutsMade head.now (P.made payload.now) self.old result self.new }
    {
        self.let_go();
        spell_made(head, size, payload, &mut self.bytes)
    }

    /// Puts the one spelling of this after the others. A refusal changes nothing.
    #[inline(always)]
    pub fn put_scalar(&mut self, said: ScalarMessage) -> Result<(), AllocError>
        ensures ok { OnOk result (self.new ≡ self.old ++ spelling (scalar said)) }
        ensures err { OnErr result (self.new ≡ self.old) }
    {
        self.let_go();
        spell_scalar(said, &mut self.bytes)
    }

    /// Puts the one spelling of this after the others. A refusal changes nothing.
    #[inline(always)]
    pub fn put_done(&mut self, said: Done) -> Result<(), AllocError>
        ensures ok { OnOk result (self.new ≡ self.old ++ spelling (done said)) }
        ensures err { OnErr result (self.new ≡ self.old) }
    {
        self.let_go();
        spell_done(said, &mut self.bytes)
    }

    /// Only the first n bytes stay.
    pub fn truncate(&mut self, n: usize)
        ensures { self.new ≡ take n self.old }
    {
        if n < self.bytes.len() - self.start {
            self.bytes.truncate(self.start + n);
        }
    }

    /// The first n bytes go.
    pub fn drop_front(&mut self, n: usize)
        requires { n ≤ length self.old }
        ensures { self.new ≡ drop n self.old }
    {
        self.start += n;
    }

    /// Takes the memory of a spare row, if it has none.
    pub fn borrow_from(&mut self, spare: &mut Vec<u8>)
        ensures { self.new ≡ self.old }
    {
        if self.bytes.capacity() == 0 {
            // The length is set after the swap: a load of the whole row right after a store of its
            // length would wait for that store.
            mem::swap(&mut self.bytes, spare);
            self.bytes.clear();
        }
    }

    /// Without bytes it gives its memory to a spare row that has none.
    pub fn give_back(&mut self, spare: &mut Vec<u8>)
        ensures { self.new ≡ self.old }
    {
        if spare.capacity() == 0 && self.start == self.bytes.len() {
            mem::swap(&mut self.bytes, spare);
            self.start = 0;
        }
    }

    /// Lets go of the memory of bytes that went, once they are at least half of all: each byte is
    /// moved at most once for a byte that went.
    #[inline(always)]
    fn let_go(&mut self)
        ensures { self.new ≡ self.old }
    {
        let rest = self.bytes.len() - self.start;
        if rest == 0 {
            self.bytes.clear();
            self.start = 0;
        } else if rest <= self.start {
            self.move_front();
        }
    }

    /// The bytes move to the front of the memory.
    #[inline(never)]
    fn move_front(&mut self)
        ensures { self.new ≡ self.old }
    {
        let rest = self.bytes.len() - self.start;
        self.bytes.copy_within(self.start.., 0);
        self.bytes.truncate(rest);
        self.start = 0;
    }
}
