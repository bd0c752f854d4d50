//! One open circuit as both cores keep it: bytes that came, bytes to be sent, and its silence. What
//! the messages mean only the cores know.
ghost use Rattle.std.specs.Prelude.{ℕ, List, ◌≡◌, ◌≤◌, IfOk, drop, length, nat_le, take};
ghost use Rattle.ca_text.specs.Limits.{output_limit, payload_limit};
ghost use Rattle.ca_link.specs.Calls.{FirstScalar, Gives, Nexts, NextsHeaderOnly, Queues};
ghost use Rattle.ca_link.specs.Calls.{QueuesMade};
ghost use Rattle.ca_link.specs.Calls.{QueuesOwn};
ghost use Rattle.ca_wire.specs.Messages.{scalar, done};
ghost use Rattle.ca_link.specs.Link.{kept, mark_of, new_link, noted, restored, with_handed};
ghost use Rattle.ca_link.specs.Link.{with_rest};

use crate::keep::Keep;
use crate::mark::Mark;
use crate::spares::Spares;
use ca_text::{CLOSE_SILENCE, Command, ECHO_SILENCE, OUTPUT_LIMIT, Refusal};
use ca_wire::{Deframer, Done, Message, Payload, Pipe, ScalarMessage, Wanted};
use std::alloc::Global;
use std::marker::Model;

/// One end of an open circuit: what came and was not read, what waits to be sent, and
/// since when no bytes came.
///
/// After Misaligned or TooLarge it answers CircuitClosed from then on. Any other refusal leaves it
/// as it was.
#[derive(Debug, Drop)]
pub struct Link {
    input: Deframer,
    output: Pipe,
    heard_at: u64,
    echoed: bool,
}

impl Model for Link {
    ghost use Rattle.ca_link.specs.Link.{LinkState};

    ghost Value = { LinkState };

    ghost view = { λ l.
        record { input = l.input; output = l.output; heard_at = l.heard_at; echoed = l.echoed } };
}

impl Link {
    /// One that begins at this moment.
    pub fn new(alloc: Global, now: u64) -> Link
        ensures { result ≡ new_link now }
    {
        Link {
            input: Deframer::new(alloc),
            output: Pipe::new(alloc),
            heard_at: now,
            echoed: false,
        }
    }

    /// The bytes that came and were not read.
    pub fn in_bytes(&self) -> &[u8]
        ensures { result.now ≡ self.now.input.bytes }
    {
        self.input.bytes()
    }

    /// Takes bytes that came at this moment, which ends a silence; no bytes do nothing.
    ///
    /// Refused as CircuitClosed, then as OutOfMemory, only if there are bytes.
    pub fn give(&mut self, now: u64, bytes: &[u8]) -> Result<(), Refusal>
        ensures { Gives now bytes.now self.old result self.new }
    {
        self.input.give(bytes)?;
        if !bytes.is_empty() {
            self.heard_at = now;
            self.echoed = false;
        }
        Ok(())
    }

    /// Takes the memory of the spare rows, if it has none.
    pub fn borrow_from(&mut self, spares: &mut Spares)
        ensures { self.new ≡ self.old }
    {
        self.input.borrow_from(&mut spares.input);
        self.output.borrow_from(&mut spares.output);
    }

    /// Gives memory without bytes to the spare rows that have none.
    pub fn give_back(&mut self, spares: &mut Spares)
        ensures { self.new ≡ self.old }
    {
        self.input.give_back(&mut spares.input);
        self.output.give_back(&mut spares.output);
    }

    /// Takes the first message that came, if it is complete.
    ///
    /// Refused as CircuitClosed, Misaligned or TooLarge, and as OutOfMemory only for a payload.
    #[inline(always)]
    pub fn next_message(&mut self) -> Result<Option<Message>, Refusal>
        ensures { Nexts self.old result self.new }
    {
        self.input.next_message()
    }

    /// Takes the first message as `next_message` does, if it is complete, of this command,
    /// and its header, in 16 bytes, is all of it. Such a message needs no memory. None
    /// leaves all as it was.
    #[inline(always)]
    pub fn next_without_payload(&mut self, command: Command) -> Option<Wanted>
        ensures { NextsHeaderOnly command self.old result self.new }
    {
        self.input.next_without_payload(command)
    }

    /// What the first message names, if it is complete, of this command, and is a header in 16
    /// bytes and a payload of eight. It stays there if its payload can be read without memory.
    #[inline(always)]
    pub fn first_of_eight_bytes(&self, command: Command) -> Option<Wanted>
        ensures { FirstScalar command self.now result }
    {
        self.input.first_of_eight_bytes(command)
    }

    /// Takes the first n bytes that came: a message that was handled where it came.
    #[inline(always)]
    pub fn drop_front(&mut self, n: usize)
        requires { n ≤ length self.old.input.bytes }
        ensures { self.new ≡ with_rest (drop n self.old.input.bytes) self.old }
    {
        self.input.drop_front(n);
    }

    /// A message that was handled gives its memory to the next one.
    pub fn recycle(&mut self, message: Message)
        ensures { self.new ≡ self.old }
    {
        self.input.recycle(message);
    }

    /// The bytes that wait to be sent.
    pub fn out_bytes(&self) -> &[u8]
        ensures { result.now ≡ self.now.output }
    {
        self.output.bytes()
    }

    /// Whether as many bytes wait as may, so that no message of a caller is queued.
    pub fn is_full(&self) -> bool
        ensures { result ≡ nat_le output_limit (length self.now.output) }
    {
        self.output.bytes().len() >= OUTPUT_LIMIT
    }

    /// Puts a message of a caller after what waits.
    ///
    /// Refused as CircuitClosed, as OutputFull if as many bytes wait as may, and as OutOfMemory,
    /// since a message takes memory.
    pub fn queue(&mut self, message: &Message) -> Result<(), Refusal>
        ensures { Queues message.now self.old result self.new }
    {
        if !self.input.is_closed() && self.is_full() {
            return Err(Refusal::OutputFull);
        }
        self.queue_own(message)
    }

    /// Puts a message of the end's own after what waits, however much that is.
    ///
    /// Refused as CircuitClosed, then as OutOfMemory.
    pub fn queue_own(&mut self, message: &Message) -> Result<(), Refusal>
        ensures { QueuesOwn message.now self.old result self.new }
    {
        if self.input.is_closed() {
            return Err(Refusal::CircuitClosed);
        }
        self.output.put(message)?;
        Ok(())
    }

    /// Puts a message of one element after what waits, however much that is.
    ///
    /// Refused as CircuitClosed, then as OutOfMemory.
    #[inline(always)]
    pub fn queue_scalar(&mut self, said: ScalarMessage) -> Result<(), Refusal>
        ensures { QueuesOwn (scalar said) self.old result self.new }
    {
        if self.input.is_closed() {
            return Err(Refusal::CircuitClosed);
        }
        self.output.put_scalar(said)?;
        Ok(())
    }

    /// Puts the reply to a WRITE_NOTIFY of one element after what waits, however much that is.
    ///
    /// Refused as CircuitClosed, then as OutOfMemory.
    #[inline(always)]
    pub fn queue_done(&mut self, said: Done) -> Result<(), Refusal>
        ensures { QueuesOwn (done said) self.old result self.new }
    {
        if self.input.is_closed() {
            return Err(Refusal::CircuitClosed);
        }
        self.output.put_done(said)?;
        Ok(())
    }

    /// Puts a message after what waits, however much that is, with this payload of n bytes. It
    /// is made in its place.
    ///
    /// Refused as CircuitClosed, as OutOfMemory before the payload is made, or as the payload is.
    pub fn queue_made<P: Payload>(
        &mut self,
        head: &Message,
        size: usize,
        payload: &P,
    ) -> Result<(), Refusal>
        requires within { size ≤ payload_limit }
        requires sized { IfOk (P.made payload.now) (λ bytes. length bytes ≡ size) }
        ensures { QueuesMade head.now (P.made payload.now) self.old result self.new }
    {
        if self.input.is_closed() {
            return Err(Refusal::CircuitClosed);
        }
        self.output.put_made(head, size, payload)
    }

    /// Only the first n of the bytes that wait still wait: what was queued
    /// after them is taken back.
    pub fn truncate(&mut self, n: usize)
        ensures { self.new ≡ record self.old { output = take n self.old.output } }
    {
        self.output.truncate(n);
    }

    /// How much waits, and whether an ECHO went out.
    pub fn mark(&self) -> Mark
        ensures { result ≡ mark_of self.now }
    {
        Mark {
            waiting: self.output.bytes().len(),
            echoed: self.echoed,
        }
    }

    /// Takes back what was queued since this mark, and the ECHO that went out since.
    pub fn restore(&mut self, mark: Mark)
        ensures { self.new ≡ restored mark self.old }
    {
        self.output.truncate(mark.waiting);
        self.echoed = mark.echoed;
    }

    /// The first n of the bytes that wait were handed over.
    pub fn sent(&mut self, n: usize)
        requires { n ≤ length self.old.output }
        ensures { self.new ≡ with_handed n self.old }
    {
        self.output.sent(n);
    }

    /// All bytes that wait are handed over, in place of those that are there, whose memory the link
    /// keeps for more. Nothing is copied, and it does not allocate.
    pub fn hand_over(&mut self, to: &mut Pipe)
        ensures handed { to.new ≡ self.old.output }
        ensures left { self.new ≡ with_handed (length self.old.output) self.old }
    {
        self.output.hand_over(to);
    }

    /// The bytes that wait, for whoever still sends them.
    pub fn into_left(self) -> Pipe
        ensures { result ≡ self.output }
    {
        let Link { output, .. } = self;
        output
    }

    /// What this moment asks of the end. It changes nothing.
    pub fn asked(&self, now: u64) -> Keep
        ensures { result ≡ kept now self.now }
    {
        let silence = now.saturating_sub(self.heard_at);
        if silence >= CLOSE_SILENCE {
            return Keep::Close;
        }
        if silence >= ECHO_SILENCE && !self.echoed {
            return Keep::Echo;
        }
        Keep::Idle
    }

    /// What this moment asks of the end; it asks for an ECHO once in a silence.
    pub fn tick(&mut self, now: u64) -> Keep
        ensures asked { result ≡ kept now self.old }
        ensures noted { self.new ≡ noted result self.old }
    {
        let keep = self.asked(now);
        if keep == Keep::Echo {
            self.echoed = true;
        }
        keep
    }
}
