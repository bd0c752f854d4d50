//! From bytes that come in any pieces to messages. A bad header ends that for good.
ghost use Rattle.std.specs.Prelude.{◌≡◌, ◌≢◌, ◌≤◌, [], drop, false, length, IfOk, OnErr};
ghost use Rattle.ca_wire.specs.Reading.{FirstScalar, Gives, Nexts, NextsHeaderOnly};

use crate::buffer::Buffer;
use crate::message::Message;
use crate::reading::{One, of_eight_bytes_at, read_one, without_payload_at};
use crate::requests::Wanted;
use ca_text::{Command, Refusal};
use std::alloc::{AllocError, Global};
use std::marker::Model;
use std::mem;

/// Reads the messages of a stream of bytes that comes in any pieces.
#[derive(Debug, Drop)]
pub struct Deframer {
    buffer: Buffer,
    closed: bool,
    // Room for the payload of the next message.
    room: Vec<u8>,
}

impl Model for Deframer {
    ghost use Rattle.ca_wire.specs.Stream.{Held};

    ghost Value = { Held };

    ghost view = { λ d. record { bytes = d.buffer; closed = d.closed } };
}

impl Deframer {
    /// One to which no byte came yet.
    pub fn new(alloc: Global) -> Deframer
        ensures { result ≡ record { bytes = []; closed = false } }
    {
        Deframer {
            buffer: Buffer::new(alloc),
            closed: false,
            room: Vec::new(alloc),
        }
    }

    /// The bytes that came and were not taken.
    pub fn bytes(&self) -> &[u8]
        ensures { result.now ≡ self.now.bytes }
    {
        self.buffer.bytes()
    }

    /// Whether a bad header was met.
    pub fn is_closed(&self) -> bool
        ensures { result ≡ self.now.closed }
    {
        self.closed
    }

    /// Puts the bytes after those that it holds. A refusal changes nothing.
    pub fn give(&mut self, bytes: &[u8]) -> Result<(), Refusal>
        ensures { Gives self.old bytes.now result self.new }
    {
        if self.closed {
            return Err(Refusal::CircuitClosed);
        }
        self.buffer.push(bytes)?;
        Ok(())
    }

    /// Takes the memory of a spare row, if it has none.
    pub fn borrow_from(&mut self, spare: &mut Vec<u8>)
        ensures { self.new ≡ self.old }
    {
        self.buffer.borrow_from(spare);
    }

    /// If it holds no bytes it gives its memory to a spare row that has none.
    pub fn give_back(&mut self, spare: &mut Vec<u8>)
        ensures { self.new ≡ self.old }
    {
        self.buffer.give_back(spare);
    }

    // In line: a message that is handed back in memory is stored field by field, and a load of 16
    // bytes of it right after has to wait.
    /// Takes the message at the front, if a complete one is there.
    ///
    /// After Misaligned or TooLarge every call answers CircuitClosed. After OutOfMemory the message
    /// is still there.
    #[inline(always)]
    pub fn next_message(&mut self) -> Result<Option<Message>, Refusal>
        ensures { Nexts self.old result self.new }
    {
        if self.closed {
            return Err(Refusal::CircuitClosed);
        }
        let bytes = self.buffer.bytes();
        match read_one(bytes) {
            One::Whole(head) => {
                let end = head.start + head.header.size as usize;
                let payload = copied(&mut self.room, &bytes[head.start..end])?;
                self.buffer.drop_front(end);
                Ok(Some(Message::of_header(head.header, payload)))
            }
            One::More => Ok(None),
            One::Bad(refusal) => {
                self.closed = true;
                Err(refusal)
            }
        }
    }

    /// Takes the message at the front as `next_message` does, if it is of this command
    /// and its header, in 16 bytes, is all of it. Such a message needs no memory. None
    /// leaves all as it was.
    #[inline(always)]
    pub fn next_without_payload(&mut self, command: Command) -> Option<Wanted>
        ensures { NextsHeaderOnly command self.old result self.new }
    {
        if self.closed {
            return None;
        }
        match without_payload_at(self.buffer.bytes(), command) {
            Some(wanted) => {
                self.buffer.drop_front(16);
                Some(wanted)
            }
            None => None,
        }
    }

    /// What the message at the front names, if it is of this command, and is a header in 16 bytes
    /// and a payload of eight. It stays there.
    #[inline(always)]
    pub fn first_of_eight_bytes(&self, command: Command) -> Option<Wanted>
        ensures { FirstScalar command self.now result }
    {
        if self.closed {
            return None;
        }
        of_eight_bytes_at(self.buffer.bytes(), command)
    }

    /// Takes the first n bytes: a message that was handled where it came.
    #[inline(always)]
    pub fn drop_front(&mut self, n: usize)
        requires { n ≤ length self.old.bytes }
        ensures { self.new ≡ record self.old { bytes = drop n self.old.bytes } }
    {
        self.buffer.drop_front(n);
    }

    /// A message that was handled gives its memory to the next one.
    pub fn recycle(&mut self, message: Message)
        ensures { self.new ≡ self.old }
    {
        let payload = message.into_payload();
        if !payload.is_empty() {
            self.room = payload;
        }
    }
}

/// The bytes in this room, of which nothing is left then. No bytes need no
/// memory, and leave the room.
#[inline(always)]
fn copied(room: &mut Vec<u8>, bytes: &[u8]) -> Result<Vec<u8>, AllocError>
    ensures ok { IfOk result (λ v. v.items ≡ bytes.now) }
    ensures err { OnErr result (bytes.now ≢ []) }
{
    let none = Vec::new(*room.allocator());
    if bytes.is_empty() {
        return Ok(none);
    }
    let mut payload = mem::replace(room, none);
    payload.clear();
    payload.extend_from_slice(bytes)?;
    Ok(payload)
}
