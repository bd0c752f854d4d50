//! A message of the protocol: the fields of its header and a payload padded to a multiple of 8
//! bytes. Begin at `new` and `spell`; `requests.rt` and `replies.rt` make each kind.
ghost use Rattle.std.specs.Prelude.{ℕ, List, ◌≡◌, ◌≢◌, ◌+◌, ◌%◌, ◌<◌, ◌≤◌, ◌++◌, [], length, IfOk};
ghost use Rattle.std.specs.Prelude.{MatchResult, OnErr, OnOk, vec_capacity, vec_len};
ghost use Rattle.ca_text.specs.Command.{command_number};
ghost use Rattle.ca_text.specs.Limits.{payload_limit};
ghost use Rattle.ca_wire.specs.Fields.{Fields, IsPayload, padded};
ghost use Rattle.ca_wire.specs.Front.{FrontFits};
ghost use Rattle.ca_wire.specs.Message.{IsMade, IsMessage, header_of, spelling};

use crate::header::{EXTENDED, Header, header_size, short_form, spell_header};
use crate::reading::{One, read_one};
use ca_text::{Command, PAYLOAD_LIMIT, Refusal};
use std::alloc::{AllocError, Global};
use std::marker::Model;

/// A message: its header's fields, and a payload of at most 16,777,216 bytes, a
/// multiple of 8 of them.
#[derive(Debug, Drop)]
pub struct Message {
    command: u16,
    data_type: u16,
    count: u32,
    p1: u32,
    p2: u32,
    payload: Vec<u8>,
}

impl Model for Message {
    ghost use Rattle.ca_wire.specs.Fields.{Fields};
    ghost use Rattle.ca_wire.specs.Message.{IsMessage};

    ghost Value = { Fields };

    ghost view = { λ m.
        record {
          command = m.command;
          data_type = m.data_type;
          count = m.count;
          p1 = m.p1;
          p2 = m.p2;
          payload = m.payload.items;
        } };

    ghost invariant = { λ m.
        IsMessage (record {
          command = m.command;
          data_type = m.data_type;
          count = m.count;
          p1 = m.p1;
          p2 = m.p2;
          payload = m.payload.items;
        }) };
}

impl Message {
    /// The message of these fields, its payload filled with zeros up to a multiple of 8.
    ///
    /// Refused as TooLarge if the payload is over the limit.
    pub fn new(
        command: u16,
        data_type: u16,
        count: u32,
        p1: u32,
        p2: u32,
        payload: Vec<u8>,
    ) -> Result<Message, Refusal>
        ensures { IsMade (record {
          command = command;
          data_type = data_type;
          count = count;
          p1 = p1;
          p2 = p2;
          payload = payload.items;
        }) result }
    {
        if payload.len() > PAYLOAD_LIMIT {
            return Err(Refusal::TooLarge);
        }
        let mut payload = payload;
        let over = payload.len() % 8;
        if over != 0 {
            payload.extend_from_slice(&[0u8; 8][over..])?;
        }
        Ok(Message {
            command,
            data_type,
            count,
            p1,
            p2,
            payload,
        })
    }

    /// The message of these fields, whose payload needs no padding. It does not allocate.
    pub(crate) fn of_fields(
        command: u16,
        data_type: u16,
        count: u32,
        p1: u32,
        p2: u32,
        payload: Vec<u8>,
    ) -> Message
        requires { IsPayload payload.items }
        ensures { result
            ≡ record {
              command = command;
              data_type = data_type;
              count = count;
              p1 = p1;
              p2 = p2;
              payload = payload.items;
            } }
    {
        Message {
            command,
            data_type,
            count,
            p1,
            p2,
            payload,
        }
    }

    /// The message of these fields, with no payload. It does not allocate.
    pub(crate) fn with_no_payload(
        alloc: Global,
        command: Command,
        data_type: u16,
        count: u32,
        p1: u32,
        p2: u32,
    ) -> Message
        ensures { result
            ≡ record {
              command = command_number command;
              data_type = data_type;
              count = count;
              p1 = p1;
              p2 = p2;
              payload = [];
            } }
    {
        let payload = Vec::new(alloc);
        Message::of_fields(command.number(), data_type, count, p1, p2, payload)
    }

    /// The message of these fields, its payload filled with zeros up to a multiple of 8.
    /// Only these take memory.
    pub(crate) fn with_padding(
        command: u16,
        data_type: u16,
        count: u32,
        p1: u32,
        p2: u32,
        payload: Vec<u8>,
    ) -> Result<Message, AllocError>
        requires { length payload.items ≤ payload_limit }
        ensures ok { IfOk result (λ m.
            m
            ≡ record {
              command = command;
              data_type = data_type;
              count = count;
              p1 = p1;
              p2 = p2;
              payload = padded payload.items;
            }) }
        ensures err { OnErr result (length payload.items % 8 ≢ 0) }
    {
        match Message::new(command, data_type, count, p1, p2, payload) {
            Ok(message) => Ok(message),
            Err(_) => Err(AllocError),
        }
    }

    /// The message of this header, whose payload has its size.
    pub(crate) fn of_header(header: Header, payload: Vec<u8>) -> Message
        requires size { length payload.items ≡ header.size }
        requires payload { IsPayload payload.items }
        ensures header { header_of result ≡ header }
        ensures payload { result.payload ≡ payload.items }
    {
        Message {
            command: header.command,
            data_type: header.data_type,
            count: header.count,
            p1: header.p1,
            p2: header.p2,
            payload,
        }
    }

    /// The number of its command.
    pub fn command(&self) -> u16
        ensures { result ≡ self.now.command }
    {
        self.command
    }

    /// Its data type.
    pub fn data_type(&self) -> u16
        ensures { result ≡ self.now.data_type }
    {
        self.data_type
    }

    /// Its element count.
    pub fn count(&self) -> u32
        ensures { result ≡ self.now.count }
    {
        self.count
    }

    /// Parameter 1.
    pub fn p1(&self) -> u32
        ensures { result ≡ self.now.p1 }
    {
        self.p1
    }

    /// Parameter 2.
    pub fn p2(&self) -> u32
        ensures { result ≡ self.now.p2 }
    {
        self.p2
    }

    /// The payload, with its padding.
    pub fn payload(&self) -> &[u8]
        ensures { result.now ≡ self.now.payload }
    {
        &self.payload
    }

    /// The payload alone.
    pub(crate) fn into_payload(self) -> Vec<u8>
        ensures { result.items ≡ self.payload }
    {
        let Message { payload, .. } = self;
        payload
    }

    /// Its header.
    pub fn header(&self) -> Header
        ensures header { result ≡ header_of self.now }
        ensures message { IsMessage self.now }
    {
        Header {
            command: self.command,
            data_type: self.data_type,
            size: self.payload.len() as u32,
            count: self.count,
            p1: self.p1,
            p2: self.p2,
        }
    }
}

/// Writes the one spelling of the message at the end. It grows the buffer once, by just what it
/// writes, before it writes.
#[inline(always)]
pub fn spell(message: &Message, out: &mut Vec<u8>) -> Result<(), AllocError>
    ensures ok { OnOk result (out.new.items ≡ out.old.items ++ spelling message.now) }
    ensures err { OnErr result (out.new.items ≡ out.old.items) }
    ensures room { OnErr result (vec_capacity out.old
        < vec_len out.old + length (spelling message.now)) }
    ensures capacity { vec_capacity out.old ≤ vec_capacity out.new }
{
    let header = message.header();
    // If there is room a header alone is written without a call.
    if header.size == 0 && header.count < EXTENDED && out.capacity() - out.len() >= 16 {
        return out.extend_from_slice(&short_form(&header));
    }
    spell_all(message, out)
}

/// Writes the one spelling of a message, with or without a payload, at the end.
#[inline(never)]
fn spell_all(message: &Message, out: &mut Vec<u8>) -> Result<(), AllocError>
    ensures ok { OnOk result (out.new.items ≡ out.old.items ++ spelling message.now) }
    ensures err { OnErr result (out.new.items ≡ out.old.items) }
    ensures room { OnErr result (vec_capacity out.old
        < vec_len out.old + length (spelling message.now)) }
    ensures capacity { vec_capacity out.old ≤ vec_capacity out.new }
{
    out.reserve(spelled_size(message))?;
    spell_header(&message.header(), out)?;
    out.extend_from_slice(&message.payload)
}

/// Bytes of its one spelling.
pub fn spelled_size(message: &Message) -> usize
    ensures { result ≡ length (spelling message.now) }
{
    header_size(&message.header()) + message.payload.len()
}

/// The message whose one spelling begins the bytes. Its payload is put into the room,
/// and no memory is taken.
pub fn message_at(bytes: &[u8], room: Vec<u8>) -> Message
    requires front { FrontFits bytes.now (vec_capacity room) }
    requires empty { room.items ≡ [] }
    ensures { (m : Fields) (rest : List ℕ) → IsMessage m → bytes.now ≡ spelling m ++ rest
        → result ≡ m }
{
    match read_one(bytes) {
        One::Whole(head) => {
            let mut payload = room;
            let end = head.start + head.header.size as usize;
            match payload.extend_from_slice(&bytes[head.start..end]) {
                Ok(()) => Message::of_header(head.header, payload),
                Err(_) => unreachable!(),
            }
        }
        One::More => unreachable!(),
        One::Bad(_) => unreachable!(),
    }
}
