//! A datagram that was received, as messages. Reading ends at the first message that is incomplete
//! or bad; the messages before it count.
ghost use Rattle.std.specs.Prelude.{◌≡◌, List, MatchResult, length};
ghost use Rattle.ca_text.specs.declared.refusal.Refusal.TheVariants.{OutOfMemory};
ghost use Rattle.ca_wire.specs.Reading.{IsWhole};
ghost use Rattle.ca_wire.specs.Fields.{Fields};
ghost use Rattle.ca_dgram.specs.Datagram.{IsDatagram, Reads, SpellsFront};

use ca_text::Refusal;
use ca_wire::{Head, Message, One, read_one};
use std::alloc::Global;
use std::marker::Model;

/// The messages of a datagram.
#[derive(Debug, Drop)]
pub struct Datagram {
    messages: Vec<Message>,
}

impl Model for Datagram {
    ghost use Rattle.std.specs.Prelude.{List};
    ghost use Rattle.ca_wire.specs.Fields.{Fields};

    ghost Value = { List Fields };

    ghost view = { λ d. d.messages.items };
}

impl Datagram {
    /// The messages of the longest good beginning of these bytes, whatever they are: a
    /// message that is not complete, or a header that is refused, ends the reading, and what
    /// stood before it counts.
    pub fn read(alloc: Global, bytes: &[u8]) -> Result<Datagram, Refusal>
        ensures { Reads bytes.now result }
    {
        let mut messages = Vec::new(alloc);
        messages.reserve(count(bytes))?;
        let mut rest = bytes;
        while let One::Whole(head) = read_one(rest) {
            let message = message_at(alloc, rest, head)?;
            messages.push(message)?;
            let (_whole, behind) = rest.split_at(head.start + head.header.size as usize);
            rest = behind;
        }
        Ok(Datagram { messages })
    }

    /// The messages, in their order.
    pub fn messages(&self) -> &[Message]
        ensures { result.now ≡ self.now }
    {
        &self.messages
    }
}

/// How many messages the longest good beginning of these bytes has.
fn count(bytes: &[u8]) -> usize
    ensures { (ms : List Fields) × IsDatagram bytes.now ms × (result ≡ length ms) }
{
    let mut count = 0;
    let mut rest = bytes;
    while let One::Whole(head) = read_one(rest) {
        let (_whole, behind) = rest.split_at(head.start + head.header.size as usize);
        rest = behind;
        count += 1;
    }
    count
}

/// The message at the front, of this header.
fn message_at(alloc: Global, bytes: &[u8], head: Head) -> Result<Message, Refusal>
    requires { IsWhole bytes.now head }
    ensures { MatchResult result (SpellsFront bytes.now head) (λ e. e ≡ OutOfMemory) }
{
    let header = head.header;
    let end = head.start + header.size as usize;
    let payload = Vec::from_slice(alloc, &bytes[head.start..end])?;
    Message::new(
        header.command,
        header.data_type,
        header.count,
        header.p1,
        header.p2,
        payload,
    )
}
