//! What comes first on a circuit, read where it came.
ghost use Rattle.std.specs.Prelude.{◌≡◌};
ghost use Rattle.ca_dbr.specs.Octets.{AreBytes};
ghost use Rattle.ca_wire.specs.Reading.{IsWhole};
ghost use Rattle.ca_client_tables.specs.First.{FirstAt, FirstIn, in_bytes, payload_at};
ghost use Rattle.ca_client_tables.specs.First.{without_head};
ghost use Rattle.ca_client_tables.specs.Closings.{why_is};
ghost use Rattle.ca_model.specs.Ends.{why_of};

use crate::circuit::{ClientCircuit, Connection};
use crate::why::Why;
use ca_text::Refusal;
use ca_wire::{Head, One, read_one};

/// What comes first on a circuit.
#[derive(Clone, Copy, Debug, PartialEq, Eq)]
pub enum First {
    /// It is not there, or not connected.
    Gone,
    /// No complete message.
    NeedBytes,
    /// A complete message with this header.
    Message(Head),
    /// A header that is refused: the end is to end for this.
    Bad(Why),
}

impl ClientCircuit {
    /// What comes first, if it is connected.
    #[inline(always)]
    pub fn first(&self) -> First
        ensures { FirstAt self.now.connection result }
    {
        match &self.connection {
            Some(connection) => connection.first(),
            None => First::Gone,
        }
    }

    /// The payload of the first message, which has this header.
    #[inline(always)]
    pub fn payload(&self, head: &Head) -> &[u8]
        requires { IsWhole (in_bytes self.now.connection) head.now }
        ensures { result.now ≡ payload_at (in_bytes self.now.connection) head.now }
    {
        match &self.connection {
            Some(connection) => {
                let end = head.start + head.header.size as usize;
                &connection.link.in_bytes()[head.start..end]
            }
            None => &[],
        }
    }

    /// Drops the first message, which has this header and was handled.
    #[inline(always)]
    pub fn drop_first(&mut self, head: &Head)
        requires { IsWhole (in_bytes self.old.connection) head.now }
        ensures { self.new ≡ without_head head.now self.old }
    {
        if let Some(connection) = &mut self.connection {
            connection
                .link
                .drop_front(head.start + head.header.size as usize);
        }
    }
}

impl Connection {
    // What comes first.
    #[inline(always)]
    fn first(&self) -> First
        ensures { FirstIn self.now result }
    {
        let bytes = self.link.in_bytes();
        know_bytes(bytes);
        match read_one(bytes) {
            One::Whole(head) => First::Message(head),
            One::More => First::NeedBytes,
            One::Bad(refusal) => First::Bad(bad_header(refusal)),
        }
    }
}

// A law: each element of a slice of bytes is a byte.
fn know_bytes(bytes: &[u8])
    ensures { AreBytes bytes.now }
{}

// The end of a circuit on which a header is refused for this.
fn bad_header(refusal: Refusal) -> Why
    ensures { why_is result ≡ why_of refusal }
{
    match refusal {
        Refusal::Misaligned => Why::Misaligned,
        _ => Why::TooLarge,
    }
}
