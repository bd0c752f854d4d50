//! What is in the first message of a circuit, which is handled where it came.
ghost use Rattle.std.specs.Prelude.{◌≡◌, ◌==◌, [], position};
ghost use Rattle.ca_wire.specs.Messages.{text_in};
ghost use Rattle.ca_wire.specs.Reading.{IsWhole};
ghost use Rattle.ca_model.specs.Due.{key_in};
ghost use Rattle.ca_server_circuit.specs.Stepping.{first_at, message_of, named_by};

use crate::end::End;
use ca_queue::SubKey;
use ca_wire::{Head, Header, Ioid, Message, Sid, Wanted};
use std::alloc::Global;

impl End {
    /// The payload of the first message, which has this header.
    #[inline(always)]
    pub(crate) fn payload(&self, head: &Head) -> &[u8]
        requires { IsWhole self.now.link.input.bytes head.now }
        ensures { result.now ≡ (first_at self.now.link.input.bytes head.now).payload }
    {
        let end = head.start + head.header.size as usize;
        &self.link.in_bytes()[head.start..end]
    }

    /// The text in that payload, if the message is a CLIENT_NAME, HOST_NAME, SEARCH or CREATE_CHAN:
    /// up to the first zero, or all of it.
    pub(crate) fn text(&self, head: &Head) -> &[u8]
        requires { IsWhole self.now.link.input.bytes head.now }
        ensures { result.now ≡ text_in (first_at self.now.link.input.bytes head.now).payload }
    {
        text_in(self.payload(head))
    }
}

/// The text in a payload.
fn text_in(payload: &[u8]) -> &[u8]
    ensures { result.now ≡ text_in payload.now }
{
    match first_zero(payload) {
        Some(n) => &payload[..n],
        None => payload,
    }
}

/// Where its first zero is.
fn first_zero(payload: &[u8]) -> Option<usize>
    ensures { result ≡ position (λ b. b == 0) payload.now }
{
    payload.iter().position(|b| *b == 0)
}

/// What a header of a request on a channel names.
pub(crate) fn named_by(header: &Header) -> Wanted
    ensures { result ≡ named_by header.now }
{
    Wanted {
        sid: Sid::new(header.p1),
        id: Ioid::new(header.p2),
        data_type: header.data_type,
        count: header.count,
    }
}

/// The message of this header without its payload, for a reply that repeats what its header says.
pub(crate) fn message_without_payload(alloc: Global, header: &Header) -> Message
    ensures { result ≡ message_of header.now [] }
{
    let Header {
        command,
        data_type,
        count,
        p1,
        p2,
        ..
    } = *header;
    match Message::new(command, data_type, count, p1, p2, Vec::new(alloc)) {
        Ok(message) => message,
        Err(_) => unreachable!(),
    }
}

/// The key of the subscription that the header of an EVENT_ADD or an EVENT_CANCEL names.
pub(crate) fn key_of(header: &Header) -> SubKey
    ensures { result ≡ key_in (message_of header.now []) }
{
    SubKey {
        sid: header.p1,
        sub: header.p2,
    }
}
