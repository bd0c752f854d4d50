//! The messages of a client, by name: how each is made, and what it says (section "CA
//! Protocol Messages").
ghost use Rattle.std.specs.Prelude.{◌≡◌, ◌≢◌, ◌==◌, ◌+◌, ◌%◌, ◌<◌, ◌≤◌, ◌++◌, ◌∷◌, [], IfOk, OnErr};
ghost use Rattle.std.specs.Prelude.{length, position};
ghost use Rattle.ca_text.specs.Limits.{payload_limit};
ghost use Rattle.ca_wire.specs.Message.{header_of};
ghost use Rattle.ca_wire.specs.Messages.{header_only, clear_request, create_request};
ghost use Rattle.ca_wire.specs.Messages.{event_add_request};
ghost use Rattle.ca_wire.specs.Messages.{event_cancel_request, mask_payload, name_request};
ghost use Rattle.ca_wire.specs.Messages.{on_channel, put_request, read_request, search_request};
ghost use Rattle.ca_wire.specs.Messages.{text_in, version_request};

use crate::header::Header;
use crate::ids::{Cid, Ioid, Priority, Sid};
use crate::message::Message;
use ca_text::{Command, MINOR_VERSION, Mask};
use std::alloc::{AllocError, Global};

/// Data type of a SEARCH that wants no answer if the name is unknown.
const NO_REPLY_WANTED: u16 = 5;

/// What a request on a channel names: the SID, the IOID or subscription id, and the type and
/// count that are wanted.
#[derive(Clone, Copy, Debug, PartialEq, Eq)]
pub struct Wanted {
    pub sid: Sid,
    pub id: Ioid,
    pub data_type: u16,
    pub count: u32,
}

// ---- how they are made. One without a payload does not allocate.

/// A command alone: ECHO, EVENTS_OFF or EVENTS_ON.
pub fn header_only(alloc: Global, command: Command) -> Message
    ensures { result ≡ header_only command }
{
    Message::with_no_payload(alloc, command, 0, 0, 0, 0)
}

/// VERSION.
pub fn version_request(alloc: Global, priority: Priority) -> Message
    ensures { result ≡ version_request priority }
{
    let minor = u32::from(MINOR_VERSION);
    Message::with_no_payload(alloc, Command::Version, priority.number(), minor, 0, 0)
}

/// CLIENT_NAME or HOST_NAME, with this text.
pub fn name_request(alloc: Global, command: Command, text: &[u8]) -> Result<Message, AllocError>
    requires { length text.now < payload_limit }
    ensures { IfOk result (λ m. m ≡ name_request command text.now) }
{
    let payload = ended(alloc, text)?;
    Message::with_padding(command.number(), 0, 0, 0, 0, payload)
}

/// SEARCH, which gets no answer if the name is unknown.
pub fn search_request(alloc: Global, cid: Cid, name: &[u8]) -> Result<Message, AllocError>
    requires { length name.now < payload_limit }
    ensures { IfOk result (λ m. m ≡ search_request cid name.now) }
{
    let payload = ended(alloc, name)?;
    let minor = u32::from(MINOR_VERSION);
    let (command, cid) = (Command::Search.number(), cid.number());
    Message::with_padding(command, NO_REPLY_WANTED, minor, cid, cid, payload)
}

/// The header of a SEARCH whose payload has n bytes.
pub fn search_header(cid: Cid, size: u32) -> Header
    ensures { result ≡ record (header_of (search_request cid [])) { size = size } }
{
    Header {
        command: Command::Search.number(),
        data_type: NO_REPLY_WANTED,
        size,
        count: u32::from(MINOR_VERSION),
        p1: cid.number(),
        p2: cid.number(),
    }
}

/// CREATE_CHAN.
pub fn create_request(alloc: Global, cid: Cid, name: &[u8]) -> Result<Message, AllocError>
    requires { length name.now < payload_limit }
    ensures { IfOk result (λ m. m ≡ create_request cid name.now) }
{
    let payload = ended(alloc, name)?;
    let minor = u32::from(MINOR_VERSION);
    let command = Command::CreateChannel.number();
    Message::with_padding(command, 0, 0, cid.number(), minor, payload)
}

/// CLEAR_CHANNEL.
pub fn clear_request(alloc: Global, sid: Sid, cid: Cid) -> Message
    ensures { result ≡ clear_request sid cid }
{
    let (sid, cid) = (sid.number(), cid.number());
    Message::with_no_payload(alloc, Command::ClearChannel, 0, 0, sid, cid)
}

/// READ_NOTIFY.
pub fn read_request(alloc: Global, wanted: Wanted) -> Message
    ensures { result ≡ read_request wanted }
{
    on_channel(alloc, Command::ReadNotify, wanted)
}

/// WRITE or WRITE_NOTIFY, with the bytes of the value. Only padding takes memory.
pub fn put_request(command: Command, wanted: Wanted, bytes: Vec<u8>) -> Result<Message, AllocError>
    requires { length bytes.items ≤ payload_limit }
    ensures ok { IfOk result (λ m. m ≡ put_request command wanted bytes.items) }
    ensures err { OnErr result (length bytes.items % 8 ≢ 0) }
{
    let Wanted {
        sid,
        id,
        data_type,
        count,
    } = wanted;
    let (sid, id) = (sid.number(), id.number());
    Message::with_padding(command.number(), data_type, count, sid, id, bytes)
}

/// WRITE or WRITE_NOTIFY with no bytes, whose payload is to be made in its place.
pub fn put_head(alloc: Global, command: Command, wanted: Wanted) -> Message
    ensures { result ≡ put_request command wanted [] }
{
    on_channel(alloc, command, wanted)
}

/// EVENT_ADD.
pub fn event_add_request(alloc: Global, wanted: Wanted, mask: Mask) -> Result<Message, AllocError>
    ensures { IfOk result (λ m. m ≡ event_add_request wanted mask) }
{
    let payload = Vec::from_slice(alloc, &mask_payload(mask.bits()))?;
    let (sid, id) = (wanted.sid.number(), wanted.id.number());
    let command = Command::EventAdd.number();
    let Wanted {
        data_type,
        count,
        ..
    } = wanted;
    Ok(Message::of_fields(command, data_type, count, sid, id, payload))
}

/// EVENT_CANCEL, with the type and count of the EVENT_ADD.
pub fn event_cancel_request(alloc: Global, wanted: Wanted) -> Message
    ensures { result ≡ event_cancel_request wanted }
{
    on_channel(alloc, Command::EventCancel, wanted)
}

// ---- what they say

impl Message {
    /// The text in a CLIENT_NAME, HOST_NAME, SEARCH or CREATE_CHAN: up to the first zero of the
    /// payload, or all of it.
    pub fn text(&self) -> &[u8]
        ensures { result.now ≡ text_in self.now.payload }
    {
        text_in(self.payload())
    }
}

/// A request on a channel, with no payload.
fn on_channel(alloc: Global, command: Command, wanted: Wanted) -> Message
    ensures { result ≡ on_channel command wanted [] }
{
    let Wanted {
        sid,
        id,
        data_type,
        count,
    } = wanted;
    Message::with_no_payload(alloc, command, data_type, count, sid.number(), id.number())
}

/// The text with a terminating zero.
fn ended(alloc: Global, text: &[u8]) -> Result<Vec<u8>, AllocError>
    requires { length text.now < payload_limit }
    ensures { IfOk result (λ v. v.items ≡ text.now ++ 0 ∷ []) }
{
    let mut bytes = Vec::with_capacity(alloc, text.len() + 8)?;
    bytes.extend_from_slice(text)?;
    bytes.extend_from_slice(&[0])?;
    Ok(bytes)
}

/// The payload of an EVENT_ADD.
fn mask_payload(bits: u16) -> [u8; 16]
    ensures { result ≡ mask_payload bits }
{
    let mask = bits.to_be_bytes();
    [0, 0, 0, 0, 0, 0, 0, 0, 0, 0, 0, 0, mask[0], mask[1], 0, 0]
}

/// The text in a payload.
fn text_in(payload: &[u8]) -> &[u8]
    ensures { result.now ≡ text_in payload.now }
{
    match first_zero(payload) {
        Some(n) => &payload[..n],
        None => payload,
    }
}

fn first_zero(payload: &[u8]) -> Option<usize>
    ensures { result ≡ position (λ b. b == 0) payload.now }
{
    payload.iter().position(|b| *b == 0)
}
