//! The messages of a server, by name: how each is made, and what it says (section "CA Protocol
//! Messages"). `request` is the message that a reply answers.
ghost use Rattle.std.specs.Prelude.{◌≡◌, ◌++◌, [], IfOk, MatchOption, replicate};
ghost use Rattle.ca_text.specs.declared.command.Command.TheVariants as command;
ghost use Rattle.ca_text.specs.Limits.{minor_version};
ghost use Rattle.ca_wire.specs.Header.{number16};
ghost use Rattle.ca_wire.specs.Message.{header_of};
ghost use Rattle.ca_wire.specs.Messages.{cancel_reply, created_reply, disconnect, failed_reply};
ghost use Rattle.ca_wire.specs.Messages.{no_cid};
ghost use Rattle.ca_wire.specs.Messages.{not_found_reply, on_channel, read_request, rights_reply};
ghost use Rattle.ca_wire.specs.Messages.{search_reply, status_reply, update, value_reply};
ghost use Rattle.ca_wire.specs.Messages.{version_reply};
ghost use Rattle.ca_wire.specs.Reading.{BeginsHeader, NoHeader};

use crate::header::Header;
use crate::ids::{Cid, Ioid, Sid};
use crate::message::Message;
use crate::reading::{Head, head_at};
use crate::requests::Wanted;
use ca_text::{Command, MINOR_VERSION, Status};
use std::alloc::{AllocError, Global};

/// What an answer or an update is about, how it went, and which elements it has.
#[derive(Clone, Copy, Debug, PartialEq, Eq)]
pub struct Answered {
    pub id: Ioid,
    pub status: Status,
    pub data_type: u16,
    pub count: u32,
}

// ---- how they are made. One without a payload does not allocate.

/// VERSION.
pub fn version_reply(alloc: Global) -> Message
    ensures { result ≡ version_reply }
{
    let minor = u32::from(MINOR_VERSION);
    Message::with_no_payload(alloc, Command::Version, 0, minor, 0, 0)
}

/// The header of a VERSION of a server, which also begins a datagram of searches.
pub fn version_header() -> Header
    ensures { result ≡ header_of version_reply }
{
    Header {
        command: Command::Version.number(),
        data_type: 0,
        size: 0,
        count: u32::from(MINOR_VERSION),
        p1: 0,
        p2: 0,
    }
}

/// SEARCH, answered: a server listens at this TCP port of the sender's address.
pub fn search_reply(alloc: Global, port: u16, request: &Message) -> Result<Message, AllocError>
    ensures { IfOk result (λ m. m ≡ search_reply port request.now) }
{
    let payload = Vec::from_slice(alloc, &minor_payload())?;
    let command = Command::Search.number();
    Ok(Message::of_fields(command, port, 0, u32::MAX, request.p2(), payload))
}

/// NOT_FOUND.
pub fn not_found_reply(alloc: Global, request: &Message) -> Message
    ensures { result ≡ not_found_reply request.now }
{
    let minor = u32::from(MINOR_VERSION);
    let (data_type, cid) = (request.data_type(), request.p2());
    Message::with_no_payload(alloc, Command::NotFound, data_type, minor, cid, cid)
}

/// ACCESS_RIGHTS: the bit 1 to read, the bit 2 to write.
pub fn rights_reply(alloc: Global, request: &Message, bits: u32) -> Message
    ensures { result ≡ rights_reply request.now bits }
{
    Message::with_no_payload(alloc, Command::AccessRights, 0, 0, request.p1(), bits)
}

/// CREATE_CHAN, answered.
pub fn created_reply(
    alloc: Global,
    request: &Message,
    data_type: u16,
    count: u32,
    sid: Sid,
) -> Message
    ensures { result ≡ created_reply request.now data_type count sid }
{
    let (cid, sid) = (request.p1(), sid.number());
    Message::with_no_payload(alloc, Command::CreateChannel, data_type, count, cid, sid)
}

/// CREATE_CH_FAIL.
pub fn failed_reply(alloc: Global, request: &Message) -> Message
    ensures { result ≡ failed_reply request.now }
{
    Message::with_no_payload(alloc, Command::CreateChannelFail, 0, 0, request.p1(), 0)
}

/// READ_NOTIFY of this, answered, with no image, which is to be made in its place.
pub fn read_head(alloc: Global, wanted: &Wanted, count: u32) -> Message
    ensures { result ≡ value_reply (read_request wanted.now) count [] }
{
    let (normal, id) = (Status::NORMAL.number, wanted.id.number());
    Message::with_no_payload(
        alloc,
        Command::ReadNotify,
        wanted.data_type,
        count,
        normal,
        id,
    )
}

/// READ_NOTIFY of this, answered by a status alone.
pub fn read_status(alloc: Global, wanted: &Wanted, status: Status) -> Message
    ensures { result ≡ status_reply (read_request wanted.now) status.number }
{
    let (data_type, count) = (wanted.data_type, wanted.count);
    let (status, id) = (status.number, wanted.id.number());
    Message::with_no_payload(alloc, Command::ReadNotify, data_type, count, status, id)
}

/// WRITE_NOTIFY that names this, answered by a status alone.
pub fn put_status(alloc: Global, wanted: &Wanted, status: Status) -> Message
    ensures { result
        ≡ status_reply (on_channel command.WriteNotify wanted.now []) status.number }
{
    let (data_type, count, id) = (wanted.data_type, wanted.count, wanted.id.number());
    Message::with_no_payload(
        alloc,
        Command::WriteNotify,
        data_type,
        count,
        status.number,
        id,
    )
}

/// The confirmation of an EVENT_CANCEL.
pub fn cancel_reply(alloc: Global, request: &Message) -> Message
    ensures { result ≡ cancel_reply request.now }
{
    let (data_type, count) = (request.data_type(), request.count());
    let (sid, id) = (request.p1(), request.p2());
    Message::with_no_payload(alloc, Command::EventAdd, data_type, count, sid, id)
}

/// What is in place of a CID in an ERROR if the SID is unknown.
pub fn no_cid() -> Cid
    ensures { result ≡ no_cid }
{
    Cid::new(u32::MAX)
}

/// An update with no image, which is to be made in its place.
pub fn update_head(alloc: Global, answered: Answered) -> Message
    ensures { result
        ≡ update answered.data_type answered.count answered.status.number answered.id [] }
{
    let Answered {
        id,
        status,
        data_type,
        count,
    } = answered;
    Message::with_no_payload(
        alloc,
        Command::EventAdd,
        data_type,
        count,
        status.number,
        id.number(),
    )
}

/// SERVER_DISCONN.
pub fn disconnect(alloc: Global, cid: Cid) -> Message
    ensures { result ≡ disconnect cid }
{
    Message::with_no_payload(alloc, Command::ServerDisconnect, 0, 0, cid.number(), 0)
}

// ---- what they say

/// The header that an ERROR with this payload quotes, if it is complete.
pub fn quoted(payload: &[u8]) -> Option<Head>
    ensures { MatchOption result (NoHeader payload.now) (BeginsHeader payload.now) }
{
    head_at(payload)
}

/// The payload of the reply to a SEARCH: the minor version.
fn minor_payload() -> [u8; 8]
    ensures { result ≡ number16 minor_version ++ replicate 6 0 }
{
    let minor = MINOR_VERSION.to_be_bytes();
    [minor[0], minor[1], 0, 0, 0, 0, 0, 0]
}
