//! What a server answers to a datagram: a reply to each search for a record that it serves.
ghost use Rattle.std.specs.Prelude.{◌≡◌, ◌≢◌, [], IfErr, IfOk, OnErr, Ok, Err, map};
ghost use Rattle.std.specs.List.{flat_map};
ghost use Rattle.ca_dgram.specs.Packing.{ArePacked};
ghost use Rattle.ca_model.specs.ServerCalls.{AnswersDatagram};
ghost use Rattle.ca_server_core.specs.Searching.{answer_of, wants_answer};

use crate::server::ServerCore;
use ca_dgram::{Datagram, pack_replies};
use ca_records::ServedRecords;
use ca_text::{Command, Refusal};
use ca_wire::{Message, search_reply};
use std::alloc::{AllocError, Global};

impl ServerCore {
    /// The datagrams that answer a datagram: a reply for each search in it for a record that is
    /// served, in their order. Other searches and other messages are not answered, and what follows
    /// a message that cannot be read is not looked at.
    ///
    /// Refused as OutOfMemory, only if there is a message in it.
    pub fn datagram(&self, bytes: &[u8]) -> Result<Vec<Vec<u8>>, Refusal>
        ensures ok { IfOk result (λ v.
            AnswersDatagram self.now bytes.now (Ok (map (λ d. d.items) v.items))) }
        ensures err { IfErr result (λ e. AnswersDatagram self.now bytes.now (Err e)) }
    {
        let received = Datagram::read(self.alloc, bytes)?;
        match answers(self.alloc, self.port, &self.records, received.messages()) {
            Ok(datagrams) => Ok(datagrams),
            Err(_) => Err(Refusal::OutOfMemory),
        }
    }
}

// The datagrams that answer these messages.
fn answers(
    alloc: Global,
    port: u16,
    records: &ServedRecords,
    messages: &[Message],
) -> Result<Vec<Vec<u8>>, AllocError>
    ensures ok { IfOk result (λ v.
        ArePacked (flat_map (answer_of port records.now) messages.now)
        (map (λ d. d.items) v.items)) }
    ensures some { OnErr result (messages.now ≢ []) }
{
    let mut replies = Vec::new(alloc);
    for message in messages {
        if is_found(records, message) {
            replies.push(search_reply(alloc, port, message)?)?;
        }
    }
    pack_replies(alloc, &replies)
}

// Whether this is a search for a record that is served.
fn is_found(records: &ServedRecords, message: &Message) -> bool
    ensures { result ≡ wants_answer records.now message.now }
{
    message.command() == Command::Search.number() && records.has(message.text())
}
