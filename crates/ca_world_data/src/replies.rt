//! Replies of a server's step, read off the bytes that they became, into memory that was made
//! before the step.
ghost use Rattle.std.specs.Prelude.{◌≤◌, IfOk, length, map, vec_capacity};
ghost use Rattle.ca_world_data.specs.Replies.{AreFew, AreReplies, IsSpare};
ghost use Rattle.ca_world_data.specs.Seen.{told_of};

use crate::history::{Cause, Told};
use ca_wire::{message_at, spelled_size};
use std::alloc::{AllocError, Global};

/// The most replies that a message has.
pub const MOST_REPLIES: usize = 2;

/// Memory for the replies to a message, and for the payload of the first.
#[derive(Drop)]
pub struct Spare {
    pub told: Vec<Told>,
    pub payload: Vec<u8>,
}

/// Memory for replies, of which the first has at most this many bytes of payload, and the
/// second none.
pub fn make_spare(alloc: Global, size: usize) -> Result<Spare, AllocError>
    ensures spare { IfOk result (λ s. IsSpare s) }
    ensures many { IfOk result (λ s. size ≤ vec_capacity s.payload) }
{
    let told = Vec::with_capacity(alloc, MOST_REPLIES)?;
    let payload = Vec::with_capacity(alloc, size)?;
    Ok(Spare { told, payload })
}

/// The messages that these bytes are, in the spare memory, as replies about the client's message at
/// this place. No memory is taken.
pub fn replies_in(alloc: Global, bytes: &[u8], place: usize, spare: Spare) -> Vec<Told>
    requires few { AreFew (vec_capacity spare.payload) bytes.now }
    requires spare { IsSpare spare }
    ensures all { AreReplies
        (vec_capacity spare.payload)
        bytes.now
        place
        (map told_of result.items) }
    ensures two { length result.items ≤ 2 }
{
    let Spare { told, payload } = spare;
    let mut all = told;
    if bytes.is_empty() {
        return all;
    }
    let message = message_at(bytes, payload);
    let read = spelled_size(&message);
    all.push_reserved(Told {
        message,
        place,
        cause: Cause::Reply,
    });
    if read < bytes.len() {
        let message = message_at(&bytes[read..], Vec::new(alloc));
        all.push_reserved(Told {
            message,
            place,
            cause: Cause::Reply,
        });
    }
    all
}
