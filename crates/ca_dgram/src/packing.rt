//! A server's replies to searches, packed into datagrams: each begins with a VERSION and carries up
//! to 42 replies.
ghost use Rattle.std.specs.Prelude.{◌≡◌, ◌≢◌, ◌∷◌, [], IfOk, OnErr, map};
ghost use Rattle.ca_dgram.specs.Packing.{ArePacked, datagram_of};

use ca_text::DATAGRAM_REPLIES;
use ca_wire::{Message, spell, version_reply};
use std::alloc::{AllocError, Global};

/// The datagrams of a server's replies to searches, in order: each is a VERSION and 42 of them, and
/// the last what is left.
///
/// It asks for memory only if there is a reply.
pub fn pack_replies(alloc: Global, replies: &[Message]) -> Result<Vec<Vec<u8>>, AllocError>
    ensures ok { IfOk result (λ v. ArePacked replies.now (map (λ d. d.items) v.items)) }
    ensures some { OnErr result (replies.now ≢ []) }
{
    let mut datagrams = Vec::new(alloc);
    let mut rest = replies;
    while rest.len() > DATAGRAM_REPLIES {
        let (group, behind) = rest.split_at(DATAGRAM_REPLIES);
        datagrams.push(packed(alloc, group)?)?;
        rest = behind;
    }
    if rest.is_empty() {
        return Ok(datagrams);
    }
    datagrams.push(packed(alloc, rest)?)?;
    Ok(datagrams)
}

/// The datagram of these replies.
fn packed(alloc: Global, replies: &[Message]) -> Result<Vec<u8>, AllocError>
    ensures { IfOk result (λ d. d.items ≡ datagram_of replies.now) }
{
    let mut datagram = Vec::new(alloc);
    spell(&version_reply(alloc), &mut datagram)?;
    for reply in replies {
        spell(reply, &mut datagram)?;
    }
    Ok(datagram)
}
