//! Messages whose payload is written straight into the output, for values that would otherwise be
//! copied once more. `Payload` is the trait of what writes one.
ghost use Rattle.std.specs.Prelude.{ℕ, List, Result, ◌≡◌, ◌-◌, ◌%◌, ◌≤◌, ◌++◌, IfOk, OnErr, OnOk};
ghost use Rattle.std.specs.Prelude.{length, replicate};
ghost use Rattle.ca_text.specs.declared.refusal.Refusal.{Refusal};
ghost use Rattle.ca_text.specs.Limits.{payload_limit};
ghost use Rattle.ca_wire.specs.Made.{Makes, PutsMade, WritesMade};

use crate::header::{Header, header_size, spell_header};
use crate::message::Message;
use ca_text::Refusal;
use std::alloc::AllocError;

/// What makes the payload of a message straight in its place, so that no bytes are moved.
pub trait Payload {
    // Its bytes, without padding, or why there are none.
    ghost made: { Self → Result (List ℕ) Refusal };

    /// Puts its bytes after the others. A refusal may leave some of them.
    fn put(&self, out: &mut Vec<u8>) -> Result<(), Refusal>
        ensures { Makes (made self.now) out.old.items result out.new.items };
}

/// Writes the one spelling of the message with this payload, of n bytes, at the end. A
/// refusal changes nothing.
pub fn spell_made<P: Payload>(
    head: &Message,
    size: usize,
    payload: &P,
    out: &mut Vec<u8>,
) -> Result<(), Refusal>
    requires within { size ≤ payload_limit }
    requires sized { IfOk (P.made payload.now) (λ bytes. length bytes ≡ size) }
    ensures { PutsMade head.now (P.made payload.now) out.old.items result out.new.items }
{
    let end = out.len();
    match write_made(head, size, payload, out) {
        Ok(()) => Ok(()),
        Err(refusal) => {
            out.truncate(end);
            Err(refusal)
        }
    }
}

/// Writes the one spelling of the message with this payload at the end. A refusal
/// may leave some bytes.
fn write_made<P: Payload>(
    head: &Message,
    size: usize,
    payload: &P,
    out: &mut Vec<u8>,
) -> Result<(), Refusal>
    requires within { size ≤ payload_limit }
    requires sized { IfOk (P.made payload.now) (λ bytes. length bytes ≡ size) }
    ensures { WritesMade head.now (P.made payload.now) out.old.items result out.new.items }
{
    let padded = size.next_multiple_of(8);
    let header = Header {
        command: head.command(),
        data_type: head.data_type(),
        size: padded as u32,
        count: head.count(),
        p1: head.p1(),
        p2: head.p2(),
    };
    out.reserve(header_size(&header) + padded)?;
    spell_header(&header, out)?;
    payload.put(out)?;
    pad(size, out)?;
    Ok(())
}

/// Puts zeros after n bytes of a payload, up to a multiple of 8.
fn pad(size: usize, out: &mut Vec<u8>) -> Result<(), AllocError>
    ensures ok { OnOk result (out.new.items ≡ out.old.items ++ replicate ((8 - size % 8) % 8) 0) }
    ensures err { OnErr result (out.new.items ≡ out.old.items) }
{
    let over = size % 8;
    if over == 0 {
        return Ok(());
    }
    // After one element of four bytes.
    if over == 4 {
        pad_four(out)?;
        return Ok(());
    }
    out.extend_from_slice(&[0u8; 8][over..])
}

/// Puts four zeros at the end.
fn pad_four(out: &mut Vec<u8>) -> Result<(), AllocError>
    ensures ok { OnOk result (out.new.items ≡ out.old.items ++ replicate 4 0) }
    ensures err { OnErr result (out.new.items ≡ out.old.items) }
{
    out.reserve(4)?;
    out.push_reserved(0);
    out.push_reserved(0);
    out.push_reserved(0);
    out.push_reserved(0);
    Ok(())
}
