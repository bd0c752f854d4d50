//! A value as the payload of a write.
ghost use Rattle.std.specs.Prelude.{◌≡◌, IsSome, OnErr, OnOk, ◌<◌, ◌^◌, length};
ghost use Rattle.ca_dbr.specs.Elements.{bytes_of, elements, count_of};
ghost use Rattle.ca_wire.specs.Made.{with_payload};
ghost use Rattle.ca_client_tables.specs.Ends.{queued};
ghost use Rattle.ca_client_tables.specs.Puts.{IsSmall};

use crate::circuit::ClientCircuit;
use ca_dbr::{Meta, Value, write_value};
use ca_text::Refusal;
use ca_wire::{Message, Payload};
use std::alloc::AllocError;

/// A value as the payload of a write: its elements alone.
#[derive(Drop)]
struct Elements<'a> {
    value: &'a Value,
}

impl Payload for Elements<'_> {
    ghost use Rattle.std.specs.Prelude.{Ok};
    ghost use Rattle.ca_dbr.specs.Elements.{bytes_of, elements};

    ghost made = { λ p. Ok (bytes_of (elements p.value.now)) };

    fn put(&self, out: &mut Vec<u8>) -> Result<(), Refusal> {
        write_value(
            self.value.base_type().number(),
            self.value,
            &Meta::ZERO,
            out,
        )
    }
}

impl ClientCircuit {
    /// Puts a message with this value after what waits, if it is connected: only then it allocates.
    /// Without memory nothing changes.
    pub fn queue_value(&mut self, head: &Message, value: &Value) -> Result<(), AllocError>
        requires { IsSmall (elements value.now) }
        ensures ok { OnOk result (self.new
            ≡ queued (with_payload (bytes_of (elements value.now)) head.now) self.old) }
        ensures err { OnErr result (self.new ≡ self.old) }
        ensures some { OnErr result (IsSome self.old.connection) }
    {
        let Some(connection) = &mut self.connection else {
            return Ok(());
        };
        let payload = Elements { value };
        if connection
            .link
            .queue_made(head, size_of(value), &payload)
            .is_err()
        {
            return Err(AllocError);
        }
        Ok(())
    }
}

/// How many bytes the elements of a value are.
pub fn size_of(value: &Value) -> usize
    requires { count_of (elements value.now) < 2 ^ 32 }
    ensures { result ≡ length (bytes_of (elements value.now)) }
{
    value.know();
    value.count() * value.base_type().element_size()
}
