//! Payloads that show a value in a type, written in their place.
ghost use Rattle.std.specs.Prelude.{MatchOption};
ghost use Rattle.ca_server_circuit.specs.Showing.{HasImage, LacksImage};

use ca_dbr::{Meta, image_size};
use ca_display::{Held, display_size};
use ca_server_subscriptions::write_image;
use ca_text::Refusal;
use ca_wire::Payload;

/// The elements of a value that are shown, in a type, as the payload of a message.
#[derive(Drop)]
pub(crate) struct Shown<'a> {
    pub(crate) data_type: u16,
    pub(crate) count: u32,
    pub(crate) held: &'a Held,
    pub(crate) meta: &'a Meta,
}

impl Payload for Shown<'_> {
    ghost use Rattle.ca_server_subscriptions.specs.Imaging.{shown_image};

    ghost made = { λ p. shown_image p.data_type p.count p.held.now p.meta.now };

    fn put(&self, out: &mut Vec<u8>) -> Result<(), Refusal> {
        write_image(self.data_type, self.count, self.held, self.meta, out)
    }
}

/// n zero bytes, in place of an image that a value does not have.
#[derive(Drop)]
pub(crate) struct Zeros {
    pub(crate) size: usize,
}

impl Payload for Zeros {
    ghost use Rattle.std.specs.Prelude.{Ok, replicate};

    ghost made = { λ p. Ok (replicate p.size 0) };

    fn put(&self, out: &mut Vec<u8>) -> Result<(), Refusal> {
        out.reserve(self.size)?;
        out.resize(out.len() + self.size, 0)?;
        Ok(())
    }
}

/// How many bytes the image of n elements takes, in the type of this number. None if a record that
/// holds this lacks the type.
pub(crate) fn shown_size(held: &Held, number: u16, count: u32) -> Option<usize>
    ensures { MatchOption result (LacksImage held.now number)
        (λ size. HasImage held.now number count size) }
{
    match held.display() {
        None => image_size(number, count).ok(),
        Some(_) => display_size(number, count).ok(),
    }
}
