//! The image of what a record holds, in the type that a message asks for.
ghost use Rattle.ca_wire.specs.Made.{Makes};
ghost use Rattle.ca_server_subscriptions.specs.Imaging.{shown_image};

use ca_dbr::{Meta, write_shown};
use ca_display::{Held, write_display};
use ca_text::Refusal;

/// Writes the image of what a read shows of a record at the end of the bytes: n elements of what it
/// holds, in the type of this number. One with display data has all 35 types, another those without
/// display data.
///
/// Refused as BadType if it lacks the type, by the first element that does not convert, or as
/// OutOfMemory.
pub fn write_image(
    number: u16,
    count: u32,
    held: &Held,
    meta: &Meta,
    out: &mut Vec<u8>,
) -> Result<(), Refusal>
    ensures { Makes (shown_image number count held.now meta.now) out.old.items result
        out.new.items }
{
    let value = held.value();
    match held.display() {
        None => write_shown(number, count, value, meta, out),
        Some(display) => write_display(number, count, value, meta, display, out),
    }
}
