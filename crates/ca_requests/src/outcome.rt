//! What a reply means to a request: a value, a completed put, a status of failure, or a payload
//! that cannot be read. Updates are read in the same way.
ghost use Rattle.std.specs.Prelude.{ℕ, IfOk, List, OnErr};
ghost use Rattle.ca_requests.specs.Meaning.{DisplayMeans, ImageMeans, StatusMeans, message_of};
ghost use Rattle.ca_requests.specs.Calls.{HasDisplay, HasImage};

use ca_dbr::{Outcome, Value, read_value_into};
use ca_display::read_display;
use ca_text::{Refusal, Status};
use ca_wire::Header;
use std::alloc::{AllocError, Global};

/// The greatest type of an image without display data.
pub(crate) const LAST_PLAIN_TYPE: u16 = 20;

/// What the reply to a read, or an update, means: with status NORMAL its value, or why the payload
/// has none; else the status.
///
/// It takes memory only for a value that has elements.
pub fn image_outcome(alloc: Global, header: &Header, payload: &[u8]) -> Result<Outcome, AllocError>
    ensures ok { IfOk result (ImageMeans (message_of header.now payload.now)) }
    ensures err { OnErr result (HasImage (message_of header.now payload.now)) }
{
    image_outcome_into(alloc, None, header, payload)
}

/// What the reply to a read, or an update, means, as `image_outcome`, into the memory of a value
/// that is no longer used, if there is one and its elements are of that type.
#[inline(always)]
pub(crate) fn image_outcome_into(
    alloc: Global,
    room: Option<Value>,
    header: &Header,
    payload: &[u8],
) -> Result<Outcome, AllocError>
    ensures ok { IfOk result (ImageMeans (message_of header.now payload.now)) }
    ensures err { OnErr result (HasImage (message_of header.now payload.now)) }
{
    let number = header.p1;
    if number != Status::NORMAL.number {
        return Ok(Outcome::Failed(Status { number }));
    }
    match read_value_into(alloc, room, header.data_type, header.count, payload) {
        Ok((value, meta)) => Ok(Outcome::Value(value, meta)),
        Err(refusal) => match refusal {
            Refusal::OutOfMemory => Err(AllocError),
            _ => Ok(Outcome::Unreadable(refusal)),
        },
    }
}

/// What the reply to a read with display data means: with status NORMAL its value and these, or why
/// the payload has none; else the status.
///
/// It takes memory only for a value and display data.
#[inline(never)]
pub(crate) fn display_outcome(
    alloc: Global,
    header: &Header,
    payload: &[u8],
) -> Result<Outcome, AllocError>
    ensures ok { IfOk result (DisplayMeans (message_of header.now payload.now)) }
    ensures err { OnErr result (HasDisplay (message_of header.now payload.now)) }
{
    let number = header.p1;
    if number != Status::NORMAL.number {
        return Ok(Outcome::Failed(Status { number }));
    }
    match read_display(alloc, header.data_type, header.count, payload) {
        Ok((value, meta, display)) => {
            let display = Box::new(alloc, display)?;
            Ok(Outcome::Displayed(value, meta, display))
        }
        Err(refusal) => match refusal {
            Refusal::OutOfMemory => Err(AllocError),
            _ => Ok(Outcome::Unreadable(refusal)),
        },
    }
}

/// What the reply to a put with notification means: that it is done, or the status.
pub(crate) fn status_outcome(header: &Header) -> Outcome
    ensures { (payload : List ℕ) → StatusMeans (message_of header.now payload) result }
{
    let number = header.p1;
    if number != Status::NORMAL.number {
        return Outcome::Failed(Status { number });
    }
    Outcome::Done
}
