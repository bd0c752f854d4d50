//! How bytes are read as a message: `read_one` finds a complete message, too few bytes, or a bad
//! header. Two faster readers recognize frequent requests by their first bytes.
ghost use Rattle.std.specs.Prelude.{◌≡◌, ◌+◌, ◌≤◌, ◌++◌, length, MatchOption};
ghost use Rattle.ca_wire.specs.Header.{number16, number32};
ghost use Rattle.ca_wire.specs.Reading.{BeginsHeaderOnly, BeginsHeader, BeginsScalar, IsOne};
ghost use Rattle.ca_wire.specs.Reading.{NoHeaderOnly};
ghost use Rattle.ca_wire.specs.Reading.{NoHeader, NoScalar};

use crate::header::Header;
use crate::ids::{Ioid, Sid};
use crate::requests::Wanted;
use ca_text::{Command, PAYLOAD_LIMIT, Refusal};

/// The header of a complete message, and where its payload starts.
#[derive(Clone, Copy, Debug, PartialEq, Eq)]
pub struct Head {
    pub header: Header,
    /// Bytes before the payload: 16, or 24 in the extended form.
    pub start: usize,
}

/// What is at the front of bytes.
#[derive(Clone, Copy, Debug, PartialEq, Eq)]
pub enum One {
    /// A complete message.
    Whole(Head),
    /// Less than one.
    More,
    /// A complete header that is refused: as Misaligned for a size that is no multiple of 8, else
    /// as TooLarge for one over the limit.
    Bad(Refusal),
}

/// What begins these bytes. A bad header is told as soon as it is complete.
pub fn read_one(bytes: &[u8]) -> One
    ensures { IsOne bytes.now result }
{
    let Some(head) = head_at(bytes) else {
        return One::More;
    };
    let size = head.header.size as usize;
    if size % 8 != 0 {
        return One::Bad(Refusal::Misaligned);
    }
    if size > PAYLOAD_LIMIT {
        return One::Bad(Refusal::TooLarge);
    }
    if bytes.len() - head.start < size {
        return One::More;
    }
    One::Whole(head)
}

/// The header at the front, if a complete one is there.
pub(crate) fn head_at(bytes: &[u8]) -> Option<Head>
    ensures { MatchOption result (NoHeader bytes.now) (BeginsHeader bytes.now) }
{
    if bytes.len() < 16 {
        return None;
    }
    let (command, rest) = number16_at(bytes);
    let (size16, rest) = number16_at(rest);
    let (data_type, rest) = number16_at(rest);
    let (count16, rest) = number16_at(rest);
    let (p1, rest) = number32_at(rest);
    let (p2, rest) = number32_at(rest);
    if size16 != 0xffff {
        let size = u32::from(size16);
        let count = u32::from(count16);
        let header = Header {
            command,
            data_type,
            size,
            count,
            p1,
            p2,
        };
        return Some(Head { header, start: 16 });
    }
    if rest.len() < 8 {
        return None;
    }
    let (size, rest) = number32_at(rest);
    let (count, _rest) = number32_at(rest);
    let header = Header {
        command,
        data_type,
        size,
        count,
        p1,
        p2,
    };
    Some(Head { header, start: 24 })
}

/// What the message at the front names, if it is of this command and its header, in 16
/// bytes, is all of it.
#[inline(always)]
pub(crate) fn without_payload_at(bytes: &[u8], command: Command) -> Option<Wanted>
    ensures { MatchOption result (NoHeaderOnly bytes.now command)
        (BeginsHeaderOnly bytes.now command) }
{
    if bytes.len() < 16 {
        return None;
    }
    let (number, rest) = number16_at(bytes);
    if number != command.number() {
        return None;
    }
    let (size, rest) = number16_at(rest);
    if size != 0 {
        return None;
    }
    let (data_type, rest) = number16_at(rest);
    let (count16, rest) = number16_at(rest);
    let (sid, rest) = number32_at(rest);
    let (id, _rest) = number32_at(rest);
    Some(Wanted {
        sid: Sid::new(sid),
        id: Ioid::new(id),
        data_type,
        count: u32::from(count16),
    })
}

/// What the message at the front names, if it is of this command, and is a header in 16 bytes
/// and a payload of eight.
#[inline(always)]
pub(crate) fn of_eight_bytes_at(bytes: &[u8], command: Command) -> Option<Wanted>
    ensures { MatchOption result (NoScalar bytes.now command) (BeginsScalar bytes.now command) }
{
    if bytes.len() < 24 {
        return None;
    }
    let (number, rest) = number16_at(bytes);
    if number != command.number() {
        return None;
    }
    let (size, rest) = number16_at(rest);
    if size != 8 {
        return None;
    }
    let (data_type, rest) = number16_at(rest);
    let (count16, rest) = number16_at(rest);
    let (sid, rest) = number32_at(rest);
    let (id, _rest) = number32_at(rest);
    Some(Wanted {
        sid: Sid::new(sid),
        id: Ioid::new(id),
        data_type,
        count: u32::from(count16),
    })
}

/// The two-byte number at the front, and what is after it.
fn number16_at(bytes: &[u8]) -> (u16, &[u8])
    requires { 2 ≤ length bytes.now }
    ensures front { bytes.now ≡ number16 result.0 ++ result.1.now }
    ensures len { length result.1.now + 2 ≡ length bytes.now }
{
    let (front, rest) = bytes.split_at(2);
    (u16::from_be_bytes([front[0], front[1]]), rest)
}

/// The four-byte number at the front, and what is after it.
fn number32_at(bytes: &[u8]) -> (u32, &[u8])
    requires { 4 ≤ length bytes.now }
    ensures front { bytes.now ≡ number32 result.0 ++ result.1.now }
    ensures len { length result.1.now + 4 ≡ length bytes.now }
{
    let (front, rest) = bytes.split_at(4);
    (
        u32::from_be_bytes([front[0], front[1], front[2], front[3]]),
        rest,
    )
}
