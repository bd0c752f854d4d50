//! The header of a message as it is written: 16 bytes, or 24 in the extended form, for a payload
//! size or an element count of 65,535 or more. `reading.rt` reads both.
ghost use Rattle.std.specs.Prelude.{◌≡◌, ◌+◌, ◌<◌, ◌≤◌, ◌++◌, length, OnErr, OnOk, vec_capacity};
ghost use Rattle.std.specs.Prelude.{vec_len};
ghost use Rattle.ca_wire.specs.Header.{extended_header, header_spelling, short_header};

use std::alloc::AllocError;

/// What is before the payload of a message (section "Message Structure").
#[derive(Clone, Copy, Debug, PartialEq, Eq)]
pub struct Header {
    pub command: u16,
    pub data_type: u16,
    /// Bytes of the payload, its padding included.
    pub size: u32,
    /// Elements of the payload.
    pub count: u32,
    /// Parameter 1.
    pub p1: u32,
    /// Parameter 2.
    pub p2: u32,
}

/// Sizes and counts from this one on take the extended form.
pub(crate) const EXTENDED: u32 = 0xffff;

/// Bytes that the header takes as it is written: 16 or 24.
pub(crate) fn header_size(header: &Header) -> usize
    ensures { result ≡ length (header_spelling header.now) }
{
    if header.size < EXTENDED && header.count < EXTENDED {
        return 16;
    }
    24
}

/// Writes the header at the end: in 16 bytes if size and count are both below 65,535, else in 24.
#[inline(always)]
pub fn spell_header(header: &Header, out: &mut Vec<u8>) -> Result<(), AllocError>
    ensures ok { OnOk result (out.new.items ≡ out.old.items ++ header_spelling header.now) }
    ensures err { OnErr result (out.new.items ≡ out.old.items) }
    ensures room { OnErr result (vec_capacity out.old
        < vec_len out.old + length (header_spelling header.now)) }
    ensures capacity { vec_capacity out.old ≤ vec_capacity out.new }
{
    if header.size < EXTENDED && header.count < EXTENDED {
        return out.extend_from_slice(&short_form(header));
    }
    out.extend_from_slice(&extended_form(header))
}

/// The header in 16 bytes, also at a size or count of 65,535, with which
/// `spell_header` never writes it so.
pub fn short_form(header: &Header) -> [u8; 16]
    requires size { header.now.size < 65536 }
    requires count { header.now.count < 65536 }
    ensures { result ≡ short_header header.now }
{
    let command = header.command.to_be_bytes();
    let size = (header.size as u16).to_be_bytes();
    let data_type = header.data_type.to_be_bytes();
    let count = (header.count as u16).to_be_bytes();
    let p1 = header.p1.to_be_bytes();
    let p2 = header.p2.to_be_bytes();
    [
        command[0],
        command[1],
        size[0],
        size[1],
        data_type[0],
        data_type[1],
        count[0],
        count[1],
        p1[0],
        p1[1],
        p1[2],
        p1[3],
        p2[0],
        p2[1],
        p2[2],
        p2[3],
    ]
}

/// The header in 24 bytes, with a count of 16 bits that is zero.
fn extended_form(header: &Header) -> [u8; 24]
    ensures { result ≡ extended_header 0 header.now }
{
    let command = header.command.to_be_bytes();
    let data_type = header.data_type.to_be_bytes();
    let p1 = header.p1.to_be_bytes();
    let p2 = header.p2.to_be_bytes();
    let size = header.size.to_be_bytes();
    let count = header.count.to_be_bytes();
    [
        command[0],
        command[1],
        0xff,
        0xff,
        data_type[0],
        data_type[1],
        0,
        0,
        p1[0],
        p1[1],
        p1[2],
        p1[3],
        p2[0],
        p2[1],
        p2[2],
        p2[3],
        size[0],
        size[1],
        size[2],
        size[3],
        count[0],
        count[1],
        count[2],
        count[3],
    ]
}
