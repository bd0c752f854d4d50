//! A client's searches, written into a datagram one by one until its limit of 1,024 bytes. The
//! datagram begins with a VERSION.
ghost use Rattle.std.specs.Prelude.{◌≡◌, ◌+◌, ◌<◌, ◌≤◌, ◌++◌, IfErr, length, vec_capacity};
ghost use Rattle.ca_dgram.specs.Search.{Searches, begun, searched};
ghost use Rattle.ca_text.specs.declared.refusal.Refusal.TheVariants.{OutOfMemory};

use ca_text::{ChannelName, DATAGRAM_LIMIT, Refusal};
use ca_wire::{Cid, search_header, short_form, version_header};
use std::alloc::Global;

/// Bytes of a header.
const HEADER: usize = 16;

/// Writes the search for this name at the end of the datagram; if that is empty, the VERSION first.
///
/// Refused as DatagramTooLong if the datagram would have more than 1,024 bytes. A refusal changes
/// nothing; as OutOfMemory only if the buffer has no room for it.
pub fn search_into(cid: u32, name: &ChannelName, out: &mut Vec<u8>) -> Result<(), Refusal>
    ensures searches { Searches out.old.items cid name.now result out.new.items }
    ensures room { IfErr result (λ e. e ≡ OutOfMemory
        → vec_capacity out.old < length (searched out.old.items cid name.now)) }
{
    let name = name.bytes();
    let zeros = 8 - name.len() % 8;
    let size = name.len() + zeros;
    let growth = opening(out) + HEADER + size;
    if out.len() > DATAGRAM_LIMIT - growth {
        return Err(Refusal::DatagramTooLong);
    }
    out.reserve(growth)?;
    begin(out);
    let header = short_form(&search_header(Cid::new(cid), size as u32));
    append(&header, out);
    append(name, out);
    append(&[0; 8][..zeros], out);
    Ok(())
}

/// The bytes of the VERSION that a datagram lacks.
fn opening(datagram: &[u8]) -> usize
    ensures opens { length datagram.now + result ≡ length (begun datagram.now) }
    ensures small { result ≤ 16 }
{
    if datagram.is_empty() { HEADER } else { 0 }
}

/// Writes the VERSION if the datagram is empty.
fn begin(out: &mut Vec<u8>)
    requires { length (begun out.old.items) ≤ vec_capacity out.old }
    ensures items { out.new.items ≡ begun out.old.items }
    ensures capacity { vec_capacity out.old ≤ vec_capacity out.new }
{
    if out.is_empty() {
        let header = short_form(&version_header());
        append(&header, out);
    }
}

/// Writes the bytes at the end of a buffer that has room for them.
fn append(part: &[u8], out: &mut Vec<u8>)
    requires { length out.old.items + length part.now ≤ vec_capacity out.old }
    ensures items { out.new.items ≡ out.old.items ++ part.now }
    ensures capacity { vec_capacity out.old ≤ vec_capacity out.new }
{
    match out.extend_from_slice(part) {
        Ok(()) => {}
        Err(_) => unreachable!(),
    }
}
