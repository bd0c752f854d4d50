//! Calls for a recorder of histories. No server needs them.
ghost use Rattle.std.specs.Prelude.{◌≡◌, ◌≢◌, ◌<◌, [], IfOk, OnErr, length};
ghost use Rattle.ca_ids.specs.Table.{under};
ghost use Rattle.ca_records.specs.Puts.{record_named};
ghost use Rattle.ca_server_core.specs.ForHistories.{ComesBefore, ConcernsUnder, EndsAt, IsOverAt};
ghost use Rattle.ca_server_core.specs.ForHistories.{SizesUnder, bytes_under, channels_under};
ghost use Rattle.ca_server_core.specs.ForHistories.{is_over, put_in};

use crate::server::ServerCore;
use ca_arena::Handle;
use ca_ids::HeldTable;
use ca_records::Put;
use ca_records::for_histories::waiting_put;
use ca_server_circuit::Circuit;
use std::alloc::AllocError;

/// How many indices the handles of circuits had so far.
pub fn places(core: &ServerCore) -> usize
    ensures { result ≡ length core.now.circuits }
{
    core.circuits.places()
}

/// Whether the end of a circuit has ended in a call that did not report it.
pub fn has_ended(core: &ServerCore, circuit: Handle) -> bool
    ensures { result ≡ is_over (under core.now.circuits circuit) }
{
    match core.circuits.by_handle(circuit) {
        Some(found) => !found.is_open(),
        None => false,
    }
}

/// The circuit of this index, if its end has ended in a call that did not report
/// it. No put of it waits.
pub fn ended_at(core: &ServerCore, index: usize) -> Option<Handle>
    requires { index < length core.now.circuits }
    ensures { EndsAt core.now index result }
{
    over_at(&core.circuits, index)
}

// The circuit of this index, if its end has ended.
fn over_at(circuits: &HeldTable<Circuit>, index: usize) -> Option<Handle>
    requires { index < length circuits.now }
    ensures { IsOverAt circuits.now index result }
{
    let Some((circuit, found)) = circuits.at(index) else {
        return None;
    };
    if found.is_open() {
        return None;
    }
    Some(circuit)
}

/// The place of the queue that has the subscription at this place of a circuit, if a post to the
/// record of this name, with this mask, concerns it. None if its end is not open.
pub fn concerned_at(
    core: &ServerCore,
    circuit: Handle,
    place: usize,
    name: &[u8],
    mask: u16,
) -> Option<usize>
    ensures { ConcernsUnder name.now mask place (under core.now.circuits circuit) result }
{
    match core.circuits.by_handle(circuit) {
        Some(found) => found.concerned_at(place, name, mask),
        None => None,
    }
}

/// How many bytes of payload the update has at most that has this number from the front of
/// the queue at this place of a circuit, if its end is open and one waits there.
pub fn update_size(core: &ServerCore, circuit: Handle, place: usize, index: usize) -> Option<usize>
    ensures { SizesUnder (under core.now.circuits circuit) place index result }
{
    match core.circuits.by_handle(circuit) {
        Some(found) => found.update_size(place, index),
        None => None,
    }
}

/// The bytes that wait on a circuit, or that its end left which has ended in a call
/// that did not report it.
pub fn bytes_of(core: &ServerCore, circuit: Handle) -> &[u8]
    ensures { result.now ≡ bytes_under (under core.now.circuits circuit) }
{
    match core.circuits.by_handle(circuit) {
        Some(found) => found.bytes(),
        None => &[],
    }
}

/// Whether the record of this name comes before the other in the order of the records.
pub fn comes_before(core: &ServerCore, name: &[u8], other: &[u8]) -> bool
    ensures { ComesBefore core.now.records name.now other.now result }
{
    let Some(place) = core.records.find(name) else {
        return false;
    };
    let Some(next) = core.records.find(other) else {
        return false;
    };
    place < next
}

/// The SID and the CID of each channel to the record of this name on a circuit whose end is open,
/// in order of index. A removal of the record sends a SERVER_DISCONN to each. Refused without
/// memory, only if there is one.
pub fn channels_to(
    core: &ServerCore,
    circuit: Handle,
    name: &[u8],
) -> Result<Vec<(u32, u32)>, AllocError>
    ensures ok { IfOk result (λ all.
        all.items ≡ channels_under name.now (under core.now.circuits circuit)) }
    ensures some { OnErr result
        (channels_under name.now (under core.now.circuits circuit) ≢ []) }
{
    match core.circuits.by_handle(circuit) {
        Some(found) => found.channels_to(core.alloc, name),
        None => Ok(Vec::new(core.alloc)),
    }
}

/// The put that waits for the record of this name at this place, if there is one. The one that
/// waits longest is at place 0.
pub fn waiting_at(core: &ServerCore, name: &[u8], place: usize) -> Option<Put>
    ensures { result ≡ put_in (record_named core.now.records name.now) place }
{
    let Some(at) = core.records.find(name) else {
        return None;
    };
    let served = core.records.at(at);
    if place >= served.waits() {
        return None;
    }
    Some(waiting_put(served, place))
}
