//! What becomes of the channels of a circuit that has ended.
ghost use Rattle.ca_client_tables.specs.Ending.{StepsAll, StepsAt, again, back_at, gone, gone_at};
ghost use Rattle.ca_client_tables.specs.Ending.{is_kept, sought};
ghost use Rattle.ca_client_tables.specs.OnCircuits.{MayBeOn, indices_of};
ghost use Rattle.ca_client_tables.specs.Sound.{IsClient};
ghost use Rattle.ca_model.specs.Client.{is_cleared};

use crate::candidates::Candidates;
use crate::channel::{Channel, Standing};
use crate::channels::{channel_at, put};
use crate::searches::Searches;
use ca_arena::Handle;
use ca_ids::{HeldTable, WireId};

/// The channels on this circuit that were cleared are gone. All on it are at these indices.
pub(crate) fn let_cleared_go(
    channels: &mut HeldTable<Channel>,
    searches: &mut Searches,
    on: Candidates,
    circuit: Handle,
)
    requires on { MayBeOn circuit.index channels.old (indices_of on) }
    requires client { IsClient channels.old searches.old.entries }
    ensures steps { StepsAll
        gone
        is_cleared
        (gone_at circuit)
        circuit
        (sought channels.old searches.old.entries)
        (sought channels.new searches.new.entries) }
    ensures client { IsClient channels.new searches.new.entries }
{
    for place in 0..on.len() {
        let_go_at(channels, searches, circuit, on.at(place));
    }
}

// The channel at this index is gone, if it was cleared on this circuit.
fn let_go_at(
    channels: &mut HeldTable<Channel>,
    searches: &mut Searches,
    circuit: Handle,
    index: usize,
)
    requires { IsClient channels.old searches.old.entries }
    ensures steps { StepsAt
        gone
        is_cleared
        (gone_at circuit)
        circuit
        index
        (sought channels.old searches.old.entries)
        (sought channels.new searches.new.entries) }
    ensures client { IsClient channels.new searches.new.entries }
{
    let Some((handle, channel)) = channel_at(channels, index) else {
        return;
    };
    if !channel.is_cleared_on(circuit) {
        return;
    }
    let _ = channels.free(handle);
    searches.remove(WireId::of(handle).number());
}

/// The others that were on this circuit are searched for again, as from the beginning. All on it
/// are at these indices.
pub(crate) fn search_again(
    channels: &mut HeldTable<Channel>,
    searches: &mut Searches,
    on: Candidates,
    circuit: Handle,
    moment: u64,
)
    requires on { MayBeOn circuit.index channels.old (indices_of on) }
    requires client { IsClient channels.old searches.old.entries }
    ensures steps { StepsAll
        (again moment)
        is_kept
        (back_at circuit)
        circuit
        (sought channels.old searches.old.entries)
        (sought channels.new searches.new.entries) }
    ensures client { IsClient channels.new searches.new.entries }
{
    for place in 0..on.len() {
        search_again_at(channels, searches, circuit, moment, on.at(place));
    }
}

// The channel at this index is searched for again, if it was on this circuit and is not cleared.
fn search_again_at(
    channels: &mut HeldTable<Channel>,
    searches: &mut Searches,
    circuit: Handle,
    moment: u64,
    index: usize,
)
    requires { IsClient channels.old searches.old.entries }
    ensures steps { StepsAt
        (again moment)
        is_kept
        (back_at circuit)
        circuit
        index
        (sought channels.old searches.old.entries)
        (sought channels.new searches.new.entries) }
    ensures client { IsClient channels.new searches.new.entries }
{
    let Some((handle, channel)) = channel_at(channels, index) else {
        return;
    };
    if !channel.is_kept_on(circuit) {
        return;
    }
    put(channels, handle, Standing::Searching);
    searches.resume(WireId::of(handle).number(), moment);
}
