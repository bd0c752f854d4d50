//! What a handled message leaves to do beyond its own circuit: a write reaches subscriptions, a
//! subscription or a channel is listed.
ghost use Rattle.std.specs.Prelude.{◌≡◌, false};
ghost use Rattle.ca_records.specs.Store.{records_of};
ghost use Rattle.ca_server_core.specs.Covering.{AreLed, AreListed, Covers};
ghost use Rattle.ca_server_core.specs.Following.{Begins, CoversAt, CoversFor, Follows, LedAt};
ghost use Rattle.ca_server_core.specs.Following.{LedFor};
ghost use Rattle.ca_server_core.specs.Sound.{IsSound};

use crate::cutting::end_on;
use crate::posting::post_to_all;
use ca_arena::Handle;
use ca_ids::HeldTable;
use ca_records::ServedRecords;
use ca_server_circuit::{Circuit, EndCause, FollowUp};
use ca_server_watchers::Watchers;

/// The mask of a write that was applied: VALUE and LOG.
pub(crate) const WRITE_MASK: u16 = 3;

/// What a message that was handled leaves to do: a write reaches all subscriptions on its record;
/// the circuit watches the record of a subscription that began, and leads to that of a channel that
/// was created. Without memory for that its end has ended. It says whether an end may have ended.
#[inline(always)]
pub(crate) fn follow(
    circuits: &mut HeldTable<Circuit>,
    records: &mut ServedRecords,
    watchers: &mut Watchers,
    leading: &mut Watchers,
    circuit: Handle,
    effect: FollowUp,
) -> bool
    requires sound { IsSound (records_of records.old) circuits.old }
    requires covered { CoversFor effect circuit records.old watchers.old circuits.old }
    requires listed { AreListed (records_of records.old) watchers.old }
    requires led { LedFor effect circuit records.old leading.old circuits.old }
    ensures follows { Follows effect circuit circuits.old records.old circuits.new records.new }
    ensures sound { IsSound (records_of records.new) circuits.new }
    ensures covered { Covers watchers.new circuits.new }
    ensures listed { AreListed (records_of records.new) watchers.new }
    ensures led { AreLed (records_of records.new) leading.new circuits.new }
    ensures none { result ≡ false → circuits.new ≡ circuits.old }
{
    match effect {
        FollowUp::Quiet(_) => false,
        FollowUp::Wrote(place, _, _) => post_to_all(circuits, records, watchers, place, WRITE_MASK),
        FollowUp::Began(place, _, _) => {
            watch(circuits, records, watchers, circuit, place);
            true
        }
        FollowUp::Opened(place, _) => {
            lead(circuits, records, leading, circuit, place);
            true
        }
    }
}

/// The circuit watches the record at this place. Without memory its end has ended.
#[inline(never)]
fn watch(
    circuits: &mut HeldTable<Circuit>,
    records: &mut ServedRecords,
    watchers: &mut Watchers,
    circuit: Handle,
    place: usize,
)
    requires sound { IsSound (records_of records.old) circuits.old }
    requires covered { CoversAt place circuit records.old watchers.old circuits.old }
    requires listed { AreListed (records_of records.old) watchers.old }
    ensures follows { Begins circuit circuits.old records.old circuits.new records.new }
    ensures sound { IsSound (records_of records.new) circuits.new }
    ensures covered { Covers watchers.new circuits.new }
    ensures listed { AreListed (records_of records.new) watchers.new }
{
    match watchers.watch(records.at(place).state().name(), circuit) {
        Ok(()) => {}
        Err(_) => end_on(circuits, records, circuit, EndCause::OutOfMemory),
    }
}

/// The circuit leads to the record at this place. Without memory its end has ended.
#[inline(never)]
fn lead(
    circuits: &mut HeldTable<Circuit>,
    records: &mut ServedRecords,
    leading: &mut Watchers,
    circuit: Handle,
    place: usize,
)
    requires sound { IsSound (records_of records.old) circuits.old }
    requires led { LedAt place circuit records.old leading.old circuits.old }
    ensures follows { Begins circuit circuits.old records.old circuits.new records.new }
    ensures sound { IsSound (records_of records.new) circuits.new }
    ensures led { AreLed (records_of records.new) leading.new circuits.new }
{
    match leading.watch(records.at(place).state().name(), circuit) {
        Ok(()) => {}
        Err(_) => end_on(circuits, records, circuit, EndCause::OutOfMemory),
    }
}
