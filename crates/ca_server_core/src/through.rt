//! The short way of a write that nobody else watches: its update is shown at once, on its own
//! circuit.
ghost use Rattle.std.specs.Prelude.{ℕ, ◌≡◌, Bool, false, length, true};
ghost use Rattle.ca_ids.specs.Table.{under};
ghost use Rattle.ca_model.specs.ServerSteps.{output_of};
ghost use Rattle.ca_records.specs.Store.{IsThere, records_of};
ghost use Rattle.ca_server_circuit.specs.declared.step.FollowUp.TheVariants.{Wrote};
ghost use Rattle.ca_server_core.specs.Covering.{Covers};
ghost use Rattle.ca_server_core.specs.Following.{CoversFor};
ghost use Rattle.ca_server_core.specs.Pumping.{IsIdleIn};
ghost use Rattle.ca_server_core.specs.Sound.{IsSound};
ghost use Rattle.ca_server_core.specs.Through.{GoesThrough, ShowsIn};

use crate::following::WRITE_MASK;
use ca_arena::Handle;
use ca_ids::HeldTable;
use ca_records::ServedRecords;
use ca_server_circuit::{Circuit, FollowUp};
use ca_server_watchers::Watchers;

/// Does what a message of this circuit leaves to do, and pumps the circuit, if the message is a
/// write to a record that is not busy, and either nobody watches it while the circuit is idle, or
/// this circuit alone does, and its update is shown at once. It says how many bytes wait then.
/// False, and nothing changed, if more is to be done.
#[inline(always)]
pub(crate) fn go_through(
    circuits: &mut HeldTable<Circuit>,
    records: &ServedRecords,
    watchers: &mut Watchers,
    circuit: Handle,
    effect: FollowUp,
    idle: bool,
    left: &mut usize,
) -> bool
    requires sound { IsSound (records_of records.now) circuits.old }
    requires covered { CoversFor effect circuit records.now watchers.old circuits.old }
    requires rests { idle ≡ true → IsIdleIn circuits.old circuit }
    requires counted { left.old ≡ length (output_of (under circuits.old circuit)) }
    ensures through { result ≡ true
        → GoesThrough effect circuit watchers.old circuits.old records.now circuits.new }
    ensures counts { result ≡ true → left.new ≡ length (output_of (under circuits.new circuit)) }
    ensures stays { result ≡ false → (circuits.new ≡ circuits.old) × (left.new ≡ left.old) }
    ensures watchers { watchers.new ≡ watchers.old }
{
    let FollowUp::Wrote(place, _, _) = effect else {
        return false;
    };
    if watchers.is_empty() {
        if records.at(place).is_busy() {
            return false;
        }
        return idle;
    }
    go_to_watching(circuits, records, watchers, circuit, place, idle, left)
}

/// Goes through, as `go_through`, after a write to the record at this place, when somebody
/// watches some record.
#[inline(never)]
fn go_to_watching(
    circuits: &mut HeldTable<Circuit>,
    records: &ServedRecords,
    watchers: &mut Watchers,
    circuit: Handle,
    place: usize,
    idle: bool,
    left: &mut usize,
) -> bool
    requires there { IsThere records.now place }
    requires sound { IsSound (records_of records.now) circuits.old }
    requires covered { Covers watchers.old circuits.old }
    requires rests { idle ≡ true → IsIdleIn circuits.old circuit }
    requires counted { left.old ≡ length (output_of (under circuits.old circuit)) }
    ensures through { result ≡ true
        → (busies : Bool) (sid : ℕ)
        → GoesThrough
        (Wrote place busies sid) circuit watchers.old circuits.old records.now circuits.new }
    ensures counts { result ≡ true → left.new ≡ length (output_of (under circuits.new circuit)) }
    ensures stays { result ≡ false → (circuits.new ≡ circuits.old) × (left.new ≡ left.old) }
    ensures watchers { watchers.new ≡ watchers.old }
{
    let served = records.at(place);
    if served.is_busy() {
        return false;
    }
    let mut before = 0;
    let Some(last) = watchers.last(served.state().name(), &mut before) else {
        return idle;
    };
    if !is_only(last, before, circuit) {
        return false;
    }
    show_on(circuits, records, circuit, place, left)
}

/// Whether the last of those that watch, which has n before it, is this circuit alone.
#[inline(always)]
fn is_only(last: Handle, before: usize, circuit: Handle) -> bool
    ensures { result ≡ true → (before ≡ 0) × (last ≡ circuit) }
{
    before == 0 && last.index == circuit.index && last.generation == circuit.generation
}

/// A post of the value of the record at this place to this circuit, and a pump of it, if its
/// update is shown at once.
#[inline(always)]
fn show_on(
    circuits: &mut HeldTable<Circuit>,
    records: &ServedRecords,
    circuit: Handle,
    place: usize,
    left: &mut usize,
) -> bool
    requires there { IsThere records.now place }
    requires sound { IsSound (records_of records.now) circuits.old }
    ensures shown { result ≡ true
        → ShowsIn place circuit circuits.old records.now circuits.new }
    ensures counts { result ≡ true → left.new ≡ length (output_of (under circuits.new circuit)) }
    ensures stays { result ≡ false → (circuits.new ≡ circuits.old) × (left.new ≡ left.old) }
{
    let Some(found) = circuits.by_handle_mut(circuit) else {
        return false;
    };
    if !found.show_at_once(circuit, place, WRITE_MASK, records) {
        return false;
    }
    *left = found.out_bytes().len();
    true
}
