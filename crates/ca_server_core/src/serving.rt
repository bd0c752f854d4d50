//! A step, the finish of its put and the pump after it as one call, for servers whose records need
//! no device.
ghost use Rattle.std.specs.Prelude.{◌≡◌, false, length, true};
ghost use Rattle.ca_ids.specs.Table.{under};
ghost use Rattle.ca_model.specs.ServerSteps.{output_of};
ghost use Rattle.ca_records.specs.Store.{IsThere, records_of};
ghost use Rattle.ca_server_core.specs.Covering.{AreLed, AreListed, Covers, IsServer};
ghost use Rattle.ca_server_core.specs.Following.{CoversFor, LedFor};
ghost use Rattle.ca_server_core.specs.Noting.{EndsPutAt, LeadsTo, ServesAndPumps, TriesAt};
ghost use Rattle.ca_server_core.specs.Noting.{was_handled};
ghost use Rattle.ca_server_core.specs.Pumping.{IsIdleIn};
ghost use Rattle.ca_server_core.specs.Serving.{stepped};
ghost use Rattle.ca_server_core.specs.Sound.{IsSound};
ghost use Rattle.ca_server_circuit.specs.declared.effect.Effect.{Effect};
ghost use Rattle.ca_server_circuit.specs.declared.effect.Effect.TheVariants.{Quiet};
ghost use Rattle.ca_server_core.specs.declared.stepping.CoreStep.TheVariants.{Handled};
ghost use Rattle.ca_server_core.specs.Through.{FollowsAndEnds, FollowsAndPumps};

use crate::counting::{pump_counting_on, step_counting_on};
use crate::finishing::{left_by, reply_on};
use crate::following::follow;
use crate::server::ServerCore;
use crate::stepping::{CoreStep, is_open, is_quiet, more_applied, over, report};
use crate::through::go_through;
use ca_arena::Handle;
use ca_ids::HeldTable;
use ca_records::ServedRecords;
use ca_server_circuit::{Circuit, Effect, EndStep, FollowUp};
use ca_server_watchers::Watchers;

impl ServerCore {
    /// Handles the next message of a circuit as `step` does, finishes the put by which it
    /// made a record busy, as `finish` does, and then puts updates that wait on the circuit
    /// after what waits to be sent, as `pump` does. It says how many bytes wait then: none if
    /// its end is not open.
    ///
    /// A record that was busy before is finished too if the message wrote to it. The record is
    /// found by its place. If no message was handled nothing is pumped, and nothing is said of the
    /// bytes. Nothing is left to the caller, so no effect is reported.
    pub fn serve_and_pump(&mut self, circuit: Handle, waiting: &mut usize) -> CoreStep
        ensures serves { ServesAndPumps self.old circuit (stepped result) waiting.new self.new }
        ensures quiet { (did : Effect) → result ≡ Handled did → did ≡ Quiet }
        ensures stays { was_handled (stepped result) ≡ false → waiting.new ≡ waiting.old }
    {
        let mut waited = 0;
        let mut left = 0;
        let mut idle = false;
        let effect = match step_counting_on(
            self.port,
            &mut self.circuits,
            &mut self.records,
            circuit,
            &mut waited,
            &mut left,
            &mut idle,
        ) {
            Some(EndStep::Handled(effect)) => effect,
            Some(EndStep::NeedBytes) => return CoreStep::NeedBytes,
            Some(EndStep::OutputFull) => return CoreStep::OutputFull,
            Some(EndStep::Breaks(_)) => return report(self.alloc, &mut self.circuits, circuit),
            None => return report(self.alloc, &mut self.circuits, circuit),
        };
        if is_quiet(effect)
            || follow_and_pump(
                &mut self.applied,
                &mut self.circuits,
                &mut self.records,
                &mut self.watchers,
                &mut self.leading,
                circuit,
                effect,
                idle,
                &mut left,
            )
        {
            *waiting = left;
            return CoreStep::Handled(Effect::Quiet);
        }
        over(self.alloc, &mut self.circuits, circuit, waited)
    }
}

/// Does what a message of this circuit leaves to do, finishes the put by which it made a record
/// busy, and pumps the circuit. It says how many bytes wait on it then. False if the end of the
/// circuit has ended before that: then nothing was finished, and nothing pumped.
#[inline(always)]
fn follow_and_pump(
    applied: &mut u64,
    circuits: &mut HeldTable<Circuit>,
    records: &mut ServedRecords,
    watchers: &mut Watchers,
    leading: &mut Watchers,
    circuit: Handle,
    effect: FollowUp,
    idle: bool,
    left: &mut usize,
) -> bool
    requires sound { IsSound (records_of records.old) circuits.old }
    requires covered { CoversFor effect circuit records.old watchers.old circuits.old }
    requires listed { AreListed (records_of records.old) watchers.old }
    requires led { LedFor effect circuit records.old leading.old circuits.old }
    requires rests { idle ≡ true → IsIdleIn circuits.old circuit }
    requires counted { left.old ≡ length (output_of (under circuits.old circuit)) }
    ensures pumps { result ≡ true
        → FollowsAndPumps effect circuit applied.old circuits.old records.old applied.new
        circuits.new records.new }
    ensures counts { result ≡ true → left.new ≡ length (output_of (under circuits.new circuit)) }
    ensures ends { result ≡ false
        → FollowsAndEnds effect circuit applied.old circuits.old records.old applied.new
        circuits.new records.new }
    ensures server { IsServer (records_of records.new) watchers.new leading.new circuits.new }
{
    *applied = more_applied(*applied, effect.is_write());
    if go_through(circuits, records, watchers, circuit, effect, idle, left) {
        return true;
    }
    let may_have_ended = follow(circuits, records, watchers, leading, circuit, effect);
    if may_have_ended && !is_open(circuits, circuit) {
        return false;
    }
    finish_busy(applied, circuits, records, watchers, leading, effect);
    *left = pump_counting_on(circuits, records, circuit);
    true
}

/// Finishes the put of the record to which a message wrote, if it is busy.
fn finish_busy(
    applied: &mut u64,
    circuits: &mut HeldTable<Circuit>,
    records: &mut ServedRecords,
    watchers: &mut Watchers,
    leading: &mut Watchers,
    effect: FollowUp,
)
    requires leads { LeadsTo effect records.old }
    requires sound { IsSound (records_of records.old) circuits.old }
    requires covered { Covers watchers.old circuits.old }
    requires listed { AreListed (records_of records.old) watchers.old }
    requires led { AreLed (records_of records.old) leading.old circuits.old }
    ensures tries { TriesAt effect applied.old circuits.old records.old applied.new circuits.new
        records.new }
    ensures sound { IsSound (records_of records.new) circuits.new }
    ensures covered { Covers watchers.new circuits.new }
    ensures listed { AreListed (records_of records.new) watchers.new }
    ensures led { AreLed (records_of records.new) leading.new circuits.new }
{
    let FollowUp::Wrote(place, _, _) = effect else {
        return;
    };
    if !records.at(place).is_busy() {
        return;
    }
    finish_here(applied, circuits, records, watchers, leading, place);
}

/// Finishes the busy put of the record at this place.
#[inline(never)]
fn finish_here(
    applied: &mut u64,
    circuits: &mut HeldTable<Circuit>,
    records: &mut ServedRecords,
    watchers: &mut Watchers,
    leading: &mut Watchers,
    place: usize,
)
    requires there { IsThere records.old place }
    requires sound { IsSound (records_of records.old) circuits.old }
    requires covered { Covers watchers.old circuits.old }
    requires listed { AreListed (records_of records.old) watchers.old }
    requires led { AreLed (records_of records.old) leading.old circuits.old }
    ensures finishes { EndsPutAt place applied.old circuits.old records.old applied.new circuits.new
        records.new }
    ensures sound { IsSound (records_of records.new) circuits.new }
    ensures covered { Covers watchers.new circuits.new }
    ensures listed { AreListed (records_of records.new) watchers.new }
    ensures led { AreLed (records_of records.new) leading.new circuits.new }
{
    let Some(finished) = records.finish_at(place) else {
        return;
    };
    reply_on(circuits, records, finished.ended);
    let left = left_by(&finished);
    *applied = more_applied(*applied, left.is_write());
    follow(
        circuits,
        records,
        watchers,
        leading,
        finished.ended.circuit,
        left,
    );
}
