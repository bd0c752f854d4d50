//! A step of a circuit: its next message is handled, or the end of the circuit is reported.
ghost use Rattle.std.specs.Prelude.{◌≡◌, false, length, take, true};
ghost use Rattle.ca_ids.specs.Table.{under};
ghost use Rattle.ca_model.specs.ServerSteps.{Steps, output_of};
ghost use Rattle.ca_records.specs.Store.{records_of};
ghost use Rattle.ca_server_core.specs.Following.{Settles};
ghost use Rattle.ca_server_core.specs.Noting.{was_handled};
ghost use Rattle.ca_server_circuit.specs.Circuits.{is_open};
ghost use Rattle.ca_server_core.specs.Serving.{Reports, StepsIn, is_quiet, more_applied};
ghost use Rattle.ca_server_core.specs.Serving.{stepped};
ghost use Rattle.ca_server_core.specs.Sound.{IsSound};
ghost use Rattle.ca_server_core.specs.Effects.{TellsEffect};
ghost use Rattle.ca_server_circuit.specs.declared.effect.Effect.{Effect};
ghost use Rattle.ca_server_core.specs.declared.stepping.CoreStep.TheVariants.{Handled};

use crate::following::follow;
use crate::server::ServerCore;
use ca_arena::Handle;
use ca_ids::HeldTable;
use ca_records::ServedRecords;
use ca_server_circuit::{Circuit, Effect, EndCause, EndStep, FollowUp};
use ca_text::APPLIED_LIMIT;
use ca_wire::Pipe;
use std::alloc::Global;

/// What a step of a server's end of a circuit did.
#[derive(Debug, Drop)]
pub enum CoreStep {
    /// It handled a message, which did this.
    Handled(Effect),
    /// No complete message is there.
    NeedBytes,
    /// So many bytes wait to be sent that no message is handled.
    OutputFull,
    /// The end has ended for this cause, and these bytes are left to be sent.
    /// Nothing of it is kept.
    Closed(EndCause, Pipe),
}

impl ServerCore {
    /// Handles the next message of a circuit, unless 262,144 bytes wait to be sent on it. A write
    /// that it applies reaches all subscriptions on its record, on all circuits. An end without
    /// memory for an update has ended.
    ///
    /// The end closes at a header that is refused, and out of memory. If the memory was for the
    /// message, the message changes nothing. If it was for the end's own update of a write, the
    /// write is applied, though no effect reports it, and its replies are not sent. The puts of the
    /// circuit that wait are never applied.
    /// The end of a circuit is reported once, whichever call ended it. From then on, and under a
    /// handle without a circuit, a step reports a cut.
    pub fn step(&mut self, circuit: Handle) -> CoreStep
        ensures steps { Steps self.old circuit (stepped result) self.new }
        ensures tells { TellsEffect self.old circuit result self.new }
    {
        let mut waited = 0;
        match step_on(
            self.port,
            &mut self.circuits,
            &mut self.records,
            circuit,
            &mut waited,
        ) {
            Some(EndStep::Handled(left)) => {
                if is_quiet(left) {
                    return CoreStep::Handled(left.effect());
                }
                self.applied = more_applied(self.applied, left.is_write());
                let may_have_ended = follow(
                    &mut self.circuits,
                    &mut self.records,
                    &mut self.watchers,
                    &mut self.leading,
                    circuit,
                    left,
                );
                let effect = left.effect();
                settle(
                    self.alloc,
                    &mut self.circuits,
                    circuit,
                    waited,
                    effect,
                    may_have_ended,
                )
            }
            Some(EndStep::NeedBytes) => CoreStep::NeedBytes,
            Some(EndStep::OutputFull) => CoreStep::OutputFull,
            Some(EndStep::Breaks(_)) => report(self.alloc, &mut self.circuits, circuit),
            None => report(self.alloc, &mut self.circuits, circuit),
        }
    }
}

/// One step of a circuit's end, which has ended if the step broke, and how many bytes waited to be
/// sent before it. None if there is no circuit, or its end had ended.
#[inline(always)]
pub(crate) fn step_on(
    port: u16,
    circuits: &mut HeldTable<Circuit>,
    records: &mut ServedRecords,
    circuit: Handle,
    waited: &mut usize,
) -> Option<EndStep>
    requires { IsSound (records_of records.old) circuits.old }
    ensures steps { StepsIn port circuits.old circuit records.old result circuits.new records.new }
    ensures waited { waited.new ≡ length (output_of (under circuits.old circuit)) }
{
    let Some(found) = circuits.by_handle_mut(circuit) else {
        *waited = 0;
        return None;
    };
    *waited = found.out_bytes().len();
    found.step(port, circuit, records)
}

/// Whether nothing is left to do, as after most messages.
pub(crate) fn is_quiet(effect: FollowUp) -> bool
    ensures { result ≡ is_quiet effect }
{
    match effect {
        FollowUp::Quiet(_) => true,
        _ => false,
    }
}

/// The answer of a step that handled a message with this effect. If the end has ended since, out of
/// memory, the replies are dropped: only the bytes that waited before them are left. If the end
/// cannot have ended, the circuit is not looked up again.
pub(crate) fn settle(
    alloc: Global,
    circuits: &mut HeldTable<Circuit>,
    circuit: Handle,
    waited: usize,
    effect: Effect,
    may_have_ended: bool,
) -> CoreStep
    requires { may_have_ended ≡ false → is_open (under circuits.old circuit) ≡ true }
    ensures settles { Settles circuits.old circuit waited result circuits.new }
    ensures tells { (did : Effect) → result ≡ Handled did → did ≡ effect }
{
    if !may_have_ended {
        return CoreStep::Handled(effect);
    }
    if is_open(circuits, circuit) {
        return CoreStep::Handled(effect);
    }
    over(alloc, circuits, circuit, waited)
}

/// Reports a circuit whose end has ended since. Of what is left, only the bytes that waited
/// before the step stay.
#[cold]
#[inline(never)]
pub(crate) fn over(
    alloc: Global,
    circuits: &mut HeldTable<Circuit>,
    circuit: Handle,
    waited: usize,
) -> CoreStep
    requires { is_open (under circuits.old circuit) ≡ false }
    ensures settles { Settles circuits.old circuit waited result circuits.new }
    ensures closed { was_handled (stepped result) ≡ false }
{
    match report(alloc, circuits, circuit) {
        CoreStep::Closed(cause, left) => CoreStep::Closed(cause, first_of(left, waited)),
        other => other,
    }
}

/// The first n of these bytes.
fn first_of(bytes: Pipe, n: usize) -> Pipe
    ensures { result ≡ take n bytes }
{
    let mut first = bytes;
    first.truncate(n);
    first
}

/// Whether the end of a circuit is open.
pub(crate) fn is_open(circuits: &HeldTable<Circuit>, circuit: Handle) -> bool
    ensures { result ≡ is_open (under circuits.now circuit) }
{
    match circuits.by_handle(circuit) {
        Some(found) => found.is_open(),
        None => false,
    }
}

/// Takes out a circuit whose end has ended, and reports that.
#[cold]
#[inline(never)]
pub(crate) fn report(alloc: Global, circuits: &mut HeldTable<Circuit>, circuit: Handle) -> CoreStep
    ensures { Reports circuits.old circuit result circuits.new }
{
    match circuits.free(circuit) {
        None => CoreStep::Closed(EndCause::Cut, Pipe::new(alloc)),
        Some(found) => {
            let (cause, left) = found.into_left();
            CoreStep::Closed(cause, left)
        }
    }
}

/// How many writes were applied, with one more or not. The count stays at 2^63.
pub(crate) fn more_applied(applied: u64, writes: bool) -> u64
    ensures { result ≡ more_applied writes applied }
{
    if !writes {
        return applied;
    }
    if applied < APPLIED_LIMIT {
        return applied + 1;
    }
    APPLIED_LIMIT
}
