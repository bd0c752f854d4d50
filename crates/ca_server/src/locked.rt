//! Steps and finishes under the lock, counted for the thread that makes them.
ghost use Rattle.std.specs.Prelude.{◌≡◌, ◌+◌, ◌<◌, ◌≤◌, ◌⊎◌, IsFalse, IsTrue, List, false};
ghost use Rattle.ca_arena.specs.declared.handle.Handle.{Handle};
ghost use Rattle.ca_ids.specs.Table.{under};
ghost use Rattle.ca_model.specs.ServerCalls.{waiting};
ghost use Rattle.ca_server.specs.Locked.{IsAtMost, LockedFinish, LockedStep};
ghost use Rattle.ca_server_circuit.specs.Circuits.{is_open};
ghost use Rattle.ca_server_core.specs.Effects.{TellsEffect};
ghost use Rattle.ca_server_core.specs.Serving.{stepped};
ghost use Rattle.ca_text.specs.Limits.{applied_limit, arena_slots};
ghost use Rattle.ca_wire.specs.Fields.{Fields};

use crate::state::State;
use ca_arena::Handle;
use ca_server_core::{CoreStep, EndCause, ServerCore};
use ca_text::{APPLIED_LIMIT, Refusal};
use ca_wire::Pipe;
use std::sync::ledger::{Ledger, Share};

/// One step of a circuit, by the thread that has its share. Count and share grow by the writes that
/// the step applied, and by the circuit's puts that waited and were applied since its last step.
///
/// While 2^63 writes are applied or wait, an open circuit is cut, and handles no message. As after
/// each cut, one more step reports what is left of it and takes its credits over.
pub fn locked_step<L: Ledger>(
    state: &mut State<L>,
    circuit: Handle,
    share: &mut Share<L>,
) -> CoreStep
    requires { 0 < share.old.parts }
    ensures step { LockedStep state.old.core state.old.count state.old.credits.items
        share.old.amount circuit (stepped result) state.new.core state.new.count
        state.new.credits.items share.new.amount }
    ensures tells { TellsEffect state.old.core circuit result state.new.core }
    ensures parts { share.new.parts ≡ share.old.parts }
{
    let State {
        core,
        count,
        credits,
        book,
    } = state;
    if is_at_most(core, circuit) {
        core.cut(circuit);
        return CoreStep::Closed(EndCause::Cut, Pipe::new(*credits.allocator()));
    }
    let before = core.applied();
    let step = core.step(circuit);
    let place = place_of(circuit);
    let more = core.applied() - before + credits[place];
    credits[place] = 0;
    book.add(share, more);
    *count += more;
    step
}

// Whether the circuit is open, and no write more can be counted.
fn is_at_most(core: &ServerCore, circuit: Handle) -> bool
    requires { core.now.applied + waiting core.now ≤ applied_limit }
    ensures yes { IsTrue result → IsAtMost core.now circuit }
    ensures no { IsFalse result → (is_open (under core.now.circuits circuit) ≡ false)
        ⊎ (core.now.applied + waiting core.now < applied_limit) }
{
    core.applied() + core.waiting() == APPLIED_LIMIT && core.is_open(circuit)
}

// The place of a circuit's credits.
fn place_of(circuit: Handle) -> usize
    ensures is { result ≡ circuit.index }
    ensures within { result < arena_slots }
{
    usize::from(circuit.index)
}

/// The end of the busy put of the record of this name, by a processing thread. The put that waits
/// next is applied, and credited to its circuit.
///
/// Refused as UnknownRecord if no record has the name, and as NotBusy if its record is not busy. A
/// refusal changes nothing.
pub fn locked_finish<L: Ledger>(state: &mut State<L>, name: &[u8]) -> Result<(), Refusal>
    ensures finish { (sent : List (Handle × Fields))
        × LockedFinish state.old.core state.old.credits.items name.now sent result
        state.new.core state.new.credits.items }
    ensures count { state.new.count ≡ state.old.count }
{
    let State { core, credits, .. } = state;
    let next = core.first_waiting(name);
    core.finish(name)?;
    if let Some(circuit) = next {
        credits[place_of(circuit)] += 1;
    }
    Ok(())
}
