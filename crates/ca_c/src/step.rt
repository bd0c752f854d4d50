//! What a step did, as numbers.

ghost use Rattle.std.specs.Prelude.{◌≡◌};
ghost use Rattle.ca_c.specs.Steps.{cause_number, handled, step_number, c_step};
ghost use Rattle.ca_server_core.specs.declared.stepping.CoreStep.TheVariants.{Handled};

use ca_server_core::{CoreStep, Effect, EndCause};

/// What a step told beside what it answered.
#[repr(C)]
#[derive(Clone, Copy)]
pub struct CvzStep {
    /// Of a message that was handled, what it did, as `handled_effect` numbers it; else 0.
    pub effect: u32,
    /// The SID of the channel that it did this to, for the effects that have one; else 0.
    pub sid: u32,
    /// The client's id of the subscription that began or ended; else 0.
    pub subscription: u32,
    /// Why the end has closed: 1 out of memory, 2 misaligned, 3 too large, 4 cut; else 0.
    pub cause: u32,
}

/// What a step answers: 0 needs bytes, 1 handled, 2 output full, 3 closed.
pub(crate) fn step_number(did: &CoreStep) -> i32
    ensures { result ≡ step_number did.now }
{
    match did {
        CoreStep::NeedBytes => 0,
        CoreStep::Handled(_) => 1,
        CoreStep::OutputFull => 2,
        CoreStep::Closed(_, _) => 3,
    }
}

/// What it tells beside that.
pub(crate) fn c_step(did: &CoreStep) -> CvzStep
    ensures { result ≡ c_step did.now }
{
    match did {
        CoreStep::Handled(effect) => handled_effect(*effect),
        CoreStep::Closed(cause, _) => CvzStep {
            effect: 0,
            sid: 0,
            subscription: 0,
            cause: cause_number(*cause),
        },
        _ => handled(0, 0, 0),
    }
}

fn handled_effect(effect: Effect) -> CvzStep
    ensures { result ≡ c_step (Handled effect) }
{
    match effect {
        Effect::Quiet => handled(0, 0, 0),
        Effect::Wrote(sid) => handled(1, sid, 0),
        Effect::Busied(sid) => handled(2, sid, 0),
        Effect::Queued(sid) => handled(3, sid, 0),
        Effect::Refused => handled(4, 0, 0),
        Effect::Created(sid) => handled(5, sid, 0),
        Effect::Cleared(sid) => handled(6, sid, 0),
        Effect::Subscribed(sid, subscription) => handled(7, sid, subscription),
        Effect::Cancelled(sid, subscription) => handled(8, sid, subscription),
        Effect::Switched(false) => handled(9, 0, 0),
        Effect::Switched(true) => handled(10, 0, 0),
        Effect::WriteRefused(sid) => handled(11, sid, 0),
    }
}

fn handled(effect: u32, sid: u32, subscription: u32) -> CvzStep
    ensures { result ≡ handled effect sid subscription }
{
    CvzStep {
        effect,
        sid,
        subscription,
        cause: 0,
    }
}

fn cause_number(cause: EndCause) -> u32
    ensures { result ≡ cause_number cause }
{
    match cause {
        EndCause::OutOfMemory => 1,
        EndCause::Misaligned => 2,
        EndCause::TooLarge => 3,
        EndCause::Cut => 4,
    }
}
