//! What a moment will make a client send, for a recorder of histories. No client needs these calls.
ghost use Rattle.std.specs.Prelude.{◌≡◌, [], Err, IfOk, OnErr};
ghost use Rattle.ca_text.specs.declared.refusal.Refusal.TheVariants.{OutOfMemory};
ghost use Rattle.ca_model.specs.ClientEnds.{ClientTicks};
ghost use Rattle.ca_client_core.specs.Foretold.{AreSome, Foretells, Tries};
ghost use Rattle.ca_client_core.specs.Marks.{undone};
ghost use Rattle.ca_client_core.specs.Ticked.{LacksMemory};

use crate::client::ClientCore;
use crate::for_histories::Sending;
use crate::marks::CircuitMark;
use ca_arena::Handle;
use std::alloc::AllocError;

/// What a moment will make a client send, in order, and whether ends will end by it.
#[derive(Drop)]
pub struct Foretold {
    pub sent: Vec<Sending>,
    pub ends: bool,
}

/// What this moment will make a client send. Nothing changes.
///
/// Refused only if the tick itself may be.
pub fn foretell(core: &mut ClientCore, now: u64) -> Result<Foretold, AllocError>
    ensures same { core.new ≡ core.old }
    ensures ok { IfOk result (Foretells core.old now) }
    ensures some { OnErr result (ClientTicks core.old now (Err OutOfMemory) [] core.old) }
{
    let before = core.moment;
    core.set_moment(before.max(now));
    let mut marks = Vec::new(core.alloc);
    let told = core.try_out(&mut marks);
    core.take_back(&marks);
    core.set_moment(before);
    told
}

impl ClientCore {
    // What the moment makes it send; that was sent, after marks.
    fn try_out(&mut self, marks: &mut Vec<CircuitMark>) -> Result<Foretold, AllocError>
        ensures kept { undone marks.new.items self.new ≡ undone marks.old.items self.old }
        ensures ok { IfOk result (Tries self.old) }
        ensures some { OnErr result (LacksMemory self.old) }
    {
        let plan = self.plan(marks)?;
        let ends = are_some(&plan.ends);
        Ok(Foretold {
            sent: plan.sent,
            ends,
        })
    }
}

// Whether there are any.
fn are_some(ends: &[Handle]) -> bool
    ensures { AreSome ends.now result }
{
    if ends.is_empty() {
        return false;
    }
    true
}
