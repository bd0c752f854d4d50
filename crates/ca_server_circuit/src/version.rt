//! VERSION on an open end.
ghost use Rattle.std.specs.Prelude.{◌≡◌, IfOk, OnErr, OnOk, [], ◌∷◌, false, true, if◌then◌else◌};
ghost use Rattle.ca_link.specs.Calls.{IsOpen};
ghost use Rattle.ca_wire.specs.Messages.{version_reply};
ghost use Rattle.ca_server_circuit.specs.declared.effect.Effect.TheVariants as told;
ghost use Rattle.ca_server_circuit.specs.declared.step.FollowUp.TheVariants.{Quiet};
ghost use Rattle.ca_server_circuit.specs.Handling.{replied};

use crate::effect::Effect;
use crate::end::{End, send};
use crate::step::FollowUp;
use ca_wire::version_reply;
use std::alloc::AllocError;

impl End {
    /// VERSION: the circuit's first is answered by ours.
    #[inline(never)]
    pub(crate) fn version(&mut self) -> Result<FollowUp, AllocError>
        requires { IsOpen self.old.link }
        ensures tells { IfOk result (λ did. did ≡ Quiet told.Quiet) }
        ensures ok { OnOk result (self.new
            ≡ replied (if self.old.greeted then [] else version_reply ∷ [])
            (record self.old { greeted = true })) }
        ensures err { OnErr result (self.old.greeted ≡ false) }
        ensures output { OnErr result (self.new.link.output ≡ self.old.link.output) }
        ensures channels { OnErr result (self.new.channels ≡ self.old.channels) }
    {
        if self.greeted {
            return Ok(FollowUp::Quiet(Effect::Quiet));
        }
        send(&mut self.link, &version_reply(self.alloc))?;
        self.greeted = true;
        Ok(FollowUp::Quiet(Effect::Quiet))
    }
}
