//! ECHO on an open end.
ghost use Rattle.std.specs.Prelude.{◌≡◌, IfOk, OnErr, OnOk, [], ◌∷◌};
ghost use Rattle.ca_text.specs.declared.command.Command.TheVariants.{Echo};
ghost use Rattle.ca_link.specs.Calls.{IsOpen};
ghost use Rattle.ca_wire.specs.Messages.{header_only};
ghost use Rattle.ca_server_circuit.specs.declared.effect.Effect.TheVariants as told;
ghost use Rattle.ca_server_circuit.specs.declared.step.FollowUp.TheVariants.{Quiet};
ghost use Rattle.ca_server_circuit.specs.Handling.{replied};

use crate::effect::Effect;
use crate::end::{End, send};
use crate::step::FollowUp;
use ca_text::Command;
use ca_wire::header_only;
use std::alloc::AllocError;

impl End {
    /// ECHO: sent back.
    #[inline(never)]
    pub(crate) fn echo(&mut self) -> Result<FollowUp, AllocError>
        requires { IsOpen self.old.link }
        ensures tells { IfOk result (λ did. did ≡ Quiet told.Quiet) }
        ensures ok { OnOk result (self.new ≡ replied (header_only Echo ∷ []) self.old) }
        ensures output { OnErr result (self.new.link.output ≡ self.old.link.output) }
        ensures channels { OnErr result (self.new.channels ≡ self.old.channels) }
    {
        send(&mut self.link, &header_only(self.alloc, Command::Echo))?;
        Ok(FollowUp::Quiet(Effect::Quiet))
    }
}
