//! EVENTS_OFF and EVENTS_ON on an open end.
ghost use Rattle.std.specs.Prelude.{◌≡◌, false, true};
ghost use Rattle.ca_model.specs.Server.{with_events};
ghost use Rattle.ca_server_circuit.specs.declared.effect.Effect.TheVariants.{Switched};
ghost use Rattle.ca_server_circuit.specs.declared.step.FollowUp.TheVariants.{Quiet};

use crate::effect::Effect;
use crate::end::End;
use crate::step::FollowUp;

impl End {
    /// EVENTS_OFF: updates wait from now on.
    pub(crate) fn events_off(&mut self) -> FollowUp
        ensures tells { result ≡ Quiet (Switched false) }
        ensures off { self.new ≡ with_events false self.old }
    {
        self.subscriptions.switch(false);
        FollowUp::Quiet(Effect::Switched(false))
    }

    /// EVENTS_ON: they may leave again.
    pub(crate) fn events_on(&mut self) -> FollowUp
        ensures tells { result ≡ Quiet (Switched true) }
        ensures on { self.new ≡ with_events true self.old }
    {
        self.subscriptions.switch(true);
        FollowUp::Quiet(Effect::Switched(true))
    }
}
