//! EVENT_CANCEL on an open end.
ghost use Rattle.std.specs.Prelude.{◌≡◌, IfOk, OnErr, OnOk, [], ◌∷◌};
ghost use Rattle.ca_link.specs.Calls.{IsOpen};
ghost use Rattle.ca_wire.specs.Messages.{cancel_reply};
ghost use Rattle.ca_queue.specs.Keys.{same};
ghost use Rattle.ca_model.specs.Due.{key_in};
ghost use Rattle.ca_model.specs.Server.{without_subscriptions};
ghost use Rattle.ca_server_circuit.specs.declared.effect.Effect.TheVariants.{Cancelled};
ghost use Rattle.ca_server_circuit.specs.declared.step.FollowUp.TheVariants.{Quiet};
ghost use Rattle.ca_server_circuit.specs.Handling.{replied};
ghost use Rattle.ca_server_circuit.specs.Stepping.{message_of};

use crate::effect::Effect;
use crate::end::{End, send};
use crate::in_place::{key_of, message_without_payload};
use crate::step::FollowUp;
use ca_wire::{Header, cancel_reply};
use std::alloc::AllocError;

impl End {
    /// EVENT_CANCEL: always confirmed.
    #[inline(never)]
    pub(crate) fn event_cancel(&mut self, header: &Header) -> Result<FollowUp, AllocError>
        requires { IsOpen self.old.link }
        ensures tells { IfOk result (λ did. did ≡ Quiet (Cancelled header.now.p1 header.now.p2)) }
        ensures ok { OnOk result (self.new
            ≡ replied (cancel_reply (message_of header.now []) ∷ [])
            (without_subscriptions (same (key_in (message_of header.now []))) self.old)) }
        ensures output { OnErr result (self.new.link.output ≡ self.old.link.output) }
        ensures channels { OnErr result (self.new.channels ≡ self.old.channels) }
    {
        let request = message_without_payload(self.alloc, header);
        send(&mut self.link, &cancel_reply(self.alloc, &request))?;
        self.subscriptions.cancel(key_of(header));
        Ok(FollowUp::Quiet(Effect::Cancelled(header.p1, header.p2)))
    }
}
