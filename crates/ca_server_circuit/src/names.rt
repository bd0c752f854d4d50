//! CLIENT_NAME and HOST_NAME on an open end.
ghost use Rattle.std.specs.Prelude.{◌≡◌, IfOk, OnErr, OnOk, [], false, if◌then◌else◌};
ghost use Rattle.ca_wire.specs.Messages.{text_in};
ghost use Rattle.ca_wire.specs.Reading.{IsWhole};
ghost use Rattle.ca_server_circuit.specs.declared.effect.Effect.TheVariants as told;
ghost use Rattle.ca_server_circuit.specs.declared.step.FollowUp.TheVariants.{Quiet};
ghost use Rattle.ca_server_circuit.specs.Stepping.{first_at};

use crate::effect::Effect;
use crate::end::End;
use crate::step::FollowUp;
use ca_wire::Head;
use std::alloc::{AllocError, Global};

impl End {
    /// CLIENT_NAME: it counts until a channel was created.
    #[inline(never)]
    pub(crate) fn client_name(&mut self, head: &Head) -> Result<FollowUp, AllocError>
        requires { IsWhole self.old.link.input.bytes head.now }
        ensures tells { IfOk result (λ did. did ≡ Quiet told.Quiet) }
        ensures ok { OnOk result (self.new
            ≡ (if self.old.settled then self.old
            else record self.old {
              peer = record self.old.peer {
                user = text_in (first_at self.old.link.input.bytes head.now).payload;
              };
            })) }
        ensures err { OnErr result
            (text_in (first_at self.old.link.input.bytes head.now).payload ≡ [] → ⊥) }
        ensures unsettled { OnErr result (self.old.settled ≡ false) }
        ensures output { OnErr result (self.new.link.output ≡ self.old.link.output) }
        ensures channels { OnErr result (self.new.channels ≡ self.old.channels) }
    {
        if self.settled {
            return Ok(FollowUp::Quiet(Effect::Quiet));
        }
        self.user = own(self.alloc, self.text(head))?;
        Ok(FollowUp::Quiet(Effect::Quiet))
    }

    /// HOST_NAME: it counts until a channel was created.
    #[inline(never)]
    pub(crate) fn host_name(&mut self, head: &Head) -> Result<FollowUp, AllocError>
        requires { IsWhole self.old.link.input.bytes head.now }
        ensures tells { IfOk result (λ did. did ≡ Quiet told.Quiet) }
        ensures ok { OnOk result (self.new
            ≡ (if self.old.settled then self.old
            else record self.old {
              peer = record self.old.peer {
                host = text_in (first_at self.old.link.input.bytes head.now).payload;
              };
            })) }
        ensures err { OnErr result
            (text_in (first_at self.old.link.input.bytes head.now).payload ≡ [] → ⊥) }
        ensures unsettled { OnErr result (self.old.settled ≡ false) }
        ensures output { OnErr result (self.new.link.output ≡ self.old.link.output) }
        ensures channels { OnErr result (self.new.channels ≡ self.old.channels) }
    {
        if self.settled {
            return Ok(FollowUp::Quiet(Effect::Quiet));
        }
        self.host = own(self.alloc, self.text(head))?;
        Ok(FollowUp::Quiet(Effect::Quiet))
    }
}

/// A text in a Vec of its own. An empty one does not allocate.
fn own(alloc: Global, text: &[u8]) -> Result<Vec<u8>, AllocError>
    ensures ok { IfOk result (λ v. v.items ≡ text.now) }
    ensures err { OnErr result (text.now ≡ [] → ⊥) }
{
    if text.is_empty() {
        return Ok(Vec::new(alloc));
    }
    Vec::from_slice(alloc, text)
}
