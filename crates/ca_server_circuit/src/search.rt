//! SEARCH on a circuit.
ghost use Rattle.std.specs.Prelude.{◌≡◌, IfOk, OnErr, OnOk, []};
ghost use Rattle.ca_link.specs.Calls.{IsOpen};
ghost use Rattle.ca_wire.specs.Reading.{IsWhole};
ghost use Rattle.ca_model.specs.Due.{search_due};
ghost use Rattle.ca_server_circuit.specs.declared.effect.Effect.TheVariants as told;
ghost use Rattle.ca_server_circuit.specs.declared.step.FollowUp.TheVariants.{Quiet};
ghost use Rattle.ca_server_circuit.specs.Handling.{known, replied};
ghost use Rattle.ca_server_circuit.specs.Stepping.{first_at};

use crate::effect::Effect;
use crate::end::{End, send};
use crate::in_place::message_without_payload;
use crate::step::FollowUp;
use ca_records::ServedRecords;
use ca_wire::{Head, not_found_reply, search_reply};
use std::alloc::AllocError;

/// Data type of a SEARCH that wants an answer if the name is unknown.
const REPLY_WANTED: u16 = 10;

impl End {
    /// SEARCH: answered for a name that is served, and otherwise only if its type asks for that.
    #[inline(never)]
    pub(crate) fn search(
        &mut self,
        port: u16,
        records: &ServedRecords,
        head: &Head,
    ) -> Result<FollowUp, AllocError>
        requires open { IsOpen self.old.link }
        requires whole { IsWhole self.old.link.input.bytes head.now }
        ensures tells { IfOk result (λ did. did ≡ Quiet told.Quiet) }
        ensures ok { OnOk result (self.new
            ≡ replied (search_due (known port records.now self.old)
            (first_at self.old.link.input.bytes head.now)) self.old) }
        ensures err { OnErr result (search_due (known port records.now self.old)
            (first_at self.old.link.input.bytes head.now) ≡ [] → ⊥) }
        ensures output { OnErr result (self.new.link.output ≡ self.old.link.output) }
        ensures channels { OnErr result (self.new.channels ≡ self.old.channels) }
    {
        let request = message_without_payload(self.alloc, &head.header);
        if records.has(self.text(head)) {
            let reply = search_reply(self.alloc, port, &request)?;
            send(&mut self.link, &reply)?;
            return Ok(FollowUp::Quiet(Effect::Quiet));
        }
        if head.header.data_type == REPLY_WANTED {
            send(&mut self.link, &not_found_reply(self.alloc, &request))?;
        }
        Ok(FollowUp::Quiet(Effect::Quiet))
    }
}
