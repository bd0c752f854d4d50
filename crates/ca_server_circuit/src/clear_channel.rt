//! CLEAR_CHANNEL on an open end.
ghost use Rattle.std.specs.Prelude.{◌≡◌, ◌==◌, ◌&&◌, IfOk, OnErr, OnOk, [], ◌∷◌};
ghost use Rattle.ca_ids.specs.Table.{same_handle};
ghost use Rattle.ca_ids.specs.Wire.{wire_of};
ghost use Rattle.ca_link.specs.Calls.{IsOpen};
ghost use Rattle.ca_records.specs.Puts.{withdrawn};
ghost use Rattle.ca_records.specs.Store.{records_of};
ghost use Rattle.ca_wire.specs.Messages.{cleared_reply};
ghost use Rattle.ca_model.specs.ServerSteps.{without_channel};
ghost use Rattle.ca_server_circuit.specs.Clearing.{ArePuts, Withdraws};
ghost use Rattle.ca_server_circuit.specs.declared.effect.Effect.TheVariants.{Cleared};
ghost use Rattle.ca_server_circuit.specs.declared.step.FollowUp.TheVariants.{Quiet};
ghost use Rattle.ca_server_circuit.specs.Handling.{AreServed, replied};
ghost use Rattle.ca_server_circuit.specs.Stepping.{message_of};

use crate::effect::Effect;
use crate::end::{End, send};
use crate::seek::Sought;
use crate::step::FollowUp;
use ca_arena::Handle;
use ca_records::ServedRecords;
use ca_wire::{Cid, Header, Sid, clear_request};
use std::alloc::AllocError;

impl End {
    /// CLEAR_CHANNEL on this circuit: always answered, and the SID alone decides what is cleared.
    /// The puts of the channel that wait are never applied.
    #[inline(never)]
    pub(crate) fn clear_channel(
        &mut self,
        circuit: Handle,
        records: &mut ServedRecords,
        header: &Header,
    ) -> Result<FollowUp, AllocError>
        requires open { IsOpen self.old.link }
        requires served { AreServed (records_of records.old) self.old.channels }
        requires puts { ArePuts circuit (records_of records.old) self.old.channels }
        ensures tells { IfOk result (λ did. did ≡ Quiet (Cleared header.now.p1)) }
        ensures ok { OnOk result (self.new
            ≡ replied (cleared_reply (message_of header.now []) ∷ [])
            (without_channel header.now.p1 self.old)) }
        ensures records { OnOk result (Withdraws circuit header.now.p1 records.old records.new) }
        ensures err { OnErr result (records.new ≡ records.old) }
        ensures output { OnErr result (self.new.link.output ≡ self.old.link.output) }
        ensures channels { OnErr result (self.new.channels ≡ self.old.channels) }
    {
        let sid = Sid::new(header.p1);
        let reply = clear_request(self.alloc, sid, Cid::new(header.p2));
        send(&mut self.link, &reply)?;
        self.withdraw(circuit, records, sid);
        self.subscriptions.clear(sid);
        self.channels.close(sid);
        Ok(FollowUp::Quiet(Effect::Cleared(header.p1)))
    }

    /// Takes the puts of this SID that wait out of the records.
    fn withdraw(&self, circuit: Handle, records: &mut ServedRecords, sid: Sid)
        requires served { AreServed (records_of records.old) self.now.channels }
        requires puts { ArePuts circuit (records_of records.old) self.now.channels }
        ensures { Withdraws circuit sid records.old records.new }
    {
        match self.seek(records, sid) {
            Sought::Served(seat) => {
                records.withdraw(seat.place, circuit, Some(seat.channel));
            }
            Sought::Stray(_) => {}
        }
    }
}
