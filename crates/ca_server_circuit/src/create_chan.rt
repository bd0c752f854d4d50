//! CREATE_CHAN on an open end.
ghost use Rattle.std.specs.Prelude.{ℕ, ◌≡◌, IfOk, OnErr, [], ◌∷◌, false};
ghost use Rattle.ca_ids.specs.Table.{is_full};
ghost use Rattle.ca_link.specs.Calls.{IsOpen};
ghost use Rattle.ca_records.specs.Store.{Finds};
ghost use Rattle.ca_wire.specs.Messages.{failed_reply, text_in};
ghost use Rattle.ca_wire.specs.Reading.{IsWhole};
ghost use Rattle.ca_server_circuit.specs.Cids.{UsesCid};
ghost use Rattle.ca_server_circuit.specs.Creating.{CreatesBy, IsCreation};
ghost use Rattle.ca_server_circuit.specs.declared.effect.Effect.TheVariants.{Refused};
ghost use Rattle.ca_server_circuit.specs.declared.step.FollowUp.TheVariants.{Quiet};
ghost use Rattle.ca_server_circuit.specs.Handling.{AllStay, replied};
ghost use Rattle.ca_server_circuit.specs.Stepping.{first_at, message_of};

use crate::channel::ServedChannel;
use crate::effect::Effect;
use crate::end::{End, send};
use crate::in_place::message_without_payload;
use crate::step::FollowUp;
use ca_ids::WireId;
use ca_records::ServedRecords;
use ca_wire::{Cid, Head, Header, Sid, created_reply, failed_reply, rights_reply};
use std::alloc::AllocError;

impl End {
    /// CREATE_CHAN: a channel to the record of this name, unless the CID is in use or
    /// no SID may be given.
    #[inline(never)]
    pub(crate) fn create_chan(
        &mut self,
        records: &ServedRecords,
        head: &Head,
    ) -> Result<FollowUp, AllocError>
        requires open { IsOpen self.old.link }
        requires whole { IsWhole self.old.link.input.bytes head.now }
        ensures ok { IfOk result (λ effect. (port : ℕ)
            → CreatesBy port records.now self.old (first_at self.old.link.input.bytes head.now)
            effect self.new) }
        ensures output { OnErr result (self.new.link.output ≡ self.old.link.output) }
        ensures channels { OnErr result (AllStay self.old.channels self.new.channels) }
    {
        let Some(place) = records.find(self.text(head)) else {
            return self.refuse_channel(&head.header);
        };
        if self.channels.has_cid(Cid::new(head.header.p1)) {
            return self.refuse_channel(&head.header);
        }
        if self.channels.is_full() {
            return self.refuse_channel(&head.header);
        }
        self.open_channel(records, place, head)
    }

    /// CREATE_CH_FAIL.
    fn refuse_channel(&mut self, header: &Header) -> Result<FollowUp, AllocError>
        requires { IsOpen self.old.link }
        ensures ok { IfOk result (λ effect.
            (effect ≡ Quiet Refused)
            × (self.new ≡ replied (failed_reply (message_of header.now []) ∷ []) self.old)) }
        ensures output { OnErr result (self.new.link.output ≡ self.old.link.output) }
        ensures channels { OnErr result (self.new.channels ≡ self.old.channels) }
    {
        let reply = failed_reply(self.alloc, &message_without_payload(self.alloc, header));
        send(&mut self.link, &reply)?;
        Ok(FollowUp::Quiet(Effect::Refused))
    }

    /// Opens a channel to the record at this place: ACCESS_RIGHTS goes before the reply, and is
    /// taken back if there is no memory for that.
    fn open_channel(
        &mut self,
        records: &ServedRecords,
        place: usize,
        head: &Head,
    ) -> Result<FollowUp, AllocError>
        requires open { IsOpen self.old.link }
        requires found { Finds records.now
            (text_in (first_at self.old.link.input.bytes head.now).payload) place }
        requires room { is_full self.old.channels ≡ false }
        requires new { UsesCid self.old.channels head.now.header.p1 → ⊥ }
        ensures ok { IfOk result (λ effect.
            IsCreation records.now self.old (first_at self.old.link.input.bytes head.now) place
            effect self.new) }
        ensures output { OnErr result (self.new.link.output ≡ self.old.link.output) }
        ensures channels { OnErr result (AllStay self.old.channels self.new.channels) }
    {
        let served = records.at(place);
        let state = served.state();
        let rights = records.rights(&self.user, &self.host, state.name());
        let name = Vec::from_slice(self.alloc, state.name())?;
        let channel = ServedChannel::new(self.alloc, Cid::new(head.header.p1), name, place)?;
        let handle = self.channels.open(channel)?;
        let sid = Sid::new(WireId::of(handle).number());
        let data_type = state.held().value().base_type().number();
        let waited = self.link.out_bytes().len();
        let request = message_without_payload(self.alloc, &head.header);
        send(&mut self.link, &rights_reply(self.alloc, &request, rights))?;
        let reply = created_reply(self.alloc, &request, data_type, state.count(), sid);
        match send(&mut self.link, &reply) {
            Ok(()) => {
                self.settled = true;
                Ok(FollowUp::Opened(place, sid.number()))
            }
            Err(error) => {
                self.link.truncate(waited);
                Err(error)
            }
        }
    }
}
