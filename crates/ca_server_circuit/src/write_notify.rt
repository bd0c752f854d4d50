//! WRITE_NOTIFY on an open end.
ghost use Rattle.std.specs.Prelude.{ℕ, ◌≡◌, IfOk, OnErr, OnOk, [], ◌∷◌, if◌then◌else◌, take};
ghost use Rattle.ca_text.specs.Command.{command_number};
ghost use Rattle.ca_text.specs.declared.command.Command.TheVariants as Command;
ghost use Rattle.ca_text.specs.Status.{normal};
ghost use Rattle.ca_link.specs.Calls.{IsOpen};
ghost use Rattle.ca_link.specs.Link.{with_sent};
ghost use Rattle.ca_records.specs.Store.{records_of};
ghost use Rattle.ca_wire.specs.Messages.{on_channel, status_reply};
ghost use Rattle.ca_wire.specs.Reading.{IsWhole};
ghost use Rattle.ca_server_circuit.specs.Handling.{AreServed, Does, Puts, known, replied};
ghost use Rattle.ca_server_circuit.specs.Seeking.{IsServed};
ghost use Rattle.ca_server_circuit.specs.Stepping.{first_at};

use crate::effect::Effect;
use crate::end::{End, send};
use crate::in_place::named_by;
use crate::put::{begin, put_from};
use crate::seek::{Seat, Sought};
use crate::step::FollowUp;
use ca_arena::Handle;
use ca_records::{Begun, ServedRecords};
use ca_text::Status;
use ca_wire::{Head, Wanted, put_status};
use std::alloc::AllocError;

impl End {
    /// WRITE_NOTIFY on this circuit: refused in its reply, or applied at once, or it waits until
    /// the record is free. On a slow record its reply comes when it is finished.
    ///
    /// On a quick record the reply goes first, so that no put is applied without memory for its
    /// reply. It is taken back if the put is refused, or if there is no memory for the put itself.
    #[inline(never)]
    pub(crate) fn write_notify(
        &mut self,
        circuit: Handle,
        records: &mut ServedRecords,
        head: &Head,
    ) -> Result<FollowUp, AllocError>
        requires open { IsOpen self.old.link }
        requires served { AreServed (records_of records.old) self.old.channels }
        requires whole { IsWhole self.old.link.input.bytes head.now }
        requires command { head.now.header.command ≡ command_number Command.WriteNotify }
        ensures ok { IfOk result (λ effect. (port : ℕ)
            → Does (Puts (known port records.old self.old)
            (first_at self.old.link.input.bytes head.now)) records.old circuit self.old
            (first_at self.old.link.input.bytes head.now) effect records.new self.new) }
        ensures err { OnErr result (records.new ≡ records.old) }
        ensures output { OnErr result (self.new.link.output ≡ self.old.link.output) }
        ensures channels { OnErr result (self.new.channels ≡ self.old.channels) }
    {
        let wanted = named_by(&head.header);
        match self.seek(records, wanted.sid) {
            Sought::Stray(_) => {
                self.refuse_put(&wanted, Status::BADCHID)?;
                Ok(FollowUp::Quiet(Effect::WriteRefused(head.header.p1)))
            }
            Sought::Served(seat) => self.put_on(seat, circuit, records, head),
        }
    }

    /// WRITE_NOTIFY to the record of this channel.
    #[inline(always)]
    fn put_on(
        &mut self,
        seat: Seat,
        circuit: Handle,
        records: &mut ServedRecords,
        head: &Head,
    ) -> Result<FollowUp, AllocError>
        requires open { IsOpen self.old.link }
        requires served { IsServed records.old self.old head.now.header.p1 seat }
        requires whole { IsWhole self.old.link.input.bytes head.now }
        requires command { head.now.header.command ≡ command_number Command.WriteNotify }
        ensures ok { IfOk result (λ effect. (port : ℕ)
            → Does (Puts (known port records.old self.old)
            (first_at self.old.link.input.bytes head.now)) records.old circuit self.old
            (first_at self.old.link.input.bytes head.now) effect records.new self.new) }
        ensures err { OnErr result (records.new ≡ records.old) }
        ensures output { OnErr result (self.new.link.output ≡ self.old.link.output) }
        ensures channels { OnErr result (self.new.channels ≡ self.old.channels) }
    {
        let alloc = self.alloc;
        let place = seat.place;
        let state = records.at(place).state();
        let rights = records.rights(&self.user, &self.host, state.name());
        let is_slow = state.is_slow();
        let waited = self.link.out_bytes().len();
        let wanted = named_by(&head.header);
        self.acknowledge(is_slow, &wanted)?;
        let put = Some(put_from(circuit, seat.channel, &wanted));
        let Ok(begun) = begin(
            alloc,
            records,
            place,
            rights,
            put,
            &wanted,
            self.payload(head),
        ) else {
            self.link.truncate(waited);
            return Err(AllocError);
        };
        match begun {
            Begun::Applied(busies) => { Ok(FollowUp::Wrote(place, busies, wanted.sid.number())) }
            Begun::Waiting => Ok(FollowUp::Quiet(Effect::Queued(head.header.p1))),
            Begun::Refused(status) => {
                self.link.truncate(waited);
                self.refuse_put(&wanted, status)?;
                Ok(FollowUp::Quiet(Effect::WriteRefused(head.header.p1)))
            }
        }
    }

    /// Answers a put with notification by a status that refuses it.
    #[inline(never)]
    fn refuse_put(&mut self, wanted: &Wanted, status: Status) -> Result<(), AllocError>
        requires { IsOpen self.old.link }
        ensures ok { OnOk result (self.new
            ≡ replied (status_reply (on_channel Command.WriteNotify wanted.now []) status.number
            ∷ []) self.old) }
        ensures err { OnErr result (self.new ≡ self.old) }
    {
        let reply = put_status(self.alloc, wanted, status);
        send(&mut self.link, &reply)?;
        Ok(())
    }

    /// The reply to a put with notification on a record that is quick.
    fn acknowledge(&mut self, is_slow: bool, wanted: &Wanted) -> Result<(), AllocError>
        requires { IsOpen self.old.link }
        ensures ok { OnOk result (self.new ≡ replied (if is_slow then [] else status_reply
            (on_channel Command.WriteNotify wanted.now []) normal ∷ []) self.old) }
        ensures err { OnErr result (self.new ≡ self.old) }
    {
        if is_slow {
            return Ok(());
        }
        let reply = put_status(self.alloc, wanted, Status::NORMAL);
        send(&mut self.link, &reply)?;
        Ok(())
    }
}
