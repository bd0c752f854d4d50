//! WRITE on an open end, and the ERROR that refuses a request.
ghost use Rattle.std.specs.Prelude.{ℕ, ◌≡◌, IfOk, OnErr, OnOk, [], ◌∷◌};
ghost use Rattle.ca_arena.specs.declared.handle.Handle.{Handle};
ghost use Rattle.ca_text.specs.Command.{command_number};
ghost use Rattle.ca_text.specs.declared.command.Command.TheVariants as command;
ghost use Rattle.ca_link.specs.Calls.{IsOpen};
ghost use Rattle.ca_wire.specs.Messages.{error_reply};
ghost use Rattle.ca_wire.specs.Reading.{IsWhole};
ghost use Rattle.ca_records.specs.Store.{records_of};
ghost use Rattle.ca_server_circuit.specs.Handling.{AreServed, Does, Writes, known, replied};
ghost use Rattle.ca_server_circuit.specs.Seeking.{IsServed};
ghost use Rattle.ca_server_circuit.specs.Stepping.{error_on, first_at};

use crate::effect::Effect;
use crate::end::{End, send};
use crate::in_place::named_by;
use crate::put::begin;
use crate::seek::{Seat, Sought};
use crate::step::FollowUp;
use ca_records::{Begun, ServedRecords};
use ca_text::{Command, Status};
use ca_wire::{Cid, Head, Header, Message, spell_header};
use std::alloc::{AllocError, Global};

impl End {
    /// WRITE: applied at once, with no reply; a refused one is answered by ERROR.
    #[inline(never)]
    pub(crate) fn write(
        &mut self,
        records: &mut ServedRecords,
        head: &Head,
    ) -> Result<FollowUp, AllocError>
        requires open { IsOpen self.old.link }
        requires served { AreServed (records_of records.old) self.old.channels }
        requires whole { IsWhole self.old.link.input.bytes head.now }
        requires command { head.now.header.command ≡ command_number command.Write }
        ensures ok { IfOk result (λ effect. (port : ℕ) (h : Handle)
            → Does (Writes (known port records.old self.old)
            (first_at self.old.link.input.bytes head.now)) records.old h self.old
            (first_at self.old.link.input.bytes head.now) effect records.new self.new) }
        ensures err { OnErr result (records.new ≡ records.old) }
        ensures output { OnErr result (self.new.link.output ≡ self.old.link.output) }
        ensures channels { OnErr result (self.new.channels ≡ self.old.channels) }
    {
        let wanted = named_by(&head.header);
        match self.seek(records, wanted.sid) {
            Sought::Stray(cid) => {
                self.refuse(cid, Status::BADCHID, head)?;
                Ok(FollowUp::Quiet(Effect::WriteRefused(head.header.p1)))
            }
            Sought::Served(seat) => self.write_on(seat, records, head),
        }
    }

    /// WRITE to the record of this channel.
    #[inline(always)]
    fn write_on(
        &mut self,
        seat: Seat,
        records: &mut ServedRecords,
        head: &Head,
    ) -> Result<FollowUp, AllocError>
        requires open { IsOpen self.old.link }
        requires served { IsServed records.old self.old head.now.header.p1 seat }
        requires whole { IsWhole self.old.link.input.bytes head.now }
        requires command { head.now.header.command ≡ command_number command.Write }
        ensures ok { IfOk result (λ effect. (port : ℕ) (h : Handle)
            → Does (Writes (known port records.old self.old)
            (first_at self.old.link.input.bytes head.now)) records.old h self.old
            (first_at self.old.link.input.bytes head.now) effect records.new self.new) }
        ensures err { OnErr result (records.new ≡ records.old) }
        ensures output { OnErr result (self.new.link.output ≡ self.old.link.output) }
        ensures channels { OnErr result (self.new.channels ≡ self.old.channels) }
    {
        let name = records.at(seat.place).state().name();
        let rights = records.rights(&self.user, &self.host, name);
        let wanted = named_by(&head.header);
        let payload = self.payload(head);
        let begun = begin(
            self.alloc, records, seat.place, rights, None, &wanted, payload,
        )?;
        match begun {
            Begun::Applied(_) => Ok(FollowUp::Wrote(seat.place, false, wanted.sid.number())),
            Begun::Waiting => unreachable!(),
            Begun::Refused(status) => {
                self.refuse(seat.cid, status, head)?;
                Ok(FollowUp::Quiet(Effect::WriteRefused(head.header.p1)))
            }
        }
    }

    /// Answers a request by ERROR.
    #[inline(never)]
    pub(crate) fn refuse(&mut self, cid: Cid, status: Status, head: &Head) -> Result<(), AllocError>
        requires open { IsOpen self.old.link }
        requires whole { IsWhole self.old.link.input.bytes head.now }
        ensures ok { OnOk result (self.new
            ≡ replied (error_reply cid status.number
            (first_at self.old.link.input.bytes head.now) ∷ []) self.old) }
        ensures output { OnErr result (self.new.link.output ≡ self.old.link.output) }
        ensures channels { OnErr result (self.new.channels ≡ self.old.channels) }
    {
        let reply = error_on(self.alloc, cid, status, &head.header)?;
        send(&mut self.link, &reply)?;
        Ok(())
    }
}

/// ERROR, which quotes this header.
fn error_on(alloc: Global, cid: Cid, status: Status, header: &Header) -> Result<Message, AllocError>
    ensures { IfOk result (λ m. m ≡ error_on cid status.number header.now) }
{
    let mut payload = Vec::with_capacity(alloc, 32)?;
    spell_header(header, &mut payload)?;
    payload.extend_from_slice(&[0; 8])?;
    let command = Command::Error.number();
    match Message::new(command, 0, 0, cid.number(), status.number, payload) {
        Ok(message) => Ok(message),
        Err(_) => Err(AllocError),
    }
}
