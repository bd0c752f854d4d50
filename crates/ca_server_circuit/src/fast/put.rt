//! The fast path of a WRITE_NOTIFY of one element, in the record's type: 509 instructions a put in
//! place of 882 (`bench/answer --instructions`).
ghost use Rattle.std.specs.Prelude.{◌≡◌, MatchOption, Some, [], ◌∷◌, false, true};
ghost use Rattle.ca_text.specs.declared.command.Command.{Command};
ghost use Rattle.ca_text.specs.declared.command.Command.TheVariants as command;
ghost use Rattle.ca_link.specs.Calls.{HasScalar, IsOpen};
ghost use Rattle.ca_link.specs.Link.{with_sent};
ghost use Rattle.ca_records.specs.declared.puts.Begun.TheVariants.{Applied};
ghost use Rattle.ca_records.specs.Store.{IsThere, records_of};
ghost use Rattle.ca_wire.specs.Messages.{done, on_channel};
ghost use Rattle.ca_server_circuit.specs.Handling.{AreServed, Puts};
ghost use Rattle.ca_server_circuit.specs.Putting.{WritesTo};
ghost use Rattle.ca_server_circuit.specs.Stepping.{DoesScalar, done_for};

use crate::end::End;
use crate::fast::write::write_one;
use crate::put::put_from;
use crate::seek::Sought;
use crate::step::FollowUp;
use ca_arena::Handle;
use ca_link::Link;
use ca_records::{Put, ServedRecords};
use ca_wire::{Done, Wanted};

impl End {
    /// WRITE_NOTIFY of eight bytes, if the message is one. On a slow record its reply comes when
    /// the put is finished. On a quick one the reply goes first, so that no put is applied without
    /// memory for its reply; it is taken back if the put needs the plain path.
    #[inline(never)]
    pub(crate) fn put_notify_scalar(
        &mut self,
        circuit: Handle,
        records: &mut ServedRecords,
        wanted: &Wanted,
    ) -> Option<FollowUp>
        requires served { AreServed (records_of records.old) self.old.channels }
        requires scalar { HasScalar command.WriteNotify self.old.link wanted.now }
        ensures { MatchOption result ((self.new ≡ self.old) × (records.new ≡ records.old))
            (λ left. DoesScalar Puts command.WriteNotify wanted.now circuit records.old self.old
            left records.new self.new) }
    {
        if wanted.count != 1 {
            return None;
        }
        let Sought::Served(seat) = self.seek(records, wanted.sid) else {
            return None;
        };
        let state = records.at(seat.place).state();
        if state.is_slow() {
            return self.put_slow(circuit, records, wanted);
        }
        let rights = records.rights(&self.user, &self.host, state.name());
        let waited = self.link.out_bytes().len();
        if !send_done(&mut self.link, wanted) {
            return None;
        }
        let payload = &self.link.in_bytes()[16..24];
        if !write_one(records, seat.place, rights, true, wanted, payload) {
            self.link.truncate(waited);
            return None;
        }
        self.link.drop_front(24);
        Some(FollowUp::Wrote(seat.place, false, wanted.sid.number()))
    }

    /// WRITE_NOTIFY of eight bytes on a slow record, whose put stays busy: its reply comes
    /// when it is finished.
    #[inline(never)]
    fn put_slow(
        &mut self,
        circuit: Handle,
        records: &mut ServedRecords,
        wanted: &Wanted,
    ) -> Option<FollowUp>
        requires served { AreServed (records_of records.old) self.old.channels }
        requires scalar { HasScalar command.WriteNotify self.old.link wanted.now }
        ensures { MatchOption result ((self.new ≡ self.old) × (records.new ≡ records.old))
            (λ left. DoesScalar Puts command.WriteNotify wanted.now circuit records.old self.old
            left records.new self.new) }
    {
        let Sought::Served(seat) = self.seek(records, wanted.sid) else {
            return None;
        };
        let state = records.at(seat.place).state();
        if !state.is_slow() {
            return None;
        }
        let rights = records.rights(&self.user, &self.host, state.name());
        let put = put_from(circuit, seat.channel, wanted);
        let payload = &self.link.in_bytes()[16..24];
        if !put_one(records, seat.place, rights, put, wanted, payload) {
            return None;
        }
        self.link.drop_front(24);
        Some(FollowUp::Wrote(seat.place, true, wanted.sid.number()))
    }
}

/// Writes one element by a put that makes its record busy, if the client may write.
#[inline(always)]
fn put_one(
    records: &mut ServedRecords,
    place: usize,
    rights: u32,
    put: Put,
    wanted: &Wanted,
    payload: &[u8],
) -> bool
    requires { IsThere records.old place }
    ensures put { result ≡ true → (c : Command)
        → WritesTo records.old place rights (Some put) (on_channel c wanted.now payload.now)
        (Applied true) records.new }
    ensures stays { result ≡ false → records.new ≡ records.old }
{
    if rights / 2 % 2 != 1 || wanted.count != 1 {
        return false;
    }
    records.put_one(place, put, wanted.data_type, payload)
}

/// Puts the reply to a put of one element after what waits on an open link. False, and the link is
/// as it was, without memory.
#[inline(always)]
fn send_done(link: &mut Link, wanted: &Wanted) -> bool
    requires { IsOpen link.old }
    ensures sent { result ≡ true → link.new ≡ with_sent (done (done_for wanted.now) ∷ []) link.old }
    ensures stays { result ≡ false → link.new ≡ link.old }
{
    let said = Done {
        data_type: wanted.data_type,
        id: wanted.id,
    };
    match link.queue_done(said) {
        Ok(()) => true,
        Err(_) => false,
    }
}
