//! The fast path of a WRITE of one element, in the record's type: 468 instructions a write in place
//! of 753 (`bench/answer --instructions`).
ghost use Rattle.std.specs.Prelude.{◌≡◌, MatchOption, Option, false, is_some, true};
ghost use Rattle.ca_arena.specs.declared.handle.Handle.{Handle};
ghost use Rattle.ca_text.specs.declared.command.Command.{Command};
ghost use Rattle.ca_text.specs.declared.command.Command.TheVariants as command;
ghost use Rattle.ca_link.specs.Calls.{HasScalar};
ghost use Rattle.ca_records.specs.declared.puts.Begun.TheVariants.{Applied};
ghost use Rattle.ca_records.specs.declared.puts.Put.{Put};
ghost use Rattle.ca_records.specs.Store.{IsThere, records_of};
ghost use Rattle.ca_wire.specs.Messages.{on_channel};
ghost use Rattle.ca_server_circuit.specs.Handling.{AreServed, Writes};
ghost use Rattle.ca_server_circuit.specs.Putting.{WritesTo};
ghost use Rattle.ca_server_circuit.specs.Stepping.{DoesScalar};

use crate::end::End;
use crate::seek::Sought;
use crate::step::FollowUp;
use ca_records::ServedRecords;
use ca_wire::Wanted;

impl End {
    /// WRITE of eight bytes, if the message is one.
    #[inline(never)]
    pub(crate) fn write_scalar(
        &mut self,
        records: &mut ServedRecords,
        wanted: &Wanted,
    ) -> Option<FollowUp>
        requires served { AreServed (records_of records.old) self.old.channels }
        requires scalar { HasScalar command.Write self.old.link wanted.now }
        ensures { MatchOption result ((self.new ≡ self.old) × (records.new ≡ records.old))
            (λ left. (h : Handle)
            → DoesScalar Writes command.Write wanted.now h records.old self.old
            left records.new self.new) }
    {
        let Sought::Served(seat) = self.seek(records, wanted.sid) else {
            return None;
        };
        let name = records.at(seat.place).state().name();
        let rights = records.rights(&self.user, &self.host, name);
        let payload = &self.link.in_bytes()[16..24];
        if !write_one(records, seat.place, rights, false, wanted, payload) {
            return None;
        }
        self.link.drop_front(24);
        Some(FollowUp::Wrote(seat.place, false, wanted.sid.number()))
    }
}

/// Writes the one element of this payload to the record at this place under these rights, as a put
/// with notification or as none, if it is applied at once and does not allocate, as most are.
/// False, and nothing changes, if `begin` has to judge it.
#[inline(always)]
pub(crate) fn write_one(
    records: &mut ServedRecords,
    place: usize,
    rights: u32,
    is_put: bool,
    wanted: &Wanted,
    payload: &[u8],
) -> bool
    requires { IsThere records.old place }
    ensures written { result ≡ true → (c : Command) (put : Option Put) → is_some put ≡ is_put
        → WritesTo records.old place rights put (on_channel c wanted.now payload.now)
        (Applied false) records.new }
    ensures stays { result ≡ false → records.new ≡ records.old }
{
    if wanted.count != 1 || rights / 2 % 2 != 1 {
        return false;
    }
    records.write_one(place, is_put, wanted.data_type, payload)
}
