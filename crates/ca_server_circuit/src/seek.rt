//! From a SID to its channel and its record.
ghost use Rattle.std.specs.Prelude.{◌≡◌, ◌≤◌, length};
ghost use Rattle.ca_text.specs.Limits.{arena_slots};
ghost use Rattle.ca_records.specs.Store.{records_of};
ghost use Rattle.ca_server_circuit.specs.Handling.{AreServed};
ghost use Rattle.ca_server_circuit.specs.Seeking.{Seeks};

use crate::end::End;
use ca_arena::Handle;
use ca_records::ServedRecords;
use ca_wire::{Cid, Sid, no_cid};

/// A channel whose record is there: its handle, its CID, and the place of its record.
#[derive(Clone, Copy, Debug, PartialEq, Eq)]
pub(crate) struct Seat {
    pub(crate) channel: Handle,
    pub(crate) cid: Cid,
    pub(crate) place: usize,
}

/// What a SID stands for.
#[derive(Clone, Copy, Debug, PartialEq, Eq)]
pub(crate) enum Sought {
    /// A channel that is served.
    Served(Seat),
    /// Nothing that is served: an ERROR has this CID.
    Stray(Cid),
}

impl End {
    /// What this SID stands for.
    #[inline(always)]
    pub(crate) fn seek(&self, records: &ServedRecords, sid: Sid) -> Sought
        requires { AreServed (records_of records.now) self.now.channels }
        ensures seeks { Seeks records.now self.now sid result }
        ensures limit { length self.now.channels ≤ arena_slots }
    {
        let Some((handle, channel)) = self.channels.by_sid(sid) else {
            return Sought::Stray(no_cid());
        };
        if channel.is_retired() {
            return Sought::Stray(channel.cid());
        }
        match records.find_near(channel.place(), channel.name()) {
            Some(place) => Sought::Served(Seat {
                channel: handle,
                cid: channel.cid(),
                place,
            }),
            None => unreachable!(),
        }
    }
}
