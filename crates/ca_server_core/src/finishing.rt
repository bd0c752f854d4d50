//! A busy put is finished: its reply is sent, and the next put that waits is applied.
ghost use Rattle.std.specs.Prelude.{◌≡◌, List};
ghost use Rattle.ca_arena.specs.declared.handle.Handle.{Handle};
ghost use Rattle.ca_model.specs.ServerCalls.{Finishes};
ghost use Rattle.ca_records.specs.Store.{records_of};
ghost use Rattle.ca_server_core.specs.Finishing.{RepliesIn, effect_after};
ghost use Rattle.ca_server_core.specs.Sound.{IsSound};
ghost use Rattle.ca_wire.specs.Fields.{Fields};

use crate::following::follow;
use crate::server::ServerCore;
use crate::stepping::more_applied;
use ca_ids::{HeldTable, WireId};
use ca_records::{Finished, Put, ServedRecords};
use ca_server_circuit::{Circuit, Effect, FollowUp};
use ca_text::Refusal;

impl ServerCore {
    /// Finishes the busy put of the record of this name. Its reply is sent, unless its channel or
    /// its circuit is gone. The next put that waits is applied, makes the record busy, and reaches
    /// all subscriptions on it, on all circuits. A circuit's end without memory for the reply, or
    /// for an update, has ended.
    ///
    /// Refused as UnknownRecord if no record has the name, and as NotBusy if its record is not
    /// busy. A refusal changes nothing.
    pub fn finish(&mut self, name: &[u8]) -> Result<(), Refusal>
        ensures { (sent : List (Handle × Fields))
            × Finishes self.old name.now sent result self.new }
    {
        let finished = self.records.finish(name)?;
        reply_on(&mut self.circuits, &mut self.records, finished.ended);
        let left = left_by(&finished);
        self.applied = more_applied(self.applied, left.is_write());
        follow(
            &mut self.circuits,
            &mut self.records,
            &mut self.watchers,
            &mut self.leading,
            finished.ended.circuit,
            left,
        );
        Ok(())
    }
}

/// What the end of a busy put leaves to do: the next one, if it was applied, is to reach the
/// subscriptions of its record.
pub(crate) fn left_by(finished: &Finished) -> FollowUp
    ensures { result ≡ effect_after finished.now }
{
    match finished.applied {
        Some(next) => { FollowUp::Wrote(finished.place, true, WireId::of(next.channel).number()) }
        None => FollowUp::Quiet(Effect::Quiet),
    }
}

/// Sends the reply of a put that is finished, if its channel is open. If there is no memory for it,
/// the end of its circuit has ended.
#[inline(always)]
pub(crate) fn reply_on(circuits: &mut HeldTable<Circuit>, records: &mut ServedRecords, put: Put)
    requires { IsSound (records_of records.old) circuits.old }
    ensures { RepliesIn circuits.old put records.old circuits.new records.new }
{
    let Some(found) = circuits.by_handle_mut(put.circuit) else {
        return;
    };
    found.reply(put, records);
}
