//! The record that a SID leads to.
ghost use Rattle.std.specs.Prelude.{option_map};
ghost use Rattle.ca_server_circuit.specs.Peeking.{NamesBy};

use crate::end::End;
use ca_wire::Sid;

impl End {
    // The name of the record of the open channel of this SID, if that record was not removed.
    pub(crate) fn served_name(&self, sid: Sid) -> Option<&[u8]>
        ensures { NamesBy self.now sid (option_map (λ t. t.now) result) }
    {
        let Some((_, channel)) = self.channels.by_sid(sid) else {
            return None;
        };
        if channel.is_retired() {
            return None;
        }
        Some(channel.name())
    }
}
