//! The record that a SID leads to: for callers that read a device first.
ghost use Rattle.std.specs.Prelude.{option_map};
ghost use Rattle.ca_ids.specs.Table.{under};
ghost use Rattle.ca_server_core.specs.Asking.{NamesUnder};

use crate::server::ServerCore;
use ca_arena::Handle;
use ca_wire::Sid;

impl ServerCore {
    /// The name of the record of the open channel of this SID on a circuit, if that record was not
    /// removed. None if its end is not open.
    pub fn served_name(&self, circuit: Handle, sid: Sid) -> Option<&[u8]>
        ensures { NamesUnder (under self.now.circuits circuit) sid
            (option_map (λ t. t.now) result) }
    {
        match self.circuits.by_handle(circuit) {
            Some(found) => found.served_name(sid),
            None => None,
        }
    }
}
