//! A circuit that is wanted is connected.
ghost use Rattle.std.specs.Prelude.{◌≡◌, ◌<◌, ◌≤◌, Some, option_copied, option_map};
ghost use Rattle.ca_text.specs.Limits.{priority_limit};
ghost use Rattle.ca_model.specs.ClientEnds.{unconnected};
ghost use Rattle.ca_client_core.specs.Connecting.{BeginsOn};

use crate::client::ClientCore;
use ca_arena::Handle;
use ca_client_tables::{ClientCircuit, begin_all, connect, new_connection};
use std::alloc::AllocError;

impl ClientCore {
    // The circuit of this handle, if it is wanted and not connected.
    pub(crate) fn unconnected(&self, circuit: Handle) -> Option<&ClientCircuit>
        ensures { option_copied result ≡ unconnected self.now circuit }
    {
        match self.circuits.by_handle(circuit) {
            Some(found) if found.connection.is_none() => Some(found),
            _ => None,
        }
    }

    // The end of a circuit begins: its set-up waits, and then the CREATE_CHANs of the channels that
    // waited for it. Without memory nothing changes.
    pub(crate) fn begin(&mut self, circuit: Handle, priority: u16) -> Result<(), AllocError>
        requires wanted { option_map (λ d. d.priority) (unconnected self.old circuit)
            ≡ Some priority }
        requires within { priority ≤ priority_limit }
        ensures { BeginsOn self.old circuit (unconnected self.old circuit) result self.new }
    {
        let connection = new_connection(
            self.alloc,
            self.moment,
            priority,
            &self.user,
            &self.host,
            &self.channels,
            circuit,
        )?;
        connect(&mut self.circuits, circuit, connection);
        begin_all(&mut self.channels, circuit);
        Ok(())
    }
}
