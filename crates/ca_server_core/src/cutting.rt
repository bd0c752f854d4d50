//! A circuit is cut, and its end ends.
ghost use Rattle.ca_model.specs.ServerSteps.{Cuts};
ghost use Rattle.ca_records.specs.Store.{records_of};
ghost use Rattle.ca_server_core.specs.Ending.{EndsIn};
ghost use Rattle.ca_server_core.specs.Sound.{IsSound};
ghost use Rattle.ca_server_circuit.specs.Stepping.{why_is};

use crate::server::ServerCore;
use ca_arena::Handle;
use ca_ids::HeldTable;
use ca_records::ServedRecords;
use ca_server_circuit::{Circuit, EndCause};

impl ServerCore {
    /// Cuts a circuit: its end ends, if it is open, and its puts that wait are never applied. A
    /// step reports that, with the bytes that are left to send. It does not allocate.
    pub fn cut(&mut self, circuit: Handle)
        ensures { Cuts self.old circuit self.new }
    {
        end_on(
            &mut self.circuits,
            &mut self.records,
            circuit,
            EndCause::Cut,
        );
    }
}

/// The end of a circuit ends for this cause, if it is open.
pub(crate) fn end_on(
    circuits: &mut HeldTable<Circuit>,
    records: &mut ServedRecords,
    circuit: Handle,
    cause: EndCause,
)
    requires { IsSound (records_of records.old) circuits.old }
    ensures { EndsIn circuits.old circuit records.old (why_is cause) circuits.new records.new }
{
    let Some(found) = circuits.by_handle_mut(circuit) else {
        return;
    };
    found.end(circuit, cause, records);
}
