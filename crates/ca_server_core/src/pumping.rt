//! Updates that wait on a circuit move into its output.
ghost use Rattle.std.specs.Prelude.{◌≡◌, [], List};
ghost use Rattle.ca_model.specs.Server.{Server};
ghost use Rattle.ca_model.specs.ServerSteps.{Pumps, Update};
ghost use Rattle.ca_records.specs.Store.{records_of};
ghost use Rattle.ca_server_circuit.specs.CircuitOutput.{bytes_of};
ghost use Rattle.ca_server_core.specs.Pumping.{HandsOver, PumpsIn, PumpsOverIn};
ghost use Rattle.ca_server_core.specs.Sound.{IsSound};

use crate::server::ServerCore;
use ca_arena::Handle;
use ca_ids::HeldTable;
use ca_link::Spares;
use ca_records::ServedRecords;
use ca_server_circuit::{Circuit, CircuitOutput};

impl ServerCore {
    /// Puts updates that wait on a circuit after what waits to be sent, until none may go: none is
    /// left that may be taken, or 262,144 bytes wait. Nothing happens if its end is not open.
    ///
    /// If there is no memory for the next, the end of the circuit has ended, with those before it.
    /// A step reports that.
    pub fn pump(&mut self, circuit: Handle)
        ensures { (updates : List Update) × Pumps self.old circuit updates self.new }
    {
        pump_on(
            &mut self.circuits,
            &mut self.spares,
            &mut self.records,
            circuit,
        );
    }

    /// Updates that wait on a circuit leave their queues, as by `pump`. Then all bytes leave the
    /// circuit, those that wait or that its end left, in place of what is there. Up to this many
    /// are copied, and more come with their memory; an image that several circuits send is not
    /// copied. There are none if the circuit is not there.
    ///
    /// If there is no memory for the next update, the end of the circuit has ended. A step reports
    /// that.
    pub fn pump_over(&mut self, circuit: Handle, copied: usize, to: &mut CircuitOutput)
        ensures { (updates : List Update) × ((mid : Server) × Pumps self.old circuit updates mid
            × HandsOver mid circuit (bytes_of to.new) self.new) }
    {
        to.clear();
        pump_over_on(
            &mut self.circuits,
            &mut self.spares,
            &mut self.records,
            circuit,
            copied,
            to,
        );
    }
}

/// Updates leave the queues of a circuit's end, if it is open, and all bytes leave it.
fn pump_over_on(
    circuits: &mut HeldTable<Circuit>,
    spares: &mut Spares,
    records: &mut ServedRecords,
    circuit: Handle,
    copied: usize,
    to: &mut CircuitOutput,
)
    requires sound { IsSound (records_of records.old) circuits.old }
    requires nothing { (to.old.before ≡ []) × (to.old.last ≡ []) }
    ensures { PumpsOverIn circuits.old circuit records.old circuits.new records.new
        (bytes_of to.new) }
{
    let Some(found) = circuits.by_handle_mut(circuit) else {
        return;
    };
    found.borrow_from(spares);
    found.pump_over(circuit, records, copied, to);
    found.give_back(spares);
}

/// Pumps the end of a circuit, if it is open.
fn pump_on(
    circuits: &mut HeldTable<Circuit>,
    spares: &mut Spares,
    records: &mut ServedRecords,
    circuit: Handle,
)
    requires { IsSound (records_of records.old) circuits.old }
    ensures { PumpsIn circuits.old circuit records.old circuits.new records.new }
{
    let Some(found) = circuits.by_handle_mut(circuit) else {
        return;
    };
    found.borrow_from(spares);
    found.pump(circuit, records);
}
