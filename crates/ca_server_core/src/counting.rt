//! A step and a pump of one circuit that also report how many bytes wait on it, so that it is
//! looked up once.
ghost use Rattle.std.specs.Prelude.{◌≡◌, false, length, true};
ghost use Rattle.ca_ids.specs.Table.{under};
ghost use Rattle.ca_model.specs.ServerSteps.{output_of};
ghost use Rattle.ca_records.specs.Store.{records_of};
ghost use Rattle.ca_server_core.specs.Pumping.{IsIdleIn, PumpsIn, StepsAndPumps};
ghost use Rattle.ca_server_core.specs.Serving.{StepsIn, is_handled, is_still};
ghost use Rattle.ca_server_core.specs.Sound.{IsSound};

use crate::stepping::is_quiet;
use ca_arena::Handle;
use ca_ids::HeldTable;
use ca_records::ServedRecords;
use ca_server_circuit::{Circuit, EndStep};

/// One step of a circuit's end, as `step_on`. If nothing is left to do then, its end is pumped: so
/// a read takes one look-up of its circuit. Else it says whether the end is idle. It counts the
/// bytes that wait on it then.
#[inline(always)]
pub(crate) fn step_counting_on(
    port: u16,
    circuits: &mut HeldTable<Circuit>,
    records: &mut ServedRecords,
    circuit: Handle,
    waited: &mut usize,
    left: &mut usize,
    idle: &mut bool,
) -> Option<EndStep>
    requires { IsSound (records_of records.old) circuits.old }
    ensures pumps { is_still result ≡ true
        → StepsAndPumps port circuits.old circuit records.old circuits.new records.new }
    ensures steps { is_still result ≡ false
        → StepsIn port circuits.old circuit records.old result circuits.new records.new }
    ensures waited { waited.new ≡ length (output_of (under circuits.old circuit)) }
    ensures left { is_handled result ≡ true
        → left.new ≡ length (output_of (under circuits.new circuit)) }
    ensures idle { idle.new ≡ true → IsIdleIn circuits.new circuit }
{
    let Some(found) = circuits.by_handle_mut(circuit) else {
        *waited = 0;
        *left = 0;
        *idle = false;
        return None;
    };
    *waited = found.out_bytes().len();
    let did = found.step(port, circuit, records);
    if is_still(did) {
        found.pump(circuit, records);
        *left = found.out_bytes().len();
        *idle = false;
        return did;
    }
    if !is_handled(did) {
        *left = 0;
        *idle = false;
        return did;
    }
    *left = found.out_bytes().len();
    *idle = found.is_idle();
    did
}

/// Whether a step handled a message that leaves nothing to do.
#[inline(always)]
fn is_still(did: Option<EndStep>) -> bool
    ensures { result ≡ is_still did }
{
    match did {
        Some(EndStep::Handled(effect)) => is_quiet(effect),
        _ => false,
    }
}

/// Whether a step handled a message.
#[inline(always)]
fn is_handled(did: Option<EndStep>) -> bool
    ensures { result ≡ is_handled did }
{
    match did {
        Some(EndStep::Handled(_)) => true,
        _ => false,
    }
}

/// Pumps the end of a circuit, if it is open, and counts what waits on it.
pub(crate) fn pump_counting_on(
    circuits: &mut HeldTable<Circuit>,
    records: &mut ServedRecords,
    circuit: Handle,
) -> usize
    requires { IsSound (records_of records.old) circuits.old }
    ensures pumps { PumpsIn circuits.old circuit records.old circuits.new records.new }
    ensures counts { result ≡ length (output_of (under circuits.new circuit)) }
{
    let Some(found) = circuits.by_handle_mut(circuit) else {
        return 0;
    };
    found.pump(circuit, records);
    found.out_bytes().len()
}
