//! Messages that wait on one circuit of a table.
ghost use Rattle.std.specs.Prelude.{◌≡◌, OnErr, OnOk, length};
ghost use Rattle.ca_ids.specs.Table.{with_changed};
ghost use Rattle.ca_client_tables.specs.Ends.{left_at, queued};

use crate::circuit::ClientCircuit;
use ca_arena::Handle;
use ca_ids::HeldTable;
use ca_wire::Message;
use std::alloc::AllocError;

// Puts a message after what waits on a circuit that is connected.
pub(crate) fn queue_on(
    circuits: &mut HeldTable<ClientCircuit>,
    circuit: Handle,
    message: &Message,
) -> Result<(), AllocError>
    ensures ok { OnOk result (circuits.new
        ≡ with_changed (queued message.now) circuit circuits.old) }
    ensures err { OnErr result (circuits.new ≡ circuits.old) }
{
    let Some(found) = circuits.by_handle_mut(circuit) else {
        return Ok(());
    };
    found.queue(message)?;
    Ok(())
}

// How many bytes wait on a circuit; none if it is not connected.
pub(crate) fn waiting_on(circuits: &HeldTable<ClientCircuit>, circuit: Handle) -> usize
    ensures { result ≡ length (left_at circuits.now circuit) }
{
    match circuits.by_handle(circuit) {
        Some(found) => found.out_bytes().len(),
        None => 0,
    }
}
