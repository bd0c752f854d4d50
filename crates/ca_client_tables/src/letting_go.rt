//! A circuit that has ended is dropped.
ghost use Rattle.std.specs.Prelude.{◌≡◌, [], None, filter, if◌then◌else◌, not, option_map};
ghost use Rattle.std.specs.Prelude.{unwrap_or};
ghost use Rattle.ca_ids.specs.Table.{same_handle, with_changed, with_freed};
ghost use Rattle.ca_client_tables.specs.Ends.{left_at};

use crate::channel::is_same;
use crate::circuit::{ClientCircuit, Connection};
use ca_arena::Handle;
use ca_ids::HeldTable;
use ca_wire::Pipe;
use std::alloc::Global;

/// Drops a circuit that has ended, but a name server's is wanted again. It returns
/// the bytes that waited.
pub fn let_go(
    alloc: Global,
    circuits: &mut HeldTable<ClientCircuit>,
    order: &mut Vec<Handle>,
    circuit: Handle,
    is_name: bool,
) -> Pipe
    ensures left { result ≡ left_at circuits.old circuit }
    ensures gone { circuits.new
        ≡ (if is_name then
        with_changed (λ d. record d { connection = None }) circuit circuits.old
        else with_freed circuit circuits.old) }
    ensures order { order.new.items
        ≡ (if is_name then order.old.items
        else filter (λ d. not (same_handle d circuit)) order.old.items) }
{
    if is_name {
        return disconnect(alloc, circuits, circuit);
    }
    forget(order, circuit);
    match circuits.free(circuit) {
        Some(found) => {
            let ClientCircuit { connection, .. } = found;
            left_of(alloc, connection)
        }
        None => Pipe::new(alloc),
    }
}

// It is no longer connected. It returns the bytes that waited.
fn disconnect(alloc: Global, circuits: &mut HeldTable<ClientCircuit>, circuit: Handle) -> Pipe
    ensures left { result ≡ left_at circuits.old circuit }
    ensures gone { circuits.new
        ≡ with_changed (λ d. record d { connection = None }) circuit circuits.old }
{
    match circuits.by_handle_mut(circuit) {
        Some(found) => left_of(alloc, found.connection.take()),
        None => Pipe::new(alloc),
    }
}

// Takes a circuit out of the order.
fn forget(order: &mut Vec<Handle>, circuit: Handle)
    ensures { order.new.items ≡ filter (λ d. not (same_handle d circuit)) order.old.items }
{
    order.retain(|other| !is_same(*other, circuit));
}

// The bytes that waited on an end, if there was one.
fn left_of(alloc: Global, connection: Option<Connection>) -> Pipe
    ensures { result ≡ unwrap_or (option_map (λ e. e.link.output) connection) [] }
{
    match connection {
        Some(connection) => {
            let Connection { link, .. } = connection;
            link.into_left()
        }
        None => Pipe::new(alloc),
    }
}
