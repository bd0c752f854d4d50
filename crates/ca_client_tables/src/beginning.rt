//! The circuits of name servers, as a client begins.
ghost use Rattle.std.specs.Prelude.{◌≡◌, ◌≢◌, ◌<◌, ◌+◌, [], IfOk, OnErr, OnOk, if◌then◌else◌};
ghost use Rattle.std.specs.Prelude.{length, take};
ghost use Rattle.ca_model.specs.ClientEnds.{distinct};
ghost use Rattle.ca_model.specs.Ends.{same_address};
ghost use Rattle.ca_client_tables.specs.Names.{Adds, HasNames, is_among, seen_before};

use crate::address::Address;
use crate::circuit::ClientCircuit;
use ca_arena::Handle;
use ca_ids::HeldTable;
use std::alloc::{AllocError, Global};

/// How many addresses these are, each once.
pub fn count_names(names: &[Address]) -> usize
    ensures { result ≡ length (distinct names.now) }
{
    let mut count = 0;
    for index in 0..names.len() {
        count += one_if_new(names, index);
    }
    count
}

// 1 if the address at this place is not among those before it, else 0.
fn one_if_new(names: &[Address], index: usize) -> usize
    requires { index < length names.now }
    ensures { result ≡ (if seen_before index names.now then 0 else 1) }
{
    if is_seen_before(names, index) {
        return 0;
    }
    1
}

// Whether the address at this place is one of those before it.
fn is_seen_before(names: &[Address], index: usize) -> bool
    requires { index < length names.now }
    ensures { result ≡ seen_before index names.now }
{
    is_among(names[index], &names[..index])
}

// Whether the address is one of these.
fn is_among(address: Address, names: &[Address]) -> bool
    ensures { result ≡ is_among address names.now }
{
    names.iter().any(|name| is_same(address, *name))
}

pub(crate) fn is_same(a: Address, b: Address) -> bool
    ensures { result ≡ same_address a b }
{
    a.host == b.host && a.port == b.port
}

/// The circuits of the name servers at these addresses, one for each address, and their order. It
/// takes memory only if there is one.
pub fn name_circuits(
    alloc: Global,
    names: &[Address],
) -> Result<(HeldTable<ClientCircuit>, Vec<Handle>), AllocError>
    ensures ok { IfOk result (λ made. HasNames names.now made.0 made.1.items) }
    ensures some { OnErr result (names.now ≢ []) }
{
    let mut circuits = HeldTable::new(alloc);
    let mut order = Vec::new(alloc);
    add_names(&mut circuits, &mut order, names)?;
    Ok((circuits, order))
}

// Adds a circuit for each of these addresses, once.
fn add_names(
    circuits: &mut HeldTable<ClientCircuit>,
    order: &mut Vec<Handle>,
    names: &[Address],
) -> Result<(), AllocError>
    requires { HasNames [] circuits.old order.old.items }
    ensures ok { OnOk result (HasNames names.now circuits.new order.new.items) }
    ensures some { OnErr result (names.now ≢ []) }
{
    for index in 0..names.len() {
        add_at(circuits, order, names, index)?;
    }
    Ok(())
}

// Adds a circuit for the address at this place, unless there is one.
fn add_at(
    circuits: &mut HeldTable<ClientCircuit>,
    order: &mut Vec<Handle>,
    names: &[Address],
    index: usize,
) -> Result<(), AllocError>
    requires within { index < length names.now }
    requires before { HasNames (take index names.now) circuits.old order.old.items }
    ensures { OnOk result (HasNames
        (take (index + 1) names.now)
        circuits.new
        order.new.items) }
{
    if is_seen_before(names, index) {
        return Ok(());
    }
    add_name(circuits, order, names[index])?;
    Ok(())
}

// Adds the circuit of a name server.
fn add_name(
    circuits: &mut HeldTable<ClientCircuit>,
    order: &mut Vec<Handle>,
    address: Address,
) -> Result<(), AllocError>
    ensures { OnOk result (Adds address circuits.old order.old.items circuits.new order.new.items) }
{
    let circuit = ClientCircuit {
        address,
        priority: 0,
        is_name: true,
        connection: None,
    };
    match circuits.open(circuit) {
        Ok(handle) => {
            order.push(handle)?;
            Ok(())
        }
        Err(_) => Err(AllocError),
    }
}
