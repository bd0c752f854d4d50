//! A circuit is cut at its server: its puts that wait are withdrawn.
ghost use Rattle.std.specs.Prelude.{◌≡◌};
ghost use Rattle.ca_ids.specs.Table.{under};
ghost use Rattle.ca_model.specs.ServerSteps.{output_of};
ghost use Rattle.ca_model.specs.Events as event;
ghost use Rattle.ca_server_core.specs.Serving.{stepped};
ghost use Rattle.ca_world_data.specs.Does.{Does};
ghost use Rattle.ca_world_data.specs.Opening.{entries_in};
ghost use Rattle.ca_world_data.specs.ServerCuts.{CutsServer, IsServing, cut_core, left_in};

use crate::world::World;
use ca_arena::Handle;
use ca_server_core::{CoreStep, ServerCore};
use ca_text::Refusal;
use ca_wire::Pipe;
use ca_world_data::closing::close_server;
use ca_world_data::ends::ends_at;
use ca_world_data::entries::{push_entries, reserve_entries};
use ca_world_data::history::LogEntry;
use ca_world_data::joined::Joined;
use ca_world_data::server::ServerSide;
use ca_world_data::withdrawing::{withdraw, withdrawals};
use std::alloc::Global;

impl World {
    /// A server's end of a circuit is cut. Its puts that wait are withdrawn.
    pub fn cut_server(&mut self, circuit: usize) -> Result<(), Refusal>
        ensures { Does self.old (event.CutServer circuit) result self.new }
    {
        let Some(ends) = ends_at(&self.clients, &self.servers, &self.circuits, circuit) else {
            return Err(Refusal::BadEvent);
        };
        if !ends.server_open {
            return Err(Refusal::BadEvent);
        }
        cut_at(
            self.alloc,
            circuit,
            &mut self.servers[ends.server],
            &mut self.circuits[circuit],
            &mut self.server_logs,
        )
    }
}

// The end of a circuit at this server is cut.
fn cut_at(
    alloc: Global,
    circuit: usize,
    side: &mut ServerSide,
    joined: &mut Joined,
    logs: &mut Vec<Vec<LogEntry>>,
) -> Result<(), Refusal>
    requires { IsServing side.old.core joined.old.at_server }
    ensures { CutsServer
        circuit
        side.old
        joined.old
        (entries_in logs.old.items)
        result
        side.new
        joined.new
        (entries_in logs.new.items) }
{
    let told = withdrawals(alloc, circuit, &side.records)?;
    reserve_entries(logs, side.life, told.len())?;
    let left = cut_end(alloc, &mut side.core, joined.at_server);
    withdraw(circuit, &mut side.records);
    push_entries(logs, side.life, told);
    close_server(alloc, joined, left);
    Ok(())
}

// Cuts the open end under this handle, which a step reports at once: what it leaves.
fn cut_end(alloc: Global, core: &mut ServerCore, circuit: Handle) -> Pipe
    requires { IsServing core.old circuit }
    ensures left { result ≡ output_of (under core.old.circuits circuit) }
    ensures core { core.new ≡ cut_core circuit core.old }
{
    core.cut(circuit);
    let did = core.step(circuit);
    left_by(alloc, did)
}

// What an end left that a step reports.
pub(crate) fn left_by(alloc: Global, did: CoreStep) -> Pipe
    ensures { result ≡ left_in (stepped did) }
{
    match did {
        CoreStep::Closed(_, left) => left,
        CoreStep::Handled(_) => Pipe::new(alloc),
        CoreStep::NeedBytes => Pipe::new(alloc),
        CoreStep::OutputFull => Pipe::new(alloc),
    }
}
