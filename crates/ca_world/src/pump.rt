//! Updates leave the queues of a server's end. Which they were is read back from the bytes that
//! came to its output, into memory that was made before.
ghost use Rattle.std.specs.Prelude.{map};
ghost use Rattle.ca_model.specs.Events as event;
ghost use Rattle.ca_world.specs.ServerPumps.{PumpsServer, PumpsUntil, UpdatesFit};
ghost use Rattle.ca_world_data.specs.Does.{Does};
ghost use Rattle.ca_world_data.specs.Opening.{entries_in};
ghost use Rattle.ca_world_data.specs.Seen.{joined_of};
ghost use Rattle.ca_world_data.specs.ServerCuts.{IsServing};
ghost use Rattle.ca_world_data.specs.Updates.{IsReadyToPump, WaitsAlike};

use crate::cut_server::left_by;
use crate::world::World;
use ca_server_core::ServerCore;
use ca_text::Refusal;
use ca_wire::Pipe;
use ca_world_data::closing::close_server;
use ca_world_data::ends::ends_at;
use ca_world_data::entries::{push_entries, reserve_entries};
use ca_world_data::history::LogEntry;
use ca_world_data::joined::Joined;
use ca_world_data::server::ServerSide;
use ca_world_data::updates::{reserve_updates, tell_updates};
use ca_world_data::withdrawing::{withdraw, withdrawals};
use std::alloc::Global;
use std::collections::VecDeque;

impl World {
    /// Updates leave the queues of a server's end of a circuit until none may; or its core ends it
    /// out of memory for the next.
    pub fn pump(&mut self, circuit: usize) -> Result<(), Refusal>
        ensures { Does self.old (event.Pump circuit) result self.new }
    {
        let Some(ends) = ends_at(&self.clients, &self.servers, &self.circuits, circuit) else {
            return Err(Refusal::BadEvent);
        };
        if !ends.server_open {
            return Err(Refusal::BadEvent);
        }
        pump_at(
            self.alloc,
            circuit,
            &mut self.servers[ends.server],
            &mut self.circuits[circuit],
            &mut self.server_logs,
        )
    }
}

// The end of a circuit at this server is pumped.
fn pump_at(
    alloc: Global,
    circuit: usize,
    side: &mut ServerSide,
    joined: &mut Joined,
    logs: &mut Vec<Vec<LogEntry>>,
) -> Result<(), Refusal>
    requires serves { IsServing side.old.core joined.old.at_server }
    requires fits { UpdatesFit side.old.core joined.old.at_server }
    requires alike { WaitsAlike side.old.core (joined_of joined.old) }
    ensures { PumpsServer
        circuit
        side.old
        joined.old
        (entries_in logs.old.items)
        result
        side.new
        joined.new
        (entries_in logs.new.items) }
{
    let told = withdrawals(alloc, circuit, &side.records)?;
    reserve_entries(logs, side.life, told.len())?;
    let rooms = reserve_updates(alloc, &side.core, joined)?;
    let Some(left) = pump_end(alloc, &mut side.core, joined, rooms) else {
        return Ok(());
    };
    withdraw(circuit, &mut side.records);
    push_entries(logs, side.life, told);
    close_server(alloc, joined, left);
    Ok(())
}

// Pumps the open end of a circuit, and tells the updates, in the memory for them. What it leaves,
// if it ended.
fn pump_end(
    alloc: Global,
    core: &mut ServerCore,
    joined: &mut Joined,
    rooms: Vec<VecDeque<Vec<u8>>>,
) -> Option<Pipe>
    requires serves { IsServing core.old joined.old.at_server }
    requires fits { UpdatesFit core.old joined.old.at_server }
    requires alike { WaitsAlike core.old (joined_of joined.old) }
    requires ready { IsReadyToPump core.old joined.old (map (λ own. own.items) rooms.items) }
    ensures { PumpsUntil core.old (joined_of joined.old) result core.new (joined_of joined.new) }
{
    let at_server = joined.at_server;
    let waited = core.out_bytes(at_server).len();
    core.pump(at_server);
    if core.is_open(at_server) {
        tell_updates(&core.out_bytes(at_server)[waited..], joined, rooms);
        return None;
    }
    let did = core.step(at_server);
    let left = left_by(alloc, did);
    tell_updates(&left.bytes()[waited..], joined, rooms);
    Some(left)
}
