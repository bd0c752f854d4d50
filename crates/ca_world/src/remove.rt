//! A record of a server is removed: the puts that wait for it are withdrawn, and each circuit loses
//! its channels to it.
ghost use Rattle.std.specs.Prelude.{map};
ghost use Rattle.ca_model.specs.Events as event;
ghost use Rattle.ca_world_data.specs.Does.{Does};
ghost use Rattle.ca_world_data.specs.Opening.{entries_in};
ghost use Rattle.ca_world_data.specs.Reporting.{AreServed};
ghost use Rattle.ca_world_data.specs.Seen.{joined_of};
ghost use Rattle.ca_world_servers.specs.Removing.{AllSeated, RemovesAt};

use crate::judging::takes_removal;
use crate::world::World;
use ca_text::Refusal;
use ca_world_data::entries::push_entries;
use ca_world_data::history::LogEntry;
use ca_world_data::joined::Joined;
use ca_world_data::reporting::{report_ends, reserve_reports};
use ca_world_data::server::ServerSide;
use ca_world_servers::losing::{forget_record, lose_all, prepare_losses, removal_entries};
use std::alloc::Global;

impl World {
    /// A record of a server is removed. A removal that the server refuses changes nothing.
    pub fn remove(&mut self, server: usize, name: &[u8]) -> Result<(), Refusal>
        ensures { Does self.old (event.Remove server name.now) result self.new }
    {
        if server >= self.servers.len() {
            return Err(Refusal::BadEvent);
        }
        remove_at(
            self.alloc,
            server,
            &mut self.servers[server],
            &mut self.circuits,
            &mut self.server_logs,
            name,
        )
    }
}

// A record of this server is removed: that goes into the log, each circuit loses its channels to
// it, and ends that ended by it are reported. A removal that its core refuses changes nothing, and
// takes no memory.
fn remove_at(
    alloc: Global,
    server: usize,
    side: &mut ServerSide,
    circuits: &mut Vec<Joined>,
    logs: &mut Vec<Vec<LogEntry>>,
    name: &[u8],
) -> Result<(), Refusal>
    requires served { AreServed
        side.old.circuits.items
        (map joined_of circuits.old.items)
        server }
    requires seated { AllSeated server (map joined_of circuits.old.items) }
    ensures { RemovesAt
        server
        name.now
        side.old
        (map joined_of circuits.old.items)
        (entries_in logs.old.items)
        result
        side.new
        (map joined_of circuits.new.items)
        (entries_in logs.new.items) }
{
    if !takes_removal(&side.core, name) {
        return Ok(());
    }
    let told = removal_entries(alloc, name, &side.records)?;
    let leading = prepare_losses(alloc, server, &side.core, circuits, name)?;
    reserve_reports(logs, side.life, &side.records, told.len())?;
    match side.core.remove_record(name) {
        Ok(()) => {
            push_entries(logs, side.life, told);
            lose_all(alloc, server, &side.core, circuits, &leading);
            forget_record(&mut side.records, name);
            report_ends(alloc, server, side, circuits, logs);
            Ok(())
        }
        Err(_) => Ok(()),
    }
}
