//! A server restarts: it has a new core with the records that it was given, and a new log that
//! begins with them. The bytes that waited at its ends are left on the circuits.
ghost use Rattle.ca_model.specs.Events as event;
ghost use Rattle.ca_world_data.specs.Does.{Does};
ghost use Rattle.ca_world_data.specs.Restarts.{RestartsServer};

use crate::world::World;
use ca_text::Refusal;
use ca_world_data::closing::end_servers;
use ca_world_data::history::LogEntry;
use ca_world_data::joined::Joined;
use ca_world_data::lefts::server_lefts;
use ca_world_data::opening::{begin_again, begin_parts};
use ca_world_data::server::ServerSide;
use std::alloc::Global;

impl World {
    /// A server begins a new life, with its records as they were given. Its open ends end untold.
    pub fn server_restart(&mut self, server: usize) -> Result<(), Refusal>
        ensures { Does self.old (event.ServerRestart server) result self.new }
    {
        if server >= self.servers.len() {
            return Err(Refusal::BadEvent);
        }
        restart_server(
            self.alloc,
            self.moment,
            server,
            &mut self.servers[server],
            &mut self.circuits,
            &mut self.server_logs,
        )
    }
}

// A server begins a new life.
fn restart_server(
    alloc: Global,
    moment: u64,
    server: usize,
    side: &mut ServerSide,
    circuits: &mut Vec<Joined>,
    logs: &mut Vec<Vec<LogEntry>>,
) -> Result<(), Refusal>
    ensures { RestartsServer
        moment
        server
        side.old
        logs.old.items
        circuits.old.items
        result
        side.new
        logs.new.items
        circuits.new.items }
{
    let life = logs.len();
    let lefts = server_lefts(alloc, server, &side.core, circuits)?;
    let (core, records, log) = begin_parts(alloc, &side.setting, moment)?;
    logs.reserve(1)?;
    begin_again(alloc, side, core, records, life);
    logs.push_reserved(log);
    end_servers(alloc, server, circuits, lefts);
    Ok(())
}
