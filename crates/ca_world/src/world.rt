//! `World`: the cores, and beside them the histories and logs that no core keeps. Its invariant
//! says that it is safe and legal, whatever has happened (`know`).
ghost use Rattle.std.specs.Prelude.{◌≡◌, IfOk};
ghost use Rattle.ca_model.specs.Worlds.{IsLegalWorld, IsSafeWorld};
ghost use Rattle.ca_model.specs.World.{IsSetting, opening};

use crate::config::Config;
use ca_world_data::client::ClientSide;
use ca_world_data::history::{Line, LogEntry};
use ca_world_data::joined::Joined;
use ca_world_data::opening::{begin_clients, begin_servers, server_addresses};
use ca_world_data::server::ServerSide;
use std::alloc::{AllocError, Global};
use std::marker::Model;

/// A world: its clients, its servers and its circuits, in the order in which they were accepted;
/// the logs of all lives of clients and of servers; and the moment handed in last.
#[derive(Drop)]
pub struct World {
    pub(crate) alloc: Global,
    pub(crate) clients: Vec<ClientSide>,
    pub(crate) servers: Vec<ServerSide>,
    pub(crate) circuits: Vec<Joined>,
    pub(crate) client_logs: Vec<Vec<Line>>,
    pub(crate) server_logs: Vec<Vec<LogEntry>>,
    pub(crate) moment: u64,
}

impl Model for World {
    ghost use Rattle.ca_model.specs.World.{World as Seen};
    ghost use Rattle.ca_world.specs.Whole.{seen};

    ghost Value = { Seen };

    ghost use Rattle.std.specs.Coded.{codes};
    ghost use Rattle.ca_client_core.specs.Codes.{servers_code};
    ghost use Rattle.ca_dbr.specs.Codes.{elements_code};

    ghost coded = { Prim.hlevel (codes, servers_code, elements_code) };

    ghost view = { seen };

    ghost use Rattle.ca_world.specs.Whole.{Stands};

    ghost invariant = { Stands };
}

impl World {
    /// The world before any event.
    pub fn new(config: Config) -> Result<World, AllocError>
        ensures opening { IfOk result (λ w. w ≡ opening config) }
        ensures setting { IsSetting config }
    {
        let alloc = config.alloc;
        let (servers, server_logs) = begin_servers(alloc, config.servers)?;
        let servers_at = server_addresses(alloc, &servers)?;
        let (clients, client_logs) = begin_clients(alloc, config.clients, &servers_at)?;
        Ok(World {
            alloc,
            clients,
            servers,
            circuits: Vec::new(alloc),
            client_logs,
            server_logs,
            moment: 0,
        })
    }
    /// Tells that what happened in it is safe and legal, whatever it was. It does nothing.
    pub fn know(&self)
        ensures safe { IsSafeWorld self.now }
        ensures legal { IsLegalWorld self.now }
    {
        let _ = &self.moment;
    }
}
