//! A world that can be looked at, and in which nothing happens any more. It has a type of its own,
//! because a run may end when only some of the clients had a moment.
ghost use Rattle.std.specs.Prelude.{◌≡◌, length, map};
ghost use Rattle.ca_laws_parts.specs.Worlds.{AllStream};
ghost use Rattle.ca_model.specs.Worlds.{IsLegalWorld, IsSafeWorld};
ghost use Rattle.ca_world_data.specs.Logs.{lines_in};
ghost use Rattle.ca_world_data.specs.Seen.{client_of};

use crate::world::World;
use ca_world_data::client::ClientSide;
use ca_world_data::history::{Line, LogEntry};
use ca_world_data::joined::Joined;
use ca_world_data::server::ServerSide;
use std::marker::Model;

/// A world where a run has ended: after its last event, before one that was refused, or
/// within a moment, which a beginning of its clients had and the next one had no memory for.
/// Nothing more happens in it.
#[derive(Drop)]
pub struct Stopped {
    pub(crate) clients: Vec<ClientSide>,
    pub(crate) servers: Vec<ServerSide>,
    pub(crate) circuits: Vec<Joined>,
    pub(crate) client_logs: Vec<Vec<Line>>,
    pub(crate) server_logs: Vec<Vec<LogEntry>>,
    pub(crate) moment: u64,
}

impl Model for Stopped {
    ghost use Rattle.ca_model.specs.World.{World as Seen};
    ghost use Rattle.ca_world.specs.Halted.{halted};

    ghost Value = { Seen };

    ghost use Rattle.std.specs.Coded.{codes};
    ghost use Rattle.ca_client_core.specs.Codes.{servers_code};
    ghost use Rattle.ca_dbr.specs.Codes.{elements_code};

    ghost coded = { Prim.hlevel (codes, servers_code, elements_code) };

    ghost view = { halted };

    ghost use Rattle.ca_world.specs.Halted.{HasStopped};

    ghost invariant = { λ w. HasStopped (halted w) };
}

impl World {
    /// Ends the run here.
    pub fn stop(self) -> Stopped
        ensures { result ≡ self }
    {
        let World {
            alloc: _,
            clients,
            servers,
            circuits,
            client_logs,
            server_logs,
            moment,
        } = self;
        Stopped {
            clients,
            servers,
            circuits,
            client_logs,
            server_logs,
            moment,
        }
    }
}

impl Stopped {
    /// Tells that what happened in it is safe and legal, whatever it was, and that the bytes on its
    /// circuits are those of the messages that were sent and not read. It does nothing.
    pub fn know(&self)
        ensures safe { IsSafeWorld self.now }
        ensures legal { IsLegalWorld self.now }
        ensures bytes { AllStream self.now }
    {
        let _ = &self.moment;
    }

    /// Its clients.
    pub fn clients(&self) -> &[ClientSide]
        ensures { map client_of result.now ≡ self.now.clients }
    {
        &self.clients
    }

    /// How many circuits there are, with those whose ends have ended.
    pub fn circuits(&self) -> u64
        ensures { result ≡ length self.now.circuits }
    {
        self.circuits.len() as u64
    }

    /// The logs of all lives of clients.
    pub fn client_logs(&self) -> &[Vec<Line>]
        ensures { lines_in result.now ≡ self.now.client_logs }
    {
        &self.client_logs
    }
}
