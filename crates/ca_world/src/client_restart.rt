//! A client restarts: it has a new core, a new log and no names, and its ends have ended, each with
//! the bytes that waited there left on its circuit.
ghost use Rattle.std.specs.Prelude.{◌≡◌, []};
ghost use Rattle.ca_model.specs.Events as event;
ghost use Rattle.ca_model.specs.World.{no_names};
ghost use Rattle.ca_world_data.specs.Does.{Does};
ghost use Rattle.ca_world_data.specs.Restarts.{RestartsClient};
ghost use Rattle.ca_world_data.specs.Seen.{client_of};

use crate::world::World;
use ca_client_core::{Address, ClientCore};
use ca_text::Refusal;
use ca_world_data::client::ClientSide;
use ca_world_data::closing::end_clients;
use ca_world_data::history::Line;
use ca_world_data::joined::Joined;
use ca_world_data::lefts::client_lefts;
use ca_world_data::opening::{begin_client_core, no_names, server_addresses};
use std::alloc::Global;

impl World {
    /// A client begins a new life, with nothing but what it was given. Its open ends end untold.
    pub fn client_restart(&mut self, client: usize) -> Result<(), Refusal>
        ensures { Does self.old (event.ClientRestart client) result self.new }
    {
        if client >= self.clients.len() {
            return Err(Refusal::BadEvent);
        }
        let Ok(servers) = server_addresses(self.alloc, &self.servers) else {
            return Err(Refusal::OutOfMemory);
        };
        restart_client(
            self.alloc,
            self.moment,
            client,
            &mut self.clients[client],
            &servers,
            &mut self.circuits,
            &mut self.client_logs,
        )
    }
}

// A client begins a new life, which knows servers at these addresses.
fn restart_client(
    alloc: Global,
    moment: u64,
    client: usize,
    side: &mut ClientSide,
    servers: &[Address],
    circuits: &mut Vec<Joined>,
    logs: &mut Vec<Vec<Line>>,
) -> Result<(), Refusal>
    ensures { RestartsClient
        servers.now
        moment
        client
        side.old
        logs.old.items
        circuits.old.items
        result
        side.new
        logs.new.items
        circuits.new.items }
{
    let life = logs.len();
    let lefts = client_lefts(alloc, client, &side.core, circuits)?;
    let core = begin_client_core(alloc, &side.setting, servers, moment)?;
    logs.reserve(1)?;
    begin_again(alloc, side, core, life);
    logs.push_reserved(Vec::new(alloc));
    end_clients(client, circuits, lefts);
    Ok(())
}

// The client goes on with this core, in this life.
fn begin_again(alloc: Global, side: &mut ClientSide, core: ClientCore, life: usize)
    ensures side { client_of side.new
        ≡ record { setting = side.old.setting; core = core; life = life; names = no_names } }
    ensures circuits { side.new.circuits.items ≡ [] }
{
    side.core = core;
    side.life = life;
    side.names = no_names(alloc);
    side.circuits = Vec::new(alloc);
}
