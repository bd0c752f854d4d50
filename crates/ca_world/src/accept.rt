//! A circuit that a client wants is connected: both cores get an end of it. The work is `accept_on`
//! of `ca_world_data`.
ghost use Rattle.ca_model.specs.Events as event;
ghost use Rattle.ca_world_data.specs.Does.{Does};

use crate::world::World;
use ca_text::Refusal;
use ca_world_data::accepting::{accept_on, first_served};

impl World {
    /// The first circuit that a client wants, of those whose address has a server, is made: the
    /// server accepts it, and the client sends what comes first on it. A server without room
    /// refuses it, and reports nothing.
    pub fn accept(&mut self, client: usize) -> Result<(), Refusal>
        ensures { Does self.old (event.Accept client) result self.new }
    {
        if client >= self.clients.len() {
            return Err(Refusal::BadEvent);
        }
        let first = first_served(&self.clients[client].core, &self.servers);
        let Some(found) = first else {
            return Err(Refusal::BadEvent);
        };
        let server = found.1;
        accept_on(
            self.alloc,
            client,
            &mut self.clients[client],
            server,
            &mut self.servers[server],
            &mut self.circuits,
            &mut self.client_logs,
            found.0.circuit,
        )
    }
}
