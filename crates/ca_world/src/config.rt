//! With which clients and servers a world begins. It has no two servers of one address, so that
//! each address leads to one.
ghost use Rattle.std.specs.Prelude.{◌≡◌, ◌++◌, ◌∷◌, [], OnErr, OnOk};
ghost use Rattle.ca_world_data.specs.Settings.{AddsServer};

use ca_world_data::settings::{ClientSetting, ServerSetting, has_address};
use std::alloc::{AllocError, Global};
use std::marker::Model;

/// The clients and the servers of a world. The servers have different addresses.
#[derive(Drop)]
pub struct Config {
    pub(crate) alloc: Global,
    pub(crate) clients: Vec<ClientSetting>,
    pub(crate) servers: Vec<ServerSetting>,
}

impl Model for Config {
    ghost use Rattle.ca_model.specs.World.{IsSetting, Setting};

    ghost Value = { Setting };

    ghost use Rattle.std.specs.Coded.{codes};
    ghost use Rattle.ca_dbr.specs.Codes.{elements_code};

    ghost coded = { Prim.hlevel (codes, elements_code) };

    ghost view = { λ c. record { clients = c.clients.items; servers = c.servers.items } };

    ghost invariant = { λ c.
        IsSetting (record { clients = c.clients.items; servers = c.servers.items }) };
}

impl Config {
    /// No clients and no servers.
    pub fn new(alloc: Global) -> Config
        ensures { result ≡ record { clients = []; servers = [] } }
    {
        Config {
            alloc,
            clients: Vec::new(alloc),
            servers: Vec::new(alloc),
        }
    }

    /// One client more. Without memory nothing changes.
    pub fn add_client(&mut self, client: ClientSetting) -> Result<(), AllocError>
        ensures ok { OnOk result (self.new
            ≡ record self.old { clients = self.old.clients ++ client ∷ [] }) }
        ensures err { OnErr result (self.new ≡ self.old) }
    {
        client.know();
        self.clients.push(client)?;
        Ok(())
    }

    /// One server more, unless another has its address: whether it was added. Without
    /// memory nothing changes.
    pub fn add_server(&mut self, server: ServerSetting) -> Result<bool, AllocError>
        ensures { AddsServer self.old server result self.new }
    {
        if has_address(&self.servers, server.address) {
            return Ok(false);
        }
        self.servers.push(server)?;
        Ok(true)
    }
}
