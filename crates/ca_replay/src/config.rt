//! The configuration of a world from the clients and servers of a script.
ghost use Rattle.std.specs.Prelude.{◌≡◌, IfErr, IfOk};
ghost use Rattle.ca_text.specs.declared.refusal.Refusal.TheVariants.{OutOfMemory};
ghost use Rattle.ca_replay.specs.Settings.{AreFresh};

use ca_text::Refusal;
use ca_world::{ClientSetting, Config, ServerSetting};
use std::alloc::Global;

/// The clients and the servers of a world, which have addresses of their own.
/// Refused as OutOfMemory.
pub fn config_of(
    alloc: Global,
    clients: Vec<ClientSetting>,
    servers: Vec<ServerSetting>,
) -> Result<Config, Refusal>
    requires { AreFresh servers.items }
    ensures ok { IfOk result (λ c.
        c ≡ record { clients = clients.items; servers = servers.items }) }
    ensures err { IfErr result (λ e. e ≡ OutOfMemory) }
{
    let mut config = Config::new(alloc);
    for client in clients {
        config.add_client(client)?;
    }
    for server in servers {
        if !config.add_server(server)? {
            return Err(Refusal::BadText);
        }
    }
    Ok(config)
}
