//! The settings of clients and servers from which a world begins: names, name servers, addresses,
//! access rules and records.
ghost use Rattle.std.specs.Prelude.{◌≡◌, map};
ghost use Rattle.ca_records.specs.Records.{AreApart};
ghost use Rattle.ca_world_data.specs.Settings.{AreRecords, IsClient, MakesClient, is_taken};
ghost use Rattle.ca_world_data.specs.Settings.{rule_of};

use ca_client_core::Address;
use ca_client_tables::count_names;
use ca_records::Records;
use ca_text::{ARENA_SLOTS, PAYLOAD_LIMIT, Refusal};
use std::marker::Model;

/// A client as it is given: its names, and the name servers that it is to use. Its names have room
/// in a message, and the name servers in a table.
#[derive(Drop)]
pub struct ClientSetting {
    pub user: Vec<u8>,
    pub host: Vec<u8>,
    pub name_servers: Vec<Address>,
}

impl Model for ClientSetting {
    ghost use Rattle.ca_model.specs.World as world;

    ghost Value = { world.ClientSetting };

    ghost use Rattle.ca_world_data.specs.Settings.{IsClient};

    ghost view = { λ c. record {
      peer = record { user = c.user.items; host = c.host.items };
      name_servers = c.name_servers.items;
    } };

    ghost invariant = { λ c. IsClient (record {
      peer = record { user = c.user.items; host = c.host.items };
      name_servers = c.name_servers.items;
    }) };
}

/// A rule of access: whom and which record it meets, where none stands for all, and
/// what it lets them do.
#[derive(Debug, Drop)]
pub struct RuleSetting {
    pub user: Option<Vec<u8>>,
    pub host: Option<Vec<u8>>,
    pub record_name: Option<Vec<u8>>,
    pub reads: bool,
    pub writes: bool,
}

/// A server as it is given: its address, its rules and its records, which have different names.
#[derive(Drop)]
pub struct ServerSetting {
    pub address: Address,
    pub rules: Vec<RuleSetting>,
    pub records: Records,
}

impl Model for ServerSetting {
    ghost use Rattle.ca_model.specs.World as world;

    ghost Value = { world.ServerSetting };

    ghost use Rattle.std.specs.Coded.{codes};
    ghost use Rattle.ca_dbr.specs.Codes.{elements_code};

    ghost coded = { Prim.hlevel (codes, elements_code) };

    ghost use Rattle.std.specs.Prelude.{map};
    ghost use Rattle.ca_world_data.specs.Settings.{IsServer, rule_of};

    ghost view = { λ s.
        record { address = s.address; rules = map rule_of s.rules.items; records = s.records } };

    ghost invariant = { λ s.
        IsServer
        (record { address = s.address; rules = map rule_of s.rules.items; records = s.records }) };
}

impl ClientSetting {
    /// A client of this user at this host, which is to use these name servers.
    ///
    /// Refused as NameLength if the user's or the host's name has no room in a message, then as
    /// ArenaFull for more name servers than circuits may be.
    pub fn new(
        user: Vec<u8>,
        host: Vec<u8>,
        name_servers: Vec<Address>,
    ) -> Result<ClientSetting, Refusal>
        ensures { MakesClient (record {
          peer = record { user = user.items; host = host.items };
          name_servers = name_servers.items;
        }) result }
    {
        if user.len() >= PAYLOAD_LIMIT {
            return Err(Refusal::NameLength);
        }
        if host.len() >= PAYLOAD_LIMIT {
            return Err(Refusal::NameLength);
        }
        if count_names(&name_servers) > ARENA_SLOTS {
            return Err(Refusal::ArenaFull);
        }
        Ok(ClientSetting {
            user,
            host,
            name_servers,
        })
    }

    /// Tells that it is well-formed. It does nothing.
    pub fn know(&self)
        ensures { IsClient self.now }
    {
        let _ = &self.user;
    }
}

impl ServerSetting {
    /// A server at this address, with these rules and records.
    pub fn new(address: Address, rules: Vec<RuleSetting>, records: Records) -> ServerSetting
        ensures { result
            ≡ record { address = address; rules = map rule_of rules.items; records = records } }
    {
        know_records(&records);
        ServerSetting {
            address,
            rules,
            records,
        }
    }
}

// Tells that they are records with different names. It does nothing.
fn know_records(records: &Records)
    ensures each { AreRecords records.now }
    ensures apart { AreApart records.now }
{
    for place in 0..records.len() {
        let _ = records.at(place).held();
    }
}

/// Whether one of these servers has this address.
pub fn has_address(servers: &[ServerSetting], address: Address) -> bool
    ensures { result ≡ is_taken address servers.now }
{
    servers.iter().any(|server| server.address.host == address.host
        && server.address.port == address.port)
}
