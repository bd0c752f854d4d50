//! The state of a client.
use ca_arena::Handle;
use ca_beacon::BeaconTable;
use ca_client_tables::{Address, Channels, ClientCircuit, LiveChannels, Searches};
use ca_ids::HeldTable;
use ca_monitor::Monitors;
use ca_requests::Requests;
use std::alloc::Global;
use std::marker::Model;

/// A client: its channels, requests and subscriptions, and its end of each circuit.
///
/// Moments are milliseconds; one earlier than the last counts as the last. A call that is refused
/// leaves it as it was.
#[derive(Drop)]
pub struct ClientCore {
    pub(crate) alloc: Global,
    pub(crate) user: Vec<u8>,
    pub(crate) host: Vec<u8>,
    /// Where searches go in datagrams.
    pub(crate) servers: Vec<Address>,
    pub(crate) moment: u64,
    pub(crate) channels: Channels,
    pub(crate) requests: Requests,
    pub(crate) monitors: Monitors,
    pub(crate) circuits: HeldTable<ClientCircuit>,
    /// The channels that are live on each circuit, by its index.
    pub(crate) lives: Vec<LiveChannels>,
    /// The circuits of name servers, in the order of their list, then the others, in the order in
    /// which they came to be wanted.
    pub(crate) order: Vec<Handle>,
    /// The channels that are searched for, or were found, by CID, in the order in
    /// which they were opened.
    pub(crate) searches: Searches,
    pub(crate) beacons: BeaconTable,
}

impl Model for ClientCore {
    ghost use Rattle.ca_model.specs.Client.{Client};

    ghost Value = { Client };

    ghost use Rattle.std.specs.Coded.{codes};
    ghost use Rattle.ca_client_core.specs.Codes.{servers_code};

    ghost coded = { Prim.hlevel (codes, servers_code) };

    ghost use Rattle.ca_client_tables.specs.Sound.{IsSound};

    ghost view = { λ c. record {
      peer = record { user = c.user.items; host = c.host.items };
      servers = c.servers.items;
      moment = c.moment;
      channels = c.channels;
      requests = c.requests.table;
      subscriptions = c.monitors;
      circuits = c.circuits;
      order = c.order.items;
      issued = c.requests.order;
      searches = c.searches.entries;
      beacons = c.beacons;
    } };

    ghost invariant = { λ c.
        IsSound
        c.channels
        c.searches.entries
        c.requests.table
        c.monitors
        c.circuits
        c.lives.items };
}
