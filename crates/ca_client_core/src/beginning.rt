//! A client begins.
ghost use Rattle.std.specs.Prelude.{◌<◌};
ghost use Rattle.ca_model.specs.ClientEnds.{ClientBegins};

use crate::client::ClientCore;
use ca_beacon::BeaconTable;
use ca_client_tables::{Address, Channels, Searches, count_names, name_circuits};
use ca_monitor::Monitors;
use ca_requests::Requests;
use ca_text::{ARENA_SLOTS, PAYLOAD_LIMIT, Refusal};
use std::alloc::Global;

impl ClientCore {
    /// A client of this user at this host that did nothing yet. Searches go in datagrams to the
    /// servers, and on a circuit to each name server.
    ///
    /// Refused as NameLength if the user's or the host's name has no room in a message, as
    /// ArenaFull for more name servers than circuits may be, then as OutOfMemory.
    pub fn new(
        alloc: Global,
        user: Vec<u8>,
        host: Vec<u8>,
        servers: Vec<Address>,
        names: &[Address],
        now: u64,
    ) -> Result<ClientCore, Refusal>
        ensures { ClientBegins (record {
          peer = record { user = user.items; host = host.items };
          servers = servers.items;
          names = names.now;
          now = now;
        }) result }
    {
        if user.len() >= PAYLOAD_LIMIT {
            return Err(Refusal::NameLength);
        }
        if host.len() >= PAYLOAD_LIMIT {
            return Err(Refusal::NameLength);
        }
        if count_names(names) > ARENA_SLOTS {
            return Err(Refusal::ArenaFull);
        }
        let Ok((circuits, order)) = name_circuits(alloc, names) else {
            return Err(Refusal::OutOfMemory);
        };
        Ok(ClientCore {
            alloc,
            user,
            host,
            servers,
            moment: now,
            channels: Channels::new(alloc),
            requests: Requests::new(alloc),
            monitors: Monitors::new(alloc),
            circuits,
            lives: Vec::new(alloc),
            order,
            searches: Searches::new(alloc),
            beacons: BeaconTable::new(alloc),
        })
    }
}
