//! The beacons that a client has received, by server. Begin at `heard`: it says whether a beacon is
//! an anomaly, that is, a sign of a new or restarted server.
ghost use Rattle.std.specs.Prelude.{◌≡◌, ◌+◌, ◌*◌, Some};
ghost use Rattle.std.specs.FinMap as map;
ghost use Rattle.std.specs.Net.Addr.{ipv4_bits};
ghost use Rattle.ca_beacon.specs.Table.{Hears, anomaly, restored, server};

use ca_text::{BEACON_SERVERS, Refusal};
use std::alloc::Global;
use std::collections::BTreeMap;
use std::marker::Model;
use std::net::Ipv4Addr;

/// The last beacon numbers of the servers that were heard, of 1,024 servers at most.
#[derive(Debug, Drop)]
pub struct BeaconTable {
    last: BTreeMap<u64, u32>,
}

impl Model for BeaconTable {
    ghost use Rattle.std.specs.Prelude.{ℕ};
    ghost use Rattle.std.specs.Ordering.{nat_cmp};
    ghost use Rattle.std.specs.FinMap as map;
    ghost use Rattle.std.specs.Coded.{coded_ℕ};

    ghost Value = { map.FinMap nat_cmp ℕ };

    ghost coded = { map.code coded_ℕ coded_ℕ };

    ghost use Rattle.ca_beacon.specs.Table.{IsTable};

    ghost view = { λ t. map.from_entries t.last.entries };

    ghost invariant = { λ t. IsTable t.last.entries };
}

impl BeaconTable {
    /// The table of a client that heard no server.
    pub fn new(alloc: Global) -> BeaconTable
        ensures { result ≡ map.empty }
    {
        BeaconTable {
            last: BTreeMap::new(alloc),
        }
    }

    /// Notes a beacon of the server at this address and TCP port, and says whether it is an
    /// anomaly: the first one of its server, or one whose number does not follow the last. A server
    /// beyond the 1,024 is an anomaly each time.
    ///
    /// A refusal changes nothing.
    pub fn heard(&mut self, address: Ipv4Addr, port: u16, number: u32) -> Result<bool, Refusal>
        ensures { Hears self.old (server (ipv4_bits address) port) number result self.new }
    {
        let server = key(address, port);
        let last = self.last.get(&server).copied();
        if last.is_none() && self.last.len() >= BEACON_SERVERS {
            return Ok(true);
        }
        self.last.insert(server, number)?;
        Ok(is_anomaly(last, number))
    }

    /// The number of the last beacon of this server, if one was heard and kept.
    pub fn last(&self, address: Ipv4Addr, port: u16) -> Option<u32>
        ensures { result ≡ map.get self.now (server (ipv4_bits address) port) }
    {
        self.last.get(&key(address, port)).copied()
    }

    /// Takes a beacon of this server back, whose last number was this one before, or none. No
    /// memory is asked for.
    pub fn take_back(&mut self, address: Ipv4Addr, port: u16, last: Option<u32>)
        ensures { self.new ≡ restored self.old (server (ipv4_bits address) port) last }
    {
        let server = key(address, port);
        match last {
            None => {
                self.last.remove(&server);
            }
            Some(number) => self.renumber(server, number),
        }
    }

    // The last number of a server that is kept is this one.
    fn renumber(&mut self, server: u64, number: u32)
        ensures { self.new ≡ restored self.old server (Some number) }
    {
        let last = self.last.get(&server).copied();
        if last.is_none() {
            return;
        }
        match self.last.insert(server, number) {
            Ok(_) => {}
            Err(_) => unreachable!(),
        }
    }
}

/// A server as one number.
fn key(address: Ipv4Addr, port: u16) -> u64
    ensures { result ≡ server (ipv4_bits address) port }
{
    u64::from(address.to_bits()) * 0x1_0000 + u64::from(port)
}

/// Whether a number does not follow the last one of its server.
fn is_anomaly(last: Option<u32>, number: u32) -> bool
    ensures { result ≡ anomaly last number }
{
    match last {
        None => true,
        Some(last) => number != last.wrapping_add(1),
    }
}
