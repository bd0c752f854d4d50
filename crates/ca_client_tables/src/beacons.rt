//! What a client makes of a beacon.
ghost use Rattle.std.specs.Prelude.{◌≡◌};
ghost use Rattle.std.specs.Net.Addr.{ipv4_bits};
ghost use Rattle.ca_beacon.specs.Table.{restored, server};
ghost use Rattle.ca_client_tables.specs.Receiving.{HearsBeacon, IsPort, beacon_host};

use crate::address::Address;
use ca_beacon::BeaconTable;
use ca_wire::Message;
use std::alloc::AllocError;
use std::net::Ipv4Addr;

/// A beacon that was heard: its server, the last number of that before, and
/// whether it is an anomaly.
#[derive(Clone, Copy, Debug)]
pub struct Beacon {
    /// The address of its server.
    pub address: Ipv4Addr,
    /// The port of its server.
    pub port: u16,
    /// The number of the last beacon from there before it.
    pub before: Option<u32>,
    /// Whether it says that a server came or came back.
    pub anomaly: bool,
}

// A beacon of the server at this port was heard; if it is an anomaly, all searches are still to
// begin again. Without memory nothing changes.
pub(crate) fn hear_beacon(
    beacons: &mut BeaconTable,
    from: Address,
    message: &Message,
    port: u16,
) -> Result<Beacon, AllocError>
    requires { port ≡ message.now.count }
    ensures { HearsBeacon beacons.old from message.now result beacons.new }
{
    let address = beacon_address(from, message);
    let before = beacons.last(address, port);
    match beacons.heard(address, port, message.p1()) {
        Ok(anomaly) => Ok(Beacon {
            address,
            port,
            before,
            anomaly,
        }),
        Err(_) => Err(AllocError),
    }
}

// A beacon that was heard is undone.
pub(crate) fn forget_beacon(beacons: &mut BeaconTable, beacon: Beacon)
    ensures { beacons.new
        ≡ restored
        beacons.old
        (server (ipv4_bits beacon.address) beacon.port)
        beacon.before }
{
    beacons.take_back(beacon.address, beacon.port, beacon.before);
}

// The address of a beacon's server: the one in it, or where the beacon came from.
fn beacon_address(from: Address, message: &Message) -> Ipv4Addr
    ensures { ipv4_bits result ≡ beacon_host from message.now }
{
    Ipv4Addr::from_bits(beacon_host(from, message))
}

// The address of a beacon's server as a number.
fn beacon_host(from: Address, message: &Message) -> u32
    ensures { result ≡ beacon_host from message.now }
{
    if message.p2() == 0 {
        from.host
    } else {
        message.p2()
    }
}

// The port of a beacon's server, if it has one.
pub(crate) fn beacon_port(message: &Message) -> Option<u16>
    ensures { IsPort message.now.count result }
{
    if message.count() < 0x1_0000 {
        return Some(message.count() as u16);
    }
    None
}
