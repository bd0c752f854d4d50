//! The host's repeater: it registers the clients of its host, and hands each datagram on to them,
//! so that all of them hear beacons at one port.
#![tactic(auto)]

mod address;
mod first;
mod laws;
mod outgoing;
mod repeater;

pub use address::UdpAddress;
pub use laws::filled_beacon_names_its_sender;
pub use outgoing::Outgoing;
pub use repeater::RepeaterCore;
