//! Addresses of the core as those of the system, and back: the core knows IPv4 alone.
use ca_client_core::Address;
use std::net::{IpAddr, Ipv4Addr, SocketAddr};

// An address, as the system has it.
pub(crate) fn to_system(address: Address) -> SocketAddr {
    SocketAddr::new(IpAddr::V4(Ipv4Addr::from_bits(address.host)), address.port)
}

// Where a datagram came from. Of an address that is none of IPv4 nothing is made.
pub(crate) fn from_system(address: SocketAddr) -> Option<Address> {
    match address.ip() {
        IpAddr::V4(ip) => Some(Address {
            host: ip.to_bits(),
            port: address.port(),
        }),
        IpAddr::V6(_) => None,
    }
}
