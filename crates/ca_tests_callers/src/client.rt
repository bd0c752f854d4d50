//! What a client begins with.

use ca_client_context::Setting;
use ca_client_core::Address;
use ca_text::Refusal;
use std::alloc::Global;
use std::net::Ipv4Addr;

/// A client of the server at this port of this host.
pub(crate) fn setting(alloc: Global, port: u16) -> Result<Setting, Refusal> {
    let host = Ipv4Addr::LOCALHOST.to_bits();
    Ok(Setting {
        user: Vec::from_slice(alloc, b"ca")?,
        host: Vec::from_slice(alloc, b"localhost")?,
        servers: Vec::from_slice(alloc, &[Address { host, port }])?,
        names: Vec::new(alloc),
        repeater: None,
    })
}
