//! The address of a server.
use std::marker::Model;

/// An IPv4 address and a port.
#[derive(Clone, Copy, Debug, PartialEq, Eq)]
pub struct Address {
    /// The address, its first number in the highest byte.
    pub host: u32,
    /// The TCP or UDP port.
    pub port: u16,
}

impl Model for Address {
    ghost use Rattle.ca_model.specs.Ends as ends;

    ghost Value = { ends.Address };

    ghost view = { λ a. record { host = a.host; port = a.port } };

    ghost inverse = { λ a. record { host = a.host; port = a.port } };
}
