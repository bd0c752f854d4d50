//! A datagram that the repeater wants sent: its destination and its bytes.
ghost use Rattle.std.specs.Prelude.{◌≡◌};

use crate::address::UdpAddress;
use std::marker::Model;

/// A datagram that the repeater sends.
#[derive(Debug, Drop)]
pub struct Outgoing {
    to: UdpAddress,
    bytes: Vec<u8>,
}

impl Model for Outgoing {
    ghost use Rattle.ca_repeat.specs.Sent.{Sent};

    ghost Value = { Sent };

    ghost view = { λ o. record { to = o.to; bytes = o.bytes.items } };
}

impl Outgoing {
    /// The datagram of these bytes.
    pub(crate) fn new(to: UdpAddress, bytes: Vec<u8>) -> Outgoing
        ensures { result ≡ record { to = to; bytes = bytes.items } }
    {
        Outgoing { to, bytes }
    }

    /// Where it goes.
    pub fn to(&self) -> UdpAddress
        ensures { result ≡ self.now.to }
    {
        self.to
    }

    /// Its bytes.
    pub fn bytes(&self) -> &[u8]
        ensures { result.now ≡ self.now.bytes }
    {
        &self.bytes
    }
}
