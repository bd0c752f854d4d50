//! The address of a member of the repeater: IPv4 address and UDP port.
ghost use Rattle.std.specs.Prelude.{◌≡◌};
ghost use Rattle.ca_repeat.specs.Addresses.{loopback, same};

/// An IPv4 address and a UDP port.
#[derive(Clone, Copy, Debug, PartialEq, Eq)]
pub struct UdpAddress {
    pub ip: u32,
    pub port: u16,
}

/// Whether both are one address and port.
pub(crate) fn is_same(a: UdpAddress, b: UdpAddress) -> bool
    ensures { result ≡ same a b }
{
    a.ip == b.ip && a.port == b.port
}

/// Whether the address is 127.x.x.x.
pub(crate) fn is_loopback(a: UdpAddress) -> bool
    ensures { result ≡ loopback a }
{
    a.ip / 0x100_0000 == 127
}
