//! The system's UDP socket as `Datagrams`, with a way to find that a member's port is nobody's any
//! more. No contract says what it carries.
use crate::repeater::Datagrams;
use ca_link::Fault;
use ca_repeat::UdpAddress;
use std::net::{IpAddr, Ipv4Addr, Net, SocketAddr, UdpSocket};

/// The system's socket, of which nothing is known.
///
/// It is connected to nobody, so the system tells it nothing of a port that nobody has: it looks
/// whether it could have that port itself.
#[derive(Drop)]
pub struct RepeaterSocket<'a, R> {
    net: &'a R,
    socket: UdpSocket,
}

impl<'a, R: Net> RepeaterSocket<'a, R> {
    /// A socket that is bound.
    pub fn new(net: &'a R, socket: UdpSocket) -> RepeaterSocket<'a, R> {
        RepeaterSocket { net, socket }
    }

    /// A socket of this port on all addresses of the host: beacons come from other hosts too.
    pub fn bind(net: &'a R, port: u16) -> Result<RepeaterSocket<'a, R>, Fault> {
        match UdpSocket::bind(net, (Ipv4Addr::UNSPECIFIED, port)) {
            Ok(socket) => Ok(RepeaterSocket { net, socket }),
            Err(_) => Err(Fault),
        }
    }
}

impl<'a, R: Net> Datagrams for RepeaterSocket<'a, R> {
    ghost use Rattle.std.specs.Prelude.{⊤};

    ghost came = { λ _ _ _ _. ⊤ };

    ghost went = { λ _ _ _ _. ⊤ };

    ghost refuses = { λ _ _ _ _. ⊤ };

    ghost fails = { λ _ _. ⊤ };

    fn address(&self) -> Result<UdpAddress, Fault> {
        match self.socket.local_addr() {
            Ok(address) => address_of(address),
            Err(_) => Err(Fault),
        }
    }

    fn receive(&mut self, buffer: &mut [u8]) -> Result<(usize, UdpAddress), Fault> {
        let Ok((size, from)) = self.socket.recv_from(buffer) else {
            return Err(Fault);
        };
        match address_of(from) {
            Ok(address) => Ok((size, address)),
            Err(fault) => Err(fault),
        }
    }

    fn send(&mut self, to: UdpAddress, bytes: &[u8]) -> Result<(), Fault> {
        let address = (Ipv4Addr::from_bits(to.ip), to.port);
        if UdpSocket::bind(self.net, address).is_ok() {
            return Err(Fault);
        }
        match self.socket.send_to(bytes, address) {
            Ok(_) => Ok(()),
            Err(_) => Err(Fault),
        }
    }
}

/// An address of IPv4. Another is a fault: none comes to the port that the repeater binds.
fn address_of(address: SocketAddr) -> Result<UdpAddress, Fault> {
    match address.ip() {
        IpAddr::V4(ip) => Ok(UdpAddress {
            ip: ip.to_bits(),
            port: address.port(),
        }),
        IpAddr::V6(_) => Err(Fault),
    }
}
