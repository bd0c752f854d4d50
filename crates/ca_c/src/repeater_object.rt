//! A repeater as C has it: its core, and what a call made that C has not taken yet.

ghost use Rattle.std.specs.Prelude.{◌≡◌};
ghost use Rattle.ca_c.specs.Repeaters.{DoesDatagram, DoesOutgoing, DoesRefused, place_of};
ghost use Rattle.ca_c.specs.Repeaters.{c_address};

use crate::answers::{filled, refused};
use crate::client_structs::CvzAddress;
use ca_repeat::{Outgoing, RepeaterCore, UdpAddress};

/// A repeater's core, with what C may take of its last datagram.
#[derive(Drop)]
pub struct RepeaterObject {
    pub core: RepeaterCore,
    /// What is to be sent for the datagram that was given last, and how many of them C has taken.
    pub sends: Vec<Outgoing>,
    pub taken: usize,
}

impl RepeaterObject {
    #[tactic(auto, unfolding(crate::specs::Repeaters::DoesDatagram))]
    pub(crate) fn datagram(&mut self, from: CvzAddress, bytes: &[u8]) -> i32
        ensures { DoesDatagram self.old result self.new from bytes.now }
    {
        match self.core.receive(place(from), bytes) {
            Ok(sends) => {
                self.sends = sends;
                self.taken = 0;
                0
            }
            Err(refusal) => refused(refusal),
        }
    }

    pub(crate) fn outgoing(&mut self, to: &mut CvzAddress, room: &mut [u8]) -> usize
        ensures { DoesOutgoing self.old result self.new to.old to.new room.old room.new }
    {
        let Some(next) = self.sends.get(self.taken) else {
            return 0;
        };
        *to = c_address(next.to());
        let n = filled(next.bytes(), room);
        self.taken += 1;
        n
    }

    pub(crate) fn refused(&mut self, to: CvzAddress) -> i32
        ensures { DoesRefused self.old result self.new to }
    {
        self.core.refused(place(to));
        0
    }
}

fn place(given: CvzAddress) -> UdpAddress
    ensures { result ≡ place_of given }
{
    UdpAddress {
        ip: given.host,
        port: given.port,
    }
}

fn c_address(at: UdpAddress) -> CvzAddress
    ensures { result ≡ c_address at }
{
    CvzAddress {
        host: at.ip,
        port: at.port,
    }
}
