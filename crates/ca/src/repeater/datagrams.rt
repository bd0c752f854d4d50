//! `Datagrams`, a device that carries datagrams. What is proved of the repeater holds over any such
//! device, whatever comes and whatever it refuses.
ghost use Rattle.std.specs.Prelude.{◌≡◌, ◌≤◌, ℕ, List, IfOk, OnErr, OnOk, length, take};
ghost use Rattle.ca_repeat.specs.declared.address.UdpAddress.{UdpAddress};

use ca_link::Fault;
use ca_repeat::UdpAddress;

/// Where datagrams come from and go to.
pub trait Datagrams {
    // A datagram with these bytes may have come from this address between the first
    // state and the second.
    ghost came: { Self → UdpAddress → List ℕ → Self → Type 0 };

    // One with these bytes may have gone to this address.
    ghost went: { Self → UdpAddress → List ℕ → Self → Type 0 };

    // One with these bytes to this address may have been refused.
    ghost refuses: { Self → UdpAddress → List ℕ → Self → Type 0 };

    // A receive may have failed.
    ghost fails: { Self → Self → Type 0 };

    /// The address at which datagrams are received.
    fn address(&self) -> Result<UdpAddress, Fault>;

    /// Waits for a datagram, puts it at the front of the buffer, and returns how many bytes it has
    /// and where it came from.
    fn receive(&mut self, buffer: &mut [u8]) -> Result<(usize, UdpAddress), Fault>
        ensures within { IfOk result (λ r. r.0 ≤ length buffer.new) }
        ensures came { IfOk result (λ r. came self.old r.1 (take r.0 buffer.new) self.new) }
        ensures fails { OnErr result (fails self.old self.new) };

    /// Sends a datagram.
    fn send(&mut self, to: UdpAddress, bytes: &[u8]) -> Result<(), Fault>
        ensures went { OnOk result (went self.old to bytes.now self.new) }
        ensures refuses { OnErr result (refuses self.old to bytes.now self.new) };
}
