//! What the client asks of a socket.

/// What a call of a socket did.
#[derive(Clone, Copy, Debug, PartialEq, Eq)]
pub enum Moved {
    /// This many bytes were moved.
    Count(usize),
    /// None could be moved yet.
    Later,
    /// It failed, or it is at its end.
    Fault,
}

/// A socket whose calls do not wait.
pub trait Socket {
    ghost use Rattle.std.specs.Prelude.{ℕ, List, ◌≡◌, ◌<◌, ◌^◌};

    // These bytes may have been read between the first state and the second.
    ghost gives: { Self → List ℕ → Self → Type 0 };

    // These bytes may have been written between the first state and the second.
    ghost takes: { Self → List ℕ → Self → Type 0 };

    // How many calls failed.
    ghost fault_count: { Self → ℕ };

    ghost use Rattle.ca_client.specs.Turns.{HasRead, HasWritten};

    /// Reads to the front of the buffer.
    fn read(&mut self, buffer: &mut [u8]) -> Moved
        requires { fault_count self.old < 2 ^ 63 }
        ensures { HasRead fault_count gives self.old result buffer.new self.new };

    /// Writes some of the bytes, from the first on.
    fn write(&mut self, bytes: &[u8]) -> Moved
        requires { fault_count self.old < 2 ^ 63 }
        ensures { HasWritten fault_count takes self.old bytes.now result self.new };

    /// How many calls failed.
    fn faults(&self) -> u64
        ensures { result ≡ fault_count self.now };
}
