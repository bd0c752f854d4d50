//! A socket in memory.
use ca_client::{Moved, Socket};

/// What it has to give, what it was given, and after how many calls it fails.
#[derive(Drop)]
pub(crate) struct Tape {
    /// What it gives, in order.
    pub(crate) incoming: Vec<u8>,
    /// How many of these bytes it gave.
    pub(crate) at: usize,
    /// What it was given.
    pub(crate) outgoing: Vec<u8>,
    /// How many more calls do not fail.
    pub(crate) calls_left: u64,
    /// How many calls failed.
    pub(crate) failed: u64,
}

impl Socket for Tape {
    ghost use Rattle.std.specs.Prelude.{◌≡◌, ◌++◌, ◌+◌, length, slice_range};

    // The bytes are next on the tape, and the place goes on after them.
    ghost gives = { λ a bytes b.
        (b.at ≡ a.at + length bytes) × (b.incoming.items ≡ a.incoming.items)
        × (bytes ≡ slice_range a.incoming.items a.at b.at)
        × (b.outgoing.items ≡ a.outgoing.items) };

    ghost takes = { λ a bytes b.
        (b.outgoing.items ≡ a.outgoing.items ++ bytes) × (b.at ≡ a.at)
        × (b.incoming.items ≡ a.incoming.items) };

    ghost fault_count = { λ t. t.failed };

    fn read(&mut self, buffer: &mut [u8]) -> Moved {
        if self.calls_left == 0 {
            self.failed += 1;
            return Moved::Fault;
        }
        self.calls_left -= 1;
        if self.at >= self.incoming.len() {
            return Moved::Later;
        }
        let count = buffer.len().min(self.incoming.len() - self.at);
        let end = self.at + count;
        buffer[..count].copy_from_slice(&self.incoming.as_slice()[self.at..end]);
        self.at = end;
        Moved::Count(count)
    }

    fn write(&mut self, bytes: &[u8]) -> Moved {
        if self.calls_left == 0 {
            self.failed += 1;
            return Moved::Fault;
        }
        self.calls_left -= 1;
        match self.outgoing.extend_from_slice(bytes) {
            Ok(()) => Moved::Count(bytes.len()),
            Err(_) => Moved::Later,
        }
    }

    fn faults(&self) -> u64 {
        self.failed
    }
}
