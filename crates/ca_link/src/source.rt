//! Where the bytes of a circuit come from: the trait `Source`, its error `Fault`, and any reader of
//! the standard library as a source. Calls and faults are counted.
ghost use Rattle.std.specs.Prelude.{◌≡◌, ◌+◌, ◌<◌, ◌≤◌, ◌^◌, ℕ, List, IfOk, if◌then◌else◌, is_ok};
ghost use Rattle.std.specs.Prelude.{length, take};

use ca_text::Refusal;
use std::io::Read;

/// The device refused: a file, a stream or a socket.
#[derive(Clone, Copy, Debug, PartialEq, Eq)]
pub struct Fault;

impl From<Fault> for Refusal {
    ghost use Rattle.ca_text.specs.declared.refusal.Refusal.TheVariants.{Device};

    ghost from_gives = { λ _ e. e ≡ Device };

    fn from(_fault: Fault) -> Refusal {
        Refusal::Device
    }
}

/// Where bytes come from.
pub trait Source {
    // How often it was read.
    ghost call_count: { Self → ℕ };

    // How many of these calls failed.
    ghost fault_count: { Self → ℕ };

    // A read that gave these bytes may lead from the first state to the second.
    ghost gives: { Self → List ℕ → Self → Type 0 };

    /// How often it was read.
    fn calls(&self) -> u64
        ensures { result ≡ call_count self.now };

    /// How many of these calls failed.
    fn faults(&self) -> u64
        ensures { result ≡ fault_count self.now };

    /// Fills the front of the buffer, and says how many bytes came: none at the end of input.
    fn read(&mut self, buffer: &mut [u8]) -> Result<usize, Fault>
        requires room { 0 < length buffer.old }
        requires calls { call_count self.old + 1 < 2 ^ 64 }
        requires faults { fault_count self.old + 1 < 2 ^ 64 }
        ensures calls { call_count self.new ≡ call_count self.old + 1 }
        ensures faults { fault_count self.new
            ≡ fault_count self.old + (if is_ok result then 0 else 1) }
        ensures within { IfOk result (λ n. n ≤ length buffer.new) }
        ensures given { IfOk result (λ n. gives self.old (take n buffer.new) self.new) };
}

/// A reader of std as a source.
#[derive(Debug, Drop)]
pub struct Reader<R: Read> {
    pub reader: R,
    pub calls: u64,
    pub faults: u64,
}

impl<R: Read> Reader<R> {
    /// One that was not read yet.
    pub fn new(reader: R) -> Reader<R>
        ensures { result ≡ record { reader = reader; calls = 0; faults = 0 } }
    {
        Reader {
            reader,
            calls: 0,
            faults: 0,
        }
    }
}

impl<R: Read> Source for Reader<R> {
    ghost use Rattle.std.specs.Prelude.{◌≡◌, []};
    ghost use Rattle.std.specs.Io.KnownBytes.{Consumes, IsAtEnd};

    ghost call_count = { λ s. s.calls };

    ghost fault_count = { λ s. s.faults };

    ghost gives = { λ s bytes t.
        Consumes (R.remaining s.reader) (R.remaining t.reader) bytes
        × (bytes ≡ [] → IsAtEnd (R.remaining t.reader)) };

    fn calls(&self) -> u64 {
        self.calls
    }

    fn faults(&self) -> u64 {
        self.faults
    }

    fn read(&mut self, buffer: &mut [u8]) -> Result<usize, Fault> {
        self.calls += 1;
        match self.reader.read(buffer) {
            Ok(n) => Ok(n),
            Err(_) => {
                self.faults += 1;
                Err(Fault)
            }
        }
    }
}
