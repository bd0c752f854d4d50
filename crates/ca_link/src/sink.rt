//! Where the bytes of a circuit go: the trait `Sink`, and any writer of the standard library as a
//! sink. A write takes all bytes or fails; calls and faults are counted.
ghost use Rattle.std.specs.Io.KnownBytes.{Appends};
ghost use Rattle.std.specs.Prelude.{◌≡◌, ◌+◌, ◌<◌, ◌^◌, ℕ, List, OnErr, OnOk, if◌then◌else◌, is_ok};
ghost use Rattle.std.specs.Prelude.{take};

use crate::source::Fault;
use std::io::Write;

/// Where bytes go.
pub trait Sink {
    // How often it was written to.
    ghost call_count: { Self → ℕ };

    // How many of these calls failed.
    ghost fault_count: { Self → ℕ };

    // A write that took these bytes may lead from the first state to the second.
    ghost takes: { Self → List ℕ → Self → Type 0 };

    /// How often it was written to.
    fn calls(&self) -> u64
        ensures { result ≡ call_count self.now };

    /// How many of these calls failed.
    fn faults(&self) -> u64
        ensures { result ≡ fault_count self.now };

    /// Takes all these bytes, or fails after some of them.
    fn write(&mut self, bytes: &[u8]) -> Result<(), Fault>
        requires calls { call_count self.old + 1 < 2 ^ 64 }
        requires faults { fault_count self.old + 1 < 2 ^ 64 }
        ensures calls { call_count self.new ≡ call_count self.old + 1 }
        ensures faults { fault_count self.new
            ≡ fault_count self.old + (if is_ok result then 0 else 1) }
        ensures taken { OnOk result (takes self.old bytes.now self.new) }
        ensures begun { OnErr result ((n : ℕ) × takes self.old (take n bytes.now) self.new) };
}

/// A writer of std as a sink.
#[derive(Debug, Drop)]
pub struct Writer<W: Write> {
    pub writer: W,
    pub calls: u64,
    pub faults: u64,
}

impl<W: Write> Writer<W> {
    /// One that was not written to yet.
    pub fn new(writer: W) -> Writer<W>
        ensures { result ≡ record { writer = writer; calls = 0; faults = 0 } }
    {
        Writer {
            writer,
            calls: 0,
            faults: 0,
        }
    }
}

impl<W: Write> Sink for Writer<W> {
    ghost use Rattle.std.specs.Io.KnownBytes.{Appends};

    ghost call_count = { λ s. s.calls };

    ghost fault_count = { λ s. s.faults };

    ghost takes = { λ s bytes t. Appends (W.contents s.writer) (W.contents t.writer) bytes };

    fn calls(&self) -> u64 {
        self.calls
    }

    fn faults(&self) -> u64 {
        self.faults
    }

    fn write(&mut self, bytes: &[u8]) -> Result<(), Fault> {
        self.calls += 1;
        match write_whole(&mut self.writer, bytes) {
            Ok(()) => Ok(()),
            Err(fault) => {
                self.faults += 1;
                Err(fault)
            }
        }
    }
}

/// Writes all these bytes, or fails after the first few.
fn write_whole<W: Write>(writer: &mut W, bytes: &[u8]) -> Result<(), Fault>
    ensures ok { OnOk result (Appends (W.contents writer.old) (W.contents writer.new) bytes.now) }
    ensures err { OnErr result ((n : ℕ)
        × Appends (W.contents writer.old) (W.contents writer.new) (take n bytes.now)) }
{
    let mut done = 0;
    while done < bytes.len() {
        match writer.write(&bytes[done..]) {
            Ok(0) => return Err(Fault),
            Ok(n) => done += n,
            Err(_) => return Err(Fault),
        }
    }
    Ok(())
}
