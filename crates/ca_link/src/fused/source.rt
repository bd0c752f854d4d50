//! How a source with a limit of calls reads. A fault of its own leaves the inner source and the
//! buffer unchanged.
ghost use Rattle.std.specs.Prelude.{◌≡◌, ◌+◌, ◌<◌, ◌≤◌, ◌^◌, IfOk, IsErr, if◌then◌else◌, is_ok};
ghost use Rattle.std.specs.Prelude.{length, take};
ghost use Rattle.ca_link.specs.Passing.{CanPass, IsPassed};

use crate::fused::Fused;
use crate::source::{Fault, Source};

impl<S: Source> Source for Fused<S> {
    ghost call_count = { λ s. s.calls };

    ghost fault_count = { λ s. s.faults };

    ghost gives = { λ s bytes t. S.gives s.inner bytes t.inner };

    fn calls(&self) -> u64 {
        self.calls
    }

    fn faults(&self) -> u64 {
        self.faults
    }

    /// Reads the source, while calls are passed on: a fault of its own touches neither the
    /// source nor the buffer.
    fn read(&mut self, buffer: &mut [u8]) -> Result<usize, Fault>
        requires room { 0 < length buffer.old }
        requires calls { self.old.calls + 1 < 2 ^ 64 }
        requires faults { self.old.faults + 1 < 2 ^ 64 }
        ensures calls { self.new.calls ≡ self.old.calls + 1 }
        ensures faults { self.new.faults ≡ self.old.faults + (if is_ok result then 0 else 1) }
        ensures within { IfOk result (λ n. n ≤ length buffer.new) }
        ensures given { IfOk result (λ n.
            S.gives self.old.inner (take n buffer.new) self.new.inner) }
        ensures blown { (CanPass self.old.passes (S.call_count self.old.inner)
            (S.fault_count self.old.inner) → ⊥)
            → IsErr result × (self.new.passes ≡ self.old.passes) × (self.new.inner ≡ self.old.inner)
            × (buffer.new ≡ buffer.old) }
        ensures passed { CanPass self.old.passes (S.call_count self.old.inner)
            (S.fault_count self.old.inner)
            → IsPassed S.call_count S.fault_count (if is_ok result then 0 else 1) self.old.passes
            self.old.inner self.new.passes self.new.inner }
    {
        self.calls += 1;
        let (calls, faults) = (self.inner.calls(), self.inner.faults());
        if !self.takes_pass(calls, faults) {
            self.faults += 1;
            return Err(Fault);
        }
        match self.inner.read(buffer) {
            Ok(n) => Ok(n),
            Err(fault) => {
                self.faults += 1;
                Err(fault)
            }
        }
    }
}
