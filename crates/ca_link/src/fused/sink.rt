//! How a sink with a limit of calls writes. A fault of its own leaves the inner sink unchanged.
ghost use Rattle.std.specs.Prelude.{◌≡◌, ◌⊎◌, ◌+◌, ◌<◌, ◌^◌, ℕ, [], IsErr, OnErr, OnOk};
ghost use Rattle.std.specs.Prelude.{if◌then◌else◌, is_ok, take};
ghost use Rattle.ca_link.specs.Passing.{CanPass, IsPassed};

use crate::fused::Fused;
use crate::sink::Sink;
use crate::source::Fault;

impl<S: Sink> Sink for Fused<S> {
    ghost use Rattle.std.specs.Prelude.{◌≡◌, ◌⊎◌, []};

    ghost call_count = { λ s. s.calls };

    ghost fault_count = { λ s. s.faults };

    ghost takes = { λ s bytes t. S.takes s.inner bytes t.inner
        ⊎ ((bytes ≡ []) × (s.inner ≡ t.inner)) };

    fn calls(&self) -> u64 {
        self.calls
    }

    fn faults(&self) -> u64 {
        self.faults
    }

    /// Writes to the sink, while calls are passed on: a fault of its own does not touch the sink.
    fn write(&mut self, bytes: &[u8]) -> Result<(), Fault>
        requires calls { self.old.calls + 1 < 2 ^ 64 }
        requires faults { self.old.faults + 1 < 2 ^ 64 }
        ensures calls { self.new.calls ≡ self.old.calls + 1 }
        ensures faults { self.new.faults ≡ self.old.faults + (if is_ok result then 0 else 1) }
        ensures taken { OnOk result (S.takes self.old.inner bytes.now self.new.inner) }
        ensures begun { OnErr result ((n : ℕ)
            × (S.takes self.old.inner (take n bytes.now) self.new.inner
            ⊎ ((take n bytes.now ≡ []) × (self.old.inner ≡ self.new.inner)))) }
        ensures blown { (CanPass self.old.passes (S.call_count self.old.inner)
            (S.fault_count self.old.inner) → ⊥)
            → IsErr result × (self.new.passes ≡ self.old.passes)
            × (self.new.inner ≡ self.old.inner) }
        ensures passed { CanPass self.old.passes (S.call_count self.old.inner)
            (S.fault_count self.old.inner)
            → IsPassed S.call_count S.fault_count (if is_ok result then 0 else 1) self.old.passes
            self.old.inner self.new.passes self.new.inner }
    {
        self.calls += 1;
        let (calls, faults) = (self.inner.calls(), self.inner.faults());
        if !self.takes_pass(calls, faults) {
            self.faults += 1;
            return Err(Fault);
        }
        match self.inner.write(bytes) {
            Ok(()) => Ok(()),
            Err(fault) => {
                self.faults += 1;
                Err(fault)
            }
        }
    }
}
