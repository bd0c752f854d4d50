//! A source or sink that fails on purpose: it passes a given number of calls on, and then each call
//! is a fault. Tests use it to lose a circuit at any moment.
ghost use Rattle.std.specs.Prelude.{◌≡◌, ◌↔◌, ◌-◌, IsTrue, if◌then◌else◌};
ghost use Rattle.ca_link.specs.Passing.{CanPass};

mod sink;
mod source;

/// A source or a sink that passes its first calls on, and then fails each.
#[derive(Debug, Drop)]
pub struct Fused<T> {
    pub inner: T,
    /// Calls that are still passed on.
    pub passes: u64,
    pub calls: u64,
    pub faults: u64,
}

impl<T> Fused<T> {
    /// One that passes n calls on.
    pub fn new(inner: T, passes: u64) -> Fused<T>
        ensures { result ≡ record { inner = inner; passes = passes; calls = 0; faults = 0 } }
    {
        Fused {
            inner,
            passes,
            calls: 0,
            faults: 0,
        }
    }

    // Whether the next call is passed on, to what counted n calls and faults. It is one less then.
    fn takes_pass(&mut self, calls: u64, faults: u64) -> bool
        ensures passed { IsTrue result ↔ CanPass self.old.passes calls faults }
        ensures left { self.new
            ≡ record self.old { passes = self.old.passes - (if result then 1 else 0) } }
    {
        if self.passes == 0 || calls == u64::MAX || faults == u64::MAX {
            return false;
        }
        self.passes -= 1;
        true
    }
}
