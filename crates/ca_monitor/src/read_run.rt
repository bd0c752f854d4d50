//! When a client sends EVENTS_OFF and EVENTS_ON: off after ten reads in a row that left bytes
//! waiting, on again after a read that left none.
ghost use Rattle.std.specs.Prelude.{◌≡◌};
ghost use Rattle.ca_monitor.specs.ReadRun.{after_read, no_reads, sent_by_read};

use ca_text::{Command, FLOW_READS};
use std::marker::Model;

/// How many reads of a circuit in a row left bytes waiting, and whether its client asked
/// for a pause of updates.
#[derive(Clone, Copy, Debug, PartialEq, Eq)]
pub struct ReadRun {
    reads: usize,
    events_off: bool,
}

impl Model for ReadRun {
    ghost use Rattle.std.specs.Prelude.{◌<◌};
    ghost use Rattle.ca_text.specs.Limits.{flow_reads};
    ghost use Rattle.ca_monitor.specs.ReadRun.{ReadRun};

    ghost Value = { ReadRun };

    ghost view = { λ r. record { reads = r.reads; events_off = r.events_off } };

    ghost invariant = { λ r. r.reads < flow_reads };

    ghost inverse = { λ r. record { reads = r.reads; events_off = r.events_off } };
}

impl ReadRun {
    /// Of a circuit that was not read yet.
    pub fn new() -> Self
        ensures { result ≡ no_reads }
    {
        ReadRun {
            reads: 0,
            events_off: false,
        }
    }

    /// One more read left bytes waiting, or none: what the client sends for it.
    pub fn after_read(&mut self, waiting: bool) -> Option<Command>
        ensures run { self.new ≡ after_read waiting self.old }
        ensures sends { result ≡ sent_by_read waiting self.old }
    {
        let was_off = self.events_off;
        if !waiting {
            *self = ReadRun::new();
            return if was_off {
                Some(Command::EventsOn)
            } else {
                None
            };
        }
        if was_off {
            return None;
        }
        if self.reads + 1 < FLOW_READS {
            self.reads += 1;
            return None;
        }
        *self = ReadRun {
            reads: 0,
            events_off: true,
        };
        Some(Command::EventsOff)
    }
}
