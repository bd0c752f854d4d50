//! What was sent on circuits is taken back.
ghost use Rattle.std.specs.Prelude.{◌≡◌};
ghost use Rattle.ca_client_core.specs.Marks.{circuit_restored, mark_at, undone};

use crate::client::ClientCore;
use ca_arena::Handle;
use ca_link::Mark;

/// A circuit as it was at some moment: what is sent on it later can be taken back.
#[derive(Clone, Copy, Debug, PartialEq, Eq)]
pub(crate) struct CircuitMark {
    pub(crate) circuit: Handle,
    pub(crate) mark: Mark,
}

impl ClientCore {
    // The mark of a circuit as it is now.
    pub(crate) fn mark(&self, circuit: Handle) -> CircuitMark
        ensures { result ≡ mark_at self.now circuit }
    {
        let mark = match self.circuits.by_handle(circuit) {
            Some(found) => found.mark(),
            None => Mark {
                waiting: 0,
                echoed: false,
            },
        };
        CircuitMark { circuit, mark }
    }

    // Takes back what was sent after these marks, from the last to the first.
    pub(crate) fn take_back(&mut self, marks: &[CircuitMark])
        ensures { self.new ≡ undone marks.now self.old }
    {
        let mut left = marks.len();
        'undoing: while left > 0 {
            left -= 1;
            self.restore(marks[left]);
        }
    }

    // A circuit is as it was at this mark.
    fn restore(&mut self, mark: CircuitMark)
        ensures { self.new ≡ circuit_restored mark self.old }
    {
        if let Some(found) = self.circuits.by_handle_mut(mark.circuit) {
            found.restore(mark.mark);
        }
    }
}
