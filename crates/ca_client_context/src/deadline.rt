//! How much time a wait has left, and turns of 10 ms as a time.
use crate::lead::TURN;
use std::time::{Clock, Duration, Instant};

// When a wait is over.
#[derive(Clone, Copy, Drop)]
pub(crate) struct Deadline {
    began: Option<Instant>,
    most: Duration,
}

impl Deadline {
    pub(crate) fn new<R: Clock>(rt: &R, most: Duration) -> Deadline {
        Deadline {
            began: Instant::now(rt).ok(),
            most,
        }
    }

    // How much time is left: none once it is over, or if no clock can be read.
    pub(crate) fn left<R: Clock>(&self, rt: &R) -> Option<Duration> {
        let passed = self.began?.elapsed(rt).ok()?;
        if passed < self.most {
            Some(self.most.saturating_sub(passed))
        } else {
            None
        }
    }
}

// The time that n turns take.
pub(crate) fn time_of(turns: u64) -> Duration {
    Duration::from_millis(turns.saturating_mul(TURN))
}
