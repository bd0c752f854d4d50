//! The time that a tool has for all of its waits together (`--turns`), in turns of 10 ms.
use ca_text::Refusal;
use std::time::{Clock, Duration, Instant};

/// Milliseconds of a turn.
pub(crate) const TURN: u64 = 10;

/// A tool's turns, which go by from when they were made.
#[derive(Clone, Copy)]
pub(crate) struct Turns {
    began: Instant,
    most: u64,
}

impl Turns {
    /// Refused as Device if the system's clock cannot be read.
    pub(crate) fn new<R: Clock>(rt: &R, most: u64) -> Result<Turns, Refusal> {
        match Instant::now(rt) {
            Ok(began) => Ok(Turns { began, most }),
            Err(_) => Err(Refusal::Device),
        }
    }

    /// The time that is left.
    pub(crate) fn left<R: Clock>(&self, rt: &R) -> Duration {
        let most = Duration::from_millis(self.most.saturating_mul(TURN));
        match self.began.elapsed(rt) {
            Ok(passed) => most.saturating_sub(passed),
            Err(_) => Duration::ZERO,
        }
    }
}
