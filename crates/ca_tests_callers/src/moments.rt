//! When something began, and how long ago that was.

use ca_text::Refusal;
use std::time::{Clock, Duration, Instant};

/// This moment.
pub(crate) fn began<R: Clock>(rt: &R) -> Result<Instant, Refusal> {
    match Instant::now(rt) {
        Ok(now) => Ok(now),
        Err(_) => Err(Refusal::Device),
    }
}

/// Whether less than n milliseconds have passed.
pub(crate) fn is_within<R: Clock>(rt: &R, began: &Instant, milliseconds: u64) -> bool {
    match began.elapsed(rt) {
        Ok(passed) => passed < Duration::from_millis(milliseconds),
        Err(_) => false,
    }
}
