//! The two clocks of a server: time stamps of writes, in nanoseconds since 1990, which never go
//! back; and moments in milliseconds, by which beacons are due and patience ends.
use std::time::{Clock, Duration};

// From 1970-01-01 to 1990-01-01, in seconds.
const TO_1990: u64 = 631_152_000;

const NANOS: u64 = 1_000_000_000;

// The last moment that a stamp can show.
const LAST: u64 = (1 << 32) * NANOS - 1;

/// The machine's time as a time stamp, in nanoseconds since 1990-01-01 00:00:00 UTC, if it is after
/// this one. A clock that was set back, or shows no later time, counts as one nanosecond more: so
/// no two stamps are equal, and none is before an earlier one.
pub(crate) fn stamp_after<R: Clock>(rt: &R, last: u64) -> u64 {
    nanos_now(rt).max(next_stamp(last))
}

/// The first time stamp after this one.
pub(crate) fn next_stamp(last: u64) -> u64 {
    last.saturating_add(1).min(LAST)
}

/// A time stamp as seconds, and nanoseconds.
pub(crate) fn parts_of(stamp: u64) -> (u32, u32) {
    let seconds = u32::try_from(stamp / NANOS).unwrap_or(u32::MAX);
    let nanos = u32::try_from(stamp % NANOS).unwrap_or(0);
    (seconds, nanos)
}

// Zero before 1990, and where no clock can be read.
fn nanos_now<R: Clock>(rt: &R) -> u64 {
    let Ok(time) = rt.since_1970() else {
        return 0;
    };
    let seconds = time.as_secs().saturating_sub(TO_1990);
    seconds
        .saturating_mul(NANOS)
        .saturating_add(u64::from(time.subsec_nanos()))
        .min(LAST)
}

/// The moment in milliseconds, from some start.
pub(crate) fn moment_now<R: Clock>(rt: &R) -> u64 {
    match rt.monotonic() {
        Ok(time) => milliseconds(time),
        Err(_) => 0,
    }
}

pub(crate) fn milliseconds(time: Duration) -> u64 {
    match u64::try_from(time.as_millis()) {
        Ok(all) => all,
        Err(_) => u64::MAX,
    }
}
