//! When a channel is searched next: at once, then after 32 milliseconds, and after twice as long
//! each time, up to five minutes.
ghost use Rattle.std.specs.Prelude.{◌≡◌, nat_le};
ghost use Rattle.ca_search.specs.Clock.{fresh, searched_at};

use std::marker::Model;

/// Milliseconds from the first search to the second.
const FIRST_WAIT: u64 = 32;

/// Milliseconds between searches, at most.
const LONGEST_WAIT: u64 = 300_000;

/// When a channel is searched next. Moments are milliseconds.
#[derive(Debug, Drop)]
pub(crate) struct SearchClock {
    wait: u64,
    due: u64,
}

impl Model for SearchClock {
    ghost use Rattle.std.specs.Prelude.{◌≤◌};
    ghost use Rattle.ca_search.specs.Clock.{Clock};

    ghost Value = { Clock };

    ghost view = { λ c. record { wait = c.wait; due = c.due } };

    ghost invariant = { λ c. c.wait ≤ 300000 };
}

impl SearchClock {
    /// Of a channel that is searched from now on: the first search is due at once.
    pub(crate) fn new(now: u64) -> SearchClock
        ensures { result ≡ fresh now }
    {
        SearchClock {
            wait: FIRST_WAIT,
            due: now,
        }
    }

    /// Whether a search is due.
    pub(crate) fn is_due(&self, now: u64) -> bool
        ensures { result ≡ nat_le self.now.due now }
    {
        self.due <= now
    }

    /// Counts a search that is made now.
    pub(crate) fn search(&mut self, now: u64)
        ensures { self.new ≡ searched_at self.old now }
    {
        self.due = now.saturating_add(self.wait);
        self.wait = (2 * self.wait).min(LONGEST_WAIT);
    }
}
