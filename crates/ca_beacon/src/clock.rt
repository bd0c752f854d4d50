//! When a server sends its next beacon, and with which number: at once, then after 20 milliseconds,
//! and after twice as long each time, up to 15 seconds.
ghost use Rattle.std.specs.Prelude.{◌≡◌, ◌≤◌, ◌↔◌, IsTrue};
ghost use Rattle.ca_beacon.specs.Clock.{fresh, sent_at};

use std::marker::Model;

/// Milliseconds from the first beacon to the second.
const FIRST_WAIT: u64 = 20;

/// Milliseconds between beacons, at most.
const LONGEST_WAIT: u64 = 15_000;

/// When a server's next beacon is due, and its number. Moments are milliseconds.
#[derive(Debug, Drop)]
pub struct BeaconClock {
    number: u32,
    wait: u64,
    due: u64,
}

impl Model for BeaconClock {
    ghost use Rattle.std.specs.Prelude.{◌≤◌};
    ghost use Rattle.ca_beacon.specs.Clock.{Clock};

    ghost Value = { Clock };

    ghost view = { λ c. record { number = c.number; wait = c.wait; due = c.due } };

    ghost invariant = { λ c. c.wait ≤ 15000 };
}

impl BeaconClock {
    /// The clock of a server that starts now: its first beacon is due at once.
    pub fn new(now: u64) -> BeaconClock
        ensures { result ≡ fresh now }
    {
        BeaconClock {
            number: 0,
            wait: FIRST_WAIT,
            due: now,
        }
    }

    /// Whether the next beacon is due.
    pub fn due(&self, now: u64) -> bool
        ensures { IsTrue result ↔ (self.now.due ≤ now) }
    {
        self.due <= now
    }

    /// The number of the beacon that is sent now.
    pub fn next(&mut self, now: u64) -> u32
        ensures number { result ≡ self.old.number }
        ensures later { self.new ≡ sent_at self.old now }
    {
        let number = self.number;
        self.number = number.wrapping_add(1);
        self.due = now.saturating_add(self.wait);
        self.wait = (2 * self.wait).min(LONGEST_WAIT);
        number
    }
}
