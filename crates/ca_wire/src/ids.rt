//! The numbers by which the ends of a circuit name things to each other, a type for each
//! (section "Virtual Circuit").
ghost use Rattle.std.specs.Prelude.{◌≡◌, ◌<◌, ◌≤◌, MatchResult};
ghost use Rattle.ca_text.specs.Limits.{priority_limit};
ghost use Rattle.ca_text.specs.declared.refusal.Refusal.TheVariants.{BadPriority};

use ca_text::{PRIORITY_LIMIT, Refusal};
use std::marker::Model;

/// The server's id of a channel (SID).
#[derive(Clone, Copy, Debug, PartialEq, Eq)]
pub struct Sid(u32);

impl Model for Sid {
    ghost use Rattle.std.specs.Prelude.{ℕ};

    ghost Value = { ℕ };

    ghost view = { λ i. i.0 };

    ghost inverse = { λ n. record { 0 = n } };
}

impl Sid {
    /// The one of this number.
    pub fn new(number: u32) -> Sid
        ensures { result ≡ number }
    {
        Sid(number)
    }

    /// Its number, as it goes out.
    pub fn number(self) -> u32
        ensures { result ≡ self }
    {
        let Sid(number) = self;
        number
    }
}

/// The client's id of a channel (CID).
#[derive(Clone, Copy, Debug, PartialEq, Eq)]
pub struct Cid(u32);

impl Model for Cid {
    ghost use Rattle.std.specs.Prelude.{ℕ};

    ghost Value = { ℕ };

    ghost view = { λ i. i.0 };

    ghost inverse = { λ n. record { 0 = n } };
}

impl Cid {
    /// The one of this number.
    pub fn new(number: u32) -> Cid
        ensures { result ≡ number }
    {
        Cid(number)
    }

    /// Its number, as it goes out.
    pub fn number(self) -> u32
        ensures { result ≡ self }
    {
        let Cid(number) = self;
        number
    }
}

/// The client's id of a request (IOID) or of a subscription.
#[derive(Clone, Copy, Debug, PartialEq, Eq)]
pub struct Ioid(u32);

impl Model for Ioid {
    ghost use Rattle.std.specs.Prelude.{ℕ};

    ghost Value = { ℕ };

    ghost view = { λ i. i.0 };

    ghost inverse = { λ n. record { 0 = n } };
}

impl Ioid {
    /// The one of this number.
    pub fn new(number: u32) -> Ioid
        ensures { result ≡ number }
    {
        Ioid(number)
    }

    /// Its number, as it goes out.
    pub fn number(self) -> u32
        ensures { result ≡ self }
    {
        let Ioid(number) = self;
        number
    }
}

/// The priority of a circuit, from 0 to 99.
#[derive(Clone, Copy, Debug, PartialEq, Eq)]
pub struct Priority(u16);

impl Model for Priority {
    ghost use Rattle.std.specs.Prelude.{ℕ, ◌≤◌};
    ghost use Rattle.ca_text.specs.Limits.{priority_limit};

    ghost Value = { ℕ };

    ghost view = { λ i. i.0 };

    ghost invariant = { λ i. i.0 ≤ priority_limit };

    ghost inverse = { λ n. record { 0 = n } };
}

impl Priority {
    /// The one of this number. Refused as BadPriority if it is over 99.
    pub fn read(number: u64) -> Result<Priority, Refusal>
        ensures { MatchResult result (λ p. (p ≡ number) × (number ≤ priority_limit))
            (λ e. (e ≡ BadPriority) × (priority_limit < number)) }
    {
        if number > u64::from(PRIORITY_LIMIT) {
            return Err(Refusal::BadPriority);
        }
        Ok(Priority(number as u16))
    }

    /// Its number, as it goes out.
    pub fn number(self) -> u16
        ensures is { result ≡ self }
        ensures within { result ≤ priority_limit }
    {
        let Priority(number) = self;
        number
    }
}
