//! Names of channels (up to 500 bytes) and of records (up to 60 bytes), checked for length and zero
//! bytes before anything else sees them.
ghost use Rattle.std.specs.Prelude.{◌≡◌, ◌≤◌, ◌↔◌, ℕ, IsTrue, MatchResult};
ghost use Rattle.ca_text.specs.Name.{IsName};
ghost use Rattle.ca_text.specs.declared.refusal.Refusal.TheVariants.{NameLength};

use crate::limits::{CHANNEL_NAME_LIMIT, RECORD_NAME_LIMIT};
use crate::refusal::Refusal;
use std::marker::Model;

/// A name of one to `LIMIT` bytes, none of them zero.
#[derive(Debug, Drop)]
pub struct Name<'a, const LIMIT: usize> {
    bytes: &'a [u8],
}

/// The name of a channel: a whole record name, as a client asks for it.
pub type ChannelName<'a> = Name<'a, CHANNEL_NAME_LIMIT>;

/// The name of a record at a server.
pub type RecordName<'a> = Name<'a, RECORD_NAME_LIMIT>;

impl<'a, const LIMIT: usize> Model for Name<'a, LIMIT> {
    ghost use Rattle.std.specs.Prelude.{ℕ, List};
    ghost use Rattle.ca_text.specs.Name.{IsName};

    ghost Value = { List ℕ };

    ghost view = { λ n. n.bytes.now };

    ghost invariant = { λ n. IsName LIMIT n.bytes.now };
}

impl<'a, const LIMIT: usize> Name<'a, LIMIT> {
    /// Refused as NameLength if these bytes are no such name.
    pub fn read(bytes: &'a [u8]) -> Result<Name<'a, LIMIT>, Refusal>
        ensures { MatchResult result (λ n. (n ≡ bytes.now) × IsName LIMIT bytes.now)
            (λ e. (e ≡ NameLength) × (IsName LIMIT bytes.now → ⊥)) }
    {
        if bytes.is_empty() || bytes.len() > LIMIT || bytes.contains(&0) {
            return Err(Refusal::NameLength);
        }
        Ok(Name { bytes })
    }

    /// Its bytes.
    pub fn bytes(&self) -> &'a [u8]
        ensures bytes { result.now ≡ self.now }
        ensures name { IsName LIMIT result.now }
    {
        self.bytes
    }
}
