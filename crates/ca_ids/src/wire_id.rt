//! The 32-bit number that names a channel, request or subscription on the wire (SID, CID, IOID or
//! subscription id), made of the index and generation of a handle.
ghost use Rattle.std.specs.Prelude.{◌≡◌, ◌%◌};
ghost use Rattle.ca_ids.specs.Wire.{wire_of};

use ca_arena::Handle;
use std::marker::Model;

/// The 32 bits that stand for a handle on the wire: its index in the low half, and above it the low
/// half of its generation.
#[derive(Clone, Copy, Debug, PartialEq, Eq)]
pub struct WireId(u32);

impl Model for WireId {
    ghost use Rattle.std.specs.Prelude.{ℕ};

    ghost Value = { ℕ };

    ghost view = { λ w. w.0 };

    ghost inverse = { λ n. record { 0 = n } };
}

impl WireId {
    /// The wire id with this number, as it came.
    pub fn new(number: u32) -> WireId
        ensures { result ≡ number }
    {
        WireId(number)
    }

    /// The wire id of this handle.
    pub fn of(handle: Handle) -> WireId
        ensures { result ≡ wire_of handle }
    {
        WireId(handle.generation % 65_536 * 65_536 + u32::from(handle.index))
    }

    /// Its number, as it goes out.
    pub fn number(self) -> u32
        ensures { result ≡ self }
    {
        self.0
    }

    // The index of the handles that it may stand for.
    pub(crate) fn index(self) -> u16
        ensures { result ≡ self % 65536 }
    {
        (self.number() % 65_536) as u16
    }
}
