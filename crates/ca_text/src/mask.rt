//! The event mask of a subscription (VALUE, LOG, ALARM, PROPERTY). A post concerns a subscription
//! if their masks share an event.
ghost use Rattle.std.specs.Prelude.{◌≡◌, ◌≢◌, ◌%◌, ◌↔◌, ◌<◌, ℕ, IsTrue, MatchOption, bit_and};
ghost use Rattle.ca_text.specs.Mask.{HasEvent};

use std::marker::Model;

/// Which posts concern a subscription: a choice of VALUE 1, LOG 2, ALARM 4 and PROPERTY 8,
/// at least one of them.
///
/// Further bits are kept, and select nothing (section "CA_PROTO_EVENT_ADD").
#[derive(Clone, Copy, Debug)]
pub struct Mask {
    bits: u16,
}

impl Model for Mask {
    ghost use Rattle.std.specs.Prelude.{ℕ};
    ghost use Rattle.ca_text.specs.Mask.{HasEvent};

    ghost Value = { ℕ };

    ghost view = { λ m. m.bits };

    ghost invariant = { λ m. HasEvent m.bits };

    ghost inverse = { λ n. record { bits = n } };
}

impl Mask {
    /// The mask of these bits: none without one of the four.
    pub fn new(bits: u16) -> Option<Mask>
        ensures { MatchOption result (HasEvent bits → ⊥) (λ m. (m ≡ bits) × HasEvent bits) }
    {
        if bits % 16 == 0 {
            return None;
        }
        Some(Mask { bits })
    }

    /// All bits, as they go out.
    pub fn bits(self) -> u16
        ensures bits { result ≡ self }
        ensures event { HasEvent result }
    {
        let Mask { bits } = self;
        bits
    }

    /// Whether the two share one of the four.
    pub fn shares(self, other: Mask) -> bool
        ensures { IsTrue result ↔ HasEvent (bit_and self other) }
    {
        (self.bits & other.bits) % 16 != 0
    }
}
