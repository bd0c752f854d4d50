//! What a filled beacon says.
ghost use Rattle.std.specs.Prelude.{◌≡◌, ◌<◌, ◌^◌, ℕ, List, length};
ghost use Rattle.ca_wire.specs.Fields.{Fields};
ghost use Rattle.ca_repeat.specs.declared.first.FirstMessage.TheVariants.{BlankBeacon};
ghost use Rattle.ca_repeat.specs.First.{StandsFirst, passed};

/// A beacon that is filled in reads as the same message with its sender's address as the second
/// parameter, in a header of the same length, and the same bytes follow it.
pub fn filled_beacon_names_its_sender()
    ensures { (bytes behind : List ℕ) (m : Fields) (ip : ℕ) → StandsFirst bytes m behind
        → ip < 2 ^ 32
        → StandsFirst (passed BlankBeacon ip bytes) (record m { p2 = ip }) behind
        × (length (passed BlankBeacon ip bytes) ≡ length bytes) }
{}
