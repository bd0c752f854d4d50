//! What the tables guarantee: no two entries in use at one time have the same wire id.
ghost use Rattle.std.specs.Prelude.{◌≡◌};
ghost use Rattle.ca_arena.specs.declared.handle.Handle.{Handle};
ghost use Rattle.ca_arena.specs.Arena.{IsLive};
ghost use Rattle.ca_arena.specs.Sound.{IsSound};
ghost use Rattle.ca_ids.specs.Wire.{wire_of};
ghost use Rattle.ca_ids.specs.Ids.{Ids};

/// Two handles that are open or drain at one time have different wire ids.
pub fn wire_ids_differ<T>()
    ensures { (ids : Ids T) (first second : Handle) → IsSound ids → IsLive ids first
        → IsLive ids second → wire_of first ≡ wire_of second → first ≡ second }
{}
