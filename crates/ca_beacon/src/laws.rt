//! The numbers of a server's beacons and the waits between them: 20 milliseconds, doubled each
//! time, up to 15 seconds.
ghost use Rattle.std.specs.Prelude.{◌≡◌, ◌+◌, ◌*◌, ◌^◌, ◌%◌, ◌++◌, ◌∷◌, [], ℕ, List, length, min};
ghost use Rattle.ca_text.specs.Waits.{latest, wait};
ghost use Rattle.ca_beacon.specs.Clock.{fresh, run};

/// Whatever the moments of the beacons: the first has the number 0 and is due at the start;
/// after the n-th the next has the number n, modulo 2^32, and is due `20 * 2^(n-1)` milliseconds
/// after it, at most 15,000.
pub fn waits_double()
    ensures doubled { (n : ℕ) → wait 20 15000 n ≡ min (20 * 2 ^ n) 15000 }
    ensures number { (start : ℕ) (moments : List ℕ)
        → (run (fresh start) moments).number ≡ length moments % 2 ^ 32 }
    ensures due { (start now : ℕ) (moments : List ℕ)
        → (run (fresh start) (moments ++ now ∷ [])).due
        ≡ min (now + wait 20 15000 (length moments)) latest }
{}
