//! How long a client waits between the searches for a channel: 32 milliseconds, doubled each time,
//! up to five minutes.
ghost use Rattle.std.specs.Prelude.{◌≡◌, ◌+◌, ◌*◌, ◌^◌, ◌++◌, ◌∷◌, [], ℕ, List, length, min};
ghost use Rattle.ca_text.specs.Waits.{latest, wait};
ghost use Rattle.ca_search.specs.Clock.{fresh, run};

/// Whatever the moments of a channel's searches: the first is due at the start; the one after the
/// n-th is due `32 * 2^(n-1)` milliseconds after it, at most 300,000.
pub fn searches_double()
    ensures doubled { (n : ℕ) → wait 32 300000 n ≡ min (32 * 2 ^ n) 300000 }
    ensures first { (start : ℕ) → (run (fresh start) []).due ≡ start }
    ensures due { (start now : ℕ) (moments : List ℕ)
        → (run (fresh start) (moments ++ now ∷ [])).due
        ≡ min (now + wait 32 300000 (length moments)) latest }
{}
