//! What all lines need of their words: whether the first is theirs, and whether one is `--`, which
//! no line takes.
ghost use Rattle.std.specs.Prelude.{◌≡◌, ◌∷◌, ℕ, List, MatchOption, codes, map, string_bytes};
ghost use Rattle.std.specs.List.{list_any};
ghost use Rattle.std.specs.Str.{bytes_eq};

/// The words after this one, if it is the first.
pub(crate) fn after<'a>(words: &'a [String], wanted: &str) -> Option<&'a [String]>
    ensures { MatchOption result ((rest : List (List ℕ))
        → map string_bytes words.entry.now ≡ wanted.now ∷ rest → ⊥)
        (λ rest. map string_bytes words.entry.now ≡ wanted.now ∷ map string_bytes rest.now) }
{
    match words.split_first() {
        None => None,
        Some((first, rest)) => {
            if first.as_str() == wanted {
                Some(rest)
            } else {
                None
            }
        }
    }
}

/// Whether one of these words is `--`, at which clap would end the options.
pub(crate) fn escapes(words: &[String]) -> bool
    ensures { result ≡ list_any (λ word. bytes_eq (string_bytes word) (codes "--")) words.now }
{
    words.iter().any(|word| word.as_str() == "--")
}
