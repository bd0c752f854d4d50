//! Lines that consist of one, two or four decimal numbers and nothing more.
ghost use Rattle.std.specs.Prelude.{◌≡◌, ◌∷◌, [], ℕ, IfErr, IfOk};
ghost use Rattle.ca_text.specs.declared.refusal.Refusal.TheVariants.{BadText};
ghost use Rattle.ca_script.specs.Grammar.{AreNumbers};

use crate::words::Words;
use ca_text::Refusal;

/// The number that these words are, all of them. Refused as BadText.
pub fn one_number(mut words: Words<'_>) -> Result<u64, Refusal>
    ensures ok { IfOk result (λ n. AreNumbers words.entry (n ∷ [])) }
    ensures err { IfErr result (λ e.
        (e ≡ BadText) × ((n : ℕ) → AreNumbers words.entry (n ∷ []) → ⊥)) }
{
    let number = words.number()?;
    words.end()?;
    Ok(number)
}

/// The two numbers that these words are. Refused as BadText.
pub fn two_numbers(mut words: Words<'_>) -> Result<(u64, u64), Refusal>
    ensures ok { IfOk result (λ r. AreNumbers words.entry (r.0 ∷ r.1 ∷ [])) }
    ensures err { IfErr result (λ e.
        (e ≡ BadText) × ((m n : ℕ) → AreNumbers words.entry (m ∷ n ∷ []) → ⊥)) }
{
    let first = words.number()?;
    let second = one_number(words)?;
    Ok((first, second))
}

/// The four numbers that these words are. Refused as BadText.
pub fn four_numbers(mut words: Words<'_>) -> Result<(u64, u64, u64, u64), Refusal>
    ensures ok { IfOk result (λ r. AreNumbers words.entry (r.0 ∷ r.1 ∷ r.2 ∷ r.3 ∷ [])) }
    ensures err { IfErr result (λ e.
        (e ≡ BadText) × ((k l m n : ℕ) → AreNumbers words.entry (k ∷ l ∷ m ∷ n ∷ []) → ⊥)) }
{
    let first = words.number()?;
    let second = words.number()?;
    let (third, fourth) = two_numbers(words)?;
    Ok((first, second, third, fourth))
}
