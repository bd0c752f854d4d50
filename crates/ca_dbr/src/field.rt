//! A text in a field of fixed size, as images and display data have it.
ghost use Rattle.std.specs.Prelude.{◌≡◌, ◌≤◌, length, IfOk, IfErr};
ghost use Rattle.ca_dbr.specs.Data.{FitsField, in_field};
ghost use Rattle.ca_text.specs.declared.refusal.Refusal.TheVariants.{NameLength};

use ca_text::Refusal;

// The text in a field of this size, with zero bytes after it. Refused as NameLength if no zero
// byte fits after it, or one is in it.
pub(crate) fn fixed<const SIZE: usize>(text: &[u8]) -> Result<[u8; SIZE], Refusal>
    ensures made { IfOk result (λ field. field ≡ in_field SIZE text.now) }
    ensures fits { IfOk result (λ _. FitsField SIZE text.now) }
    ensures err { IfErr result (λ e. (e ≡ NameLength) × (FitsField SIZE text.now → ⊥)) }
{
    if text.len() >= SIZE || text.contains(&0) {
        return Err(Refusal::NameLength);
    }
    Ok(field_of(text))
}

/// A text in a field of this size, with zero bytes after it.
pub fn field_of<const SIZE: usize>(text: &[u8]) -> [u8; SIZE]
    requires { length text.now ≤ SIZE }
    ensures { result ≡ in_field SIZE text.now }
{
    let mut field = [0; SIZE];
    field[..text.len()].copy_from_slice(text);
    field
}
