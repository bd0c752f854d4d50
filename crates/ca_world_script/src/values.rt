//! Numbers that are types or masks, and the words `client` and `server` for an end of a circuit.
ghost use Rattle.std.specs.Prelude.{◌≡◌, Bool, IfErr, IfOk};
ghost use Rattle.ca_text.specs.declared.refusal.Refusal.TheVariants.{BadText};
ghost use Rattle.ca_dbr.specs.Types.{base_number};
ghost use Rattle.ca_dbr.specs.declared.data_type.BaseType.{BaseType};
ghost use Rattle.ca_world_script.specs.Events.{IsMask, end_word};

use ca_dbr::BaseType;
use ca_script::is_word;
use ca_text::{Mask, Refusal};

// The base type of this number. Refused as BadText.
pub(crate) fn base_at(number: u64) -> Result<BaseType, Refusal>
    ensures ok { IfOk result (λ b. base_number b ≡ number) }
    ensures err { IfErr result (λ e.
        (e ≡ BadText) × ((b : BaseType) → base_number b ≡ number → ⊥)) }
{
    match number {
        0 => Ok(BaseType::String),
        1 => Ok(BaseType::Int),
        2 => Ok(BaseType::Float),
        3 => Ok(BaseType::Enum),
        4 => Ok(BaseType::Char),
        5 => Ok(BaseType::Long),
        6 => Ok(BaseType::Double),
        _ => Err(Refusal::BadText),
    }
}

// The mask of these bits. Refused as BadText if none of the four is among them, or
// they are more than 16.
pub(crate) fn mask_of(number: u64) -> Result<Mask, Refusal>
    ensures ok { IfOk result (λ m. (m ≡ number) × IsMask number) }
    ensures err { IfErr result (λ e. (e ≡ BadText) × (IsMask number → ⊥)) }
{
    let Ok(bits) = u16::try_from(number) else {
        return Err(Refusal::BadText);
    };
    match Mask::new(bits) {
        Some(mask) => Ok(mask),
        None => Err(Refusal::BadText),
    }
}

// Whether a word names the end at a client, rather than the one at a server. Refused as BadText.
pub(crate) fn end_in(word: &[u8]) -> Result<bool, Refusal>
    ensures ok { IfOk result (λ at_client. word.now ≡ end_word at_client) }
    ensures err { IfErr result (λ e.
        (e ≡ BadText) × ((at_client : Bool) → word.now ≡ end_word at_client → ⊥)) }
{
    if is_word(word, "client") {
        return Ok(true);
    }
    if is_word(word, "server") {
        return Ok(false);
    }
    Err(Refusal::BadText)
}
