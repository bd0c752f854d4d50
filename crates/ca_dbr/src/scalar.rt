//! The fast path for a value of one element in its own type: its payload as one 64-bit number. It
//! does not apply to STRING.
ghost use Rattle.std.specs.Prelude.{◌≡◌, ◌≢◌, ◌⊎◌, IfNone, IfSome, MatchOption, length};
ghost use Rattle.ca_dbr.specs.Scalar.{IsScalar, IsOneWord, IsNotScalar};
ghost use Rattle.ca_dbr.specs.Elements.{elements};

use crate::data_type::BaseType;
use crate::element::Small;
use crate::value::Value;

impl Value {
    /// The eight bytes of a payload that has its one element alone, in the plain type of this
    /// number, as one number, the first byte the highest: if that is its own type, and not STRING.
    #[inline(always)]
    pub fn scalar(&self, number: u16) -> Option<u64>
        ensures some { IfSome result (λ n. IsScalar (elements self.now) number n) }
        ensures none { IfNone result (IsNotScalar (elements self.now) number) }
    {
        match self {
            Value::Strings(_) => None,
            Value::Ints(items) => one_word(items, BaseType::Int.number(), number),
            Value::Floats(items) => one_word(items, BaseType::Float.number(), number),
            Value::Enums(items) => one_word(items, BaseType::Enum.number(), number),
            Value::Chars(items) => one_word(items, BaseType::Char.number(), number),
            Value::Longs(items) => one_word(items, BaseType::Long.number(), number),
            Value::Doubles(items) => one_word(items, BaseType::Double.number(), number),
        }
    }
}

/// The only one of these elements as one number, if it is asked for in the plain type of its own.
#[inline(always)]
fn one_word<E: Small>(items: &[E], own: u16, number: u16) -> Option<u64>
    ensures { MatchOption result ((number ≢ own) ⊎ (length items.now ≢ 1))
        (λ n. (number ≡ own) × IsOneWord E.spelled E.SIZE items.now n) }
{
    if number != own || items.len() != 1 {
        return None;
    }
    Some(items[0].word())
}
