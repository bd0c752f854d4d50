//! Converts whole values between the base types. Begin at `convert`; how one element converts is in
//! `numeric.rt`.
ghost use Rattle.std.specs.Prelude.{◌≢◌, [], IsOk, Ok, Err, length, vec_capacity, ◌≤◌, ◌≡◌, true};
ghost use Rattle.std.specs.Prelude.{false, ◌<◌, Some, None, Result, MatchResult, IfOk, IfErr};
ghost use Rattle.std.specs.Prelude.{IsTrue, ◌↔◌};
ghost use Rattle.ca_text.specs.declared.refusal.Refusal.{Refusal};
ghost use Rattle.ca_text.specs.declared.refusal.Refusal.TheVariants.{OutOfMemory};
ghost use Rattle.ca_dbr.specs.declared.data_type.BaseType.{BaseType};
ghost use Rattle.ca_dbr.specs.Types.{base_number};
ghost use Rattle.ca_dbr.specs.declared.data_type.BaseType.TheVariants as base_type;
ghost use Rattle.ca_dbr.specs.Elements.{count_of, elements};
ghost use Rattle.ca_dbr.specs.Conversion.{gathered, Fails, in_base, converted, ConvertRefused};
ghost use Rattle.ca_dbr.specs.Conversion.{has_numbers, HasConversion};

use crate::data_type::BaseType;
use crate::numeric::{Conversion, NumberSource, ToNumber, ToText, Whole};
use crate::value::{Value, copied};
use ca_text::Refusal;
use std::alloc::Global;

/// Whether all elements convert; the first that does not decides.
pub(crate) fn check_all<S: Copy + Drop, T: Drop, C: Conversion<S, T>>(
    items: &[S],
) -> Result<(), Refusal>
    ensures { MatchResult result (λ _. IsOk (gathered C.gives items.now))
        (λ e. gathered C.gives items.now ≡ Err e) }
{
    for item in items {
        match C::convert(*item) {
            Err(refusal) => return Err(refusal),
            Ok(_) => {}
        }
    }
    Ok(())
}

/// Puts the elements that these convert to at the end, where room was made for them.
fn convert_into<S: Copy + Drop, T: Drop, C: Conversion<S, T>>(
    items: &[S],
    out: &mut Vec<T>,
) -> Result<(), Refusal>
    requires room { length items.now ≤ vec_capacity out.old }
    requires empty { out.old.items ≡ [] }
    ensures { MatchResult result (λ _. gathered C.gives items.now ≡ Ok out.new.items)
        (λ e. gathered C.gives items.now ≡ Err e) }
{
    for item in items {
        match C::convert(*item) {
            Err(refusal) => return Err(refusal),
            Ok(x) => out.push_reserved(x),
        }
    }
    Ok(())
}

/// The elements that these convert to.
pub fn convert_all<S: Copy + Drop, T: Drop, C: Conversion<S, T>>(
    alloc: Global,
    items: &[S],
) -> Result<Vec<T>, Refusal>
    ensures ok { IfOk result (λ v. gathered C.gives items.now ≡ Ok v.items) }
    ensures err { IfErr result (Fails (gathered C.gives items.now)) }
    ensures memory { IfErr result (λ e. e ≡ OutOfMemory → length items.now ≢ 0) }
{
    match Vec::with_capacity(alloc, items.len()) {
        Err(_) => {
            // Out of memory is reported only if no element is at fault.
            check_all::<S, T, C>(items)?;
            Err(Refusal::OutOfMemory)
        }
        Ok(mut out) => {
            convert_into::<S, T, C>(items, &mut out)?;
            Ok(out)
        }
    }
}

/// The elements of these numbers in a type other than STRING.
fn to_numbers<S: NumberSource>(alloc: Global, items: &[S], base: BaseType) -> Result<Value, Refusal>
    requires { base ≢ base_type.String }
    ensures ok { IfOk result (λ value. in_base S.number items.now base ≡ Ok (elements value)) }
    ensures err { IfErr result (Fails (in_base S.number items.now base)) }
    ensures memory { IfErr result (λ e. e ≡ OutOfMemory → length items.now ≢ 0) }
{
    match base {
        BaseType::String => unreachable!(),
        BaseType::Int => Ok(Value::Ints(convert_all::<S, i16, ToNumber>(alloc, items)?)),
        BaseType::Enum => Ok(Value::Enums(convert_all::<S, u16, ToNumber>(alloc, items)?)),
        BaseType::Char => Ok(Value::Chars(convert_all::<S, u8, ToNumber>(alloc, items)?)),
        BaseType::Long => Ok(Value::Longs(convert_all::<S, i32, ToNumber>(alloc, items)?)),
        BaseType::Float => Err(Refusal::NoConvert),
        BaseType::Double => Err(Refusal::NoConvert),
    }
}

/// The elements of these numbers in another type.
fn whole_to<S: Whole>(alloc: Global, items: &[S], base: BaseType) -> Result<Value, Refusal>
    ensures ok { IfOk result (λ value. in_base S.number items.now base ≡ Ok (elements value)) }
    ensures err { IfErr result (Fails (in_base S.number items.now base)) }
    ensures memory { IfErr result (λ e. e ≡ OutOfMemory → length items.now ≢ 0) }
{
    match base {
        BaseType::String => Ok(Value::Strings(convert_all::<S, [u8; 40], ToText>(alloc, items)?)),
        _ => to_numbers(alloc, items, base),
    }
}

/// Converts a value to a type, as `convert` does.
pub fn convert_to(alloc: Global, value: &Value, base: BaseType) -> Result<Value, Refusal>
    ensures ok { IfOk result (λ v. converted (elements value.now) base ≡ Ok (elements v)) }
    ensures err { IfErr result (Fails (converted (elements value.now) base)) }
    ensures memory { IfErr result (λ e. e ≡ OutOfMemory → count_of (elements value.now) ≢ 0) }
{
    match (value, base) {
        (Value::Strings(items), BaseType::String) => Ok(Value::Strings(copied(alloc, items)?)),
        (Value::Strings(items), _) => to_numbers(alloc, items, base),
        (Value::Ints(items), BaseType::Int) => Ok(Value::Ints(copied(alloc, items)?)),
        (Value::Ints(items), _) => whole_to(alloc, items, base),
        (Value::Enums(items), BaseType::Enum) => Ok(Value::Enums(copied(alloc, items)?)),
        (Value::Enums(items), _) => whole_to(alloc, items, base),
        (Value::Chars(items), BaseType::Char) => Ok(Value::Chars(copied(alloc, items)?)),
        (Value::Chars(items), _) => whole_to(alloc, items, base),
        (Value::Longs(items), BaseType::Long) => Ok(Value::Longs(copied(alloc, items)?)),
        (Value::Longs(items), _) => whole_to(alloc, items, base),
        (Value::Floats(items), BaseType::Float) => Ok(Value::Floats(copied(alloc, items)?)),
        (Value::Doubles(items), BaseType::Double) => Ok(Value::Doubles(copied(alloc, items)?)),
        (Value::Floats(_), _) => Err(Refusal::NoConvert),
        (Value::Doubles(_), _) => Err(Refusal::NoConvert),
    }
}

/// Whether elements of this type are numbers, or texts of numbers.
fn has_numbers(base: BaseType) -> bool
    ensures { result ≡ has_numbers base }
{
    match base {
        BaseType::String => true,
        BaseType::Int => true,
        BaseType::Float => false,
        BaseType::Enum => true,
        BaseType::Char => true,
        BaseType::Long => true,
        BaseType::Double => false,
    }
}

/// Whether one type converts to another at all.
pub fn has_conversion(from: BaseType, to: BaseType) -> bool
    ensures { IsTrue result ↔ HasConversion from to }
{
    from == to || (has_numbers(from) && has_numbers(to))
}

/// Converts a value to the plain type of this number. Refused as BadType if there is none, as
/// NoConvert if the types do not convert, then as BadText or OutOfRange by the first element that
/// is no number or outside the type, then as OutOfMemory, only if there are elements.
pub fn convert(alloc: Global, value: &Value, number: u16) -> Result<Value, Refusal>
    ensures ok { IfOk result (λ v.
        (b : BaseType) × (base_number b ≡ number)
        × (converted (elements value.now) b ≡ Ok (elements v))) }
    ensures err { IfErr result (ConvertRefused (elements value.now) number) }
    ensures memory { IfErr result (λ e. e ≡ OutOfMemory → count_of (elements value.now) ≢ 0) }
{
    match BaseType::of(number) {
        None => Err(Refusal::BadType),
        Some(base) => convert_to(alloc, value, base),
    }
}
