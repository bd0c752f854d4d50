//! Conversions of values of records with display data.
ghost use Rattle.std.specs.Prelude.{◌≡◌, ◌≢◌, ◌≤◌, ◌⊎◌, [], Ok, Err, IsOk, length, vec_capacity};
ghost use Rattle.std.specs.Prelude.{MatchResult, IfOk, IfErr, Result};
ghost use Rattle.ca_text.specs.declared.refusal.Refusal.{Refusal};
ghost use Rattle.ca_text.specs.declared.refusal.Refusal.TheVariants.{OutOfMemory};
ghost use Rattle.ca_dbr.specs.declared.data_type.BaseType.TheVariants as base_type;
ghost use Rattle.ca_dbr.specs.DisplayData.{DisplayData};
ghost use Rattle.ca_dbr.specs.Elements.{count_of, elements};
ghost use Rattle.ca_dbr.specs.Conversion.{gathered, Fails};
ghost use Rattle.ca_dbr.specs.Shown.{first_elements};
ghost use Rattle.ca_dbr.specs.Data.{data_of};
ghost use Rattle.ca_display.specs.Conversion.{state_of, enum_text, float_shown, double_shown};
ghost use Rattle.ca_display.specs.Conversion.{in_numbers, display_converted};

use crate::numeric::{Numeric, TextToFloat, ToDouble, ToFloat, ToWhole};
use crate::real::real_text;
use crate::states::{state_number, state_text};
use ca_dbr::{BaseType, Display, Value, convert_all, convert_to, text_of};
use ca_text::Refusal;
use std::alloc::{AllocError, Global};

/// An element that display data shows in another type.
trait DisplayShown<T>: Copy + Drop {
    ghost gives: { DisplayData → Self → Result T Refusal };

    /// It in that type.
    fn shown(self, display: &Display) -> Result<T, Refusal>
        ensures { result ≡ gives (data_of display.now) self };
}

impl DisplayShown<u16> for [u8; 40] {
    ghost gives = { state_of };

    fn shown(self, display: &Display) -> Result<u16, Refusal> {
        match state_number(&display.states, text_of(&self)) {
            Err(refusal) => Err(refusal),
            Ok(number) => number.to_whole(),
        }
    }
}

impl DisplayShown<[u8; 40]> for u16 {
    ghost gives = { enum_text };

    fn shown(self, display: &Display) -> Result<[u8; 40], Refusal> {
        Ok(state_text(&display.states, self))
    }
}

impl DisplayShown<[u8; 40]> for u32 {
    ghost gives = { float_shown };

    fn shown(self, display: &Display) -> Result<[u8; 40], Refusal> {
        Ok(real_text(self, display.precision))
    }
}

impl DisplayShown<[u8; 40]> for u64 {
    ghost gives = { double_shown };

    fn shown(self, display: &Display) -> Result<[u8; 40], Refusal> {
        Ok(real_text(self, display.precision))
    }
}

// Whether display data shows all these elements; the first that it does not decides.
fn check_shown<S: DisplayShown<T>, T: Drop>(items: &[S], display: &Display) -> Result<(), Refusal>
    ensures { MatchResult result (λ _. IsOk (gathered (S.gives (data_of display.now)) items.now))
        (λ e. gathered (S.gives (data_of display.now)) items.now ≡ Err e) }
{
    for item in items {
        match item.shown(display) {
            Err(refusal) => return Err(refusal),
            Ok(_) => {}
        }
    }
    Ok(())
}

// Puts what display data shows of these elements at the end, where room was made for them.
fn show_into<S: DisplayShown<T>, T: Drop>(
    items: &[S],
    display: &Display,
    out: &mut Vec<T>,
) -> Result<(), Refusal>
    requires room { length items.now ≤ vec_capacity out.old }
    requires empty { out.old.items ≡ [] }
    ensures { MatchResult result
        (λ _. gathered (S.gives (data_of display.now)) items.now ≡ Ok out.new.items)
        (λ e. gathered (S.gives (data_of display.now)) items.now ≡ Err e) }
{
    for item in items {
        match item.shown(display) {
            Err(refusal) => return Err(refusal),
            Ok(x) => out.push_reserved(x),
        }
    }
    Ok(())
}

// What display data shows of these elements.
fn show_all<S: DisplayShown<T>, T: Drop>(
    alloc: Global,
    items: &[S],
    display: &Display,
) -> Result<Vec<T>, Refusal>
    ensures ok { IfOk result (λ v.
        gathered (S.gives (data_of display.now)) items.now ≡ Ok v.items) }
    ensures err { IfErr result (Fails (gathered (S.gives (data_of display.now)) items.now)) }
    ensures memory { IfErr result (λ e. e ≡ OutOfMemory → length items.now ≢ 0) }
{
    match Vec::with_capacity(alloc, items.len()) {
        Err(_) => {
            // Out of memory is reported only if no element is at fault.
            check_shown::<S, T>(items, display)?;
            Err(Refusal::OutOfMemory)
        }
        Ok(mut out) => {
            show_into(items, display, &mut out)?;
            Ok(out)
        }
    }
}

// The elements of these numbers in a type other than STRING.
fn to_numbers<S: Numeric>(alloc: Global, items: &[S], base: BaseType) -> Result<Value, Refusal>
    requires { base ≢ base_type.String }
    ensures ok { IfOk result (λ value. in_numbers S.number items.now base ≡ Ok (elements value)) }
    ensures err { IfErr result (Fails (in_numbers S.number items.now base)) }
    ensures memory { IfErr result (λ e. e ≡ OutOfMemory → length items.now ≢ 0) }
{
    match base {
        BaseType::String => unreachable!(),
        BaseType::Int => Ok(Value::Ints(convert_all::<S, i16, ToWhole>(alloc, items)?)),
        BaseType::Float => Ok(Value::Floats(convert_all::<S, u32, ToFloat>(alloc, items)?)),
        BaseType::Enum => Ok(Value::Enums(convert_all::<S, u16, ToWhole>(alloc, items)?)),
        BaseType::Char => Ok(Value::Chars(convert_all::<S, u8, ToWhole>(alloc, items)?)),
        BaseType::Long => Ok(Value::Longs(convert_all::<S, i32, ToWhole>(alloc, items)?)),
        BaseType::Double => Ok(Value::Doubles(convert_all::<S, u64, ToDouble>(alloc, items)?)),
    }
}

/// Converts a value of a record with display data to a type.
///
/// Whole numbers go to FLOAT and DOUBLE, and a DOUBLE to a FLOAT, by nearest; FLOAT and DOUBLE go
/// to a whole number towards zero. A text is the number that it writes, or for an ENUM the state
/// whose name it is; an ENUM is as a text its state's name, if it has one, else its number, and a
/// FLOAT or DOUBLE what EPICS Base shows of it by the precision. What is too far from zero for a
/// FLOAT or DOUBLE is infinite. Refused by the first element at fault: as BadText if it writes no
/// number, as OutOfRange if it is outside a whole type; then as OutOfMemory, only if there are
/// elements.
pub fn convert_display(
    alloc: Global,
    value: &Value,
    base: BaseType,
    display: &Display,
) -> Result<Value, Refusal>
    ensures ok { IfOk result (λ v.
        display_converted (data_of display.now) (elements value.now) base ≡ Ok (elements v)) }
    ensures err { IfErr result
        (Fails (display_converted (data_of display.now) (elements value.now) base)) }
    ensures memory { IfErr result (λ e. e ≡ OutOfMemory → count_of (elements value.now) ≢ 0) }
{
    match (value, base) {
        (Value::Strings(_), BaseType::String) => convert_to(alloc, value, base),
        (Value::Strings(items), BaseType::Enum) => {
            Ok(Value::Enums(show_all(alloc, items, display)?))
        }
        (Value::Strings(items), BaseType::Float) => Ok(Value::Floats(convert_all::<
            [u8; 40],
            u32,
            TextToFloat,
        >(alloc, items)?)),
        (Value::Strings(items), _) => to_numbers(alloc, items, base),
        (Value::Ints(items), BaseType::Float) => to_numbers(alloc, items, base),
        (Value::Ints(items), BaseType::Double) => to_numbers(alloc, items, base),
        (Value::Ints(_), _) => convert_to(alloc, value, base),
        (Value::Enums(items), BaseType::String) => {
            Ok(Value::Strings(show_all(alloc, items, display)?))
        }
        (Value::Enums(items), BaseType::Float) => to_numbers(alloc, items, base),
        (Value::Enums(items), BaseType::Double) => to_numbers(alloc, items, base),
        (Value::Enums(_), _) => convert_to(alloc, value, base),
        (Value::Chars(items), BaseType::Float) => to_numbers(alloc, items, base),
        (Value::Chars(items), BaseType::Double) => to_numbers(alloc, items, base),
        (Value::Chars(_), _) => convert_to(alloc, value, base),
        (Value::Longs(items), BaseType::Float) => to_numbers(alloc, items, base),
        (Value::Longs(items), BaseType::Double) => to_numbers(alloc, items, base),
        (Value::Longs(_), _) => convert_to(alloc, value, base),
        (Value::Floats(_), BaseType::Float) => convert_to(alloc, value, base),
        (Value::Floats(items), BaseType::String) => {
            Ok(Value::Strings(show_all(alloc, items, display)?))
        }
        (Value::Floats(items), _) => to_numbers(alloc, items, base),
        (Value::Doubles(_), BaseType::Double) => convert_to(alloc, value, base),
        (Value::Doubles(items), BaseType::String) => {
            Ok(Value::Strings(show_all(alloc, items, display)?))
        }
        (Value::Doubles(items), _) => to_numbers(alloc, items, base),
    }
}

// A copy of the first n elements.
fn copy_first(alloc: Global, value: &Value, count: usize) -> Result<Value, AllocError>
    requires { count ≤ count_of (elements value.now) }
    ensures { IfOk result (λ v. elements v ≡ first_elements count (elements value.now)) }
{
    match value {
        Value::Strings(items) => Ok(Value::Strings(Vec::from_slice(alloc, &items[..count])?)),
        Value::Ints(items) => Ok(Value::Ints(Vec::from_slice(alloc, &items[..count])?)),
        Value::Floats(items) => Ok(Value::Floats(Vec::from_slice(alloc, &items[..count])?)),
        Value::Enums(items) => Ok(Value::Enums(Vec::from_slice(alloc, &items[..count])?)),
        Value::Chars(items) => Ok(Value::Chars(Vec::from_slice(alloc, &items[..count])?)),
        Value::Longs(items) => Ok(Value::Longs(Vec::from_slice(alloc, &items[..count])?)),
        Value::Doubles(items) => Ok(Value::Doubles(Vec::from_slice(alloc, &items[..count])?)),
    }
}

/// The first n elements of a value, or all if there are fewer, in a type, as `convert_display`
/// converts them.
pub(crate) fn convert_first(
    alloc: Global,
    value: &Value,
    count: usize,
    base: BaseType,
    display: &Display,
) -> Result<Value, Refusal>
    ensures ok { IfOk result (λ v. display_converted (data_of display.now)
        (first_elements count (elements value.now)) base ≡ Ok (elements v)) }
    ensures err { IfErr result (λ e. (display_converted (data_of display.now)
        (first_elements count (elements value.now)) base ≡ Err e) ⊎ (e ≡ OutOfMemory)) }
{
    if value.count() <= count {
        return convert_display(alloc, value, base, display);
    }
    match copy_first(alloc, value, count) {
        Err(_) => Err(Refusal::OutOfMemory),
        Ok(first) => convert_display(alloc, &first, base, display),
    }
}
