//! Writes what a read or an update shows of a value: the wanted number of elements, converted to
//! the wanted type and filled up with zeros. Begin at `write_shown`.
ghost use Rattle.std.specs.Prelude.{◌≡◌, ◌≢◌, ◌≤◌, ◌<◌, ◌+◌, ◌-◌, ◌*◌, min, length, take, Ok, Err};
ghost use Rattle.std.specs.Prelude.{IfErr, IsOk, OnOk, MatchResult, vec_len, vec_capacity};
ghost use Rattle.ca_dbr.specs.declared.data_type.BaseType.TheVariants as base_type;
ghost use Rattle.ca_dbr.specs.Types.{element_size, size_of_image, type_number};
ghost use Rattle.ca_dbr.specs.declared.data_type.DataType.{DataType};
ghost use Rattle.ca_text.specs.declared.refusal.Refusal.TheVariants.{OutOfMemory};
ghost use Rattle.ca_dbr.specs.Reading.{IsMeta};
ghost use Rattle.ca_dbr.specs.Elements.{elements, count_of};
ghost use Rattle.ca_dbr.specs.Conversion.{gathered, in_base, converted};
ghost use Rattle.ca_dbr.specs.Shown.{first_elements, Puts, PutsAll, PutsShown, WritesShown};

use crate::conversion::check_all;
use crate::data_type::{BaseType, DataType};
use crate::element::{ImageElement, put_all};
use crate::image::{put_meta, put_zeros, size_for};
use crate::numeric::{Conversion, NumberSource, ToNumber, ToText, Whole};
use crate::value::{Meta, Value};
use ca_text::Refusal;

/// The first n elements, or all if there are fewer.
fn first<T>(items: &[T], count: usize) -> &[T]
    ensures value { result.now ≡ take count items.now }
    ensures len { length result.now ≡ min count (length items.now) }
{
    if count < items.len() {
        return &items[..count];
    }
    items
}

/// Puts the bytes of what these convert to at the end, where room was made for them.
fn put_converted<S: Copy + Drop, T: ImageElement, C: Conversion<S, T>>(
    items: &[S],
    out: &mut Vec<u8>,
) -> Result<(), Refusal>
    requires { vec_len out.old + length items.now * T.SIZE ≤ vec_capacity out.old }
    ensures puts { PutsAll T.spelled T.fits (gathered C.gives items.now) out.old.items result
        out.new.items }
    ensures len { OnOk result (vec_len out.new ≡ vec_len out.old + length items.now * T.SIZE) }
    ensures capacity { vec_capacity out.old ≤ vec_capacity out.new }
{
    for item in items {
        match C::convert(*item) {
            Err(refusal) => return Err(refusal),
            Ok(x) => x.put(out),
        }
    }
    Ok(())
}

/// Puts the elements of these numbers in a type other than STRING at the end, where
/// room was made for them.
fn put_numbers<S: NumberSource>(
    items: &[S],
    base: BaseType,
    out: &mut Vec<u8>,
) -> Result<(), Refusal>
    requires other { base ≢ base_type.String }
    requires room { vec_len out.old + length items.now * element_size base ≤ vec_capacity out.old }
    ensures puts { Puts (in_base S.number items.now base) out.old.items result out.new.items }
    ensures len { OnOk result (vec_len out.new
        ≡ vec_len out.old + length items.now * element_size base) }
    ensures capacity { vec_capacity out.old ≤ vec_capacity out.new }
{
    match base {
        BaseType::String => unreachable!(),
        BaseType::Int => put_converted::<S, i16, ToNumber>(items, out),
        BaseType::Enum => put_converted::<S, u16, ToNumber>(items, out),
        BaseType::Char => put_converted::<S, u8, ToNumber>(items, out),
        BaseType::Long => put_converted::<S, i32, ToNumber>(items, out),
        BaseType::Float => Err(Refusal::NoConvert),
        BaseType::Double => Err(Refusal::NoConvert),
    }
}

/// Puts the elements of these numbers in another type at the end, where room was made for them.
fn put_whole<S: Whole>(items: &[S], base: BaseType, out: &mut Vec<u8>) -> Result<(), Refusal>
    requires { vec_len out.old + length items.now * element_size base ≤ vec_capacity out.old }
    ensures puts { Puts (in_base S.number items.now base) out.old.items result out.new.items }
    ensures len { OnOk result (vec_len out.new
        ≡ vec_len out.old + length items.now * element_size base) }
    ensures capacity { vec_capacity out.old ≤ vec_capacity out.new }
{
    match base {
        BaseType::String => put_converted::<S, [u8; 40], ToText>(items, out),
        _ => put_numbers(items, base, out),
    }
}

/// Puts the first of these elements at the end, where room was made for them.
fn put_same<E: ImageElement>(items: &[E], count: usize, out: &mut Vec<u8>) -> Result<(), Refusal>
    requires { vec_len out.old + min count (length items.now) * E.SIZE ≤ vec_capacity out.old }
    ensures puts { PutsAll E.spelled E.fits (Ok (take count items.now)) out.old.items result
        out.new.items }
    ensures len { OnOk result (vec_len out.new
        ≡ vec_len out.old + min count (length items.now) * E.SIZE) }
    ensures capacity { vec_capacity out.old ≤ vec_capacity out.new }
{
    put_all(first(items, count), out);
    Ok(())
}

/// Puts the first elements, converted, at the end, where room was made for them.
fn put_first(value: &Value, count: usize, base: BaseType, out: &mut Vec<u8>) -> Result<(), Refusal>
    requires { vec_len out.old + min count (count_of (elements value.now)) * element_size base
        ≤ vec_capacity out.old }
    ensures puts { Puts (converted (first_elements count (elements value.now)) base) out.old.items
        result out.new.items }
    ensures len { OnOk result (vec_len out.new
        ≡ vec_len out.old + min count (count_of (elements value.now)) * element_size base) }
    ensures capacity { vec_capacity out.old ≤ vec_capacity out.new }
{
    match (value, base) {
        (Value::Strings(items), BaseType::String) => put_same(items, count, out),
        (Value::Strings(items), _) => put_numbers(first(items, count), base, out),
        (Value::Ints(items), BaseType::Int) => put_same(items, count, out),
        (Value::Ints(items), _) => put_whole(first(items, count), base, out),
        (Value::Enums(items), BaseType::Enum) => put_same(items, count, out),
        (Value::Enums(items), _) => put_whole(first(items, count), base, out),
        (Value::Chars(items), BaseType::Char) => put_same(items, count, out),
        (Value::Chars(items), _) => put_whole(first(items, count), base, out),
        (Value::Longs(items), BaseType::Long) => put_same(items, count, out),
        (Value::Longs(items), _) => put_whole(first(items, count), base, out),
        (Value::Floats(items), BaseType::Float) => put_same(items, count, out),
        (Value::Doubles(items), BaseType::Double) => put_same(items, count, out),
        (Value::Floats(_), _) => Err(Refusal::NoConvert),
        (Value::Doubles(_), _) => Err(Refusal::NoConvert),
    }
}

/// Whether these numbers are in a type other than STRING; the first that is not decides.
fn check_numbers<S: NumberSource>(items: &[S], base: BaseType) -> Result<(), Refusal>
    requires { base ≢ base_type.String }
    ensures { MatchResult result (λ _. IsOk (in_base S.number items.now base))
        (λ e. in_base S.number items.now base ≡ Err e) }
{
    match base {
        BaseType::String => unreachable!(),
        BaseType::Int => check_all::<S, i16, ToNumber>(items),
        BaseType::Enum => check_all::<S, u16, ToNumber>(items),
        BaseType::Char => check_all::<S, u8, ToNumber>(items),
        BaseType::Long => check_all::<S, i32, ToNumber>(items),
        BaseType::Float => Err(Refusal::NoConvert),
        BaseType::Double => Err(Refusal::NoConvert),
    }
}

/// Whether these numbers are in a type; the first that is not decides.
fn check_whole<S: Whole>(items: &[S], base: BaseType) -> Result<(), Refusal>
    ensures { MatchResult result (λ _. IsOk (in_base S.number items.now base))
        (λ e. in_base S.number items.now base ≡ Err e) }
{
    match base {
        BaseType::String => check_all::<S, [u8; 40], ToText>(items),
        _ => check_numbers(items, base),
    }
}

/// Whether the first elements convert; the first that does not decides.
fn check_first(value: &Value, count: usize, base: BaseType) -> Result<(), Refusal>
    ensures { MatchResult result (λ _.
        IsOk (converted (first_elements count (elements value.now)) base))
        (λ e. converted (first_elements count (elements value.now)) base ≡ Err e) }
{
    match (value, base) {
        (Value::Strings(_), BaseType::String) => Ok(()),
        (Value::Strings(items), _) => check_numbers(first(items, count), base),
        (Value::Ints(_), BaseType::Int) => Ok(()),
        (Value::Ints(items), _) => check_whole(first(items, count), base),
        (Value::Enums(_), BaseType::Enum) => Ok(()),
        (Value::Enums(items), _) => check_whole(first(items, count), base),
        (Value::Chars(_), BaseType::Char) => Ok(()),
        (Value::Chars(items), _) => check_whole(first(items, count), base),
        (Value::Longs(_), BaseType::Long) => Ok(()),
        (Value::Longs(items), _) => check_whole(first(items, count), base),
        (Value::Floats(_), BaseType::Float) => Ok(()),
        (Value::Doubles(_), BaseType::Double) => Ok(()),
        (Value::Floats(_), _) => Err(Refusal::NoConvert),
        (Value::Doubles(_), _) => Err(Refusal::NoConvert),
    }
}

/// Puts the image of what a read shows at the end, where room was made for it.
fn put_shown(
    data_type: DataType,
    count: usize,
    value: &Value,
    meta: Meta,
    out: &mut Vec<u8>,
) -> Result<(), Refusal>
    requires { vec_len out.old + size_of_image data_type count ≤ vec_capacity out.old }
    ensures shown { PutsShown data_type count (elements value.now) meta out.old.items result
        out.new.items }
    ensures meta { IsMeta meta }
{
    put_meta(data_type.form, meta, out);
    put_zeros(data_type.padding_size(), out);
    match put_first(value, count, data_type.base, out) {
        Err(refusal) => Err(refusal),
        Ok(()) => {
            let missing = count.saturating_sub(value.count());
            put_zeros(missing * data_type.base.element_size(), out);
            Ok(())
        }
    }
}

/// Writes the image of a read at the end of the bytes: n elements of a value, in a type.
///
/// A count below the present one takes the first elements, before they are converted; after
/// the present ones elements of zero bytes follow. Refused as BadType if the type does not
/// exist, as NoConvert if the value does not convert to it, then as BadText or OutOfRange by
/// the first element at fault, then as OutOfMemory, only if there is no room for it; the
/// bytes are then as before.
pub fn write_shown(
    number: u16,
    count: u32,
    value: &Value,
    meta: &Meta,
    out: &mut Vec<u8>,
) -> Result<(), Refusal>
    ensures shown { WritesShown number count (elements value.now) meta.now out.old.items result
        out.new.items }
    ensures room { IfErr result (λ e. e ≡ OutOfMemory
        → (t : DataType) × (type_number t ≡ number)
        × (vec_capacity out.old < vec_len out.old + size_of_image t count)) }
    ensures meta { OnOk result (IsMeta meta.now) }
{
    let data_type = match DataType::of(number) {
        None => return Err(Refusal::BadType),
        Some(data_type) => data_type,
    };
    let count = count as usize;
    let start = out.len();
    match out.reserve(size_for(data_type, count)) {
        Err(_) => {
            // Out of memory is reported only if no element is at fault.
            check_first(value, count, data_type.base)?;
            Err(Refusal::OutOfMemory)
        }
        Ok(()) => match put_shown(data_type, count, value, *meta, out) {
            Ok(()) => Ok(()),
            Err(refusal) => {
                out.truncate(start);
                Err(refusal)
            }
        },
    }
}
