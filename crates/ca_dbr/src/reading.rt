//! Reads a value from a DBR payload. Begin at `read_value`; `read_over` is the fast path that
//! replaces one element in place.
ghost use Rattle.std.specs.Prelude.{◌≡◌, ◌≤◌, ◌<◌, ◌+◌, ◌-◌, ◌*◌, ◌++◌, All, false, length, take};
ghost use Rattle.std.specs.Prelude.{drop, replicate, true, IfOk, IfErr, OnErr, ◌≢◌};
ghost use Rattle.std.specs.List.{flat_map};
ghost use Rattle.ca_dbr.specs.declared.data_type.DataType.{DataType};
ghost use Rattle.ca_dbr.specs.Types.{type_number, meta_size};
ghost use Rattle.ca_dbr.specs.Elements.{elements};
ghost use Rattle.ca_dbr.specs.Image.{meta_bytes};
ghost use Rattle.ca_dbr.specs.Reading.{carried, IsMeta, ReadsElements, ReadsOver, Reads};
ghost use Rattle.ca_dbr.specs.Reading.{ReadRefused, least_size};

use crate::data_type::{BaseType, DataType, Form};
use crate::element::{ImageElement, read_all};
use crate::value::{Meta, Value};
use ca_text::Refusal;
use std::alloc::{AllocError, Global};

/// How many bytes n elements take at least: a single STRING may come in any number.
fn least_size(base: BaseType, count: u32) -> usize
    ensures { result ≡ least_size base count }
{
    match base {
        BaseType::String if count == 1 => 0,
        _ => count as usize * base.element_size(),
    }
}

/// The metadata at the front, as far as the form carries it.
fn read_meta(form: Form, bytes: &[u8]) -> Meta
    requires { meta_size form ≤ length bytes.now }
    ensures front { bytes.now ≡ meta_bytes form result ++ drop (meta_size form) bytes.now }
    ensures meta { IsMeta result }
    ensures only { carried form result ≡ result }
{
    match form {
        Form::Plain => Meta::ZERO,
        Form::Status => Meta {
            status: u16::read(&bytes[..2]),
            severity: u16::read(&bytes[2..4]),
            seconds: 0,
            nanos: 0,
        },
        Form::Time => Meta {
            status: u16::read(&bytes[..2]),
            severity: u16::read(&bytes[2..4]),
            seconds: u32::read(&bytes[4..8]),
            nanos: u32::read(&bytes[8..12]),
        },
    }
}

/// The text at the front, filled with zero bytes.
fn read_text(bytes: &[u8]) -> [u8; 40]
    ensures { result ≡ take 40 (bytes.now ++ replicate (40 - length bytes.now) 0) }
{
    let mut text = [0; 40];
    let size = bytes.len().min(40);
    text[..size].copy_from_slice(&bytes[..size]);
    text
}

/// The elements at the front. They take the memory of a value of their type, if one is given.
#[inline(always)]
fn read_elements(
    alloc: Global,
    room: Option<Value>,
    base: BaseType,
    count: u32,
    bytes: &[u8],
) -> Result<Value, AllocError>
    requires { least_size base count ≤ length bytes.now }
    ensures read { IfOk result (λ value. ReadsElements base count bytes.now (elements value)) }
    ensures some { OnErr result (count ≢ 0) }
{
    let count = count as usize;
    match base {
        BaseType::String if count == 1 => {
            let mut items = texts_in(alloc, room);
            items.clear();
            items.push(read_text(bytes))?;
            Ok(Value::Strings(items))
        }
        BaseType::String => Ok(Value::Strings(read_all(texts_in(alloc, room), count, bytes)?)),
        BaseType::Int => Ok(Value::Ints(read_all(ints_in(alloc, room), count, bytes)?)),
        BaseType::Float => Ok(Value::Floats(read_all(floats_in(alloc, room), count, bytes)?)),
        BaseType::Enum => Ok(Value::Enums(read_all(enums_in(alloc, room), count, bytes)?)),
        BaseType::Char => Ok(Value::Chars(read_all(chars_in(alloc, room), count, bytes)?)),
        BaseType::Long => Ok(Value::Longs(read_all(longs_in(alloc, room), count, bytes)?)),
        BaseType::Double => Ok(Value::Doubles(read_all(doubles_in(alloc, room), count, bytes)?)),
    }
}

impl Value {
    /// Reads one element of the plain type of this number over the one that is there: it does not
    /// allocate, and nothing is moved. False, and nothing changes, if it is of another type than
    /// this value, if the bytes are too few, if there are several elements, and for texts.
    #[inline(always)]
    pub fn read_over(&mut self, number: u16, bytes: &[u8]) -> bool
        ensures { ReadsOver number bytes.now (elements self.old) result (elements self.new) }
    {
        if self.base_type().number() != number {
            return false;
        }
        match self {
            Value::Strings(_) => false,
            Value::Ints(items) => read_one_over(items, bytes),
            Value::Floats(items) => read_one_over(items, bytes),
            Value::Enums(items) => read_one_over(items, bytes),
            Value::Chars(items) => read_one_over(items, bytes),
            Value::Longs(items) => read_one_over(items, bytes),
            Value::Doubles(items) => read_one_over(items, bytes),
        }
    }
}

/// Reads an element over the one that is there. False, and nothing changes, if there is not just
/// one, or the bytes are too few.
#[inline(always)]
fn read_one_over<E: ImageElement>(items: &mut Vec<E>, bytes: &[u8]) -> bool
    ensures again { result ≡ true → flat_map E.spelled items.new.items ≡ take E.SIZE bytes.now }
    ensures count { result ≡ true → length items.new.items ≡ 1 }
    ensures one { result ≡ true → length items.old.items ≡ 1 }
    ensures fits { result ≡ true → All E.fits items.new.items }
    ensures enough { result ≡ true → E.SIZE ≤ length bytes.now }
    ensures same { result ≡ false → items.new ≡ items.old }
    ensures unfit { result ≡ false → length items.old.items ≡ 1 → E.SIZE ≤ length bytes.now → ⊥ }
{
    if items.len() != 1 || bytes.len() < E::SIZE {
        return false;
    }
    items[0] = E::read(&bytes[..E::SIZE]);
    true
}

/// Reads the image of n elements. Refused as BadType if the type does not exist, as Short if the
/// bytes are too few, then as OutOfMemory, only if there are elements.
///
/// A STRING of count 1 may come in fewer than 40 bytes, the missing ones are zero. Padding, and
/// bytes after the last element, are not read. Metadata that the type does not carry is zero.
pub fn read_value(
    alloc: Global,
    number: u16,
    count: u32,
    bytes: &[u8],
) -> Result<(Value, Meta), Refusal>
    ensures read { IfOk result (λ r.
        (t : DataType) × (type_number t ≡ number) × Reads t count bytes.now (elements r.0) r.1) }
    ensures refused { IfErr result (ReadRefused number count bytes.now) }
{
    read_value_into(alloc, None, number, count, bytes)
}

/// Reads the image of n elements, as `read_value`, into the memory of a value that is no longer
/// used, if there is one and its elements are of that type.
#[inline(always)]
pub fn read_value_into(
    alloc: Global,
    room: Option<Value>,
    number: u16,
    count: u32,
    bytes: &[u8],
) -> Result<(Value, Meta), Refusal>
    ensures read { IfOk result (λ r.
        (t : DataType) × (type_number t ≡ number) × Reads t count bytes.now (elements r.0) r.1) }
    ensures refused { IfErr result (ReadRefused number count bytes.now) }
{
    let data_type = match DataType::of(number) {
        None => return Err(Refusal::BadType),
        Some(data_type) => data_type,
    };
    let front = data_type.meta_size() + data_type.padding_size();
    if bytes.len() < front + least_size(data_type.base, count) {
        return Err(Refusal::Short);
    }
    let meta = read_meta(data_type.form, bytes);
    let value = read_elements(alloc, room, data_type.base, count, &bytes[front..])?;
    Ok((value, meta))
}

// The memory of a value of texts, or none yet. These are in line: a vector that is handed back in
// memory is stored as words, and a load of 16 bytes of it right after has to wait.
#[inline(always)]
fn texts_in(alloc: Global, room: Option<Value>) -> Vec<[u8; 40]> {
    match room {
        Some(Value::Strings(items)) => items,
        _ => Vec::new(alloc),
    }
}

// The memory of a value of INTs, or none yet.
#[inline(always)]
fn ints_in(alloc: Global, room: Option<Value>) -> Vec<i16> {
    match room {
        Some(Value::Ints(items)) => items,
        _ => Vec::new(alloc),
    }
}

// The memory of a value of FLOATs, or none yet.
#[inline(always)]
fn floats_in(alloc: Global, room: Option<Value>) -> Vec<u32> {
    match room {
        Some(Value::Floats(items)) => items,
        _ => Vec::new(alloc),
    }
}

// The memory of a value of ENUMs, or none yet.
#[inline(always)]
fn enums_in(alloc: Global, room: Option<Value>) -> Vec<u16> {
    match room {
        Some(Value::Enums(items)) => items,
        _ => Vec::new(alloc),
    }
}

// The memory of a value of CHARs, or none yet.
#[inline(always)]
fn chars_in(alloc: Global, room: Option<Value>) -> Vec<u8> {
    match room {
        Some(Value::Chars(items)) => items,
        _ => Vec::new(alloc),
    }
}

// The memory of a value of LONGs, or none yet.
#[inline(always)]
fn longs_in(alloc: Global, room: Option<Value>) -> Vec<i32> {
    match room {
        Some(Value::Longs(items)) => items,
        _ => Vec::new(alloc),
    }
}

// The memory of a value of DOUBLEs, or none yet.
#[inline(always)]
fn doubles_in(alloc: Global, room: Option<Value>) -> Vec<u64> {
    match room {
        Some(Value::Doubles(items)) => items,
        _ => Vec::new(alloc),
    }
}
