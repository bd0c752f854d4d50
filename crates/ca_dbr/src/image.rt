//! Writes a value as a DBR payload: status, severity and time stamp if the type carries them,
//! padding, then the elements. Begin at `write_value`; `reading.rt` is the way back.
ghost use Rattle.std.specs.Prelude.{◌≡◌, ◌≤◌, ◌<◌, ◌+◌, ◌-◌, ◌*◌, ◌^◌, ◌++◌, min, replicate};
ghost use Rattle.std.specs.Prelude.{MatchResult, OnOk, vec_len, vec_capacity, IfErr};
ghost use Rattle.ca_dbr.specs.declared.data_type.DataType.{DataType};
ghost use Rattle.ca_dbr.specs.Types.{type_number, element_size, meta_size, size_of_image};
ghost use Rattle.ca_dbr.specs.Elements.{elements, base_of, count_of, bytes_of, IsValue};
ghost use Rattle.ca_dbr.specs.Image.{meta_bytes, Types, Writes};
ghost use Rattle.ca_dbr.specs.Reading.{IsMeta};
ghost use Rattle.ca_text.specs.declared.refusal.Refusal.TheVariants.{BadType, OutOfMemory};

use crate::data_type::{DataType, Form};
use crate::element::{ImageElement, put_all};
use crate::value::{Meta, Value};
use ca_text::Refusal;

/// How many bytes an image of n elements takes. Refused as BadType if the type does not exist.
pub fn image_size(number: u16, count: u32) -> Result<usize, Refusal>
    ensures { MatchResult result
        (λ size. (t : DataType) × (type_number t ≡ number) × (size ≡ size_of_image t count))
        (λ e. (e ≡ BadType) × (20 < number)) }
{
    match DataType::of(number) {
        None => Err(Refusal::BadType),
        Some(data_type) => Ok(size_for(data_type, count as usize)),
    }
}

/// The size of an image, or the greatest number if it is over that.
pub(crate) fn size_for(data_type: DataType, count: usize) -> usize
    ensures { result ≡ min (size_of_image data_type count) (2 ^ 64 - 1) }
{
    let front = data_type.meta_size() + data_type.padding_size();
    let size = data_type.base.element_size();
    count.saturating_mul(size).saturating_add(front)
}

/// Puts the metadata that the form carries at the end, where room was made for it.
pub(crate) fn put_meta(form: Form, meta: Meta, out: &mut Vec<u8>)
    requires { vec_len out.old + meta_size form ≤ vec_capacity out.old }
    ensures after { out.new.items ≡ out.old.items ++ meta_bytes form meta }
    ensures meta { IsMeta meta }
    ensures len { vec_len out.new ≡ vec_len out.old + meta_size form }
    ensures capacity { vec_capacity out.old ≤ vec_capacity out.new }
{
    match form {
        Form::Plain => {}
        Form::Status => {
            meta.status.put(out);
            meta.severity.put(out);
        }
        Form::Time => {
            meta.status.put(out);
            meta.severity.put(out);
            meta.seconds.put(out);
            meta.nanos.put(out);
        }
    }
}

/// Puts n zero bytes at the end, where room was made for them.
pub fn put_zeros(count: usize, out: &mut Vec<u8>)
    requires { vec_len out.old + count ≤ vec_capacity out.old }
    ensures after { out.new.items ≡ out.old.items ++ replicate count 0 }
    ensures len { vec_len out.new ≡ vec_len out.old + count }
    ensures capacity { vec_capacity out.old ≤ vec_capacity out.new }
{
    if count == 0 {
        return;
    }
    let len = out.len() + count;
    match out.resize(len, 0) {
        Ok(()) => {}
        Err(_) => unreachable!(),
    }
}

/// Puts the elements at the end, where room was made for them.
fn put_elements(value: &Value, out: &mut Vec<u8>)
    requires { vec_len out.old + count_of (elements value.now)
        * element_size (base_of (elements value.now)) ≤ vec_capacity out.old }
    ensures after { out.new.items ≡ out.old.items ++ bytes_of (elements value.now) }
    ensures fits { IsValue (elements value.now) }
{
    match value {
        Value::Strings(items) => put_all(items, out),
        Value::Ints(items) => put_all(items, out),
        Value::Floats(items) => put_all(items, out),
        Value::Enums(items) => put_all(items, out),
        Value::Chars(items) => put_all(items, out),
        Value::Longs(items) => put_all(items, out),
        Value::Doubles(items) => put_all(items, out),
    }
}

/// Writes the image of a value at the end of the bytes. Refused as BadType if the type does not
/// exist or is not the value's own, then as OutOfMemory, only if there is no room for it; the
/// bytes are then as before.
pub fn write_value(
    number: u16,
    value: &Value,
    meta: &Meta,
    out: &mut Vec<u8>,
) -> Result<(), Refusal>
    ensures written { Writes number (elements value.now) meta.now out.old.items result
        out.new.items }
    ensures room { IfErr result (λ e. e ≡ OutOfMemory
        → (t : DataType) × Types number (elements value.now) t
        × (vec_capacity out.old < vec_len out.old
        + size_of_image t (count_of (elements value.now)))) }
    ensures value { OnOk result (IsValue (elements value.now)) }
    ensures meta { OnOk result (IsMeta meta.now) }
{
    let data_type = match DataType::of(number) {
        None => return Err(Refusal::BadType),
        Some(data_type) => data_type,
    };
    if data_type.base != value.base_type() {
        return Err(Refusal::BadType);
    }
    out.reserve(size_for(data_type, value.count()))?;
    put_meta(data_type.form, *meta, out);
    put_zeros(data_type.padding_size(), out);
    put_elements(value, out);
    Ok(())
}
