//! Images with display data, written: what is before the elements, and the elements.
ghost use Rattle.std.specs.Prelude.{◌≡◌, ◌≢◌, ◌≤◌, ◌<◌, ◌⊎◌, ◌++◌, ◌+◌, ◌-◌, ◌*◌, length};
ghost use Rattle.std.specs.Prelude.{IfErr, MatchResult, OnErr, OnOk, replicate, vec_len};
ghost use Rattle.std.specs.Prelude.{vec_capacity};
ghost use Rattle.std.specs.List.{flat_map};
ghost use Rattle.ca_dbr.specs.declared.data_type.Form.TheVariants as plain_form;
ghost use Rattle.ca_dbr.specs.Types.{element_size};
ghost use Rattle.ca_dbr.specs.Elements.{base_of, elements, string_bytes, bytes_2};
ghost use Rattle.ca_dbr.specs.Image.{meta_bytes};
ghost use Rattle.ca_display.specs.declared.image_type.ImageType.{ImageType};
ghost use Rattle.ca_display.specs.declared.image_type.ImageType.TheVariants as any;
ghost use Rattle.ca_display.specs.Types.{base_in, image_number, data_size, limit_count};
ghost use Rattle.ca_dbr.specs.Data.{data_of};
ghost use Rattle.ca_display.specs.Image.{limit_bytes, real_bytes, data_bytes, size_of_display};
ghost use Rattle.ca_display.specs.Image.{size_in, PutsOwn, WritesIn, WritesDisplay};
ghost use Rattle.ca_text.specs.declared.refusal.Refusal.TheVariants.{BadType, OutOfMemory};

use crate::conversion::convert_first;
use crate::display_type::DisplayType;
use crate::image_type::ImageType;
use crate::limits::put_limits_in;
use ca_dbr::{BaseType, Display, Meta, STATE_LIMIT, Value, put_bytes, put_zeros, write_shown};
use ca_text::Refusal;

// How many bytes are between status and severity and the elements.
pub(crate) fn data_size(data_type: DisplayType) -> usize
    ensures { result ≡ data_size data_type.base data_type.form }
{
    let limits = data_type.limit_count() * data_type.base.element_size();
    match data_type.base {
        BaseType::String => 0,
        BaseType::Int => 8 + limits,
        BaseType::Float => 12 + limits,
        BaseType::Enum => 418,
        BaseType::Char => 9 + limits,
        BaseType::Long => 8 + limits,
        BaseType::Double => 12 + limits,
    }
}

// How many bytes an image of n elements takes.
fn size_for(data_type: DisplayType, count: u32) -> usize
    ensures { result ≡ size_of_display data_type count }
{
    let front = 4 + data_size(data_type);
    front + count as usize * data_type.base.element_size()
}

/// How many bytes an image of n elements takes, of a record with display data. Refused as BadType
/// if the type does not exist.
pub fn display_size(number: u16, count: u32) -> Result<usize, Refusal>
    ensures { MatchResult result
        (λ size. (t : ImageType) × (image_number t ≡ number) × (size ≡ size_in t count))
        (λ e. (e ≡ BadType) × (34 < number)) }
{
    match ImageType::of(number) {
        None => Err(Refusal::BadType),
        Some(image_type) => Ok(size_in(image_type, count)),
    }
}

// How many bytes an image of n elements takes, in any type.
fn size_in(image_type: ImageType, count: u32) -> usize
    ensures { result ≡ size_in image_type count }
{
    match image_type {
        ImageType::Data(data_type) => {
            let front = data_type.meta_size() + data_type.padding_size();
            front + count as usize * data_type.base.element_size()
        }
        ImageType::Display(display_type) => size_for(display_type, count),
    }
}

// Puts units and limits at the end, where room was made for them.
fn put_limits(data_type: DisplayType, display: &Display, out: &mut Vec<u8>)
    requires { vec_len out.old + (8 + limit_count data_type.form * element_size data_type.base)
        ≤ vec_capacity out.old }
    ensures after { out.new.items ≡ out.old.items
        ++ limit_bytes data_type.base data_type.form (data_of display.now) }
    ensures len { vec_len out.new
        ≤ vec_len out.old + (8 + limit_count data_type.form * element_size data_type.base) }
    ensures capacity { vec_capacity out.old ≤ vec_capacity out.new }
{
    let all = display.limits.in_order();
    put_bytes(&display.units, out);
    put_limits_in(data_type.base, &all[..data_type.limit_count()], out);
}

// Puts precision, padding, units and limits at the end, where room was made for them.
#[tactic(auto, unfolding(ca_dbr::specs::Elements::signed_bytes_2))]
fn put_real(data_type: DisplayType, display: &Display, out: &mut Vec<u8>)
    requires { vec_len out.old + (12 + limit_count data_type.form * element_size data_type.base)
        ≤ vec_capacity out.old }
    ensures after { out.new.items ≡ out.old.items
        ++ real_bytes data_type.base data_type.form (data_of display.now) }
    ensures len { vec_len out.new
        ≤ vec_len out.old + (12 + limit_count data_type.form * element_size data_type.base) }
    ensures capacity { vec_capacity out.old ≤ vec_capacity out.new }
{
    put_bytes(&display.precision.to_be_bytes(), out);
    put_zeros(2, out);
    put_limits(data_type, display, out);
}

// Puts these names at the end, where room was made for them.
#[tactic(auto, unfolding(ca_dbr::specs::Elements::string_bytes))]
fn put_names(names: &[[u8; 26]], out: &mut Vec<u8>)
    requires { vec_len out.old + length names.now * 26 ≤ vec_capacity out.old }
    ensures after { out.new.items ≡ out.old.items ++ flat_map string_bytes names.now }
    ensures len { vec_len out.new ≡ vec_len out.old + length names.now * 26 }
    ensures capacity { vec_capacity out.old ≤ vec_capacity out.new }
{
    for name in names {
        put_bytes(name, out);
    }
}

// Puts the number of states, their names and those that are missing at the end, where room was
// made for them.
#[tactic(auto, unfolding(ca_dbr::specs::Elements::bytes_2))]
fn put_states(names: &[[u8; 26]], out: &mut Vec<u8>)
    requires few { length names.now ≤ 16 }
    requires room { vec_len out.old + 418 ≤ vec_capacity out.old }
    ensures after { out.new.items ≡ out.old.items ++ (bytes_2 (length names.now)
        ++ (flat_map string_bytes names.now
        ++ replicate ((16 - length names.now) * 26) 0)) }
    ensures len { vec_len out.new ≤ vec_len out.old + 418 }
    ensures capacity { vec_capacity out.old ≤ vec_capacity out.new }
{
    put_bytes(&(names.len() as u16).to_be_bytes(), out);
    put_names(names, out);
    put_zeros((STATE_LIMIT - names.len()) * 26, out);
}

// Puts the display data that is in an image at the end, where room was made for it.
fn put_data(data_type: DisplayType, display: &Display, out: &mut Vec<u8>)
    requires { vec_len out.old + data_size data_type.base data_type.form
        ≤ vec_capacity out.old }
    ensures after { out.new.items ≡ out.old.items
        ++ data_bytes data_type.base data_type.form (data_of display.now) }
    ensures len { vec_len out.new ≤ vec_len out.old + data_size data_type.base data_type.form }
    ensures capacity { vec_capacity out.old ≤ vec_capacity out.new }
{
    match data_type.base {
        BaseType::String => {}
        BaseType::Int => put_limits(data_type, display, out),
        BaseType::Float => put_real(data_type, display, out),
        BaseType::Enum => put_states(&display.states, out),
        BaseType::Char => {
            put_limits(data_type, display, out);
            put_zeros(1, out);
        }
        BaseType::Long => put_limits(data_type, display, out),
        BaseType::Double => put_real(data_type, display, out),
    }
}

// Puts what is before the elements of an image at the end, where room was made for it.
#[tactic(auto, unfolding(ca_dbr::specs::Elements::bytes_2))]
fn put_front(data_type: DisplayType, meta: Meta, display: &Display, out: &mut Vec<u8>)
    requires { vec_len out.old + (4 + data_size data_type.base data_type.form)
        ≤ vec_capacity out.old }
    ensures after { out.new.items ≡ out.old.items ++ (meta_bytes plain_form.Status meta
        ++ data_bytes data_type.base data_type.form (data_of display.now)) }
    ensures len { vec_len out.new
        ≤ vec_len out.old + (4 + data_size data_type.base data_type.form) }
    ensures capacity { vec_capacity out.old ≤ vec_capacity out.new }
{
    put_bytes(&meta.status.to_be_bytes(), out);
    put_bytes(&meta.severity.to_be_bytes(), out);
    put_data(data_type, display, out);
}

// Writes the image of n elements of a value at the end of the bytes, in a type with display data
// and of the value's own base. Refused as OutOfMemory, only if there is no room for it; the bytes
// are then as before.
fn write_with_display(
    data_type: DisplayType,
    count: u32,
    value: &Value,
    meta: &Meta,
    display: &Display,
    out: &mut Vec<u8>,
) -> Result<(), Refusal>
    requires { base_of (elements value.now) ≡ data_type.base }
    ensures written { OnOk result (PutsOwn (any.Display data_type) count (elements value.now)
        meta.now (data_of display.now) out.old.items out.new.items) }
    ensures err { IfErr result (λ e. e ≡ OutOfMemory) }
    ensures stays { OnErr result (out.new.items ≡ out.old.items) }
    ensures room { OnErr result (vec_capacity out.old
        < vec_len out.old + size_of_display data_type count) }
{
    out.reserve(size_for(data_type, count))?;
    put_front(data_type, *meta, display, out);
    match write_shown(data_type.base.number(), count, value, &Meta::ZERO, out) {
        Ok(()) => Ok(()),
        Err(_) => unreachable!(),
    }
}

// Writes an image in any type of the value's own base.
fn write_own(
    image_type: ImageType,
    count: u32,
    value: &Value,
    meta: &Meta,
    display: &Display,
    out: &mut Vec<u8>,
) -> Result<(), Refusal>
    requires { base_of (elements value.now) ≡ base_in image_type }
    ensures written { OnOk result (PutsOwn image_type count (elements value.now) meta.now
        (data_of display.now) out.old.items out.new.items) }
    ensures err { IfErr result (λ e. e ≡ OutOfMemory) }
    ensures stays { OnErr result (out.new.items ≡ out.old.items) }
    ensures room { OnErr result (vec_capacity out.old
        < vec_len out.old + size_in image_type count) }
{
    match image_type {
        ImageType::Data(data_type) => {
            match write_shown(data_type.number(), count, value, meta, out) {
                Ok(()) => Ok(()),
                Err(_) => Err(Refusal::OutOfMemory),
            }
        }
        ImageType::Display(display_type) => {
            write_with_display(display_type, count, value, meta, display, out)
        }
    }
}

// Writes the image of n elements of a value at the end of the bytes, in a type of another base.
fn write_converted(
    image_type: ImageType,
    count: u32,
    value: &Value,
    meta: &Meta,
    display: &Display,
    out: &mut Vec<u8>,
) -> Result<(), Refusal>
    ensures { WritesIn image_type count (elements value.now) meta.now (data_of display.now)
        out.old.items result out.new.items }
{
    let alloc = *out.allocator();
    match convert_first(alloc, value, count as usize, image_type.base(), display) {
        Err(refusal) => Err(refusal),
        Ok(shown) => write_own(image_type, count, &shown, meta, display, out),
    }
}

/// Writes the image of what a read shows of a record with display data at the end of the bytes: n
/// elements of its value, in a type.
///
/// A count below the value's takes its first elements, before they are converted; after all of them
/// elements of zero bytes follow. Refused as BadType if the type does not exist, then by the first
/// element that does not convert; and as OutOfMemory, only if there is no room for it or the value
/// is not of the type's base. The bytes are then as before.
pub fn write_display(
    number: u16,
    count: u32,
    value: &Value,
    meta: &Meta,
    display: &Display,
    out: &mut Vec<u8>,
) -> Result<(), Refusal>
    ensures written { WritesDisplay number count (elements value.now) meta.now (data_of display.now)
        out.old.items result out.new.items }
    ensures room { IfErr result (λ e. e ≡ OutOfMemory
        → (t : ImageType) × (image_number t ≡ number)
        × ((vec_capacity out.old < vec_len out.old + size_in t count)
        ⊎ (base_of (elements value.now) ≢ base_in t))) }
{
    let image_type = match ImageType::of(number) {
        None => return Err(Refusal::BadType),
        Some(image_type) => image_type,
    };
    if value.base_type() == image_type.base() {
        return write_own(image_type, count, value, meta, display, out);
    }
    write_converted(image_type, count, value, meta, display, out)
}
