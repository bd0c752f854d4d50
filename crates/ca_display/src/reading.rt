//! Images with display data, read.
ghost use Rattle.std.specs.Prelude.{◌≡◌, ◌≤◌, ◌<◌, ◌⊎◌, ◌+◌, ◌-◌, ◌*◌, ◌++◌, All, length, take};
ghost use Rattle.std.specs.Prelude.{drop, FitsSigned, IfOk, IfErr};
ghost use Rattle.std.specs.Int.{w16, from_be_bytes};
ghost use Rattle.std.specs.List.{flat_map};
ghost use Rattle.ca_text.specs.declared.refusal.Refusal.TheVariants.{BadCount, OutOfMemory};
ghost use Rattle.ca_dbr.specs.declared.data_type.BaseType.TheVariants as base_type;
ghost use Rattle.ca_dbr.specs.Types.{element_size};
ghost use Rattle.ca_dbr.specs.Elements.{Elements, elements, base_of, bytes_of, count_of, IsValue};
ghost use Rattle.ca_dbr.specs.Elements.{bytes_2, signed_bytes_2, string_bytes};
ghost use Rattle.ca_display.specs.declared.display_type.DisplayType.{DisplayType};
ghost use Rattle.ca_display.specs.Types.{display_number, data_size, limit_count};
ghost use Rattle.ca_dbr.specs.Data.{data_of, limits_of, in_field};
ghost use Rattle.ca_display.specs.Limits.{as_doubles};
ghost use Rattle.ca_display.specs.Reading.{ReadsReal, ReadsWhole, ReadsStates, ReadsData};
ghost use Rattle.ca_display.specs.Reading.{ReadsDisplay, DisplayRefused};
ghost use Rattle.ca_dbr.specs.declared.data_type.Form.TheVariants as plain_form;
ghost use Rattle.ca_dbr.specs.Image.{meta_bytes};
ghost use Rattle.ca_dbr.specs.Reading.{carried, IsMeta};

use crate::display_type::DisplayType;
use crate::image::data_size;
use crate::limits::doubles_of;
use ca_dbr::{BaseType, Display, Limits, Meta, STATE_LIMIT, Value, read_value};
use ca_text::Refusal;
use std::alloc::{AllocError, Global};

// These limits, at most eight, in the order in which images have them; the others are zero.
fn to_limits(doubles: &[u64]) -> Limits
    requires { length doubles.now ≤ 8 }
    ensures { limits_of result ≡ in_field 8 doubles.now }
{
    let mut all = [0; 8];
    all[..doubles.len()].copy_from_slice(doubles);
    Limits {
        upper_display: all[0],
        lower_display: all[1],
        upper_alarm: all[2],
        upper_warning: all[3],
        lower_warning: all[4],
        lower_alarm: all[5],
        upper_control: all[6],
        lower_control: all[7],
    }
}

// The units at the front.
fn read_units(bytes: &[u8]) -> [u8; 8]
    requires { 8 ≤ length bytes.now }
    ensures { result ≡ take 8 bytes.now }
{
    let mut units = [0; 8];
    units.copy_from_slice(&bytes[..8]);
    units
}

// The limits that these bytes show.
fn read_limits(alloc: Global, data_type: DisplayType, bytes: &[u8]) -> Result<Limits, Refusal>
    requires { length bytes.now ≡ limit_count data_type.form * element_size data_type.base }
    ensures read { IfOk result (λ l. (shown : Elements) × (bytes.now ≡ bytes_of shown)
        × (base_of shown ≡ data_type.base) × (count_of shown ≡ limit_count data_type.form)
        × IsValue shown × (limits_of l ≡ in_field 8 (as_doubles shown))) }
    ensures err { IfErr result (λ e. e ≡ OutOfMemory) }
{
    let count = data_type.limit_count() as u32;
    let (shown, _) = read_value(alloc, data_type.base.number(), count, bytes)?;
    let doubles = doubles_of(alloc, &shown)?;
    Ok(to_limits(&doubles))
}

// The display data of an image of a type with whole numbers: units, limits and padding.
fn read_whole(alloc: Global, data_type: DisplayType, bytes: &[u8]) -> Result<Display, Refusal>
    requires { 8 + limit_count data_type.form * element_size data_type.base ≤ length bytes.now }
    ensures read { IfOk result (λ d. ReadsWhole data_type.base data_type.form
        (length bytes.now - (8 + limit_count data_type.form * element_size data_type.base))
        bytes.now (data_of d)) }
    ensures err { IfErr result (λ e. e ≡ OutOfMemory) }
{
    let size = data_type.limit_count() * data_type.base.element_size();
    let units = read_units(bytes);
    let rest = &bytes[8..];
    let limits = read_limits(alloc, data_type, &rest[..size])?;
    Ok(Display {
        units,
        precision: 0,
        limits,
        states: Vec::new(alloc),
    })
}

// A precision.
#[tactic(auto, unfolding(ca_dbr::specs::Elements::signed_bytes_2))]
fn read_precision(bytes: &[u8]) -> i16
    requires { length bytes.now ≡ 2 }
    ensures again { signed_bytes_2 result ≡ bytes.now }
    ensures fits { FitsSigned w16 result }
{
    i16::from_be_bytes([bytes[0], bytes[1]])
}

// The display data of an image of FLOAT or DOUBLE: precision, padding, units and limits.
fn read_real(alloc: Global, data_type: DisplayType, bytes: &[u8]) -> Result<Display, Refusal>
    requires { length bytes.now ≡ 12 + limit_count data_type.form * element_size data_type.base }
    ensures read { IfOk result (λ d. ReadsReal data_type.base data_type.form bytes.now
        (data_of d)) }
    ensures err { IfErr result (λ e. e ≡ OutOfMemory) }
{
    let precision = read_precision(&bytes[..2]);
    let units = read_units(&bytes[4..]);
    let limits = read_limits(alloc, data_type, &bytes[12..])?;
    Ok(Display {
        units,
        precision,
        limits,
        states: Vec::new(alloc),
    })
}

// A number of 16 bits.
#[tactic(auto, unfolding(ca_dbr::specs::Elements::bytes_2))]
fn read_number(bytes: &[u8]) -> u16
    requires { length bytes.now ≡ 2 }
    ensures again { bytes_2 result ≡ bytes.now }
    ensures value { result ≡ from_be_bytes w16 bytes.now }
{
    u16::from_be_bytes([bytes[0], bytes[1]])
}

// One name of these bytes.
fn read_name(bytes: &[u8]) -> [u8; 26]
    requires { length bytes.now ≡ 26 }
    ensures { result ≡ bytes.now }
{
    let mut name = [0; 26];
    name.copy_from_slice(bytes);
    name
}

// n names at the front.
#[tactic(auto, unfolding(ca_dbr::specs::Elements::string_bytes))]
fn read_names(alloc: Global, count: usize, bytes: &[u8]) -> Result<Vec<[u8; 26]>, AllocError>
    requires { count * 26 ≤ length bytes.now }
    ensures again { IfOk result (λ v.
        flat_map string_bytes v.items ≡ take (count * 26) bytes.now) }
    ensures count { IfOk result (λ v. length v.items ≡ count) }
    ensures names { IfOk result (λ v. All (λ x. length x ≡ 26) v.items) }
{
    let mut names = Vec::new(alloc);
    let mut rest = bytes;
    for _ in 0..count {
        let (front, behind) = rest.split_at(26);
        names.push(read_name(front))?;
        rest = behind;
    }
    Ok(names)
}

// The states of an image of ENUM: their number, and 16 names. Refused as BadCount if there are
// more.
fn read_states(alloc: Global, bytes: &[u8]) -> Result<Display, Refusal>
    requires { length bytes.now ≡ 418 }
    ensures read { IfOk result (λ d. ReadsStates bytes.now (data_of d)) }
    ensures err { IfErr result (λ e. (e ≡ OutOfMemory)
        ⊎ ((e ≡ BadCount) × (16 < from_be_bytes w16 (take 2 bytes.now)))) }
{
    let count = usize::from(read_number(&bytes[..2]));
    if count > STATE_LIMIT {
        return Err(Refusal::BadCount);
    }
    let states = read_names(alloc, count, &bytes[2..])?;
    Ok(Display {
        units: [0; 8],
        precision: 0,
        limits: Limits::ZERO,
        states,
    })
}

// The display data of an image of a type.
fn read_data(alloc: Global, data_type: DisplayType, bytes: &[u8]) -> Result<Display, Refusal>
    requires { length bytes.now ≡ data_size data_type.base data_type.form }
    ensures read { IfOk result (λ d. ReadsData data_type.base data_type.form bytes.now
        (data_of d)) }
    ensures err { IfErr result (λ e. (e ≡ OutOfMemory) ⊎ ((e ≡ BadCount)
        × (data_type.base ≡ base_type.Enum) × (16 < from_be_bytes w16 (take 2 bytes.now)))) }
{
    match data_type.base {
        BaseType::String => Ok(Display {
            units: [0; 8],
            precision: 0,
            limits: Limits::ZERO,
            states: Vec::new(alloc),
        }),
        BaseType::Int => read_whole(alloc, data_type, bytes),
        BaseType::Float => read_real(alloc, data_type, bytes),
        BaseType::Enum => read_states(alloc, bytes),
        BaseType::Char => read_whole(alloc, data_type, bytes),
        BaseType::Long => read_whole(alloc, data_type, bytes),
        BaseType::Double => read_real(alloc, data_type, bytes),
    }
}

// The status and severity at the front.
fn read_alarm(bytes: &[u8]) -> Meta
    requires { 4 ≤ length bytes.now }
    ensures front { bytes.now ≡ meta_bytes plain_form.Status result ++ drop 4 bytes.now }
    ensures meta { IsMeta result }
    ensures only { carried plain_form.Status result ≡ result }
{
    Meta {
        status: read_number(&bytes[..2]),
        severity: read_number(&bytes[2..4]),
        seconds: 0,
        nanos: 0,
    }
}

/// Reads the image of n elements with display data. Refused as BadType if the type is none with
/// display data, as BadCount if there are more than 16 states, as Short if the bytes are too few,
/// or as OutOfMemory. An image of both faults, which has too many states and lacks elements, is
/// BadCount.
///
/// Limits of the type are given as DOUBLEs; what the type does not carry is zero. Padding, names
/// after the last state, and bytes after the last element are not read.
pub fn read_display(
    alloc: Global,
    number: u16,
    count: u32,
    bytes: &[u8],
) -> Result<(Value, Meta, Display), Refusal>
    ensures read { IfOk result (λ r. (t : DisplayType) × (display_number t ≡ number)
        × ReadsDisplay t count bytes.now (elements r.0) r.1 (data_of r.2)) }
    ensures refused { IfErr result (DisplayRefused number count bytes.now) }
{
    let data_type = match DisplayType::of(number) {
        None => return Err(Refusal::BadType),
        Some(data_type) => data_type,
    };
    let size = data_size(data_type);
    if bytes.len() < 4 + size {
        return Err(Refusal::Short);
    }
    let meta = read_alarm(bytes);
    let rest = &bytes[4..];
    let display = match read_data(alloc, data_type, &rest[..size]) {
        Err(refusal) => return Err(refusal),
        Ok(display) => display,
    };
    match read_value(alloc, data_type.base.number(), count, &rest[size..]) {
        Err(refusal) => Err(refusal),
        Ok((value, _)) => Ok((value, meta, display)),
    }
}
