//! Limits in the type of an image, and as DOUBLEs again.
ghost use Rattle.std.specs.Prelude.{◌≡◌, ◌≤◌, ℕ, ◌+◌, ◌*◌, ◌++◌, List, length, map, IfOk, vec_len};
ghost use Rattle.std.specs.Prelude.{vec_capacity};
ghost use Rattle.std.specs.List.{flat_map};
ghost use Rattle.ca_dbr.specs.Types.{element_size};
ghost use Rattle.ca_dbr.specs.Elements.{elements, bytes_of, byte_1, bytes_4, bytes_8};
ghost use Rattle.ca_dbr.specs.Elements.{signed_bytes_2, signed_bytes_4};
ghost use Rattle.ca_display.specs.Limits.{int_limit, char_limit, long_limit, float_limit};
ghost use Rattle.ca_display.specs.Limits.{double_limit, limits_in, whole_as_double};
ghost use Rattle.ca_display.specs.Limits.{natural_as_double, float_as_double, as_doubles};

use ca_dbr::{BaseType, Value, put_bytes};
use std::alloc::{AllocError, Global};
use std::num::{
    f32_from_bits_with_nan, f32_to_bits_with_nan, f32_to_f64_with_nan, f64_from_bits_with_nan,
    f64_to_bits_with_nan, nearest_f64_to_f32_with_nan, nearest_i64_to_f64, saturating_f64_to_i32,
};

// An element that a limit may be shown as.
trait Limit: Copy + Drop {
    ghost SIZE: { ℕ };

    ghost narrowed: { ℕ → Self };

    ghost widened: { Self → ℕ };

    ghost spelled: { Self → List ℕ };

    /// What a limit is in this type.
    fn of_double(bits: u64) -> Self
        ensures { result ≡ narrowed bits };

    /// The DOUBLE that it is.
    fn as_double(self) -> u64
        ensures { result ≡ widened self };

    /// Puts its bytes at the end, where room was made for them.
    fn put(self, out: &mut Vec<u8>)
        requires { vec_len out.old + SIZE ≤ vec_capacity out.old }
        ensures after { out.new.items ≡ out.old.items ++ spelled self }
        ensures len { vec_len out.new ≡ vec_len out.old + SIZE }
        ensures capacity { vec_capacity out.old ≤ vec_capacity out.new };
}

impl Limit for i16 {
    ghost SIZE = { 2 };

    ghost narrowed = { int_limit };

    ghost widened = { whole_as_double };

    ghost spelled = { signed_bytes_2 };

    fn of_double(bits: u64) -> i16 {
        let low = i32::of_double(bits).cast_unsigned() % 0x1_0000;
        (low as u16).cast_signed()
    }

    fn as_double(self) -> u64 {
        f64_to_bits_with_nan(nearest_i64_to_f64(i64::from(self)))
    }

    #[tactic(auto, unfolding(ca_dbr::specs::Elements::signed_bytes_2))]
    fn put(self, out: &mut Vec<u8>) {
        put_bytes(&self.to_be_bytes(), out);
    }
}

impl Limit for u8 {
    ghost SIZE = { 1 };

    ghost narrowed = { char_limit };

    ghost widened = { natural_as_double };

    ghost spelled = { byte_1 };

    fn of_double(bits: u64) -> u8 {
        (i32::of_double(bits).cast_unsigned() % 0x100) as u8
    }

    fn as_double(self) -> u64 {
        f64_to_bits_with_nan(nearest_i64_to_f64(i64::from(self)))
    }

    #[tactic(auto, unfolding(ca_dbr::specs::Elements::byte_1))]
    fn put(self, out: &mut Vec<u8>) {
        put_bytes(&[self], out);
    }
}

impl Limit for i32 {
    ghost SIZE = { 4 };

    ghost narrowed = { long_limit };

    ghost widened = { whole_as_double };

    ghost spelled = { signed_bytes_4 };

    fn of_double(bits: u64) -> i32 {
        saturating_f64_to_i32(f64_from_bits_with_nan(bits))
    }

    fn as_double(self) -> u64 {
        f64_to_bits_with_nan(nearest_i64_to_f64(i64::from(self)))
    }

    #[tactic(auto, unfolding(ca_dbr::specs::Elements::signed_bytes_4))]
    fn put(self, out: &mut Vec<u8>) {
        put_bytes(&self.to_be_bytes(), out);
    }
}

impl Limit for u32 {
    ghost SIZE = { 4 };

    ghost narrowed = { float_limit };

    ghost widened = { float_as_double };

    ghost spelled = { bytes_4 };

    fn of_double(bits: u64) -> u32 {
        f32_to_bits_with_nan(nearest_f64_to_f32_with_nan(f64_from_bits_with_nan(bits)))
    }

    fn as_double(self) -> u64 {
        f64_to_bits_with_nan(f32_to_f64_with_nan(f32_from_bits_with_nan(self)))
    }

    #[tactic(auto, unfolding(ca_dbr::specs::Elements::bytes_4))]
    fn put(self, out: &mut Vec<u8>) {
        put_bytes(&self.to_be_bytes(), out);
    }
}

impl Limit for u64 {
    ghost SIZE = { 8 };

    ghost narrowed = { double_limit };

    ghost widened = { double_limit };

    ghost spelled = { bytes_8 };

    fn of_double(bits: u64) -> u64 {
        bits
    }

    fn as_double(self) -> u64 {
        self
    }

    #[tactic(auto, unfolding(ca_dbr::specs::Elements::bytes_8))]
    fn put(self, out: &mut Vec<u8>) {
        put_bytes(&self.to_be_bytes(), out);
    }
}

// Puts these limits in a type at the end, where room was made for them.
fn put_all<T: Limit>(limits: &[u64], out: &mut Vec<u8>)
    requires { vec_len out.old + length limits.now * T.SIZE ≤ vec_capacity out.old }
    ensures after { out.new.items ≡ out.old.items
        ++ flat_map T.spelled (map T.narrowed limits.now) }
    ensures len { vec_len out.new ≡ vec_len out.old + length limits.now * T.SIZE }
    ensures capacity { vec_capacity out.old ≤ vec_capacity out.new }
{
    for limit in limits {
        T::of_double(*limit).put(out);
    }
}

// Puts these limits in the type of an image at the end, where room was made for them: none in
// STRING and ENUM.
pub(crate) fn put_limits_in(base: BaseType, limits: &[u64], out: &mut Vec<u8>)
    requires { vec_len out.old + length limits.now * element_size base ≤ vec_capacity out.old }
    ensures after { out.new.items ≡ out.old.items ++ bytes_of (limits_in base limits.now) }
    ensures len { vec_len out.new ≤ vec_len out.old + length limits.now * element_size base }
    ensures capacity { vec_capacity out.old ≤ vec_capacity out.new }
{
    match base {
        BaseType::String => {}
        BaseType::Int => put_all::<i16>(limits, out),
        BaseType::Float => put_all::<u32>(limits, out),
        BaseType::Enum => {}
        BaseType::Char => put_all::<u8>(limits, out),
        BaseType::Long => put_all::<i32>(limits, out),
        BaseType::Double => put_all::<u64>(limits, out),
    }
}

// The DOUBLEs that these are.
fn as_doubles<T: Limit>(alloc: Global, items: &[T]) -> Result<Vec<u64>, AllocError>
    ensures { IfOk result (λ v. v.items ≡ map T.widened items.now) }
{
    let mut doubles = Vec::new(alloc);
    for item in items {
        doubles.push(item.as_double())?;
    }
    Ok(doubles)
}

// Limits that an image shows, as DOUBLEs.
pub(crate) fn doubles_of(alloc: Global, shown: &Value) -> Result<Vec<u64>, AllocError>
    ensures { IfOk result (λ v. v.items ≡ as_doubles (elements shown.now)) }
{
    match shown {
        Value::Strings(_) => Ok(Vec::new(alloc)),
        Value::Ints(items) => as_doubles(alloc, items),
        Value::Floats(items) => as_doubles(alloc, items),
        Value::Enums(_) => Ok(Vec::new(alloc)),
        Value::Chars(items) => as_doubles(alloc, items),
        Value::Longs(items) => as_doubles(alloc, items),
        Value::Doubles(items) => as_doubles(alloc, items),
    }
}
