//! A channel's value (elements of one of the seven types), its alarm and time stamp, and the
//! outcome of a request. FLOAT and DOUBLE are kept as bit patterns.
ghost use Rattle.std.specs.Prelude.{◌≡◌, ◌≢◌, IfOk, IfErr, OnErr, length};
ghost use Rattle.ca_text.specs.declared.refusal.Refusal.TheVariants.{OutOfMemory};
ghost use Rattle.ca_dbr.specs.Elements.{elements, base_of, count_of, IsValue};
ghost use Rattle.ca_dbr.specs.Held.{IsHeldValue};

use crate::data_type::BaseType;
use crate::display::Display;
use crate::element::know_all;
use ca_text::{Refusal, Status};
use std::alloc::{AllocError, Global};

/// The elements of one channel's value: all of one type.
#[derive(Debug, Drop, PartialEq, Eq)]
pub enum Value {
    /// Texts: the bytes before the first zero.
    Strings(Vec<[u8; 40]>),
    Ints(Vec<i16>),
    /// Bit patterns.
    Floats(Vec<u32>),
    Enums(Vec<u16>),
    Chars(Vec<u8>),
    Longs(Vec<i32>),
    /// Bit patterns.
    Doubles(Vec<u64>),
}

/// What goes with a value: its alarm's status and severity, and when it was written.
#[derive(Clone, Copy, Debug, PartialEq, Eq)]
pub struct Meta {
    pub status: u16,
    pub severity: u16,
    /// Seconds since 1990-01-01 00:00:00 UTC.
    pub seconds: u32,
    pub nanos: u32,
}

/// What became of a request, or of a subscription's update.
#[derive(Debug, Drop, PartialEq, Eq)]
pub enum Outcome {
    /// A read, or an update, with its value.
    Value(Value, Meta),
    /// A read with display data: its value, its status and severity, and these.
    Displayed(Value, Meta, Box<Display>),
    /// A put with notification was done.
    Done,
    /// The server answered with this status.
    Failed(Status),
    /// The payload has no value of its type and count.
    Unreadable(Refusal),
    /// The circuit was lost, or the channel was cleared.
    Disconnected,
}

impl Meta {
    /// What plain types come with.
    pub const ZERO: Meta = Meta {
        status: 0,
        severity: 0,
        seconds: 0,
        nanos: 0,
    };
}

impl Value {
    /// The type of its elements.
    pub fn base_type(&self) -> BaseType
        ensures { result ≡ base_of (elements self.now) }
    {
        match self {
            Value::Strings(_) => BaseType::String,
            Value::Ints(_) => BaseType::Int,
            Value::Floats(_) => BaseType::Float,
            Value::Enums(_) => BaseType::Enum,
            Value::Chars(_) => BaseType::Char,
            Value::Longs(_) => BaseType::Long,
            Value::Doubles(_) => BaseType::Double,
        }
    }

    /// How many elements it has.
    pub fn count(&self) -> usize
        ensures { result ≡ count_of (elements self.now) }
    {
        match self {
            Value::Strings(items) => items.len(),
            Value::Ints(items) => items.len(),
            Value::Floats(items) => items.len(),
            Value::Enums(items) => items.len(),
            Value::Chars(items) => items.len(),
            Value::Longs(items) => items.len(),
            Value::Doubles(items) => items.len(),
        }
    }

    /// Tells that each element is one of its type, so that a record may hold it. It does nothing.
    pub fn know(&self)
        ensures valued { IsValue (elements self.now) }
        ensures held { IsHeldValue (elements self.now) }
    {
        match self {
            Value::Strings(items) => know_all(items),
            Value::Ints(items) => know_all(items),
            Value::Floats(items) => know_all(items),
            Value::Enums(items) => know_all(items),
            Value::Chars(items) => know_all(items),
            Value::Longs(items) => know_all(items),
            Value::Doubles(items) => know_all(items),
        }
    }

    /// A copy of the value. Refused as OutOfMemory, only if there are elements.
    pub fn copy(&self, alloc: Global) -> Result<Value, Refusal>
        ensures ok { IfOk result (λ v. elements v ≡ elements self.now) }
        ensures err { IfErr result (λ e. (e ≡ OutOfMemory) × (count_of (elements self.now) ≢ 0)) }
    {
        match self {
            Value::Strings(items) => Ok(Value::Strings(copied(alloc, items)?)),
            Value::Ints(items) => Ok(Value::Ints(copied(alloc, items)?)),
            Value::Floats(items) => Ok(Value::Floats(copied(alloc, items)?)),
            Value::Enums(items) => Ok(Value::Enums(copied(alloc, items)?)),
            Value::Chars(items) => Ok(Value::Chars(copied(alloc, items)?)),
            Value::Longs(items) => Ok(Value::Longs(copied(alloc, items)?)),
            Value::Doubles(items) => Ok(Value::Doubles(copied(alloc, items)?)),
        }
    }
}

/// A copy of the items in a Vec of their own. It does not allocate if there are none.
pub(crate) fn copied<T: Copy + Drop>(alloc: Global, items: &[T]) -> Result<Vec<T>, AllocError>
    ensures ok { IfOk result (λ v. v.items ≡ items.now) }
    ensures err { OnErr result (length items.now ≢ 0) }
{
    if items.is_empty() {
        return Ok(Vec::new(alloc));
    }
    Vec::from_slice(alloc, items)
}
