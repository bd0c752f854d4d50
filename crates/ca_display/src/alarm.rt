//! The alarm of a value by its limits.
ghost use Rattle.std.specs.Prelude.{◌≡◌, from_bits};
ghost use Rattle.std.specs.Float.{binary64};
ghost use Rattle.ca_dbr.specs.Elements.{elements};
ghost use Rattle.ca_display.specs.Alarm.{alarm_at, alarm_of, limit_alarm, one_alarm};
ghost use Rattle.ca_dbr.specs.Data.{limits_of};

use crate::numeric::Numeric;
use ca_dbr::{Limits, Value};
use std::num::f64_from_bits_with_nan;

// Statuses of the fields HIHI, HIGH, LOLO and LOW, and severities.
const HIHI: u16 = 3;

const HIGH: u16 = 4;

const LOLO: u16 = 5;

const LOW: u16 = 6;

const MINOR: u16 = 1;

const MAJOR: u16 = 2;

/// The status and severity of a value by these limits: HIHI and LOLO are MAJOR, HIGH and LOW are
/// MINOR. A limit that is no number is none, and neither is one of two with nothing between them,
/// as the zeros of a record without limits. A value has no alarm if it is no number, or not one
/// alone: a text, a state, or several elements.
#[inline(never)]
pub fn alarm_of(limits: &Limits, value: &Value) -> (u16, u16)
    ensures { result ≡ alarm_of (limits_of limits.now) (elements value.now) }
{
    match value {
        Value::Strings(_) => (0, 0),
        Value::Ints(items) => alarm_of_one(limits, items),
        Value::Floats(items) => alarm_of_one(limits, items),
        Value::Enums(_) => (0, 0),
        Value::Chars(items) => alarm_of_one(limits, items),
        Value::Longs(items) => alarm_of_one(limits, items),
        Value::Doubles(items) => alarm_of_one(limits, items),
    }
}

// The alarm of a value by its elements: of more than one there is none.
fn alarm_of_one<S: Numeric>(limits: &Limits, items: &[S]) -> (u16, u16)
    ensures { result ≡ one_alarm (limits_of limits.now) S.number items.now }
{
    let Some((item, others)) = items.split_first() else {
        return (0, 0);
    };
    if !others.is_empty() {
        return (0, 0);
    }
    match item.number() {
        Err(_) => (0, 0),
        Ok(number) => alarm_at(limits, f64_from_bits_with_nan(number.to_double())),
    }
}

// The alarm of one number.
fn alarm_at(limits: &Limits, value: f64) -> (u16, u16)
    ensures { result ≡ alarm_at (limits_of limits.now) value }
{
    let warned = limit_alarm(
        limits.lower_warning,
        limits.upper_warning,
        value,
        (LOW, MINOR),
        (HIGH, MINOR),
        (0, 0),
    );
    limit_alarm(
        limits.lower_alarm,
        limits.upper_alarm,
        value,
        (LOLO, MAJOR),
        (HIHI, MAJOR),
        warned,
    )
}

// Which of these a number is by a lower and an upper limit.
fn limit_alarm(
    lower: u64,
    upper: u64,
    value: f64,
    below: (u16, u16),
    above: (u16, u16),
    neither: (u16, u16),
) -> (u16, u16)
    ensures { result ≡ limit_alarm (from_bits binary64 lower) (from_bits binary64 upper) value below
        above neither }
{
    let lower = f64_from_bits_with_nan(lower);
    let upper = f64_from_bits_with_nan(upper);
    if upper <= lower {
        return neither;
    }
    if upper <= value {
        return above;
    }
    if value <= lower {
        return below;
    }
    neither
}
