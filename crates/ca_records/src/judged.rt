//! Converts the elements of a write to the record's type. A write that does not convert, or that
//! finds no place to wait, gets its ECA status here.
ghost use Rattle.std.specs.Prelude.{◌≡◌, ◌≢◌, IfErr, IfOk, Ok, OnErr};
ghost use Rattle.ca_dbr.specs.Conversion.{Fails};
ghost use Rattle.ca_dbr.specs.Elements.{Elements, base_of, elements};
ghost use Rattle.ca_dbr.specs.Held.{Kind, kind_of};
ghost use Rattle.ca_records.specs.Judging.{Judges, converted_as};

use ca_dbr::Value;
use ca_display::Held;
use ca_text::{Refusal, Status};
use std::alloc::Global;

// What is to become of a write's elements.
#[derive(Drop)]
pub(crate) enum Judged {
    // They are these, in the type of the record.
    Fits(Value),
    // They are refused by this status.
    Refused(Status),
    // There is no fault, and no memory for them.
    NoMemory,
}

// Judges elements for a record that holds this, on which the write may find no place to wait.
#[inline(always)]
pub(crate) fn judge(alloc: Global, value: Value, held: &Held, is_crowded: bool) -> Judged
    ensures { Judges (elements value) (kind_of held.now) is_crowded result }
{
    match in_type(alloc, value, held) {
        Ok(value) => {
            if is_crowded {
                return Judged::Refused(Status::PUTFAIL);
            }
            Judged::Fits(value)
        }
        Err(refusal) => refused(refusal, is_crowded),
    }
}

// What a conversion that gave no elements comes to.
fn refused(refusal: Refusal, is_crowded: bool) -> Judged
    ensures { (e : Elements) (k : Kind) → base_of e ≢ k.base → Fails (converted_as e k) refusal
        → Judges e k is_crowded result }
{
    match refusal {
        Refusal::NoConvert => Judged::Refused(Status::NOCONVERT),
        Refusal::OutOfMemory => {
            if is_crowded {
                return Judged::Refused(Status::PUTFAIL);
            }
            Judged::NoMemory
        }
        _ => Judged::Refused(Status::PUTFAIL),
    }
}

// The elements in the type of what a record holds. Those of this type are handed on as they are.
#[inline(always)]
fn in_type(alloc: Global, value: Value, held: &Held) -> Result<Value, Refusal>
    ensures ok { IfOk result (λ v. converted_as (elements value) (kind_of held.now)
        ≡ Ok (elements v)) }
    ensures err { IfErr result (Fails (converted_as (elements value) (kind_of held.now))) }
    ensures other { OnErr result (base_of (elements value) ≢ base_of held.now) }
{
    if value.base_type() == held.value().base_type() {
        return Ok(value);
    }
    changed(alloc, value, held)
}

// The elements in another type than theirs. It takes the value and is out of line, so that a value
// of this type is lent to nobody, and stays in registers.
#[inline(never)]
fn changed(alloc: Global, value: Value, held: &Held) -> Result<Value, Refusal>
    requires { base_of (elements value) ≢ base_of held.now }
    ensures ok { IfOk result (λ v. converted_as (elements value) (kind_of held.now)
        ≡ Ok (elements v)) }
    ensures err { IfErr result (Fails (converted_as (elements value) (kind_of held.now))) }
{
    held.convert(alloc, &value)
}
