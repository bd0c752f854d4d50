//! A record's own state: name, greatest element count, value, alarm and time stamp, and whether a
//! put takes it time. Puts that wait are kept in `served_record.rt`.
ghost use Rattle.std.specs.Prelude.{◌≡◌, IfErr, IfOk, MatchResult, OnOk};
ghost use Rattle.ca_text.specs.Limits.{record_name_limit};
ghost use Rattle.ca_text.specs.Name.{IsName};
ghost use Rattle.ca_text.specs.declared.refusal.Refusal.TheVariants.{BadCount, NameLength};
ghost use Rattle.std.specs.Arc.{arc_value};
ghost use Rattle.ca_dbr.specs.DisplayData.{IsData};
ghost use Rattle.ca_dbr.specs.Elements.{displayed, elements};
ghost use Rattle.ca_dbr.specs.Held.{bare};
ghost use Rattle.ca_dbr.specs.Data.{data_of};
ghost use Rattle.ca_records.specs.Layout.{IsFit, MayNotHave};
ghost use Rattle.ca_records.specs.Over.{TakesOver, in_place_of};
ghost use Rattle.ca_records.specs.Puts.{written_meta};
ghost use Rattle.ca_records.specs.Record.{HoldsValue, IsRecord, IsUnfit};

use crate::puts::Stamp;
use ca_dbr::{Display, Meta, Value};
use ca_display::Held;
use ca_text::{ELEMENT_LIMIT, RecordName, Refusal};
use std::alloc::{AllocError, Global};
use std::marker::Model;
use std::sync::Arc;

/// A record: a name, the greatest element count, whether a put takes it time, and what it holds: a
/// value with its metadata, and display data if it has some.
#[derive(Debug, Drop)]
pub struct Record {
    name: Vec<u8>,
    count: u32,
    slow: bool,
    held: Held,
    meta: Meta,
}

impl Model for Record {
    ghost use Rattle.ca_records.specs.Record.{RecordState, IsRecord};

    ghost Value = { RecordState };

    ghost use Rattle.std.specs.Coded.{codes};
    ghost use Rattle.ca_dbr.specs.Codes.{elements_code};

    ghost coded = { Prim.hlevel (codes, elements_code) };

    ghost view = { λ r.
        record {
          name = r.name.items;
          count = r.count;
          slow = r.slow;
          value = r.held;
          meta = r.meta;
        } };

    ghost invariant = { λ r.
        IsRecord (record {
          name = r.name.items;
          count = r.count;
          slow = r.slow;
          value = r.held;
          meta = r.meta;
        }) };
}

impl Record {
    // A record of parts that are fit for one.
    pub(crate) fn new(name: Vec<u8>, count: u32, slow: bool, held: Held, meta: Meta) -> Record
        requires name { IsName record_name_limit name.items }
        requires value { HoldsValue count held }
        ensures { result
            ≡ record {
              name = name.items;
              count = count;
              slow = slow;
              value = held;
              meta = meta;
            } }
    {
        held.know();
        Record {
            name,
            count,
            slow,
            held,
            meta,
        }
    }

    // A copy of the record.
    pub(crate) fn copy(&self, alloc: Global) -> Result<Record, AllocError>
        ensures { IfOk result (λ copy. copy ≡ self.now) }
    {
        let held = self.held.copy(alloc)?;
        let name = Vec::from_slice(alloc, &self.name)?;
        Ok(Record::new(name, self.count, self.slow, held, self.meta))
    }

    // Sets the display data that its value is shown by.
    pub(crate) fn set_display(&mut self, display: Arc<Display>)
        ensures shown { self.new ≡ record self.old {
          value = displayed (data_of (arc_value display)) (bare self.old.value);
        } }
        ensures data { IsData (data_of (arc_value display)) }
    {
        display.know();
        self.held.set_display(display);
    }

    // Sets the value and what goes with it. Hands out the value before. Display data stay.
    pub(crate) fn set(&mut self, value: Value, meta: Meta) -> Value
        requires { HoldsValue self.old.count (in_place_of self.old.value (elements value)) }
        ensures { self.new
            ≡ record self.old { value = in_place_of self.old.value (elements value); meta = meta } }
    {
        Value::know(&value);
        self.meta = meta;
        self.held.set(value)
    }

    // Writes the value under this stamp. Hands out the value before. Display data stay.
    #[inline(always)]
    pub(crate) fn write(&mut self, value: Value, stamp: Stamp) -> Value
        requires { HoldsValue self.old.count (in_place_of self.old.value (elements value)) }
        ensures { self.new ≡ record self.old {
          value = in_place_of self.old.value (elements value);
          meta = written_meta (in_place_of self.old.value (elements value)) stamp;
        } }
    {
        Value::know(&value);
        let before = self.held.set(value);
        self.meta = stamp.meta(&self.held);
        before
    }

    // Writes one element of its type, as these bytes have it, over its value under this stamp.
    // False, and nothing changes, if the value does not take it.
    #[inline(always)]
    pub(crate) fn read_over(&mut self, number: u16, bytes: &[u8], stamp: Stamp) -> bool
        ensures { TakesOver number bytes.now (λ held. written_meta held stamp) self.old result
            self.new }
    {
        if !self.held.read_over(number, bytes) {
            return false;
        }
        self.meta = stamp.meta(&self.held);
        true
    }

    // Whether it may have this value by a post, in place of its own: of its type, with one element
    // to the greatest count.
    pub(crate) fn check_post(&self, value: &Value) -> Result<(), Refusal>
        ensures ok { OnOk result
            (IsFit self.now (in_place_of self.now.value (elements value.now))) }
        ensures err { IfErr result
            (MayNotHave self.now (in_place_of self.now.value (elements value.now))) }
    {
        if value.base_type() != self.held.value().base_type() {
            return Err(Refusal::BadType);
        }
        let present = value.count();
        if present == 0 || present > self.count as usize {
            return Err(Refusal::BadCount);
        }
        value.know();
        Ok(())
    }

    /// The name's bytes.
    pub fn name(&self) -> &[u8]
        ensures { result.now ≡ self.now.name }
    {
        &self.name
    }

    /// The greatest element count.
    pub fn count(&self) -> u32
        ensures count { result ≡ self.now.count }
        ensures record { IsRecord self.now }
    {
        self.count
    }

    /// Whether a put with notification makes the record busy.
    pub fn is_slow(&self) -> bool
        ensures { result ≡ self.now.slow }
    {
        self.slow
    }

    /// What it holds: the present value, and its display data.
    pub fn held(&self) -> &Held
        ensures held { result.now ≡ self.now.value }
        ensures record { IsRecord self.now }
    {
        &self.held
    }

    /// The alarm of the value, and its stamp.
    pub fn meta(&self) -> &Meta
        ensures { result.now ≡ self.now.meta }
    {
        &self.meta
    }
}

// Whether a record may have this name, and hold this under this greatest count. The name is judged
// first.
pub(crate) fn check(name: &[u8], count: u32, held: &Held) -> Result<(), Refusal>
    ensures { MatchResult result (λ _.
        IsName record_name_limit name.now × HoldsValue count held.now)
        (IsUnfit name.now count held.now) }
{
    RecordName::read(name)?;
    check_held(count, held)?;
    Ok(())
}

// Whether a record may hold this under this greatest count.
pub(crate) fn check_held(count: u32, held: &Held) -> Result<(), Refusal>
    ensures { MatchResult result (λ _. HoldsValue count held.now)
        (λ e. (e ≡ BadCount) × (HoldsValue count held.now → ⊥)) }
{
    let limit = count as usize;
    let present = held.value().count();
    if present == 0 || present > limit || limit > ELEMENT_LIMIT {
        return Err(Refusal::BadCount);
    }
    Ok(())
}
