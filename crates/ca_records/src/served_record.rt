//! One record as a server keeps it: its value, the put that makes it busy, and the puts that wait
//! for its end. Begin at `begin`, which takes a write, and `finish`, which ends a put.
ghost use Rattle.std.specs.Prelude.{◌≡◌, ◌+◌, ◌<◌, ◌≤◌, IfOk, OnErr, Ok, false, if◌then◌else◌};
ghost use Rattle.std.specs.Prelude.{is_some, length, nat_lt, not, true};
ghost use Rattle.std.specs.Arc.{arc_value};
ghost use Rattle.ca_text.specs.Limits.{waiting_puts};
ghost use Rattle.ca_dbr.specs.Elements.{count_of, elements};
ghost use Rattle.ca_dbr.specs.Data.{data_of};
ghost use Rattle.ca_records.specs.Puts.{new_record, shown_by, with_value, with_waiting};
ghost use Rattle.ca_records.specs.Puts.{with_write, without_puts, written_meta};
ghost use Rattle.ca_records.specs.Layout.{IsFit, waiting_on};
ghost use Rattle.ca_records.specs.Writes.{BeginsOn, FinishesOn, Takes, is_of, must_wait};
ghost use Rattle.ca_records.specs.Judging.{more_waiting};
ghost use Rattle.ca_records.specs.Over.{PutsOver, WritesOver, in_place_of};
ghost use Rattle.ca_records.specs.declared.puts.Begun.TheVariants.{Waiting};

use crate::judged::{Judged, judge};
use crate::puts::{Begun, Put, QueuedPut, Stamp};
use crate::record::Record;
use ca_arena::Handle;
use ca_dbr::{Display, Meta, Value};
use ca_text::WAITING_PUTS;
use std::alloc::{AllocError, Global};
use std::collections::VecDeque;
use std::marker::Model;
use std::sync::Arc;

/// A record that is served: with the put that makes it busy, and those that wait, in the
/// order in which they came.
#[derive(Debug, Drop)]
pub struct ServedRecord {
    record: Record,
    busy: Option<Put>,
    waiting: VecDeque<QueuedPut>,
    // The value before this one: its memory is for the next.
    spare: Option<Value>,
}

impl Model for ServedRecord {
    ghost use Rattle.ca_records.specs.Puts as puts;

    ghost Value = { puts.Record };

    ghost use Rattle.std.specs.Coded.{codes};
    ghost use Rattle.ca_dbr.specs.Codes.{elements_code};

    ghost coded = { Prim.hlevel (codes, elements_code) };

    ghost use Rattle.ca_records.specs.Layout.{AreFit, waiting_on};

    ghost view = { λ r.
        record { state = r.record; busy = r.busy; waiting = waiting_on r.record r.waiting.items } };

    ghost invariant = { λ r. AreFit r.record (waiting_on r.record r.waiting.items) };
}

impl ServedRecord {
    // A record, neither busy nor waited for. It does not allocate.
    pub(crate) fn new(alloc: Global, state: Record) -> ServedRecord
        ensures { result ≡ new_record state }
    {
        ServedRecord {
            record: state,
            busy: None,
            waiting: VecDeque::new(alloc),
            spare: None,
        }
    }

    /// Its name, its value and what it may hold.
    pub fn state(&self) -> &Record
        ensures { result.now ≡ self.now.state }
    {
        &self.record
    }

    /// Whether a put with notification makes it busy now.
    pub fn is_busy(&self) -> bool
        ensures { result ≡ is_some self.now.busy }
    {
        self.busy.is_some()
    }

    /// The put that makes it busy.
    pub(crate) fn busy_put(&self) -> Option<Put>
        ensures { result ≡ self.now.busy }
    {
        self.busy
    }

    /// How many puts wait for it.
    pub fn waits(&self) -> usize
        ensures { result ≡ length self.now.waiting }
    {
        self.waiting.len()
    }

    // The puts that wait, in order.
    pub(crate) fn waiting(&self) -> &VecDeque<QueuedPut>
        ensures { waiting_on self.now.state result.now.items ≡ self.now.waiting }
    {
        &self.waiting
    }

    // Begins a write; one that is to wait needs that it can be counted.
    #[inline(always)]
    pub(crate) fn begin(
        &mut self,
        put: Option<Put>,
        value: Value,
        stamp: Stamp,
        is_countable: bool,
    ) -> Result<Begun, AllocError>
        requires some { 0 < count_of (elements value) }
        requires within { count_of (elements value) ≤ self.old.state.count }
        ensures begins { BeginsOn stamp self.old put (elements value) result self.new }
        ensures countable { is_countable ≡ false → more_waiting result ≡ 0 }
    {
        let is_crowded = self.is_crowded(&put);
        let alloc = *self.waiting.allocator();
        match judge(alloc, value, self.record.held(), is_crowded) {
            Judged::Refused(status) => Ok(Begun::Refused(status)),
            Judged::NoMemory => Err(AllocError),
            Judged::Fits(value) => {
                value.know();
                self.take(put, value, stamp, is_countable)
            }
        }
    }

    // Writes one element of the record's type, as these bytes have it, over its value: a plain
    // write, or a put that neither waits nor makes the record busy. False, and nothing changes, if
    // it is another; that is for `begin`.
    #[inline(always)]
    pub(crate) fn write_one(
        &mut self,
        is_put: bool,
        number: u16,
        bytes: &[u8],
        stamp: Stamp,
    ) -> bool
        ensures { WritesOver stamp self.old is_put number bytes.now result self.new }
    {
        if is_put && (self.busy.is_some() || self.record.is_slow()) {
            return false;
        }
        self.record.read_over(number, bytes, stamp)
    }

    // Writes one element over its value and makes the record busy with this put. False, and nothing
    // changes, if the put would wait or the record is quick, or the element is another.
    #[inline(always)]
    pub(crate) fn put_one(&mut self, put: Put, number: u16, bytes: &[u8], stamp: Stamp) -> bool
        ensures { PutsOver stamp self.old put number bytes.now result self.new }
    {
        if self.busy.is_some() || !self.record.is_slow() {
            return false;
        }
        if !self.record.read_over(number, bytes, stamp) {
            return false;
        }
        self.busy = Some(put);
        true
    }

    // Whether this write is one that is to wait, while as many wait as may.
    fn is_crowded(&self, put: &Option<Put>) -> bool
        ensures { result
            ≡ (if must_wait self.now put.now then not
            (nat_lt (length self.now.waiting) waiting_puts) else false) }
    {
        put.is_some() && self.busy.is_some() && self.waiting.len() >= WAITING_PUTS
    }

    // Takes a write without a fault.
    #[inline(always)]
    fn take(
        &mut self,
        put: Option<Put>,
        value: Value,
        stamp: Stamp,
        is_countable: bool,
    ) -> Result<Begun, AllocError>
        requires { IsFit self.old.state (in_place_of self.old.state.value (elements value)) }
        ensures takes { IfOk result (λ begun. Takes stamp self.old put
            (in_place_of self.old.state.value (elements value)) begun self.new) }
        ensures countable { is_countable ≡ false → more_waiting result ≡ 0 }
        ensures memory { OnErr result ((must_wait self.old put ≡ true) × (self.new ≡ self.old)) }
    {
        let Some(put) = put else {
            self.write(value, stamp);
            return Ok(Begun::Applied(false));
        };
        if self.busy.is_some() {
            if !is_countable {
                return Err(AllocError);
            }
            return self.wait(put, value);
        }
        self.write(value, stamp);
        if self.record.is_slow() {
            self.busy = Some(put);
            return Ok(Begun::Applied(true));
        }
        Ok(Begun::Applied(false))
    }

    // Lets a put wait after the others.
    fn wait(&mut self, put: Put, value: Value) -> Result<Begun, AllocError>
        requires { IsFit self.old.state (in_place_of self.old.state.value (elements value)) }
        ensures waits { IfOk result (λ begun.
            (begun ≡ Waiting)
            × (self.new ≡ with_waiting
            (record { put = put; value = in_place_of self.old.state.value (elements value) })
            self.old)) }
        ensures memory { OnErr result (self.new ≡ self.old) }
    {
        self.waiting.reserve(1)?;
        self.waiting.push_back_reserved(QueuedPut { put, value });
        Ok(Begun::Waiting)
    }

    // Writes its value. In line, so that the value goes there in registers.
    #[inline(always)]
    fn write(&mut self, value: Value, stamp: Stamp)
        requires { IsFit self.old.state (in_place_of self.old.state.value (elements value)) }
        ensures { self.new
            ≡ with_write (in_place_of self.old.state.value (elements value)) stamp self.old }
    {
        self.spare = Some(self.record.write(value, stamp));
    }

    // Sets its value, and what goes with it. In line, so that the value goes there in registers.
    #[inline(always)]
    pub(crate) fn apply(&mut self, value: Value, meta: Meta)
        requires { IsFit self.old.state (in_place_of self.old.state.value (elements value)) }
        ensures { self.new
            ≡ with_value (in_place_of self.old.state.value (elements value)) meta self.old }
    {
        self.spare = Some(self.record.set(value, meta));
    }

    // The value before this one, if its memory was not asked for yet.
    pub(crate) fn take_spare(&mut self) -> Option<Value>
        ensures { self.new ≡ self.old }
    {
        self.spare.take()
    }

    // Ends the busy put, and applies the next one that waits.
    pub(crate) fn finish(&mut self, stamp: Stamp) -> Option<(Put, Option<Put>)>
        ensures { FinishesOn stamp self.old result self.new }
    {
        let ended = self.busy?;
        match self.waiting.pop_front() {
            None => {
                self.busy = None;
                Some((ended, None))
            }
            Some(next) => {
                self.write(next.value, stamp);
                self.busy = Some(next.put);
                Some((ended, Some(next.put)))
            }
        }
    }

    // It is shown by these display data from now on, and what waits for it will be.
    pub(crate) fn set_display(&mut self, display: Arc<Display>)
        ensures { self.new ≡ shown_by (data_of (arc_value display)) self.old }
    {
        self.record.set_display(display);
    }

    // Takes the waiting puts of a circuit out, or of one channel of it. Tells how many they were.
    pub(crate) fn withdraw(&mut self, circuit: Handle, channel: Option<Handle>) -> usize
        ensures without { self.new ≡ without_puts (is_of circuit channel) self.old }
        ensures count { result + length self.new.waiting ≡ length self.old.waiting }
    {
        let before = self.waiting.len();
        self.waiting
            .retain(|waiter| !is_of(&waiter.put, circuit, channel));
        before - self.waiting.len()
    }
}

// Whether a put is of this circuit, and of this channel if there is one.
fn is_of(put: &Put, circuit: Handle, channel: Option<Handle>) -> bool
    ensures { result ≡ is_of circuit channel put.now }
{
    put.circuit == circuit
        && match channel {
            Some(channel) => put.channel == channel,
            None => true,
        }
}
