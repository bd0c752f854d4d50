//! Writes to the served records by place or name: put or plain write, the fast path for one
//! element, the end of a busy put, withdrawal, and posts. `served_record.rt` does the work.
ghost use Rattle.std.specs.Prelude.{◌≡◌, false, true};
ghost use Rattle.std.specs.Arc.{arc_value};
ghost use Rattle.ca_dbr.specs.Elements.{elements};
ghost use Rattle.ca_dbr.specs.Held.{displayed_by};
ghost use Rattle.ca_dbr.specs.Data.{data_of};
ghost use Rattle.ca_records.specs.Store.{IsThere, TakesAt, display_at, records_of};
ghost use Rattle.ca_records.specs.Writes.{Begins, CanPutOne, CanWriteOne, Finishes, FinishesAt};
ghost use Rattle.ca_records.specs.Writes.{Posts, PutsOne, SetsDisplay, Withdraws, WritesOne};

use crate::puts::{Begun, Finished, Put, fewer_waiting, more_waiting};
use crate::served_records::ServedRecords;
use ca_arena::Handle;
use ca_dbr::{Display, Meta, Value};
use ca_text::Refusal;
use std::alloc::AllocError;
use std::sync::Arc;

impl ServedRecords {
    /// Begins a write to the record at this place: a put with notification, or a plain
    /// write, which has none.
    ///
    /// A plain write is applied at once. A put is applied at once too if the record is not busy,
    /// and makes a slow one busy; if it is busy the put waits, after the others. A refused write
    /// changes nothing, and neither does one for which there is no memory.
    #[inline(always)]
    pub fn begin_write(
        &mut self,
        place: usize,
        put: Option<Put>,
        value: Value,
    ) -> Result<Begun, AllocError>
        requires { TakesAt self.old place (elements value) }
        ensures { Begins self.old place put (elements value) result self.new }
    {
        let is_countable = self.waiting < usize::MAX;
        let stamp = self.stamp;
        let begun = self.slots[place]
            .record_mut()
            .begin(put, value, stamp, is_countable);
        self.waiting += more_waiting(&begun);
        self.recent = place;
        begun
    }

    /// Writes one element, of the plain type of this number, as these bytes have it, over the value
    /// of the record at this place, if that has one element of that type. It is applied at once,
    /// and does not allocate.
    ///
    /// False, and nothing changes, if the value is another, or is one of texts, if the bytes are
    /// too few, and if this is a put with notification that is to wait or makes the record busy:
    /// that is for `begin_write`.
    #[inline(always)]
    pub fn write_one(&mut self, place: usize, is_put: bool, number: u16, bytes: &[u8]) -> bool
        requires { IsThere self.old place }
        ensures written { result ≡ true
            → WritesOne self.old place is_put number bytes.now self.new }
        ensures cannot { result ≡ false → CanWriteOne self.old place is_put number bytes.now → ⊥ }
        ensures stays { result ≡ false → self.new ≡ self.old }
    {
        let stamp = self.stamp;
        self.slots[place]
            .record_mut()
            .write_one(is_put, number, bytes, stamp)
    }

    /// Writes one element, as `write_one`, by a put with notification that makes its record busy.
    /// False, and nothing changes, also if the record is busy, or is quick.
    #[inline(always)]
    pub fn put_one(&mut self, place: usize, put: Put, number: u16, bytes: &[u8]) -> bool
        requires { IsThere self.old place }
        ensures put { result ≡ true → PutsOne self.old place put number bytes.now self.new }
        ensures cannot { result ≡ false → CanPutOne self.old place number bytes.now → ⊥ }
        ensures stays { result ≡ false → self.new ≡ self.old }
    {
        let stamp = self.stamp;
        self.recent = place;
        self.slots[place]
            .record_mut()
            .put_one(put, number, bytes, stamp)
    }

    /// A value that the record at this place had and no longer has, if there is one: its
    /// memory may hold the next.
    pub fn take_spare(&mut self, place: usize) -> Option<Value>
        requires { IsThere self.old place }
        ensures { self.new ≡ self.old }
    {
        self.slots[place].record_mut().take_spare()
    }

    /// Ends the busy put of the record of this name, and applies the next one that waits.
    /// It does not allocate.
    ///
    /// Refused as UnknownRecord if no record has the name, and as NotBusy if
    /// its record is not busy.
    pub fn finish(&mut self, name: &[u8]) -> Result<Finished, Refusal>
        ensures { Finishes self.old name.now result self.new }
    {
        let Some(place) = self.find_near(self.recent, name) else {
            return Err(Refusal::UnknownRecord);
        };
        match self.finish_at(place) {
            Some(finished) => Ok(finished),
            None => Err(Refusal::NotBusy),
        }
    }

    /// Ends the busy put of the record at this place, and applies the next one that waits:
    /// none if it is not busy.
    #[inline(always)]
    pub fn finish_at(&mut self, place: usize) -> Option<Finished>
        requires { IsThere self.old place }
        ensures { FinishesAt self.old place result self.new }
    {
        let stamp = self.stamp;
        match self.slots[place].record_mut().finish(stamp) {
            None => None,
            Some((ended, applied)) => {
                self.waiting -= fewer_waiting(&applied);
                Some(Finished {
                    place,
                    ended,
                    applied,
                })
            }
        }
    }

    /// Takes the waiting puts of a circuit, or of one channel of it, out of the record at this
    /// place. They are never applied. It does not allocate.
    pub fn withdraw(&mut self, place: usize, circuit: Handle, channel: Option<Handle>)
        requires { IsThere self.old place }
        ensures { Withdraws self.old place circuit channel self.new }
    {
        let gone = self.slots[place].record_mut().withdraw(circuit, channel);
        self.waiting -= gone;
    }

    /// Sets the value of the record of this name, and what goes with it. Tells its place. Display
    /// data stay.
    ///
    /// Refused as UnknownRecord if no record has the name, as BadType if the value is not of its
    /// type, and as BadCount if it has no element or more than the greatest count.
    pub fn post(&mut self, name: &[u8], value: Value, meta: Meta) -> Result<usize, Refusal>
        ensures { Posts self.old name.now
            (displayed_by (display_at (records_of self.old) name.now) (elements value)) meta
            result self.new }
    {
        let Some(place) = self.find(name) else {
            return Err(Refusal::UnknownRecord);
        };
        self.at(place).state().check_post(&value)?;
        self.slots[place].record_mut().apply(value, meta);
        Ok(place)
    }

    /// Sets the display data that the record of this name is shown by, and so what waits for it.
    /// Tells its place. Its value and what goes with it stay.
    ///
    /// Refused as UnknownRecord if no record has the name.
    pub fn set_display(&mut self, name: &[u8], display: Arc<Display>) -> Result<usize, Refusal>
        ensures { SetsDisplay self.old name.now (data_of (arc_value display)) result self.new }
    {
        let Some(place) = self.find(name) else {
            return Err(Refusal::UnknownRecord);
        };
        self.slots[place].record_mut().set_display(display);
        Ok(place)
    }
}
