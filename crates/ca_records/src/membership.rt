//! Records that are added to a server and removed from it while it runs. A place that became free
//! is used again.
ghost use Rattle.std.specs.Prelude.{◌≡◌, ◌≢◌, ◌++◌, ◌∷◌, [], IfOk, None, OnErr, OnOk, length, map};
ghost use Rattle.ca_dbr.specs.Elements.{elements};
ghost use Rattle.ca_records.specs.Puts.{new_record, record_named};
ghost use Rattle.ca_records.specs.Record.{unset};
ghost use Rattle.ca_records.specs.Store.{Enters, new_store, records_of, with_place};
ghost use Rattle.ca_records.specs.Writes.{Adds, Defines, Removes};

use crate::record::{Record, check, check_held};
use crate::records::Records;
use crate::rules::Rule;
use crate::served_record::ServedRecord;
use crate::served_records::ServedRecords;
use crate::slot::RecordSlot;
use ca_dbr::{Meta, Value};
use ca_display::Held;
use ca_text::{RecordName, Refusal};
use std::alloc::AllocError;

impl ServedRecords {
    /// The records of this list, each neither busy nor waited for, under these rules. Refused
    /// only if there are some.
    pub fn of(records: &Records, rules: Vec<Rule>) -> Result<ServedRecords, AllocError>
        ensures store { IfOk result (λ served. served ≡ new_store records.now rules.items) }
        ensures list { IfOk result (λ served. records_of served ≡ map new_record records.now) }
        ensures some { OnErr result (length records.now ≢ 0) }
    {
        let mut served = ServedRecords::new(*rules.allocator(), rules);
        for place in 0..records.len() {
            served.append_copy(records.at(place))?;
        }
        Ok(served)
    }

    // Puts a copy of a record at a new place.
    fn append_copy(&mut self, other: &Record) -> Result<(), AllocError>
        requires { record_named (records_of self.old) other.now.name ≡ None }
        ensures { OnOk result (self.new ≡ with_place (new_record other.now) self.old) }
    {
        let alloc = *self.slots.allocator();
        let key = Vec::from_slice(alloc, other.name())?;
        self.append(key, other.copy(alloc)?)?;
        Ok(())
    }

    /// Adds a record of a new name after all others, with metadata of zeros, and reports its place.
    ///
    /// Refused as NameLength if this is no name, as BadCount if the record may not have this value,
    /// and then as OutOfMemory. A refusal changes nothing.
    pub fn define(
        &mut self,
        name: &[u8],
        count: u32,
        slow: bool,
        value: Value,
    ) -> Result<usize, Refusal>
        requires { record_named (records_of self.old) name.now ≡ None }
        ensures { Defines self.old (record {
          name = name.now;
          count = count;
          slow = slow;
          value = elements value;
          meta = unset;
        }) result self.new }
    {
        let held = Held::of(value);
        check(name, count, &held)?;
        let alloc = *self.slots.allocator();
        let own = Vec::from_slice(alloc, name)?;
        let key = Vec::from_slice(alloc, name)?;
        let place = self.append(key, Record::new(own, count, slow, held, Meta::ZERO))?;
        Ok(place)
    }

    /// Adds a record, with metadata of zeros, and reports its place: the one that became
    /// free last, or a new one.
    ///
    /// Refused as NameLength if this is no name, as RecordExists if it is served, as BadCount if
    /// the record may not have this value, and then as OutOfMemory. A refusal changes nothing.
    pub fn add(
        &mut self,
        name: &[u8],
        count: u32,
        slow: bool,
        value: Value,
    ) -> Result<usize, Refusal>
        ensures { Adds self.old (record {
          name = name.now;
          count = count;
          slow = slow;
          value = elements value;
          meta = unset;
        }) result self.new }
    {
        self.add_held(name, count, slow, Held::of(value))
    }

    /// Adds a record that holds this, as `add`.
    pub fn add_held(
        &mut self,
        name: &[u8],
        count: u32,
        slow: bool,
        held: Held,
    ) -> Result<usize, Refusal>
        ensures { Adds self.old (record {
          name = name.now;
          count = count;
          slow = slow;
          value = held;
          meta = unset;
        }) result self.new }
    {
        RecordName::read(name)?;
        if self.has(name) {
            return Err(Refusal::RecordExists);
        }
        check_held(count, &held)?;
        let alloc = *self.slots.allocator();
        let own = Vec::from_slice(alloc, name)?;
        let key = Vec::from_slice(alloc, name)?;
        let place = self.enter(key, Record::new(own, count, slow, held, Meta::ZERO))?;
        Ok(place)
    }

    // Puts a record at the place that became free last, or else at a new one.
    fn enter(&mut self, key: Vec<u8>, state: Record) -> Result<usize, AllocError>
        requires new { record_named (records_of self.old) state.name ≡ None }
        requires key { key.items ≡ state.name }
        ensures ok { IfOk result (λ place. Enters self.old place (new_record state) self.new) }
        ensures err { OnErr result (self.new ≡ self.old) }
    {
        let Some(place) = self.free else {
            return self.append(key, state);
        };
        let alloc = *self.slots.allocator();
        self.places.insert(key, place)?;
        self.free = self.slots[place].fill(ServedRecord::new(alloc, state));
        Ok(place)
    }

    // Puts a record at a new place.
    fn append(&mut self, key: Vec<u8>, state: Record) -> Result<usize, AllocError>
        requires new { record_named (records_of self.old) state.name ≡ None }
        requires key { key.items ≡ state.name }
        ensures ok { IfOk result (λ place. Enters self.old place (new_record state) self.new) }
        ensures behind { IfOk result (λ place.
            (place ≡ length self.old.slots) × (self.new ≡ with_place (new_record state) self.old)) }
        ensures list { OnOk result (records_of self.new
            ≡ records_of self.old ++ new_record state ∷ []) }
        ensures err { OnErr result (self.new ≡ self.old) }
    {
        let alloc = *self.slots.allocator();
        self.slots.reserve(1)?;
        let place = self.slots.len();
        self.places.insert(key, place)?;
        self.slots
            .push_reserved(RecordSlot::Full(ServedRecord::new(alloc, state)));
        Ok(place)
    }

    /// Takes the record of this name out, with its puts, and reports its place, which is free then.
    /// It does not allocate.
    ///
    /// Refused as UnknownRecord if no record has the name.
    pub fn remove(&mut self, name: &[u8]) -> Result<usize, Refusal>
        ensures { Removes self.old name.now result self.new }
    {
        let Some(place) = self.find(name) else {
            return Err(Refusal::UnknownRecord);
        };
        self.waiting -= self.slots[place].record().waits();
        self.places.remove(name);
        self.slots[place] = RecordSlot::Free(self.free);
        self.free = Some(place);
        Ok(place)
    }
}
