//! The list of records with which a server starts, looked up by name. A running server keeps
//! `ServedRecords` in its stead.
ghost use Rattle.std.specs.Prelude.{◌≡◌, ◌<◌, ◌↔◌, ◌++◌, ◌∷◌, [], IfOk, IfSome, IsTrue};
ghost use Rattle.std.specs.Prelude.{MatchOption, MatchResult, OnErr, OnOk, ◌≢◌, length};
ghost use Rattle.ca_text.specs.Place.{At};
ghost use Rattle.ca_text.specs.declared.refusal.Refusal.TheVariants.{UnknownRecord};
ghost use Rattle.std.specs.Arc.{arc_value};
ghost use Rattle.ca_dbr.specs.Elements.{displayed, elements};
ghost use Rattle.ca_dbr.specs.Data.{data_of};
ghost use Rattle.ca_records.specs.Record.{unset};
ghost use Rattle.ca_records.specs.Records.{AreApart, Defines, Holds, IsServed, Names};

use crate::record::{Record, check};
use ca_dbr::{Display, Meta, Value};
use ca_display::Held;
use ca_text::Refusal;
use std::alloc::{AllocError, Global};
use std::collections::BTreeMap;
use std::marker::Model;
use std::sync::Arc;

/// The records that a server serves, each under a name of its own, in the order in
/// which they were defined.
///
/// A name is looked up in a map, by as many comparisons as the logarithm of the number of records.
#[derive(Debug, Drop)]
pub struct Records {
    list: Vec<Record>,
    places: BTreeMap<Vec<u8>, usize>,
}

impl Model for Records {
    ghost use Rattle.std.specs.Prelude.{List};
    ghost use Rattle.ca_records.specs.Record.{RecordState};
    ghost use Rattle.ca_records.specs.Index.{IsIndex, place_of};

    ghost Value = { List RecordState };

    ghost use Rattle.std.specs.Coded.{codes};
    ghost use Rattle.ca_dbr.specs.Codes.{elements_code};

    ghost coded = { Prim.hlevel (codes, elements_code) };

    ghost view = { λ r. r.list.items };

    ghost invariant = { λ r. IsIndex r.list.items (place_of (λ k. k.items) r.places.entries) };
}

impl Records {
    /// No records.
    pub fn new(alloc: Global) -> Records
        ensures { result ≡ [] }
    {
        Records {
            list: Vec::new(alloc),
            places: BTreeMap::new(alloc),
        }
    }

    /// How many there are.
    pub fn len(&self) -> usize
        ensures len { result ≡ length self.now }
        ensures apart { AreApart self.now }
    {
        self.list.len()
    }

    /// The record at this place.
    pub fn at(&self, place: usize) -> &Record
        requires { place < length self.now }
        ensures at { At self.now place result.now }
        ensures apart { AreApart self.now }
    {
        &self.list[place]
    }

    /// Whether some record has this name.
    pub fn has(&self, name: &[u8]) -> bool
        ensures { IsTrue result ↔ IsServed self.now name.now }
    {
        self.find(name).is_some()
    }

    /// The place of the record of this name.
    pub fn find(&self, name: &[u8]) -> Option<usize>
        ensures found { MatchOption result (IsServed self.now name.now → ⊥)
            (λ place. Names self.now name.now place) }
        ensures within { IfSome result (λ place. place < length self.now) }
        ensures apart { AreApart self.now }
    {
        self.places.get(name).copied()
    }

    /// What the record of this name holds.
    pub fn read(&self, name: &[u8]) -> Result<&Held, Refusal>
        ensures { MatchResult result (λ held. Holds self.now name.now held.now)
            (λ e. (e ≡ UnknownRecord) × (IsServed self.now name.now → ⊥)) }
    {
        match self.find(name) {
            Some(place) => Ok(self.at(place).held()),
            None => Err(Refusal::UnknownRecord),
        }
    }

    /// Adds a record after the others, with metadata of zeros. A refusal changes nothing.
    pub fn define(
        &mut self,
        name: &[u8],
        count: u32,
        slow: bool,
        value: Value,
    ) -> Result<(), Refusal>
        requires { IsServed self.old name.now → ⊥ }
        ensures { Defines self.old (record {
          name = name.now;
          count = count;
          slow = slow;
          value = elements value;
          meta = unset;
        }) result self.new }
    {
        self.add(name, count, slow, Held::of(value), Meta::ZERO)
    }

    /// Adds such a record that is shown by these display data.
    pub fn define_displayed(
        &mut self,
        name: &[u8],
        count: u32,
        slow: bool,
        value: Value,
        display: Arc<Display>,
    ) -> Result<(), Refusal>
        requires { IsServed self.old name.now → ⊥ }
        ensures { Defines self.old (record {
          name = name.now;
          count = count;
          slow = slow;
          value = displayed (data_of (arc_value display)) (elements value);
          meta = unset;
        }) result self.new }
    {
        self.add(
            name,
            count,
            slow,
            Held::displayed(value, display),
            Meta::ZERO,
        )
    }

    /// Adds a record after the others.
    fn add(
        &mut self,
        name: &[u8],
        count: u32,
        slow: bool,
        held: Held,
        meta: Meta,
    ) -> Result<(), Refusal>
        requires { IsServed self.old name.now → ⊥ }
        ensures { Defines self.old (record {
          name = name.now;
          count = count;
          slow = slow;
          value = held;
          meta = meta;
        }) result self.new }
    {
        check(name, count, &held)?;
        let alloc = *self.list.allocator();
        let own = Vec::from_slice(alloc, name)?;
        let key = Vec::from_slice(alloc, name)?;
        self.list.reserve(1)?;
        self.places.insert(key, self.list.len())?;
        self.list
            .push_reserved(Record::new(own, count, slow, held, meta));
        Ok(())
    }

    /// A copy of the records. It does not allocate if there are none.
    pub fn copy(&self) -> Result<Records, AllocError>
        ensures copy { IfOk result (λ copy. copy ≡ self.now) }
        ensures some { OnErr result (length self.now ≢ 0) }
    {
        let mut copy = Records::new(*self.list.allocator());
        for record in &self.list {
            copy.put_copy(record)?;
        }
        Ok(copy)
    }

    /// Adds a copy of another's record after the others.
    fn put_copy(&mut self, other: &Record) -> Result<(), AllocError>
        requires { IsServed self.old other.now.name → ⊥ }
        ensures { OnOk result (self.new ≡ self.old ++ other.now ∷ []) }
    {
        let held = other.held().copy(*self.list.allocator())?;
        match self.add(
            other.name(),
            other.count(),
            other.is_slow(),
            held,
            *other.meta(),
        ) {
            Ok(()) => Ok(()),
            Err(Refusal::OutOfMemory) => Err(AllocError),
            Err(_) => unreachable!(),
        }
    }
}
