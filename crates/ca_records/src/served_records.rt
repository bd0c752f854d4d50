//! All records of a running server, with the rules of access and the stamp of writes. Writes are in
//! `writes.rt`, adding and removing in `membership.rt`.
ghost use Rattle.std.specs.Prelude.{◌≡◌, ◌↔◌, [], IsTrue, MatchOption, None, Some, is_some, true};
ghost use Rattle.ca_records.specs.Puts.{record_named, waiting_in};
ghost use Rattle.ca_records.specs.Rules.{rights};
ghost use Rattle.ca_records.specs.Store.{Finds, HasAt, IsThere, records_of};

use crate::puts::Stamp;
use crate::rules::{Rule, rights};
use crate::served_record::ServedRecord;
use crate::slot::RecordSlot;
use ca_text::is_same_name;
use std::alloc::Global;
use std::collections::HashMap;
use std::marker::Model;

/// The records of a server that come and go, with the puts that make them busy and those that wait,
/// the rules of access, and the stamp of the writes that are applied now.
///
/// A record keeps its place while it is there, so that a channel finds its record there by one
/// comparison of names. A name is looked up by its hash: on average a call costs the same with few
/// records and with many.
#[derive(Debug, Drop)]
pub struct ServedRecords {
    pub(crate) slots: Vec<RecordSlot>,
    // The place that became free last.
    pub(crate) free: Option<usize>,
    pub(crate) places: HashMap<Vec<u8>, usize>,
    // Where a write was begun last: a record that is named next is mostly there. The name decides.
    pub(crate) recent: usize,
    // How many puts wait for all records.
    pub(crate) waiting: usize,
    pub(crate) rules: Vec<Rule>,
    pub(crate) stamp: Stamp,
}

impl Model for ServedRecords {
    ghost use Rattle.std.specs.Prelude.{map};
    ghost use Rattle.ca_records.specs.Store.{Store};

    ghost Value = { Store };

    ghost use Rattle.std.specs.Coded.{codes};
    ghost use Rattle.ca_dbr.specs.Codes.{elements_code};

    ghost coded = { Prim.hlevel (codes, elements_code) };

    ghost use Rattle.ca_records.specs.Chain.{IsStored, record_in};
    ghost use Rattle.ca_records.specs.Index.{place_in};

    ghost view = { λ s.
        record { slots = map record_in s.slots.items; rules = s.rules.items; stamp = s.stamp } };

    ghost invariant = { λ s.
        IsStored s.slots.items s.free (place_in (λ k. k.items) s.places.entries) s.waiting };
}

impl ServedRecords {
    /// No records, under these rules. The stamp is zero.
    pub fn new(alloc: Global, rules: Vec<Rule>) -> ServedRecords
        ensures { result
            ≡ record {
              slots = [];
              rules = rules.items;
              stamp = record { seconds = 0; nanos = 0 };
            } }
    {
        ServedRecords {
            slots: Vec::new(alloc),
            free: None,
            places: HashMap::new(alloc),
            recent: 0,
            waiting: 0,
            rules,
            stamp: Stamp {
                seconds: 0,
                nanos: 0,
            },
        }
    }

    /// The place of the record of this name.
    #[inline(never)]
    pub fn find(&self, name: &[u8]) -> Option<usize>
        ensures { MatchOption result (record_named (records_of self.now) name.now ≡ None)
            (λ place. Finds self.now name.now place) }
    {
        self.places.get(name).copied()
    }

    /// The place of the record of this name, which is looked for at this place first.
    #[inline(always)]
    pub fn find_near(&self, place: usize, name: &[u8]) -> Option<usize>
        ensures { MatchOption result (record_named (records_of self.now) name.now ≡ None)
            (λ found. Finds self.now name.now found) }
    {
        if self.is_named(place, name) {
            return Some(place);
        }
        self.find(name)
    }

    // Whether the record at this place has this name.
    #[inline(always)]
    fn is_named(&self, place: usize, name: &[u8]) -> bool
        ensures { result ≡ true → Finds self.now name.now place }
    {
        match self.slots.get(place) {
            Some(RecordSlot::Full(served)) => is_same_name(served.state().name(), name),
            _ => false,
        }
    }

    /// Whether some record has this name.
    pub fn has(&self, name: &[u8]) -> bool
        ensures { result ≡ is_some (record_named (records_of self.now) name.now) }
    {
        self.find(name).is_some()
    }

    /// The record at this place.
    pub fn at(&self, place: usize) -> &ServedRecord
        requires { IsThere self.now place }
        ensures at { HasAt self.now place result.now }
        ensures found { record_named (records_of self.now) result.now.state.name ≡ Some result.now }
    {
        self.slots[place].record()
    }

    /// The access rights of a user on a host to the record of this name: the bits 1 to
    /// read and 2 to write.
    pub fn rights(&self, user: &[u8], host: &[u8], name: &[u8]) -> u32
        ensures { result ≡ rights self.now.rules user.now host.now name.now }
    {
        // Then nobody is kept from anything.
        if self.rules.is_empty() {
            return 3;
        }
        rights(&self.rules, user, host, name)
    }

    /// Sets the stamp of the writes that are applied from now on.
    pub fn stamp(&mut self, seconds: u32, nanos: u32)
        ensures { self.new
            ≡ record self.old { stamp = record { seconds = seconds; nanos = nanos } } }
    {
        self.stamp = Stamp { seconds, nanos };
    }

    /// How many puts wait for all records together.
    pub fn waiting(&self) -> usize
        ensures { result ≡ waiting_in (records_of self.now) }
    {
        self.waiting
    }
}
