//! A table of values by handle and by wire id, which itself keeps the ids that drain. In
//! `held_table.rt` each value says whether its id drains.
ghost use Rattle.std.specs.Prelude.{◌≡◌, IfOk, IsSome, Some, MatchOption, option_copied};
ghost use Rattle.std.specs.Option.{option_copied_mut};
ghost use Rattle.std.specs.Borrow.{sem};
ghost use Rattle.ca_arena.specs.Sound.{IsSound};
ghost use Rattle.ca_arena.specs.Arena.{empty, free_slots, IsLive, walk_start};
ghost use Rattle.ca_ids.specs.Ids.{Opens, Retires, Drains, IsNamed, IsUnused, IsOnly, IsFirstOpen};
ghost use Rattle.ca_ids.specs.Ids.{open_at, value_of};

use crate::wire_id::WireId;
use ca_arena::{Arena, Handle};
use ca_text::Refusal;
use std::alloc::Global;
use std::marker::Model;
use std::mem;

/// Values under handles, each of which has a wire id while it is open and while the id drains.
#[derive(Drop)]
pub struct IdTable<T> {
    entries: Arena<TableEntry<T>>,
}

/// What a table has under a handle.
#[derive(Drop)]
pub enum TableEntry<T> {
    /// The handle and its wire id name this value.
    Open(T),
    /// The value is gone, and the wire id may still come back.
    Draining,
}

impl<T> Model for IdTable<T> {
    ghost use Rattle.ca_ids.specs.Ids.{Ids};

    ghost Value = { Ids T };

    ghost view = { λ t. t.entries };
}

impl<T> TableEntry<T> {
    ghost use Rattle.ca_ids.specs.Lending.{lends_value};

    fn value_mut(&mut self) -> Option<&mut T>
        ensures* writes_back { sem 𝓛 (lends_value T.row self.entry result) }
        ensures value { option_copied_mut result ≡ value_of (Some self.old) }
    {
        match self {
            TableEntry::Open(value) => Some(value),
            TableEntry::Draining => None,
        }
    }
}

impl<T> IdTable<T> {
    ghost use Rattle.ca_ids.specs.Lending.{lends_found};

    /// A table with no entry. It does not allocate yet.
    pub fn new(alloc: Global) -> Self
        ensures { result ≡ empty }
    {
        IdTable {
            entries: Arena::new(alloc),
        }
    }

    /// How many values can still be opened if nothing ends draining.
    pub fn free_slots(&self) -> usize
        ensures { result ≡ free_slots self.now }
    {
        self.entries.free_slots()
    }

    /// Opens `value` under a handle that was never given before, with a wire id that nothing has
    /// that is open or drains.
    ///
    /// It is refused, and handed back, if no slot is free, or if the room for one more is missing.
    pub fn open(&mut self, value: T) -> Result<(Handle, WireId), (T, Refusal)>
        ensures opens { Opens self.old value result self.new }
        ensures unused { IfOk result (λ given. IsUnused self.old given.1) }
        ensures sound { IsSound self.new }
    {
        match self.entries.insert(TableEntry::Open(value)) {
            Ok(handle) => Ok((handle, WireId::of(handle))),
            Err((entry, refusal)) => match entry {
                TableEntry::Open(value) => Err((value, refusal)),
                TableEntry::Draining => unreachable!(),
            },
        }
    }

    /// The value that is open under this handle.
    pub fn by_handle(&self, handle: Handle) -> Option<&T>
        ensures { option_copied result ≡ open_at self.now handle }
    {
        match self.entries.get(handle) {
            Some(TableEntry::Open(value)) => Some(value),
            _ => None,
        }
    }

    /// The value that is open under this handle, for writing.
    pub fn by_handle_mut(&mut self, handle: Handle) -> Option<&mut T>
        ensures* writes_back { sem 𝓛 (lends_found T.row self.entry handle result) }
        ensures value { option_copied_mut result ≡ open_at self.old handle }
    {
        self.entries.get_mut(handle)?.value_mut()
    }

    /// The open handle that this wire id stands for.
    ///
    /// Refused as `Draining` if its handle was retired, and as `StaleHandle` if nothing has it.
    pub fn by_wire(&self, wire: WireId) -> Result<Handle, Refusal>
        ensures { IsNamed self.now wire result }
    {
        let Some(handle) = self.taken_by(wire) else {
            return Err(Refusal::StaleHandle);
        };
        match self.entries.get(handle) {
            Some(TableEntry::Open(_)) => Ok(handle),
            Some(TableEntry::Draining) => Err(Refusal::Draining),
            None => unreachable!(),
        }
    }

    // The handle, open or not, that has this wire id.
    fn taken_by(&self, wire: WireId) -> Option<Handle>
        ensures { MatchOption result (IsUnused self.now wire)
            (λ handle. IsLive self.now handle × IsOnly self.now wire handle) }
    {
        let handle = self.entries.handle_at(wire.index())?;
        if WireId::of(handle) == wire {
            Some(handle)
        } else {
            None
        }
    }

    /// Takes the value of this handle out. The handle is stale from then on,
    /// and its wire id drains.
    ///
    /// A stale handle is refused. No memory is asked for.
    pub fn retire(&mut self, handle: Handle) -> Result<T, Refusal>
        ensures { Retires self.old handle result self.new }
    {
        if self.by_handle(handle).is_none() {
            return Err(Refusal::StaleHandle);
        }
        let Some(entry) = self.entries.get_mut(handle) else {
            unreachable!()
        };
        match mem::replace(entry, TableEntry::Draining) {
            TableEntry::Open(value) => Ok(value),
            TableEntry::Draining => unreachable!(),
        }
    }

    /// Ends the draining of this wire id: it no longer comes back, and its slot is free again.
    ///
    /// A wire id that does not drain is refused. No memory is asked for.
    pub fn drained(&mut self, wire: WireId) -> Result<(), Refusal>
        ensures { Drains self.old wire result self.new }
    {
        let Some(handle) = self.taken_by(wire) else {
            return Err(Refusal::StaleHandle);
        };
        if self.by_handle(handle).is_some() {
            return Err(Refusal::StaleHandle);
        }
        match self.entries.remove(handle)? {
            TableEntry::Draining => Ok(()),
            TableEntry::Open(_) => unreachable!(),
        }
    }

    /// The open handle with the least index, or with the least one above that of `after`.
    pub fn next_of(&self, after: Option<Handle>) -> Option<Handle>
        ensures { IsFirstOpen self.now (walk_start after) result }
    {
        let mut next = self.entries.next_of(after);
        while let Some(handle) = next {
            if self.by_handle(handle).is_some() {
                return Some(handle);
            }
            next = self.entries.next_of(Some(handle));
        }
        None
    }
}
