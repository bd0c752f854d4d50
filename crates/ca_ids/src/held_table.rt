//! The table of channels, requests and subscriptions: values by handle and by wire id. A value
//! keeps its id until `free`, also while messages with that id may still arrive.
ghost use Rattle.std.specs.Prelude.{◌≡◌, ◌<◌, ◌≤◌, [], IsSome, Some, length, option_copied};
ghost use Rattle.std.specs.Prelude.{option_map};
ghost use Rattle.std.specs.Option.{option_copied_mut};
ghost use Rattle.std.specs.Borrow.{sem};
ghost use Rattle.ca_text.specs.Limits.{arena_slots};
ghost use Rattle.ca_arena.specs.Arena.{place_at};
ghost use Rattle.ca_ids.specs.Table.{by_wire, held_at, is_full, under, with_freed};
ghost use Rattle.ca_ids.specs.Holding.{Fills, FillsAll, Gives, IsVacant, IsVacantAfter};

use crate::wire_id::WireId;
use ca_arena::{Arena, Handle};
use ca_text::Refusal;
use std::alloc::Global;
use std::marker::Model;

/// Values under handles, each of which holds its handle's wire id until that is free.
///
/// A value says itself whether its id drains: it is found under its id all the same.
#[derive(Drop)]
pub struct HeldTable<T> {
    entries: Arena<T>,
}

impl<T> Model for HeldTable<T> {
    ghost use Rattle.std.specs.Coded.{coded_list};
    ghost use Rattle.ca_arena.specs.Arena.{place_code};
    ghost use Rattle.ca_ids.specs.Table.{Table};

    ghost Value = { Table T };

    ghost coded = { coded_list (place_code T.code) };

    ghost use Rattle.ca_arena.specs.Sound.{IsSound};

    ghost view = { λ t. t.entries.given };

    ghost invariant = { λ t. IsSound t.entries };
}

impl<T> HeldTable<T> {
    ghost use Rattle.ca_ids.specs.Lending.{lends_changed, lends_held};

    /// A table in which nothing holds an id. It does not allocate yet.
    pub fn new(alloc: Global) -> Self
        ensures { result ≡ [] }
    {
        HeldTable {
            entries: Arena::new(alloc),
        }
    }

    /// How many indices were given so far.
    pub fn places(&self) -> usize
        ensures { result ≡ length self.now }
    {
        self.entries.given()
    }

    /// A law: no more indices were given than wire ids have.
    pub fn know_places(&self)
        ensures { length self.now ≤ arena_slots }
    {
        let _ = &self.entries;
    }

    /// The value that holds an id of this index, with its handle.
    pub fn at(&self, index: usize) -> Option<(Handle, &T)>
        requires { index < length self.now }
        ensures { option_map (λ e. (e.0, e.1.now)) result
            ≡ held_at index (place_at self.now index) }
    {
        let Some(handle) = self.entries.handle_at(index as u16) else {
            return None;
        };
        match self.entries.get(handle) {
            Some(value) => Some((handle, value)),
            None => unreachable!(),
        }
    }

    /// Whether no id may be given.
    pub fn is_full(&self) -> bool
        ensures { result ≡ is_full self.now }
    {
        self.entries.free_slots() == 0
    }

    /// Puts `value` under a handle that was never given before, whose wire id it holds from now on.
    ///
    /// It is refused, and handed back, if no id may be given, and if there is no
    /// memory for one more index.
    pub fn open(&mut self, value: T) -> Result<Handle, (T, Refusal)>
        ensures { Gives self.old value result self.new }
    {
        self.entries.insert(value)
    }

    /// The handle that is given next. None if no id may be given.
    #[inline(always)]
    pub fn vacant(&self) -> Option<Handle>
        ensures { IsVacant self.now result }
    {
        self.entries.vacant()
    }

    /// Puts `value` under the handle that `vacant` returns, whose wire id it holds from now on: for
    /// a value whose id has to be known before.
    ///
    /// It is handed back if there is no memory for one more index, or if another handle is the
    /// one to be given next.
    #[inline(always)]
    pub fn open_at(&mut self, vacant: Handle, value: T) -> Result<(), T>
        ensures { Fills self.old vacant value result self.new }
    {
        self.entries.insert_at(vacant, value)
    }

    /// The handle that is given once these values are put under their handles. None if no
    /// id may be given then.
    ///
    /// It is refused if these handles are not those to be given next.
    pub fn vacant_after(&self, ahead: &[(Handle, T)]) -> Result<Option<Handle>, Refusal>
        ensures { IsVacantAfter self.now ahead.now result }
    {
        self.entries.vacant_after(ahead)
    }

    /// Puts these values under their handles, which `vacant_after` told, one after
    /// another: all, or none.
    ///
    /// They are handed back if there is no memory for them, or if other handles are those to be
    /// given next; no values never are.
    pub fn open_all(&mut self, values: Vec<(Handle, T)>) -> Result<(), Vec<(Handle, T)>>
    where
        T: Drop,
        ensures { FillsAll self.old values result self.new }
    {
        self.entries.insert_all(values)
    }

    /// The value that holds the wire id of this handle, unless that is stale.
    pub fn by_handle(&self, handle: Handle) -> Option<&T>
        ensures { option_copied result ≡ under self.now handle }
    {
        self.entries.get(handle)
    }

    /// The value that holds the wire id of this handle, for writing.
    pub fn by_handle_mut(&mut self, handle: Handle) -> Option<&mut T>
        ensures* writes_back { sem 𝓛 (lends_changed T.row self.entry handle result) }
        ensures value { option_copied_mut result ≡ under self.old handle }
    {
        if self.by_handle(handle).is_some() {
            Some(self.value_mut(handle))
        } else {
            None
        }
    }

    fn value_mut(&mut self, handle: Handle) -> &mut T
        requires { IsSome (under self.old handle) }
        ensures* writes_back { sem 𝓛 (lends_held T.row self.entry handle result) }
        ensures value { under self.old handle ≡ Some result.now }
    {
        match self.entries.get_mut(handle) {
            Some(value) => value,
            None => unreachable!(),
        }
    }

    /// The value that holds this wire id, with its handle.
    pub fn by_wire(&self, wire: WireId) -> Option<(Handle, &T)>
        ensures { option_map (λ e. (e.0, e.1.now)) result ≡ by_wire self.now wire }
    {
        let Some(handle) = self.entries.handle_at(wire.index()) else {
            return None;
        };
        if WireId::of(handle).number() != wire.number() {
            return None;
        }
        match self.by_handle(handle) {
            Some(value) => Some((handle, value)),
            None => unreachable!(),
        }
    }

    /// Takes the value of this handle out. The handle is stale from then on, and
    /// its wire id is free.
    ///
    /// No memory is asked for.
    pub fn free(&mut self, handle: Handle) -> Option<T>
        ensures value { result ≡ under self.old handle }
        ensures after { self.new ≡ with_freed handle self.old }
    {
        self.entries.remove(handle).ok()
    }
}
