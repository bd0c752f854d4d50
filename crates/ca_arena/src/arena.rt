//! The arena itself: up to 65,536 values, found by handle. Begin at `insert`, `get` and `remove`;
//! none of them searches.
ghost use Rattle.std.specs.Prelude.{◌≡◌, ◌≢◌, ◌+◌, ◌-◌, ◌<◌, ◌≤◌, ◌==◌, ◌↔◌, ℕ, IsTrue, IfOk, OnOk};
ghost use Rattle.std.specs.Prelude.{Some, None, if◌then◌else◌, length, nat_lt, option_copied};
ghost use Rattle.std.specs.Prelude.{is_some, slice_index_or, []};
ghost use Rattle.std.specs.Option.{option_copied_mut};
ghost use Rattle.std.specs.Borrow.{sem};
ghost use Rattle.ca_text.specs.Limits.{arena_slots, last_generation};
ghost use Rattle.ca_arena.specs.Sound.{IsSound};
ghost use Rattle.ca_arena.specs.Arena.{empty, find, live_count, free_slots, IsLive, Inserts};
ghost use Rattle.ca_arena.specs.Arena.{InsertsAt, Removes, IsFresh, IsFirstFrom, IsHandleAt};
ghost use Rattle.ca_arena.specs.Arena.{Contents, InsertsAll, InsertsEach, TellsAfter, handle_after};
ghost use Rattle.ca_arena.specs.Arena.{next_handle, walk_start, place_at};

use crate::blocks::Blocks;
use crate::handle::Handle;
use crate::slot::Slot;
use ca_text::{ARENA_SLOTS, LAST_GENERATION, Refusal};
use std::alloc::Global;
use std::marker::Model;

/// Values under handles, at most 65,536 at a time.
///
/// The index freed last is given first, then those never given, in order. A removed value's index
/// comes back with the next generation; at its last generation it is retired.
#[derive(Drop)]
pub struct Arena<T> {
    // The index that was freed last, or `ARENA_SLOTS`, which is no index, if none is free again.
    first_freed: usize,
    // A slot for each index that was given. Those of the free indices name each other, from
    // the one freed last on.
    slots: Blocks<Slot<T>>,
    // How many indices are free again.
    freed: usize,
    // How many indices are never given again.
    retired: usize,
}

impl<T> Model for Arena<T> {
    ghost use Rattle.ca_arena.specs.Arena.{Contents, contents_code};

    ghost Value = { Contents T };

    ghost coded = { contents_code T.code };

    ghost use Rattle.ca_arena.specs.Layout.{contents_of, IsLaidOut};

    ghost view = { λ a. contents_of a.slots.items a.freed a.first_freed };

    ghost invariant = { λ a. IsLaidOut a.slots.items a.freed a.first_freed a.retired };
}

impl<T> Arena<T> {
    ghost use Rattle.ca_arena.specs.Lending.{lends_live, lends_found};

    /// An arena with no value. It does not allocate yet.
    pub fn new(alloc: Global) -> Self
        ensures { result ≡ empty }
    {
        Arena {
            first_freed: ARENA_SLOTS,
            slots: Blocks::new(alloc),
            freed: 0,
            retired: 0,
        }
    }

    /// How many values there are.
    pub fn len(&self) -> usize
        ensures count { result ≡ live_count self.now.given }
        ensures sound { IsSound self.now }
    {
        self.slots.len() - self.freed - self.retired
    }

    /// Whether there is no value.
    pub fn is_empty(&self) -> bool
        ensures { result ≡ (live_count self.now.given == 0) }
    {
        self.len() == 0
    }

    /// How many values can still be inserted if nothing is removed.
    pub fn free_slots(&self) -> usize
        ensures { result ≡ free_slots self.now }
    {
        self.freed + (ARENA_SLOTS - self.given())
    }

    /// How many indices were given.
    pub fn given(&self) -> usize
        ensures count { result ≡ length self.now.given }
        ensures few { result ≤ arena_slots }
    {
        self.slots.len()
    }

    /// The handle that `insert` gives next. None if no index is free.
    #[inline(always)]
    pub fn vacant(&self) -> Option<Handle>
        ensures { result
            ≡ (if free_slots self.now == 0 then None else Some (next_handle self.now)) }
    {
        self.handle_after(0, self.first_freed)
    }

    /// The handle that `insert` gives once these values are inserted under their handles. None if
    /// no index is free then.
    ///
    /// It is refused if these handles are not those that come next.
    pub fn vacant_after(&self, ahead: &[(Handle, T)]) -> Result<Option<Handle>, Refusal>
        ensures { TellsAfter self.now ahead.now result }
    {
        let mut index = self.first_freed;
        for place in 0..ahead.len() {
            let Some(next) = self.handle_after(place, index) else {
                return Err(Refusal::StaleHandle);
            };
            if next != ahead[place].0 {
                return Err(Refusal::StaleHandle);
            }
            index = self.freed_before(index);
        }
        Ok(self.handle_after(ahead.len(), index))
    }

    // The handle that comes after n others. None if no index is free then. If it reuses a freed
    // index, that is this one.
    #[inline(always)]
    fn handle_after(&self, count: usize, index: usize) -> Option<Handle>
        requires { count < length self.now.freed → index ≡ slice_index_or self.now.freed count 0 }
        ensures { result
            ≡ (if nat_lt count (free_slots self.now) then Some (handle_after self.now count)
            else None) }
    {
        if count < self.freed {
            return Some(Handle {
                index: index as u16,
                generation: self.generation(index) + 1,
            });
        }
        let unused = count - self.freed;
        if unused >= ARENA_SLOTS - self.given() {
            return None;
        }
        Some(Handle {
            index: (self.given() + unused) as u16,
            generation: 1,
        })
    }

    // The index that was freed before this one, if both are free.
    fn freed_before(&self, index: usize) -> usize
        ensures { (place : ℕ) → place + 1 < length self.now.freed
            → index ≡ slice_index_or self.now.freed place 0
            → result ≡ slice_index_or self.now.freed (place + 1) 0 }
    {
        match self.slots.get(index) {
            Some(slot) => slot.next(),
            None => 0,
        }
    }

    // The generation given last at an index.
    fn generation(&self, index: usize) -> u32
        ensures { result ≡ (place_at self.now.given index).generation }
    {
        match self.slots.get(index) {
            Some(slot) => slot.generation(),
            None => 0,
        }
    }

    // Whether there is a value at an index.
    fn is_filled(&self, index: usize) -> bool
        ensures { result ≡ is_some (place_at self.now.given index).value }
    {
        match self.slots.get(index) {
            Some(slot) => slot.is_filled(),
            None => false,
        }
    }

    /// The value of this handle, unless it is stale.
    pub fn get(&self, handle: Handle) -> Option<&T>
        ensures { option_copied result ≡ find self.now handle }
    {
        match self.slots.get(usize::from(handle.index)) {
            Some(slot) => slot.value_for(handle.generation),
            None => None,
        }
    }

    /// The value of this handle for writing, unless it is stale.
    pub fn get_mut(&mut self, handle: Handle) -> Option<&mut T>
        ensures* writes_back { sem 𝓛 (lends_found T.row self.entry handle result) }
        ensures value { option_copied_mut result ≡ find self.old handle }
    {
        if self.is_live(handle) {
            Some(self.value_mut(handle))
        } else {
            None
        }
    }

    fn value_mut(&mut self, handle: Handle) -> &mut T
        requires { IsLive self.old handle }
        ensures* writes_back { sem 𝓛 (lends_live T.row self.entry handle result) }
        ensures value { find self.old handle ≡ Some result.now }
    {
        self.slots.item_mut(usize::from(handle.index)).value_mut()
    }

    /// The live handle with the least index, or with the least one above that of `after`.
    pub fn next_of(&self, after: Option<Handle>) -> Option<Handle>
        ensures { IsFirstFrom self.now (walk_start after) result }
    {
        let start = match after {
            Some(handle) => usize::from(handle.index) + 1,
            None => 0,
        };
        for index in start..self.given() {
            if self.is_filled(index) {
                return Some(Handle {
                    index: index as u16,
                    generation: self.generation(index),
                });
            }
        }
        None
    }

    /// The live handle with this index, if there is one.
    pub fn handle_at(&self, index: u16) -> Option<Handle>
        ensures found { IsHandleAt self.now index result }
        ensures sound { IsSound self.now }
    {
        match self.slots.get(usize::from(index)) {
            Some(slot) if slot.is_filled() => Some(Handle {
                index,
                generation: slot.generation(),
            }),
            _ => None,
        }
    }

    /// Puts `value` under a handle that was never given before.
    ///
    /// It is refused, and handed back, if no index is free, or if the room for one more is missing.
    #[inline(always)]
    pub fn insert(&mut self, value: T) -> Result<Handle, (T, Refusal)>
        ensures inserts { Inserts self.old value result self.new }
        ensures fresh { IfOk result (IsFresh self.old) }
        ensures sound { IsSound self.new }
    {
        // Not a test of `freed`: after a removal the compiler knows that this one fails.
        if self.first_freed == ARENA_SLOTS {
            // Built here on both paths, the handle stays in registers on the
            // one that makes no call.
            let Handle { index, generation } = self.append(value)?;
            return Ok(Handle { index, generation });
        }
        let index = self.first_freed as u16;
        self.freed -= 1;
        let slot = self.slots.item_mut(usize::from(index));
        let generation = slot.generation() + 1;
        self.first_freed = slot.fill(generation, value);
        Ok(Handle { index, generation })
    }

    /// `insert` under the handle that `vacant` returns, for whoever has to know it before.
    ///
    /// The value is handed back if another handle is the next, or if the room for
    /// one more is missing.
    #[inline(always)]
    pub fn insert_at(&mut self, vacant: Handle, value: T) -> Result<(), T>
        ensures inserts { InsertsAt self.old vacant value result self.new }
        ensures sound { OnOk result (IsSound self.new) }
    {
        // Inlined, as what it shares with `vacant` is, which its callers ask before: 4 % of a
        // client's pipelined read.
        let Some(next) = self.vacant() else {
            return Err(value);
        };
        if next.index != vacant.index {
            return Err(value);
        }
        if next.generation != vacant.generation {
            return Err(value);
        }
        match self.insert(value) {
            Ok(_) => Ok(()),
            Err((value, _)) => Err(value),
        }
    }

    /// Puts these values under their handles, which `vacant_after` told, one after
    /// another: all, or none.
    ///
    /// They are refused, and handed back, if these handles are not those that come next, or if the
    /// room for them is missing. No values are never refused.
    pub fn insert_all(&mut self, values: Vec<(Handle, T)>) -> Result<(), Vec<(Handle, T)>>
    where
        T: Drop,
        ensures { InsertsAll self.old values result self.new }
    {
        if values.is_empty() {
            return Ok(());
        }
        if self.vacant_after(&values).is_err() {
            return Err(values);
        }
        self.put_all(values)
    }

    // Puts these values under their handles, which are those that come next. It makes all room
    // before it changes anything.
    fn put_all(&mut self, values: Vec<(Handle, T)>) -> Result<(), Vec<(Handle, T)>>
    where
        T: Drop,
        requires some { values.items ≢ [] }
        requires next { (after : Contents T) × InsertsEach self.old values.items after }
        ensures { InsertsAll self.old values result self.new }
    {
        let new = values.len().saturating_sub(self.freed);
        if self.slots.make_room(new).is_err() {
            return Err(values);
        }
        for (handle, value) in values {
            if self.freed == 0 {
                self.slots.push(Slot::Filled {
                    generation: handle.generation,
                    value,
                });
            } else {
                let slot = self.slots.item_mut(self.first_freed);
                self.first_freed = slot.fill(handle.generation, value);
                self.freed -= 1;
            }
        }
        Ok(())
    }

    // `insert` at the first index that was never given. It makes all room before
    // it changes anything.
    //
    // Inlined, it would make `insert` save registers also if an index is free again.
    #[inline(never)]
    fn append(&mut self, value: T) -> Result<Handle, (T, Refusal)>
        requires { self.old.freed ≡ [] }
        ensures inserts { Inserts self.old value result self.new }
        ensures fresh { IfOk result (IsFresh self.old) }
        ensures sound { IsSound self.new }
    {
        let index = self.given();
        if index == ARENA_SLOTS {
            return Err((value, Refusal::ArenaFull));
        }
        if self.slots.make_room(1).is_err() {
            return Err((value, Refusal::OutOfMemory));
        }
        self.slots.push(Slot::Filled {
            generation: 1,
            value,
        });
        Ok(Handle {
            index: index as u16,
            generation: 1,
        })
    }

    /// Takes the value of this handle out. The handle is stale from then on.
    ///
    /// A stale handle is refused. No memory is asked for: the slot itself says which
    /// index was freed before.
    pub fn remove(&mut self, handle: Handle) -> Result<T, Refusal>
        ensures { Removes self.old handle result self.new }
    {
        if !self.is_live(handle) {
            return Err(Refusal::StaleHandle);
        }
        let index = usize::from(handle.index);
        let slot = self.slots.item_mut(index);
        let value = slot.vacate(handle.generation, self.first_freed);
        if handle.generation == LAST_GENERATION {
            self.retired += 1;
            return Ok(value);
        }
        self.freed += 1;
        self.first_freed = index;
        Ok(value)
    }

    fn is_live(&self, handle: Handle) -> bool
        ensures { IsTrue result ↔ IsLive self.now handle }
    {
        self.get(handle).is_some()
    }
}
