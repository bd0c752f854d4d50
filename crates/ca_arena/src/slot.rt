//! What there is at an index of an arena: a value, or a place in the list of the free indices.
ghost use Rattle.std.specs.Prelude.{◌≡◌, None, Some, IsSome, is_some, option_copied};
ghost use Rattle.std.specs.Borrow.{sem};
ghost use Rattle.ca_arena.specs.Arena.{value_for};
ghost use Rattle.ca_arena.specs.Slot.{link_of, place_of};
ghost use Rattle.ca_arena.specs.declared.slot.Slot.TheVariants.{Filled, Vacant};

use std::mem;

/// What there is at an index that was given: the generation given last, and a value, or the index
/// that was freed before this one, which is `ARENA_SLOTS` if there is none.
#[derive(Drop)]
pub enum Slot<T> {
    Vacant { generation: u32, next: usize },
    Filled { generation: u32, value: T },
}

impl<T> Slot<T> {
    ghost use Rattle.ca_arena.specs.SlotLending.{lends_value};

    // The generation given last.
    pub(crate) fn generation(&self) -> u32
        ensures { result ≡ (place_of self.now).generation }
    {
        match self {
            Slot::Vacant { generation, .. } => *generation,
            Slot::Filled { generation, .. } => *generation,
        }
    }

    // Whether there is a value.
    pub(crate) fn is_filled(&self) -> bool
        ensures { result ≡ is_some (place_of self.now).value }
    {
        matches!(self, Slot::Filled { .. })
    }

    // The index that was freed before, if there is no value.
    pub(crate) fn next(&self) -> usize
        ensures { result ≡ link_of self.now }
    {
        match self {
            Slot::Vacant { next, .. } => *next,
            Slot::Filled { .. } => 0,
        }
    }

    // The value for a handle of this generation.
    pub(crate) fn value_for(&self, wanted: u32) -> Option<&T>
        ensures { option_copied result ≡ value_for wanted (place_of self.now) }
    {
        // Both are tested, without a jump between them: after a look-up that found the value the
        // compiler knows how a second one ends.
        if (self.generation() == wanted) & self.is_filled() {
            Some(self.value())
        } else {
            None
        }
    }

    // The value.
    fn value(&self) -> &T
        requires { IsSome (place_of self.now).value }
        ensures { (place_of self.now).value ≡ Some result.now }
    {
        match self {
            Slot::Filled { value, .. } => value,
            Slot::Vacant { .. } => unreachable!(),
        }
    }

    // The value for writing.
    pub(crate) fn value_mut(&mut self) -> &mut T
        requires { IsSome (place_of self.old).value }
        ensures* writes_back { sem 𝓛 (lends_value T.row self.entry result) }
        ensures value { (place_of self.old).value ≡ Some result.now }
    {
        match self {
            Slot::Filled { value, .. } => value,
            Slot::Vacant { .. } => unreachable!(),
        }
    }

    // Puts a value under this generation into a vacant slot, and returns the index
    // that was freed before.
    pub(crate) fn fill(&mut self, generation: u32, value: T) -> usize
        requires { (place_of self.old).value ≡ None }
        ensures next { result ≡ link_of self.old }
        ensures filled { self.new ≡ Filled generation value }
    {
        match mem::replace(self, Slot::Filled { generation, value }) {
            Slot::Vacant { next, .. } => next,
            Slot::Filled { .. } => unreachable!(),
        }
    }

    // Takes the value out, and leaves this generation, and the index that was freed before.
    pub(crate) fn vacate(&mut self, generation: u32, next: usize) -> T
        requires { IsSome (place_of self.old).value }
        ensures value { (place_of self.old).value ≡ Some result }
        ensures vacated { self.new ≡ Vacant generation next }
    {
        match mem::replace(self, Slot::Vacant { generation, next }) {
            Slot::Filled { value, .. } => value,
            Slot::Vacant { .. } => unreachable!(),
        }
    }
}
