//! The circuits that watch one record, at most one for each index of the server's table of
//! circuits.
ghost use Rattle.std.specs.Prelude.{◌≡◌, ◌-◌, OnErr, OnOk, [], length, slice_get};
ghost use Rattle.ca_server_watchers.specs.Watching.{AreApart, Joins, Leaves};

use ca_arena::Handle;
use indexmap::IndexMap;
use std::alloc::{AllocError, Global};
use std::marker::Model;

/// The circuits that watch one record.
#[derive(Drop)]
pub struct RecordWatchers {
    // The generations of their handles, by index.
    circuits: IndexMap<u16, u32>,
}

impl Model for RecordWatchers {
    ghost use Rattle.std.specs.Prelude.{List};
    ghost use Rattle.ca_arena.specs.declared.handle.Handle.{Handle};

    ghost Value = { List Handle };

    ghost use Rattle.ca_server_watchers.specs.Watching.{handles_in};

    ghost view = { λ l. handles_in l.circuits.entries };
}

impl RecordWatchers {
    // None. It does not allocate yet.
    pub(crate) fn new(alloc: Global) -> RecordWatchers
        ensures { result ≡ [] }
    {
        RecordWatchers {
            circuits: IndexMap::new(alloc),
        }
    }

    /// How many watch.
    pub fn len(&self) -> usize
        ensures count { result ≡ length self.now }
        ensures apart { AreApart self.now }
    {
        self.circuits.len()
    }

    /// The one at this place.
    pub fn at(&self, place: usize) -> Option<Handle>
        ensures { result ≡ slice_get self.now place }
    {
        match self.circuits.get_index(place) {
            Some((index, generation)) => Some(Handle {
                index: *index,
                generation: *generation,
            }),
            None => None,
        }
    }

    // The last one, and how many come before it.
    pub(crate) fn last(&self, before: &mut usize) -> Option<Handle>
        ensures last { result ≡ slice_get self.now before.new }
        ensures before { before.new ≡ length self.now - 1 }
        ensures apart { AreApart self.now }
    {
        *before = self.len().saturating_sub(1);
        self.at(*before)
    }

    // This circuit watches too, in place of one of the same index. Without memory all is as it was.
    pub(crate) fn add(&mut self, circuit: Handle) -> Result<(), AllocError>
        ensures ok { OnOk result (Joins circuit self.old self.new) }
        ensures err { OnErr result (self.new ≡ self.old) }
    {
        self.circuits.insert(circuit.index, circuit.generation)?;
        Ok(())
    }

    // Takes the one at this place out, if there is one. The last comes there.
    pub(crate) fn take_out(&mut self, place: usize)
        ensures { Leaves place self.old self.new }
    {
        self.circuits.swap_remove_index(place);
    }
}
