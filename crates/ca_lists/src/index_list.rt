//! One sorted list of table indices without duplicates. `index_lists.rt` keeps one for each owner.
ghost use Rattle.std.specs.Prelude.{◌≡◌, [], OnErr, OnOk};
ghost use Rattle.ca_lists.specs.Lists.{Ascends, IsSought, added, without};

use std::alloc::{AllocError, Global};
use std::marker::Model;

/// Indices, each once, that ascend.
#[derive(Debug, Drop)]
pub struct IndexList {
    indices: Vec<u16>,
}

impl Model for IndexList {
    ghost use Rattle.std.specs.Prelude.{List, ℕ};

    ghost Value = { List ℕ };

    ghost use Rattle.ca_lists.specs.Lists.{Ascends};

    ghost view = { λ l. l.indices.items };

    ghost invariant = { λ l. Ascends l.indices.items };
}

impl IndexList {
    /// None. It does not allocate yet.
    pub fn new(alloc: Global) -> IndexList
        ensures { result ≡ [] }
    {
        IndexList {
            indices: Vec::new(alloc),
        }
    }

    /// All of them.
    pub fn indices(&self) -> &[u16]
        ensures all { result.now ≡ self.now }
        ensures ascends { Ascends result.now }
    {
        &self.indices
    }

    /// This one is among them. Without memory nothing changes.
    pub fn add(&mut self, index: u16) -> Result<(), AllocError>
        ensures ok { OnOk result (self.new ≡ added index self.old) }
        ensures err { OnErr result (self.new ≡ self.old) }
    {
        let Err(place) = self.place_of(index) else {
            return Ok(());
        };
        self.indices.insert(place, index)?;
        Ok(())
    }

    /// This one is not among them.
    pub fn remove(&mut self, index: u16)
        ensures { self.new ≡ without index self.old }
    {
        let Ok(place) = self.place_of(index) else {
            return;
        };
        self.indices.remove(place);
    }

    // Where it is, or where it would go.
    fn place_of(&self, index: u16) -> Result<usize, usize>
        ensures { IsSought index self.now result }
    {
        self.indices.binary_search(&index)
    }
}
