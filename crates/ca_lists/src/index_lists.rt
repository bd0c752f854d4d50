//! A list of table indices for each owner, for example the subscriptions of each channel.
ghost use Rattle.std.specs.Prelude.{◌≡◌, ◌≢◌, ◌<◌, [], ℕ, OnErr, OnOk, length};
ghost use Rattle.ca_lists.specs.Lists.{Ascends, added, list_of, without};

use crate::index_list::IndexList;
use std::alloc::{AllocError, Global};
use std::marker::Model;

/// For each owner a list of indices, by the owner's index.
#[derive(Debug, Drop)]
pub struct IndexLists {
    lists: Vec<IndexList>,
}

impl Model for IndexLists {
    ghost use Rattle.std.specs.Prelude.{List, ℕ};

    ghost Value = { List (List ℕ) };

    ghost view = { λ l. l.lists.items };
}

impl IndexLists {
    /// Each list is empty. It does not allocate yet.
    pub fn new(alloc: Global) -> IndexLists
        ensures { result ≡ [] }
    {
        IndexLists {
            lists: Vec::new(alloc),
        }
    }

    /// The list of this owner.
    pub fn of(&self, owner: u16) -> &[u16]
        ensures all { result.now ≡ list_of self.now owner }
        ensures ascends { Ascends result.now }
    {
        let owner = usize::from(owner);
        if owner >= self.lists.len() {
            return &[];
        }
        self.lists[owner].indices()
    }

    /// This index is in the list of this owner. Without memory each list is as it was.
    pub fn add(&mut self, owner: u16, index: u16) -> Result<(), AllocError>
        ensures own { OnOk result (list_of self.new owner ≡ added index (list_of self.old owner)) }
        ensures err { OnErr result (list_of self.new owner ≡ list_of self.old owner) }
        ensures others { (i : ℕ) → i ≢ owner → list_of self.new i ≡ list_of self.old i }
    {
        self.extend(owner)?;
        self.lists[usize::from(owner)].add(index)?;
        Ok(())
    }

    // This owner has a list.
    fn extend(&mut self, owner: u16) -> Result<(), AllocError>
        ensures same { (i : ℕ) → list_of self.new i ≡ list_of self.old i }
        ensures within { OnOk result (owner < length self.new) }
    {
        let alloc = *self.lists.allocator();
        for _ in self.lists.len()..usize::from(owner) + 1 {
            self.lists.push(IndexList::new(alloc))?;
        }
        Ok(())
    }

    /// This index is not in the list of this owner.
    pub fn remove(&mut self, owner: u16, index: u16)
        ensures own { list_of self.new owner ≡ without index (list_of self.old owner) }
        ensures others { (i : ℕ) → i ≢ owner → list_of self.new i ≡ list_of self.old i }
    {
        let owner = usize::from(owner);
        if owner >= self.lists.len() {
            return;
        }
        self.lists[owner].remove(index);
    }
}
