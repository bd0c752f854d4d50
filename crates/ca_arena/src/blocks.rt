//! Items by index, in blocks that never move.
ghost use Rattle.std.specs.Prelude.{◌≡◌, ◌+◌, ◌<◌, ◌≤◌, [], Some, OnOk, length, option_copied};
ghost use Rattle.std.specs.Prelude.{slice_get};
ghost use Rattle.std.specs.Borrow.{sem};
ghost use Rattle.ca_text.specs.Limits.{arena_slots};
ghost use Rattle.ca_arena.specs.Block.{block_slots};
ghost use Rattle.ca_arena.specs.Stored.{nothing, pushed};

use crate::block::{BLOCK_SLOTS, Block};
use std::alloc::{AllocError, Global};
use std::marker::Model;
use std_alloc::room::may_hold;

/// Items by index from 0 on, in blocks of 64 that never move.
pub struct Blocks<T> {
    blocks: Vec<Block<T, Global>>,
    // How many items there are. They are in the first places.
    len: usize,
    alloc: Global,
}

impl<T> Model for Blocks<T> {
    ghost use Rattle.ca_arena.specs.Stored.{Stored, stored_code};

    ghost Value = { Stored T };

    ghost coded = { stored_code T.code };

    ghost use Rattle.ca_arena.specs.StoredLayout.{stored_of, AreFilled};

    ghost view = { λ b. stored_of b.blocks.items };

    ghost invariant = { λ b. AreFilled b.len b.blocks.items };
}

impl<T> Blocks<T> {
    ghost use Rattle.ca_arena.specs.StoredLending.{lends_item};

    // No block, and no item. It does not allocate yet.
    pub(crate) fn new(alloc: Global) -> Self
        ensures { result ≡ nothing }
    {
        Blocks {
            blocks: Vec::new(alloc),
            len: 0,
            alloc,
        }
    }

    // How many items there are.
    pub(crate) fn len(&self) -> usize
        ensures { result ≡ length self.now.items }
    {
        self.len
    }

    // The item at an index, if there is one.
    pub(crate) fn get(&self, index: usize) -> Option<&T>
        ensures { option_copied result ≡ slice_get self.now.items index }
    {
        if index >= self.len {
            return None;
        }
        Some(self.blocks[index / BLOCK_SLOTS].lend(index % BLOCK_SLOTS))
    }

    // The item at an index for writing.
    pub(crate) fn item_mut(&mut self, index: usize) -> &mut T
        requires { index < length self.old.items }
        ensures* writes_back { sem 𝓛 (lends_item T.row self.entry index result) }
        ensures value { slice_get self.old.items index ≡ Some result.now }
    {
        self.blocks[index / BLOCK_SLOTS].lend_mut(index % BLOCK_SLOTS)
    }

    // Puts an item after the others.
    pub(crate) fn push(&mut self, item: T)
        requires room { length self.old.items < self.old.room }
        requires few { length self.old.items < arena_slots }
        ensures { self.new ≡ pushed self.old item }
    {
        let index = self.len;
        self.blocks[index / BLOCK_SLOTS].write(index % BLOCK_SLOTS, item);
        self.len = index + 1;
    }

    // Takes the last item out.
    pub(crate) fn pop(&mut self) -> T
        requires { 0 < length self.old.items }
        ensures { self.old ≡ pushed self.new result }
    {
        let index = self.len - 1;
        self.len = index;
        self.blocks[index / BLOCK_SLOTS].take_out(index % BLOCK_SLOTS)
    }

    // Makes blocks until there is room for n more items. It changes no item.
    //
    // Inlined, its loop would have the compiler clear the room for what `append` returns at each
    // `insert`: 7 % of a round.
    #[inline(never)]
    pub(crate) fn make_room(&mut self, more: usize) -> Result<(), AllocError>
        requires { length self.old.items + more ≤ arena_slots }
        ensures items { self.new.items ≡ self.old.items }
        ensures ok { OnOk result (length self.new.items + more ≤ self.new.room) }
    {
        let needed = (self.len + more).div_ceil(BLOCK_SLOTS);
        for _block in self.blocks.len()..needed {
            self.add_block()?;
        }
        Ok(())
    }

    // Makes one more block. It makes all room before it changes anything.
    fn add_block(&mut self) -> Result<(), AllocError>
        ensures items { self.new.items ≡ self.old.items }
        ensures ok { OnOk result (self.new.room ≡ self.old.room + block_slots) }
    {
        if !may_hold::<T>(BLOCK_SLOTS) {
            return Err(AllocError);
        }
        self.blocks.reserve(1)?;
        let block = Block::new(&self.alloc)?;
        self.blocks.push_reserved(block);
        Ok(())
    }

    // Drops each item.
    fn clear(&mut self)
    where
        T: Drop,
        ensures { self.new.items ≡ [] }
    {
        for _dropped in 0..self.len() {
            drop(self.pop());
        }
    }

    // Frees the blocks, which have no item any more.
    fn free(self)
        requires { self.items ≡ [] }
    {
        let Blocks {
            mut blocks,
            len: _,
            alloc,
        } = self;
        for _freed in 0..blocks.len() {
            if let Some(block) = blocks.pop() {
                block.free(&alloc);
            }
        }
        blocks.destroy_empty();
    }
}

impl<T: Drop> Drop for Blocks<T> {
    fn drop(mut self) {
        self.clear();
        self.free();
    }
}
