//! A block of the arena: 64 slots in memory of their own, which never move. Items
//! go into them in order.
ghost use Rattle.std.specs.Prelude.{◌≡◌, ◌+◌, ◌++◌, ◌∷◌, ◌<◌, List, Some, [], length, slice_get};
ghost use Rattle.std.specs.Prelude.{IfOk};
ghost use Rattle.std.specs.Borrow.{sem};
ghost use Rattle.std.specs.Vec.Ownership.{FitsInBlock};
ghost use Rattle.ca_arena.specs.Block.{block_slots, owns_slots, lends_slots};

use std::alloc::{AllocError, Allocator};
use std::marker::{Model, PhantomData, Send, Sync};
use std::mem::{align_of, size_of};

/// How many slots a block has.
pub(crate) const BLOCK_SLOTS: usize = 64;

/// The owner of 64 slots, of which the first ones hold an item each, and of the right to
/// give their memory back.
pub struct Block<T, A: Allocator> {
    first: *mut T,
    by: PhantomData<A>,
    ghost alloc: { A },
    ghost items: { List T },
}

impl<T, A: Allocator> Model for Block<T, A> {
    ghost also_owns = { λ b. owns_slots T.row (A.dealloc_token b.alloc) b.first b.items };

    ghost also_shares = { λ b _ κ. lends_slots T.row b.first b.items κ };
}

unsafe impl<T: Send, A: Allocator + Send> Send for Block<T, A> {}

unsafe impl<T: Sync, A: Allocator + Sync> Sync for Block<T, A> {}

impl<T, A: Allocator> Block<T, A> {
    ghost use Rattle.ca_arena.specs.BlockLending.{lends_slot, with_items};

    // A block with no item.
    pub(crate) fn new(alloc: &A) -> Result<Self, AllocError>
        requires { FitsInBlock T.row block_slots }
        ensures { IfOk result (λ b. (b.items ≡ []) × (b.alloc ≡ alloc.now)) }
    {
        match alloc.allocate(BLOCK_SLOTS * size_of::<T>(), align_of::<T>()) {
            Ok(memory) => Ok(Block {
                first: memory as *mut T,
                by: PhantomData,
            }),
            Err(refused) => Err(refused),
        }
    }

    // Writes an item to the first slot that has none.
    pub(crate) fn write(&mut self, index: usize, item: T)
        requires { (index ≡ length self.old.items) × (index < block_slots) }
        ensures { self.new ≡ with_items self.old (self.old.items ++ item ∷ []) }
    {
        unsafe { self.first.add(index).write(item) }
    }

    // Takes the item of the last slot that has one out.
    pub(crate) fn take_out(&mut self, index: usize) -> T
        requires { (index + 1 ≡ length self.old.items) × (index < block_slots) }
        ensures { self.old ≡ with_items self.new (self.new.items ++ result ∷ []) }
    {
        unsafe { self.first.add(index).read() }
    }

    // Lends an item.
    pub(crate) fn lend(&self, index: usize) -> &T
        requires { (index < length self.now.items) × (index < block_slots) }
        ensures { slice_get self.now.items index ≡ Some result.now }
    {
        unsafe { &*self.first.add(index) }
    }

    // Lends an item for writing.
    pub(crate) fn lend_mut(&mut self, index: usize) -> &mut T
        requires { (index < length self.old.items) × (index < block_slots) }
        ensures* writes_back { sem 𝓛 (lends_slot T.row A.row A.Allocator self.entry index result) }
        ensures value { slice_get self.old.items index ≡ Some result.now }
    {
        unsafe { &mut *self.first.add(index) }
    }

    // Gives the memory of a block with no item back.
    pub(crate) fn free(self, alloc: &A)
        requires { (self.items ≡ []) × (self.alloc ≡ alloc.now) }
    {
        let Block { first, by: _ } = self;
        unsafe {
            alloc.deallocate(
                first as *mut u8,
                BLOCK_SLOTS * size_of::<T>(),
                align_of::<T>(),
            );
        }
    }
}
