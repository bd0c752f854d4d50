//! The requests of one circuit or one channel, so that its end needs no look at the others.
ghost use Rattle.std.specs.Prelude.{ℕ, ◌≡◌, ◌<◌, ◌++◌, ◌∷◌, [], OnOk, vec_capacity, vec_len};
ghost use Rattle.ca_arena.specs.declared.handle.Handle as owner;
ghost use Rattle.ca_ids.specs.Table.{Table};
ghost use Rattle.ca_requests.specs.Requests as request;
ghost use Rattle.ca_requests.specs.Lines.{MayBeOf, Readies, handed_to, no_line, told_of};

use crate::request::{Request, is_same};
use crate::requests::{forget, is_still_open};
use ca_arena::Handle;
use ca_ids::HeldTable;
use std::alloc::{AllocError, Global};
use std::marker::Model;
use std::mem;

// This many are listed before any is taken out.
const LEAST_LIMIT: usize = 16;

/// Those that are over are taken out of a list once it is this many times as long as it
/// was left the last time.
pub(crate) const GROWTH: usize = 4;

/// The requests of a circuit or of a channel, in order of issue: all that are open,
/// and some that are over.
///
/// The one that was issued last stands apart, so that if one is open at a time no list in memory
/// of its own is touched.
#[derive(Debug, Drop)]
pub(crate) struct RequestList {
    owner: Handle,
    last: Option<Handle>,
    // Those before the last one, with room for it.
    listed: Vec<Handle>,
    // How many are listed before those that are over are taken out.
    limit: usize,
}

impl Model for RequestList {
    ghost use Rattle.ca_requests.specs.Lines as lines;

    ghost Value = { lines.RequestList };

    ghost use Rattle.ca_requests.specs.Lines.{HasRoomForLast, room_beside, with_last};
    ghost use Rattle.std.specs.Prelude.{◌-◌, vec_capacity, vec_len};

    ghost view = { λ l. record {
      owner = l.owner;
      handles = with_last l.listed.items l.last;
      room = room_beside l.last (vec_capacity l.listed - vec_len l.listed);
    } };

    ghost invariant = { λ l. HasRoomForLast l.last (vec_len l.listed) (vec_capacity l.listed) };
}

impl RequestList {
    /// That of none yet. It does not allocate.
    pub(crate) fn new(alloc: Global) -> RequestList
        ensures { result ≡ no_line }
    {
        RequestList {
            owner: Handle {
                index: 0,
                generation: 0,
            },
            last: None,
            listed: Vec::new(alloc),
            limit: LEAST_LIMIT,
        }
    }

    /// Makes room for one more request of this owner. Each request is issued through it.
    #[inline(always)]
    pub(crate) fn prepare(
        &mut self,
        table: &HeldTable<Request>,
        owner: Handle,
    ) -> Result<(), AllocError>
        requires { MayBeOf table.now owner self.old }
        ensures readies { Readies table.now self.old self.new }
        ensures owner { OnOk result (self.new.owner ≡ owner) }
        ensures room { OnOk result (0 < self.new.room) }
    {
        self.own(owner);
        self.settle(table)?;
        Ok(())
    }

    // It is this owner's. What it lists of another is over.
    fn own(&mut self, owner: Handle)
        ensures readies { (t : Table request.Request) → MayBeOf t owner self.old
            → Readies t self.old self.new }
        ensures owner { self.new.owner ≡ owner }
    {
        if is_same(self.owner, owner) {
            return;
        }
        self.last = None;
        self.listed.clear();
        self.owner = owner;
        self.limit = LEAST_LIMIT;
    }

    // The last one is over, or goes to those before it, and there is room for one more.
    fn settle(&mut self, table: &HeldTable<Request>) -> Result<(), AllocError>
        ensures readies { Readies table.now self.old self.new }
        ensures owner { self.new.owner ≡ self.old.owner }
        ensures room { OnOk result (0 < self.new.room) }
    {
        let Some(last) = self.last else {
            self.listed.reserve(1)?;
            return Ok(());
        };
        self.last = None;
        if !is_still_open(table, last) {
            return Ok(());
        }
        self.listed.push_reserved(last);
        thin(&mut self.listed, &mut self.limit, table)?;
        Ok(())
    }

    /// One more request is the last. There is room for it.
    pub(crate) fn push(&mut self, handle: Handle)
        requires { 0 < self.old.room }
        ensures owner { self.new.owner ≡ self.old.owner }
        ensures handles { self.new.handles ≡ self.old.handles ++ handle ∷ [] }
    {
        self.last = Some(handle);
    }

    /// Hands out what is listed, if it is this owner's.
    pub(crate) fn take(&mut self, alloc: Global, owner: Handle) -> Vec<Handle>
        ensures told { result.items ≡ told_of owner self.old }
        ensures left { self.new.handles ≡ handed_to owner self.old }
        ensures owner { self.new.owner ≡ self.old.owner }
    {
        if !is_same(self.owner, owner) {
            return Vec::new(alloc);
        }
        self.limit = LEAST_LIMIT;
        let mut told = mem::replace(&mut self.listed, Vec::new(alloc));
        if let Some(last) = self.last {
            told.push_reserved(last);
        }
        self.last = None;
        told
    }
}

// Takes those that are over out of a list once it is long, and makes room for one more.
fn thin(
    listed: &mut Vec<Handle>,
    limit: &mut usize,
    table: &HeldTable<Request>,
) -> Result<(), AllocError>
    ensures readies { (c : owner.Handle) (m n : ℕ) → Readies table.now
        (record { owner = c; handles = listed.old.items; room = m })
        (record { owner = c; handles = listed.new.items; room = n }) }
    ensures room { OnOk result (vec_len listed.new < vec_capacity listed.new) }
{
    if listed.len() >= *limit {
        forget(listed, table);
        *limit = listed.len().saturating_mul(GROWTH).max(LEAST_LIMIT);
    }
    listed.reserve(1)
}
