//! A value with alarm and time stamp that waits to be sent as an EVENT_ADD update. Its memory is
//! used again for the next one, unless several circuits share it.
ghost use Rattle.std.specs.Prelude.{◌≡◌, ◌≢◌, ◌≤◌, ◌⊎◌, IfOk, IfSome, None, OnErr, OnOk};
ghost use Rattle.std.specs.Arc.{arc_value};
ghost use Rattle.ca_text.specs.Limits.{element_limit};
ghost use Rattle.ca_dbr.specs.Elements.{count_of};
ghost use Rattle.ca_dbr.specs.Held.{display_of};
ghost use Rattle.ca_server_subscriptions.specs.Sharing.{IsUpdateOf};

use crate::posted::Posted;
use crate::shared_update::SharedUpdate;
use ca_dbr::{Meta, Value};
use ca_display::Held;
use std::alloc::{AllocError, Global};
use std::marker::Model;
use std::sync::Arc;

/// An update that waits: what a record held, with its alarm and its time stamp.
#[derive(Drop)]
pub struct Update {
    kept: Kept,
}

// One of its own, or one that it shares.
#[derive(Drop)]
enum Kept {
    Own(Held, Meta),
    Shared(Arc<SharedUpdate>),
}

impl Model for Update {
    ghost use Rattle.ca_model.specs.Speech.{Stored};

    ghost Value = { Stored };

    ghost use Rattle.std.specs.Coded.{codes};
    ghost use Rattle.ca_dbr.specs.Codes.{elements_code};

    ghost coded = { Prim.hlevel (codes, elements_code) };

    ghost use Rattle.std.specs.Prelude.{◌≤◌};
    ghost use Rattle.ca_text.specs.Limits.{element_limit};
    ghost use Rattle.ca_dbr.specs.Elements.{count_of};
    ghost use Rattle.ca_server_subscriptions.specs.Keeping.{stored_of};

    ghost view = { λ u. stored_of u.kept };

    ghost invariant = { λ u. count_of (stored_of u.kept).value ≤ element_limit };
}

impl Update {
    /// One of this, which it copies. Refused without memory, only if there are elements, or display
    /// data.
    pub fn of(alloc: Global, held: &Held, meta: Meta) -> Result<Update, AllocError>
        requires { count_of held.now ≤ element_limit }
        ensures ok { IfOk result (λ u. u ≡ record { value = held.now; meta = meta }) }
        ensures some { OnErr result ((count_of held.now ≢ 0) ⊎ (display_of held.now ≢ None)) }
    {
        let held = held.copy(alloc)?;
        Ok(Update {
            kept: Kept::Own(held, meta),
        })
    }

    // A copy of the update.
    pub(crate) fn copy(&self, alloc: Global) -> Result<Update, AllocError>
        ensures { IfOk result (λ u. u ≡ self.now) }
    {
        match &self.kept {
            Kept::Own(held, meta) => Update::of(alloc, held, *meta),
            Kept::Shared(shared) => Update::sharing(shared),
        }
    }

    // One that shares this.
    fn sharing(shared: &Arc<SharedUpdate>) -> Result<Update, AllocError>
        requires { count_of (arc_value shared.now).stored.value ≤ element_limit }
        ensures { IfOk result (λ u. u ≡ (arc_value shared.now).stored) }
    {
        let shared = Arc::try_clone(shared)?;
        Ok(Update {
            kept: Kept::Shared(shared),
        })
    }

    // One without elements. It does not allocate.
    pub(crate) fn empty(alloc: Global) -> Update {
        Update {
            kept: Kept::Own(Held::of(Value::Chars(Vec::new(alloc))), Meta::ZERO),
        }
    }

    // It is what was posted from now on: it shares that, or copies it, into its own memory if that
    // is of this type.
    #[inline(always)]
    pub(crate) fn renew(&mut self, alloc: Global, posted: &Posted) -> Result<(), AllocError>
        ensures { OnOk result (self.new ≡ posted.now) }
    {
        if let Kept::Own(room, meta) = &mut self.kept {
            if posted.shared().is_none() {
                *meta = *posted.meta();
                return room.renew(alloc, posted.held());
            }
        }
        *self = Update::of_posted(alloc, posted)?;
        Ok(())
    }

    // What was posted: it shares that, or copies it.
    #[inline(never)]
    fn of_posted(alloc: Global, posted: &Posted) -> Result<Update, AllocError>
        ensures { IfOk result (λ u. u ≡ posted.now) }
    {
        match posted.shared() {
            Some(shared) => Update::sharing(shared),
            None => Update::of(alloc, posted.held(), *posted.meta()),
        }
    }

    /// What the record held.
    pub fn held(&self) -> &Held
        ensures held { result.now ≡ self.now.value }
        ensures limit { count_of self.now.value ≤ element_limit }
    {
        match &self.kept {
            Kept::Own(held, _) => held,
            Kept::Shared(shared) => shared.held(),
        }
    }

    /// Its alarm and its time stamp.
    pub fn meta(&self) -> &Meta
        ensures { result.now ≡ self.now.meta }
    {
        match &self.kept {
            Kept::Own(_, meta) => meta,
            Kept::Shared(shared) => shared.meta(),
        }
    }

    /// What it shares, if that has the update in this type, of so many elements.
    pub fn shared(&self, data_type: u16, count: u32) -> Option<&Arc<SharedUpdate>>
        ensures shows { IfSome result (λ a. IsUpdateOf self.now (arc_value a.now).update) }
        ensures data_type { IfSome result (λ a.
            (arc_value a.now).update.data_type ≡ data_type) }
        ensures count { IfSome result (λ a. (arc_value a.now).update.count ≡ count) }
    {
        let Kept::Shared(shared) = &self.kept else {
            return None;
        };
        let update = shared.update();
        if update.data_type() == data_type && update.count() == count {
            return Some(shared);
        }
        None
    }
}
