//! A large value that is posted to several circuits: one copy of it for all, with the update as the
//! first of them asked for it.
ghost use Rattle.std.specs.Prelude.{◌≡◌, ◌≤◌, IfSome};
ghost use Rattle.std.specs.Arc.{arc_value};
ghost use Rattle.ca_text.specs.Limits.{element_limit};
ghost use Rattle.ca_dbr.specs.Elements.{count_of};
ghost use Rattle.ca_server_subscriptions.specs.Sharing.{IsUpdateOf};

use crate::image::write_image;
use ca_dbr::Meta;
use ca_display::Held;
use ca_text::{Command, Status};
use ca_wire::Message;
use std::alloc::Global;
use std::marker::Model;
use std::sync::Arc;

/// Elements of a value from which on several circuits share it: a copy of fewer costs less.
pub const SHARED_COUNT: usize = 1_024;

/// What a record held, with alarm and time stamp, that several updates share, and such an update,
/// in one type and of one number of elements.
#[derive(Drop)]
pub struct SharedUpdate {
    held: Held,
    meta: Meta,
    // To a subscription of id 0.
    update: Message,
}

impl Model for SharedUpdate {
    ghost use Rattle.ca_server_subscriptions.specs.Sharing.{Shared};

    ghost Value = { Shared };

    ghost use Rattle.std.specs.Coded.{codes};
    ghost use Rattle.ca_dbr.specs.Codes.{elements_code};

    ghost coded = { Prim.hlevel (codes, elements_code) };

    ghost use Rattle.std.specs.Prelude.{◌≤◌};
    ghost use Rattle.ca_text.specs.Limits.{element_limit};
    ghost use Rattle.ca_dbr.specs.Elements.{count_of};
    ghost use Rattle.ca_server_subscriptions.specs.Sharing.{IsUpdateOf};

    ghost view = { λ s.
        record { stored = record { value = s.held; meta = s.meta }; update = s.update } };

    ghost invariant = { λ s. (count_of s.held ≤ element_limit)
        × IsUpdateOf (record { value = s.held; meta = s.meta }) s.update };
}

impl SharedUpdate {
    /// One of this, which it copies, with an update in this type of so many elements. None if the
    /// value has no image of this type, or without memory.
    pub fn of(
        alloc: Global,
        held: &Held,
        meta: &Meta,
        data_type: u16,
        count: u32,
    ) -> Option<Arc<SharedUpdate>>
        requires { count_of held.now ≤ element_limit }
        ensures { IfSome result (λ a. (arc_value a).stored
            ≡ record { value = held.now; meta = meta.now }) }
    {
        let mut image = Vec::new(alloc);
        let Ok(()) = write_image(data_type, count, held, meta, &mut image) else {
            return None;
        };
        let command = Command::EventAdd.number();
        let status = Status::NORMAL.number;
        let Ok(update) = Message::new(command, data_type, count, status, 0, image) else {
            return None;
        };
        let Ok(held) = held.copy(alloc) else {
            return None;
        };
        let shared = SharedUpdate {
            held,
            meta: *meta,
            update,
        };
        match Arc::new(alloc, shared) {
            Ok(shared) => Some(shared),
            Err(_) => None,
        }
    }

    // What the record held.
    pub(crate) fn held(&self) -> &Held
        ensures held { result.now ≡ self.now.stored.value }
        ensures limit { count_of self.now.stored.value ≤ element_limit }
    {
        &self.held
    }

    // Its alarm and its time stamp.
    pub(crate) fn meta(&self) -> &Meta
        ensures { result.now ≡ self.now.stored.meta }
    {
        &self.meta
    }

    /// The update, to a subscription of id 0.
    pub fn update(&self) -> &Message
        ensures is { result.now ≡ self.now.update }
        ensures shows { IsUpdateOf self.now.stored self.now.update }
    {
        &self.update
    }
}
