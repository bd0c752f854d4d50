//! One subscription: what its EVENT_ADD asks for, the name of its record, and which of the eight
//! queues holds its updates.
ghost use Rattle.std.specs.Prelude.{◌≡◌, IfSome};
ghost use Rattle.ca_model.specs.Server.{concerns};
ghost use Rattle.ca_model.specs.Speech.{share_bit};
ghost use Rattle.ca_server_subscriptions.specs.ByRecord.{receiver_of};
ghost use Rattle.ca_server_subscriptions.specs.Passing.{IsWantedBy};
ghost use Rattle.ca_server_subscriptions.specs.Subscribed.{IsAskable, is_on};

use crate::receiver::Receiver;
use ca_queue::SubKey;
use ca_text::{Mask, is_same_name};
use ca_wire::Wanted;
use std::marker::Model;

/// A subscription of an end, and the place of the queue that has it.
#[derive(Drop)]
pub(crate) struct QueuedSubscription {
    wanted: Wanted,
    // The name of its record.
    name: Vec<u8>,
    mask: u16,
    queue: usize,
}

impl Model for QueuedSubscription {
    ghost use Rattle.std.specs.Prelude.{ℕ};
    ghost use Rattle.ca_model.specs.Server.{Subscription};

    ghost Value = { Subscription × ℕ };

    ghost use Rattle.ca_server_subscriptions.specs.Subscribed.{IsAskable};

    ghost view = { λ s.
        (record { wanted = s.wanted; name = s.name.items; mask = s.mask }, s.queue) };

    ghost invariant = { λ s. IsAskable s.wanted };
}

impl QueuedSubscription {
    // A subscription that the queue at this place has.
    pub(crate) fn new(wanted: Wanted, name: Vec<u8>, mask: u16, queue: usize) -> QueuedSubscription
        requires { IsAskable wanted }
        ensures { result ≡ (record { wanted = wanted; name = name.items; mask = mask }, queue) }
    {
        QueuedSubscription {
            wanted,
            name,
            mask,
            queue,
        }
    }

    // What its EVENT_ADD asks for.
    pub(crate) fn wanted(&self) -> Wanted
        ensures wanted { result ≡ self.now.0.wanted }
        ensures askable { IsAskable result }
    {
        self.wanted
    }

    // What its EVENT_ADD asks for, if this is its mask.
    #[inline(always)]
    pub(crate) fn wanted_by(&self, mask: u16) -> Option<Wanted>
        ensures wants { IfSome result (λ w. IsWantedBy mask self.now.0 w) }
        ensures askable { IfSome result (λ w. IsAskable w) }
    {
        if !self.is_masked(mask) {
            return None;
        }
        Some(self.wanted)
    }

    // The place of the queue that has it.
    pub(crate) fn queue(&self) -> usize
        ensures { result ≡ self.now.1 }
    {
        self.queue
    }

    // What a post needs of it, at this place, under this key.
    #[inline(always)]
    pub(crate) fn receiver(&self, key: SubKey, place: usize) -> Receiver
        ensures { result ≡ receiver_of (key, self.now) }
    {
        Receiver::new(key, self.mask, self.queue, place)
    }

    // The name of its record.
    pub(crate) fn name(&self) -> &[u8]
        ensures { result.now ≡ self.now.0.name }
    {
        self.name.as_slice()
    }

    // Whether it is on the record of this name.
    #[inline(always)]
    pub(crate) fn is_on(&self, name: &[u8]) -> bool
        ensures { result ≡ is_on name.now self.now.0 }
    {
        is_same_name(self.name.as_slice(), name)
    }

    // Whether a post to the record of this name, with this mask, concerns it.
    pub(crate) fn is_concerned(&self, name: &[u8], mask: u16) -> bool
        ensures { result ≡ concerns name.now mask self.now.0 }
    {
        self.is_on(name) && self.is_masked(mask)
    }

    // Whether its mask shares a bit with this one.
    pub(crate) fn is_masked(&self, mask: u16) -> bool
        ensures { result ≡ share_bit mask self.now.0.mask }
    {
        Mask::new(mask & self.mask).is_some()
    }
}
