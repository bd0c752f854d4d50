//! What a post needs to know of a subscription: its key, its event mask, its queue, and where it
//! was found last.
ghost use Rattle.std.specs.Prelude.{◌≡◌};
ghost use Rattle.ca_server_subscriptions.specs.ByRecord.{is_masked};

use ca_queue::SubKey;
use ca_text::Mask;
use std::marker::Model;

/// What a post needs of a subscription.
#[derive(Drop)]
pub(crate) struct Receiver {
    key: SubKey,
    mask: u16,
    // The place of the queue that has it.
    queue: usize,
    // Where it was found last among all of the end: there it is looked for first. The key decides,
    // since those before it may be gone.
    place: usize,
}

impl Model for Receiver {
    ghost use Rattle.ca_server_subscriptions.specs.ByRecord.{Receiver};

    ghost Value = { Receiver };

    ghost view = { λ r. record { key = r.key; mask = r.mask; queue = r.queue } };
}

impl Receiver {
    // The subscription of this key, at this place.
    pub(crate) fn new(key: SubKey, mask: u16, queue: usize, place: usize) -> Receiver
        ensures { result ≡ record { key = key; mask = mask; queue = queue } }
    {
        Receiver {
            key,
            mask,
            queue,
            place,
        }
    }

    // Its key.
    pub(crate) fn key(&self) -> SubKey
        ensures { result ≡ self.now.key }
    {
        self.key
    }

    // Whether its mask shares a bit with this one.
    pub(crate) fn is_masked(&self, mask: u16) -> bool
        ensures { result ≡ is_masked mask self.now }
    {
        Mask::new(mask & self.mask).is_some()
    }

    // Where it was found last.
    pub(crate) fn place(&self) -> usize {
        self.place
    }

    // It was found at this place.
    #[inline(always)]
    pub(crate) fn note(&mut self, place: usize)
        ensures { self.new ≡ self.old }
    {
        self.place = place;
    }

    // The place of the queue that has it.
    pub(crate) fn queue(&self) -> usize
        ensures { result ≡ self.now.queue }
    {
        self.queue
    }
}
