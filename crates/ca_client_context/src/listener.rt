//! The trait `Listener`, and the table of listeners by subscription. The thread of input and output
//! has that table for itself, and callers leave it their changes under the lock.
use ca_arena::Handle;
use ca_dbr::Outcome;
use ca_text::ARENA_SLOTS;
use std::alloc::{AllocError, Global};

/// Hears the updates of a subscription, on the thread of input and output, with no lock held.
///
/// While it runs nothing is read or sent for the client, and the waits of all callers go on: so it
/// is to be quick. It may make any call of the context that does not wait: `get`, `put`,
/// `put_notify`, `monitor`, `unsubscribe`, `clear`, `collect`, `give_up`, `open`, `channel_state`
/// and `end`. It is not to wait for a reply: `wait`, `wait_for`, `wait_live` and `wait_live_for`
/// find none there, and return once their time is over.
pub trait Listener: Drop {
    /// An update; or Failed, if the server refused the subscription, which is over then.
    fn heard(&mut self, outcome: &Outcome);
}

/// The listener of a client that subscribes to nothing.
#[derive(Clone, Copy, Drop)]
pub struct Nobody;

impl Listener for Nobody {
    fn heard(&mut self, _outcome: &Outcome) {}
}

// A listener, and the subscription that it hears.
#[derive(Drop)]
pub(crate) struct SubscribedListener<L: Listener> {
    pub(crate) subscription: Handle,
    pub(crate) listener: L,
}

// What became of listeners since the thread of input and output last looked.
#[derive(Drop)]
pub(crate) enum Change<L: Listener> {
    // This one hears its subscription.
    Hears(SubscribedListener<L>),
    // This subscription was cancelled.
    Ends(Handle),
}

// The listeners, each at the index of its subscription. There is a place for each subscription
// that a client can have.
#[derive(Drop)]
pub(crate) struct SubscribedListeners<L: Listener> {
    places: Vec<Option<SubscribedListener<L>>>,
    // How many subscriptions were cancelled when that was last asked.
    cancels: u64,
}

impl<L: Listener> SubscribedListeners<L> {
    pub(crate) fn new(alloc: Global) -> Result<SubscribedListeners<L>, AllocError> {
        let mut places = Vec::new(alloc);
        places.reserve(ARENA_SLOTS)?;
        for _ in 0..ARENA_SLOTS {
            places.push(None)?;
        }
        Ok(SubscribedListeners { places, cancels: 0 })
    }

    // Takes in what has changed, in the order of the calls that changed it.
    pub(crate) fn follow(&mut self, changes: &mut Vec<Change<L>>) {
        changes.reverse();
        for _ in 0..changes.len() {
            match changes.pop() {
                Some(Change::Hears(subscribed)) => self.adopt(subscribed),
                Some(Change::Ends(subscription)) => self.forget(subscription),
                None => {}
            }
        }
    }

    // Whether others were cancelled, now that this many were, since this was last asked.
    pub(crate) fn is_behind(&mut self, cancels: u64) -> bool {
        let is_behind = self.cancels != cancels;
        self.cancels = cancels;
        is_behind
    }

    // Drops the listeners of the subscriptions that were cancelled, before the changes are taken
    // in: nothing more is told to them.
    pub(crate) fn forget_cancelled(&mut self, changes: &[Change<L>]) {
        for change in changes {
            if let Change::Ends(subscription) = change {
                self.forget(*subscription);
            }
        }
    }

    // Takes a listener in. It takes the place of one whose subscription has ended.
    fn adopt(&mut self, subscribed: SubscribedListener<L>) {
        if let Some(place) = self
            .places
            .get_mut(usize::from(subscribed.subscription.index))
        {
            *place = Some(subscribed);
        }
    }

    // Drops the listener of a subscription that has ended.
    pub(crate) fn forget(&mut self, subscription: Handle) {
        let Some(place) = self.places.get_mut(usize::from(subscription.index)) else {
            return;
        };
        if let Some(subscribed) = place {
            if subscribed.subscription == subscription {
                *place = None;
            }
        }
    }

    // Has the listener of a subscription hear an outcome. A subscription that
    // was cancelled has none.
    pub(crate) fn tell(&mut self, subscription: Handle, outcome: &Outcome) {
        if let Some(Some(subscribed)) = self.places.get_mut(usize::from(subscription.index)) {
            if subscribed.subscription == subscription {
                subscribed.listener.heard(outcome);
            }
        }
    }
}
