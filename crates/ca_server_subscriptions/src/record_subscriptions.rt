//! The subscriptions of one circuit on one record, in the order of their EVENT_ADDs: an entry of
//! the index in `by_record.rt`.
ghost use Rattle.std.specs.Prelude.{◌≡◌, ◌∷◌, ◌++◌, ◌<◌, ◌↔◌, [], true, IfOk, OnErr, OnOk, length};
ghost use Rattle.std.specs.Prelude.{remove};
ghost use Rattle.ca_server_subscriptions.specs.ByRecord.{IsInLine, LeavesLine};

use crate::order::is_before;
use crate::queued_subscription::QueuedSubscription;
use crate::receiver::Receiver;
use ca_queue::SubKey;
use indexmap::IndexMap;
use std::alloc::{AllocError, Global};
use std::marker::Model;

/// The subscriptions on one record, in the order of their EVENT_ADDs.
#[derive(Drop)]
pub(crate) struct RecordSubscriptions {
    receivers: Vec<Receiver>,
}

impl Model for RecordSubscriptions {
    ghost use Rattle.std.specs.Prelude.{List};
    ghost use Rattle.ca_server_subscriptions.specs.ByRecord.{Receiver};

    ghost Value = { List Receiver };

    ghost view = { λ l. l.receivers.items };
}

impl RecordSubscriptions {
    // This one alone.
    pub(crate) fn one(alloc: Global, receiver: Receiver) -> Result<RecordSubscriptions, AllocError>
        ensures { IfOk result (λ l. l ≡ receiver ∷ []) }
    {
        let mut receivers = Vec::new(alloc);
        receivers.push(receiver)?;
        Ok(RecordSubscriptions { receivers })
    }

    // All of them.
    #[inline(always)]
    pub(crate) fn as_slice(&self) -> &[Receiver]
        ensures { result.now ≡ self.now }
    {
        self.receivers.as_slice()
    }

    // Whether there is none.
    pub(crate) fn is_empty(&self) -> bool
        ensures { (result ≡ true) ↔ (self.now ≡ []) }
    {
        self.receivers.is_empty()
    }

    // One more, after all others. Without memory all is as it was.
    pub(crate) fn add(&mut self, receiver: Receiver) -> Result<(), AllocError>
        ensures ok { OnOk result (self.new ≡ self.old ++ receiver ∷ []) }
        ensures err { OnErr result (self.new ≡ self.old) }
    {
        self.receivers.push(receiver)?;
        Ok(())
    }

    // The first one was found at this place of all of the end.
    #[inline(always)]
    pub(crate) fn note(&mut self, place: usize)
        ensures { self.new ≡ self.old }
    {
        if !self.receivers.is_empty() {
            self.receivers[0].note(place);
        }
    }

    // The one at this place of all of the end is gone.
    pub(crate) fn take_out(&mut self, standing: &IndexMap<SubKey, QueuedSubscription>, place: usize)
        requires { IsInLine standing.now.entries place self.old }
        ensures { LeavesLine standing.now.entries place self.old self.new }
    {
        let found = place_on_record(self.receivers.as_slice(), standing, place);
        self.receivers.remove(found);
    }
}

// Where the line has the one at this place of all of the end. Both are in the order of
// their EVENT_ADDs, so that those which are before it there come before it here, and a
// search by halving finds it.
fn place_on_record(
    receivers: &[Receiver],
    standing: &IndexMap<SubKey, QueuedSubscription>,
    place: usize,
) -> usize
    requires { IsInLine standing.now.entries place receivers.now }
    ensures within { result < length receivers.now }
    ensures place { LeavesLine standing.now.entries place receivers.now
        (remove receivers.now result) }
{
    receivers.partition_point(|receiver| is_before(standing, place, receiver.key()))
}
