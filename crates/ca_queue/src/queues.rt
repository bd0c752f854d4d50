//! The trait of an event queue: what a post, a take, a cancel and a pause of updates do, however
//! the queue is kept. Begin here; `event_queue.rt` is the one that servers use.
ghost use Rattle.std.specs.Prelude.{◌≡◌, Bool, IsTrue, IsFalse, MatchResult, length, nat_le};
ghost use Rattle.std.specs.Prelude.{option_map, slice_get};
ghost use Rattle.ca_text.specs.Limits.{queue_subscriptions};
ghost use Rattle.ca_queue.specs.Keys.{is_among};
ghost use Rattle.ca_queue.specs.Waiting.{taken};
ghost use Rattle.ca_queue.specs.Queue.{Queue, Adds, no_queue, posted, with_front_taken, cancelled};
ghost use Rattle.ca_queue.specs.Queue.{switched};
ghost use Rattle.ca_queue.specs.Sound.{IsSound};
ghost use Rattle.ca_text.specs.declared.refusal.Refusal.TheVariants.{OutOfMemory};

use crate::entry::SubKey;
use ca_text::Refusal;
use std::alloc::Global;

/// An event queue of these entries, however it is kept.
///
/// `add` makes the room for all entries that come, so the other calls do not allocate.
pub trait Queues<E> {
    /// What it is: the entries that wait, the subscriptions, and whether events are on.
    ghost contents: { Self → Queue E };

    /// Whether the room for all that comes was made.
    ghost has_room: { Self → Bool };

    /// A queue with no subscription, with events on. It does not allocate yet.
    fn new(alloc: Global) -> Self
        ensures made { contents result ≡ no_queue }
        ensures room { IsFalse (has_room result) }
        ensures sound { IsSound (contents result) };

    /// Whether it has 36 subscriptions.
    fn is_full(&self) -> bool
        ensures { result ≡ nat_le queue_subscriptions (length (contents self.now).subscriptions) };

    /// Adds a subscription that it does not have.
    ///
    /// Refused as `TooManySubscriptions` if it has 36, and as `OutOfMemory` only until its room was
    /// made: once one was added the room stays. A refusal changes nothing.
    fn add(&mut self, key: SubKey) -> Result<(), Refusal>
        requires { IsFalse (is_among key (contents self.old).subscriptions) }
        ensures adds { Adds (contents self.old) key result (contents self.new) }
        ensures room { MatchResult result (λ _. IsTrue (has_room self.new))
            (λ e.
            (e ≡ OutOfMemory → IsFalse (has_room self.old))
            × (IsTrue (has_room self.old) → IsTrue (has_room self.new))) }
        ensures sound { IsSound (contents self.new) };

    /// Puts an entry of a subscription that was added.
    ///
    /// It takes the place of the subscription's last entry if there is one and either 36 places or
    /// fewer are free or events are off; else it goes to the back.
    fn post(&mut self, key: SubKey, entry: E)
        requires { IsTrue (is_among key (contents self.old).subscriptions) }
        ensures posts { contents self.new ≡ posted key entry (contents self.old) }
        ensures room { has_room self.new ≡ has_room self.old }
        ensures sound { IsSound (contents self.new) };

    /// Takes the entry at the front out.
    ///
    /// With events off it gives something only while some subscription has two entries or more.
    fn take(&mut self) -> Option<(SubKey, E)>
        ensures gives { result ≡ taken (contents self.old).events_on (contents self.old).waiting }
        ensures leaves { contents self.new ≡ with_front_taken (contents self.old) }
        ensures room { has_room self.new ≡ has_room self.old }
        ensures sound { IsSound (contents self.new) };

    /// The entry that has this number from the front, with its subscription: None if fewer wait.
    /// Only a recorder of histories needs it.
    fn entry(&self, index: usize) -> Option<(SubKey, &E)>
        ensures { option_map (λ w. (w.0, w.1.now)) result
            ≡ slice_get (contents self.now).waiting index };

    /// Takes out this subscription and all its entries. The other entries keep their order.
    fn cancel(&mut self, key: SubKey)
        ensures cancels { contents self.new ≡ cancelled key (contents self.old) }
        ensures room { has_room self.new ≡ has_room self.old }
        ensures sound { IsSound (contents self.new) };

    /// Turns events on or off.
    fn set_events(&mut self, on: bool)
        ensures switches { contents self.new ≡ switched on (contents self.old) }
        ensures room { has_room self.new ≡ has_room self.old }
        ensures sound { IsSound (contents self.new) };
}
