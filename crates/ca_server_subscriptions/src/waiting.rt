//! The updates that wait on a circuit: eight queues, and one update in front of them that is stored
//! once for all subscriptions it is for. Begin at `post` and `take`.
ghost use Rattle.std.specs.Prelude.{ℕ, ◌≡◌, ◌≤◌, [], IfOk, IfSome, OnErr, OnOk, true, not, filter};
ghost use Rattle.std.specs.Prelude.{if◌then◌else◌, length, map, option_map, replicate, slice_get};
ghost use Rattle.std.specs.List.{fold, list_any};
ghost use Rattle.ca_text.specs.Limits.{circuit_queues};
ghost use Rattle.ca_text.specs.Place.{At};
ghost use Rattle.ca_queue.specs.Circuit.{HasAt, HasNone, RestBefore, Takes, queue_posted};
ghost use Rattle.ca_queue.specs.Circuit.{entry_in, without_each};
ghost use Rattle.ca_queue.specs.Keys.{same};
ghost use Rattle.ca_queue.specs.Queue.{no_queue, switched};
ghost use Rattle.ca_queue.specs.declared.entry.SubKey.{SubKey};
ghost use Rattle.ca_model.specs.Speech.{Stored};
ghost use Rattle.ca_server_subscriptions.specs.ByRecord.{ArePlacedIn, is_masked};
ghost use Rattle.ca_server_subscriptions.specs.Subscribed.{ArePlaced, Standings};
ghost use Rattle.ca_server_subscriptions.specs.declared.waiting.Addressee.{Addressee};
ghost use Rattle.ca_server_subscriptions.specs.Owing.{AreCopies, AreEmpty, AreInOrder, AreOn};
ghost use Rattle.ca_server_subscriptions.specs.Owing.{IsNext, LosesNext, MayBegin, addressee_of};
ghost use Rattle.ca_server_subscriptions.specs.Owing.{keys_of, those_in, with_owed};

use crate::posted::Posted;
use crate::receiver::Receiver;
use crate::update::Update;
use ca_queue::{CircuitQueues, EventQueue, SubKey};
use ca_text::Refusal;
use std::alloc::{AllocError, Global};
use std::collections::VecDeque;
use std::marker::Model;
use std::mem;

/// The updates of an end that wait, in its queues. Those of a post that comes while nothing
/// waits stay beside them: mostly they leave before the next post comes, and their value is then
/// copied once, for however many subscriptions it is. Contracts see the queues, with these
/// updates in their own.
#[derive(Drop)]
pub(crate) struct Waiting {
    alloc: Global,
    queues: CircuitQueues<Update, EventQueue<Update>>,
    // Whether events are on in the queues.
    events_on: bool,
    // If true, no update waits in the queues. It may be false while none waits: it becomes true
    // again only once `take` finds none with events on.
    empty: bool,
    // Whom the update beside the queues is for, in the order in which they get it.
    owed: VecDeque<Addressee, Global>,
    // That update, or memory for one.
    update: Update,
}

/// A subscription that the update beside the queues is for.
#[derive(Clone, Copy)]
pub(crate) struct Addressee {
    // The place of the queue that has it.
    pub(crate) queue: usize,
    pub(crate) key: SubKey,
}

impl Model for Waiting {
    ghost use Rattle.std.specs.Prelude.{List};
    ghost use Rattle.ca_queue.specs.Queue.{Queue};
    ghost use Rattle.ca_model.specs.Speech.{Stored};

    ghost Value = { List (Queue Stored) };

    ghost use Rattle.std.specs.Coded.{codes};
    ghost use Rattle.ca_dbr.specs.Codes.{elements_code};

    ghost coded = { Prim.hlevel (codes, elements_code) };

    ghost use Rattle.ca_server_subscriptions.specs.Owing.{IsOwing, with_owed};

    ghost view = { λ w. with_owed w.owed.items w.update w.queues };

    ghost invariant = { λ w. IsOwing w.events_on w.empty w.owed.items w.queues };
}

impl Waiting {
    // Eight queues with no subscription.
    pub(crate) fn new(alloc: Global) -> Result<Waiting, AllocError>
        ensures { IfOk result (λ waiting. waiting ≡ replicate circuit_queues no_queue) }
    {
        Ok(Waiting {
            alloc,
            queues: CircuitQueues::new(alloc)?,
            events_on: true,
            empty: true,
            owed: VecDeque::new(alloc),
            update: Update::empty(alloc),
        })
    }

    // Adds a subscription with its first update, as the queues do. It may be without memory for
    // those beside them too.
    pub(crate) fn begin(&mut self, key: SubKey, update: Update) -> Result<usize, Refusal>
        requires { HasNone self.old key }
        ensures { MayBegin self.old key update result self.new }
    {
        settle(self.alloc, &mut self.queues, &mut self.owed, &self.update)?;
        self.empty = false;
        self.queues.begin(key, update)
    }

    // A post to these subscriptions: each whose mask shares a bit with this one gets an update, in
    // their order. Without memory some may have it.
    #[inline(always)]
    pub(crate) fn post(
        &mut self,
        receivers: &[Receiver],
        mask: u16,
        posted: &Posted,
    ) -> Result<(), AllocError>
        requires { ArePlacedIn receivers.now self.old }
        ensures ok { OnOk result (self.new ≡ fold
            (λ qs r. map
            (queue_posted r.key posted.now) qs)
            self.old (filter (is_masked mask) receivers.now)) }
        ensures err { OnErr result (list_any (is_masked mask) receivers.now ≡ true) }
        ensures placed { (es : Standings) → ArePlaced es self.old → ArePlaced es self.new }
    {
        if !is_for_any(receivers, mask) {
            return Ok(());
        }
        if !are_in_order(receivers) {
            return self.post_behind(receivers, mask, posted);
        }
        if !nothing_waits(self.events_on, self.empty, &self.owed) {
            return self.post_behind(receivers, mask, posted);
        }
        self.update.renew(self.alloc, posted)?;
        if let Err(_) = owe(&mut self.owed, receivers, mask) {
            self.owed.clear();
            return Err(AllocError);
        }
        Ok(())
    }

    // A post to these subscriptions when others wait already: each that it concerns gets an
    // update, in their order.
    #[inline(never)]
    fn post_behind(
        &mut self,
        receivers: &[Receiver],
        mask: u16,
        posted: &Posted,
    ) -> Result<(), AllocError>
        requires { ArePlacedIn receivers.now self.old }
        ensures ok { OnOk result (self.new ≡ fold
            (λ qs r. map
            (queue_posted r.key posted.now) qs)
            self.old (filter (is_masked mask) receivers.now)) }
        ensures err { OnErr result (list_any (is_masked mask) receivers.now ≡ true) }
        ensures placed { (es : Standings) → ArePlaced es self.old → ArePlaced es self.new }
    {
        'posting: for i in 0..receivers.len() {
            self.put_behind(&receivers[i], mask, posted)?;
        }
        Ok(())
    }

    // A post to this subscription when others wait already. Without memory all is as it was.
    fn put_behind(
        &mut self,
        receiver: &Receiver,
        mask: u16,
        posted: &Posted,
    ) -> Result<(), AllocError>
        requires { HasAt self.old receiver.now.queue receiver.now.key }
        ensures ok { OnOk result (self.new ≡ (if is_masked mask receiver.now then map
            (queue_posted receiver.now.key posted.now)
            self.old else self.old)) }
        ensures masked { OnErr result (is_masked mask receiver.now ≡ true) }
        ensures err { OnErr result (self.new ≡ self.old) }
    {
        if !receiver.is_masked(mask) {
            return Ok(());
        }
        settle(self.alloc, &mut self.queues, &mut self.owed, &self.update)?;
        self.empty = false;
        self.update.renew(self.alloc, posted)?;
        let update = mem::replace(&mut self.update, Update::empty(self.alloc));
        self.queues.post(receiver.queue(), receiver.key(), update);
        Ok(())
    }

    // Whether nothing waits, and events are on.
    pub(crate) fn is_idle(&self) -> bool
        ensures rests { result ≡ true → RestBefore self.now (length self.now) }
        ensures quiet { result ≡ true → AreOn self.now × AreEmpty self.now }
    {
        nothing_waits(self.events_on, self.empty, &self.owed)
    }

    // The next update that is taken, with its subscription, if it waits beside the queues:
    // none if others wait.
    pub(crate) fn first(&self) -> Option<(SubKey, &Update)>
        ensures { IfSome result (λ r. IsNext self.now r.0 r.1.now) }
    {
        if !self.events_on {
            return None;
        }
        let first = self.owed.front()?;
        Some((first.key, &self.update))
    }

    // Takes the update that is the next, and lets it go.
    pub(crate) fn drop_first(&mut self)
        ensures { LosesNext self.old self.new }
    {
        if self.owed.is_empty() {
            self.empty = false;
            let _ = self.queues.take();
            return;
        }
        if self.events_on {
            let _ = self.owed.pop_front();
        }
    }

    // Takes an update from the first queue that may give one, as the queues do. It may be without
    // memory if one may be taken.
    pub(crate) fn take(&mut self) -> Result<Option<(usize, SubKey, Update)>, AllocError>
        ensures ok { IfOk result (λ taken. Takes self.old taken self.new) }
        ensures some { OnErr result ((key : SubKey) × ((v : Stored) × IsNext self.old key v)) }
        ensures err { OnErr result (self.new ≡ self.old) }
    {
        if !self.owed.is_empty() && !self.events_on {
            // Each subscription has one at most.
            return Ok(None);
        }
        settle(self.alloc, &mut self.queues, &mut self.owed, &self.update)?;
        self.empty = false;
        let Some(taken) = self.queues.take() else {
            self.empty = self.events_on;
            return Ok(None);
        };
        Ok(Some(taken))
    }

    // The update that has this number from the front of the queue at this place, with its
    // subscription: None if there is none.
    pub(crate) fn entry(&self, place: usize, index: usize) -> Option<(SubKey, &Update)>
        ensures { option_map (λ w. (w.0, w.1.now)) result ≡ entry_in self.now place index }
    {
        if self.owed.is_empty() {
            return self.queues.entry(place, index);
        }
        let key = owed_in(&self.owed, place, index)?;
        Some((key, &self.update))
    }

    // An update that was shown gives its memory to the next one.
    pub(crate) fn recycle(&mut self, update: Update)
        ensures { self.new ≡ self.old }
    {
        if self.owed.is_empty() {
            self.update = update;
        }
    }

    // Takes out a subscription and all its updates. The queue that has it is at this place.
    pub(crate) fn cancel(&mut self, place: usize, key: SubKey)
        requires { HasAt self.old place key }
        ensures { self.new ≡ without_each (same key) self.old }
    {
        forget(&mut self.owed, key);
        self.queues.cancel(place, key);
    }

    // Turns events on or off.
    pub(crate) fn set_events(&mut self, on: bool)
        ensures { self.new ≡ map (switched on) self.old }
    {
        self.events_on = on;
        self.queues.set_events(on);
    }
}

// Whether events are on, and nothing waits in the queues or beside them.
fn nothing_waits(events_on: bool, empty: bool, owed: &VecDeque<Addressee, Global>) -> bool
    ensures { result ≡ true → (events_on ≡ true) × (empty ≡ true) × (owed.now.items ≡ []) }
{
    events_on && empty && owed.is_empty()
}

// Whether the mask of one of these shares a bit with this one.
#[inline(always)]
fn is_for_any(receivers: &[Receiver], mask: u16) -> bool
    ensures { result ≡ list_any (is_masked mask) receivers.now }
{
    receivers.iter().any(|receiver| receiver.is_masked(mask))
}

// Whether none of these is in a later queue than one after it.
#[inline(always)]
fn are_in_order(receivers: &[Receiver]) -> bool
    ensures { result ≡ true → AreInOrder (map addressee_of receivers.now) }
{
    let mut least = usize::MAX;
    let mut left = receivers.len();
    'checking: while left > 0 {
        left -= 1;
        let Some(receiver) = receivers.get(left) else {
            unreachable!()
        };
        let queue = receiver.queue();
        if queue > least {
            return false;
        }
        least = queue;
    }
    true
}

// An update beside the queues is for those of these whose mask shares a bit with this one. Without
// memory it may be for some of them.
#[inline(always)]
fn owe(
    owed: &mut VecDeque<Addressee, Global>,
    receivers: &[Receiver],
    mask: u16,
) -> Result<(), AllocError>
    requires { owed.old.items ≡ [] }
    ensures { OnOk result (owed.new.items
        ≡ map addressee_of (filter (is_masked mask) receivers.now)) }
{
    'owing: for i in 0..receivers.len() {
        let receiver = &receivers[i];
        if receiver.is_masked(mask) {
            owed.push_back(Addressee {
                queue: receiver.queue(),
                key: receiver.key(),
            })?;
        }
    }
    Ok(())
}

// Of those whom the update beside the queues is for, the one that has this number among those in
// the queue at this place: None if they are fewer.
fn owed_in(owed: &VecDeque<Addressee, Global>, place: usize, index: usize) -> Option<SubKey>
    ensures { result ≡ slice_get (keys_of (those_in place owed.now.items)) index }
{
    let mut before = index;
    for i in 0..owed.len() {
        let addressee = owed[i];
        if addressee.queue != place {
            continue;
        }
        if before == 0 {
            return Some(addressee.key);
        }
        before -= 1;
    }
    None
}

// The update beside the queues is not for this subscription.
fn forget(owed: &mut VecDeque<Addressee, Global>, key: SubKey)
    ensures { owed.new.items ≡ filter (λ a. not (same key a.key)) owed.old.items }
{
    owed.retain(|addressee| key != addressee.key);
}

// Puts the update beside the queues into those of the subscriptions that it is for. Without
// memory all is as it was.
#[inline(always)]
fn settle(
    alloc: Global,
    queues: &mut CircuitQueues<Update, EventQueue<Update>>,
    owed: &mut VecDeque<Addressee, Global>,
    update: &Update,
) -> Result<(), AllocError>
    requires { (i : ℕ) (a : Addressee) → At owed.old.items i a → HasAt queues.old a.queue a.key }
    ensures queues { OnOk result (queues.new ≡ with_owed owed.old.items update.now queues.old) }
    ensures owed { OnOk result (owed.new.items ≡ []) }
    ensures kept { OnErr result (queues.new ≡ queues.old) }
    ensures still { OnErr result (owed.new.items ≡ owed.old.items) }
    ensures some { OnErr result (owed.old.items ≡ [] → ⊥) }
{
    if owed.is_empty() {
        return Ok(());
    }
    let copies = copies_of(alloc, update, owed.len())?;
    put_all(queues, owed, copies);
    Ok(())
}

// This many copies of the update.
fn copies_of(alloc: Global, update: &Update, n: usize) -> Result<Vec<Update>, AllocError>
    ensures { IfOk result (λ copies. AreCopies n update.now copies.items) }
{
    let mut copies = Vec::new(alloc);
    'copying: while copies.len() < n {
        copies.push(update.copy(alloc)?)?;
    }
    Ok(copies)
}

// Puts these copies of an update into the queues of the subscriptions that it is for, one for each.
#[inline(never)]
fn put_all(
    queues: &mut CircuitQueues<Update, EventQueue<Update>>,
    owed: &mut VecDeque<Addressee, Global>,
    mut copies: Vec<Update>,
)
    requires has { (i : ℕ) (a : Addressee) → At owed.old.items i a
        → HasAt queues.old a.queue a.key }
    requires count { length copies.items ≡ length owed.old.items }
    ensures queues { (v : Stored) → AreCopies (length owed.old.items) v copies.items
        → queues.new ≡ with_owed owed.old.items v queues.old }
    ensures owed { owed.new.items ≡ [] }
{
    'putting: while let Some(copy) = copies.pop() {
        let Some(addressee) = owed.pop_front() else {
            unreachable!()
        };
        queues.post(addressee.queue, addressee.key, copy);
    }
}
