//! The subscriptions of one circuit with their indexes and queues. Begin at `begin`, `post` and
//! `take`; the updates themselves wait in `waiting.rt`.
ghost use Rattle.std.specs.Prelude.{Option, ◌≡◌, ◌∷◌, [], ◌<◌, ◌==◌, ◌≤◌, ◌*◌, IfOk, IfSome, OnErr};
ghost use Rattle.std.specs.Prelude.{OnOk, Some, false, true, filter, map, length, option_map};
ghost use Rattle.std.specs.List.{fold, list_any};
ghost use Rattle.std.specs.Map.{lookup};
ghost use Rattle.ca_text.specs.Limits.{circuit_queues, queue_subscriptions};
ghost use Rattle.ca_queue.specs.Keys.{same};
ghost use Rattle.ca_queue.specs.Queue.{switched};
ghost use Rattle.ca_model.specs.Server.{concerns};
ghost use Rattle.ca_server_subscriptions.specs.Concerned.{ConcernsAt};
ghost use Rattle.ca_queue.specs.Circuit.{RestBefore, queue_posted};
ghost use Rattle.ca_model.specs.Speech.{Stored};
ghost use Rattle.ca_wire.specs.declared.requests.Wanted.{Wanted};
ghost use Rattle.ca_server_subscriptions.specs.ByRecord.{IsOnlyOn, IsOnlyOne, receivers_of};
ghost use Rattle.ca_server_subscriptions.specs.Pumping.{GivesAt, GivesUpdate, MayGive};
ghost use Rattle.ca_server_subscriptions.specs.Owing.{AreEmpty, AreOn};
ghost use Rattle.ca_server_subscriptions.specs.Passing.{PassesBy};
ghost use Rattle.ca_server_subscriptions.specs.Subscribed.{AreKnown, ArePlaced, HasRoom, IsAskable};
ghost use Rattle.ca_server_subscriptions.specs.Subscribed.{IsOneOf, Joins, Standings, after_post};
ghost use Rattle.ca_server_subscriptions.specs.Subscribed.{has_key, is_of_sid, is_on, none_yet};
ghost use Rattle.ca_server_subscriptions.specs.Subscribed.{without_those};

use crate::by_channel::ByChannel;
use crate::by_record::ByRecord;
use crate::posted::Posted;
use crate::queued_subscription::QueuedSubscription;
use crate::receiver::Receiver;
use crate::update::Update;
use crate::waiting::Waiting;
use ca_queue::SubKey;
use ca_text::Refusal;
use ca_wire::{Sid, Wanted};
use indexmap::IndexMap;
use std::alloc::{AllocError, Global};
use std::marker::Model;
use std::slice;

/// The subscriptions of an end, in the order of their EVENT_ADDs, and the queues of their updates.
#[derive(Drop)]
pub(crate) struct Subscriptions {
    // The place in `queued_subscription` of a subscription that is the only one on its record,
    // mostly the record that was posted to last: the next post to it then looks at no line. None if
    // no such place is known, as after each `begin` and `cancel`.
    only_one: Option<usize>,
    standing: IndexMap<SubKey, QueuedSubscription>,
    queues: Waiting,
    // A guess of the place in `queued_subscription` of the subscription whose update is taken next:
    // the first one that was last posted to, then the one after each that was taken. Whoever uses
    // it compares the key there, and looks the key up if it is another.
    next: usize,
    by_record: ByRecord,
    // Where the line of a record was found last: mostly the same is asked for
    // again. The name decides.
    recent: usize,
    by_channel: ByChannel,
}

impl Model for Subscriptions {
    ghost use Rattle.ca_server_subscriptions.specs.Subscribed.{Subscribed};

    ghost Value = { Subscribed };

    ghost use Rattle.std.specs.Coded.{codes};
    ghost use Rattle.ca_dbr.specs.Codes.{elements_code};

    ghost coded = { Prim.hlevel (codes, elements_code) };

    ghost use Rattle.ca_server_subscriptions.specs.ByRecord.{AreByRecord, IsOnlyOne};
    ghost use Rattle.ca_server_subscriptions.specs.ByChannel.{AreByChannel};
    ghost use Rattle.ca_server_subscriptions.specs.Subscribed.{AreAskable, ArePlaced};
    ghost use Rattle.ca_server_subscriptions.specs.Subscribed.{subscriptions_in};

    ghost view = { λ s.
        record { subscriptions = subscriptions_in s.standing.entries; queues = s.queues } };

    ghost invariant = { λ s.
        ArePlaced s.standing.entries s.queues × AreByRecord s.by_record s.standing.entries
        × IsOnlyOne s.only_one s.standing.entries × AreAskable s.standing.entries
        × AreByChannel s.by_channel s.standing.entries };
}

impl Subscriptions {
    /// None, with the memory for their queues.
    pub fn new(alloc: Global) -> Result<Subscriptions, AllocError>
        ensures { IfOk result (λ subscriptions. subscriptions ≡ none_yet) }
    {
        Ok(Subscriptions {
            only_one: None,
            standing: IndexMap::new(alloc),
            queues: Waiting::new(alloc)?,
            next: 0,
            by_record: ByRecord::new(alloc),
            recent: 0,
            by_channel: ByChannel::new(alloc),
        })
    }

    /// How many there are.
    pub fn len(&self) -> usize
        ensures { result ≡ length self.now.subscriptions }
    {
        self.standing.len()
    }

    /// Whether one has this key.
    pub fn has(&self, key: SubKey) -> bool
        ensures { result ≡ has_key key self.now }
    {
        self.standing.contains_key(&key)
    }

    /// Adds one that is new, to the record of this name, and puts its first update in the first
    /// queue with room. Without memory all is as it was.
    pub fn begin(
        &mut self,
        wanted: Wanted,
        name: Vec<u8>,
        mask: u16,
        update: Update,
    ) -> Result<(), AllocError>
        requires askable { IsAskable wanted }
        requires new { has_key (record { sid = wanted.sid; sub = wanted.id }) self.old ≡ false }
        requires few { length self.old.subscriptions < circuit_queues * queue_subscriptions }
        ensures ok { OnOk result (Joins (record { wanted = wanted; name = name.items; mask = mask })
            update self.old self.new) }
        ensures err { OnErr result (self.new ≡ self.old) }
    {
        let key = SubKey {
            sid: wanted.sid.number(),
            sub: wanted.id.number(),
        };
        self.only_one = None;
        self.standing.reserve(1)?;
        self.by_channel.add(key)?;
        let queue = match self.queues.begin(key, update) {
            Ok(queue) => queue,
            Err(Refusal::TooManySubscriptions) => unreachable!(),
            Err(_) => {
                self.by_channel.take_back(key);
                return Err(AllocError);
            }
        };
        let receiver = Receiver::new(key, mask, queue, self.standing.len());
        if self.by_record.add(name.as_slice(), receiver).is_err() {
            self.queues.cancel(queue, key);
            self.by_channel.take_back(key);
            return Err(AllocError);
        }
        let standing = QueuedSubscription::new(wanted, name, mask, queue);
        match self.standing.insert(key, standing) {
            Ok(_) => Ok(()),
            Err(_) => unreachable!(),
        }
    }

    /// Takes the one of this key out, if there is one, with its updates.
    pub fn cancel(&mut self, key: SubKey)
        ensures { self.new ≡ without_those (same key) self.old }
    {
        let Some((place, _, standing)) = self.standing.get_full(&key) else {
            return;
        };
        let queue = standing.queue();
        self.only_one = None;
        self.by_record
            .take_out(standing.name(), &self.standing, place);
        self.by_channel.take_out(&self.standing, place, key);
        self.queues.cancel(queue, key);
        self.standing.shift_remove(&key);
    }

    /// Turns events on or off.
    pub fn switch(&mut self, on: bool)
        ensures { self.new ≡ record self.old { queues = map (switched on) self.old.queues } }
    {
        self.queues.set_events(on);
    }

    /// Takes those of this SID out, with their updates.
    pub fn clear(&mut self, sid: Sid)
        ensures { self.new ≡ without_those (is_of_sid sid) self.old }
    {
        'clearing: while let Some(key) = self.last_of(sid) {
            self.cancel(key);
        }
        // It does nothing here: it tells the proof that the queues have no other subscriptions, so
        // that none of this SID is left there.
        self.know();
    }

    // The last one of this SID, if there is one.
    fn last_of(&self, sid: Sid) -> Option<SubKey>
        ensures { IsOneOf sid self.now result }
    {
        let sid = sid.number();
        match self.by_channel.last(sid) {
            Some(sub) => Some(SubKey { sid, sub }),
            None => None,
        }
    }

    /// Tells that the queues have no other subscriptions, and that one has room unless there are as
    /// many as there may be. It does nothing.
    pub fn know(&self)
        ensures known { AreKnown self.now }
        ensures room { HasRoom self.now }
    {
        let _ = &self.standing;
    }

    /// A post to the record of this name: each that it concerns gets an update, in their order. It
    /// says whether one is on the record. Without memory for one all subscriptions stay, and some
    /// have the update, so that the end is to be closed.
    #[inline(always)]
    pub fn post(&mut self, name: &[u8], mask: u16, posted: &Posted) -> Result<bool, AllocError>
        ensures ok { OnOk result (self.new ≡ after_post name.now mask posted.now self.old) }
        ensures on { IfOk result (λ on.
            on ≡ list_any (is_on name.now) self.old.subscriptions) }
        ensures err { OnErr result
            (list_any (concerns name.now mask) self.old.subscriptions ≡ true) }
        ensures stay { OnErr result (self.new.subscriptions ≡ self.old.subscriptions) }
    {
        if let Some(receiver) = only_at(self.only_one, &self.standing, name) {
            self.next = receiver.place();
            self.queues.post(slice::from_ref(&receiver), mask, posted)?;
            return Ok(true);
        }
        self.post_to_each(name, mask, posted)
    }

    // A post to the record of this name, by the line of the record.
    #[inline(never)]
    fn post_to_each(&mut self, name: &[u8], mask: u16, posted: &Posted) -> Result<bool, AllocError>
        ensures ok { OnOk result (self.new ≡ after_post name.now mask posted.now self.old) }
        ensures on { IfOk result (λ on.
            on ≡ list_any (is_on name.now) self.old.subscriptions) }
        ensures err { OnErr result
            (list_any (concerns name.now mask) self.old.subscriptions ≡ true) }
        ensures stay { OnErr result (self.new.subscriptions ≡ self.old.subscriptions) }
    {
        let receivers = self.by_record.receivers(&mut self.recent, name);
        let Some(first) = receivers.first() else {
            return Ok(false);
        };
        self.next = place_of(first, &self.standing);
        self.only_one = only_place(receivers, self.next, &self.standing, name);
        self.queues.post(receivers, mask, posted)?;
        self.by_record.note(self.recent, self.next);
        Ok(true)
    }

    /// What the first subscription on the record of this name asked for, if there is one.
    pub fn wanted_on(&self, name: &[u8]) -> Option<Wanted>
        ensures { IfSome result (λ w. IsAskable w) }
    {
        let mut recent = self.recent;
        let first = self.by_record.receivers(&mut recent, name).first()?;
        let standing = self.standing.get(&first.key())?;
        Some(standing.wanted())
    }

    /// An update that was shown gives its memory to the next one.
    pub fn recycle(&mut self, update: Update)
        ensures { self.new ≡ self.old }
    {
        self.queues.recycle(update);
    }

    /// The place of the queue that has the one at this place, if a post to the record of this name,
    /// with this mask, concerns it. Only a recorder of histories needs it.
    pub fn concerned_at(&self, place: usize, name: &[u8], mask: u16) -> Option<usize>
        ensures { ConcernsAt name.now mask place self.now.subscriptions self.now.queues result }
    {
        let Some((_, standing)) = self.standing.get_index(place) else {
            return None;
        };
        if !standing.is_concerned(name, mask) {
            return None;
        }
        Some(standing.queue())
    }

    /// The update that has this number from the front of the queue at this place, if one waits
    /// there, and what its subscription asked for. Only a recorder of histories needs it.
    pub fn update_at(&self, place: usize, index: usize) -> Option<(Wanted, &Update)>
        ensures gives { GivesAt self.now place index (option_map (λ r. (r.0, r.1.now)) result) }
        ensures askable { IfSome result (λ r. IsAskable r.0) }
    {
        let (key, update) = self.queues.entry(place, index)?;
        let standing = self.standing.get(&key)?;
        Some((standing.wanted(), update))
    }

    /// Tells if nothing waits and events are on, so that no update may be taken.
    pub fn is_idle(&self) -> bool
        ensures { result ≡ true → RestBefore self.now.queues (length self.now.queues) }
    {
        self.queues.is_idle()
    }

    /// What the only subscription on the record of this name asked for, if there is one alone, a
    /// post with this mask concerns it, and nothing waits while events are on: its update would be
    /// the next to be taken, and would leave all as it is. None says nothing.
    #[inline(always)]
    pub fn only_one(&mut self, name: &[u8], mask: u16) -> Option<Wanted>
        ensures passes { IfSome result (λ w. PassesBy name.now mask w self.old) }
        ensures askable { IfSome result (λ w. IsAskable w) }
        ensures stays { self.new ≡ self.old }
    {
        if !self.queues.is_idle() {
            return None;
        }
        match only_subscription_at(self.only_one, &self.standing, name) {
            Some(standing) => standing.wanted_by(mask),
            None => self.seek_only(name, mask),
        }
    }

    // What the only subscription on the record asked for, as `only_one`, by the line of the record.
    #[inline(never)]
    fn seek_only(&mut self, name: &[u8], mask: u16) -> Option<Wanted>
        requires on { AreOn self.old.queues }
        requires empty { AreEmpty self.old.queues }
        ensures passes { IfSome result (λ w. PassesBy name.now mask w self.old) }
        ensures askable { IfSome result (λ w. IsAskable w) }
        ensures stays { self.new ≡ self.old }
    {
        let receivers = self.by_record.receivers(&mut self.recent, name);
        let place = place_of(receivers.first()?, &self.standing);
        self.only_one = only_place(receivers, place, &self.standing, name);
        self.by_record.note(self.recent, place);
        let standing = only_subscription_at(self.only_one, &self.standing, name)?;
        standing.wanted_by(mask)
    }

    /// The update that is taken next, and what its subscription asked for, if it was posted while
    /// nothing waited. It is not taken yet.
    pub fn first(&self) -> Option<(Wanted, &Update)>
        ensures gives { IfSome result (λ r. MayGive self.now r.0 r.1.now) }
        ensures askable { IfSome result (λ r. IsAskable r.0) }
    {
        let (key, update) = self.queues.first()?;
        let Some(standing) = seek(&self.standing, self.next, key) else {
            unreachable!()
        };
        Some((standing.wanted(), update))
    }

    /// Takes an update from the first queue that may give one, and lets it go.
    pub fn drop_first(&mut self)
        ensures { (r : Option (Wanted × Stored)) × GivesUpdate self.old r self.new }
    {
        self.next = after(self.next, self.standing.len());
        self.queues.drop_first();
    }

    /// Takes an update from the first queue that may give one, and says what its subscription
    /// asked for. None if none may. Without memory, which is asked for only if one may be
    /// taken, all is as it was.
    pub fn take(&mut self) -> Result<Option<(Wanted, Update)>, AllocError>
        ensures gives { IfOk result (λ taken. GivesUpdate self.old taken self.new) }
        ensures askable { IfOk result (λ taken. IfSome taken (λ r. IsAskable r.0)) }
        ensures some { OnErr result ((w : Wanted) × ((v : Stored)
            × (IsAskable w × MayGive self.old w v))) }
        ensures err { OnErr result (self.new ≡ self.old) }
    {
        // Then nothing waits, and no queue need be looked at.
        if self.standing.is_empty() {
            return Ok(None);
        }
        let Some((_, key, update)) = self.queues.take()? else {
            return Ok(None);
        };
        let Some(standing) = find(&self.standing, &mut self.next, key) else {
            unreachable!()
        };
        Ok(Some((standing.wanted(), update)))
    }
}

// The subscription of this key, which is looked for at this place first. The place after
// it comes in its stead.
fn find<'a>(
    standing: &'a IndexMap<SubKey, QueuedSubscription>,
    next: &mut usize,
    key: SubKey,
) -> Option<&'a QueuedSubscription>
    ensures { option_map (λ s. s.now) result ≡ lookup (same key) standing.now.entries }
{
    let place = *next;
    if let Some(found) = at_key(standing, place, key) {
        *next = after(place, standing.len());
        return Some(found);
    }
    match standing.get_full(&key) {
        None => None,
        Some((place, _, found)) => {
            *next = after(place, standing.len());
            Some(found)
        }
    }
}

// The subscription of this key, which is looked for at this place first.
fn seek(
    standing: &IndexMap<SubKey, QueuedSubscription>,
    place: usize,
    key: SubKey,
) -> Option<&QueuedSubscription>
    ensures { option_map (λ s. s.now) result ≡ lookup (same key) standing.now.entries }
{
    match at_key(standing, place, key) {
        Some(found) => Some(found),
        None => standing.get(&key),
    }
}

// The subscription at this place, if it has this key.
fn at_key(
    standing: &IndexMap<SubKey, QueuedSubscription>,
    place: usize,
    key: SubKey,
) -> Option<&QueuedSubscription>
    ensures { IfSome result (λ s. lookup (same key) standing.now.entries ≡ Some s.now) }
{
    let Some((other, found)) = standing.get_index(place) else {
        return None;
    };
    if *other == key {
        return Some(found);
    }
    None
}

// The place after this one, of n that go round.
fn after(place: usize, n: usize) -> usize {
    let next = place.wrapping_add(1);
    if next < n { next } else { 0 }
}

// The only one on the record of this name, if it is at this place.
#[inline(always)]
fn only_at(
    only_one: Option<usize>,
    standing: &IndexMap<SubKey, QueuedSubscription>,
    name: &[u8],
) -> Option<Receiver>
    requires { IsOnlyOne only_one standing.now.entries }
    ensures { IfSome result (λ r. receivers_of name.now standing.now.entries ≡ r ∷ []) }
{
    let place = only_one?;
    let Some((key, standing)) = standing.get_index(place) else {
        return None;
    };
    if !standing.is_on(name) {
        return None;
    }
    Some(standing.receiver(*key, place))
}

// The only one on the record of this name, if it is at this place, as it is there.
#[inline(always)]
fn only_subscription_at<'a>(
    only_one: Option<usize>,
    standing: &'a IndexMap<SubKey, QueuedSubscription>,
    name: &[u8],
) -> Option<&'a QueuedSubscription>
    requires { IsOnlyOne only_one standing.now.entries }
    ensures { IfSome result (λ s. IsOnlyOn name.now s.now standing.now.entries) }
{
    let place = only_one?;
    let Some((_, standing)) = standing.get_index(place) else {
        return None;
    };
    if !standing.is_on(name) {
        return None;
    }
    Some(standing)
}

// Where this one is: mostly where it was found last, unless others before it are gone since.
#[inline(always)]
fn place_of(receiver: &Receiver, standing: &IndexMap<SubKey, QueuedSubscription>) -> usize {
    let place = receiver.place();
    match at_key(standing, place, receiver.key()) {
        Some(_) => place,
        None => moved_to(receiver, standing),
    }
}

// Where this one is, by its key.
#[inline(never)]
fn moved_to(receiver: &Receiver, standing: &IndexMap<SubKey, QueuedSubscription>) -> usize {
    standing.get_index_of(&receiver.key()).unwrap_or(0)
}

// Where the only one of those on the record of this name is, if there is one
// alone: here is the first.
fn only_place(
    receivers: &[Receiver],
    place: usize,
    standing: &IndexMap<SubKey, QueuedSubscription>,
    name: &[u8],
) -> Option<usize>
    requires { receivers.now ≡ receivers_of name.now standing.now.entries }
    ensures { IsOnlyOne result standing.now.entries }
{
    if receivers.len() != 1 {
        return None;
    }
    let Some((_, standing)) = standing.get_index(place) else {
        return None;
    };
    if !standing.is_on(name) {
        return None;
    }
    Some(place)
}
