//! The subscriptions of a circuit as the server's core holds them: nothing is allocated before the
//! first EVENT_ADD. Everything else is left to `subscriptions.rt`.
ghost use Rattle.std.specs.Prelude.{None, Option, ◌≡◌, ◌<◌, ◌≤◌, ◌*◌, IfOk, IfSome, OnErr, OnOk};
ghost use Rattle.std.specs.Prelude.{false, is_some, length, map, option_map, true};
ghost use Rattle.std.specs.List.{list_any};
ghost use Rattle.ca_text.specs.Limits.{circuit_queues, queue_subscriptions};
ghost use Rattle.ca_queue.specs.Circuit.{RestBefore};
ghost use Rattle.ca_queue.specs.Keys.{same};
ghost use Rattle.ca_queue.specs.Queue.{switched};
ghost use Rattle.ca_model.specs.Server.{concerns};
ghost use Rattle.ca_model.specs.Speech.{Stored};
ghost use Rattle.ca_wire.specs.declared.requests.Wanted.{Wanted};
ghost use Rattle.ca_server_subscriptions.specs.AtNeed.{subscribed_of};
ghost use Rattle.ca_server_subscriptions.specs.Concerned.{ConcernsAt};
ghost use Rattle.ca_server_subscriptions.specs.Passing.{PassesBy};
ghost use Rattle.ca_server_subscriptions.specs.Pumping.{GivesAt, GivesUpdate, MayGive};
ghost use Rattle.ca_server_subscriptions.specs.Subscribed.{AreKnown, HasRoom, IsAskable, Joins};
ghost use Rattle.ca_server_subscriptions.specs.Subscribed.{after_post, has_key, is_of_sid, is_on};
ghost use Rattle.ca_server_subscriptions.specs.Subscribed.{none_yet, without_those};

use crate::posted::Posted;
use crate::subscriptions::Subscriptions;
use crate::update::Update;
use ca_queue::SubKey;
use ca_wire::{Sid, Wanted};
use std::alloc::{AllocError, Global};
use std::marker::Model;

/// The subscriptions of an end, in the order of their EVENT_ADDs, and the queues of their updates.
/// They are kept from the first EVENT_ADD on: most circuits have none, and a server with many is
/// the faster the less of its memory each takes. Until then it is known whether events are on.
#[derive(Drop)]
pub struct SubscriptionsAtNeed {
    alloc: Global,
    kept: Option<Box<Subscriptions>>,
    events_on: bool,
}

impl Model for SubscriptionsAtNeed {
    ghost use Rattle.std.specs.Prelude.{option_map};
    ghost use Rattle.ca_server_subscriptions.specs.Subscribed.{Subscribed};

    ghost Value = { Subscribed };

    ghost use Rattle.std.specs.Coded.{codes};
    ghost use Rattle.ca_dbr.specs.Codes.{elements_code};

    ghost coded = { Prim.hlevel (codes, elements_code) };

    ghost use Rattle.ca_server_subscriptions.specs.AtNeed.{subscribed_of};

    ghost view = { λ s. subscribed_of (option_map (λ b. b.value) s.kept) s.events_on };
}

impl SubscriptionsAtNeed {
    /// None. It does not allocate yet.
    pub fn new(alloc: Global) -> SubscriptionsAtNeed
        ensures { result ≡ none_yet }
    {
        SubscriptionsAtNeed {
            alloc,
            kept: None,
            events_on: true,
        }
    }

    /// How many there are.
    pub fn len(&self) -> usize
        ensures { result ≡ length self.now.subscriptions }
    {
        match &self.kept {
            Some(subscriptions) => subscriptions.len(),
            None => 0,
        }
    }

    /// Whether one has this key.
    pub fn has(&self, key: SubKey) -> bool
        ensures { result ≡ has_key key self.now }
    {
        match &self.kept {
            Some(subscriptions) => subscriptions.has(key),
            None => false,
        }
    }

    /// Adds one that is new, to the record of this name, and puts its first update in the first
    /// queue with room. Without memory all is as it was.
    pub fn begin(
        &mut self,
        wanted: Wanted,
        name: Vec<u8>,
        mask: u16,
        update: Update,
    ) -> Result<(), AllocError>
        requires askable { IsAskable wanted }
        requires new { has_key (record { sid = wanted.sid; sub = wanted.id }) self.old ≡ false }
        requires few { length self.old.subscriptions < circuit_queues * queue_subscriptions }
        ensures ok { OnOk result (Joins (record { wanted = wanted; name = name.items; mask = mask })
            update self.old self.new) }
        ensures err { OnErr result (self.new ≡ self.old) }
    {
        keep(self.alloc, &mut self.kept, self.events_on)?;
        match &mut self.kept {
            Some(subscriptions) => subscriptions.begin(wanted, name, mask, update),
            None => unreachable!(),
        }
    }

    /// Takes the one of this key out, if there is one, with its updates.
    pub fn cancel(&mut self, key: SubKey)
        ensures { self.new ≡ without_those (same key) self.old }
    {
        match &mut self.kept {
            Some(subscriptions) => subscriptions.cancel(key),
            None => {}
        }
    }

    /// Turns events on or off.
    pub fn switch(&mut self, on: bool)
        ensures { self.new ≡ record self.old { queues = map (switched on) self.old.queues } }
    {
        self.events_on = on;
        match &mut self.kept {
            Some(subscriptions) => subscriptions.switch(on),
            None => {}
        }
    }

    /// Takes those of this SID out, with their updates.
    pub fn clear(&mut self, sid: Sid)
        ensures { self.new ≡ without_those (is_of_sid sid) self.old }
    {
        match &mut self.kept {
            Some(subscriptions) => subscriptions.clear(sid),
            None => {}
        }
    }

    /// Tells that the queues have no other subscriptions, and that one has room unless there are as
    /// many as there may be. It does nothing.
    pub fn know(&self)
        ensures known { AreKnown self.now }
        ensures room { HasRoom self.now }
    {
        match &self.kept {
            Some(subscriptions) => subscriptions.know(),
            None => {}
        }
    }

    /// A post to the record of this name: each that it concerns gets an update, in their order. It
    /// says whether one is on the record. Without memory for one all subscriptions stay, and some
    /// have the update, so that the end is to be closed.
    #[inline(always)]
    pub fn post(&mut self, name: &[u8], mask: u16, posted: &Posted) -> Result<bool, AllocError>
        ensures ok { OnOk result (self.new ≡ after_post name.now mask posted.now self.old) }
        ensures on { IfOk result (λ on.
            on ≡ list_any (is_on name.now) self.old.subscriptions) }
        ensures err { OnErr result
            (list_any (concerns name.now mask) self.old.subscriptions ≡ true) }
        ensures stay { OnErr result (self.new.subscriptions ≡ self.old.subscriptions) }
    {
        match &mut self.kept {
            Some(subscriptions) => subscriptions.post(name, mask, posted),
            None => Ok(false),
        }
    }

    /// What the first subscription on the record of this name asked for, if there is one.
    pub fn wanted_on(&self, name: &[u8]) -> Option<Wanted>
        ensures { IfSome result (λ w. IsAskable w) }
    {
        match &self.kept {
            Some(subscriptions) => subscriptions.wanted_on(name),
            None => None,
        }
    }

    /// An update that was shown gives its memory to the next one.
    pub fn recycle(&mut self, update: Update)
        ensures { self.new ≡ self.old }
    {
        match &mut self.kept {
            Some(subscriptions) => subscriptions.recycle(update),
            None => {}
        }
    }

    /// The place of the queue that has the one at this place, if a post to the record of this name,
    /// with this mask, concerns it. Only a recorder of histories needs it.
    pub fn concerned_at(&self, place: usize, name: &[u8], mask: u16) -> Option<usize>
        ensures { ConcernsAt name.now mask place self.now.subscriptions self.now.queues result }
    {
        match &self.kept {
            Some(subscriptions) => subscriptions.concerned_at(place, name, mask),
            None => None,
        }
    }

    /// The update that has this number from the front of the queue at this place, if one waits
    /// there, and what its subscription asked for. Only a recorder of histories needs it.
    pub fn update_at(&self, place: usize, index: usize) -> Option<(Wanted, &Update)>
        ensures gives { GivesAt self.now place index (option_map (λ r. (r.0, r.1.now)) result) }
        ensures askable { IfSome result (λ r. IsAskable r.0) }
    {
        match &self.kept {
            Some(subscriptions) => subscriptions.update_at(place, index),
            None => None,
        }
    }

    /// Tells if nothing waits and events are on, or if there was no subscription yet, so that no
    /// update may be taken.
    pub fn is_idle(&self) -> bool
        ensures { result ≡ true → RestBefore self.now.queues (length self.now.queues) }
    {
        match &self.kept {
            Some(subscriptions) => subscriptions.is_idle(),
            None => true,
        }
    }

    /// What the only subscription on the record of this name asked for, if there is one alone, a
    /// post with this mask concerns it, and nothing waits while events are on: its update would be
    /// the next to be taken, and would leave all as it is. None says nothing.
    #[inline(always)]
    pub fn only_one(&mut self, name: &[u8], mask: u16) -> Option<Wanted>
        ensures passes { IfSome result (λ w. PassesBy name.now mask w self.old) }
        ensures askable { IfSome result (λ w. IsAskable w) }
        ensures stays { self.new ≡ self.old }
    {
        match &mut self.kept {
            Some(subscriptions) => subscriptions.only_one(name, mask),
            None => None,
        }
    }

    /// The update that is taken next, and what its subscription asked for, if it was posted while
    /// nothing waited. It is not taken yet.
    pub fn first(&self) -> Option<(Wanted, &Update)>
        ensures gives { IfSome result (λ r. MayGive self.now r.0 r.1.now) }
        ensures askable { IfSome result (λ r. IsAskable r.0) }
    {
        match &self.kept {
            Some(subscriptions) => subscriptions.first(),
            None => None,
        }
    }

    /// Takes an update from the first queue that may give one, and lets it go.
    pub fn drop_first(&mut self)
        ensures { (r : Option (Wanted × Stored)) × GivesUpdate self.old r self.new }
    {
        match &mut self.kept {
            Some(subscriptions) => subscriptions.drop_first(),
            None => {}
        }
    }

    /// Takes an update from the first queue that may give one, and says what its subscription
    /// asked for. None if none may. Without memory, which is asked for only if one may be
    /// taken, all is as it was.
    pub fn take(&mut self) -> Result<Option<(Wanted, Update)>, AllocError>
        ensures gives { IfOk result (λ taken. GivesUpdate self.old taken self.new) }
        ensures askable { IfOk result (λ taken. IfSome taken (λ r. IsAskable r.0)) }
        ensures some { OnErr result ((w : Wanted) × ((v : Stored)
            × (IsAskable w × MayGive self.old w v))) }
        ensures err { OnErr result (self.new ≡ self.old) }
    {
        let Some(subscriptions) = &mut self.kept else {
            return Ok(None);
        };
        subscriptions.take()
    }
}

// Keeps subscriptions from now on, unless they are kept.
fn keep(
    alloc: Global,
    kept: &mut Option<Box<Subscriptions>>,
    events_on: bool,
) -> Result<(), AllocError>
    ensures same { subscribed_of (option_map (λ b. b.value) kept.new) events_on
        ≡ subscribed_of (option_map (λ b. b.value) kept.old) events_on }
    ensures ok { OnOk result (is_some kept.new ≡ true) }
{
    if kept.is_some() {
        return Ok(());
    }
    let mut subscriptions = Subscriptions::new(alloc)?;
    subscriptions.switch(events_on);
    *kept = Some(Box::new(alloc, subscriptions)?);
    Ok(())
}
