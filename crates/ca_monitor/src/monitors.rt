//! All subscriptions of a client, found by handle, by wire id or by channel. Begin at `add`,
//! `cancel` and `confirmed`: they follow a subscription from EVENT_ADD to the free id.
ghost use Rattle.std.specs.Prelude.{◌≡◌, ◌≢◌, ◌<◌, ◌++◌, [], IfOk, OnErr, OnOk, filter, length};
ghost use Rattle.ca_arena.specs.Arena.{place_at};
ghost use Rattle.ca_ids.specs.Holding.{IsVacant};
ghost use Rattle.ca_ids.specs.Table.{with_freed};
ghost use Rattle.ca_ids.specs.Walks.{with_place};
ghost use Rattle.ca_lists.specs.Walks.{one_at};
ghost use Rattle.ca_monitor.specs.Calls.{Adds, Comes, freed_if};
ghost use Rattle.ca_monitor.specs.Layout.{is_of, is_standing_to, place_freed};
ghost use Rattle.ca_monitor.specs.Stages.{stage_of};
ghost use Rattle.ca_monitor.specs.Subscriptions.{channel_drained, channel_gone, channel_over};
ghost use Rattle.ca_monitor.specs.Subscriptions.{circuit_gone, confirmed_by, new_subscription};
ghost use Rattle.ca_monitor.specs.Subscriptions.{standing_by, standing_to, standing_under};
ghost use Rattle.ca_monitor.specs.Subscriptions.{with_stage};
ghost use Rattle.ca_monitor.specs.Subscriptions as monitor;

use crate::drops::{SubscriptionsMeant, at, end_all, free_all};
use crate::stage::{SubscriptionStage, is_same};
use crate::subscription::Subscription;
use ca_arena::Handle;
use ca_ids::{HeldTable, WireId};
use ca_lists::IndexLists;
use ca_text::{Mask, Refusal};
use std::alloc::{AllocError, Global};
use std::marker::Model;

/// A client's subscriptions, by their handles and by their wire ids.
#[derive(Drop)]
pub struct Monitors {
    table: HeldTable<Subscription>,
    // The indices of those to each channel, by its index, and of some that are gone.
    channels: IndexLists,
}

impl Model for Monitors {
    ghost use Rattle.ca_ids.specs.Table.{Table};
    ghost use Rattle.ca_monitor.specs.Subscriptions.{Subscription};

    ghost Value = { Table Subscription };

    ghost use Rattle.ca_lists.specs.Walks.{AreListed};
    ghost use Rattle.ca_monitor.specs.Layout.{owner_of};

    ghost view = { λ m. m.table };

    // Each is listed as its channel's.
    ghost invariant = { λ m. AreListed owner_of m.table m.channels };
}

impl Monitors {
    /// No subscription. It does not allocate yet.
    pub fn new(alloc: Global) -> Self
        ensures { result ≡ [] }
    {
        Monitors {
            table: HeldTable::new(alloc),
            channels: IndexLists::new(alloc),
        }
    }

    /// The handle of the subscription that is added next. None if no id may be given.
    pub fn vacant(&self) -> Option<Handle>
        ensures { IsVacant self.now result }
    {
        self.table.vacant()
    }

    /// Adds a subscription to this channel under the handle that `vacant` returns.
    /// It stands from now on.
    ///
    /// Refused as StaleHandle if `vacant` returns another handle or none, then as OutOfMemory.
    pub fn add(
        &mut self,
        vacant: Handle,
        channel: Handle,
        data_type: u16,
        count: u32,
        mask: Mask,
    ) -> Result<(), Refusal>
        ensures { Adds
            self.old
            vacant
            (new_subscription channel data_type count mask)
            result
            self.new }
    {
        let Some(next) = self.vacant() else {
            return Err(Refusal::StaleHandle);
        };
        if !is_same(next, vacant) {
            return Err(Refusal::StaleHandle);
        }
        let added = Subscription {
            channel,
            data_type,
            count,
            mask,
            stage: SubscriptionStage::Stands,
        };
        self.channels.add(channel.index, vacant.index)?;
        match self.table.open_at(vacant, added) {
            Ok(()) => Ok(()),
            Err(_) => Err(Refusal::OutOfMemory),
        }
    }

    /// The subscription of this handle, if it stands.
    pub fn standing(&self, handle: Handle) -> Option<Subscription>
        ensures { result ≡ standing_under handle self.now }
    {
        match self.table.by_handle(handle) {
            Some(found) if found.stage.stands() => Some(*found),
            _ => None,
        }
    }

    /// The subscription of this wire id, if it stands: an update or an error of
    /// this id is about it.
    pub fn standing_by(&self, wire: u32) -> Option<(Handle, Subscription)>
        ensures { result ≡ standing_by wire self.now }
    {
        match self.table.by_wire(WireId::new(wire)) {
            Some((handle, found)) if found.stage.stands() => Some((handle, *found)),
            _ => None,
        }
    }

    /// A subscription that stands is cancelled on this circuit: its id drains
    /// until the confirmation.
    ///
    /// Refused as StaleHandle if none is under the handle.
    pub fn cancel(&mut self, circuit: Handle, handle: Handle) -> Result<Subscription, Refusal>
        ensures { Comes (monitor.Cancelled circuit) self.old handle result self.new }
    {
        let Some(found) = self.standing(handle) else {
            return Err(Refusal::StaleHandle);
        };
        self.set_stage(handle, SubscriptionStage::Cancelled(circuit));
        Ok(found)
    }

    /// A subscription that stands is over: its id drains on this circuit until its
    /// channel's clear is answered.
    ///
    /// Refused as StaleHandle if none is under the handle.
    pub fn end(&mut self, circuit: Handle, handle: Handle) -> Result<Subscription, Refusal>
        ensures { Comes (monitor.Ended circuit) self.old handle result self.new }
    {
        let Some(found) = self.standing(handle) else {
            return Err(Refusal::StaleHandle);
        };
        self.set_stage(handle, SubscriptionStage::Ended(circuit));
        Ok(found)
    }

    fn set_stage(&mut self, handle: Handle, stage: SubscriptionStage)
        ensures { self.new ≡ with_stage (stage_of stage) handle self.old }
    {
        if let Some(found) = self.table.by_handle_mut(handle) {
            found.set_stage(stage);
        }
    }

    /// The id of this subscription is free: nothing of it is on the way. A stale
    /// handle changes nothing.
    pub fn free(&mut self, handle: Handle)
        ensures { self.new ≡ with_freed handle self.old }
    {
        let Some(found) = self.table.free(handle) else {
            return;
        };
        self.channels.remove(found.channel.index, handle.index);
    }

    /// A cancel was confirmed on this circuit, under this wire id: the id is free, if it is one
    /// that was cancelled there.
    pub fn confirmed(&mut self, circuit: Handle, wire: u32) -> Option<Handle>
        ensures about { result ≡ confirmed_by circuit wire self.old }
        ensures freed { self.new ≡ freed_if result self.old }
    {
        let handle = self.cancelled(circuit, wire)?;
        self.free(handle);
        Some(handle)
    }

    fn cancelled(&self, circuit: Handle, wire: u32) -> Option<Handle>
        ensures { result ≡ confirmed_by circuit wire self.now }
    {
        match self.table.by_wire(WireId::new(wire)) {
            Some((handle, found)) if found.stage.is_cancelled_in(circuit) => Some(handle),
            _ => None,
        }
    }

    /// The subscriptions to this channel that stand, in order of index. It goes over those to it,
    /// and takes memory only if there is one.
    pub fn standing_to(
        &self,
        alloc: Global,
        channel: Handle,
    ) -> Result<Vec<(Handle, Subscription)>, AllocError>
        ensures ok { IfOk result (λ found. found.items ≡ standing_to channel self.now) }
        ensures some { OnErr result (standing_to channel self.now ≢ []) }
    {
        let mut found = Vec::new(alloc);
        let listed = self.channels.of(channel.index);
        for place in 0..listed.len() {
            note(&self.table, listed[place], channel, &mut found)?;
        }
        Ok(found)
    }

    /// The subscriptions to this channel are over, and their ids drain on this circuit until its
    /// clear's reply. It does not allocate.
    pub fn end_channel(&mut self, circuit: Handle, channel: Handle)
        ensures { self.new ≡ channel_over circuit channel self.old }
    {
        let listed = self.channels.of(channel.index);
        end_all(&mut self.table, listed, circuit, channel);
    }

    /// The ids of this channel's subscriptions are free. It does not allocate.
    pub fn free_channel(&mut self, channel: Handle)
        ensures { self.new ≡ channel_gone channel self.old }
    {
        let listed = self.channels.of(channel.index);
        free_all(
            &mut self.table,
            listed,
            SubscriptionsMeant::ToChannel(channel),
        );
        self.tidy(channel.index);
    }

    /// The ids of this channel's subscriptions that drain on this circuit are free.
    /// It does not allocate.
    pub fn drained(&mut self, circuit: Handle, channel: Handle)
        ensures { self.new ≡ channel_drained circuit channel self.old }
    {
        let listed = self.channels.of(channel.index);
        free_all(
            &mut self.table,
            listed,
            SubscriptionsMeant::DrainingTo(circuit, channel),
        );
        self.tidy(channel.index);
    }

    /// The ids that drain on this circuit are free. It does not allocate.
    pub fn free_circuit(&mut self, circuit: Handle)
        ensures { self.new ≡ circuit_gone circuit self.old }
    {
        for index in 0..self.table.places() {
            self.free_at(index, circuit);
        }
    }

    // The id at this index is free, if it drains on this circuit.
    fn free_at(&mut self, index: usize, circuit: Handle)
        requires { index < length self.old }
        ensures { self.new ≡ with_place index (place_freed circuit) self.old }
    {
        let Some((draining, subscription)) = self.table.at(index) else {
            return;
        };
        if !subscription.stage.drains_in(circuit) {
            return;
        }
        self.free(draining);
    }

    // Takes the indices out of the list of a channel at which there is nothing to it any more.
    fn tidy(&mut self, channel: u16)
        ensures { self.new ≡ self.old }
    {
        for place in (0..self.channels.of(channel).len()).rev() {
            self.tidy_at(channel, place);
        }
    }

    // Takes the index at this place out, if that is so of it.
    fn tidy_at(&mut self, channel: u16, place: usize)
        ensures { self.new ≡ self.old }
    {
        let listed = self.channels.of(channel);
        if place >= listed.len() {
            return;
        }
        let index = listed[place];
        if is_of(&self.table, index, channel) {
            return;
        }
        self.channels.remove(channel, index);
    }
}

// Whether there is a subscription to a channel of this index at an index.
fn is_of(table: &HeldTable<Subscription>, index: u16, channel: u16) -> bool
    ensures { result ≡ is_of channel (place_at table.now index).value }
{
    match at(table, index) {
        Some((_, found)) => found.channel.index == channel,
        None => false,
    }
}

// Puts the subscription at this index after what was found, if it is to this channel and stands.
fn note(
    table: &HeldTable<Subscription>,
    index: u16,
    channel: Handle,
    found: &mut Vec<(Handle, Subscription)>,
) -> Result<(), AllocError>
    ensures ok { OnOk result (found.new.items
        ≡ found.old.items ++ filter (is_standing_to channel) (one_at table.now index)) }
    ensures err { OnErr result (filter (is_standing_to channel) (one_at table.now index) ≢ []) }
{
    let Some((handle, subscription)) = at(table, index) else {
        return Ok(());
    };
    if !subscription.is_to(channel) {
        return Ok(());
    }
    if !subscription.stage.stands() {
        return Ok(());
    }
    found.push((handle, *subscription))?;
    Ok(())
}
