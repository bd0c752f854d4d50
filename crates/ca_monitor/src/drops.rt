//! What ends many subscriptions at once. No memory is asked for: a walk over those that are listed.
ghost use Rattle.std.specs.Prelude.{◌≡◌, None, option_map};
ghost use Rattle.ca_arena.specs.Arena.{place_at};
ghost use Rattle.ca_ids.specs.Table.{held_at, kept_of, with_all_freed};
ghost use Rattle.ca_ids.specs.Walks.{with_place};
ghost use Rattle.ca_lists.specs.Walks.{Covers, by_value};
ghost use Rattle.ca_monitor.specs.Layout.{named};
ghost use Rattle.ca_monitor.specs.Subscriptions.{channel_over, over_on};

use crate::subscription::Subscription;
use ca_arena::Handle;
use ca_ids::HeldTable;

/// Which subscriptions are meant: those to a channel, or those to a channel whose
/// ids drain on a circuit.
#[derive(Clone, Copy, Debug, PartialEq, Eq)]
pub(crate) enum SubscriptionsMeant {
    ToChannel(Handle),
    DrainingTo(Handle, Handle),
}

impl SubscriptionsMeant {
    /// Whether this subscription is meant.
    pub(crate) fn names(self, subscription: &Subscription) -> bool
        ensures { result ≡ named self subscription.now }
    {
        match self {
            SubscriptionsMeant::ToChannel(channel) => subscription.is_to(channel),
            SubscriptionsMeant::DrainingTo(circuit, channel) => {
                subscription.is_to(channel) && subscription.stage.drains_in(circuit)
            }
        }
    }
}

/// What has an id of this index, if any does.
pub(crate) fn at(table: &HeldTable<Subscription>, index: u16) -> Option<(Handle, &Subscription)>
    ensures { option_map (λ e. (e.0, e.1.now)) result
        ≡ held_at index (place_at table.now index) }
{
    let index = usize::from(index);
    if index >= table.places() {
        return None;
    }
    table.at(index)
}

/// The ids of the subscriptions that are meant are free. All of them are at these indices.
pub(crate) fn free_all(
    table: &mut HeldTable<Subscription>,
    listed: &[u16],
    which: SubscriptionsMeant,
)
    requires { Covers (kept_of (named which)) table.old listed.now }
    ensures { table.new ≡ with_all_freed (named which) table.old }
{
    for place in 0..listed.len() {
        free_at(table, listed[place], which);
    }
}

fn free_at(table: &mut HeldTable<Subscription>, index: u16, which: SubscriptionsMeant)
    ensures { table.new ≡ with_place index (by_value (kept_of (named which))) table.old }
{
    let Some((handle, subscription)) = at(table, index) else {
        return;
    };
    if !which.names(subscription) {
        return;
    }
    let _ = table.free(handle);
}

/// The subscriptions to this channel are over, and their ids drain on this circuit. All of them
/// are at these indices.
pub(crate) fn end_all(
    table: &mut HeldTable<Subscription>,
    listed: &[u16],
    circuit: Handle,
    channel: Handle,
)
    requires { Covers (option_map (over_on circuit channel)) table.old listed.now }
    ensures { table.new ≡ channel_over circuit channel table.old }
{
    for place in 0..listed.len() {
        end_at(table, listed[place], circuit, channel);
    }
}

fn end_at(table: &mut HeldTable<Subscription>, index: u16, circuit: Handle, channel: Handle)
    ensures { table.new
        ≡ with_place index (by_value (option_map (over_on circuit channel))) table.old }
{
    let Some((handle, subscription)) = at(table, index) else {
        return;
    };
    if !subscription.is_to(channel) {
        return;
    }
    if let Some(subscription) = table.by_handle_mut(handle) {
        subscription.stage = subscription.stage.over(circuit);
    }
}
