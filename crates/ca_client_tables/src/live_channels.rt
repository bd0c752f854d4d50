//! The channels that are live on each circuit, so that its end can report without
//! allocation which were lost.
ghost use Rattle.std.specs.Prelude.{[], ◌≡◌, ◌≢◌, ◌+◌, ◌<◌, ◌≤◌, ◌++◌, ℕ, OnOk, length};
ghost use Rattle.std.specs.Prelude.{vec_capacity, vec_len};
ghost use Rattle.ca_model.specs.Client.{is_live};
ghost use Rattle.ca_client_tables.specs.Ending.{named_at, named_in};
ghost use Rattle.ca_client_tables.specs.Listed.{Has, KeepsAll, KeepsLive, is_live_in, list_at};
ghost use Rattle.ca_client_tables.specs.Listed.{lives_in};

use crate::channel::{Channel, Standing, is_same};
use crate::channels::Channels;
use ca_arena::Handle;
use std::alloc::{AllocError, Global};
use std::marker::Model;
use std::mem;

// This many are listed before any is taken out.
const LEAST_LIMIT: usize = 16;

/// The channels that are live on a circuit, and some that were. At the limit each that is
/// live is listed once.
#[derive(Debug, Drop)]
pub struct LiveChannels {
    listed: Vec<Handle>,
    // At this length those that are no longer live are taken out.
    limit: usize,
}

impl Model for LiveChannels {
    ghost use Rattle.std.specs.Prelude.{List};
    ghost use Rattle.ca_arena.specs.declared.handle.Handle as handle;

    ghost Value = { List handle.Handle };

    ghost view = { λ l. l.listed.items };
}

impl LiveChannels {
    // Lists one more. Without memory it may be listed or not.
    fn note(&mut self, channels: &Channels, channel: Handle) -> Result<(), AllocError>
        ensures kept { KeepsLive channels.now self.old self.new }
        ensures own { OnOk result (Has self.new channel) }
    {
        self.tidy(channels);
        self.listed.push(channel)?;
        Ok(())
    }

    // Takes out those that are no longer live, once the list is long.
    fn tidy(&mut self, channels: &Channels)
        ensures { KeepsLive channels.now self.old self.new }
    {
        if self.listed.len() < self.limit {
            return;
        }
        forget(&mut self.listed, channels);
        self.limit = self.listed.len().saturating_mul(2).max(LEAST_LIMIT);
    }

    // Hands out all that are listed.
    fn take(&mut self, alloc: Global) -> Vec<Handle>
        ensures told { result.items ≡ self.old }
        ensures taken { self.new ≡ [] }
    {
        self.limit = LEAST_LIMIT;
        mem::replace(&mut self.listed, Vec::new(alloc))
    }
}

// Takes out of a list those that are not live, and lists the others once each.
fn forget(listed: &mut Vec<Handle>, channels: &Channels)
    ensures { KeepsLive channels.now listed.old.items listed.new.items }
{
    listed.retain(|handle| is_live(channels, *handle));
    listed.sort_unstable_by_key(|handle| handle.index);
    listed.dedup_by(|a, b| is_same(*a, *b));
}

// Whether the channel of this handle is live.
fn is_live(channels: &Channels, handle: Handle) -> bool
    ensures { result ≡ is_live_in channels.now handle }
{
    match channels.by_handle(handle) {
        Some(channel) => channel.is_live(),
        None => false,
    }
}

impl Channel {
    // Whether it is live.
    fn is_live(&self) -> bool
        ensures { result ≡ lives_in self.now.standing }
    {
        match self.standing() {
            Standing::Searching => false,
            Standing::On(_, phase) => phase.is_live(),
        }
    }
}

/// Lists a channel for this circuit. Those that are live and were listed stay listed, also without
/// memory; others may be taken out.
pub fn note_live(
    alloc: Global,
    lists: &mut Vec<LiveChannels>,
    channels: &Channels,
    circuit: Handle,
    channel: Handle,
) -> Result<(), AllocError>
    ensures kept { KeepsAll channels.now lists.old.items lists.new.items }
    ensures own { OnOk result (Has (list_at lists.new.items circuit.index) channel) }
{
    let index = usize::from(circuit.index);
    extend(alloc, lists, circuit.index)?;
    lists[index].note(channels, channel)?;
    Ok(())
}

// Has a list at this index.
fn extend(alloc: Global, lists: &mut Vec<LiveChannels>, index: u16) -> Result<(), AllocError>
    ensures same { (i : ℕ) → list_at lists.new.items i ≡ list_at lists.old.items i }
    ensures within { OnOk result (index < length lists.new.items) }
{
    for _ in lists.len()..usize::from(index) + 1 {
        lists.push(LiveChannels {
            listed: Vec::new(alloc),
            limit: LEAST_LIMIT,
        })?;
    }
    Ok(())
}

/// Hands out what is listed for this circuit; nothing is listed for it then. It does not allocate.
pub fn take_live(alloc: Global, lists: &mut Vec<LiveChannels>, circuit: Handle) -> Vec<Handle>
    ensures told { result.items ≡ list_at lists.old.items circuit.index }
    ensures taken { list_at lists.new.items circuit.index ≡ [] }
    ensures others { (i : ℕ) → i ≢ circuit.index
        → list_at lists.new.items i ≡ list_at lists.old.items i }
{
    let index = usize::from(circuit.index);
    if index >= lists.len() {
        return Vec::new(alloc);
    }
    lists[index].take(alloc)
}

/// Lists the channels that are live on this circuit, in order of index. There is room for them.
pub fn list_live(channels: &Channels, circuit: Handle, room: &mut Vec<Handle>)
    requires { length (named_in is_live circuit channels.now) ≤ length room.old.items }
    ensures { room.new.items ≡ named_in is_live circuit channels.now }
{
    room.clear();
    let on = channels.on(circuit);
    for place in 0..on.len() {
        push_live(channels, circuit, on.at(place), room);
    }
}

// Puts the channel at this index after the others, if it is live on this circuit.
// There is room for it.
fn push_live(channels: &Channels, circuit: Handle, index: usize, room: &mut Vec<Handle>)
    requires { length (named_at is_live circuit index channels.now) + vec_len room.old
        ≤ vec_capacity room.old }
    ensures items { room.new.items
        ≡ room.old.items ++ named_at is_live circuit index channels.now }
    ensures capacity { vec_capacity room.new ≡ vec_capacity room.old }
{
    let Some((handle, channel)) = channels.at(index) else {
        return;
    };
    if !channel.is_live_on(circuit) {
        return;
    }
    room.push_reserved(handle);
}
