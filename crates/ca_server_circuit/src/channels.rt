//! The channels of a circuit, with a copy of the one used last.
ghost use Rattle.std.specs.Prelude.{◌≡◌, ◌<◌, ◌≤◌, ◌↔◌, length, [], IsSome, IsTrue, IfOk, OnErr};
ghost use Rattle.std.specs.Prelude.{Some, false, is_some, option_map};
ghost use Rattle.ca_text.specs.Limits.{arena_slots};
ghost use Rattle.ca_arena.specs.Arena.{place_at};
ghost use Rattle.ca_ids.specs.Table.{MayGive, by_wire, held_at, is_full, under, with_changed};
ghost use Rattle.ca_ids.specs.Table.{with_held};
ghost use Rattle.ca_server_circuit.specs.ByName.{IsLastTo, channels_to};
ghost use Rattle.ca_server_circuit.specs.Cids.{UsesCid, come, leave};
ghost use Rattle.ca_server_circuit.specs.Clearing.{without_sid};
ghost use Rattle.ca_server_circuit.specs.Removing.{without_record};

use crate::channel::{KeptChannel, ServedChannel};
use crate::channel_table::ChannelTable;
use ca_arena::Handle;
use ca_ids::WireId;
use ca_wire::{Cid, Sid};
use std::alloc::{AllocError, Global};
use std::collections::HashSet;
use std::marker::Model;

/// The open channels of a circuit, by their SIDs, each of which is the wire id of
/// its channel's handle.
#[derive(Drop)]
pub(crate) struct ServedChannels {
    // A copy of one of the channels, mostly the only one. With many circuits a message then
    // touches fewer cache lines.
    front: Option<(Handle, KeptChannel)>,
    table: ChannelTable,
    // The CIDs in use.
    cids: HashSet<u32>,
}

impl Model for ServedChannels {
    ghost use Rattle.ca_ids.specs.Table.{Table};
    ghost use Rattle.ca_model.specs.Server.{OpenChannel};

    ghost Value = { Table OpenChannel };

    ghost use Rattle.ca_server_circuit.specs.Cids.{IsInFront, IsIndexed};

    ghost view = { λ c. c.table };

    ghost invariant = { λ c. IsIndexed c.table c.cids × IsInFront c.table c.front };
}

impl ServedChannels {
    // No channels. It does not allocate yet.
    pub(crate) fn new(alloc: Global) -> ServedChannels
        ensures { result ≡ [] }
    {
        ServedChannels {
            front: None,
            table: ChannelTable::new(alloc),
            cids: HashSet::new(alloc),
        }
    }

    // Whether no SID may be given.
    pub(crate) fn is_full(&self) -> bool
        ensures { result ≡ is_full self.now }
    {
        self.table.is_full()
    }

    // Whether a channel has this CID.
    pub(crate) fn has_cid(&self, cid: Cid) -> bool
        ensures tells { IsTrue result ↔ UsesCid self.now cid }
        ensures limit { length self.now ≤ arena_slots }
    {
        self.cids.contains(&cid.number())
    }

    // The channel of this SID.
    #[inline(always)]
    pub(crate) fn by_sid(&self, sid: Sid) -> Option<(Handle, &KeptChannel)>
        ensures found { option_map (λ e. (e.0, e.1.now)) result ≡ by_wire self.now sid }
        ensures limit { length self.now ≤ arena_slots }
    {
        if let Some((handle, kept)) = &self.front {
            if WireId::of(*handle).number() == sid.number() {
                return Some((*handle, kept));
            }
        }
        self.in_table(sid)
    }

    // The channel of this SID, as the table has it.
    #[inline(never)]
    fn in_table(&self, sid: Sid) -> Option<(Handle, &KeptChannel)>
        ensures { option_map (λ e. (e.0, e.1.now)) result ≡ by_wire self.now sid }
    {
        match self.table.by_wire(WireId::new(sid.number())) {
            Some((handle, channel)) => Some((handle, channel.kept())),
            None => None,
        }
    }

    // A law: there are no more channels than SIDs have indices. It does nothing.
    pub(crate) fn know(&self)
        ensures { length self.now ≤ arena_slots }
    {
        let _ = &self.table;
    }

    // How many indices were given so far.
    pub(crate) fn places(&self) -> usize
        ensures { result ≡ length self.now }
    {
        self.table.places()
    }

    // Whether a channel is open under this handle.
    pub(crate) fn has(&self, channel: Handle) -> bool
        ensures { result ≡ is_some (under self.now channel) }
    {
        self.table.by_handle(channel).is_some()
    }

    // The channel of this index, with its handle.
    pub(crate) fn at(&self, index: usize) -> Option<(Handle, &ServedChannel)>
        requires { index < length self.now }
        ensures { option_map (λ e. (e.0, e.1.now)) result
            ≡ held_at index (place_at self.now index) }
    {
        self.table.at(index)
    }

    // The channels to the record of this name, in order of index.
    pub(crate) fn channels_to(&self, name: &[u8]) -> &[Handle]
        ensures { result.now ≡ channels_to name.now self.now }
    {
        self.table.channels_to(name)
    }

    // The last of the channels to the record of this name.
    pub(crate) fn last_to(&self, name: &[u8]) -> Option<Handle>
        ensures { IsLastTo name.now self.now result }
    {
        match self.channels_to(name).last() {
            Some(channel) => Some(*channel),
            None => None,
        }
    }

    // The CID of the channel under this handle.
    pub(crate) fn cid_of(&self, channel: Handle) -> Cid
        requires { IsSome (under self.now channel) }
        ensures { option_map (λ c. c.cid) (under self.now channel) ≡ Some result }
    {
        match self.table.by_handle(channel) {
            Some(found) => found.cid(),
            None => unreachable!(),
        }
    }

    // Opens a channel, and says under which handle. Without memory the channels are as they were.
    pub(crate) fn open(&mut self, channel: ServedChannel) -> Result<Handle, AllocError>
        requires room { is_full self.old ≡ false }
        requires new { UsesCid self.old channel.cid → ⊥ }
        requires served { channel.retired ≡ false }
        ensures ok { IfOk result (λ h.
            MayGive self.old h × (self.new ≡ with_held h channel self.old)) }
        ensures limit { length self.old ≤ arena_slots }
        ensures err { OnErr result (self.new ≡ self.old) }
    {
        let cid = channel.cid().number();
        let copy = channel.copy();
        self.cids.insert(cid)?;
        match self.table.open(channel) {
            Ok(handle) => {
                come(&mut self.front, handle, copy);
                Ok(handle)
            }
            Err(_) => {
                self.cids.remove(&cid);
                Err(AllocError)
            }
        }
    }

    // Closes the channel of this SID, if there is one: its SID and its CID are free.
    pub(crate) fn close(&mut self, sid: Sid)
        ensures { self.new ≡ without_sid sid self.old }
    {
        let Some((handle, channel)) = self.table.by_wire(WireId::new(sid.number())) else {
            return;
        };
        self.cids.remove(&channel.cid().number());
        self.table.close(handle);
        leave(&mut self.front, handle);
    }

    // The record of the channel under this handle was removed. Its SID and its
    // CID are still in use.
    pub(crate) fn retire(&mut self, channel: Handle)
        ensures { self.new ≡ with_changed without_record channel self.old }
    {
        self.table.retire(channel);
        leave(&mut self.front, channel);
    }
}

// A new channel is copied in front if none is there, unless its name has memory of its own.
fn come(front: &mut Option<(Handle, KeptChannel)>, channel: Handle, copy: Option<KeptChannel>)
    ensures { front.new ≡ come channel copy front.old }
{
    if front.is_some() {
        return;
    }
    match copy {
        Some(kept) => *front = Some((channel, kept)),
        None => {}
    }
}

// The channel under this handle is no longer in front.
fn leave(front: &mut Option<(Handle, KeptChannel)>, channel: Handle)
    ensures { front.new ≡ leave channel front.old }
{
    let Some((handle, _)) = &*front else {
        return;
    };
    if *handle == channel {
        *front = None;
    }
}
