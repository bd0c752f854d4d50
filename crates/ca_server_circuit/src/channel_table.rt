//! The channels of a circuit under their SIDs and under the names of their records.
ghost use Rattle.std.specs.Prelude.{◌≡◌, ◌<◌, [], IfOk, OnErr, false, length, option_copied};
ghost use Rattle.std.specs.Prelude.{option_map};
ghost use Rattle.ca_arena.specs.Arena.{place_at};
ghost use Rattle.ca_ids.specs.Table.{MayGive, by_wire, held_at, is_full, under, with_changed};
ghost use Rattle.ca_ids.specs.Table.{with_freed, with_held};
ghost use Rattle.ca_server_circuit.specs.ByName.{AreByName, channels_to};
ghost use Rattle.ca_server_circuit.specs.Removing.{without_record};

use crate::by_name::ByName;
use crate::channel::ServedChannel;
use ca_arena::Handle;
use ca_ids::{HeldTable, WireId};
use std::alloc::{AllocError, Global};
use std::marker::Model;

/// The open channels of a circuit by their SIDs, and by the names of their records.
#[derive(Drop)]
pub(crate) struct ChannelTable {
    table: HeldTable<ServedChannel>,
    // The channels whose records were not removed.
    by_name: ByName,
}

impl Model for ChannelTable {
    ghost use Rattle.ca_ids.specs.Table.{Table};
    ghost use Rattle.ca_model.specs.Server.{OpenChannel};

    ghost Value = { Table OpenChannel };

    ghost use Rattle.ca_server_circuit.specs.ByName.{AreByName};

    ghost view = { λ c. c.table };

    ghost invariant = { λ c. AreByName c.by_name c.table };
}

impl ChannelTable {
    // No channels. It does not allocate yet.
    pub(crate) fn new(alloc: Global) -> ChannelTable
        ensures { result ≡ [] }
    {
        ChannelTable {
            table: HeldTable::new(alloc),
            by_name: ByName::new(alloc),
        }
    }

    // Whether no SID may be given.
    pub(crate) fn is_full(&self) -> bool
        ensures { result ≡ is_full self.now }
    {
        self.table.is_full()
    }

    // How many indices were given so far.
    pub(crate) fn places(&self) -> usize
        ensures { result ≡ length self.now }
    {
        self.table.places()
    }

    // The channel of this SID.
    pub(crate) fn by_wire(&self, sid: WireId) -> Option<(Handle, &ServedChannel)>
        ensures { option_map (λ e. (e.0, e.1.now)) result ≡ by_wire self.now sid }
    {
        self.table.by_wire(sid)
    }

    // The channel under this handle.
    pub(crate) fn by_handle(&self, channel: Handle) -> Option<&ServedChannel>
        ensures { option_copied result ≡ under self.now channel }
    {
        self.table.by_handle(channel)
    }

    // The channel of this index, with its handle.
    pub(crate) fn at(&self, index: usize) -> Option<(Handle, &ServedChannel)>
        requires { index < length self.now }
        ensures { option_map (λ e. (e.0, e.1.now)) result
            ≡ held_at index (place_at self.now index) }
    {
        self.table.at(index)
    }

    // The channels to the record of this name, in order of index.
    pub(crate) fn channels_to(&self, name: &[u8]) -> &[Handle]
        ensures { result.now ≡ channels_to name.now self.now }
    {
        self.by_name.channels(name)
    }

    // Opens a channel, and says under which handle. Without memory the channels are as they were.
    pub(crate) fn open(&mut self, channel: ServedChannel) -> Result<Handle, AllocError>
        requires { channel.retired ≡ false }
        ensures ok { IfOk result (λ h.
            MayGive self.old h × (self.new ≡ with_held h channel self.old)) }
        ensures err { OnErr result (self.new ≡ self.old) }
    {
        let Some(vacant) = self.table.vacant() else {
            return Err(AllocError);
        };
        self.by_name.add(channel.name(), vacant)?;
        match self.table.open_at(vacant, channel) {
            Ok(()) => Ok(vacant),
            Err(channel) => {
                self.by_name.take_out(channel.name(), vacant);
                Err(AllocError)
            }
        }
    }

    // Closes the channel under this handle, if there is one.
    pub(crate) fn close(&mut self, channel: Handle)
        ensures { self.new ≡ with_freed channel self.old }
    {
        forget(&mut self.by_name, &self.table, channel);
        let _ = self.table.free(channel);
    }

    // The record of the channel under this handle was removed.
    pub(crate) fn retire(&mut self, channel: Handle)
        ensures { self.new ≡ with_changed without_record channel self.old }
    {
        forget(&mut self.by_name, &self.table, channel);
        let Some(found) = self.table.by_handle_mut(channel) else {
            return;
        };
        found.retire();
    }
}

// The channel under this handle is no longer in a line: it is to be closed, or
// its record was removed.
fn forget(by_name: &mut ByName, table: &HeldTable<ServedChannel>, channel: Handle)
    requires { AreByName by_name.old table.now }
    ensures { AreByName by_name.new (with_freed channel table.now) }
{
    let Some(found) = table.by_handle(channel) else {
        return;
    };
    if !found.is_retired() {
        by_name.take_out(found.name(), channel);
    }
}
