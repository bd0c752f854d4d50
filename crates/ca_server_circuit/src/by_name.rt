//! The channels of a circuit by the names of their records, which a removal of a record looks up.
ghost use Rattle.std.specs.Prelude.{ℕ, ◌≡◌, List, [], None, OnErr, OnOk};
ghost use Rattle.ca_server_circuit.specs.ByName.{Enters, Goes, channels_in, line_of};

use crate::record_channels::RecordChannels;
use ca_arena::Handle;
use indexmap::IndexMap;
use std::alloc::{AllocError, Global};
use std::marker::Model;

/// The open channels of a circuit by the names of their records, but for those
/// whose record was removed.
#[derive(Drop)]
pub(crate) struct ByName {
    lines: IndexMap<Vec<u8>, RecordChannels>,
}

impl Model for ByName {
    ghost use Rattle.ca_server_circuit.specs.ByName.{Lines};

    ghost Value = { Lines };

    ghost use Rattle.ca_server_circuit.specs.ByName.{lines_in};

    ghost view = { λ r. lines_in (λ k. k.items) r.lines.entries };
}

impl ByName {
    // No channels. It does not allocate yet.
    pub(crate) fn new(alloc: Global) -> ByName
        ensures { result ≡ [] }
    {
        ByName {
            lines: IndexMap::new(alloc),
        }
    }

    // The channels to the record of this name, in order of index.
    pub(crate) fn channels(&self, name: &[u8]) -> &[Handle]
        ensures { result.now ≡ channels_in self.now name.now }
    {
        match self.lines.get(name) {
            Some(line) => line.as_slice(),
            None => &[],
        }
    }

    // A channel to the record of this name was opened. Without memory all is as it was.
    pub(crate) fn add(&mut self, name: &[u8], channel: Handle) -> Result<(), AllocError>
        ensures ok { OnOk result (Enters name.now channel self.old self.new) }
        ensures err { OnErr result (self.new ≡ self.old) }
    {
        if let Some(line) = self.lines.get_mut(name) {
            line.add(channel)?;
            return Ok(());
        }
        self.begin(name, channel)
    }

    // A channel to the record of this name, which has no line yet, was opened.
    fn begin(&mut self, name: &[u8], channel: Handle) -> Result<(), AllocError>
        requires { channels_in self.old name.now ≡ [] }
        ensures ok { OnOk result (Enters name.now channel self.old self.new) }
        ensures err { OnErr result (self.new ≡ self.old) }
    {
        let alloc = *self.lines.allocator();
        let line = RecordChannels::one(alloc, channel)?;
        let name = Vec::from_slice(alloc, name)?;
        self.lines.insert(name, line)?;
        Ok(())
    }

    // This channel no longer leads to the record of this name. A line with none left is dropped, so
    // that names which come and go fill no memory.
    pub(crate) fn take_out(&mut self, name: &[u8], channel: Handle)
        ensures goes { Goes name.now channel self.old self.new }
        ensures gone { channels_in self.new name.now ≡ [] → line_of self.new name.now ≡ None }
    {
        self.take_out_of_line(name, channel);
        self.drop_if_empty(name);
    }

    // This channel no longer leads to the record of this name. A line may be left with none.
    fn take_out_of_line(&mut self, name: &[u8], channel: Handle)
        ensures { Goes name.now channel self.old self.new }
    {
        let Some(line) = self.lines.get_mut(name) else {
            return;
        };
        line.take_out(channel);
    }

    // Drops the line of this name if it has no channel.
    fn drop_if_empty(&mut self, name: &[u8])
        ensures stay { (other : List ℕ) → channels_in self.new other ≡ channels_in self.old other }
        ensures gone { channels_in self.old name.now ≡ [] → line_of self.new name.now ≡ None }
    {
        let Some(line) = self.lines.get(name) else {
            return;
        };
        if line.is_empty() {
            self.drop_line(name);
        }
    }

    // Drops the line of this name, which has no channel.
    fn drop_line(&mut self, name: &[u8])
        requires { channels_in self.old name.now ≡ [] }
        ensures stay { (other : List ℕ) → channels_in self.new other ≡ channels_in self.old other }
        ensures gone { line_of self.new name.now ≡ None }
    {
        self.lines.swap_remove(name);
    }
}
