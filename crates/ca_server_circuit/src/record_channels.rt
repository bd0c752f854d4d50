//! The channels to one record: mostly one, which needs no list.
ghost use Rattle.std.specs.Prelude.{◌≡◌, ◌∷◌, ◌≤◌, ◌↔◌, [], true, IfOk, OnErr, OnOk, length};
ghost use Rattle.ca_server_circuit.specs.ByName.{EntersLine, GoesFromLine, IsItsPlace};

use ca_arena::Handle;
use std::alloc::{AllocError, Global};
use std::marker::Model;

/// The channels to one record, in order of index.
#[derive(Drop)]
pub(crate) struct RecordChannels {
    channels: Vec<Handle>,
}

impl Model for RecordChannels {
    ghost use Rattle.std.specs.Prelude.{List};
    ghost use Rattle.ca_arena.specs.declared.handle.Handle.{Handle};

    ghost Value = { List Handle };

    ghost view = { λ l. l.channels.items };
}

impl RecordChannels {
    // This channel alone.
    pub(crate) fn one(alloc: Global, channel: Handle) -> Result<RecordChannels, AllocError>
        ensures { IfOk result (λ l. l ≡ channel ∷ []) }
    {
        let mut channels = Vec::new(alloc);
        channels.push(channel)?;
        Ok(RecordChannels { channels })
    }

    // All its channels.
    pub(crate) fn as_slice(&self) -> &[Handle]
        ensures { result.now ≡ self.now }
    {
        self.channels.as_slice()
    }

    // Whether it has no channel.
    pub(crate) fn is_empty(&self) -> bool
        ensures { (result ≡ true) ↔ (self.now ≡ []) }
    {
        self.channels.is_empty()
    }

    // Adds a channel, after those of lower indices. Without memory nothing changes.
    pub(crate) fn add(&mut self, channel: Handle) -> Result<(), AllocError>
        ensures ok { OnOk result (EntersLine channel self.old self.new) }
        ensures err { OnErr result (self.new ≡ self.old) }
    {
        let place = place_of(self.channels.as_slice(), channel.index);
        self.channels.insert(place, channel)?;
        Ok(())
    }

    // Takes this channel out. Nothing is said of a line that does not have it.
    pub(crate) fn take_out(&mut self, channel: Handle)
        ensures { GoesFromLine channel self.old self.new }
    {
        let place = place_of(self.channels.as_slice(), channel.index);
        if place < self.channels.len() {
            self.channels.remove(place);
        }
    }
}

// The place of a channel of this index: after those of lower indices.
fn place_of(channels: &[Handle], index: u16) -> usize
    ensures within { result ≤ length channels.now }
    ensures place { IsItsPlace index channels.now result }
{
    channels.partition_point(|channel| channel.index < index)
}
