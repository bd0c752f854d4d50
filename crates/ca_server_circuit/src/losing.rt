//! The record of some channels was removed: SERVER_DISCONN for each.
ghost use Rattle.std.specs.Prelude.{◌≡◌, ◌≢◌, [], IfOk, OnErr, OnOk, filter, map};
ghost use Rattle.ca_ids.specs.Table.{held};
ghost use Rattle.ca_link.specs.Calls.{IsOpen};
ghost use Rattle.ca_link.specs.Link.{with_sent};
ghost use Rattle.ca_model.specs.ServerCalls.{channels_of, disconnects, end_without};
ghost use Rattle.ca_server_circuit.specs.ByName.{RetiresLast};
ghost use Rattle.ca_server_circuit.specs.Concerned.{ids_of};
ghost use Rattle.ca_server_circuit.specs.Handling.{replied};
ghost use Rattle.ca_server_circuit.specs.Removing.{SendsSome, TellsSome, leads_to, notices};
ghost use Rattle.ca_server_circuit.specs.Removing.{without_channel, without_channels};

use crate::channels::ServedChannels;
use crate::end::{End, send};
use ca_arena::Handle;
use ca_ids::WireId;
use ca_link::Link;
use ca_wire::{Sid, disconnect};
use std::alloc::{AllocError, Global};

impl End {
    /// The record of this name was removed: each channel to it gets a SERVER_DISCONN, is retired,
    /// and loses its subscriptions with their updates. Without memory for a SERVER_DISCONN those
    /// before it wait to be sent, and the end is to be closed.
    pub(crate) fn lose(&mut self, name: &[u8]) -> Result<(), AllocError>
        requires { IsOpen self.old.link }
        ensures ok { OnOk result (self.new ≡ end_without name.now self.old) }
        ensures err { OnErr result (TellsSome name.now self.old self.new) }
    {
        self.tell_all(name)?;
        self.retire_all(name);
        Ok(())
    }

    /// A SERVER_DISCONN for each channel to the record of this name, in order of index.
    fn tell_all(&mut self, name: &[u8]) -> Result<(), AllocError>
        requires { IsOpen self.old.link }
        ensures ok { OnOk result (self.new ≡ replied (disconnects name.now self.old) self.old) }
        ensures err { OnErr result (TellsSome name.now self.old self.new) }
    {
        tell_each(self.alloc, &mut self.link, &self.channels, name)?;
        Ok(())
    }

    /// Each channel to the record of this name is retired, and loses its subscriptions.
    fn retire_all(&mut self, name: &[u8])
        ensures { self.new ≡ without_channels name.now self.old }
    {
        let mut more = true;
        'retiring: while more {
            more = self.retire_last(name);
        }
    }

    /// The last channel to the record of this name is retired, and loses its subscriptions: so no
    /// other moves up in the line of this name. It says whether there was one.
    fn retire_last(&mut self, name: &[u8]) -> bool
        ensures { RetiresLast name.now self.old result self.new }
    {
        let Some(channel) = self.channels.last_to(name) else {
            return false;
        };
        self.retire(channel);
        true
    }

    /// The channel under this handle is retired, and loses its subscriptions.
    fn retire(&mut self, channel: Handle)
        ensures { self.new ≡ without_channel channel self.old }
    {
        let sid = Sid::new(WireId::of(channel).number());
        self.subscriptions.clear(sid);
        self.channels.retire(channel);
    }

    /// The SID and the CID of each channel to the record of this name, in order of index. Refused
    /// without memory, only if there is one.
    pub(crate) fn channels_to(&self, name: &[u8]) -> Result<Vec<(u32, u32)>, AllocError>
        ensures ok { IfOk result (λ all. all.items ≡ map ids_of (channels_of name.now self.now)) }
        ensures some { OnErr result (map ids_of (channels_of name.now self.now) ≢ []) }
    {
        let mut all = Vec::new(self.alloc);
        let channels = self.channels.channels_to(name);
        for i in 0..channels.len() {
            let cid = self.channels.cid_of(channels[i]);
            all.push((WireId::of(channels[i]).number(), cid.number()))?;
        }
        Ok(all)
    }
}

/// A SERVER_DISCONN for each of these channels that leads to the record of this
/// name, in order of index.
fn tell_each(
    alloc: Global,
    link: &mut Link,
    channels: &ServedChannels,
    name: &[u8],
) -> Result<(), AllocError>
    requires { IsOpen link.old }
    ensures ok { OnOk result (link.new
        ≡ with_sent (notices (filter (leads_to name.now) (held channels.now))) link.old) }
    ensures err { OnErr result
        (SendsSome (notices (filter (leads_to name.now) (held channels.now))) link.old link.new) }
{
    let all = channels.channels_to(name);
    for i in 0..all.len() {
        let notice = disconnect(alloc, channels.cid_of(all[i]));
        send(link, &notice)?;
    }
    Ok(())
}
