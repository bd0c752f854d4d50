//! A subscription begins.
ghost use Rattle.std.specs.Prelude.{◌≡◌, IfOk, List};
ghost use Rattle.ca_client_core.specs.Again.{add_message};
ghost use Rattle.ca_client_core.specs.Asks.{AddsOr, Subscribes};
ghost use Rattle.ca_model.specs.Answers.{Sending};
ghost use Rattle.ca_model.specs.ClientCalls.{ClientSubscribes};

use crate::client::ClientCore;
use ca_arena::Handle;
use ca_ids::WireId;
use ca_monitor::{Subscription, SubscriptionStage};
use ca_text::{Mask, Refusal};
use ca_wire::{Ioid, Message, Sid, Wanted, event_add_request};
use std::alloc::{AllocError, Global};

impl ClientCore {
    /// Subscribes to a channel: its updates on these events are reported from now on, as this type
    /// from 0 to 20 and with this many elements; a count of 0 asks for those that there are.
    ///
    /// Refused as StaleHandle, as NotLive, as BadType for a type over 20, as NoAccess without the
    /// right to read, as BadCount for more elements than the channel has, as OutputFull if too much
    /// waits, as ArenaFull if no id may be given, then as OutOfMemory.
    pub fn subscribe(
        &mut self,
        channel: Handle,
        data_type: u16,
        count: u32,
        mask: Mask,
    ) -> Result<Handle, Refusal>
        ensures { (sent : List Sending)
            × ClientSubscribes
            self.old
            channel
            (record { data_type = data_type; count = count })
            mask
            result
            sent
            self.new }
    {
        let live = self.askable(channel, data_type, count)?;
        let Some(vacant) = self.monitors.vacant() else {
            return Err(Refusal::ArenaFull);
        };
        let added = Subscription {
            channel,
            data_type,
            count,
            mask,
            stage: SubscriptionStage::Stands,
        };
        let Ok(message) = add_message(self.alloc, live.native.sid, (vacant, added)) else {
            return Err(Refusal::OutOfMemory);
        };
        match self.add(vacant, live.circuit, added, &message) {
            Ok(()) => Ok(vacant),
            Err(_) => Err(Refusal::OutOfMemory),
        }
    }

    // Adds a subscription that begins, under the handle that is given next, and queues its message.
    // Without memory nothing changes.
    fn add(
        &mut self,
        vacant: Handle,
        circuit: Handle,
        added: Subscription,
        message: &Message,
    ) -> Result<(), AllocError>
        ensures { Subscribes self.old vacant circuit added message.now result self.new }
    {
        let waiting = self.out_bytes(circuit).len();
        self.queue(circuit, message)?;
        self.add_or_cut(waiting, vacant, circuit, added)
    }

    // Adds a subscription whose message was queued after this many bytes; without memory the
    // message is taken back.
    fn add_or_cut(
        &mut self,
        waiting: usize,
        vacant: Handle,
        circuit: Handle,
        added: Subscription,
    ) -> Result<(), AllocError>
        ensures { AddsOr waiting self.old vacant circuit added result self.new }
    {
        let Subscription {
            channel,
            data_type,
            count,
            mask,
            ..
        } = added;
        match self.monitors.add(vacant, channel, data_type, count, mask) {
            Ok(()) => Ok(()),
            Err(_) => {
                self.cut_back(circuit, waiting);
                Err(AllocError)
            }
        }
    }
}

// The EVENT_ADD of a subscription, of this handle, under this SID.
pub(crate) fn add_message(
    alloc: Global,
    sid: u32,
    standing: (Handle, Subscription),
) -> Result<Message, AllocError>
    ensures { IfOk result (λ m. m ≡ add_message sid standing) }
{
    let (subscription, found) = standing;
    let wanted = Wanted {
        sid: Sid::new(sid),
        id: Ioid::new(WireId::of(subscription).number()),
        data_type: found.data_type,
        count: found.count,
    };
    let message = event_add_request(alloc, wanted, found.mask)?;
    Ok(message)
}
