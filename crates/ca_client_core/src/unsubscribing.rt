//! A subscription is cancelled by its caller.
ghost use Rattle.std.specs.Prelude.{◌≡◌, List, Ok, Some};
ghost use Rattle.ca_ids.specs.Table.{with_freed};
ghost use Rattle.ca_monitor.specs.Subscriptions.{standing_under};
ghost use Rattle.ca_client_core.specs.Calls.{CancelsOn};
ghost use Rattle.ca_model.specs.Placed.{WasLive};
ghost use Rattle.ca_model.specs.Answers.{Sending};
ghost use Rattle.ca_model.specs.ClientCalls.{ClientUnsubscribes};

use crate::client::ClientCore;
use ca_arena::Handle;
use ca_client_tables::{Phase, Standing};
use ca_ids::WireId;
use ca_monitor::Subscription;
use ca_text::Refusal;
use ca_wire::{Ioid, Sid, Wanted, event_cancel_request};

impl ClientCore {
    /// Cancels a subscription: none of its updates is reported from now on.
    ///
    /// Refused as StaleHandle if the handle is stale, as OutputFull if too much waits for an
    /// EVENT_CANCEL, then as OutOfMemory, only for that message.
    pub fn unsubscribe(&mut self, subscription: Handle) -> Result<(), Refusal>
        ensures { (sent : List Sending)
            × ClientUnsubscribes self.old subscription result sent self.new }
    {
        let Some(found) = self.monitors.standing(subscription) else {
            return Err(Refusal::StaleHandle);
        };
        let Some(standing) = self.standing(found.channel) else {
            return self.forget(subscription);
        };
        match standing {
            Standing::Searching => self.forget(subscription),
            Standing::On(circuit, phase) => match phase {
                Phase::Connecting => self.forget(subscription),
                Phase::Creating(_) => self.forget(subscription),
                Phase::Live(native, _) => self.cancel(subscription, found, circuit, native.sid),
                Phase::Leaving => {
                    let _ = self.monitors.end(circuit, subscription);
                    Ok(())
                }
                Phase::Clearing => self.forget(subscription),
                Phase::Doomed => self.forget(subscription),
            },
        }
    }

    // The id of a subscription is free: nothing of it is on the way.
    fn forget(&mut self, subscription: Handle) -> Result<(), Refusal>
        ensures ok { result ≡ Ok tt }
        ensures freed { self.new
            ≡ record self.old { subscriptions = with_freed subscription self.old.subscriptions } }
    {
        self.monitors.free(subscription);
        Ok(())
    }

    // Cancels a subscription that is not over, whose channel is live on this circuit.
    fn cancel(
        &mut self,
        subscription: Handle,
        found: Subscription,
        circuit: Handle,
        sid: u32,
    ) -> Result<(), Refusal>
        requires stands { standing_under subscription self.old.subscriptions ≡ Some found }
        requires live { WasLive self.old found.channel circuit }
        ensures { CancelsOn self.old subscription found circuit sid result self.new }
    {
        if self.is_over(circuit) {
            return Err(Refusal::OutputFull);
        }
        let wanted = Wanted {
            sid: Sid::new(sid),
            id: Ioid::new(WireId::of(subscription).number()),
            data_type: found.data_type,
            count: found.count,
        };
        if self
            .queue(circuit, &event_cancel_request(self.alloc, wanted))
            .is_err()
        {
            return Err(Refusal::OutOfMemory);
        }
        let _ = self.monitors.cancel(circuit, subscription);
        Ok(())
    }
}
