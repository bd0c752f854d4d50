//! What a client makes of an EVENT_ADD: the confirmation of a cancel, or an update.
ghost use Rattle.std.specs.Prelude.{[], ◌≡◌, ◌≢◌, IfOk, OnErr};
ghost use Rattle.ca_text.specs.Command.{command_number};
ghost use Rattle.ca_text.specs.declared.command.Command.TheVariants.{EventAdd};
ghost use Rattle.ca_monitor.specs.Subscriptions.{confirmed_by};
ghost use Rattle.ca_requests.specs.Calls.{HasImage};
ghost use Rattle.ca_model.specs.Client.{Client};
ghost use Rattle.ca_model.specs.Hears.{Updates, becomes, confirmed, doing, subscription_on};
ghost use Rattle.ca_model.specs.Hears.{is_live_on};
ghost use Rattle.ca_client_tables.specs.declared.first.First.TheVariants.{Message};
ghost use Rattle.ca_client_core.specs.Dispatch.{HearsFirst};
ghost use Rattle.ca_client_core.specs.First.{FirstOn, first_on};
ghost use Rattle.ca_client_core.specs.Hearing.{updated};
ghost use Rattle.ca_client_core.specs.Notices.{noticed};

use crate::client::ClientCore;
use crate::notice::Notice;
use crate::notices::Notices;
use ca_arena::Handle;
use ca_dbr::Outcome;
use ca_requests::image_outcome;
use ca_wire::Head;
use std::alloc::AllocError;

impl ClientCore {
    // Only a value takes memory. Without it nothing changes.
    pub(crate) fn hear_event_add(
        &mut self,
        circuit: Handle,
        head: &Head,
    ) -> Result<Notices, AllocError>
        requires first { FirstOn self.old circuit (Message head.now) }
        requires command { head.now.header.command ≡ command_number EventAdd }
        ensures { HearsFirst self.old circuit head.now result self.new }
    {
        let alloc = self.alloc;
        if head.header.size == 0 {
            self.take(circuit, head);
            self.hear_confirmation(circuit, head.header.p2);
            return Ok(Notices::none(alloc));
        }
        let told = self.hear_update(circuit, head)?;
        self.take(circuit, head);
        Ok(Notices::one(alloc, updated(told)))
    }

    // An EVENT_ADD without payload confirms a cancel.
    fn hear_confirmation(&mut self, circuit: Handle, id: u32)
        ensures { becomes self.new
            ≡ confirmed self.old (confirmed_by circuit id self.old.subscriptions) }
    {
        let _ = self.monitors.confirmed(circuit, id);
    }

    // An EVENT_ADD with a payload is an update: of which subscription, and what it means.
    fn hear_update(
        &self,
        circuit: Handle,
        head: &Head,
    ) -> Result<Option<(Handle, Outcome)>, AllocError>
        requires first { FirstOn self.now circuit (Message head.now) }
        requires command { head.now.header.command ≡ command_number EventAdd }
        requires payload { head.now.header.size ≢ 0 }
        ensures ok { IfOk result (λ told. (x : Client) → Updates
            x
            (first_on self.now circuit head.now)
            (subscription_on self.now circuit head.now.header.p2)
            (doing [] (updated told) x)) }
        ensures err { OnErr result (HasImage (first_on self.now circuit head.now)) }
    {
        let Some(subscription) = self.subscription_on(circuit, head.header.p2) else {
            return Ok(None);
        };
        let Some(found) = self.circuits.by_handle(circuit) else {
            unreachable!()
        };
        let outcome = image_outcome(self.alloc, &head.header, found.payload(head))?;
        Ok(Some((subscription, outcome)))
    }

    // The subscription of this id, if it is not over and its channel is live on this circuit.
    pub(crate) fn subscription_on(&self, circuit: Handle, id: u32) -> Option<Handle>
        ensures { result ≡ subscription_on self.now circuit id }
    {
        let Some((subscription, found)) = self.monitors.standing_by(id) else {
            return None;
        };
        if self.is_live_on(circuit, found.channel) {
            return Some(subscription);
        }
        None
    }

    // Whether the channel of this handle is live on this circuit.
    fn is_live_on(&self, circuit: Handle, channel: Handle) -> bool
        ensures { result ≡ is_live_on self.now circuit channel }
    {
        match self.channels.by_handle(channel) {
            Some(found) => found.is_live_on(circuit),
            None => false,
        }
    }
}

// The notice of an update.
fn updated(told: Option<(Handle, Outcome)>) -> Option<Notice>
    ensures { noticed result ≡ updated told }
{
    match told {
        Some((subscription, outcome)) => Some(Notice::Update(subscription, outcome)),
        None => None,
    }
}
