//! What the next message of a circuit will make a client send, told before it is read.
ghost use Rattle.std.specs.Prelude.{◌≡◌, ◌≢◌, ◌∷◌, [], IfOk, OnErr, map};
ghost use Rattle.ca_requests.specs.Meaning.{message_of};
ghost use Rattle.ca_model.specs.ClientCalls.{clear_sent, event_add_sent};
ghost use Rattle.ca_model.specs.Hears.{event_adds};
ghost use Rattle.ca_client_core.specs.ForHistories.{sending_of};
ghost use Rattle.ca_client_core.specs.Foretelling.{adds_sent, foretold, found_sent};
ghost use Rattle.ca_client_core.specs.Hearing.{created_by, left_by};

use crate::client::ClientCore;
use crate::for_datagrams::of_creation;
use crate::for_histories::{Aim, Sending};
use crate::subscribing::add_message;
use ca_arena::Handle;
use ca_client_tables::{Address, Phase, creation_by};
use ca_ids::WireId;
use ca_monitor::Subscription;
use ca_text::Command;
use ca_wire::{Cid, Header, Sid, clear_request};
use std::alloc::{AllocError, Global};

impl ClientCore {
    // What a message with this header makes the client send, on a circuit to this address. Its
    // payload plays no part.
    pub(crate) fn sent_by(
        &self,
        circuit: Handle,
        from: Address,
        header: &Header,
    ) -> Result<Vec<Sending>, AllocError>
        ensures ok { IfOk result (λ sent. map sending_of sent.items
            ≡ foretold self.now circuit from (message_of header.now [])) }
        ensures some { OnErr result
            (foretold self.now circuit from (message_of header.now []) ≢ []) }
    {
        if header.command == Command::Search.number() {
            return self.sent_by_found(from, header);
        }
        if header.command == Command::CreateChannel.number() {
            return self.sent_by_created(circuit, header);
        }
        if header.command == Command::ServerDisconnect.number() {
            return self.sent_by_left(circuit, header);
        }
        Ok(Vec::new(self.alloc))
    }

    // SEARCH: a channel that was found is created, if the circuit to its server is connected.
    fn sent_by_found(&self, from: Address, reply: &Header) -> Result<Vec<Sending>, AllocError>
        ensures ok { IfOk result (λ sent. map sending_of sent.items
            ≡ found_sent self.now from (message_of reply.now [])) }
        ensures some { OnErr result (found_sent self.now from (message_of reply.now []) ≢ []) }
    {
        let found = creation_by(self.alloc, &self.channels, &self.circuits, &[], from, reply)?;
        let Some(creation) = found else {
            return Ok(Vec::new(self.alloc));
        };
        one(self.alloc, of_creation(creation))
    }

    // CREATE_CHAN: a channel that is live is subscribed to again; one that its caller cleared
    // meanwhile is cleared now.
    fn sent_by_created(&self, circuit: Handle, reply: &Header) -> Result<Vec<Sending>, AllocError>
        ensures ok { IfOk result (λ sent. map sending_of sent.items
            ≡ (created_by self.now circuit reply.now).sent) }
        ensures some { OnErr result ((created_by self.now circuit reply.now).sent ≢ []) }
    {
        let Some((channel, phase)) = self.channel_on(circuit, reply.p1) else {
            return Ok(Vec::new(self.alloc));
        };
        match phase {
            Phase::Connecting => Ok(Vec::new(self.alloc)),
            Phase::Creating(_) => self.adds_of(circuit, reply.p2, channel),
            Phase::Live(_, _) => Ok(Vec::new(self.alloc)),
            Phase::Leaving => Ok(Vec::new(self.alloc)),
            Phase::Clearing => Ok(Vec::new(self.alloc)),
            Phase::Doomed => clear_of(self.alloc, circuit, reply.p2, channel),
        }
    }

    // SERVER_DISCONN: a live channel is cleared.
    fn sent_by_left(&self, circuit: Handle, header: &Header) -> Result<Vec<Sending>, AllocError>
        ensures ok { IfOk result (λ sent. map sending_of sent.items
            ≡ (left_by self.now circuit header.now).sent) }
        ensures some { OnErr result ((left_by self.now circuit header.now).sent ≢ []) }
    {
        let Some((channel, phase)) = self.channel_on(circuit, header.p1) else {
            return Ok(Vec::new(self.alloc));
        };
        match phase {
            Phase::Connecting => Ok(Vec::new(self.alloc)),
            Phase::Creating(_) => Ok(Vec::new(self.alloc)),
            Phase::Live(native, _) => clear_of(self.alloc, circuit, native.sid, channel),
            Phase::Leaving => Ok(Vec::new(self.alloc)),
            Phase::Clearing => Ok(Vec::new(self.alloc)),
            Phase::Doomed => Ok(Vec::new(self.alloc)),
        }
    }

    // The EVENT_ADDs of a channel's subscriptions, in order of index.
    fn adds_of(
        &self,
        circuit: Handle,
        sid: u32,
        channel: Handle,
    ) -> Result<Vec<Sending>, AllocError>
        ensures ok { IfOk result (λ sent. map sending_of sent.items
            ≡ event_adds circuit sid channel self.now) }
        ensures some { OnErr result (event_adds circuit sid channel self.now ≢ []) }
    {
        let standing = self.monitors.standing_to(self.alloc, channel)?;
        adds_to(self.alloc, circuit, sid, &standing)
    }
}

// The EVENT_ADDs of these subscriptions.
fn adds_to(
    alloc: Global,
    circuit: Handle,
    sid: u32,
    standing: &[(Handle, Subscription)],
) -> Result<Vec<Sending>, AllocError>
    ensures ok { IfOk result (λ sent. map sending_of sent.items
        ≡ adds_sent circuit sid standing.now) }
    ensures some { OnErr result (adds_sent circuit sid standing.now ≢ []) }
{
    let mut adds = Vec::new(alloc);
    for index in 0..standing.len() {
        adds.push(add_of(alloc, circuit, sid, standing[index])?)?;
    }
    Ok(adds)
}

// The EVENT_ADD of a subscription.
fn add_of(
    alloc: Global,
    circuit: Handle,
    sid: u32,
    standing: (Handle, Subscription),
) -> Result<Sending, AllocError>
    ensures { IfOk result (λ s. sending_of s
        ≡ event_add_sent circuit sid standing.0 standing.1) }
{
    let (subscription, found) = standing;
    let message = add_message(alloc, sid, (subscription, found))?;
    let aim = Aim::Subscribe(found.channel, subscription);
    Ok(Sending {
        circuit,
        message,
        aim,
    })
}

// The CLEAR_CHANNEL of a channel, alone.
fn clear_of(
    alloc: Global,
    circuit: Handle,
    sid: u32,
    channel: Handle,
) -> Result<Vec<Sending>, AllocError>
    ensures { IfOk result (λ sent. map sending_of sent.items
        ≡ clear_sent circuit sid channel ∷ []) }
{
    let cid = Cid::new(WireId::of(channel).number());
    let message = clear_request(alloc, Sid::new(sid), cid);
    let aim = Aim::Clear(channel);
    one(
        alloc,
        Sending {
            circuit,
            message,
            aim,
        },
    )
}

// One message alone.
fn one(alloc: Global, sending: Sending) -> Result<Vec<Sending>, AllocError>
    ensures { IfOk result (λ sent. sent.items ≡ sending ∷ []) }
{
    let mut sent = Vec::new(alloc);
    sent.push(sending)?;
    Ok(sent)
}
