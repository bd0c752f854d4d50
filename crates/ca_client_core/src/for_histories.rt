//! Calls for a recorder of histories. No client needs them.
ghost use Rattle.std.specs.Prelude.{◌≡◌};
ghost use Rattle.ca_model.specs.ClientEnds.{of_circuit};
ghost use Rattle.ca_client_core.specs.ForHistories.{AsksFor, AsksWide, LivesOn, TellsNext, flow_at};
ghost use Rattle.ca_client_core.specs.ForHistories.{sending_of};

use crate::client::ClientCore;
use ca_arena::Handle;
use ca_client_tables::First;
use ca_text::{Command, Refusal};
use ca_wire::Message;
use std::alloc::AllocError;

/// What a message that a client sends is for.
#[derive(Clone, Copy, Debug, PartialEq, Eq)]
pub enum Aim {
    /// The circuit as a whole.
    OfCircuit,
    /// To create this channel.
    Create(Handle),
    /// To clear this channel.
    Clear(Handle),
    /// To make this channel's subscription, of the second handle.
    Subscribe(Handle, Handle),
}

/// A message that a client is about to send without being called for it, on which
/// circuit, and what it is for.
#[derive(Debug, Drop)]
pub struct Sending {
    pub circuit: Handle,
    pub message: Message,
    pub aim: Aim,
}

// A message of the circuit as a whole.
pub(crate) fn of_circuit(circuit: Handle, message: Message) -> Sending
    ensures { sending_of result ≡ of_circuit circuit message }
{
    Sending {
        circuit,
        message,
        aim: Aim::OfCircuit,
    }
}

/// Where a channel is live: on this circuit, under this SID, with n elements at most.
#[derive(Clone, Copy, Debug, PartialEq, Eq)]
pub struct LiveOn {
    pub circuit: Handle,
    pub sid: u32,
    pub count: u32,
}

/// Where this channel is live, if it is.
pub fn live_on(core: &ClientCore, channel: Handle) -> Option<LiveOn>
    ensures { LivesOn core.now channel result }
{
    match core.live(channel) {
        Ok(live) => Some(LiveOn {
            circuit: live.circuit,
            sid: live.native.sid,
            count: live.native.count,
        }),
        Err(_) => None,
    }
}

/// Why a read or a subscription of n elements of this type is refused while an id is free for it.
/// Both may be greater than any that a message carries.
pub fn ask_refusal(
    core: &ClientCore,
    channel: Handle,
    data_type: u64,
    count: u64,
) -> Option<Refusal>
    ensures { AsksWide
        core.now
        channel
        (record { data_type = data_type; count = count })
        result }
{
    match core.askable_wide(channel, data_type, count) {
        Ok(_) => None,
        Err(refusal) => Some(refusal),
    }
}

/// What a subscription asks for: on this channel, as this type, with n elements.
#[derive(Clone, Copy, Debug, PartialEq, Eq)]
pub struct SubscriptionAsked {
    pub channel: Handle,
    pub data_type: u16,
    pub count: u32,
}

/// What this subscription asks for, if it is not over.
pub fn subscribed(core: &ClientCore, subscription: Handle) -> Option<SubscriptionAsked>
    ensures { AsksFor core.now subscription result }
{
    match core.monitors.standing(subscription) {
        Some(found) => Some(SubscriptionAsked {
            channel: found.channel,
            data_type: found.data_type,
            count: found.count,
        }),
        None => None,
    }
}

/// What a read on this circuit makes the client send, which left more waiting or none.
pub fn flow_of(core: &ClientCore, circuit: Handle, more: bool) -> Option<Command>
    ensures { result ≡ flow_at more core.now circuit }
{
    match core.circuits.by_handle(circuit) {
        Some(found) => found.sends_by_read(more),
        None => None,
    }
}

/// What the next message of a circuit will make the client send, as it is now, if a step reads one;
/// nothing, if no complete message waits to be read. Only a message to send takes memory.
pub fn sent_by_step(core: &ClientCore, circuit: Handle) -> Result<Vec<Sending>, AllocError>
    ensures { TellsNext core.now circuit result }
{
    let Some(found) = core.circuits.by_handle(circuit) else {
        return Ok(Vec::new(core.alloc));
    };
    let First::Message(head) = found.first() else {
        return Ok(Vec::new(core.alloc));
    };
    core.sent_by(circuit, found.address, &head.header)
}
