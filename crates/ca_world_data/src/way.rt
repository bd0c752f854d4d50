//! Where a client's messages on a channel go, with room for what a call leaves in the histories.
ghost use Rattle.std.specs.Prelude.{◌≡◌, ◌+◌, ◌≤◌, MatchResult, OnOk, map, vec_capacity, vec_len};
ghost use Rattle.ca_ids.specs.Wire.{wire_of};
ghost use Rattle.ca_world_data.specs.Clears.{IsClearWay};
ghost use Rattle.ca_world_data.specs.Found.{AreNumbered};
ghost use Rattle.ca_world_data.specs.Logs.{lines_in};
ghost use Rattle.ca_world_data.specs.Seen.{client_of, intent_of, joined_of, sent_of};
ghost use Rattle.ca_world_data.specs.Sends.{KeepsRoom, LeavesRoom};
ghost use Rattle.ca_world_data.specs.Speaking.{GoesUp, HasRoomUp, IsReady, IsUnready, IsWay};
ghost use Rattle.ca_world_data.specs.Speaking.{with_up};

use crate::client::ClientSide;
use crate::found::circuit_of;
use crate::history::{Intent, Line, Sent};
use crate::joined::Joined;
use crate::logs::reserve_lines;
use crate::room::reserve_list;
use ca_arena::Handle;
use ca_client_core::for_histories::live_on;
use ca_ids::WireId;
use ca_text::Refusal;
use ca_wire::{Ioid, Message, Sid, Wanted};
use std::alloc::AllocError;

/// Where messages on a channel go: on which circuit of the world, under which SID, and with how
/// many elements at most.
#[derive(Clone, Copy)]
pub struct ChannelRoute {
    pub circuit: Option<usize>,
    pub sid: u32,
    pub count: u32,
}

/// Where messages on this channel go. None goes if it is not live.
pub(crate) fn way_of(
    client: usize,
    side: &ClientSide,
    circuits: &[Joined],
    channel: Handle,
) -> ChannelRoute
    requires { AreNumbered side.now.circuits.items (map joined_of circuits.now) client }
    ensures way { IsWay side.now.core (map joined_of circuits.now) client channel result }
    ensures clear { IsClearWay side.now.core (map joined_of circuits.now) client channel result }
{
    match live_on(&side.core, channel) {
        Some(live) => ChannelRoute {
            circuit: circuit_of(&side.circuits, circuits, client, live.circuit),
            sid: live.sid,
            count: live.count,
        },
        None => ChannelRoute {
            circuit: None,
            sid: 0,
            count: 0,
        },
    }
}

/// What a request on a channel names, under the id of this handle.
pub fn wanted_on(sid: u32, id: Handle, data_type: u16, count: u32) -> Wanted
    ensures { result
        ≡ record { sid = sid; id = wire_of id; data_type = data_type; count = count } }
{
    Wanted {
        sid: Sid::new(sid),
        id: Ioid::new(WireId::of(id).number()),
        data_type,
        count,
    }
}

/// Makes room for n more messages of the client on a circuit, if there is one. No circuit has less
/// room than before.
pub(crate) fn reserve_sent(
    circuits: &mut Vec<Joined>,
    circuit: Option<usize>,
    messages: usize,
) -> Result<(), AllocError>
    ensures same { map joined_of circuits.new.items ≡ map joined_of circuits.old.items }
    ensures room { OnOk result (HasRoomUp messages circuit circuits.new.items) }
    ensures keeps { KeepsRoom circuits.old.items circuits.new.items }
{
    let Some(number) = circuit else {
        return Ok(());
    };
    if number < circuits.len() {
        reserve_up(&mut circuits[number], messages)?;
    }
    Ok(())
}

// Makes room for n more messages of the client.
fn reserve_up(joined: &mut Joined, messages: usize) -> Result<(), AllocError>
    ensures same { joined_of joined.new ≡ joined_of joined.old }
    ensures room { OnOk result (vec_len joined.new.lists.up + messages
        ≤ vec_capacity joined.new.lists.up) }
    ensures len { vec_len joined.new.lists.up ≡ vec_len joined.old.lists.up }
    ensures capacity { vec_capacity joined.old.lists.up ≤ vec_capacity joined.new.lists.up }
{
    reserve_list(&mut joined.lists.up, messages)
}

/// Puts a message after those of the client on a circuit, if there is one. There is room for it.
pub fn push_sent(
    circuits: &mut Vec<Joined>,
    circuit: Option<usize>,
    message: Message,
    intent: Intent,
)
    requires { HasRoomUp 1 circuit circuits.old.items }
    ensures goes { GoesUp
        circuit
        (record { message = message; intent = intent_of intent })
        (map joined_of circuits.old.items)
        (map joined_of circuits.new.items) }
    ensures leaves { LeavesRoom circuit circuits.old.items circuits.new.items }
{
    let Some(number) = circuit else {
        return;
    };
    if number < circuits.len() {
        push_up(&mut circuits[number], Sent { message, intent });
    }
}

// Puts a message after those of the client. There is room for it.
fn push_up(joined: &mut Joined, sent: Sent)
    requires { vec_len joined.old.lists.up + 1 ≤ vec_capacity joined.old.lists.up }
    ensures up { joined_of joined.new ≡ with_up (sent_of sent) (joined_of joined.old) }
    ensures len { vec_len joined.new.lists.up ≡ vec_len joined.old.lists.up + 1 }
    ensures capacity { vec_capacity joined.new.lists.up ≡ vec_capacity joined.old.lists.up }
{
    joined.lists.up.push_reserved(sent);
}

/// The handle of a channel, and the way of messages on it, with room for what a call leaves.
///
/// Refused as BadEvent if no channel has this number, then as OutOfMemory.
pub fn prepare(
    client: usize,
    side: &mut ClientSide,
    circuits: &mut Vec<Joined>,
    logs: &mut Vec<Vec<Line>>,
    channel: usize,
) -> Result<(Handle, ChannelRoute), Refusal>
    requires { AreNumbered side.old.circuits.items (map joined_of circuits.old.items) client }
    ensures side { client_of side.new ≡ client_of side.old }
    ensures numbers { side.new.circuits.items ≡ side.old.circuits.items }
    ensures circuits { map joined_of circuits.new.items ≡ map joined_of circuits.old.items }
    ensures logs { lines_in logs.new.items ≡ lines_in logs.old.items }
    ensures ready { MatchResult result
        (IsReady client channel side.new circuits.new.items logs.new.items)
        (IsUnready channel (client_of side.old)) }
{
    if channel >= side.names.channels.len() {
        return Err(Refusal::BadEvent);
    }
    let handle = side.names.channels[channel];
    let way = way_of(client, side, circuits, handle);
    reserve_names(side)?;
    reserve_lines(logs, side.life, 1)?;
    reserve_sent(circuits, way.circuit, 1)?;
    Ok((handle, way))
}

// Makes room for one more request, and for one more subscription.
fn reserve_names(side: &mut ClientSide) -> Result<(), AllocError>
    ensures side { client_of side.new ≡ client_of side.old }
    ensures numbers { side.new.circuits.items ≡ side.old.circuits.items }
    ensures requests { OnOk result (vec_len side.new.names.requests + 1
        ≤ vec_capacity side.new.names.requests) }
    ensures subscriptions { OnOk result (vec_len side.new.names.subscriptions + 1
        ≤ vec_capacity side.new.names.subscriptions) }
{
    side.names.requests.reserve(1)?;
    side.names.subscriptions.reserve(1)
}
