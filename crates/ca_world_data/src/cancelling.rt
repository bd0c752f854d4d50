//! Where an EVENT_CANCEL goes, with room for what a call leaves in the histories.
ghost use Rattle.std.specs.Prelude.{◌≡◌, MatchResult, map};
ghost use Rattle.ca_model.specs.ClientEvents as world;
ghost use Rattle.ca_world_data.specs.Found.{AreNumbered};
ghost use Rattle.ca_world_data.specs.Logs.{lines_in};
ghost use Rattle.ca_world_data.specs.Seen.{intent_of, joined_of};
ghost use Rattle.ca_world_data.specs.Unsubscribes.{IsCancelWay, IsReadyToCancel, IsUnready};

use crate::client::ClientSide;
use crate::history::{Ask, Intent, Line};
use crate::joined::Joined;
use crate::logs::reserve_lines;
use crate::way::{reserve_sent, wanted_on, way_of};
use ca_arena::Handle;
use ca_client_core::for_histories::subscribed;
use ca_text::Refusal;
use ca_wire::Wanted;

/// The end of a subscription: its handle, what was meant by it, and on which circuit of the world
/// its EVENT_CANCEL goes, if one does, with what that names.
#[derive(Clone, Copy)]
pub struct Cancelling {
    pub handle: Handle,
    pub meant: Intent,
    pub circuit: Option<usize>,
    pub wanted: Wanted,
}

/// To cancel what was subscribed to.
pub fn to_cancel(meant: Intent) -> Intent
    ensures { intent_of result ≡ world.cancelled (intent_of meant) }
{
    match meant {
        Intent::On(channel, ask) => match ask {
            Ask::Create => meant,
            Ask::Clear => meant,
            Ask::Request(_, _) => meant,
            Ask::Subscribe(number) => Intent::On(channel, Ask::Cancel(number)),
            Ask::Cancel(_) => meant,
        },
        Intent::OfCircuit => meant,
    }
}

// Where the EVENT_CANCEL of a subscription goes. None does if its channel is not live.
fn cancel_way(
    client: usize,
    side: &ClientSide,
    circuits: &[Joined],
    handle: Handle,
    meant: Intent,
) -> Cancelling
    requires { AreNumbered side.now.circuits.items (map joined_of circuits.now) client }
    ensures way { IsCancelWay side.now.core (map joined_of circuits.now) client result }
    ensures handle { result.handle ≡ handle }
    ensures meant { result.meant ≡ meant }
{
    let Some(asked) = subscribed(&side.core, handle) else {
        return Cancelling {
            handle,
            meant,
            circuit: None,
            wanted: wanted_on(0, handle, 0, 0),
        };
    };
    let way = way_of(client, side, circuits, asked.channel);
    Cancelling {
        handle,
        meant,
        circuit: way.circuit,
        wanted: wanted_on(way.sid, handle, asked.data_type, asked.count),
    }
}

/// The end of the subscription of this number, with room for what it leaves.
///
/// Refused as BadEvent if no subscription has this number, then as OutOfMemory.
pub fn prepare_cancel(
    client: usize,
    side: &ClientSide,
    circuits: &mut Vec<Joined>,
    logs: &mut Vec<Vec<Line>>,
    subscription: usize,
) -> Result<Cancelling, Refusal>
    requires { AreNumbered side.now.circuits.items (map joined_of circuits.old.items) client }
    ensures circuits { map joined_of circuits.new.items ≡ map joined_of circuits.old.items }
    ensures logs { lines_in logs.new.items ≡ lines_in logs.old.items }
    ensures ready { MatchResult result
        (IsReadyToCancel client subscription side.now circuits.new.items logs.new.items)
        (IsUnready subscription side.now) }
{
    if subscription >= side.names.subscriptions.len() {
        return Err(Refusal::BadEvent);
    }
    let (handle, meant) = side.names.subscriptions[subscription];
    let way = cancel_way(client, side, circuits, handle, meant);
    reserve_lines(logs, side.life, 1)?;
    reserve_sent(circuits, way.circuit, 1)?;
    Ok(way)
}
