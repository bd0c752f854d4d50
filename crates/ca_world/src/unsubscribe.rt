//! A client cancels a subscription: as `read.rt`, with an EVENT_CANCEL.
ghost use Rattle.std.specs.Prelude.{◌≡◌, map};
ghost use Rattle.ca_model.specs.Events as event;
ghost use Rattle.ca_world_data.specs.Does.{Does};
ghost use Rattle.ca_world_data.specs.Found.{AreNumbered};
ghost use Rattle.ca_world_data.specs.Logs.{lines_in};
ghost use Rattle.ca_world_data.specs.Named.{MeanTheirs};
ghost use Rattle.ca_world_data.specs.Seen.{client_of, joined_of};
ghost use Rattle.ca_world_data.specs.Unsubscribes.{UnsubscribesOn};

use crate::world::World;
use ca_text::Refusal;
use ca_wire::event_cancel_request;
use ca_world_data::cancelling::{prepare_cancel, to_cancel};
use ca_world_data::client::ClientSide;
use ca_world_data::history::{Line, Wish};
use ca_world_data::joined::Joined;
use ca_world_data::logs::{note, push_line};
use ca_world_data::way::push_sent;
use std::alloc::Global;

impl World {
    /// A client ends a subscription. A refusal of the call is a line of its log.
    pub fn unsubscribe(&mut self, client: usize, subscription: usize) -> Result<(), Refusal>
        ensures { Does self.old (event.Unsubscribe client subscription) result self.new }
    {
        if client >= self.clients.len() {
            return Err(Refusal::BadEvent);
        }
        unsubscribe_on(
            self.alloc,
            client,
            &mut self.clients[client],
            &mut self.circuits,
            &mut self.client_logs,
            subscription,
        )
    }
}

fn unsubscribe_on(
    alloc: Global,
    client: usize,
    side: &mut ClientSide,
    circuits: &mut Vec<Joined>,
    logs: &mut Vec<Vec<Line>>,
    subscription: usize,
) -> Result<(), Refusal>
    requires theirs { MeanTheirs (client_of side.old).names.subscriptions }
    requires numbered { AreNumbered
        side.old.circuits.items
        (map joined_of circuits.old.items)
        client }
    ensures unsubscribes { UnsubscribesOn client subscription
        (client_of side.old)
        (lines_in logs.old.items)
        (map joined_of circuits.old.items)
        result
        (client_of side.new)
        (lines_in logs.new.items)
        (map joined_of circuits.new.items) }
    ensures kept { side.new.circuits.items ≡ side.old.circuits.items }
{
    let way = prepare_cancel(client, side, circuits, logs, subscription)?;
    match side.core.unsubscribe(way.handle) {
        Ok(()) => {
            let meant = to_cancel(way.meant);
            let message = event_cancel_request(alloc, way.wanted);
            push_sent(circuits, way.circuit, message, meant);
            push_line(logs, side.life, Line::Called(meant, Wish::Nothing));
            Ok(())
        }
        Err(refusal) => note(logs, side.life, refusal),
    }
}
