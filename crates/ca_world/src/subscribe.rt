//! A client subscribes: as `read.rt`, with an EVENT_ADD, whose payload has the mask.
ghost use Rattle.std.specs.Prelude.{◌≡◌, map};
ghost use Rattle.ca_model.specs.Events as event;
ghost use Rattle.ca_laws_parts.specs.Circuit.{AreGiven};
ghost use Rattle.ca_world_data.specs.Does.{Does};
ghost use Rattle.ca_world_data.specs.Found.{AreNumbered};
ghost use Rattle.ca_world_data.specs.Logs.{lines_in};
ghost use Rattle.ca_world_data.specs.Subscribes.{SubscribesOn};
ghost use Rattle.ca_world_data.specs.Seen.{client_of, joined_of};

use crate::wide::{carried, refuse_wide};
use crate::world::World;
use ca_text::{Command, Mask, Refusal};
use ca_world_data::client::ClientSide;
use ca_world_data::history::{Ask, Intent, Line, Wish};
use ca_world_data::joined::Joined;
use ca_world_data::logs::{note, push_line};
use ca_world_data::payloads::{mask_payload, with_payload};
use ca_world_data::way::{prepare, push_sent, wanted_on};
use std::alloc::Global;

impl World {
    /// A client subscribes to a channel, as this type, with this many elements and on these events.
    /// A refusal of the call is a line of its log.
    pub fn subscribe(
        &mut self,
        client: usize,
        channel: usize,
        data_type: u64,
        count: u64,
        mask: Mask,
    ) -> Result<(), Refusal>
        ensures { Does
            self.old
            (event.Subscribe client channel data_type count mask)
            result
            self.new }
    {
        let _ = mask.bits();
        if client >= self.clients.len() {
            return Err(Refusal::BadEvent);
        }
        subscribe_on(
            self.alloc,
            client,
            &mut self.clients[client],
            &mut self.circuits,
            &mut self.client_logs,
            channel,
            data_type,
            count,
            mask,
        )
    }
}

fn subscribe_on(
    alloc: Global,
    client: usize,
    side: &mut ClientSide,
    circuits: &mut Vec<Joined>,
    logs: &mut Vec<Vec<Line>>,
    channel: usize,
    data_type: u64,
    count: u64,
    mask: Mask,
) -> Result<(), Refusal>
    requires given { AreGiven (client_of side.old).names.subscriptions side.old.core.subscriptions }
    requires numbered { AreNumbered
        side.old.circuits.items
        (map joined_of circuits.old.items)
        client }
    ensures subscribes { SubscribesOn client channel
        (record { data_type = data_type; count = count })
        mask
        (client_of side.old)
        (lines_in logs.old.items)
        (map joined_of circuits.old.items)
        result
        (client_of side.new)
        (lines_in logs.new.items)
        (map joined_of circuits.new.items) }
    ensures kept { side.new.circuits.items ≡ side.old.circuits.items }
{
    let Some((asked_type, asked_count)) = carried(data_type, count) else {
        return refuse_wide(client, side, circuits, logs, channel, data_type, count);
    };
    let (handle, way) = prepare(client, side, circuits, logs, channel)?;
    let payload = mask_payload(alloc, mask)?;
    match side.core.subscribe(handle, asked_type, asked_count, mask) {
        Ok(subscription) => {
            let number = side.names.subscriptions.len();
            let meant = Intent::On(channel, Ask::Subscribe(number));
            let wanted = wanted_on(way.sid, subscription, asked_type, asked_count);
            let message = with_payload(Command::EventAdd, wanted, payload);
            side.names
                .subscriptions
                .push_reserved((subscription, meant));
            push_sent(circuits, way.circuit, message, meant);
            push_line(
                logs,
                side.life,
                Line::Called(meant, Wish::ToWatch(asked_type, asked_count, mask.bits())),
            );
            Ok(())
        }
        Err(refusal) => note(logs, side.life, refusal),
    }
}
