//! A client puts with notification: as `read.rt`, with a WRITE_NOTIFY, and with the value in the
//! log.
ghost use Rattle.std.specs.Prelude.{◌≡◌, map};
ghost use Rattle.ca_dbr.specs.Elements.{elements};
ghost use Rattle.ca_model.specs.Events as event;
ghost use Rattle.ca_laws_parts.specs.Circuit.{AreGiven};
ghost use Rattle.ca_world_data.specs.Does.{Does};
ghost use Rattle.ca_world_data.specs.Found.{AreNumbered};
ghost use Rattle.ca_world_data.specs.Logs.{lines_in};
ghost use Rattle.ca_world_data.specs.Puts.{PutsOn};
ghost use Rattle.ca_world_data.specs.Seen.{client_of, joined_of};

use crate::world::World;
use ca_dbr::Value;
use ca_text::{Command, Refusal};
use ca_world_data::client::ClientSide;
use ca_world_data::history::{Ask, Intent, Kind, Line, Wish};
use ca_world_data::joined::Joined;
use ca_world_data::logs::{note, push_line};
use ca_world_data::payloads::{count_within, put_payload, value_again, with_payload};
use ca_world_data::way::{prepare, push_sent, wanted_on};
use std::alloc::Global;

impl World {
    /// A client writes a value to a channel, to be told once that is done. A refusal of the call
    /// is a line of its log.
    pub fn write_notify(
        &mut self,
        client: usize,
        channel: usize,
        value: &Value,
    ) -> Result<(), Refusal>
        ensures { Does
            self.old
            (event.WriteNotify client channel (elements value.now))
            result
            self.new }
    {
        value.know();
        if client >= self.clients.len() {
            return Err(Refusal::BadEvent);
        }
        write_notify_on(
            self.alloc,
            client,
            &mut self.clients[client],
            &mut self.circuits,
            &mut self.client_logs,
            channel,
            value,
        )
    }
}

fn write_notify_on(
    alloc: Global,
    client: usize,
    side: &mut ClientSide,
    circuits: &mut Vec<Joined>,
    logs: &mut Vec<Vec<Line>>,
    channel: usize,
    value: &Value,
) -> Result<(), Refusal>
    requires given { AreGiven (client_of side.old).names.requests side.old.core.requests }
    requires numbered { AreNumbered
        side.old.circuits.items
        (map joined_of circuits.old.items)
        client }
    ensures puts { PutsOn client channel
        (elements value.now)
        (client_of side.old)
        (lines_in logs.old.items)
        (map joined_of circuits.old.items)
        result
        (client_of side.new)
        (lines_in logs.new.items)
        (map joined_of circuits.new.items) }
    ensures kept { side.new.circuits.items ≡ side.old.circuits.items }
{
    let (handle, way) = prepare(client, side, circuits, logs, channel)?;
    let own = value_again(alloc, value)?;
    let payload = put_payload(alloc, value)?;
    match side.core.write_notify(handle, value) {
        Ok(request) => {
            let number = side.names.requests.len();
            let meant = Intent::On(channel, Ask::Request(Kind::Put, number));
            let count = count_within(value, way.count);
            let wanted = wanted_on(way.sid, request, value.base_type().number(), count);
            let message = with_payload(Command::WriteNotify, wanted, payload);
            side.names.requests.push_reserved((request, meant));
            push_sent(circuits, way.circuit, message, meant);
            push_line(logs, side.life, Line::Called(meant, Wish::ToWrite(own)));
            Ok(())
        }
        Err(refusal) => note(logs, side.life, refusal),
    }
}
