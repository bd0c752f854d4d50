//! A client reads: the pattern of all its calls. Room is made first, since a call cannot be taken
//! back; then the core is called, and the circuit gets the message with its intent, and the log the
//! call.
ghost use Rattle.std.specs.Prelude.{◌≡◌, map};
ghost use Rattle.ca_model.specs.Events as event;
ghost use Rattle.ca_laws_parts.specs.Circuit.{AreGiven};
ghost use Rattle.ca_world_data.specs.Does.{Does};
ghost use Rattle.ca_world_data.specs.Found.{AreNumbered};
ghost use Rattle.ca_world_data.specs.Logs.{lines_in};
ghost use Rattle.ca_world_data.specs.Reads.{ReadsOn};
ghost use Rattle.ca_world_data.specs.Seen.{client_of, joined_of};

use crate::wide::{carried, refuse_wide};
use crate::world::World;
use ca_text::Refusal;
use ca_wire::read_request;
use ca_world_data::client::ClientSide;
use ca_world_data::history::{Ask, Intent, Kind, Line, Wish};
use ca_world_data::joined::Joined;
use ca_world_data::logs::{note, push_line};
use ca_world_data::way::{prepare, push_sent, wanted_on};
use std::alloc::Global;

impl World {
    /// A client asks for the value of a channel, as this type and with this many elements. A
    /// refusal of the call is a line of its log.
    pub fn read(
        &mut self,
        client: usize,
        channel: usize,
        data_type: u64,
        count: u64,
    ) -> Result<(), Refusal>
        ensures { Does self.old (event.Read client channel data_type count) result self.new }
    {
        if client >= self.clients.len() {
            return Err(Refusal::BadEvent);
        }
        read_on(
            self.alloc,
            client,
            &mut self.clients[client],
            &mut self.circuits,
            &mut self.client_logs,
            channel,
            data_type,
            count,
        )
    }
}

fn read_on(
    alloc: Global,
    client: usize,
    side: &mut ClientSide,
    circuits: &mut Vec<Joined>,
    logs: &mut Vec<Vec<Line>>,
    channel: usize,
    data_type: u64,
    count: u64,
) -> Result<(), Refusal>
    requires given { AreGiven (client_of side.old).names.requests side.old.core.requests }
    requires numbered { AreNumbered
        side.old.circuits.items
        (map joined_of circuits.old.items)
        client }
    ensures reads { ReadsOn client channel
        (record { data_type = data_type; count = count })
        (client_of side.old)
        (lines_in logs.old.items)
        (map joined_of circuits.old.items)
        result
        (client_of side.new)
        (lines_in logs.new.items)
        (map joined_of circuits.new.items) }
    ensures kept { side.new.circuits.items ≡ side.old.circuits.items }
{
    let Some((asked_type, asked_count)) = carried(data_type, count) else {
        return refuse_wide(client, side, circuits, logs, channel, data_type, count);
    };
    let (handle, way) = prepare(client, side, circuits, logs, channel)?;
    match side.core.read(handle, asked_type, asked_count) {
        Ok(request) => {
            let number = side.names.requests.len();
            let meant = Intent::On(channel, Ask::Request(Kind::Read, number));
            let wanted = wanted_on(way.sid, request, asked_type, asked_count);
            let message = read_request(alloc, wanted);
            side.names.requests.push_reserved((request, meant));
            push_sent(circuits, way.circuit, message, meant);
            push_line(
                logs,
                side.life,
                Line::Called(meant, Wish::ToRead(asked_type, asked_count)),
            );
            Ok(())
        }
        Err(refusal) => note(logs, side.life, refusal),
    }
}
