//! A client writes without a reply: as `read.rt`, with a WRITE, and with the value in the log. The
//! core gives no handle for it, so the world counts these writes, of which each has a line there.
ghost use Rattle.std.specs.Prelude.{◌≡◌, map};
ghost use Rattle.ca_dbr.specs.Elements.{elements};
ghost use Rattle.ca_model.specs.Events as event;
ghost use Rattle.ca_world.specs.Counted.{HasLines};
ghost use Rattle.ca_world_data.specs.Does.{Does};
ghost use Rattle.ca_world_data.specs.Found.{AreNumbered};
ghost use Rattle.ca_world_data.specs.Logs.{lines_in};
ghost use Rattle.ca_world_data.specs.Puts.{AreOnce, WritesOn};
ghost use Rattle.ca_world_data.specs.Seen.{client_of, joined_of};

use crate::world::World;
use ca_dbr::Value;
use ca_text::{Command, Refusal};
use ca_wire::{Ioid, Sid, Wanted};
use ca_world_data::client::ClientSide;
use ca_world_data::history::{Ask, Intent, Kind, Line, Wish};
use ca_world_data::joined::Joined;
use ca_world_data::logs::{note, push_line};
use ca_world_data::payloads::{count_within, put_payload, value_again, with_payload};
use ca_world_data::way::{prepare, push_sent};
use std::alloc::Global;

impl World {
    /// A client writes a value to a channel, with no answer if that is done. A refusal of the call
    /// is a line of its log.
    pub fn write(&mut self, client: usize, channel: usize, value: &Value) -> Result<(), Refusal>
        ensures { Does self.old (event.Write client channel (elements value.now)) result self.new }
    {
        value.know();
        if client >= self.clients.len() {
            return Err(Refusal::BadEvent);
        }
        write_on(
            self.alloc,
            client,
            &mut self.clients[client],
            &mut self.circuits,
            &mut self.client_logs,
            channel,
            value,
        )
    }
}

fn write_on(
    alloc: Global,
    client: usize,
    side: &mut ClientSide,
    circuits: &mut Vec<Joined>,
    logs: &mut Vec<Vec<Line>>,
    channel: usize,
    value: &Value,
) -> Result<(), Refusal>
    requires once { AreOnce (client_of side.old).names }
    requires numbered { AreNumbered
        side.old.circuits.items
        (map joined_of circuits.old.items)
        client }
    requires counted { HasLines (client_of side.old) (lines_in logs.old.items) }
    ensures writes { WritesOn client channel
        (elements value.now)
        (client_of side.old)
        (lines_in logs.old.items)
        (map joined_of circuits.old.items)
        result
        (client_of side.new)
        (lines_in logs.new.items)
        (map joined_of circuits.new.items) }
    ensures kept { side.new.circuits.items ≡ side.old.circuits.items }
{
    let (handle, way) = prepare(client, side, circuits, logs, channel)?;
    let own = value_again(alloc, value)?;
    let payload = put_payload(alloc, value)?;
    let number = side.names.writes;
    match side.core.write(handle, value) {
        Ok(()) => {
            let meant = Intent::On(channel, Ask::Request(Kind::Write, number));
            let count = count_within(value, way.count);
            let wanted = Wanted {
                sid: Sid::new(way.sid),
                id: Ioid::new(0),
                data_type: value.base_type().number(),
                count,
            };
            let message = with_payload(Command::Write, wanted, payload);
            side.names.writes = number + 1;
            push_sent(circuits, way.circuit, message, meant);
            push_line(logs, side.life, Line::Called(meant, Wish::ToWrite(own)));
            Ok(())
        }
        Err(refusal) => note(logs, side.life, refusal),
    }
}
