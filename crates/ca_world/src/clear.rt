//! A client clears a channel: as `read.rt`, with a CLEAR_CHANNEL, and with what the call itself
//! reports in the log.
ghost use Rattle.std.specs.Prelude.{◌≡◌, map};
ghost use Rattle.ca_model.specs.Events as event;
ghost use Rattle.ca_world_data.specs.Clears.{ClearsOn, TellFew};
ghost use Rattle.ca_world_data.specs.Does.{Does};
ghost use Rattle.ca_world_data.specs.Found.{AreNumbered};
ghost use Rattle.ca_world_data.specs.Logs.{lines_in};
ghost use Rattle.ca_world_data.specs.Puts.{AreOnce};
ghost use Rattle.ca_world_data.specs.Seen.{client_of, joined_of};

use crate::world::World;
use ca_ids::WireId;
use ca_text::Refusal;
use ca_wire::{Cid, Sid, clear_request};
use ca_world_data::clearing::prepare_clear;
use ca_world_data::client::ClientSide;
use ca_world_data::history::{Ask, Intent, Line, Wish};
use ca_world_data::joined::Joined;
use ca_world_data::logs::note;
use ca_world_data::telling::tell_call;
use ca_world_data::way::push_sent;
use std::alloc::Global;

impl World {
    /// A client clears a channel. The call is in its log, and then what that tells. A refusal of
    /// the call is a line of its log.
    pub fn clear(&mut self, client: usize, channel: usize) -> Result<(), Refusal>
        ensures { Does self.old (event.Clear client channel) result self.new }
    {
        if client >= self.clients.len() {
            return Err(Refusal::BadEvent);
        }
        clear_on(
            self.alloc,
            client,
            &mut self.clients[client],
            &mut self.circuits,
            &mut self.client_logs,
            channel,
        )
    }
}

fn clear_on(
    alloc: Global,
    client: usize,
    side: &mut ClientSide,
    circuits: &mut Vec<Joined>,
    logs: &mut Vec<Vec<Line>>,
    channel: usize,
) -> Result<(), Refusal>
    requires once { AreOnce (client_of side.old).names }
    requires few { TellFew (client_of side.old) }
    requires numbered { AreNumbered
        side.old.circuits.items
        (map joined_of circuits.old.items)
        client }
    ensures clears { ClearsOn client channel
        (client_of side.old)
        (lines_in logs.old.items)
        (map joined_of circuits.old.items)
        result
        (client_of side.new)
        (lines_in logs.new.items)
        (map joined_of circuits.new.items) }
    ensures kept { side.new.circuits.items ≡ side.old.circuits.items }
{
    let (handle, way) = prepare_clear(client, side, circuits, logs, channel)?;
    match side.core.clear(handle) {
        Ok(notices) => {
            let meant = Intent::On(channel, Ask::Clear);
            let cid = Cid::new(WireId::of(handle).number());
            let message = clear_request(alloc, Sid::new(way.sid), cid);
            push_sent(circuits, way.circuit, message, meant);
            tell_call(
                logs,
                side.life,
                Line::Called(meant, Wish::Nothing),
                &side.names,
                notices,
            );
            Ok(())
        }
        Err(refusal) => note(logs, side.life, refusal),
    }
}
