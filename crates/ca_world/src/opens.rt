//! A client opens a channel. No circuit changes by that: the channel is searched with the moments
//! that follow.
ghost use Rattle.std.specs.Prelude.{◌≡◌};
ghost use Rattle.ca_model.specs.Events as event;
ghost use Rattle.ca_world_data.specs.Does.{Does};
ghost use Rattle.ca_world_data.specs.Logs.{lines_in};
ghost use Rattle.ca_world_data.specs.Opens.{OpensOn};
ghost use Rattle.ca_world_data.specs.Seen.{client_of};

use crate::wide::priority_of;
use crate::world::World;
use ca_text::Refusal;
use ca_world_data::client::ClientSide;
use ca_world_data::history::Line;
use ca_world_data::logs::{note, push_line, reserve_lines};
use std::alloc::Global;

impl World {
    /// A client opens a channel of this name. A refusal of the call is a line of its log.
    pub fn open(&mut self, client: usize, name: &[u8], priority: u64) -> Result<(), Refusal>
        ensures { Does self.old (event.Open client name.now priority) result self.new }
    {
        if client >= self.clients.len() {
            return Err(Refusal::BadEvent);
        }
        let side = &mut self.clients[client];
        open_on(
            self.alloc,
            self.moment,
            side,
            &mut self.client_logs,
            name,
            priority,
        )
    }
}

fn open_on(
    alloc: Global,
    moment: u64,
    side: &mut ClientSide,
    logs: &mut Vec<Vec<Line>>,
    name: &[u8],
    priority: u64,
) -> Result<(), Refusal>
    ensures opens { OpensOn
        (record { name = name.now; priority = priority; now = moment })
        (client_of side.old)
        (lines_in logs.old.items)
        result
        (client_of side.new)
        (lines_in logs.new.items) }
    ensures kept { side.new.circuits.items ≡ side.old.circuits.items }
{
    open_carried(alloc, moment, side, logs, name, priority_of(priority))
}

// A client opens a channel of this name, with a priority that the core takes.
fn open_carried(
    alloc: Global,
    moment: u64,
    side: &mut ClientSide,
    logs: &mut Vec<Vec<Line>>,
    name: &[u8],
    priority: u16,
) -> Result<(), Refusal>
    ensures opens { OpensOn
        (record { name = name.now; priority = priority; now = moment })
        (client_of side.old)
        (lines_in logs.old.items)
        result
        (client_of side.new)
        (lines_in logs.new.items) }
    ensures kept { side.new.circuits.items ≡ side.old.circuits.items }
{
    let own = Vec::from_slice(alloc, name)?;
    side.names.channels.reserve(1)?;
    reserve_lines(logs, side.life, 1)?;
    match side.core.open(name, priority, moment) {
        Ok(channel) => {
            let number = side.names.channels.len();
            side.names.channels.push_reserved(channel);
            push_line(logs, side.life, Line::Opened(number, own));
            Ok(())
        }
        Err(refusal) => note(logs, side.life, refusal),
    }
}
