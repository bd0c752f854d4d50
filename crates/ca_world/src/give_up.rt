//! A caller gives a request up. As in `collect.rt` no core is called, and the log has it.
ghost use Rattle.ca_model.specs.History.{GaveUp};
ghost use Rattle.ca_model.specs.Events as event;
ghost use Rattle.ca_world_data.specs.Does.{Does};
ghost use Rattle.ca_world_data.specs.Handing.{HandsOver};
ghost use Rattle.ca_world_data.specs.Logs.{lines_in};
ghost use Rattle.ca_world_data.specs.Seen.{client_of};

use crate::world::World;
use ca_text::Refusal;
use ca_world_data::client::ClientSide;
use ca_world_data::handing::prepare_handing;
use ca_world_data::history::Line;
use ca_world_data::logs::push_line;

impl World {
    /// A caller gives a request up: what became of it is handed out now, if it is known, or never.
    pub fn give_up(&mut self, client: usize, request: usize) -> Result<(), Refusal>
        ensures { Does self.old (event.GiveUp client request) result self.new }
    {
        if client >= self.clients.len() {
            return Err(Refusal::BadEvent);
        }
        give_up_from(&self.clients[client], &mut self.client_logs, request)
    }
}

// What became of the request goes into the log, as given up.
fn give_up_from(side: &ClientSide, logs: &mut Vec<Vec<Line>>, request: usize) -> Result<(), Refusal>
    ensures { HandsOver
        request
        (GaveUp request)
        (client_of side.now)
        (lines_in logs.old.items)
        result
        (lines_in logs.new.items) }
{
    let place = prepare_handing(side, logs, request)?;
    push_line(logs, side.life, Line::GaveUp(request, place));
    Ok(())
}
