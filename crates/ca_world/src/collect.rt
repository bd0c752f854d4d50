//! A caller collects the outcome of a request. No core is called: cores hand outcomes over by
//! notices, and the log has which were collected.
ghost use Rattle.ca_model.specs.History.{Collected};
ghost use Rattle.ca_model.specs.Events as event;
ghost use Rattle.ca_world_data.specs.Does.{Does};
ghost use Rattle.ca_world_data.specs.Handing.{HandsOver};
ghost use Rattle.ca_world_data.specs.Logs.{lines_in};
ghost use Rattle.ca_world_data.specs.Seen.{client_of};

use crate::world::World;
use ca_text::Refusal;
use ca_world_data::client::ClientSide;
use ca_world_data::handing::prepare_handing;
use ca_world_data::history::Line;
use ca_world_data::logs::push_line;

impl World {
    /// A caller collects what became of a request: it is handed out once, unless it was given up.
    pub fn collect(&mut self, client: usize, request: usize) -> Result<(), Refusal>
        ensures { Does self.old (event.Collect client request) result self.new }
    {
        if client >= self.clients.len() {
            return Err(Refusal::BadEvent);
        }
        collect_from(&self.clients[client], &mut self.client_logs, request)
    }
}

// What became of the request goes into the log, as collected.
fn collect_from(side: &ClientSide, logs: &mut Vec<Vec<Line>>, request: usize) -> Result<(), Refusal>
    ensures { HandsOver
        request
        (Collected request)
        (client_of side.now)
        (lines_in logs.old.items)
        result
        (lines_in logs.new.items) }
{
    let place = prepare_handing(side, logs, request)?;
    push_line(logs, side.life, Line::Collected(request, place));
    Ok(())
}
