//! A circuit is cut at its client. What that reports goes into the log, and the bytes that waited
//! there are left on the circuit.
ghost use Rattle.std.specs.Prelude.{◌≡◌, ◌+◌, ◌≤◌, length};
ghost use Rattle.ca_model.specs.Client.{farewell};
ghost use Rattle.ca_model.specs.Events as event;
ghost use Rattle.ca_world_data.specs.ClientCuts.{CutsClient};
ghost use Rattle.ca_world_data.specs.Does.{Does};
ghost use Rattle.ca_world_data.specs.Logs.{lines_in};
ghost use Rattle.ca_world_data.specs.Seen.{client_of, joined_of};

use crate::world::World;
use ca_text::Refusal;
use ca_world_data::client::ClientSide;
use ca_world_data::closing::close_client;
use ca_world_data::ends::ends_at;
use ca_world_data::history::Line;
use ca_world_data::joined::Joined;
use ca_world_data::logs::reserve_lines;
use ca_world_data::telling::tell_all;

impl World {
    /// A client's end of a circuit is cut. What that tells is in the client's log.
    pub fn cut_client(&mut self, circuit: usize) -> Result<(), Refusal>
        ensures { Does self.old (event.CutClient circuit) result self.new }
    {
        let Some(ends) = ends_at(&self.clients, &self.servers, &self.circuits, circuit) else {
            return Err(Refusal::BadEvent);
        };
        if !ends.client_open {
            return Err(Refusal::BadEvent);
        }
        cut_at(
            &mut self.clients[ends.client],
            &mut self.circuits[circuit],
            &mut self.client_logs,
        )
    }
}

// The end of a circuit at this client is cut. It reports each request and of each
// channel at most once.
fn cut_at(
    side: &mut ClientSide,
    joined: &mut Joined,
    logs: &mut Vec<Vec<Line>>,
) -> Result<(), Refusal>
    requires { length (farewell joined.old.at_client side.old.core)
        ≤ length side.old.names.requests.items + length side.old.names.channels.items }
    ensures cuts { CutsClient
        (client_of side.old)
        (joined_of joined.old)
        (lines_in logs.old.items)
        result
        (client_of side.new)
        (joined_of joined.new)
        (lines_in logs.new.items) }
    ensures kept { side.new.circuits.items ≡ side.old.circuits.items }
{
    let few = side.names.requests.len() + side.names.channels.len();
    reserve_lines(logs, side.life, few)?;
    let closing = side.core.cut(joined.at_client);
    tell_all(logs, side.life, &side.names, closing.notices);
    close_client(joined, closing.left);
    Ok(())
}
