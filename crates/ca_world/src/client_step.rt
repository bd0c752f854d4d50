//! A client's end of a circuit handles its next message. What that leaves on circuits and in the
//! log is in `stepping.rt` of `ca_world_data`.
ghost use Rattle.std.specs.Prelude.{◌≡◌, ◌+◌, ◌<◌, length, map};
ghost use Rattle.ca_text.specs.Place.{At};
ghost use Rattle.ca_model.specs.Events as event;
ghost use Rattle.ca_model.specs.World as model;
ghost use Rattle.ca_world.specs.Resting.{ComesDown, HearsOrRests};
ghost use Rattle.ca_world_data.specs.ClientSteps.{TellsFew};
ghost use Rattle.ca_world_data.specs.Does.{Does};
ghost use Rattle.ca_world_data.specs.Found.{AreNumbered};
ghost use Rattle.ca_world_data.specs.Logs.{lines_in};
ghost use Rattle.ca_world_data.specs.Named.{IsMeant};
ghost use Rattle.ca_world_data.specs.Seen.{client_of, joined_of};

use crate::circuits::count_down;
use crate::resting::may_hear;
use crate::world::World;
use ca_text::Refusal;
use ca_world_data::client::ClientSide;
use ca_world_data::ends::ends_at;
use ca_world_data::history::Line;
use ca_world_data::joined::Joined;
use ca_world_data::stepping::step_client;

impl World {
    /// A client's end of a circuit takes the next message that came, if there is one. What it tells
    /// is in the client's log, and what it sends goes up its circuits. Its end may close then.
    pub fn client_step(&mut self, circuit: usize) -> Result<(), Refusal>
        ensures { Does self.old (event.ClientStep circuit) result self.new }
    {
        let Some(ends) = ends_at(&self.clients, &self.servers, &self.circuits, circuit) else {
            return Err(Refusal::BadEvent);
        };
        if !ends.client_open {
            return Err(Refusal::BadEvent);
        }
        let waiting = count_down(&self.servers[ends.server], &self.circuits[circuit]);
        step_or_rest(
            ends.client,
            circuit,
            waiting,
            &mut self.clients[ends.client],
            &mut self.circuits,
            &mut self.client_logs,
        )
    }
}

// A step of the end of a circuit at this client, while `waiting` bytes wait at its server. If there
// is no memory for it an end that takes no message rests.
fn step_or_rest(
    client: usize,
    circuit: usize,
    waiting: usize,
    side: &mut ClientSide,
    circuits: &mut Vec<Joined>,
    logs: &mut Vec<Vec<Line>>,
) -> Result<(), Refusal>
    requires there { circuit < length circuits.old.items }
    requires numbered { AreNumbered
        side.old.circuits.items
        (map joined_of circuits.old.items)
        client }
    requires lives { side.old.life < length logs.old.items }
    requires meant { IsMeant (client_of side.old).names }
    requires few { TellsFew
        (length side.old.names.requests.items + length side.old.names.channels.items + 1)
        circuit
        (client_of side.old)
        (map joined_of circuits.old.items) }
    requires comes { (j : model.Joined)
        → At (map joined_of circuits.old.items) circuit j → ComesDown waiting side.old.core j }
    ensures steps { HearsOrRests
        client
        circuit
        (client_of side.old)
        (lines_in logs.old.items)
        (map joined_of circuits.old.items)
        result
        (client_of side.new)
        (lines_in logs.new.items)
        (map joined_of circuits.new.items) }
    ensures kept { side.new.circuits.items ≡ side.old.circuits.items }
{
    match step_client(client, circuit, side, circuits, logs) {
        Ok(()) => Ok(()),
        Err(refusal) => {
            if may_hear(&circuits[circuit], waiting) {
                return Err(refusal);
            }
            Ok(())
        }
    }
}
