//! A moment goes to all clients, one after another. The call takes the world itself, because it is
//! no `World` any more if there is no memory for one client and those before it had the moment.
ghost use Rattle.std.specs.Prelude.{◌≡◌, List, ℕ, map};
ghost use Rattle.ca_model.specs.Events as event;
ghost use Rattle.ca_world.specs.Stepping.{Steps};
ghost use Rattle.ca_world.specs.Ticking.{AllNumbered, AllTellFew, TicksSome};
ghost use Rattle.ca_world_data.specs.Indexed.{AreIndexed, client_numbers};
ghost use Rattle.ca_world_data.specs.Logs.{lines_in};
ghost use Rattle.ca_world_data.specs.Seen.{client_of, joined_of};

use crate::step::AfterEvent;
use crate::stopped::Stopped;
use crate::world::World;
use ca_text::Refusal;
use ca_world_data::client::ClientSide;
use ca_world_data::history::Line;
use ca_world_data::joined::Joined;
use ca_world_data::ticking::tick_client;
use std::alloc::AllocError;

impl World {
    /// A moment is handed to all clients, in order. What each sends goes up its circuits, and its
    /// ends that were silent too long end.
    pub fn tick(self, moment: u64) -> AfterEvent
        ensures { Steps self (event.Tick moment) result }
    {
        if moment < self.moment {
            return AfterEvent::Refused(self, Refusal::BadEvent);
        }
        let World {
            alloc,
            mut clients,
            servers,
            mut circuits,
            mut client_logs,
            server_logs,
            moment: before,
        } = self;
        match tick_all(moment, &mut clients, &mut circuits, &mut client_logs) {
            Ok(()) => AfterEvent::Done(World {
                alloc,
                clients,
                servers,
                circuits,
                client_logs,
                server_logs,
                moment,
            }),
            Err(_) => AfterEvent::Stopped(Stopped {
                clients,
                servers,
                circuits,
                client_logs,
                server_logs,
                moment: before,
            }),
        }
    }
}

// The moment is handed to these clients, in order, as far as there is memory.
fn tick_all(
    moment: u64,
    clients: &mut Vec<ClientSide>,
    circuits: &mut Vec<Joined>,
    logs: &mut Vec<Vec<Line>>,
) -> Result<(), AllocError>
    requires numbered { AllNumbered clients.old.items (map joined_of circuits.old.items) }
    requires few { AllTellFew moment (map client_of clients.old.items) }
    ensures ticks { TicksSome moment
        (map client_of clients.old.items)
        (lines_in logs.old.items)
        (map joined_of circuits.old.items)
        result
        (map client_of clients.new.items)
        (lines_in logs.new.items)
        (map joined_of circuits.new.items) }
    ensures numbers { client_numbers clients.new.items ≡ client_numbers clients.old.items }
    ensures indexed { (cs ss : List (List ℕ)) → AreIndexed cs ss (map joined_of circuits.old.items)
        → AreIndexed cs ss (map joined_of circuits.new.items) }
{
    for client in 0..clients.len() {
        tick_client(moment, client, &mut clients[client], circuits, logs)?;
    }
    Ok(())
}
