//! Ends at a client that fell silent: what they told goes into its log, and each leaves its
//! bytes at its circuit.
ghost use Rattle.std.specs.Prelude.{◌≡◌, ◌+◌, ℕ, length, map};
ghost use Rattle.ca_client_core.specs.Ticked.{left_of, lefts_of, notices_of};
ghost use Rattle.ca_model.specs.History.{OfCircuit};
ghost use Rattle.ca_model.specs.ClientEvents.{after_tick, lines_of};
ghost use Rattle.ca_model.specs.World.{grown};
ghost use Rattle.ca_world_data.specs.Found.{AreNumbered};
ghost use Rattle.ca_world_data.specs.Logs.{HasRoom, lines_in};
ghost use Rattle.ca_world_data.specs.Seen.{joined_of, names_of};
ghost use Rattle.ca_world_data.specs.Silencing.{EndsAt, silenced};

use crate::client::ClientSide;
use crate::closing::close_client;
use crate::found::circuit_of;
use crate::history::Line;
use crate::joined::Joined;
use crate::telling::tell_all;
use ca_client_core::Left;
use ca_wire::Pipe;

/// These ends of a client have ended. There is room in its log for what they told.
pub fn end_silents(
    client: usize,
    side: &ClientSide,
    circuits: &mut Vec<Joined>,
    logs: &mut Vec<Vec<Line>>,
    closings: Vec<Left>,
)
    requires numbered { AreNumbered
        side.now.circuits.items
        (map joined_of circuits.old.items)
        client }
    requires room { HasRoom (length (notices_of closings.items)) side.now.life logs.old.items }
    ensures circuits { map joined_of circuits.new.items
        ≡ map (after_tick client (lefts_of closings.items)) (map joined_of circuits.old.items) }
    ensures logs { lines_in logs.new.items
        ≡ grown
        side.now.life
        (lines_of OfCircuit (names_of side.now.names) (notices_of closings.items))
        (lines_in logs.old.items) }
{
    for left in closings {
        end_silent(client, side, circuits, logs, left);
    }
}

// This end of a client has ended. There is room in its log for what that told.
fn end_silent(
    client: usize,
    side: &ClientSide,
    circuits: &mut Vec<Joined>,
    logs: &mut Vec<Vec<Line>>,
    left: Left,
)
    requires numbered { AreNumbered
        side.now.circuits.items
        (map joined_of circuits.old.items)
        client }
    requires room { HasRoom (length left.notices) side.now.life logs.old.items }
    ensures circuits { map joined_of circuits.new.items
        ≡ map (silenced client (left_of left)) (map joined_of circuits.old.items) }
    ensures logs { lines_in logs.new.items
        ≡ grown
        side.now.life
        (lines_of OfCircuit (names_of side.now.names) left.notices)
        (lines_in logs.old.items) }
    ensures room { (n : ℕ) → HasRoom (length left.notices + n) side.now.life logs.old.items
        → HasRoom n side.now.life logs.new.items }
{
    let Left {
        circuit,
        notices,
        bytes,
    } = left;
    let number = circuit_of(&side.circuits, circuits, client, circuit);
    tell_all(logs, side.life, &side.names, notices);
    end_at(circuits, number, bytes);
}

// The end at the client of this circuit has ended and left these bytes, if there is one.
fn end_at(circuits: &mut Vec<Joined>, circuit: Option<usize>, left: Pipe)
    ensures { EndsAt
        circuit
        left
        (map joined_of circuits.old.items)
        (map joined_of circuits.new.items) }
{
    let Some(number) = circuit else {
        return;
    };
    if number < circuits.len() {
        close_client(&mut circuits[number], left);
    }
}
