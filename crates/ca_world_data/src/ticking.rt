//! A moment is handed to a client of the world.
ghost use Rattle.std.specs.Prelude.{◌≡◌, ◌+◌, OnErr, OnOk, length, map, true};
ghost use Rattle.ca_world_data.specs.Found.{AreNumbered};
ghost use Rattle.ca_world_data.specs.Logs.{HasRoom, lines_in};
ghost use Rattle.ca_world_data.specs.Seen.{client_of, joined_of};
ghost use Rattle.ca_world_data.specs.Ticks.{TellsFew, TicksClient};

use crate::client::ClientSide;
use crate::history::Line;
use crate::joined::Joined;
use crate::logs::reserve_lines;
use crate::sending::{push_sendings, reserve_sendings};
use crate::silencing::end_silents;
use ca_client_core::for_moments::{Foretold, foretell};
use std::alloc::AllocError;

/// The moment is handed to a client: what it sends goes up its circuits, and its ends that were
/// silent too long have ended.
///
/// Refused, with nothing changed, only if the client itself may refuse it.
pub fn tick_client(
    moment: u64,
    client: usize,
    side: &mut ClientSide,
    circuits: &mut Vec<Joined>,
    logs: &mut Vec<Vec<Line>>,
) -> Result<(), AllocError>
    requires numbered { AreNumbered
        side.old.circuits.items
        (map joined_of circuits.old.items)
        client }
    requires few { TellsFew moment (client_of side.old) }
    ensures ticks { TicksClient client moment
        (client_of side.old)
        (lines_in logs.old.items)
        (map joined_of circuits.old.items)
        result
        (client_of side.new)
        (lines_in logs.new.items)
        (map joined_of circuits.new.items) }
    ensures kept { side.new.circuits.items ≡ side.old.circuits.items }
{
    let Foretold { sent, ends } = foretell(&mut side.core, moment)?;
    reserve_sendings(client, &side.circuits, circuits, &sent)?;
    reserve_end_lines(side, logs, ends)?;
    match side.core.tick(moment) {
        Ok(ticked) => {
            push_sendings(client, &side.circuits, &side.names, circuits, sent);
            end_silents(client, side, circuits, logs, ticked.closings);
            Ok(())
        }
        Err(_) => Err(AllocError),
    }
}

// Makes room for what ends of the client tell, if any ends.
fn reserve_end_lines(
    side: &ClientSide,
    logs: &mut Vec<Vec<Line>>,
    ends: bool,
) -> Result<(), AllocError>
    ensures same { lines_in logs.new.items ≡ lines_in logs.old.items }
    ensures room { OnOk result (ends ≡ true
        → HasRoom
        (length side.now.names.requests.items + length side.now.names.channels.items)
        side.now.life
        logs.new.items) }
    ensures some { OnErr result (ends ≡ true) }
{
    if !ends {
        return Ok(());
    }
    let few = side.names.requests.len() + side.names.channels.len();
    reserve_lines(logs, side.life, few)
}
