//! Where a CLEAR_CHANNEL goes, with room for what a call leaves in the histories.
ghost use Rattle.std.specs.Prelude.{◌≡◌, MatchResult, map};
ghost use Rattle.ca_world_data.specs.Clears.{IsReadyToClear};
ghost use Rattle.ca_world_data.specs.Found.{AreNumbered};
ghost use Rattle.ca_world_data.specs.Logs.{lines_in};
ghost use Rattle.ca_world_data.specs.Seen.{client_of, joined_of};
ghost use Rattle.ca_world_data.specs.Speaking.{IsUnready};

use crate::client::ClientSide;
use crate::history::Line;
use crate::joined::Joined;
use crate::logs::reserve_lines;
use crate::way::{ChannelRoute, reserve_sent, way_of};
use ca_arena::Handle;
use ca_text::Refusal;

/// The handle of a channel, and where its CLEAR_CHANNEL goes, with room for what its end leaves.
///
/// Refused as BadEvent if no channel has this number, then as OutOfMemory.
pub fn prepare_clear(
    client: usize,
    side: &ClientSide,
    circuits: &mut Vec<Joined>,
    logs: &mut Vec<Vec<Line>>,
    channel: usize,
) -> Result<(Handle, ChannelRoute), Refusal>
    requires { AreNumbered side.now.circuits.items (map joined_of circuits.old.items) client }
    ensures circuits { map joined_of circuits.new.items ≡ map joined_of circuits.old.items }
    ensures logs { lines_in logs.new.items ≡ lines_in logs.old.items }
    ensures ready { MatchResult result
        (IsReadyToClear client channel side.now circuits.new.items logs.new.items)
        (IsUnready channel (client_of side.now)) }
{
    if channel >= side.names.channels.len() {
        return Err(Refusal::BadEvent);
    }
    let handle = side.names.channels[channel];
    let way = way_of(client, side, circuits, handle);
    reserve_lines(logs, side.life, side.names.requests.len() + 1)?;
    reserve_sent(circuits, way.circuit, 1)?;
    Ok((handle, way))
}
