//! Numbers of a client's calls that are greater than any that a message carries: its
//! core would refuse them.
ghost use Rattle.std.specs.Prelude.{ℕ, ◌≡◌, map};
ghost use Rattle.ca_world.specs.Wide.{Carries, IsCount, IsPriority, IsWide};
ghost use Rattle.ca_world_data.specs.Found.{AreNumbered};
ghost use Rattle.ca_world_data.specs.Logs.{lines_in};
ghost use Rattle.ca_world_data.specs.Reads.{ReadsOn};
ghost use Rattle.ca_world_data.specs.Subscribes.{SubscribesOn};
ghost use Rattle.ca_world_data.specs.Seen.{client_of, joined_of};

use ca_client_core::for_histories::ask_refusal;
use ca_text::Refusal;
use ca_world_data::client::ClientSide;
use ca_world_data::history::Line;
use ca_world_data::joined::Joined;
use ca_world_data::logs::note;
use ca_world_data::way::prepare;

/// The priority as the core takes it: one that is too great stays too great.
pub(crate) fn priority_of(priority: u64) -> u16
    ensures { IsPriority priority result }
{
    if priority > 65_535 {
        return 65_535;
    }
    priority as u16
}

/// The count of a record as the core takes it: one that is too great stays too great.
pub(crate) fn count_of(count: u64) -> u32
    ensures { IsCount count result }
{
    if count > 4_294_967_295 {
        return 4_294_967_295;
    }
    count as u32
}

/// The type and the count as a message carries them, if one does.
pub(crate) fn carried(data_type: u64, count: u64) -> Option<(u16, u32)>
    ensures { Carries (record { data_type = data_type; count = count }) result }
{
    if data_type > 65_535 || count > 4_294_967_295 {
        return None;
    }
    Some((data_type as u16, count as u32))
}

/// A client asks for a type or a count of a channel that no message carries: its core refuses that,
/// and the refusal is a line of its log.
pub(crate) fn refuse_wide(
    client: usize,
    side: &mut ClientSide,
    circuits: &mut Vec<Joined>,
    logs: &mut Vec<Vec<Line>>,
    channel: usize,
    data_type: u64,
    count: u64,
) -> Result<(), Refusal>
    requires wide { IsWide (record { data_type = data_type; count = count }) }
    requires numbered { AreNumbered
        side.old.circuits.items
        (map joined_of circuits.old.items)
        client }
    ensures reads { ReadsOn client channel
        (record { data_type = data_type; count = count })
        (client_of side.old)
        (lines_in logs.old.items)
        (map joined_of circuits.old.items)
        result
        (client_of side.new)
        (lines_in logs.new.items)
        (map joined_of circuits.new.items) }
    ensures subscribes { (mask : ℕ)
        → SubscribesOn client channel
        (record { data_type = data_type; count = count })
        mask
        (client_of side.old)
        (lines_in logs.old.items)
        (map joined_of circuits.old.items)
        result
        (client_of side.new)
        (lines_in logs.new.items)
        (map joined_of circuits.new.items) }
    ensures kept { side.new.circuits.items ≡ side.old.circuits.items }
{
    let (handle, _) = prepare(client, side, circuits, logs, channel)?;
    match ask_refusal(&side.core, handle, data_type, count) {
        Some(refusal) => note(logs, side.life, refusal),
        None => Ok(()),
    }
}
