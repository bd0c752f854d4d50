//! The logs of all lives of servers, by life. A life without a log has none that grows.
ghost use Rattle.std.specs.Prelude.{ℕ, ◌≡◌, ◌≢◌, ◌++◌, ◌+◌, ◌≤◌, [], ◌∷◌, OnErr, OnOk, length, map};
ghost use Rattle.std.specs.Prelude.{vec_capacity, vec_len};
ghost use Rattle.ca_model.specs.World.{grown};
ghost use Rattle.ca_world_data.specs.Opening.{entries_in};
ghost use Rattle.ca_world_data.specs.Seen.{entry_of};
ghost use Rattle.ca_world_data.specs.ServerCuts.{HasRoomFor};

use crate::history::LogEntry;
use std::alloc::AllocError;

/// Makes room for n more entries in the log of a life, which takes none for none.
pub fn reserve_entries(
    logs: &mut Vec<Vec<LogEntry>>,
    life: usize,
    entries: usize,
) -> Result<(), AllocError>
    ensures same { entries_in logs.new.items ≡ entries_in logs.old.items }
    ensures room { OnOk result (HasRoomFor entries life logs.new.items) }
    ensures lacks { OnErr result (entries ≢ 0) }
{
    if life < logs.len() {
        logs[life].reserve(entries)?;
    }
    Ok(())
}

/// Puts entries after those of a life's log, in which there is room. The room that there was for
/// more is still there.
pub fn push_entries(logs: &mut Vec<Vec<LogEntry>>, life: usize, entries: Vec<LogEntry>)
    requires { HasRoomFor (length entries.items) life logs.old.items }
    ensures logged { entries_in logs.new.items
        ≡ grown life (map entry_of entries.items) (entries_in logs.old.items) }
    ensures room { (n : ℕ) → HasRoomFor (n + length entries.items) life logs.old.items
        → HasRoomFor n life logs.new.items }
{
    if life < logs.len() {
        push_all(&mut logs[life], entries);
    }
}

// Puts entries after others. There is room for them.
fn push_all(log: &mut Vec<LogEntry>, entries: Vec<LogEntry>)
    requires { vec_len log.old + length entries.items ≤ vec_capacity log.old }
    ensures items { log.new.items ≡ log.old.items ++ entries.items }
    ensures len { vec_len log.new ≡ vec_len log.old + length entries.items }
    ensures capacity { vec_capacity log.new ≡ vec_capacity log.old }
{
    for entry in entries {
        log.push_reserved(entry);
    }
}

/// Puts an entry after those of a life's log, in which there is room.
pub fn push_entry(logs: &mut Vec<Vec<LogEntry>>, life: usize, entry: LogEntry)
    requires { HasRoomFor 1 life logs.old.items }
    ensures logged { entries_in logs.new.items
        ≡ grown life (entry_of entry ∷ []) (entries_in logs.old.items) }
    ensures room { (n : ℕ)
        → HasRoomFor (n + 1) life logs.old.items → HasRoomFor n life logs.new.items }
{
    if life < logs.len() {
        logs[life].push_reserved(entry);
    }
}
