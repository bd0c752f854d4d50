//! The report of a run: the lines of each client through all of its lives, and last the number of
//! events.
ghost use Rattle.std.specs.Prelude.{◌≡◌, ◌++◌, IfErr, OnOk, map};
ghost use Rattle.ca_text.specs.declared.refusal.Refusal.TheVariants.{OutOfMemory};
ghost use Rattle.ca_events.specs.Events.{event_of};
ghost use Rattle.ca_world_script.specs.Lives.{logs_of};
ghost use Rattle.ca_world_script.specs.Whole.{client_text, report_text};

use crate::lives::{lives_of, restarts};
use crate::logs::write_lives;
use ca_events::Event;
use ca_script::write_end;
use ca_text::Refusal;
use ca_world_data::history::Line;

/// Writes the report of a run of n clients, in which these events were done, by the logs of all
/// lives: the lines of each client, and last how many events they were. Refused as OutOfMemory; the
/// text is then as before.
pub fn write_report(
    clients: usize,
    done: &[Event],
    logs: &[Vec<Line>],
    out: &mut Vec<u8>,
) -> Result<(), Refusal>
    ensures ok { OnOk result (out.new.items
        ≡ out.old.items ++ report_text clients (map event_of done.now) (logs_of logs.now)) }
    ensures err { IfErr result (λ e. (e ≡ OutOfMemory) × (out.new.items ≡ out.old.items)) }
{
    let alloc = *out.allocator();
    let restarted = restarts(alloc, done)?;
    let mut text = Vec::new(alloc);
    for client in 0..clients {
        write_client(clients, client, &restarted, logs, &mut text)?;
    }
    write_end(done.len() as u64, &mut text)?;
    out.extend_from_slice(&text)?;
    Ok(())
}

// Writes the lines of a client.
fn write_client(
    clients: usize,
    client: usize,
    restarted: &[u64],
    logs: &[Vec<Line>],
    text: &mut Vec<u8>,
) -> Result<(), Refusal>
    ensures ok { OnOk result (text.new.items
        ≡ text.old.items ++ client_text clients restarted.now (logs_of logs.now) client) }
    ensures err { IfErr result (λ e. e ≡ OutOfMemory) }
{
    let lives = lives_of(*text.allocator(), clients, client, restarted)?;
    write_lives(client as u64, &lives, logs, text)
}
