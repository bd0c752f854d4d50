//! A server posts a value to a record: the log has it, and its number waits in the queue of each
//! subscription that it concerns.
ghost use Rattle.std.specs.Prelude.{map};
ghost use Rattle.ca_dbr.specs.Elements.{elements};
ghost use Rattle.ca_records.specs.Record.{unset};
ghost use Rattle.ca_model.specs.Events as event;
ghost use Rattle.ca_world_data.specs.Does.{Does};
ghost use Rattle.ca_world_data.specs.Numbering.{AllAlike};
ghost use Rattle.ca_world_data.specs.Opening.{entries_in};
ghost use Rattle.ca_world_data.specs.Posting.{PostsAt};
ghost use Rattle.ca_world_data.specs.Reporting.{AreServed};
ghost use Rattle.ca_world_data.specs.Seen.{joined_of};

use crate::judging::takes_post;
use crate::world::World;
use ca_dbr::{Meta, Value};
use ca_display::Held;
use ca_events::Posting;
use ca_text::Refusal;
use ca_world_data::entries::push_entry;
use ca_world_data::history::{LogEntry, Stored};
use ca_world_data::joined::Joined;
use ca_world_data::numbering::{check_counts, number_of, post_numbers};
use ca_world_data::payloads::value_again;
use ca_world_data::reporting::{report_ends, reserve_reports};
use ca_world_data::server::ServerSide;
use std::alloc::Global;

impl World {
    /// A value is posted to a record of a server, with a mask. A post that the server
    /// refuses changes nothing.
    pub fn post(&mut self, posting: &Posting) -> Result<(), Refusal>
        ensures { Does
            self.old
            (event.Post
            posting.now.server
            posting.now.name.items
            (elements posting.now.value)
            posting.now.mask)
            result
            self.new }
    {
        posting.value.know();
        let server = posting.server as usize;
        if server >= self.servers.len() {
            return Err(Refusal::BadEvent);
        }
        post_at(
            self.alloc,
            server,
            &mut self.servers[server],
            &mut self.circuits,
            &mut self.server_logs,
            &posting.name,
            &posting.value,
            posting.mask.bits(),
        )
    }
}

// A value is posted at this server: it goes into the log, its numbers wait, and ends that ended by
// it are reported. A post that its core refuses changes nothing, and takes no memory.
fn post_at(
    alloc: Global,
    server: usize,
    side: &mut ServerSide,
    circuits: &mut Vec<Joined>,
    logs: &mut Vec<Vec<LogEntry>>,
    name: &[u8],
    value: &Value,
    mask: u16,
) -> Result<(), Refusal>
    requires served { AreServed
        side.old.circuits.items
        (map joined_of circuits.old.items)
        server }
    requires alike { AllAlike server side.old.core (map joined_of circuits.old.items) }
    ensures { PostsAt
        server
        name.now
        (record { value = elements value.now; meta = unset })
        mask
        side.old
        (map joined_of circuits.old.items)
        (entries_in logs.old.items)
        result
        side.new
        (map joined_of circuits.new.items)
        (entries_in logs.new.items) }
{
    if !takes_post(&side.core, name, value) {
        return Ok(());
    }
    let given = value_again(alloc, value)?;
    let value_told = value_again(alloc, value)?;
    check_counts(circuits)?;
    reserve_reports(logs, side.life, &side.records, 1)?;
    match side.core.post(name, given, Meta::ZERO, mask) {
        Ok(()) => {
            let told = Stored {
                held: Held::of(value_told),
                meta: Meta::ZERO,
            };
            let number = number_of(name, &side.records);
            push_entry(logs, side.life, LogEntry::Posted(number, mask, told));
            post_numbers(server, &side.core, circuits, name, mask);
            report_ends(alloc, server, side, circuits, logs);
            Ok(())
        }
        Err(_) => Ok(()),
    }
}
