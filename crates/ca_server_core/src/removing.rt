//! A record is removed: all circuits with a channel to it lose the channel.
ghost use Rattle.std.specs.Prelude.{ℕ, ◌≡◌, Bool};
ghost use Rattle.ca_arena.specs.declared.handle.Handle.{Handle};
ghost use Rattle.ca_model.specs.ServerCalls.{Removes};
ghost use Rattle.ca_records.specs.Store.{records_of};
ghost use Rattle.ca_server_core.specs.Covering.{Leads};
ghost use Rattle.ca_server_core.specs.Removing.{HaveRoom, LosesAll, LosesIn, LosesNext, MayAllLose};
ghost use Rattle.ca_server_core.specs.Removing.{MayLoseIn, MayLoseNext};

use crate::server::ServerCore;
use ca_arena::Handle;
use ca_ids::HeldTable;
use ca_records::ServedRecords;
use ca_server_circuit::Circuit;
use ca_server_watchers::Watchers;
use ca_text::Refusal;

impl ServerCore {
    /// Stops serving the record of this name. Its puts go with it: those that wait are never
    /// applied. On all circuits each channel to it gets a SERVER_DISCONN, loses its subscriptions
    /// with their updates, and is retired: its SID stands for nothing until it is cleared. A
    /// circuit's end without memory for a SERVER_DISCONN has ended.
    ///
    /// Refused as UnknownRecord if no record has the name. A refusal changes nothing.
    pub fn remove_record(&mut self, name: &[u8]) -> Result<(), Refusal>
        ensures { (gone : Handle → Bool) × ((left : Handle → ℕ)
            × Removes self.old name.now gone left result self.new) }
    {
        self.records.remove(name)?;
        lose_on_all(
            &mut self.circuits,
            &mut self.records,
            &mut self.leading,
            name,
        );
        self.watchers.forget_all(name);
        self.leading.forget_all(name);
        Ok(())
    }
}

/// The record of this name was removed, and all circuits lose it. An end without memory for a
/// SERVER_DISCONN has ended. Those that lead to the record are visited, and no other.
fn lose_on_all(
    circuits: &mut HeldTable<Circuit>,
    records: &mut ServedRecords,
    leading: &mut Watchers,
    name: &[u8],
)
    requires may { MayAllLose (records_of records.old) circuits.old }
    requires room { HaveRoom circuits.old }
    requires leads { Leads leading.old circuits.old }
    ensures loses { LosesAll name.now circuits.old records.old circuits.new records.new }
    ensures stays { leading.new ≡ leading.old }
{
    for place in 0..leading.count(name) {
        lose_on_next(circuits, records, leading, place, name);
    }
}

/// The circuit at this place of the list of those that lead to the record loses it.
fn lose_on_next(
    circuits: &mut HeldTable<Circuit>,
    records: &mut ServedRecords,
    leading: &Watchers,
    place: usize,
    name: &[u8],
)
    requires { MayLoseNext (records_of records.old) name.now place leading.now circuits.old }
    ensures { LosesNext name.now place leading.now circuits.old records.old circuits.new
        records.new }
{
    let Some(circuit) = leading.at(name, place) else {
        return;
    };
    lose_on(circuits, records, circuit, name);
}

/// This circuit loses the record, if the circuit is there.
fn lose_on(
    circuits: &mut HeldTable<Circuit>,
    records: &mut ServedRecords,
    circuit: Handle,
    name: &[u8],
)
    requires { MayLoseIn (records_of records.old) circuit circuits.old }
    ensures { LosesIn circuits.old circuit name.now records.old circuits.new records.new }
{
    let Some(found) = circuits.by_handle_mut(circuit) else {
        return;
    };
    found.lose(circuit, name, records);
}
