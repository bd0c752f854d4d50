//! Calls of a server under its lock that change the core: they pass on to it, and count no write.
ghost use Rattle.std.specs.Prelude.{◌≡◌, Bool, IfErr, List, false, ℕ};
ghost use Rattle.ca_arena.specs.declared.handle.Handle.{Handle};
ghost use Rattle.ca_dbr.specs.Elements.{elements};
ghost use Rattle.ca_dbr.specs.Held.{displayed_by};
ghost use Rattle.ca_ids.specs.Table.{has_free};
ghost use Rattle.ca_model.specs.Server.{Server};
ghost use Rattle.ca_model.specs.ServerCalls.{AddsRecord, Beacons, Posts, Removes, stamped};
ghost use Rattle.ca_model.specs.ServerSteps.{Accepts, Cuts, Gives, Pumps, Update};
ghost use Rattle.ca_records.specs.Record.{unset};
ghost use Rattle.ca_records.specs.Store.{display_at};
ghost use Rattle.ca_server_circuit.specs.CircuitOutput.{bytes_of};
ghost use Rattle.ca_server_core.specs.Pumping.{HandsOver};
ghost use Rattle.ca_text.specs.declared.refusal.Refusal.TheVariants.{OutOfMemory};

use crate::state::State;
use ca_arena::Handle;
use ca_dbr::{Meta, Value};
use ca_server_core::CircuitOutput;
use ca_text::Refusal;
use std::sync::ledger::Ledger;

impl<L: Ledger> State<L> {
    /// A circuit is accepted, and gets a handle. Refused as ArenaFull if none may be given, then as
    /// OutOfMemory. A refusal changes nothing.
    pub fn accept(&mut self) -> Result<Handle, Refusal>
        ensures call { Accepts self.old.core result self.new.core }
        ensures memory { IfErr result
            (λ e. e ≡ OutOfMemory → has_free self.old.core.circuits ≡ false) }
        ensures counts { (self.new.count ≡ self.old.count)
            × (self.new.credits.items ≡ self.old.credits.items) }
    {
        self.core.accept()
    }

    /// Takes bytes that came on a circuit. Refused as CircuitClosed if its end is not open, then as
    /// OutOfMemory. A refusal changes nothing.
    pub fn give(&mut self, circuit: Handle, bytes: &[u8]) -> Result<(), Refusal>
        ensures call { Gives self.old.core circuit bytes.now result self.new.core }
        ensures counts { (self.new.count ≡ self.old.count)
            × (self.new.credits.items ≡ self.old.credits.items) }
    {
        self.core.give(circuit, bytes)
    }

    /// Updates that wait on a circuit leave their queues until none may go. Then all bytes leave
    /// the circuit, those that wait or that its end left, in place of what is there. Up to this
    /// many are copied, and more come with their memory; an image that several circuits send is
    /// not copied. If there is no memory for the next update, the end of the circuit has ended.
    pub fn pump_over(&mut self, circuit: Handle, copied: usize, to: &mut CircuitOutput)
        ensures call { (updates : List Update) × ((mid : Server)
            × Pumps self.old.core circuit updates mid
            × HandsOver mid circuit (bytes_of to.new) self.new.core) }
        ensures counts { (self.new.count ≡ self.old.count)
            × (self.new.credits.items ≡ self.old.credits.items) }
    {
        self.core.pump_over(circuit, copied, to);
    }

    /// Cuts a circuit: its end ends, if it is open, and its puts that wait are never applied. One
    /// more step reports that, and takes over its credits. It does not allocate.
    pub fn cut(&mut self, circuit: Handle)
        ensures call { Cuts self.old.core circuit self.new.core }
        ensures counts { (self.new.count ≡ self.old.count)
            × (self.new.credits.items ≡ self.old.credits.items) }
    {
        self.core.cut(circuit);
    }

    /// The beacon that is due at this moment, once: 16 bytes, to be sent in a datagram of their
    /// own. None if none is due.
    ///
    /// A moment earlier than the last counts as the last.
    pub fn beacon(&mut self, now: u64) -> Option<[u8; 16]>
        ensures call { Beacons self.old.core now result self.new.core }
        ensures counts { (self.new.count ≡ self.old.count)
            × (self.new.credits.items ≡ self.old.credits.items) }
    {
        self.core.beacon(now)
    }

    /// Writes that are applied from now on have this time stamp: seconds since 1990-01-01 00:00:00
    /// UTC, and nanoseconds.
    pub fn stamp(&mut self, seconds: u32, nanos: u32)
        ensures call { self.new.core
            ≡ stamped (record { seconds = seconds; nanos = nanos }) self.old.core }
        ensures counts { (self.new.count ≡ self.old.count)
            × (self.new.credits.items ≡ self.old.credits.items) }
    {
        self.core.stamp(seconds, nanos);
    }

    /// The record of this name has this value from now on, with its alarm and its time stamp;
    /// display data stay. It reaches all subscriptions on the record whose mask shares a bit with
    /// this one, on all circuits. A circuit's end without memory for an update has ended.
    ///
    /// Refused as UnknownRecord if no record has the name, as BadType if the value is not of
    /// its type, and as BadCount if it has no element or more than the greatest count. A
    /// refusal changes nothing.
    pub fn post(&mut self, name: &[u8], value: Value, meta: Meta, mask: u16) -> Result<(), Refusal>
        ensures call { (gone : Handle → Bool) × Posts self.old.core name.now (record {
          value = displayed_by (display_at self.old.core.records name.now) (elements value);
          meta = meta;
        }) mask gone result self.new.core }
        ensures counts { (self.new.count ≡ self.old.count)
            × (self.new.credits.items ≡ self.old.credits.items) }
    {
        self.core.post(name, value, meta, mask)
    }

    /// Stops serving the record of this name. Its puts go with it: those that
    /// wait are never applied.
    ///
    /// Refused as UnknownRecord if no record has the name. A refusal changes nothing.
    pub fn remove_record(&mut self, name: &[u8]) -> Result<(), Refusal>
        ensures call { (gone : Handle → Bool) × ((left : Handle → ℕ)
            × Removes self.old.core name.now gone left result self.new.core) }
        ensures counts { (self.new.count ≡ self.old.count)
            × (self.new.credits.items ≡ self.old.credits.items) }
    {
        self.core.remove_record(name)
    }

    /// Serves one more record, neither busy nor waited for, with metadata of zeros.
    ///
    /// Refused as NameLength if this is no name, as RecordExists if it is served, as BadCount if
    /// the record may not have this value, and then as OutOfMemory. A refusal changes nothing.
    pub fn add_record(
        &mut self,
        name: &[u8],
        count: u32,
        slow: bool,
        value: Value,
    ) -> Result<(), Refusal>
        ensures call { (behind : ℕ) × AddsRecord self.old.core (record {
          name = name.now;
          count = count;
          slow = slow;
          value = elements value;
          meta = unset;
        }) behind result self.new.core }
        ensures counts { (self.new.count ≡ self.old.count)
            × (self.new.credits.items ≡ self.old.credits.items) }
    {
        self.core.add_record(name, count, slow, value)
    }
}
