//! What a caller may ask of a server: a record, its busy value, who waits first for it, and whether
//! an end is open.
ghost use Rattle.std.specs.Prelude.{◌≡◌, option_map};
ghost use Rattle.ca_ids.specs.Table.{under};
ghost use Rattle.ca_server_circuit.specs.Circuits.{is_open};
ghost use Rattle.ca_server_core.specs.Asking.{busy_value, first_waiting, record_now};

use crate::server::ServerCore;
use crate::stepping::is_open;
use ca_arena::Handle;
use ca_display::Held;
use ca_records::Record;
use ca_records::for_histories::waiting_put;

impl ServerCore {
    /// The circuit of the put that waits longest for the record of this name: none if no put waits
    /// for it, or no record has the name. It is the put that the next finish of the record applies.
    pub fn first_waiting(&self, name: &[u8]) -> Option<Handle>
        ensures { result ≡ first_waiting self.now name.now }
    {
        let Some(place) = self.records.find(name) else {
            return None;
        };
        let served = self.records.at(place);
        if served.waits() == 0 {
            return None;
        }
        Some(waiting_put(served, 0).circuit)
    }

    /// What the record of this name holds, if a put makes it busy: what a device is to process.
    pub fn busy_value(&self, name: &[u8]) -> Option<&Held>
        ensures { option_map (λ h. h.now) result ≡ busy_value self.now name.now }
    {
        let Some(place) = self.records.find(name) else {
            return None;
        };
        let served = self.records.at(place);
        if !served.is_busy() {
            return None;
        }
        Some(served.state().held())
    }

    /// The record of this name as it is now: what it holds, the alarm of its value and its stamp,
    /// and what it may hold.
    pub fn record(&self, name: &[u8]) -> Option<&Record>
        ensures { option_map (λ r. r.now) result ≡ record_now self.now name.now }
    {
        let Some(place) = self.records.find(name) else {
            return None;
        };
        Some(self.records.at(place).state())
    }

    /// Whether the end of a circuit is open.
    pub fn is_open(&self, circuit: Handle) -> bool
        ensures { result ≡ is_open (under self.now.circuits circuit) }
    {
        is_open(&self.circuits, circuit)
    }
}
