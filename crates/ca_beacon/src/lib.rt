//! Beacons: when a server sends the next one, and which of those that a client hears are anomalies.
#![tactic(auto)]

mod clock;
mod laws;
mod table;

pub use clock::BeaconClock;
pub use laws::waits_double;
pub use table::BeaconTable;
