//! Datagrams: what their bytes say, searches packed into one, replies packed into several, and the
//! three fixed messages of beacons and of the host's repeater.
#![tactic(auto)]

mod datagram;
mod fixed;
mod packing;
mod search;

pub use datagram::Datagram;
pub use fixed::{beacon, confirm, register};
pub use packing::pack_replies;
pub use search::search_into;
