//! A server of Channel Access in threads: one for each circuit, one that waits at the sockets of
//! all circuits that are parked, one that wakes the threads of many circuits, two that have a
//! device process what was put, and one for datagrams.
//!
//! What lies under the lock, and what each call makes of it, is `ca_server`. The device is called
//! with no lock held, so that a record that is slow keeps no circuit from its answers. No proof
//! speaks of the threads: that they go on is shown by tests.
#![tactic(auto)]

mod accepting;
mod circuit;
mod circuit_socket;
mod clock;
mod datagrams;
mod locked;
mod meter;
mod parking;
mod patience;
mod processing;
mod ringing;
mod serving;
mod tally;
mod work;

pub use meter::{Meter, Stats};
pub use processing::Device;
pub use serving::{Options, Places, serve};
