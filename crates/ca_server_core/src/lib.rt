//! A server of Channel Access: its records, and its ends of circuits. It does no input and no
//! output: bytes that came are given to it, and those that wait to be sent are asked of it.
//!
//! One circuit's end, and what a message does to it, is the crate below (`ca_server_circuit`). The
//! engine of the program's `ca answer` runs on this one (`ca_answer`).
#![tactic(auto)]

mod adding;
mod beacons;
mod counting;
mod cutting;
mod datagrams;
mod finishing;
mod first_waiting;
mod following;
pub mod for_histories;
mod peer;
mod posting;
mod pumping;
mod reaching;
mod removing;
mod served_name;
mod server;
mod serving;
mod stepping;
mod through;

pub use ca_server_circuit::{CircuitOutput, Effect, EndCause, Piece};
pub use ca_server_watchers::RecordWatchers;
pub use server::ServerCore;
pub use stepping::CoreStep;
