//! The text of whole worlds. Scripts are read: their clients, their servers, and what is to happen.
//! What a seed adds to a script is drawn: numbers, and the events that they are. And the report of
//! a run is written, by the logs of its clients. There is no IO here.
#![tactic(auto)]

mod clients;
mod datagrams;
mod drawing;
mod drawn;
mod events;
mod lives;
mod logs;
mod posts;
mod report;
mod script;
mod servers;
mod types;
mod values;
mod verb;

pub use drawing::{DRAWS, Drawing};
pub use drawn::{circuit_drawn, event_drawn};
pub use logs::write_lives;
pub use report::write_report;
pub use script::{Script, read_script};
