//! What may happen to a world, as data of the program.
#![tactic(auto)]

mod event;

pub use event::{Addition, Event, Posting};
