//! Event queues: the updates of up to 36 subscriptions, which wait until the circuit takes them.
//!
//! A queue has 144 places, and its newest updates are never lost: if places are few, or the client
//! asked for a pause, an update takes the place of the last one of its own subscription.
#![tactic(auto)]

mod circuit_queues;
mod entry;
mod event_queue;
mod lasts;
mod laws;
mod list_queue;
mod places;
mod queues;
mod ring;

pub use circuit_queues::CircuitQueues;
pub use entry::{Entry, SubKey};
pub use event_queue::EventQueue;
pub use laws::{
    cancel_takes_out_its_own, every_run_is_sound, newest_is_kept, post_ends_its_own,
    post_finds_a_place, take_gives_the_first_of_its_own,
};
pub use list_queue::ListQueue;
pub use queues::Queues;
