//! For each record a list of circuits of a server. A server has two of these: the circuits with
//! subscriptions on each record, which a post visits, and those with channels to it, which its
//! removal visits. Each circuit with one is in the record's list, so that those in the list alone
//! are visited. Here all of them are said to watch the record.
//!
//! A circuit is listed from its first subscription on the record, or its first channel to it. It
//! may be listed after its last one is gone, or after it has ended: a post takes such a circuit
//! out, and with the removal of a record its lists go. A list has one circuit at most for each
//! index of a handle, so it is never longer than the server's table of circuits.
#![tactic(auto)]

mod record_watchers;
mod watchers;

pub use record_watchers::RecordWatchers;
pub use watchers::Watchers;
