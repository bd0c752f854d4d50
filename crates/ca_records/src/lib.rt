//! The records of a server: each has a name, a greatest element count, and a value.
//!
//! `Records` is a list of them. `ServedRecords` are those that a server keeps while they come and
//! go, with the puts that make them busy and wait, the rules of access and the stamp of writes.
#![tactic(auto)]

pub mod for_histories;
mod judged;
mod laws;
mod membership;
mod puts;
mod record;
mod records;
mod rules;
mod served_record;
mod served_records;
mod slot;
mod writes;

pub use laws::nothing_is_withdrawn;
pub use puts::{Begun, Finished, Put, Stamp};
pub use record::Record;
pub use records::Records;
pub use rules::Rule;
pub use served_record::ServedRecord;
pub use served_records::ServedRecords;
