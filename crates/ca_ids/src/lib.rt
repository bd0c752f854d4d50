//! Tables whose entries have a wire id: the number by which one end of a circuit names
//! a thing to the other.
//!
//! A wire id that may still come back drains: nothing is found under it, and it is not given again
//! until its last message was read.
#![tactic(auto)]

mod held_table;
mod laws;
mod table;
mod wire_id;

pub use held_table::HeldTable;
pub use laws::wire_ids_differ;
pub use table::{IdTable, TableEntry};
pub use wire_id::WireId;
