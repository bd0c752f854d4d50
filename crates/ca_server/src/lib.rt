//! What is under a server's lock: its core, and a count of the writes that were applied, which is
//! the sum of the circuits' shares of a ledger.
//!
//! `locked_step` and `locked_finish` are lent what is locked. A circuit's thread steps its own
//! circuit, and has a share. A processing thread finishes busy puts; what that applies is credited
//! to the put's circuit, whose next step takes the credits over into its share. No call waits, and
//! none does input or output. `counts` has the laws of the statement that this rests on: what each
//! call of a server counts.
#![tactic(auto)]

mod calls;
mod counts;
mod locked;
mod state;

pub use counts::{
    a_finish_applies_the_next_put, a_step_counts_one_write, other_calls_count_nothing,
};
pub use locked::{locked_finish, locked_step};
pub use state::State;
