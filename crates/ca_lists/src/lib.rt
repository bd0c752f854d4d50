//! For each owner, by its index, the indices at which a table has what is the owner's: the channels
//! of a circuit, or the subscriptions of a channel. Each list ascends, so that a walk over it is in
//! the order of the table.
#![tactic(auto)]

mod index_list;
mod index_lists;

pub use index_list::IndexList;
pub use index_lists::IndexLists;
