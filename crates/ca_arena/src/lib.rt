//! An arena: values under handles. No handle is ever given twice.
//!
//! A handle is an index and a generation. The index of a removed value is given again, with the
//! next generation, so the handle that stood there before finds nothing. All tables of both
//! ends are built on it.
#![tactic(auto)]

mod arena;
mod block;
mod blocks;
mod handle;
mod laws;
mod slot;

pub use arena::Arena;
pub use handle::Handle;
pub use laws::{no_handle_twice, stale_stays_stale};
