//! An object as C holds it: a pointer, which is null if there is none.
#![tactic(auto)]

mod object;

pub use object::Object;
