//! What a server's end does to a world: what a message that it handled leaves, the write that a
//! message may be, how large its replies are at most, the puts of a channel that is cleared, and a
//! record that is removed.
#![tactic(auto)]

pub mod ahead;
pub mod answering;
pub mod coming;
pub mod doing;
pub mod effects;
pub mod handling;
pub mod losing;
pub mod parting;
