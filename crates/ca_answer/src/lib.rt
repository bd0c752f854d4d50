//! The engine of one circuit over the server's core: it reads the messages that a source gives, and
//! writes to a sink what they are answered by.
#![tactic(auto)]

mod engine;
mod stream;

pub use stream::answer_stream;
