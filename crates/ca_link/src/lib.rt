//! One end of a circuit, by its bytes and its moments; and where a circuit's bytes come from and go
//! to: a source and a sink, which count their calls and their faults. And how a run over them ends:
//! its exit status, and the line that reports a refusal.
#![tactic(auto)]

mod fused;
mod keep;
mod link;
mod mark;
mod outcome;
mod sink;
mod source;
mod spares;

pub use fused::Fused;
pub use keep::Keep;
pub use link::Link;
pub use mark::Mark;
pub use outcome::{not_understood, report};
pub use sink::{Sink, Writer};
pub use source::{Fault, Reader, Source};
pub use spares::Spares;
