//! The program `ca`: what its line asks for, the records that it serves, and its
//! runs over any streams.
#![tactic(auto)]

mod answer;
mod file;
mod line;
mod program;
mod repeater;
mod replay;
mod words;

pub use answer::{AnswerLine, answer_file, answer_run, serve, standing_records};
pub use line::{CommandLine, read_line};
pub use program::run;
pub use repeater::{Datagrams, RepeaterLine, RepeaterSocket, repeat, repeater_bound, repeater_run};
pub use replay::{ReplayLine, replay_file, replay_run};
