//! The line `replay`: the script of a file is run by `ca_replay`, and its report written.
mod file;
mod line;
mod run;

pub use file::replay_file;
pub use line::ReplayLine;
pub(crate) use line::read_replay;
pub use run::replay_run;
