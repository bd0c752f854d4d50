//! The line `repeater`: the host's repeater, which is the core of `ca_repeat` between datagrams in
//! and datagrams out.
mod datagrams;
mod line;
mod run;
mod socket;

pub use datagrams::Datagrams;
pub use line::RepeaterLine;
pub(crate) use line::read_repeater;
pub use run::{repeat, repeater_bound, repeater_run};
pub use socket::RepeaterSocket;
