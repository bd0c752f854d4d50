//! The lines of the program `ca` that take threads: `serve`, `get`, `put` and `monitor`.
//!
//! No proof speaks of what they do: it is `ca_serve`'s and `ca_client_context`'s, and what the
//! system's sockets carry.
#![tactic(auto)]

mod line;
mod monitor_listener;
mod printing;
mod program;
mod serving;
mod tool;
mod tool_line;
mod turns;

pub use line::{ServeLine, read_serve};
pub use monitor_listener::{MonitorListener, MonitorUpdates, new_monitor_listener};
pub use program::{run, takes};
pub use serving::serve_run;
pub use tool::tool_run;
pub use tool_line::{Task, ToolLine, ToolVerb, read_tool, verb_of};
