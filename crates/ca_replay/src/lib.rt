//! A script replayed over the real cores: its world, its events with those that a seed
//! draws, and the report.
#![tactic(auto)]

mod again;
mod config;
mod draw;
mod replaying;
mod telling;

pub use config::config_of;
pub use draw::draw_events;
pub use replaying::replay;
