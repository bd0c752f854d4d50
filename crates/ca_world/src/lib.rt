//! A world of clients, servers and their circuits, run event by event over the real cores and their
//! bytes. It keeps the histories of the circuits, and the logs of all lives, beside the cores.
#![tactic(auto)]

mod accept;
mod add;
mod circuits;
mod clear;
mod client_datagram;
mod client_restart;
mod client_step;
mod collect;
mod config;
mod cut_client;
mod cut_server;
mod down;
mod finish;
mod give_up;
mod judging;
mod next_write;
mod opens;
mod post;
mod pump;
mod read;
mod remove;
mod resting;
mod running;
mod server_datagram;
mod server_restart;
mod server_step;
mod step;
mod stopped;
mod subscribe;
mod tick;
mod unsubscribe;
mod up;
mod wide;
mod world;
mod write;
mod write_notify;

pub use ca_world_data::history::{
    Ask, Cause, Intent, Kind, Line, LogEntry, Recorded, Sent, Step, Stored, Told, Wish,
};
pub use ca_world_data::settings::{ClientSetting, RuleSetting, ServerSetting};
pub use circuits::Way;
pub use config::Config;
pub use running::{Progress, Ran, run, run_telling};
pub use step::AfterEvent;
pub use stopped::Stopped;
pub use world::World;
