//! What a world of clients, servers and circuits is made of, each part as the statement has it, and
//! the steps of which its events are made: logs and histories with room made first, lookups by
//! handle, ends that end, puts that are withdrawn.
#![tactic(auto)]

pub mod accepting;
pub mod cancelling;
pub mod clearing;
pub mod client;
pub mod closing;
pub mod ends;
pub mod entries;
pub mod found;
pub mod handing;
pub mod hearing;
pub mod history;
pub mod joined;
pub mod lefts;
pub mod logs;
pub mod naming;
pub mod numbering;
pub mod opening;
pub mod payloads;
pub mod replies;
pub mod reporting;
pub mod room;
pub mod sending;
pub mod server;
pub mod settings;
pub mod silencing;
pub mod stepping;
pub mod telling;
pub mod ticking;
pub mod updates;
pub mod way;
pub mod withdrawing;
