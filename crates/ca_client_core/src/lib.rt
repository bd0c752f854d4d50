//! The client's end of Channel Access: channels, requests and subscriptions over many circuits,
//! with no input and no output of its own.
//!
//! A caller moves the bytes, and hands in the moment. What is reported comes as
//! answers of the calls.
#![tactic(auto)]

mod access_rights;
mod beginning;
mod channel_state;
mod clear_channel;
mod clearing;
mod client;
mod closing;
mod connecting;
mod create_channel;
mod create_channel_fail;
mod cutting;
mod dispatching;
mod error;
mod event_add;
pub mod for_accepts;
pub mod for_datagrams;
pub mod for_histories;
pub mod for_moments;
mod foretelling;
mod issuing;
mod live;
mod marks;
mod name_searches;
mod notice;
mod notices;
mod opening;
mod output;
mod phases;
mod queue;
mod reading;
mod receiving;
mod reply;
mod search;
mod server_disconnect;
mod silences;
mod stepping;
mod subscribing;
mod ticking;
mod unsubscribing;
mod wanted;
mod writing;

pub use ca_client_tables::{Address, AddressedDatagram, WantedCircuit, Why};
pub use channel_state::ChannelState;
pub use client::ClientCore;
pub use closing::Closing;
pub use notice::Notice;
pub use notices::Notices;
pub use stepping::{Reply, Stepped};
pub use ticking::{Left, Ticked};
