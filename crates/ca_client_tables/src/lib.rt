//! The tables of a client of Channel Access: its channels, its circuits and its
//! searches, and what becomes of them when a circuit is connected or has ended, a
//! channel is found, or a datagram came.
//!
//! The client's core (`ca_client_core`) is built on it: the calls of a client, with its
//! requests and subscriptions.
#![tactic(auto)]

mod address;
mod addressing;
mod beacons;
mod beginning;
mod candidates;
mod channel;
mod channels;
mod circuit;
mod clearing;
mod connecting;
mod ending;
mod finding;
mod first;
mod foreseeing;
mod foretelling;
mod letting_go;
mod live_channels;
mod noting;
mod packing;
mod queue;
mod receiving;
mod searches;
mod undoing;
mod valued;
mod why;

pub use address::Address;
pub use addressing::{AddressedDatagram, to_servers};
pub use beacons::Beacon;
pub use beginning::{count_names, name_circuits};
pub use channel::{Channel, Native, Phase, Standing};
pub use channels::{Channels, begin_all, end_channels, set_standing};
pub use circuit::{ClientCircuit, Connection, WantedCircuit};
pub use clearing::is_used;
pub use connecting::{connect, new_connection};
pub use finding::find;
pub use first::First;
pub use foretelling::{Creation, creation_by};
pub use letting_go::let_go;
pub use live_channels::{LiveChannels, list_live, note_live, take_live};
pub use noting::{Noted, receive_all};
pub use packing::packed;
pub use receiving::{Received, settle};
pub use searches::Searches;
pub use valued::size_of;
pub use why::Why;
