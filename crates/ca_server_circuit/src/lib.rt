//! One circuit's end at a server of Channel Access, and all that a message, a post, a removal or
//! the end of a put does to it. It does no input and no output: bytes that came are given to it,
//! and those that wait to be sent are asked of it.
//!
//! The server's core (`ca_server_core`) is built on it: many circuits, and who watches
//! which record. A circuit does not know its handle nor the records of its server: its
//! calls are given both.
#![tactic(auto)]

mod by_name;
mod bytes;
mod cause;
mod channel;
mod channel_table;
mod channels;
mod circuit;
mod circuit_output;
mod clear_channel;
mod create_chan;
mod echo;
mod effect;
mod end;
mod ending;
mod event_add;
mod event_cancel;
mod events;
mod fast;
mod finishing;
mod in_place;
mod losing;
mod name;
mod names;
mod put;
mod read;
mod record_channels;
mod search;
mod seek;
mod served_name;
mod shown;
mod step;
mod updates;
mod version;
mod write;
mod write_notify;

pub use cause::EndCause;
pub use circuit::Circuit;
pub use circuit_output::{CircuitOutput, Piece};
pub use effect::Effect;
pub use step::{EndStep, FollowUp};
