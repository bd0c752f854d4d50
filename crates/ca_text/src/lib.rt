//! Words of Channel Access: commands, statuses, refusals, masks, names and limits.
//!
//! Each is once in the protocol specification (minor version 13), and every crate
//! above takes it from here.
#![tactic(auto)]

mod command;
mod laws;
mod limits;
mod mask;
mod name;
mod refusal;
mod same;
mod status;

pub use command::Command;
pub use laws::{limits_are_these, statuses_are_these};
pub use limits::{
    APPLIED_LIMIT, ARENA_SLOTS, BEACON_SERVERS, BOARD_CELLS, CHANNEL_LIMIT, CHANNEL_NAME_LIMIT,
    CIRCUIT_QUEUES, CLOSE_SILENCE, DATAGRAM_LIMIT, DATAGRAM_REPLIES, ECHO_SILENCE, ELEMENT_LIMIT,
    ENGINE_TURNS, FLOW_READS, LAST_GENERATION, MINOR_VERSION, OUTPUT_LIMIT, PAYLOAD_LIMIT,
    PRIORITY_LIMIT, QUEUE_LOW_PLACES, QUEUE_PLACES, QUEUE_SUBSCRIPTIONS, RECORD_NAME_LIMIT,
    REPEATER_MEMBERS, REPEATER_PORT, SERVER_PORT, WAITING_PUTS,
};
pub use mask::Mask;
pub use name::{ChannelName, Name, RecordName};
pub use refusal::Refusal;
pub use same::is_same_name;
pub use status::Status;
