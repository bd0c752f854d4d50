//! The limits of the protocol and of both ends: counts, bytes, ports and milliseconds.

/// The minor version of the protocol that both ends speak.
pub const MINOR_VERSION: u16 = 13;

/// Bytes of a payload, at most.
pub const PAYLOAD_LIMIT: usize = 16_777_216;

/// Bytes of a datagram that is written, at most.
pub const DATAGRAM_LIMIT: usize = 1_024;

/// Bytes of a channel's name, at most.
pub const CHANNEL_NAME_LIMIT: usize = 500;

/// Bytes of a record's name, at most.
pub const RECORD_NAME_LIMIT: usize = 60;

/// Elements of a record's value, at most.
pub const ELEMENT_LIMIT: usize = 262_144;

/// Channels that are created on a circuit, at most.
pub const CHANNEL_LIMIT: usize = 65_536;

/// Slots of an arena, and so channels, requests or subscriptions of one table.
pub const ARENA_SLOTS: usize = 65_536;

/// The last generation of an index, and of a cell of the board.
pub const LAST_GENERATION: u32 = 4_294_967_295;

/// Cells of the board on which outcomes pass between threads.
pub const BOARD_CELLS: usize = 1_024;

/// Places of an event queue.
pub const QUEUE_PLACES: usize = 144;

/// With as many free places or fewer a post replaces the last entry of its subscription.
pub const QUEUE_LOW_PLACES: usize = 36;

/// Subscriptions of an event queue, at most.
pub const QUEUE_SUBSCRIPTIONS: usize = 36;

/// Event queues of a circuit.
pub const CIRCUIT_QUEUES: usize = 8;

/// Puts that wait for a busy record, at most.
pub const WAITING_PUTS: usize = 16;

/// Bytes that wait to be sent on a circuit, from which on nothing more is queued.
pub const OUTPUT_LIMIT: usize = 262_144;

/// The greatest priority of a circuit.
pub const PRIORITY_LIMIT: u16 = 99;

/// Members of a repeater, at most.
pub const REPEATER_MEMBERS: usize = 64;

/// Servers whose beacons a client keeps apart, at most.
pub const BEACON_SERVERS: usize = 1_024;

/// The port of a server, over TCP and UDP.
pub const SERVER_PORT: u16 = 5_064;

/// The port of the host's repeater.
pub const REPEATER_PORT: u16 = 5_065;

/// Calls of its source and its sink together that one circuit's engine makes, at most.
pub const ENGINE_TURNS: u64 = 1_048_576;

/// Milliseconds without received bytes after which a client sends an ECHO.
pub const ECHO_SILENCE: u64 = 30_000;

/// Milliseconds without received bytes after which a client closes the circuit.
pub const CLOSE_SILENCE: u64 = 35_000;

/// Reads of a circuit in a row that left bytes waiting, after which a client asks
/// for a pause of updates.
pub const FLOW_READS: usize = 10;

/// Replies to searches in one datagram of a server, at most.
pub const DATAGRAM_REPLIES: usize = 42;

/// The number at which a server's count of applied writes stays.
pub const APPLIED_LIMIT: u64 = 0x8000_0000_0000_0000;
