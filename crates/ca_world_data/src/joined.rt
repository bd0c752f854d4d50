//! A circuit between a client and a server: what each end sent and read, the bytes left by ends
//! that have ended, and what the server's end keeps for it.
use crate::history::{Cause, Sent, Step, Told};
use ca_arena::Handle;
use ca_queue::{ListQueue, SubKey};
use ca_wire::Pipe;

/// A circuit as what happened on it: the lives that it joins, what each end sent, the steps of
/// each, and which ends are open.
#[derive(Drop)]
pub struct CircuitHistory {
    pub client_open: bool,
    pub server_open: bool,
    pub up: Vec<Sent>,
    pub down: Vec<Told>,
    pub handled: Vec<Step>,
    pub heard: Vec<Step>,
    /// The life of the client.
    pub client: usize,
    /// The life of the server.
    pub server: usize,
}

/// Where a channel that is open at a server's end was created: its SID, and the
/// place of its CREATE_CHAN.
#[derive(Clone, Copy)]
pub struct CreatedChannel {
    pub sid: u32,
    pub place: usize,
}

/// A subscription that is at a server's end: its key, the place of its EVENT_ADD, and how many
/// posts matched so far.
#[derive(Clone, Copy)]
pub struct AddedSubscription {
    pub key: SubKey,
    pub place: usize,
    pub posts: usize,
}

/// A circuit: its client and its server, and the handles by which their cores know it; its lists;
/// the bytes that ends which have ended left; and of the server's end its channels, its
/// subscriptions, and its queues as the numbers of what waits there.
#[derive(Drop)]
pub struct Joined {
    pub client: usize,
    pub server: usize,
    pub at_client: Handle,
    pub at_server: Handle,
    pub lists: CircuitHistory,
    pub left_up: Pipe,
    pub left_down: Pipe,
    pub creations: Vec<CreatedChannel>,
    pub standing: Vec<AddedSubscription>,
    pub queues: Vec<ListQueue<(usize, Cause)>>,
}
