//! What histories consist of: messages with their intent or cause, steps of the two ends, and the
//! entries of the logs of clients and servers.
use ca_dbr::{Meta, Outcome, Value};
use ca_display::Held;
use ca_text::Refusal;
use ca_wire::Message;

/// A request: a read, a put with notification, or a plain write. Reads and puts are numbered
/// together, and plain writes apart.
#[derive(Clone, Copy, Debug, PartialEq, Eq)]
pub enum Kind {
    Read,
    Put,
    Write,
}

/// What a caller asks on a channel.
#[derive(Clone, Copy, Debug, PartialEq, Eq)]
pub enum Ask {
    Create,
    Clear,
    /// The request of this number.
    Request(Kind, usize),
    /// The subscription of this number.
    Subscribe(usize),
    /// The end of the subscription of this number.
    Cancel(usize),
}

/// The intent of a client's message.
#[derive(Clone, Copy, Debug, PartialEq, Eq)]
pub enum Intent {
    /// To ask this on the channel of this number.
    On(usize, Ask),
    /// To serve the circuit as a whole.
    OfCircuit,
}

/// The cause of a server's message.
#[derive(Clone, Copy, Debug, PartialEq, Eq)]
pub enum Cause {
    Reply,
    /// Its channel's record was removed.
    Removal,
    /// It updates with the post of this number.
    Update(usize),
}

/// A message that a client sent, and its intent.
#[derive(Debug, Drop)]
pub struct Sent {
    pub message: Message,
    pub intent: Intent,
}

/// A message that a server sent, the place of the client's message that it is about, and its cause.
#[derive(Debug, Drop)]
pub struct Told {
    pub message: Message,
    pub place: usize,
    pub cause: Cause,
}

/// A step of an end: how many messages it had sent and how long its log was before, and how
/// long its log was after.
#[derive(Clone, Copy, Debug, PartialEq, Eq)]
pub struct Step {
    pub sent: usize,
    pub logged: usize,
    pub after: usize,
}

/// What a record held, as it was stored, with the alarm and the stamp of its value.
#[derive(Debug, Drop)]
pub struct Stored {
    pub held: Held,
    pub meta: Meta,
}

/// A record as it was when it was added.
#[derive(Debug, Drop)]
pub struct Recorded {
    pub name: Vec<u8>,
    pub count: u32,
    pub slow: bool,
    pub held: Held,
    pub meta: Meta,
}

/// What a call asks for, beside its intent. A call that opens a channel has a line of its own.
#[derive(Debug, Drop)]
pub enum Wish {
    /// Of a clear, and of the end of a subscription.
    Nothing,
    /// Of a read: elements of this type, and this many.
    ToRead(u16, u32),
    /// Of a subscription: updates of this type, with this many elements, by this mask.
    ToWatch(u16, u32, u16),
    /// Of a put and of a plain write: this value.
    ToWrite(Value),
}

/// A line of the log of a client's life.
#[derive(Debug, Drop)]
pub enum Line {
    /// The channel of this number was opened under this name.
    Opened(usize, Vec<u8>),
    /// Another call was accepted, with what it asks for.
    Called(Intent, Wish),
    /// A notice told what became of an intent.
    Noticed(Intent, Outcome),
    /// A notice told an update of a subscription.
    Updated(Intent, Outcome),
    /// A call was refused.
    Refused(Refusal),
    /// The request of this number was collected, with the place of the line that
    /// says what became of it.
    Collected(usize, Option<usize>),
    /// The request of this number was given up, with that place.
    GaveUp(usize, Option<usize>),
}

/// An entry of the log of a server's life. Records have numbers.
#[derive(Debug, Drop)]
pub enum LogEntry {
    Added(usize, Recorded),
    Removed(usize),
    /// A record was posted, with a mask.
    Posted(usize, u16, Stored),
    /// The write at this place of this circuit waits for a record.
    Waits(usize, usize, usize, Stored),
    /// The write at this place of this circuit was applied to a record, and made it busy or not.
    Applied(usize, usize, usize, Stored, bool),
    /// The write at this place of this circuit was finished.
    Finished(usize, usize),
    /// The write at this place of this circuit was withdrawn.
    Withdrawn(usize, usize),
}
