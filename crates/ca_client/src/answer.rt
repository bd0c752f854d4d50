//! What a call under the lock answers.
use ca_client_core::{Closing, Notices, Ticked};
use ca_text::Refusal;

/// What the core answered, without the completions: its notices are those that complete no request.
#[derive(Debug, Drop)]
pub enum Answer {
    /// It read a message, or cleared the channel, with these notices.
    Notices(Notices),
    /// It read a reply, which completed one request, or which none awaited:
    /// there is no other notice.
    Filled,
    /// No complete message is there.
    NeedBytes,
    /// The circuit has begun.
    Connected,
    /// The circuit has ended.
    Closed(Closing),
    /// What the moment did: the datagrams that are to be sent, and the circuits that have ended.
    Ticked(Ticked),
    /// It refused, and is as it was.
    Refused(Refusal),
}

/// Steps of a circuit in a row.
#[derive(Debug, Drop)]
pub struct Steps {
    /// How many of them read a reply.
    pub replies: usize,
    /// What the last one answered: `Filled` if as many read a reply as may.
    pub answer: Answer,
}
