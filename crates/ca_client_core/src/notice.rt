//! The notices of a client.
use ca_arena::Handle;
use ca_dbr::Outcome;
use ca_text::Status;

/// What a client reports to its caller.
#[derive(Debug, Drop)]
pub enum Notice {
    /// This channel is live.
    Live(Handle),
    /// This channel was lost.
    Lost(Handle),
    /// What became of this request.
    Completed(Handle, Outcome),
    /// An update of this subscription.
    Update(Handle, Outcome),
    /// The server refused this subscription, which is over.
    SubscriptionEnded(Handle, Status),
    /// The server refused a plain write on this channel.
    WriteRefused(Handle, Status),
}
