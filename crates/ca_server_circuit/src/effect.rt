//! The effects of a message that was handled, as callers see them.

/// What a message that was handled did, beside its replies.
#[derive(Clone, Copy, Debug, PartialEq, Eq)]
pub enum Effect {
    /// Nothing that the caller of the server has to know.
    Quiet,
    /// A put with notification on the channel of this SID waits for another.
    Queued(u32),
    /// A channel was refused.
    Refused,
    /// A write, with notification or without, under this SID was refused.
    WriteRefused(u32),
    /// The channel of this SID was cleared, if it was open.
    Cleared(u32),
    /// The subscription of this SID and subscription id ended, if it was there.
    Cancelled(u32, u32),
    /// Events were turned on or off.
    Switched(bool),
    /// A record was written on the channel of this SID, and is not to be processed for it.
    Wrote(u32),
    /// A record was written by a put with notification on the channel of this SID, which makes it
    /// busy: it is to be processed, and finished then.
    Busied(u32),
    /// A subscription of this SID and subscription id began.
    Subscribed(u32, u32),
    /// A channel was created, which has this SID.
    Created(u32),
}
