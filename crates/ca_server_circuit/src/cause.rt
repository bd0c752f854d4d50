//! The causes for which the end of a circuit ends.

/// Why a server's end of a circuit ended.
#[derive(Clone, Copy, Debug, PartialEq, Eq)]
pub enum EndCause {
    /// There was no memory for what was asked.
    OutOfMemory,
    /// A header whose payload size is no multiple of 8.
    Misaligned,
    /// A header whose payload size is over the limit.
    TooLarge,
    /// The caller cut it.
    Cut,
}
