//! Why an end of a circuit ended.

/// Why a client's end of a circuit ended.
#[derive(Clone, Copy, Debug, PartialEq, Eq)]
pub enum Why {
    /// There was no memory.
    OutOfMemory,
    /// A header whose payload size is no multiple of 8.
    Misaligned,
    /// A header whose payload size is over the limit.
    TooLarge,
    /// A silence that was too long.
    Silence,
    /// The caller closed it.
    Asked,
    /// It was cut.
    Cut,
}
