//! A mark in a circuit's output, so that the bytes of a message that is not sent after all can be
//! taken back.

/// How much waits on a link, and whether an ECHO went out: what is queued later can be taken back.
#[derive(Clone, Copy, Debug, PartialEq, Eq)]
pub struct Mark {
    /// How many bytes wait.
    pub waiting: usize,
    /// Whether an ECHO went out in this silence.
    pub echoed: bool,
}
