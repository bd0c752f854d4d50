//! What a silence on a circuit asks of an end: nothing yet, an ECHO after 30 seconds, or a close
//! of the circuit after 35.

/// What a moment asks of an end of a circuit.
#[derive(Clone, Copy, Debug, PartialEq, Eq)]
pub enum Keep {
    /// Nothing.
    Idle,
    /// To send an ECHO (section "CA_PROTO_ECHO").
    Echo,
    /// To close the circuit.
    Close,
}
