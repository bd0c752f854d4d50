//! A caller's claim to the outcome of one request, and what became of the attempt to deliver it.
use ca_dbr::Outcome;

/// The right to one outcome: a cell of the board, and which of its outcomes.
///
/// A copy is the same ticket. Once it was collected by one of its holders it gives
/// nothing to any other.
#[derive(Clone, Copy, Debug, PartialEq, Eq)]
pub struct Ticket {
    /// Below `BOARD_CELLS`.
    pub cell: usize,
    /// How often the cell was recycled before the ticket was armed.
    pub generation: u32,
}

/// What became of a fill.
#[derive(Debug, Drop, PartialEq, Eq)]
pub enum Filled {
    /// The outcome is on the board.
    Stored,
    /// The ticket was given up. This is the outcome that was to be handed over.
    GivenUp(Outcome),
}
