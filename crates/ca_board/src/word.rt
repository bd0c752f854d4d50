//! The words of cells. A word holds a cell's generation and its state, and only grows.
ghost use Rattle.std.specs.Prelude.{◌≡◌, ◌<◌, ◌≤◌, ◌+◌, ◌*◌, ◌/◌, ◌⊎◌, ◌≢◌, IsFalse, IsTrue};
ghost use Rattle.ca_board.specs.Words.{state_number, word_of};

use crate::ticket::Ticket;

/// What a cell is: free; its ticket waits for an outcome; the outcome is there; a caller takes it;
/// it was taken, and the slot is back; or the ticket was given up.
#[derive(Clone, Copy)]
pub(crate) enum CellState {
    Free,
    Waiting,
    Done,
    Taken,
    Empty,
    GivenUp,
}

/// The word of a ticket's cell in this state.
pub(crate) fn word(ticket: Ticket, state: CellState) -> u64
    ensures { result ≡ word_of ticket state }
{
    u64::from(ticket.generation) * 8 + number(state)
}

/// The ticket of a cell with this word has ended: its outcome was taken and the slot is
/// back, or it was given up.
pub(crate) fn has_ended(word: u64) -> bool
    ensures ended { IsTrue result → (word ≡ 8 * (word / 8) + 4) ⊎ (word ≡ 8 * (word / 8) + 5) }
    ensures other { IsFalse result
        → (word ≢ 8 * (word / 8) + 4) × (word ≢ 8 * (word / 8) + 5) }
{
    word % 8 == number(CellState::Empty) || word % 8 == number(CellState::GivenUp)
}

/// The cell of a ticket, with this word, is past the ticket's outcome: that was taken, or the
/// ticket was given up. Words only grow, so none comes.
pub(crate) fn is_past(word: u64, ticket: Ticket) -> bool
    ensures past { IsTrue result → 8 * ticket.generation + 2 < word }
    ensures not_yet { IsFalse result → word ≤ 8 * ticket.generation + 2 }
{
    word > self::word(ticket, CellState::Done)
}

/// The cell with this word waits.
pub(crate) fn is_waiting(word: u64) -> bool
    ensures waits { IsTrue result → word ≡ 8 * (word / 8) + 1 }
    ensures other { IsFalse result → word ≢ 8 * (word / 8) + 1 }
{
    word % 8 == number(CellState::Waiting)
}

// The number of a state in a word.
fn number(state: CellState) -> u64
    ensures is { result ≡ state_number state }
    ensures small { result < 8 }
{
    match state {
        CellState::Free => 0,
        CellState::Waiting => 1,
        CellState::Done => 2,
        CellState::Taken => 3,
        CellState::Empty => 4,
        CellState::GivenUp => 5,
    }
}
