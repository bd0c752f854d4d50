//! Outcomes go from the core to the tickets of their requests.
ghost use Rattle.std.specs.Prelude.{◌≡◌, ◌∷◌, []};
ghost use Rattle.ca_client.specs.Awaited.{Fillable, FillsAll, others};
ghost use Rattle.ca_client_core.specs.Notices.{completions};
ghost use Rattle.ca_client_core.specs.Ticked.{lefts_of, notices_of};

use ca_arena::Handle;
use ca_board::{Board, CoreSeat, Ticket};
use ca_client_core::{Closing, Left, Notices};
use ca_dbr::Outcome;

// Fills the ticket of each completion, in order, and leaves the other notices.
pub(crate) fn fill_all(
    board: &Board,
    seat: &mut CoreSeat,
    tickets: &Vec<Ticket>,
    notices: &mut Notices,
)
    requires board { seat.old.board ≡ board.now }
    requires due { Fillable tickets.now.items seat.old (completions notices.old) }
    ensures fills { FillsAll tickets.now.items seat.old (completions notices.old) seat.new }
    ensures others { notices.new ≡ others notices.old }
    ensures board { seat.new.board ≡ board.now }
{
    while let Some((request, outcome)) = notices.next_completed() {
        fill_one(board, seat, tickets, request, outcome);
    }
}

// Fills the ticket of the one request that a reply completed.
#[inline(always)]
pub(crate) fn fill_one(
    board: &Board,
    seat: &mut CoreSeat,
    tickets: &Vec<Ticket>,
    request: Handle,
    outcome: Outcome,
)
    requires board { seat.old.board ≡ board.now }
    requires due { Fillable tickets.now.items seat.old ((request, outcome) ∷ []) }
    ensures fills { FillsAll tickets.now.items seat.old ((request, outcome) ∷ []) seat.new }
    ensures board { seat.new.board ≡ board.now }
{
    let ticket = tickets[usize::from(request.index)];
    board.fill(seat, ticket, outcome);
}

// Hands the completions of an end over.
pub(crate) fn settle(
    board: &Board,
    seat: &mut CoreSeat,
    tickets: &Vec<Ticket>,
    closing: Closing,
) -> Closing
    requires board { seat.old.board ≡ board.now }
    requires due { Fillable tickets.now.items seat.old (completions closing.notices) }
    ensures fills { FillsAll tickets.now.items seat.old (completions closing.notices) seat.new }
    ensures ended { result ≡ record closing { notices = others closing.notices } }
    ensures board { seat.new.board ≡ board.now }
{
    let mut ended = closing;
    fill_all(board, seat, tickets, &mut ended.notices);
    ended
}

// Fills the ticket of each completion of these ends, in order, and leaves the other notices.
pub(crate) fn fill_each(
    board: &Board,
    seat: &mut CoreSeat,
    tickets: &Vec<Ticket>,
    closings: &mut Vec<Left>,
)
    requires board { seat.old.board ≡ board.now }
    requires due { Fillable
        tickets.now.items
        seat.old
        (completions (notices_of closings.old.items)) }
    ensures fills { FillsAll
        tickets.now.items
        seat.old
        (completions (notices_of closings.old.items))
        seat.new }
    ensures others { notices_of closings.new.items ≡ others (notices_of closings.old.items) }
    ensures lefts { lefts_of closings.new.items ≡ lefts_of closings.old.items }
    ensures board { seat.new.board ≡ board.now }
{
    for index in 0..closings.len() {
        fill_all(board, seat, tickets, &mut closings[index].notices);
    }
}
