//! What two seats of one board say together.
ghost use Rattle.std.specs.Prelude.{◌≡◌};
ghost use Rattle.ca_board.specs.History.{Agrees, Apart};

use crate::board::Board;
use crate::seats::{CallerSeat, CoreSeat};
use crate::steps::{Compares, Meets, Pairs, Separates};

/// Compares two seats and gives them back: what the caller took are fills of the core, ticket by
/// ticket, each once, and what it gave up has no fill.
pub fn met(board: &Board, core: CoreSeat, caller: CallerSeat) -> (CoreSeat, CallerSeat)
    requires core { core.board ≡ board.now }
    requires caller { caller.board ≡ board.now }
    ensures core { result.0 ≡ core }
    ensures caller { result.1 ≡ caller }
    ensures agree { Agrees core.fills caller.takes caller.gives }
{
    let CoreSeat { mut seat, free } = core;
    let CallerSeat { seat: other } = caller;
    let words = &board.cells.shared;
    words.join_seat::<Meets>(&mut seat, other);
    words.load::<Compares>(&mut seat, 0);
    let other = words.split_seat::<Meets>(&mut seat);
    (CoreSeat { seat, free }, CallerSeat { seat: other })
}

/// Compares two callers' seats and gives them back: no ticket was taken by both, nor taken by one
/// and given up by the other.
pub fn apart(board: &Board, one: CallerSeat, other: CallerSeat) -> (CallerSeat, CallerSeat)
    requires one { one.board ≡ board.now }
    requires other { other.board ≡ board.now }
    ensures one { result.0 ≡ one }
    ensures other { result.1 ≡ other }
    ensures apart { Apart one.takes one.gives other.takes other.gives }
{
    let CallerSeat { mut seat } = one;
    let CallerSeat { seat: other } = other;
    let words = &board.cells.shared;
    words.join_seat::<Pairs>(&mut seat, other);
    words.load::<Separates>(&mut seat, 0);
    let other = words.split_seat::<Pairs>(&mut seat);
    (CallerSeat { seat }, CallerSeat { seat: other })
}
