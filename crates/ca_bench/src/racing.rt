//! A fill beside a give-up of the same ticket, each in a thread of its own.
ghost use Rattle.std.specs.Prelude.{◌≡◌};
ghost use Rattle.ca_board.specs.Views.{IsDue};

use crate::tickets::count;
use ca_board::{Board, CallerSeat, CoreSeat, Filled, Ticket};
use ca_dbr::Outcome;
use ca_text::Refusal;
use std::alloc::Global;
use std::thread;
use std::thread::Threads;

fn is_stored(board: &Board, mut core: CoreSeat, ticket: Ticket) -> bool
    requires { (core.board ≡ board.now) × IsDue core ticket }
{
    board.fill(&mut core, ticket, Outcome::Done) == Filled::Stored
}

fn is_found(board: &Board, mut caller: CallerSeat, ticket: Ticket) -> bool
    requires { caller.board ≡ board.now }
{
    board.give_up(&mut caller, ticket).is_some()
}

// Whether the fill was stored, and whether the give-up found its outcome.
fn race(
    rt: &(impl Threads + Sync),
    board: &Board,
    core: CoreSeat,
    caller: CallerSeat,
    ticket: Ticket,
) -> (bool, bool)
    requires { (core.board ≡ board.now) × (caller.board ≡ board.now) × IsDue core ticket }
{
    thread::join(
        rt,
        move ||
            requires { (core.board ≡ board.now) × IsDue core ticket }
        { is_stored(board, core, ticket) },
        move ||
            requires { caller.board ≡ board.now }
        { is_found(board, caller, ticket) },
    )
}

/// Whichever comes first: an outcome that was stored is found, and no other. In how many of
/// 64 rounds that was so.
pub(crate) fn give_up_during_fill(
    rt: &(impl Threads + Sync),
    alloc: Global,
) -> Result<usize, Refusal> {
    let mut agreed = 0;
    for round in 0..64usize {
        agreed += count(is_agreed(rt, alloc)?);
    }
    Ok(agreed)
}

fn is_agreed(rt: &(impl Threads + Sync), alloc: Global) -> Result<bool, Refusal> {
    let (board, mut core) = Board::new(alloc)?;
    let caller = board.caller(&mut core);
    let ticket = board.arm(&mut core)?;
    let (stored, found) = race(rt, &board, core, caller, ticket);
    Ok(stored == found)
}
