//! One ticket after another, on one thread.
ghost use Rattle.std.specs.Prelude.{◌≡◌, ◌≤◌};
ghost use Rattle.ca_board.specs.Views.{IsDue};

use ca_board::{Board, CallerSeat, CoreSeat, Filled, Ticket};
use ca_dbr::Outcome;
use ca_text::Refusal;
use std::alloc::Global;

/// A ticket's outcome is there once it is filled, for the first that collects it; and then
/// its cell is free once.
pub(crate) fn outcome_is_given_once(alloc: Global) -> Result<bool, Refusal> {
    let (board, mut core) = Board::new(alloc)?;
    let mut caller = board.caller(&mut core);
    let ticket = board.arm(&mut core)?;
    let waits = still_waits(&board, &mut core, &mut caller, ticket);
    let given = is_given_once(&board, &mut core, &mut caller, ticket);
    let freed = frees(&board, &mut core, ticket.cell);
    let twice = frees(&board, &mut core, ticket.cell);
    Ok(waits && given && freed && !twice)
}

// Whether a ticket that is not filled returns nothing, and keeps its cell.
fn still_waits(board: &Board, core: &mut CoreSeat, caller: &mut CallerSeat, ticket: Ticket) -> bool
    requires board { (core.old.board ≡ board.now) × (caller.old.board ≡ board.now) }
    requires due { IsDue core.old ticket }
    ensures core { core.new.board ≡ board.now }
    ensures caller { caller.new.board ≡ board.now }
    ensures due { IsDue core.new ticket }
{
    let early = collects(board, caller, ticket).is_some();
    let unused = board.recycle(core, ticket.cell);
    !early && !unused
}

// Whether an outcome is stored, and then given once.
fn is_given_once(
    board: &Board,
    core: &mut CoreSeat,
    caller: &mut CallerSeat,
    ticket: Ticket,
) -> bool
    requires board { (core.old.board ≡ board.now) × (caller.old.board ≡ board.now) }
    requires due { IsDue core.old ticket }
    ensures core { core.new.board ≡ board.now }
    ensures caller { caller.new.board ≡ board.now }
{
    let stored = board.fill(core, ticket, Outcome::Done) == Filled::Stored;
    let first = collects(board, caller, ticket) == Some(Outcome::Done);
    let gone = is_gone(board, caller, ticket);
    stored && first && gone
}

// Whether a ticket returns nothing, and a give-up finds nothing.
fn is_gone(board: &Board, caller: &mut CallerSeat, ticket: Ticket) -> bool
    requires { caller.old.board ≡ board.now }
    ensures { caller.new.board ≡ board.now }
{
    let again = collects(board, caller, ticket).is_some();
    let late = gives_up(board, caller, ticket).is_some();
    !again && !late
}

/// A ticket whose cell was armed again returns nothing.
pub(crate) fn old_ticket_is_stale(alloc: Global) -> Result<bool, Refusal> {
    let (board, mut core) = Board::new(alloc)?;
    let mut caller = board.caller(&mut core);
    let old = board.arm(&mut core)?;
    let ended = ends_by_give_up(&board, &mut core, &mut caller, old);
    let new = board.arm(&mut core)?;
    let anew = new.cell == old.cell && new.generation == 1;
    let stale = is_stale(&board, &mut core, &mut caller, old, new);
    Ok(ended && anew && stale)
}

// Whether a give-up finds what is stored, and the cell is free then.
fn ends_by_give_up(
    board: &Board,
    core: &mut CoreSeat,
    caller: &mut CallerSeat,
    ticket: Ticket,
) -> bool
    requires board { (core.old.board ≡ board.now) × (caller.old.board ≡ board.now) }
    requires due { IsDue core.old ticket }
    ensures core { core.new.board ≡ board.now }
    ensures caller { caller.new.board ≡ board.now }
{
    board.fill(core, ticket, Outcome::Done);
    let found = gives_up(board, caller, ticket) == Some(Outcome::Done);
    let freed = frees(board, core, ticket.cell);
    found && freed
}

// Whether the old ticket returns nothing once the new one is filled, and the new
// one gives its outcome.
fn is_stale(
    board: &Board,
    core: &mut CoreSeat,
    caller: &mut CallerSeat,
    old: Ticket,
    new: Ticket,
) -> bool
    requires board { (core.old.board ≡ board.now) × (caller.old.board ≡ board.now) }
    requires due { IsDue core.old new }
{
    board.fill(core, new, Outcome::Disconnected);
    let gone = is_gone(board, caller, old);
    let fresh = collects(board, caller, new) == Some(Outcome::Disconnected);
    gone && fresh
}

/// A cell again and again, more often than 16 bits count: how many generations gave their
/// outcome, and then nothing.
pub(crate) fn each_generation(alloc: Global) -> Result<usize, Refusal> {
    let (board, mut core) = Board::new(alloc)?;
    let mut caller = board.caller(&mut core);
    let mut given = 0;
    for generation in 0..70_000u32 {
        given += count(is_given(&board, &mut core, &mut caller, generation)?);
    }
    Ok(given)
}

// Whether the next ticket is of this generation, and gives its outcome once.
fn is_given(
    board: &Board,
    core: &mut CoreSeat,
    caller: &mut CallerSeat,
    generation: u32,
) -> Result<bool, Refusal>
    requires { (core.old.board ≡ board.now) × (caller.old.board ≡ board.now) }
    ensures core { core.new.board ≡ board.now }
    ensures caller { caller.new.board ≡ board.now }
{
    let ticket = board.arm(core)?;
    let given = is_given_once(board, core, caller, ticket);
    let freed = frees(board, core, ticket.cell);
    Ok(ticket.generation == generation && given && freed)
}

/// The outcome of a ticket that was given up comes back to the core, also if the
/// cell was freed before.
pub(crate) fn fill_after_give_up(alloc: Global) -> Result<bool, Refusal> {
    let (board, mut core) = Board::new(alloc)?;
    let mut caller = board.caller(&mut core);
    let early = board.arm(&mut core)?;
    let back = comes_back(&board, &mut core, &mut caller, early);
    let late = board.arm(&mut core)?;
    let back_late = comes_back_late(&board, &mut core, &mut caller, late);
    Ok(back && back_late)
}

// Whether the outcome of a ticket that was given up comes back, and the cell is free then.
fn comes_back(board: &Board, core: &mut CoreSeat, caller: &mut CallerSeat, ticket: Ticket) -> bool
    requires board { (core.old.board ≡ board.now) × (caller.old.board ≡ board.now) }
    requires due { IsDue core.old ticket }
    ensures core { core.new.board ≡ board.now }
    ensures caller { caller.new.board ≡ board.now }
{
    let gone = gives_up(board, caller, ticket).is_none();
    let outcome = Outcome::Unreadable(Refusal::Short);
    let back = board.fill(core, ticket, outcome)
        == Filled::GivenUp(Outcome::Unreadable(Refusal::Short));
    let freed = frees(board, core, ticket.cell);
    gone && back && freed
}

// Whether the outcome of a ticket that was given up comes back after its cell is free, and
// nobody collects it.
fn comes_back_late(
    board: &Board,
    core: &mut CoreSeat,
    caller: &mut CallerSeat,
    ticket: Ticket,
) -> bool
    requires board { (core.old.board ≡ board.now) × (caller.old.board ≡ board.now) }
    requires due { IsDue core.old ticket }
{
    let gone = gives_up(board, caller, ticket).is_none();
    let freed = board.recycle(core, ticket.cell);
    let back = board.fill(core, ticket, Outcome::Done) == Filled::GivenUp(Outcome::Done);
    let none = collects(board, caller, ticket).is_none();
    gone && freed && back && none
}

/// A ticket that is taken back returns nothing, and its cell is free, also if a
/// caller gave it up before.
pub(crate) fn taken_back_is_free(alloc: Global) -> Result<bool, Refusal> {
    let (board, mut core) = Board::new(alloc)?;
    let mut caller = board.caller(&mut core);
    let unused = board.arm(&mut core)?;
    board.take_back(&mut core, unused);
    let gone = is_gone(&board, &mut caller, unused);
    let given_up = board.arm(&mut core)?;
    gives_up(&board, &mut caller, given_up);
    board.take_back(&mut core, given_up);
    let last = board.arm(&mut core)?;
    let one_cell = given_up.cell == unused.cell && last.cell == unused.cell;
    Ok(gone && one_cell && given_up.generation == 1 && last.generation == 2)
}

// 1 for what holds.
pub(crate) fn count(holds: bool) -> usize
    ensures { result ≤ 1 }
{
    if holds { 1 } else { 0 }
}

fn collects(board: &Board, caller: &mut CallerSeat, ticket: Ticket) -> Option<Outcome>
    requires { caller.old.board ≡ board.now }
    ensures { caller.new.board ≡ board.now }
{
    board.collect(caller, ticket)
}

fn gives_up(board: &Board, caller: &mut CallerSeat, ticket: Ticket) -> Option<Outcome>
    requires { caller.old.board ≡ board.now }
    ensures { caller.new.board ≡ board.now }
{
    board.give_up(caller, ticket)
}

fn frees(board: &Board, core: &mut CoreSeat, cell: usize) -> bool
    requires { core.old.board ≡ board.now }
    ensures { core.new.board ≡ board.now }
{
    board.recycle(core, cell)
}
