//! All cells at once, collected by four threads.
ghost use Rattle.std.specs.Prelude.{◌≡◌, ◌≤◌, IfOk};
ghost use Rattle.ca_board.specs.Outstanding.{AreDue};

use crate::boards::tell;
use ca_board::{Board, CallerSeat, CoreSeat, Filled, Ticket};
use ca_dbr::{Meta, Outcome, Value};
use ca_text::{BOARD_CELLS, Refusal};
use std::alloc::{AllocError, Global};
use std::io::Write;
use std::thread;
use std::thread::Threads;

// How many tickets each of the four callers has.
const EACH: usize = 256;

// An outcome with this number in it.
fn outcome_of(alloc: Global, number: usize) -> Result<Outcome, AllocError> {
    let items = Vec::from_slice(alloc, &[number as u64])?;
    Ok(Outcome::Value(Value::Doubles(items), Meta::ZERO))
}

fn has_number(outcome: &Outcome, number: usize) -> bool {
    match outcome {
        Outcome::Value(Value::Doubles(items), _) => items.first() == Some(&(number as u64)),
        _ => false,
    }
}

// A ticket for each cell.
fn arm_all(alloc: Global, board: &Board, core: &mut CoreSeat) -> Result<Vec<Ticket>, Refusal>
    requires { core.old.board ≡ board.now }
    ensures board { core.new.board ≡ board.now }
    ensures due { IfOk result (λ v. AreDue core.new v.items) }
{
    let mut tickets = Vec::new(alloc);
    for _number in 0..BOARD_CELLS {
        let ticket = board.arm(core)?;
        tickets.push(ticket)?;
    }
    Ok(tickets)
}

// Fills each ticket with its place, and counts what was stored.
fn fill_all(
    alloc: Global,
    board: &Board,
    core: &mut CoreSeat,
    tickets: &[Ticket],
) -> Result<usize, AllocError>
    requires board { core.old.board ≡ board.now }
    requires due { AreDue core.old tickets.now }
    ensures { core.new.board ≡ board.now }
{
    let mut stored = 0;
    for place in 0..tickets.len() {
        let outcome = outcome_of(alloc, place)?;
        stored += count_stored(board.fill(core, tickets[place], outcome));
    }
    Ok(stored)
}

// 1 for a fill that was stored.
fn count_stored(filled: Filled) -> usize
    ensures { result ≤ 1 }
{
    match filled {
        Filled::Stored => 1,
        Filled::GivenUp(_) => 0,
    }
}

// Collects the tickets of one quarter, and counts the outcomes that are their own.
fn collect_own(board: &Board, mut caller: CallerSeat, tickets: &[Ticket], quarter: usize) -> usize
    requires { caller.board ≡ board.now }
{
    let mut own = 0;
    for place in 0..tickets.len() {
        if place / EACH == quarter {
            if let Some(outcome) = board.collect(&mut caller, tickets[place]) {
                if has_number(&outcome, place) {
                    own += 1;
                }
            }
        }
    }
    own
}

// Two callers, a thread each.
fn two(
    rt: &(impl Threads + Sync),
    board: &Board,
    tickets: &[Ticket],
    one: CallerSeat,
    other: CallerSeat,
    quarters: (usize, usize),
) -> (usize, usize)
    requires { (one.board ≡ board.now) × (other.board ≡ board.now) }
{
    let (first, second) = quarters;
    thread::join(
        rt,
        move ||
            requires { one.board ≡ board.now }
        { collect_own(board, one, tickets, first) },
        move ||
            requires { other.board ≡ board.now }
        { collect_own(board, other, tickets, second) },
    )
}

// Four callers, a thread each.
fn four(
    rt: &(impl Threads + Sync),
    board: &Board,
    core: &mut CoreSeat,
    tickets: &[Ticket],
) -> ((usize, usize), (usize, usize))
    requires { core.old.board ≡ board.now }
    ensures { core.new ≡ core.old }
{
    let one = board.caller(core);
    let other = board.caller(core);
    let third = board.caller(core);
    let last = board.caller(core);
    thread::join(
        rt,
        move ||
            requires { (one.board ≡ board.now) × (other.board ≡ board.now) }
        { two(rt, board, tickets, one, other, (0, 1)) },
        move ||
            requires { (third.board ≡ board.now) × (last.board ≡ board.now) }
        { two(rt, board, tickets, third, last, (2, 3)) },
    )
}

fn recycle_all(board: &Board, core: &mut CoreSeat) -> usize
    requires { core.old.board ≡ board.now }
    ensures { core.new.board ≡ board.now }
{
    let mut freed = 0;
    for cell in 0..BOARD_CELLS {
        if board.recycle(core, cell) {
            freed += 1;
        }
    }
    freed
}

/// Four callers with 256 tickets each, all outstanding, then no cell; each collects its own;
/// and the same once more.
pub(crate) fn board_round<W: Write>(
    rt: &(impl Threads + Sync),
    alloc: Global,
    out: &mut W,
) -> Result<(), Refusal> {
    let (board, mut core) = Board::new(alloc)?;
    go_round(rt, alloc, &board, &mut core, out)?;
    go_round(rt, alloc, &board, &mut core, out)
}

// One round.
fn go_round<W: Write>(
    rt: &(impl Threads + Sync),
    alloc: Global,
    board: &Board,
    core: &mut CoreSeat,
    out: &mut W,
) -> Result<(), Refusal>
    requires { core.old.board ≡ board.now }
    ensures { core.new.board ≡ board.now }
{
    let tickets = arm_all(alloc, board, core)?;
    match board.arm(core) {
        Ok(_) => return Err(Refusal::Device),
        Err(refusal) => tell_refusal(out, refusal)?,
    }
    let stored = fill_all(alloc, board, core, tickets.as_slice())?;
    tell(out, "fills that were stored", stored)?;
    let own = four(rt, board, core, tickets.as_slice());
    tell_own(out, own)?;
    let freed = recycle_all(board, core);
    tell(out, "cells that are free again", freed)
}

// Tells why there is no ticket more.
fn tell_refusal<W: Write>(out: &mut W, refusal: Refusal) -> Result<(), Refusal> {
    match writeln!(out, "one ticket more: refused {refusal}") {
        Ok(()) => Ok(()),
        Err(_) => Err(Refusal::Device),
    }
}

// How many outcomes were its own, for each caller.
fn tell_own<W: Write>(out: &mut W, own: ((usize, usize), (usize, usize))) -> Result<(), Refusal> {
    let ((one, other), (third, last)) = own;
    match writeln!(out, "own outcomes: {one} {other} {third} {last}") {
        Ok(()) => Ok(()),
        Err(_) => Err(Refusal::Device),
    }
}
