//! Rounds of a board, and of a queue under a lock.
ghost use Rattle.std.specs.Prelude.{◌≡◌, ◌≤◌, ◌<◌};

use ca_board::{Board, CallerSeat, CoreSeat, Ticket};
use ca_dbr::Outcome;
use ca_text::{BOARD_CELLS, Refusal};
use std::alloc::Global;
use std::collections::VecDeque;
use std::sync::{Mutex, Wait};
use std::thread;
use std::thread::Threads;

/// The cells of each of the four callers.
const EACH: usize = 256;

/// Rounds of one of four kinds.
pub(crate) fn measured<R: Threads + Wait + Sync>(
    rt: &R,
    alloc: Global,
    what: &str,
    rounds: u32,
) -> Result<(), Refusal> {
    match what.as_bytes() {
        b"board" => board_rounds(alloc, rounds),
        b"queue" => queue_rounds(rt, alloc, rounds),
        b"board-callers" => board_callers(rt, alloc, rounds),
        b"queue-callers" => queue_callers(rt, alloc, rounds),
        _ => Err(Refusal::BadText),
    }
}

/// Rounds on one thread.
fn board_rounds(alloc: Global, rounds: u32) -> Result<(), Refusal> {
    let (board, mut core) = Board::new(alloc)?;
    let mut caller = board.caller(&mut core);
    go_round(&board, &mut core, &mut caller, rounds)
}

/// Arm, fill, collect and recycle, this many times.
fn go_round(
    board: &Board,
    core: &mut CoreSeat,
    caller: &mut CallerSeat,
    rounds: u32,
) -> Result<(), Refusal>
    requires { (core.old.board ≡ board.now) × (caller.old.board ≡ board.now) }
{
    for _round in 0..rounds {
        let ticket = board.arm(core)?;
        board.fill(core, ticket, Outcome::Done);
        board.collect(caller, ticket);
        board.recycle(core, ticket.cell);
    }
    Ok(())
}

/// Rounds through a queue under a lock, to compare: each puts an outcome in and takes it out.
fn queue_rounds(rt: &impl Wait, alloc: Global, rounds: u32) -> Result<(), Refusal> {
    let queue = Mutex::new(VecDeque::new(alloc));
    for _round in 0..rounds {
        put(rt, &queue)?;
        take(rt, &queue);
    }
    Ok(())
}

fn put(rt: &impl Wait, queue: &Mutex<VecDeque<Outcome>>) -> Result<(), Refusal> {
    queue.lock(rt).push_back(Outcome::Done)?;
    Ok(())
}

fn take(rt: &impl Wait, queue: &Mutex<VecDeque<Outcome>>) -> bool {
    queue.lock(rt).pop_front().is_some()
}

/// This many outcomes in each cell, from one core to four callers, each in a thread of its own.
fn board_callers<R: Threads + Wait + Sync>(
    rt: &R,
    alloc: Global,
    rounds: u32,
) -> Result<(), Refusal> {
    let (board, mut core) = Board::new(alloc)?;
    let callers = (
        board.caller(&mut core),
        board.caller(&mut core),
        board.caller(&mut core),
        board.caller(&mut core),
    );
    let board = &board;
    thread::join(
        rt,
        move ||
            requires { core.board ≡ board.now }
        { feed(rt, board, core, rounds) },
        move ||
            requires { (callers.0.board ≡ board.now) × (callers.1.board ≡ board.now)
                × (callers.2.board ≡ board.now) × (callers.3.board ≡ board.now) }
        { four(rt, board, callers, rounds) },
    );
    Ok(())
}

/// The core's thread: fills each ticket below this generation, and ends when each cell has come to
/// it.
fn feed<R: Wait>(rt: &R, board: &Board, mut core: CoreSeat, rounds: u32)
    requires { core.board ≡ board.now }
{
    let mut left = BOARD_CELLS;
    for _ in rt.forever() {
        if left == 0 {
            return;
        }
        match board.arm(&mut core) {
            Ok(ticket) => {
                if ticket.generation < rounds {
                    board.fill(&mut core, ticket, Outcome::Done);
                } else {
                    left -= 1;
                }
            }
            Err(_) => recycle_all(board, &mut core),
        }
    }
}

fn recycle_all(board: &Board, core: &mut CoreSeat)
    requires { core.old.board ≡ board.now }
    ensures { core.new.board ≡ board.now }
{
    for cell in 0..BOARD_CELLS {
        board.recycle(core, cell);
    }
}

type Callers = (CallerSeat, CallerSeat, CallerSeat, CallerSeat);

fn four<R: Threads + Wait + Sync>(rt: &R, board: &Board, callers: Callers, rounds: u32)
    requires { (callers.0.board ≡ board.now) × (callers.1.board ≡ board.now)
        × (callers.2.board ≡ board.now) × (callers.3.board ≡ board.now) }
{
    let (one, other, third, last) = callers;
    thread::join(
        rt,
        move ||
            requires { (one.board ≡ board.now) × (other.board ≡ board.now) }
        { two(rt, board, one, other, 0, rounds) },
        move ||
            requires { (third.board ≡ board.now) × (last.board ≡ board.now) }
        { two(rt, board, third, last, 2, rounds) },
    );
}

fn two<R: Threads + Wait + Sync>(
    rt: &R,
    board: &Board,
    one: CallerSeat,
    other: CallerSeat,
    quarter: usize,
    rounds: u32,
)
    requires { (one.board ≡ board.now) × (other.board ≡ board.now) × (quarter < 3) }
{
    thread::join(
        rt,
        move ||
            requires { (one.board ≡ board.now) × (quarter < 3) }
        { collect_all(rt, board, one, quarter, rounds) },
        move ||
            requires { (other.board ≡ board.now) × (quarter < 3) }
        { collect_all(rt, board, other, quarter + 1, rounds) },
    );
}

fn collect_all<R: Wait>(rt: &R, board: &Board, mut caller: CallerSeat, quarter: usize, rounds: u32)
    requires { (caller.board ≡ board.now) × (quarter < 4) }
{
    for generation in 0..rounds {
        collect_round(rt, board, &mut caller, quarter, generation);
    }
}

fn collect_round<R: Wait>(
    rt: &R,
    board: &Board,
    caller: &mut CallerSeat,
    quarter: usize,
    generation: u32,
)
    requires { (caller.old.board ≡ board.now) × (quarter < 4) }
    ensures { caller.new.board ≡ board.now }
{
    for place in 0..EACH {
        let cell = quarter * EACH + place;
        await_one(rt, board, caller, Ticket { cell, generation });
    }
}

fn await_one<R: Wait>(rt: &R, board: &Board, caller: &mut CallerSeat, ticket: Ticket)
    requires { caller.old.board ≡ board.now }
    ensures { caller.new.board ≡ board.now }
{
    for _ in rt.forever() {
        if board.collect(caller, ticket).is_some() {
            return;
        }
    }
}

/// As many outcomes through one queue under a lock, to four threads.
fn queue_callers<R: Threads + Wait + Sync>(
    rt: &R,
    alloc: Global,
    rounds: u32,
) -> Result<(), Refusal> {
    let queue = Mutex::new(VecDeque::new(alloc));
    let queue = &queue;
    let (supplied, _) = thread::join(
        rt,
        move || supply(rt, queue, u64::from(rounds) * 1_024),
        move || take_by_four(rt, queue, u64::from(rounds) * 256),
    );
    supplied
}

fn supply<R: Wait>(rt: &R, queue: &Mutex<VecDeque<Outcome>>, count: u64) -> Result<(), Refusal> {
    for _ in 0..count {
        put(rt, queue)?;
    }
    Ok(())
}

fn take_by_four<R: Threads + Wait + Sync>(rt: &R, queue: &Mutex<VecDeque<Outcome>>, count: u64) {
    thread::join(
        rt,
        move || take_by_two(rt, queue, count),
        move || take_by_two(rt, queue, count),
    );
}

fn take_by_two<R: Threads + Wait + Sync>(rt: &R, queue: &Mutex<VecDeque<Outcome>>, count: u64) {
    thread::join(
        rt,
        move || take_all(rt, queue, count),
        move || take_all(rt, queue, count),
    );
}

fn take_all<R: Wait>(rt: &R, queue: &Mutex<VecDeque<Outcome>>, count: u64) {
    for _ in 0..count {
        take_one(rt, queue);
    }
}

fn take_one<R: Wait>(rt: &R, queue: &Mutex<VecDeque<Outcome>>) {
    for _ in rt.forever() {
        if take(rt, queue) {
            return;
        }
    }
}
