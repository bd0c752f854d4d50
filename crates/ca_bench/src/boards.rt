//! Boards, shown: a ticket from its arming to its end, and all cells at once with
//! four callers in threads.

use crate::{racing, rounds, tickets};
use ca_text::Refusal;
use std::alloc::Global;
use std::io::Write;
use std::thread::Threads;

/// What came of it is `stdout`.
pub(crate) fn show_all<W: Write>(
    rt: &(impl Threads + Sync),
    alloc: Global,
    out: &mut W,
) -> Result<(), Refusal> {
    show_tickets(alloc, out)?;
    let agreed = racing::give_up_during_fill(rt, alloc)?;
    tell(
        out,
        "rounds in which a give-up found what was stored beside it",
        agreed,
    )?;
    rounds::board_round(rt, alloc, out)
}

/// Tickets one by one.
fn show_tickets<W: Write>(alloc: Global, out: &mut W) -> Result<(), Refusal> {
    let given = tickets::outcome_is_given_once(alloc)?;
    say(out, "an outcome is given once", given)?;
    let stale = tickets::old_ticket_is_stale(alloc)?;
    say(out, "an old ticket is stale", stale)?;
    let generations = tickets::each_generation(alloc)?;
    tell(out, "generations that gave their outcome once", generations)?;
    let back = tickets::fill_after_give_up(alloc)?;
    say(out, "a fill after a give-up comes back", back)?;
    let free = tickets::taken_back_is_free(alloc)?;
    say(out, "a ticket that is taken back frees its cell", free)
}

/// Says whether something holds.
fn say<W: Write>(out: &mut W, what: &str, holds: bool) -> Result<(), Refusal> {
    let word = if holds { "yes" } else { "no" };
    match writeln!(out, "{what}: {word}") {
        Ok(()) => Ok(()),
        Err(_) => Err(Refusal::Device),
    }
}

/// Tells a number.
pub(crate) fn tell<W: Write>(out: &mut W, what: &str, number: usize) -> Result<(), Refusal> {
    match writeln!(out, "{what}: {number}") {
        Ok(()) => Ok(()),
        Err(_) => Err(Refusal::Device),
    }
}
