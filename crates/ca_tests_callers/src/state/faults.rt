//! A socket that fails.
use crate::state::circuit::{VERSION, live, memory, turn};
use crate::state::requests::MadeRequests;
use crate::state::tape::Tape;
use ca_arena::Handle;
use ca_board::Ticket;
use ca_client::{Caller, ClientState, issue_under_lock};
use ca_dbr::Outcome;
use ca_text::Refusal;
use std::alloc::Global;

/// The channel is live on a circuit whose socket has n VERSIONs to give, and fails after some
/// calls. How many requests complete with Disconnected then.
pub(crate) fn lost_at(
    alloc: Global,
    state: &mut ClientState,
    caller: &mut Caller,
    requests: &MadeRequests,
    versions: usize,
    calls: u64,
) -> Result<usize, Refusal> {
    let mut tape = memory(alloc)?;
    let circuit = live(state, &mut tape)?;
    for _ in 0..versions {
        tape.incoming.extend_from_slice(&VERSION[..])?;
    }
    tape.calls_left = calls;
    let tickets = made_until_cut(alloc, state, requests, circuit, &mut tape)?;
    Ok(lost(caller, &tickets))
}

/// A read and a put before each turn, until the circuit is cut, for n turns at most.
fn made_until_cut(
    alloc: Global,
    state: &mut ClientState,
    requests: &MadeRequests,
    circuit: Handle,
    tape: &mut Tape,
) -> Result<Vec<Ticket>, Refusal> {
    let mut tickets = Vec::new(alloc);
    for _ in 0..20 {
        make_both(state, requests, &mut tickets)?;
        if !turn(state, circuit, tape) {
            return Ok(tickets);
        }
    }
    Ok(tickets)
}

/// A read and a put.
pub(crate) fn make_both(
    state: &mut ClientState,
    requests: &MadeRequests,
    tickets: &mut Vec<Ticket>,
) -> Result<(), Refusal> {
    let (_, first) = issue_under_lock(state, &requests.read)?;
    tickets.push(first)?;
    let (_, second) = issue_under_lock(state, &requests.put)?;
    tickets.push(second)?;
    Ok(())
}

/// How many outcomes are Disconnected, and there once.
pub(crate) fn lost(caller: &mut Caller, tickets: &[Ticket]) -> usize {
    let mut count = 0usize;
    for ticket in tickets {
        if is_lost(&caller.collect(*ticket)) && caller.collect(*ticket).is_none() {
            count = count.saturating_add(1);
        }
    }
    count
}

pub(crate) fn is_lost(outcome: &Option<Outcome>) -> bool {
    match outcome {
        Some(Outcome::Disconnected) => true,
        _ => false,
    }
}
