//! Requests, by the cells that they use.
use crate::state::circuit::turn;
use crate::state::tape::Tape;
use ca_arena::Handle;
use ca_board::Ticket;
use ca_client::{Caller, ClientState, CoreCall, RequestCall, issue_under_lock, step_under_lock};
use ca_dbr::{Outcome, Value};
use ca_text::Refusal;
use std::alloc::Global;

/// More than the board has cells.
pub(crate) const MANY: usize = 1_100;

/// The requests that are made: one for a channel that there is not, which the core refuses as 10,
/// and two that it accepts.
#[derive(Drop)]
pub(crate) struct MadeRequests {
    pub(crate) stale: RequestCall,
    pub(crate) read: RequestCall,
    pub(crate) put: RequestCall,
}

pub(crate) fn make_requests(alloc: Global, channel: Handle) -> Result<MadeRequests, Refusal> {
    let nothing = Handle {
        index: 9,
        generation: 9,
    };
    let value = Value::Longs(vec![in alloc; 42]?);
    Ok(MadeRequests {
        stale: RequestCall::Read(nothing, 5, 1),
        read: RequestCall::Read(channel, 5, 1),
        put: RequestCall::Put(channel, value),
    })
}

/// How many of n puts, one after the other, are done, once.
pub(crate) fn answered(
    state: &mut ClientState,
    caller: &mut Caller,
    put: &RequestCall,
    circuit: Handle,
    tape: &mut Tape,
) -> Result<usize, Refusal> {
    let mut count = 0usize;
    for _ in 0..MANY {
        let ticket = answered_put(state, put, circuit, tape)?;
        if is_done(&caller.collect(ticket)) && caller.collect(ticket).is_none() {
            count = count.saturating_add(1);
        }
    }
    Ok(count)
}

/// A put, which the server answers.
fn answered_put(
    state: &mut ClientState,
    put: &RequestCall,
    circuit: Handle,
    tape: &mut Tape,
) -> Result<Ticket, Refusal> {
    let (request, ticket) = issue_under_lock(state, put)?;
    tape.incoming.extend_from_slice(&done_reply(request))?;
    turn(state, circuit, tape);
    step_under_lock(state, CoreCall::Step(circuit));
    Ok(ticket)
}

/// The reply to a put of one LONG: status 1, and the request's id, which is its
/// generation and its index.
pub(crate) fn done_reply(request: Handle) -> [u8; 16] {
    let [_, _, g, h] = request.generation.to_be_bytes();
    let [i, j] = request.index.to_be_bytes();
    [0, 19, 0, 0, 0, 5, 0, 1, 0, 0, 0, 1, g, h, i, j]
}

pub(crate) fn is_done(outcome: &Option<Outcome>) -> bool {
    match outcome {
        Some(Outcome::Done) => true,
        _ => false,
    }
}

/// How many of n requests are refused with this number.
pub(crate) fn refused_as(state: &mut ClientState, request: &RequestCall, number: u8) -> usize {
    let mut count = 0usize;
    for _ in 0..MANY {
        if is_refused_as(state, request, number) {
            count = count.saturating_add(1);
        }
    }
    count
}

fn is_refused_as(state: &mut ClientState, request: &RequestCall, number: u8) -> bool {
    match issue_under_lock(state, request) {
        Ok(_) => false,
        Err(refusal) => refusal.number() == number,
    }
}

/// The tickets of those of n requests that are accepted.
pub(crate) fn accepted(
    alloc: Global,
    state: &mut ClientState,
    request: &RequestCall,
) -> Result<Vec<Ticket>, Refusal> {
    let mut tickets = Vec::new(alloc);
    for _ in 0..MANY {
        if let Ok((_, ticket)) = issue_under_lock(state, request) {
            tickets.push(ticket)?;
        }
    }
    Ok(tickets)
}
