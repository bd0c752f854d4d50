//! A circuit that falls silent.
use crate::state::circuit::{live, memory};
use crate::state::faults::{lost, make_both};
use crate::state::requests::MadeRequests;
use ca_arena::Handle;
use ca_client::{Answer, Caller, ClientState, CoreCall, step_under_lock};
use ca_client_core::{Notice, Notices};
use ca_text::Refusal;
use std::alloc::Global;

/// The channel is live, with a read and a put, on a circuit that is silent from then on: an ECHO
/// goes out after 30 seconds, and the end has ended 5 seconds later. How many requests complete
/// with Disconnected, and how many channels are told as lost.
pub(crate) fn silenced(
    alloc: Global,
    state: &mut ClientState,
    caller: &mut Caller,
    requests: &MadeRequests,
    channel: Handle,
) -> Result<(usize, usize), Refusal> {
    let mut tape = memory(alloc)?;
    live(state, &mut tape)?;
    let mut tickets = Vec::new(alloc);
    make_both(state, requests, &mut tickets)?;
    let mut channels = 0;
    for moment in [30_000, 35_000] {
        let Answer::Ticked(ticked) = step_under_lock(state, CoreCall::Tick(moment)) else {
            return Err(Refusal::BadEvent);
        };
        for left in ticked.closings {
            channels += losses(left.notices, channel)?;
        }
    }
    Ok((lost(caller, &tickets), channels))
}

/// How often this channel is told as lost; nothing else is to be told.
fn losses(notices: Notices, channel: Handle) -> Result<usize, Refusal> {
    let mut left = notices;
    let mut count = 0;
    while let Some(notice) = left.next() {
        match notice {
            Notice::Lost(lost) if lost == channel => count += 1,
            _ => return Err(Refusal::BadEvent),
        }
    }
    Ok(count)
}
