//! The calls under a client's lock where a growth is refused: one that is refused changes nothing,
//! and is made again; or a circuit ends, which takes its requests with it, and is made again.
//! `tools/hostile` refuses each growth in turn.
use crate::state::circuit::{FOUND, SERVER, memory};
use crate::state::faults::is_lost;
use crate::state::new_state;
use crate::state::requests::{MANY, MadeRequests, done_reply, is_done, make_requests};
use crate::state::tape::Tape;
use ca_arena::Handle;
use ca_client::{
    Answer, Caller, ClientState, CoreCall, RequestCall, issue_under_lock, step_under_lock,
    turn_over,
};
use ca_client_core::{Notice, Notices};
use ca_dbr::{Outcome, Value};
use ca_text::{BOARD_CELLS, Mask, Refusal};
use std::alloc::Global;
use std::io::Write;

/// A client's state with a channel, and what came of growths that were refused.
#[derive(Drop)]
struct Course {
    state: ClientState,
    caller: Caller,
    channel: Handle,
    requests: MadeRequests,
    /// How many calls were refused as OutOfMemory.
    refused: u64,
    /// How many circuits ended.
    ended: u64,
    /// How often the channel became live, and how many updates came.
    lives: u64,
    updates: u64,
}

/// Says how many calls were refused and how many circuits ended. A call or an outcome that is not
/// as it should be is refused.
pub(crate) fn show<W: Write>(alloc: Global, out: &mut W) -> Result<(), Refusal> {
    // A circuit is made again once. What a socket keeps is room of the test's own.
    let mut tapes = [memory(alloc)?, memory(alloc)?];
    for tape in &mut tapes {
        tape.incoming.reserve(10_000)?;
        tape.outgoing.reserve(100_000)?;
    }
    let mut course = begun(alloc)?;
    say(out, "begun", 0)?;
    for tape in &mut tapes {
        if course.round(tape)? {
            break;
        }
    }
    course.finish()?;
    say(out, "refused", course.refused)?;
    say(out, "ended", course.ended)
}

fn say<W: Write>(out: &mut W, what: &str, count: u64) -> Result<(), Refusal> {
    crate::tell(out, what, count)
}

fn begun(alloc: Global) -> Result<Course, Refusal> {
    let mut state = new_state(alloc)?;
    let caller = state.caller()?;
    let channel = state.open(b"TEMP", 0, 0)?;
    let requests = make_requests(alloc, channel)?;
    Ok(Course {
        state,
        caller,
        channel,
        requests,
        refused: 0,
        ended: 0,
        lives: 0,
        updates: 0,
    })
}

/// A call, which is made again if there was no memory for it.
fn twice<T: Drop, F: Fn(&mut ClientState) -> Result<T, Refusal>>(
    state: &mut ClientState,
    refused: &mut u64,
    call: F,
) -> Result<T, Refusal> {
    match call(state) {
        Err(Refusal::OutOfMemory) => {
            *refused += 1;
            call(state)
        }
        done => done,
    }
}

/// What holds, or the run is wrong.
fn is_due(holds: bool) -> Result<(), Refusal> {
    if holds {
        Ok(())
    } else {
        Err(Refusal::BadEvent)
    }
}

impl Course {
    /// The channel becomes live on a circuit over this socket, and is read, put to, written to and
    /// watched; then all cells are in use, and the circuit is cut. Whether it went on until then.
    fn round(&mut self, tape: &mut Tape) -> Result<bool, Refusal> {
        twice(
            &mut self.state,
            &mut self.refused,
            |state| state.datagram(0, SERVER, &FOUND[..]),
        )?;
        let Some(circuit) = self.connected()? else {
            return Ok(false);
        };
        let goes_on = self.goes_live(circuit, tape)?
            && self.reads(circuit, tape)?
            && self.puts(circuit, tape)?
            && self.writes(circuit, tape)?
            && self.watches(circuit, tape)?;
        if goes_on {
            self.fill_cells()?;
            step_under_lock(&mut self.state, CoreCall::Cut(circuit));
        }
        Ok(goes_on)
    }

    fn connected(&mut self) -> Result<Option<Handle>, Refusal> {
        let Some(first) = self.state.core().wanted(0) else {
            return Err(Refusal::BadEvent);
        };
        let circuit = first.circuit;
        match step_under_lock(&mut self.state, CoreCall::Connect(circuit)) {
            Answer::Connected => Ok(Some(circuit)),
            _ => {
                self.ended += 1;
                Ok(None)
            }
        }
    }

    fn goes_live(&mut self, circuit: Handle, tape: &mut Tape) -> Result<bool, Refusal> {
        let before = self.lives;
        let goes_on = self.moves(circuit, tape);
        is_due(!goes_on || self.lives == before + 1)?;
        Ok(goes_on)
    }

    /// Moves all bytes, and steps until no message is there. Whether the circuit goes on.
    fn moves(&mut self, circuit: Handle, tape: &mut Tape) -> bool {
        let mut goes_on = turn_over(&mut self.state, circuit, tape).is_none();
        let mut is_over = !goes_on;
        while !is_over {
            match step_under_lock(&mut self.state, CoreCall::Step(circuit)) {
                Answer::Notices(told) => self.hear(told),
                Answer::Filled => {}
                Answer::NeedBytes => is_over = true,
                _ => {
                    is_over = true;
                    goes_on = false;
                }
            }
        }
        if !goes_on {
            self.ended += 1;
        }
        goes_on
    }

    fn hear(&mut self, told: Notices) {
        let mut left = told;
        while let Some(notice) = left.next() {
            match notice {
                Notice::Live(_) => self.lives += 1,
                Notice::Update(_, Outcome::Value(Value::Longs(longs), _)) => {
                    if longs.as_slice() == [22].as_slice() {
                        self.updates += 1;
                    }
                }
                _ => {}
            }
        }
    }

    fn reads(&mut self, circuit: Handle, tape: &mut Tape) -> Result<bool, Refusal> {
        let read = &self.requests.read;
        let (request, ticket) = twice(
            &mut self.state,
            &mut self.refused,
            |state| issue_under_lock(state, read),
        )?;
        tape.incoming.extend_from_slice(&read_reply(request))?;
        let goes_on = self.moves(circuit, tape);
        let outcome = self.caller.collect(ticket);
        is_due(if goes_on {
            is_21(&outcome)
        } else {
            is_lost(&outcome)
        })?;
        is_due(self.caller.collect(ticket).is_none())?;
        Ok(goes_on)
    }

    fn puts(&mut self, circuit: Handle, tape: &mut Tape) -> Result<bool, Refusal> {
        let put = &self.requests.put;
        let (request, ticket) = twice(
            &mut self.state,
            &mut self.refused,
            |state| issue_under_lock(state, put),
        )?;
        tape.incoming.extend_from_slice(&done_reply(request))?;
        let goes_on = self.moves(circuit, tape);
        let outcome = self.caller.collect(ticket);
        is_due(if goes_on {
            is_done(&outcome)
        } else {
            is_lost(&outcome)
        })?;
        is_due(self.caller.collect(ticket).is_none())?;
        Ok(goes_on)
    }

    fn writes(&mut self, circuit: Handle, tape: &mut Tape) -> Result<bool, Refusal> {
        let channel = self.channel;
        let RequestCall::Put(_, value) = &self.requests.put else {
            return Err(Refusal::BadEvent);
        };
        twice(
            &mut self.state,
            &mut self.refused,
            |state| state.write(channel, value),
        )?;
        Ok(self.moves(circuit, tape))
    }

    fn watches(&mut self, circuit: Handle, tape: &mut Tape) -> Result<bool, Refusal> {
        let channel = self.channel;
        let Some(mask) = Mask::new(1) else {
            return Err(Refusal::BadEvent);
        };
        let subscription = twice(
            &mut self.state,
            &mut self.refused,
            |state| state.subscribe(channel, 5, 1, mask),
        )?;
        tape.incoming.extend_from_slice(&update(subscription))?;
        let before = self.updates;
        let goes_on = self.moves(circuit, tape);
        is_due(!goes_on || self.updates == before + 1)?;
        twice(
            &mut self.state,
            &mut self.refused,
            |state| state.unsubscribe(subscription),
        )?;
        Ok(goes_on)
    }

    /// More reads than there are cells: none was lost to a request that was refused.
    fn fill_cells(&mut self) -> Result<(), Refusal> {
        let read = &self.requests.read;
        let mut accepted = 0usize;
        for _ in 0..MANY {
            match twice(
                &mut self.state,
                &mut self.refused,
                |state| issue_under_lock(state, read),
            ) {
                Ok(_) => accepted += 1,
                Err(refusal) => is_due(refusal == Refusal::NoCell)?,
            }
        }
        is_due(accepted == BOARD_CELLS)
    }

    /// A moment, and the channel is cleared. One growth was refused at most.
    fn finish(&mut self) -> Result<(), Refusal> {
        let channel = self.channel;
        twice(
            &mut self.state,
            &mut self.refused,
            |state| accepted(step_under_lock(state, CoreCall::Tick(1_000))),
        )?;
        twice(
            &mut self.state,
            &mut self.refused,
            |state| accepted(step_under_lock(state, CoreCall::Clear(channel))),
        )?;
        is_due(self.refused + self.ended <= 1)
    }
}

fn accepted(answer: Answer) -> Result<(), Refusal> {
    match answer {
        Answer::Refused(refusal) => Err(refusal),
        _ => Ok(()),
    }
}

fn is_21(outcome: &Option<Outcome>) -> bool {
    match outcome {
        Some(Outcome::Value(Value::Longs(longs), _)) => longs.as_slice() == [21].as_slice(),
        _ => false,
    }
}

/// The reply to a read of one LONG, 21: status 1, and the request's id.
fn read_reply(request: Handle) -> [u8; 24] {
    let [_, _, g, h] = request.generation.to_be_bytes();
    let [i, j] = request.index.to_be_bytes();
    [
        0, 15, 0, 8, 0, 5, 0, 1, 0, 0, 0, 1, g, h, i, j, 0, 0, 0, 21, 0, 0, 0, 0,
    ]
}

/// An update of a subscription to one LONG, 22: status 1, and the subscription's id.
fn update(subscription: Handle) -> [u8; 24] {
    let [_, _, g, h] = subscription.generation.to_be_bytes();
    let [i, j] = subscription.index.to_be_bytes();
    [
        0, 1, 0, 8, 0, 5, 0, 1, 0, 0, 0, 1, g, h, i, j, 0, 0, 0, 22, 0, 0, 0, 0,
    ]
}
