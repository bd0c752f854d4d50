//! Calls of the core under the lock: the outcomes that they complete go to their tickets.
ghost use Rattle.std.specs.Prelude.{◌≡◌};
ghost use Rattle.ca_client_core.specs.Notices.{completions};
ghost use Rattle.ca_client.specs.Awaited.{Fillable, FillsAll};
ghost use Rattle.ca_client.specs.Calls.{HasSteppedUnderLock};
ghost use Rattle.ca_client.specs.Replies.{HasSteppedOn, IsOther};
ghost use Rattle.ca_client.specs.Stepping.{StepsReply, handed_over, notices_in};
ghost use Rattle.ca_client.specs.declared.ask.CoreCall.TheVariants as ask;
ghost use Rattle.ca_client.specs.declared.answer.Answer.TheVariants as answer;

use crate::answer::{Answer, Steps};
use crate::ask::CoreCall;
use crate::filling::{fill_all, fill_each, fill_one, settle};
use crate::state::ClientState;
use ca_arena::Handle;
use ca_board::{Board, CoreSeat, Ticket};
use ca_client_core::{Closing, Reply, Stepped, Ticked};

/// Makes one call of the core, hands the outcome of each request that it completes to the request's
/// ticket, and hands back the other notices.
pub fn step_under_lock(state: &mut ClientState, asked: CoreCall) -> Answer
    ensures { HasSteppedUnderLock state.old asked result state.new }
{
    match asked {
        CoreCall::Step(circuit) => step(state, circuit),
        CoreCall::Cut(circuit) => Answer::Closed(cut(state, circuit)),
        CoreCall::Close(circuit) => Answer::Closed(close(state, circuit)),
        CoreCall::Connect(circuit) => connect(state, circuit),
        CoreCall::Clear(channel) => clear(state, channel),
        CoreCall::Tick(now) => tick(state, now),
    }
}

/// Steps a circuit until a step does anything but read a reply, or n have read one. Each is
/// as `step_under_lock`.
pub fn step_all(state: &mut ClientState, circuit: Handle, most: usize) -> Steps
    ensures { HasSteppedOn circuit most state.old result state.new }
{
    for replies in 0..most {
        match step_reply(state, circuit) {
            Replied::Filled => {}
            Replied::NeedBytes => {
                return Steps {
                    replies,
                    answer: Answer::NeedBytes,
                };
            }
            Replied::Other => {
                return Steps {
                    replies,
                    answer: step_other(state, circuit),
                };
            }
        }
    }
    Steps {
        replies: most,
        answer: Answer::Filled,
    }
}

fn step(state: &mut ClientState, circuit: Handle) -> Answer
    ensures { HasSteppedUnderLock state.old (ask.Step circuit) result state.new }
{
    match step_reply(state, circuit) {
        Replied::Filled => Answer::Filled,
        Replied::NeedBytes => Answer::NeedBytes,
        Replied::Other => step_other(state, circuit),
    }
}

// What a step that is to read a reply did.
#[derive(Clone, Copy, PartialEq, Eq)]
enum Replied {
    // It read one, and handed its outcome over.
    Filled,
    // No complete message is there.
    NeedBytes,
    // Nothing: something else comes first, or there is no memory.
    Other,
}

// A step, if the next message is a reply. Most are: so this is small.
#[inline(always)]
fn step_reply(state: &mut ClientState, circuit: Handle) -> Replied
    ensures { StepsReply state.old circuit result state.new }
{
    match state.core.read_reply(circuit) {
        Reply::Completed(request, outcome) => {
            fill_one(
                &state.board,
                &mut state.seat,
                &state.tickets,
                request,
                outcome,
            );
            return Replied::Filled;
        }
        Reply::Unawaited => return Replied::Filled,
        Reply::NeedBytes => return Replied::NeedBytes,
        Reply::Other => {}
    }
    Replied::Other
}

// A step, whatever comes next.
#[inline(never)]
fn step_other(state: &mut ClientState, circuit: Handle) -> Answer
    ensures steps { HasSteppedUnderLock state.old (ask.Step circuit) result state.new }
    ensures other { IsOther result }
{
    let stepped = state.core.step(circuit);
    hand_over(&state.board, &mut state.seat, &state.tickets, stepped)
}

// Hands the completions of a step over, and the rest back.
#[inline(never)]
fn hand_over(board: &Board, seat: &mut CoreSeat, tickets: &Vec<Ticket>, stepped: Stepped) -> Answer
    requires board { seat.old.board ≡ board.now }
    requires due { Fillable tickets.now.items seat.old (completions (notices_in stepped)) }
    ensures fills { FillsAll
        tickets.now.items
        seat.old
        (completions (notices_in stepped))
        seat.new }
    ensures answer { result ≡ handed_over stepped }
    ensures board { seat.new.board ≡ board.now }
{
    match stepped {
        Stepped::Notices(mut notices) => {
            fill_all(board, seat, tickets, &mut notices);
            Answer::Notices(notices)
        }
        Stepped::NeedBytes => Answer::NeedBytes,
        Stepped::Closed(closing) => Answer::Closed(settle(board, seat, tickets, closing)),
    }
}

// Ends a circuit that was cut.
pub(crate) fn cut(state: &mut ClientState, circuit: Handle) -> Closing
    ensures { HasSteppedUnderLock state.old (ask.Cut circuit) (answer.Closed result) state.new }
{
    let closing = state.core.cut(circuit);
    settle(&state.board, &mut state.seat, &state.tickets, closing)
}

fn close(state: &mut ClientState, circuit: Handle) -> Closing
    ensures { HasSteppedUnderLock state.old (ask.Close circuit) (answer.Closed result) state.new }
{
    let closing = state.core.close(circuit);
    settle(&state.board, &mut state.seat, &state.tickets, closing)
}

fn connect(state: &mut ClientState, circuit: Handle) -> Answer
    ensures { HasSteppedUnderLock state.old (ask.Connect circuit) result state.new }
{
    let closing = match state.core.connected(circuit) {
        Some(closing) => closing,
        None => return Answer::Connected,
    };
    Answer::Closed(settle(&state.board, &mut state.seat, &state.tickets, closing))
}

fn clear(state: &mut ClientState, channel: Handle) -> Answer
    ensures { HasSteppedUnderLock state.old (ask.Clear channel) result state.new }
{
    let mut notices = match state.core.clear(channel) {
        Ok(notices) => notices,
        Err(refusal) => return Answer::Refused(refusal),
    };
    fill_all(&state.board, &mut state.seat, &state.tickets, &mut notices);
    Answer::Notices(notices)
}

// The tickets of the requests that end with circuits are filled.
fn tick(state: &mut ClientState, now: u64) -> Answer
    ensures { HasSteppedUnderLock state.old (ask.Tick now) result state.new }
{
    let ticked = match state.core.tick(now) {
        Ok(ticked) => ticked,
        Err(refusal) => return Answer::Refused(refusal),
    };
    let Ticked {
        datagrams,
        mut closings,
    } = ticked;
    fill_each(&state.board, &mut state.seat, &state.tickets, &mut closings);
    Answer::Ticked(Ticked {
        datagrams,
        closings,
    })
}
