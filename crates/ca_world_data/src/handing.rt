//! What became of a request, as a client's log says, for whoever collects it.
ghost use Rattle.std.specs.Prelude.{◌≡◌, MatchResult, map};
ghost use Rattle.std.specs.List.{list_any};
ghost use Rattle.ca_model.specs.ClientEvents.{HandsOut, hands_out};
ghost use Rattle.ca_world_data.specs.Handing.{IfSame, IsReadyToHand, IsUnasked, Tells, ToldAt};
ghost use Rattle.ca_world_data.specs.Handing.{log_of};
ghost use Rattle.ca_world_data.specs.Logs.{lines_in};
ghost use Rattle.ca_world_data.specs.Seen.{intent_of, line_of};

use crate::client::ClientSide;
use crate::history::{Intent, Line};
use crate::logs::reserve_lines;
use ca_text::Refusal;

/// The place of the line that says what became of the request of this number, if it may be handed
/// out: if there is one, and it was neither handed out nor given up. There is room for a line more.
///
/// Refused as BadEvent if no request has this number, then as OutOfMemory.
pub fn prepare_handing(
    side: &ClientSide,
    logs: &mut Vec<Vec<Line>>,
    request: usize,
) -> Result<Option<usize>, Refusal>
    ensures logs { lines_in logs.new.items ≡ lines_in logs.old.items }
    ensures ready { MatchResult result
        (IsReadyToHand request side.now logs.new.items)
        (IsUnasked request side.now) }
{
    if request >= side.names.requests.len() {
        return Err(Refusal::BadEvent);
    }
    let (_, meant) = side.names.requests[request];
    let place = outcome_of(logs, side.life, request, meant);
    reserve_lines(logs, side.life, 1)?;
    Ok(place)
}

// The place of that line in the log of a life.
fn outcome_of(logs: &[Vec<Line>], life: usize, request: usize, meant: Intent) -> Option<usize>
    ensures { HandsOut (log_of life (lines_in logs.now)) request (intent_of meant) result }
{
    if life >= logs.len() {
        return None;
    }
    outcome_in(&logs[life], request, meant)
}

// The place of that line in this log.
fn outcome_in(log: &[Line], request: usize, meant: Intent) -> Option<usize>
    ensures { HandsOut (map line_of log.now) request (intent_of meant) result }
{
    if is_over(log, request) {
        return None;
    }
    outcome_line(log, meant)
}

// Whether what became of the request was handed out, or given up.
fn is_over(log: &[Line], request: usize) -> bool
    ensures { result ≡ list_any (λ l. hands_out request (line_of l)) log.now }
{
    log.iter().any(|line| is_handed(line, request))
}

// Whether this line hands out what became of the request, or gives it up.
fn is_handed(line: &Line, request: usize) -> bool
    ensures { result ≡ hands_out request (line_of line.now) }
{
    match line {
        Line::Collected(number, place) => match place {
            Some(_) => *number == request,
            None => false,
        },
        Line::GaveUp(number, _) => *number == request,
        Line::Opened(_, _) => false,
        Line::Called(_, _) => false,
        Line::Noticed(_, _) => false,
        Line::Updated(_, _) => false,
        Line::Refused(_) => false,
    }
}

// The place of the first line that says what became of what was meant so.
fn outcome_line(log: &[Line], meant: Intent) -> Option<usize>
    ensures { ToldAt log.now meant result }
{
    for place in 0..log.len() {
        if tells(&log[place], meant) {
            return Some(place);
        }
    }
    None
}

// Whether this line says it.
fn tells(line: &Line, meant: Intent) -> bool
    ensures { Tells meant line.now result }
{
    match line {
        Line::Noticed(told, _) => is_same(*told, meant),
        Line::Opened(_, _) => false,
        Line::Called(_, _) => false,
        Line::Updated(_, _) => false,
        Line::Refused(_) => false,
        Line::Collected(_, _) => false,
        Line::GaveUp(_, _) => false,
    }
}

fn is_same(a: Intent, b: Intent) -> bool
    ensures { IfSame a b result }
{
    a == b
}
