//! Which line the first word asks for, of those without threads. What follows it is read by that
//! line's own `line.rt`.
ghost use Rattle.std.specs.Prelude.{◌≡◌, IfErr, IfOk, map, string_bytes};
ghost use Rattle.ca_text.specs.declared.refusal.Refusal.TheVariants.{OutOfMemory};
ghost use Rattle.ca.specs.Lines.{IsLine};

use crate::answer::{AnswerLine, read_answer};
use crate::repeater::{RepeaterLine, read_repeater};
use crate::replay::{ReplayLine, read_replay};
use crate::words::after;
use ca_text::Refusal;
use std::alloc::Global;

/// What the program's words ask for.
#[derive(Clone, Copy, Debug, PartialEq, Eq)]
pub enum CommandLine<'a> {
    /// `answer`: answers one circuit, from standard input to standard output.
    Answer(AnswerLine<'a>),
    /// `repeater`: hands datagrams on among the host's clients.
    Repeater(RepeaterLine),
    /// `replay`: runs a script's events in a world, and prints the report.
    Replay(ReplayLine<'a>),
}

/// Reads the words after the program's name: none if they are not understood.
pub fn read_line<'a>(alloc: Global, words: &'a [String]) -> Result<Option<CommandLine<'a>>, Refusal>
    ensures ok { IfOk result (IsLine (map string_bytes words.entry.now)) }
    ensures err { IfErr result (λ e. e ≡ OutOfMemory) }
{
    if let Some(rest) = after(words, "answer") {
        return match read_answer(alloc, rest) {
            Ok(Some(line)) => Ok(Some(CommandLine::Answer(line))),
            Ok(None) => Ok(None),
            Err(refusal) => Err(refusal),
        };
    }
    if let Some(rest) = after(words, "repeater") {
        return match read_repeater(alloc, rest) {
            Ok(Some(line)) => Ok(Some(CommandLine::Repeater(line))),
            Ok(None) => Ok(None),
            Err(refusal) => Err(refusal),
        };
    }
    if let Some(rest) = after(words, "replay") {
        return match read_replay(alloc, rest) {
            Ok(Some(line)) => Ok(Some(CommandLine::Replay(line))),
            Ok(None) => Ok(None),
            Err(refusal) => Err(refusal),
        };
    }
    Ok(None)
}
