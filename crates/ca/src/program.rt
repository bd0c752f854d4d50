//! `run`: the words lead to the run of one line. Its contract says how the program may end, over
//! any system and any streams.
ghost use Rattle.std.specs.Prelude.{◌<◌, ◌^◌, map, string_bytes};
ghost use Rattle.ca.specs.Programs.{Ends};
ghost use Rattle.ca.specs.declared.repeater.socket.RepeaterSocket.{RepeaterSocket};

use crate::answer::{answer_file, answer_run};
use crate::line::{CommandLine, read_line};
use crate::repeater::{RepeaterSocket, repeater_bound};
use crate::replay::replay_file;
use ca_link::{Sink, Source, not_understood, report};
use std::alloc::Global;
use std::fs::File;
use std::io::Write;
use std::net::Net;
use std::rt::Files;

/// Runs the program on the words after its name, and returns the exit status. Refusals go to `err`,
/// and how far a long run is, if that is a terminal.
pub fn run<R: Net + Files, S: Source, K: Sink, W: Write>(
    system: &R,
    alloc: Global,
    words: &[String],
    source: &mut S,
    sink: &mut K,
    err: &mut W,
    is_terminal: bool,
) -> u8
    requires source_calls { S.call_count source.old < 2 ^ 63 }
    requires source_faults { S.fault_count source.old < 2 ^ 63 }
    requires sink_calls { K.call_count sink.old < 2 ^ 63 }
    requires sink_faults { K.fault_count sink.old < 2 ^ 63 }
    ensures { Ends
        (RepeaterSocket R) S.gives K.takes S.call_count K.call_count S.fault_count K.fault_count
        source.old source.new sink.old sink.new result (map string_bytes words.now) }
{
    match read_line(alloc, words) {
        Ok(Some(CommandLine::Answer(line))) => match line.records {
            None => answer_run(alloc, None, source, sink, err),
            Some(file) => answer_file(alloc, File::open(system, file), source, sink, err),
        },
        Ok(Some(CommandLine::Repeater(line))) => {
            repeater_bound(
                alloc,
                RepeaterSocket::bind(system, line.port),
                line,
                sink,
                err,
            )
        }
        Ok(Some(CommandLine::Replay(line))) => {
            replay_file(
                alloc,
                File::open(system, line.file),
                line.seed,
                sink,
                err,
                is_terminal,
            )
        }
        Ok(None) => not_understood(err),
        Err(refusal) => report(Err(refusal), err),
    }
}
