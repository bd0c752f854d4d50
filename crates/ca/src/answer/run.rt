//! The run of `answer`, from the inside out: `serve` serves, `answer_run` makes an exit status of
//! the outcome, and `answer_file` first reads the records from a file.
ghost use Rattle.std.specs.Prelude.{◌+◌, ◌<◌, ◌≤◌, ◌^◌, IfErr, IfOk, Some, option_map};
ghost use Rattle.ca_text.specs.Limits.{engine_turns};
ghost use Rattle.ca_script.specs.Grammar.{Refuses};
ghost use Rattle.ca_script.specs.RecordFiles.{file_reading};
ghost use Rattle.ca.specs.Runs.{RunsFrom, RunsTo, Says, Serves};

use crate::answer::standing::standing_records;
use crate::file::bytes_of;
use ca_answer::answer_stream;
use ca_link::{Sink, Source, report};
use ca_script::{RecordFile, read_records};
use ca_text::Refusal;
use std::alloc::Global;
use std::io::{self, Read, Write};

/// Serves one circuit over the records and rules that a text says, or over the standing
/// records, under no rules. A text that is not understood is refused as BadText before anything
/// is read of the circuit.
pub fn serve<S: Source, K: Sink>(
    alloc: Global,
    records: Option<&[u8]>,
    source: &mut S,
    sink: &mut K,
) -> Result<(), Refusal>
    requires source_calls { S.call_count source.old < 2 ^ 63 }
    requires source_faults { S.fault_count source.old < 2 ^ 63 }
    requires sink_calls { K.call_count sink.old < 2 ^ 63 }
    requires sink_faults { K.fault_count sink.old < 2 ^ 63 }
    ensures serves { Serves S.gives K.takes S.call_count K.call_count S.fault_count K.fault_count
        source.old source.new sink.old sink.new (option_map (λ t. t.now) records.entry) result }
    ensures turns { S.call_count source.new + K.call_count sink.new
        ≤ S.call_count source.old + K.call_count sink.old + engine_turns }
{
    match served(alloc, records) {
        Ok(RecordFile { records, rules }) => answer_stream(source, sink, &records, rules),
        Err(refusal) => Err(refusal),
    }
}

/// The records and rules that a text says, or the standing records, under no rules.
fn served(alloc: Global, records: Option<&[u8]>) -> Result<RecordFile, Refusal>
    ensures ok { IfOk result (λ file.
        Says (option_map (λ t. t.now) records.entry) (file_reading file)) }
    ensures err { IfErr result (λ e. Refuses (Says (option_map (λ t. t.now) records.entry)) e) }
{
    match records {
        Some(text) => read_records(alloc, text),
        None => match standing_records(alloc) {
            Ok(records) => Ok(RecordFile {
                records,
                rules: Vec::new(alloc),
            }),
            Err(refusal) => Err(refusal),
        },
    }
}

/// Serves one circuit over the records that a text says, or the standing ones, reports a refusal on
/// `err`, and returns the exit status.
pub fn answer_run<S: Source, K: Sink, W: Write>(
    alloc: Global,
    records: Option<&[u8]>,
    source: &mut S,
    sink: &mut K,
    err: &mut W,
) -> u8
    requires source_calls { S.call_count source.old < 2 ^ 63 }
    requires source_faults { S.fault_count source.old < 2 ^ 63 }
    requires sink_calls { K.call_count sink.old < 2 ^ 63 }
    requires sink_faults { K.fault_count sink.old < 2 ^ 63 }
    ensures runs { RunsTo S.gives K.takes S.call_count K.call_count S.fault_count K.fault_count
        source.old source.new sink.old sink.new (option_map (λ t. t.now) records.entry) result }
    ensures turns { S.call_count source.new + K.call_count sink.new
        ≤ S.call_count source.old + K.call_count sink.old + engine_turns }
{
    let outcome = serve(alloc, records, source, sink);
    report(outcome, err)
}

/// Serves one circuit over the records that a file says, reports a refusal on `err`, and returns
/// the exit status. A file that could not be opened, or cannot be read, is refused as Device before
/// anything is read of the circuit.
pub fn answer_file<F: Read + Drop, S: Source, K: Sink, W: Write>(
    alloc: Global,
    file: io::Result<F>,
    source: &mut S,
    sink: &mut K,
    err: &mut W,
) -> u8
    requires source_calls { S.call_count source.old < 2 ^ 63 }
    requires source_faults { S.fault_count source.old < 2 ^ 63 }
    requires sink_calls { K.call_count sink.old < 2 ^ 63 }
    requires sink_faults { K.fault_count sink.old < 2 ^ 63 }
    ensures runs { RunsFrom S.gives K.takes S.call_count K.call_count S.fault_count K.fault_count
        source.old source.new sink.old sink.new F.remaining file result }
    ensures turns { S.call_count source.new + K.call_count sink.new
        ≤ S.call_count source.old + K.call_count sink.old + engine_turns }
{
    match bytes_of(alloc, file) {
        Ok(text) => answer_run(alloc, Some(&text), source, sink, err),
        Err(refusal) => report(Err(refusal), err),
    }
}
