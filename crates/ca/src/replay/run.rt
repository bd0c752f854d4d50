//! The run of `replay` from the text of a script. What was done is in the report also if the next
//! event is refused.
ghost use Rattle.std.specs.Prelude.{◌≡◌, ◌<◌, ◌^◌};
ghost use Rattle.ca.specs.Replaying.{Replays, ReplaysTo, ended};

use ca_link::{Sink, report as tell};
use ca_replay::replay as replayed;
use ca_text::Refusal;
use std::alloc::Global;
use std::io::Write;

/// Runs the events of a script in its world, with those that the seed draws if there is one, writes
/// the report, reports a refusal on `err`, and returns the exit status. A long run tells on `err`
/// how far it is, if that is a terminal.
///
/// A line that is not understood is refused as BadText before any event; an event that
/// cannot be done as BadEvent, after the report of those before it; an output that cannot
/// be written as Device.
pub fn replay_run<K: Sink, W: Write>(
    alloc: Global,
    script: &[u8],
    seed: Option<u64>,
    sink: &mut K,
    err: &mut W,
    is_terminal: bool,
) -> u8
    requires sink_calls { K.call_count sink.old < 2 ^ 63 }
    requires sink_faults { K.fault_count sink.old < 2 ^ 63 }
    ensures { ReplaysTo K.takes K.fault_count script.now seed sink.old sink.new result }
{
    let outcome = replay(alloc, script, seed, sink, err, is_terminal);
    tell(outcome, err)
}

fn replay<K: Sink, W: Write>(
    alloc: Global,
    script: &[u8],
    seed: Option<u64>,
    sink: &mut K,
    err: &mut W,
    is_terminal: bool,
) -> Result<(), Refusal>
    requires sink_calls { K.call_count sink.old < 2 ^ 63 }
    requires sink_faults { K.fault_count sink.old < 2 ^ 63 }
    ensures { Replays K.takes K.fault_count script.now seed sink.old sink.new result }
{
    match replayed(alloc, script, seed, err, is_terminal) {
        Err(refusal) => Err(refusal),
        Ok((text, stop)) => match sink.write(&text) {
            Err(_) => Err(Refusal::Device),
            Ok(()) => outcome_of(stop),
        },
    }
}

/// How a run that stopped so ended.
fn outcome_of(stop: Option<Refusal>) -> Result<(), Refusal>
    ensures { result ≡ ended stop }
{
    match stop {
        None => Ok(()),
        Some(refusal) => Err(refusal),
    }
}
