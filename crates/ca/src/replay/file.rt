//! The run of `replay` from a file.
ghost use Rattle.std.specs.Prelude.{◌<◌, ◌^◌};
ghost use Rattle.ca.specs.Replaying.{ReplaysFrom};

use crate::file::bytes_of;
use crate::replay::replay_run;
use ca_link::{Sink, report};
use ca_text::Refusal;
use std::alloc::Global;
use std::io::{self, Read, Write};

/// Replays the script that a file holds, with the events that the seed draws if there is one,
/// reports a refusal on `err`, and returns the exit status. A file that could not be opened, or
/// cannot be read, is refused as Device.
pub fn replay_file<F: Read + Drop, K: Sink, W: Write>(
    alloc: Global,
    file: io::Result<F>,
    seed: Option<u64>,
    sink: &mut K,
    err: &mut W,
    is_terminal: bool,
) -> u8
    requires sink_calls { K.call_count sink.old < 2 ^ 63 }
    requires sink_faults { K.fault_count sink.old < 2 ^ 63 }
    ensures { ReplaysFrom F.remaining K.takes K.fault_count file seed sink.old sink.new result }
{
    match bytes_of(alloc, file) {
        Ok(script) => replay_run(alloc, &script, seed, sink, err, is_terminal),
        Err(refusal) => report(Err(refusal), err),
    }
}
