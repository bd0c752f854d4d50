//! One circuit is served from a source to a sink.
ghost use Rattle.std.specs.Prelude.{◌+◌, ◌<◌, ◌≤◌, ◌^◌};
ghost use Rattle.ca_text.specs.Limits.{engine_turns};
ghost use Rattle.ca_answer.specs.Answering.{Streams};

use crate::engine::StreamEngine;
use ca_link::{Sink, Source};
use ca_records::{Records, Rule};
use ca_text::{ENGINE_TURNS, Refusal};

/// Bytes that are asked for in a read.
const READ_SIZE: usize = 65_536;

/// Serves one circuit, with these records under these rules: reads the messages that the source
/// gives, and writes what they are answered by to the sink before it reads again. After each
/// message all busy records are finished, and updates are pumped once.
///
/// It ends without refusal at the end of input, also inside a message. 2 and 3 come at a bad
/// header, after all messages before it were answered; 23 if the source or the sink failed, or
/// another call of theirs is needed after 1,048,576 of them; 1 if there was no memory.
pub fn answer_stream<S: Source, K: Sink>(
    source: &mut S,
    sink: &mut K,
    records: &Records,
    rules: Vec<Rule>,
) -> Result<(), Refusal>
    requires source_calls { S.call_count source.old < 2 ^ 63 }
    requires source_faults { S.fault_count source.old < 2 ^ 63 }
    requires sink_calls { K.call_count sink.old < 2 ^ 63 }
    requires sink_faults { K.fault_count sink.old < 2 ^ 63 }
    ensures answers { Streams S.gives K.takes S.call_count K.call_count S.fault_count K.fault_count
        rules.items records.now source.old source.new sink.old sink.new result }
    ensures turns { S.call_count source.new + K.call_count sink.new
        ≤ S.call_count source.old + K.call_count sink.old + engine_turns }
{
    let mut buffer = vec![in *rules.allocator(); 0u8; READ_SIZE]?;
    let mut engine = StreamEngine::new(records, rules)?;
    let mut turns = 0;
    while turns < ENGINE_TURNS {
        turns += 1;
        let n = source.read(&mut buffer)?;
        if n == 0 {
            return Ok(());
        }
        engine.give(&buffer[..n])?;
        engine.drain(sink, &mut turns)?;
    }
    Err(Refusal::Device)
}
