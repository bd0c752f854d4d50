//! A server with one circuit, between a source of messages and a sink of answers.
ghost use Rattle.std.specs.Prelude.{◌≡◌, ◌+◌, ◌<◌, ◌≤◌, ◌^◌, List, IfErr, IfOk, OnOk, take, true};
ghost use Rattle.ca_text.specs.declared.refusal.Refusal.TheVariants as refusal;
ghost use Rattle.ca_text.specs.Limits.{engine_turns, output_limit};
ghost use Rattle.ca_records.specs.Record.{RecordState};
ghost use Rattle.ca_records.specs.Rules.{Rule};
ghost use Rattle.ca_model.specs.ServerSteps.{Gives};
ghost use Rattle.ca_model.specs.Server.{Server};
ghost use Rattle.ca_server_core.specs.Counting.{PumpsCounting};
ghost use Rattle.ca_server_core.specs.Noting.{ServesAndPumps};
ghost use Rattle.ca_server_core.specs.Serving.{stepped};
ghost use Rattle.ca_server_circuit.specs.Stepping.{why_is};
ghost use Rattle.ca_answer.specs.Engines.{HasSent, IsNew, refusal_for, unread_size, what_waits};
ghost use Rattle.ca_answer.specs.Serving.{Comes, Drains, Hands, MakesRoom, Pumped};

use ca_arena::Handle;
use ca_link::Sink;
use ca_records::{Records, Rule};
use ca_server_core::{CoreStep, EndCause, ServerCore};
use ca_text::{ENGINE_TURNS, OUTPUT_LIMIT, Refusal, SERVER_PORT};
use ca_wire::Pipe;
use std::marker::Model;

/// A server with one circuit, and how many bytes wait on it to be handed to the sink: the answers
/// to the messages that were handled.
#[derive(Drop)]
pub(crate) struct StreamEngine {
    core: ServerCore,
    circuit: Handle,
    waiting: usize,
}

impl Model for StreamEngine {
    ghost use Rattle.ca_answer.specs.Engines.{EngineState};

    ghost Value = { EngineState };

    ghost use Rattle.std.specs.Coded.{codes};
    ghost use Rattle.ca_dbr.specs.Codes.{elements_code};

    ghost coded = { Prim.hlevel (codes, elements_code) };

    ghost view = { λ x. record { core = x.core; circuit = x.circuit; waiting = x.waiting } };
}

impl StreamEngine {
    // A server with these records under these rules, and one circuit on which no byte came.
    pub(crate) fn new(records: &Records, rules: Vec<Rule>) -> Result<StreamEngine, Refusal>
        ensures ok { IfOk result (IsNew rules.items records.now) }
        ensures err { IfErr result (λ e. e ≡ refusal.OutOfMemory) }
    {
        let mut core = ServerCore::new(SERVER_PORT, 0, records, rules)?;
        let circuit = core.accept()?;
        Ok(StreamEngine {
            core,
            circuit,
            waiting: 0,
        })
    }

    // Takes bytes that came.
    pub(crate) fn give(&mut self, bytes: &[u8]) -> Result<(), Refusal>
        ensures gives { Gives self.old.core self.old.circuit bytes.now result self.new.core }
        ensures stays { self.new ≡ record self.old { core = self.new.core } }
    {
        self.core.give(self.circuit, bytes)
    }

    // Answers the messages that came, and hands the answers to the sink: as soon as many bytes
    // wait, and before it ends.
    pub(crate) fn drain<K: Sink>(&mut self, sink: &mut K, turns: &mut u64) -> Result<(), Refusal>
        requires few { self.old.waiting < output_limit }
        requires within { turns.old ≤ engine_turns }
        requires calls { K.call_count sink.old < 2 ^ 63 + turns.old }
        requires faults { K.fault_count sink.old < 2 ^ 63 }
        ensures drains { (rules : List Rule) (states : List RecordState)
            → Drains K.takes K.fault_count rules states sink.old sink.new self.old self.new
            turns.new result }
        ensures rises { turns.old ≤ turns.new }
        ensures within { turns.new ≤ engine_turns }
        ensures calls { K.call_count sink.new + turns.old ≡ K.call_count sink.old + turns.new }
    {
        while self.answer_next(sink, turns)? {}
        Ok(())
    }

    // Answers the next message, if there is one. Else all that waits was handed to the sink first.
    fn answer_next<K: Sink>(&mut self, sink: &mut K, turns: &mut u64) -> Result<bool, Refusal>
        requires few { self.old.waiting < output_limit }
        requires within { turns.old ≤ engine_turns }
        requires calls { K.call_count sink.old < 2 ^ 63 + turns.old }
        requires faults { K.fault_count sink.old < 2 ^ 63 }
        ensures comes { (rules : List Rule) (states : List RecordState)
            → Comes K.takes K.fault_count rules states sink.old sink.new self.old self.new turns.new
            result }
        ensures few { OnOk result (self.new.waiting < output_limit) }
        ensures smaller { IfOk result (λ more.
            more ≡ true → unread_size self.new < unread_size self.old) }
        ensures rises { turns.old ≤ turns.new }
        ensures within { turns.new ≤ engine_turns }
        ensures calls { K.call_count sink.new + turns.old ≡ K.call_count sink.old + turns.new }
    {
        let mut waiting = 0;
        match self.serve_next(&mut waiting) {
            CoreStep::Handled(_) => {
                self.keep(waiting, sink, turns)?;
                Ok(true)
            }
            CoreStep::Closed(cause, left) => {
                self.hand_left(&left, sink, turns)?;
                Err(refusal_of(cause))
            }
            CoreStep::NeedBytes => {
                self.flush(sink, turns)?;
                Ok(false)
            }
            // It cannot happen: fewer bytes wait than that.
            CoreStep::OutputFull => Ok(false),
        }
    }

    // Handles the next message, finishes the record that it made busy, and pumps once. It says how
    // many bytes wait then.
    fn serve_next(&mut self, waiting: &mut usize) -> CoreStep
        ensures served { ServesAndPumps self.old.core self.old.circuit (stepped result) waiting.new
            self.new.core }
        ensures stays { self.new ≡ record self.old { core = self.new.core } }
    {
        self.core.serve_and_pump(self.circuit, waiting)
    }

    // After a message and a pump this many bytes wait. The pump was made as if nothing had waited
    // before: so then little enough waits for the next message to be handled.
    fn keep<K: Sink>(
        &mut self,
        waiting: usize,
        sink: &mut K,
        turns: &mut u64,
    ) -> Result<(), Refusal>
        requires few { self.old.waiting < output_limit }
        requires within { turns.old ≤ engine_turns }
        requires calls { K.call_count sink.old < 2 ^ 63 + turns.old }
        requires faults { K.fault_count sink.old < 2 ^ 63 }
        ensures pumped { (rules : List Rule) (states : List RecordState) (handled : Server)
            → PumpsCounting handled self.old.circuit waiting self.old.core
            → Pumped K.takes K.fault_count rules states sink.old sink.new
            (record self.old { core = handled }) self.new turns.new result }
        ensures few { OnOk result (self.new.waiting < output_limit) }
        ensures fewer { OnOk result (unread_size self.new ≤ unread_size self.old) }
        ensures rises { turns.old ≤ turns.new }
        ensures within { turns.new ≤ engine_turns }
        ensures calls { K.call_count sink.new + turns.old ≡ K.call_count sink.old + turns.new }
    {
        if waiting >= OUTPUT_LIMIT {
            return self.make_room(sink, turns);
        }
        // If the end has ended, out of memory for an update, fewer bytes wait than
        // before: those were left.
        self.waiting = self.waiting.max(waiting);
        Ok(())
    }

    // As much waits as stops a pump. Hands over what waited before the message, pumps on, and
    // hands over the rest.
    #[inline(never)]
    fn make_room<K: Sink>(&mut self, sink: &mut K, turns: &mut u64) -> Result<(), Refusal>
        requires within { turns.old ≤ engine_turns }
        requires calls { K.call_count sink.old < 2 ^ 63 + turns.old }
        requires faults { K.fault_count sink.old < 2 ^ 63 }
        ensures makes { (rules : List Rule) (states : List RecordState)
            → MakesRoom K.takes K.fault_count rules states sink.old sink.new self.old self.new
            turns.new result }
        ensures few { OnOk result (self.new.waiting < output_limit) }
        ensures fewer { OnOk result (unread_size self.new ≤ unread_size self.old) }
        ensures rises { turns.old ≤ turns.new }
        ensures within { turns.new ≤ engine_turns }
        ensures calls { K.call_count sink.new + turns.old ≡ K.call_count sink.old + turns.new }
    {
        self.flush(sink, turns)?;
        self.core.pump(self.circuit);
        self.waiting = self.core.out_bytes(self.circuit).len();
        // What is left goes too: it would be moved to the front of its memory at the next message.
        if self.waiting == 0 {
            return Ok(());
        }
        self.flush(sink, turns)?;
        Ok(())
    }

    // Hands to the sink what waited, of what an end has left. What it left after that belongs to
    // a message that was not answered completely. It is inlined, since a call would copy each
    // step, which is large.
    #[inline(always)]
    fn hand_left<K: Sink>(&self, left: &Pipe, sink: &mut K, turns: &mut u64) -> Result<(), Refusal>
        requires within { turns.old ≤ engine_turns }
        requires calls { K.call_count sink.old < 2 ^ 63 + turns.old }
        requires faults { K.fault_count sink.old < 2 ^ 63 }
        ensures hands { Hands K.takes K.fault_count sink.old (take self.now.waiting left.now)
            sink.new turns.new result }
        ensures rises { turns.old ≤ turns.new }
        ensures within { turns.new ≤ engine_turns }
        ensures calls { K.call_count sink.new + turns.old ≡ K.call_count sink.old + turns.new }
    {
        hand(sink, turns, first(left.bytes(), self.waiting))
    }

    // Hands what waits to the sink, in one call; makes none if nothing waits.
    fn flush<K: Sink>(&mut self, sink: &mut K, turns: &mut u64) -> Result<(), Refusal>
        requires within { turns.old ≤ engine_turns }
        requires calls { K.call_count sink.old < 2 ^ 63 + turns.old }
        requires faults { K.fault_count sink.old < 2 ^ 63 }
        ensures hands { Hands K.takes K.fault_count sink.old (what_waits self.old) sink.new
            turns.new result }
        ensures sent { OnOk result (HasSent self.old self.new) }
        ensures rises { turns.old ≤ turns.new }
        ensures within { turns.new ≤ engine_turns }
        ensures calls { K.call_count sink.new + turns.old ≡ K.call_count sink.old + turns.new }
    {
        let bytes = first(self.core.out_bytes(self.circuit), self.waiting);
        let n = bytes.len();
        hand(sink, turns, bytes)?;
        self.core.sent(self.circuit, n);
        self.waiting = 0;
        Ok(())
    }
}

// The first n of these bytes: all of them, if they are fewer.
fn first(bytes: &[u8], n: usize) -> &[u8]
    ensures { result.now ≡ take n bytes.now }
{
    if n < bytes.len() { &bytes[..n] } else { bytes }
}

// Hands bytes to the sink in one call, or makes none if there are none.
#[inline(never)]
fn hand<K: Sink>(sink: &mut K, turns: &mut u64, bytes: &[u8]) -> Result<(), Refusal>
    requires within { turns.old ≤ engine_turns }
    requires calls { K.call_count sink.old < 2 ^ 63 + turns.old }
    requires faults { K.fault_count sink.old < 2 ^ 63 }
    ensures hands { Hands K.takes K.fault_count sink.old bytes.now sink.new turns.new result }
    ensures rises { turns.old ≤ turns.new }
    ensures within { turns.new ≤ engine_turns }
    ensures calls { K.call_count sink.new + turns.old ≡ K.call_count sink.old + turns.new }
{
    if bytes.is_empty() {
        return Ok(());
    }
    if *turns == ENGINE_TURNS {
        return Err(Refusal::Device);
    }
    *turns += 1;
    sink.write(bytes)?;
    Ok(())
}

// The refusal for which the end of a circuit ended.
fn refusal_of(cause: EndCause) -> Refusal
    ensures { result ≡ refusal_for (why_is cause) }
{
    match cause {
        EndCause::Misaligned => Refusal::Misaligned,
        EndCause::TooLarge => Refusal::TooLarge,
        _ => Refusal::OutOfMemory,
    }
}
