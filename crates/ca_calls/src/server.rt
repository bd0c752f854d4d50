//! The calls of a server.

use crate::answer::AnswerText;
use crate::rounds;
use crate::words::Words;
use ca_script::{RecordFile, read_records};
use ca_server_core::{CoreStep, Effect, EndCause, ServerCore};
use ca_text::Refusal;
use ca_wire::Pipe;
use std::alloc::Global;

/// A call that steps stops after this many messages.
const MESSAGES: u32 = 100_000;

/// `PORT NOW`, with these lines of records and rules.
pub fn begin(alloc: Global, mut words: Words<'_>, lines: &[u8]) -> Result<ServerCore, Refusal> {
    let RecordFile { records, rules } = read_records(alloc, lines)?;
    let port = words.number16()?;
    Ok(ServerCore::new(port, words.number()?, &records, rules)?)
}

/// Makes a call.
pub fn call(
    alloc: Global,
    core: &mut ServerCore,
    call: &str,
    words: Words<'_>,
    answer: &mut AnswerText,
) -> Result<(), Refusal> {
    match call.as_bytes() {
        b"accept" => answer.handle(core.accept()?),
        b"give" => give(alloc, core, words),
        b"step" => step(core, words, answer),
        b"handle" => handle(alloc, core, words, answer),
        b"pump" => pump(core, words),
        b"out" => out(core, words, answer),
        b"sent" => sent(core, words),
        b"take" => take(core, words, answer),
        b"cut" => cut(core, words),
        _ => call_on_records(alloc, core, call, words, answer),
    }
}

fn call_on_records(
    alloc: Global,
    core: &mut ServerCore,
    call: &str,
    words: Words<'_>,
    answer: &mut AnswerText,
) -> Result<(), Refusal> {
    match call.as_bytes() {
        b"post" => post(alloc, core, words),
        b"finish" => finish(core, words),
        b"remove" => remove(core, words),
        b"add" => add(alloc, core, words),
        b"datagram" => datagram(alloc, core, words, answer),
        b"beacon" => beacon(core, words, answer),
        b"stamp" => stamp(core, words),
        b"handles" => rounds::handles(alloc, core, words),
        b"posts" => rounds::posts(alloc, core, words),
        b"applied" => answer.number(core.applied()),
        b"waiting" => answer.number(core.waiting()),
        _ => Err(Refusal::BadText),
    }
}

/// `give CIRCUIT BYTES`.
fn give(alloc: Global, core: &mut ServerCore, mut words: Words<'_>) -> Result<(), Refusal> {
    let circuit = words.handle()?;
    core.give(circuit, &words.bytes(alloc)?)
}

/// `step CIRCUIT`: the effect of the message that it handled, with its ids in decimal.
fn step(
    core: &mut ServerCore,
    mut words: Words<'_>,
    answer: &mut AnswerText,
) -> Result<(), Refusal> {
    match core.step(words.handle()?) {
        CoreStep::Handled(effect) => did(effect, answer),
        CoreStep::NeedBytes => answer.word("needs bytes"),
        CoreStep::OutputFull => answer.word("output full"),
        CoreStep::Closed(cause, left) => closed(cause, &left, answer),
    }
}

/// An effect: nothing if it is quiet.
fn did(effect: Effect, answer: &mut AnswerText) -> Result<(), Refusal> {
    match effect {
        Effect::Quiet => Ok(()),
        Effect::Queued(sid) => on("queued", &[sid], answer),
        Effect::Refused => answer.word("no channel"),
        Effect::WriteRefused(sid) => on("write refused", &[sid], answer),
        Effect::Cleared(sid) => on("cleared", &[sid], answer),
        Effect::Cancelled(sid, sub) => on("cancelled", &[sid, sub], answer),
        Effect::Switched(true) => answer.word("events on"),
        Effect::Switched(false) => answer.word("events off"),
        Effect::Wrote(sid) => on("wrote", &[sid], answer),
        Effect::Busied(sid) => on("busied", &[sid], answer),
        Effect::Subscribed(sid, sub) => on("subscribed", &[sid, sub], answer),
        Effect::Created(sid) => on("created", &[sid], answer),
    }
}

/// A word, and ids.
fn on(word: &str, ids: &[u32], answer: &mut AnswerText) -> Result<(), Refusal> {
    answer.word(word)?;
    for id in ids {
        answer.number(u64::from(*id))?;
    }
    Ok(())
}

/// `handle CIRCUIT BYTES`: gives the bytes, steps until no message is handled, pumps, and
/// takes what is to be sent.
fn handle(
    alloc: Global,
    core: &mut ServerCore,
    mut words: Words<'_>,
    answer: &mut AnswerText,
) -> Result<(), Refusal> {
    let circuit = words.handle()?;
    core.give(circuit, &words.bytes(alloc)?)?;
    for _ in 0..MESSAGES {
        match core.step(circuit) {
            CoreStep::Handled(_) => {}
            CoreStep::NeedBytes => break,
            CoreStep::OutputFull => return answer.word("output full"),
            CoreStep::Closed(cause, left) => return closed(cause, &left, answer),
        }
    }
    core.pump(circuit);
    answer.bytes(core.out_bytes(circuit))?;
    core.sent(circuit, core.out_bytes(circuit).len());
    Ok(())
}

/// `pump CIRCUIT`.
fn pump(core: &mut ServerCore, mut words: Words<'_>) -> Result<(), Refusal> {
    core.pump(words.handle()?);
    Ok(())
}

/// `out CIRCUIT`.
fn out(core: &ServerCore, mut words: Words<'_>, answer: &mut AnswerText) -> Result<(), Refusal> {
    answer.bytes(core.out_bytes(words.handle()?))
}

/// `sent CIRCUIT N`. Not understood if fewer bytes wait.
fn sent(core: &mut ServerCore, mut words: Words<'_>) -> Result<(), Refusal> {
    let circuit = words.handle()?;
    let n = words.number()? as usize;
    if n > core.out_bytes(circuit).len() {
        return Err(Refusal::BadText);
    }
    core.sent(circuit, n);
    Ok(())
}

/// `take CIRCUIT`: what is to be sent, which is then sent.
fn take(
    core: &mut ServerCore,
    mut words: Words<'_>,
    answer: &mut AnswerText,
) -> Result<(), Refusal> {
    let circuit = words.handle()?;
    let bytes = core.out_bytes(circuit);
    let n = bytes.len();
    answer.bytes(bytes)?;
    core.sent(circuit, n);
    Ok(())
}

/// `cut CIRCUIT`.
fn cut(core: &mut ServerCore, mut words: Words<'_>) -> Result<(), Refusal> {
    core.cut(words.handle()?);
    Ok(())
}

/// `post NAME MASK TYPE COUNT BYTES`: the type may carry an alarm and a time stamp.
fn post(alloc: Global, core: &mut ServerCore, mut words: Words<'_>) -> Result<(), Refusal> {
    let name = words.word()?.as_bytes();
    let mask = words.number16()?;
    let (value, meta) = words.value(alloc)?;
    core.post(name, value, meta, mask)
}

/// `finish NAME`.
fn finish(core: &mut ServerCore, mut words: Words<'_>) -> Result<(), Refusal> {
    core.finish(words.word()?.as_bytes())
}

/// `remove NAME`.
fn remove(core: &mut ServerCore, mut words: Words<'_>) -> Result<(), Refusal> {
    core.remove_record(words.word()?.as_bytes())
}

/// `add NAME MOST quick|slow TYPE COUNT BYTES`.
fn add(alloc: Global, core: &mut ServerCore, mut words: Words<'_>) -> Result<(), Refusal> {
    let name = words.word()?.as_bytes();
    let count = words.count()?;
    let slow = words.word()? == "slow";
    let (value, _) = words.value(alloc)?;
    core.add_record(name, count, slow, value)
}

/// `datagram BYTES`.
fn datagram(
    alloc: Global,
    core: &ServerCore,
    mut words: Words<'_>,
    answer: &mut AnswerText,
) -> Result<(), Refusal> {
    for reply in &core.datagram(&words.bytes(alloc)?)? {
        answer.word("datagram")?;
        answer.bytes(reply)?;
    }
    Ok(())
}

/// `beacon NOW`.
fn beacon(
    core: &mut ServerCore,
    mut words: Words<'_>,
    answer: &mut AnswerText,
) -> Result<(), Refusal> {
    match core.beacon(words.number()?) {
        Some(bytes) => answer.bytes(&bytes),
        None => answer.word("nothing"),
    }
}

/// `stamp SECONDS NANOS`.
fn stamp(core: &mut ServerCore, mut words: Words<'_>) -> Result<(), Refusal> {
    let seconds = words.count()?;
    core.stamp(seconds, words.count()?);
    Ok(())
}

/// The cause, and the bytes that are left.
fn closed(cause: EndCause, left: &Pipe, answer: &mut AnswerText) -> Result<(), Refusal> {
    answer.word("closed")?;
    answer.word(match cause {
        EndCause::OutOfMemory => "out of memory",
        EndCause::Misaligned => "misaligned",
        EndCause::TooLarge => "too large",
        EndCause::Cut => "cut",
    })?;
    answer.word("left")?;
    answer.bytes(left.bytes())
}
