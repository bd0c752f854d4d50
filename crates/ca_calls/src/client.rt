//! The calls of a client.

use crate::answer::AnswerText;
use crate::rounds;
use crate::words::Words;
use ca_client_core::{ChannelState, ClientCore, Closing, Left, Stepped, Ticked, Why};
use ca_text::Refusal;
use std::alloc::Global;

/// A call that steps stops after this many messages.
const MESSAGES: u32 = 100_000;

/// `USER HOST NOW SERVER.. names SERVER..`.
pub fn begin(alloc: Global, line: &str) -> Result<ClientCore, Refusal> {
    let (line, names) = line.split_once(" names").unwrap_or((line, ""));
    let mut words = Words::new(line);
    let user = Vec::from_slice(alloc, words.word()?.as_bytes())?;
    let host = Vec::from_slice(alloc, words.word()?.as_bytes())?;
    let now = words.number()?;
    let servers = words.addresses(alloc)?;
    let names = Words::new(names).addresses(alloc)?;
    ClientCore::new(alloc, user, host, servers, &names, now)
}

/// Makes a call.
pub fn call(
    alloc: Global,
    core: &mut ClientCore,
    call: &str,
    words: Words<'_>,
    answer: &mut AnswerText,
) -> Result<(), Refusal> {
    match call.as_bytes() {
        b"open" => open(core, words, answer),
        b"state" => state(core, words, answer),
        b"read" => read(core, words, answer),
        b"read_display" => read_display(core, words, answer),
        b"write" => write(alloc, core, words),
        b"write_notify" => write_notify(alloc, core, words, answer),
        b"subscribe" => subscribe(core, words, answer),
        b"unsubscribe" => unsubscribe(core, words),
        b"clear" => clear(core, words, answer),
        _ => call_on_circuits(alloc, core, call, words, answer),
    }
}

fn call_on_circuits(
    alloc: Global,
    core: &mut ClientCore,
    call: &str,
    words: Words<'_>,
    answer: &mut AnswerText,
) -> Result<(), Refusal> {
    match call.as_bytes() {
        b"wanted" => wanted(core, answer),
        b"connected" => connected(core, words, answer),
        b"give" => give(alloc, core, words, false),
        b"give_more" => give(alloc, core, words, true),
        b"step" => step(core, words, answer),
        b"hear" => hear(alloc, core, words, answer),
        b"out" => out(core, words, answer),
        b"sent" => sent(core, words),
        b"take" => take(core, words, answer),
        b"cut" => cut(core, words, answer),
        b"close" => close(core, words, answer),
        b"datagram" => datagram(alloc, core, words),
        b"tick" => tick(core, words, answer),
        b"reads" => rounds::reads(alloc, core, words),
        b"ticks" => rounds::ticks(core, words),
        _ => Err(Refusal::BadText),
    }
}

/// `open NAME PRIORITY NOW`. The name `-` is the empty one.
fn open(
    core: &mut ClientCore,
    mut words: Words<'_>,
    answer: &mut AnswerText,
) -> Result<(), Refusal> {
    let name = words.word()?.as_bytes();
    let priority = words.number16()?;
    let now = words.number()?;
    let name = if name == b"-".as_slice() {
        b"".as_slice()
    } else {
        name
    };
    answer.handle(core.open(name, priority, now)?)
}

/// `state CHANNEL`.
fn state(core: &ClientCore, mut words: Words<'_>, answer: &mut AnswerText) -> Result<(), Refusal> {
    match core.channel_state(words.handle()?)? {
        ChannelState::Searching => answer.word("searching"),
        ChannelState::Connecting => answer.word("connecting"),
        ChannelState::Creating => answer.word("creating"),
        ChannelState::Live(data_type, count, rights) => {
            answer.word("live")?;
            answer.number(u64::from(data_type))?;
            answer.number(u64::from(count))?;
            answer.number(u64::from(rights))
        }
        ChannelState::Leaving => answer.word("leaving"),
    }
}

/// `read CHANNEL TYPE COUNT`.
fn read(
    core: &mut ClientCore,
    mut words: Words<'_>,
    answer: &mut AnswerText,
) -> Result<(), Refusal> {
    let channel = words.handle()?;
    let data_type = words.number16()?;
    answer.handle(core.read(channel, data_type, words.count()?)?)
}

/// `read_display CHANNEL TYPE COUNT`.
fn read_display(
    core: &mut ClientCore,
    mut words: Words<'_>,
    answer: &mut AnswerText,
) -> Result<(), Refusal> {
    let channel = words.handle()?;
    let data_type = words.number16()?;
    answer.handle(core.read_display(channel, data_type, words.count()?)?)
}

/// `write CHANNEL TYPE COUNT BYTES`.
fn write(alloc: Global, core: &mut ClientCore, mut words: Words<'_>) -> Result<(), Refusal> {
    let channel = words.handle()?;
    let (value, _) = words.value(alloc)?;
    core.write(channel, &value)
}

/// `write_notify CHANNEL TYPE COUNT BYTES`.
fn write_notify(
    alloc: Global,
    core: &mut ClientCore,
    mut words: Words<'_>,
    answer: &mut AnswerText,
) -> Result<(), Refusal> {
    let channel = words.handle()?;
    let (value, _) = words.value(alloc)?;
    answer.handle(core.write_notify(channel, &value)?)
}

/// `subscribe CHANNEL TYPE COUNT MASK`.
fn subscribe(
    core: &mut ClientCore,
    mut words: Words<'_>,
    answer: &mut AnswerText,
) -> Result<(), Refusal> {
    let channel = words.handle()?;
    let data_type = words.number16()?;
    let count = words.count()?;
    answer.handle(core.subscribe(channel, data_type, count, words.mask()?)?)
}

/// `unsubscribe SUBSCRIPTION`.
fn unsubscribe(core: &mut ClientCore, mut words: Words<'_>) -> Result<(), Refusal> {
    core.unsubscribe(words.handle()?)
}

/// `clear CHANNEL`.
fn clear(
    core: &mut ClientCore,
    mut words: Words<'_>,
    answer: &mut AnswerText,
) -> Result<(), Refusal> {
    answer.notices(core.clear(words.handle()?)?)
}

/// `wanted`.
fn wanted(core: &ClientCore, answer: &mut AnswerText) -> Result<(), Refusal> {
    for place in 0..core.circuits_listed() {
        let Some(found) = core.wanted(place) else {
            break;
        };
        answer.handle(found.circuit)?;
        answer.address(found.address)?;
        answer.number(u64::from(found.priority))?;
    }
    Ok(())
}

/// `connected CIRCUIT`.
fn connected(
    core: &mut ClientCore,
    mut words: Words<'_>,
    answer: &mut AnswerText,
) -> Result<(), Refusal> {
    match core.connected(words.handle()?) {
        None => Ok(()),
        Some(closing) => closed(closing, answer),
    }
}

/// `give CIRCUIT BYTES`, or `give_more` if bytes are left to be read.
fn give(
    alloc: Global,
    core: &mut ClientCore,
    mut words: Words<'_>,
    more: bool,
) -> Result<(), Refusal> {
    let circuit = words.handle()?;
    core.give(circuit, &words.bytes(alloc)?, more)
}

/// `step CIRCUIT`.
fn step(
    core: &mut ClientCore,
    mut words: Words<'_>,
    answer: &mut AnswerText,
) -> Result<(), Refusal> {
    match core.step(words.handle()?) {
        Stepped::Notices(notices) => answer.notices(notices),
        Stepped::NeedBytes => answer.word("needs bytes"),
        Stepped::Closed(closing) => closed(closing, answer),
    }
}

/// `hear CIRCUIT BYTES`: gives the bytes, steps until more are needed, and
/// takes what is to be sent.
fn hear(
    alloc: Global,
    core: &mut ClientCore,
    mut words: Words<'_>,
    answer: &mut AnswerText,
) -> Result<(), Refusal> {
    let circuit = words.handle()?;
    core.give(circuit, &words.bytes(alloc)?, false)?;
    for _ in 0..MESSAGES {
        match core.step(circuit) {
            Stepped::Notices(notices) => answer.notices(notices)?,
            Stepped::NeedBytes => break,
            Stepped::Closed(closing) => return closed(closing, answer),
        }
    }
    answer.bytes(core.out_bytes(circuit))?;
    core.sent(circuit, core.out_bytes(circuit).len());
    Ok(())
}

/// `out CIRCUIT`.
fn out(core: &ClientCore, mut words: Words<'_>, answer: &mut AnswerText) -> Result<(), Refusal> {
    answer.bytes(core.out_bytes(words.handle()?))
}

/// `sent CIRCUIT N`. Not understood if fewer bytes wait.
fn sent(core: &mut ClientCore, mut words: Words<'_>) -> Result<(), Refusal> {
    let circuit = words.handle()?;
    let n = words.number()? as usize;
    if n > core.out_bytes(circuit).len() {
        return Err(Refusal::BadText);
    }
    core.sent(circuit, n);
    Ok(())
}

/// `take CIRCUIT`: what is to be sent, which is then sent.
fn take(
    core: &mut ClientCore,
    mut words: Words<'_>,
    answer: &mut AnswerText,
) -> Result<(), Refusal> {
    let circuit = words.handle()?;
    let bytes = core.out_bytes(circuit);
    let n = bytes.len();
    answer.bytes(bytes)?;
    core.sent(circuit, n);
    Ok(())
}

/// `cut CIRCUIT`.
fn cut(
    core: &mut ClientCore,
    mut words: Words<'_>,
    answer: &mut AnswerText,
) -> Result<(), Refusal> {
    closed(core.cut(words.handle()?), answer)
}

/// `close CIRCUIT`.
fn close(
    core: &mut ClientCore,
    mut words: Words<'_>,
    answer: &mut AnswerText,
) -> Result<(), Refusal> {
    closed(core.close(words.handle()?), answer)
}

/// `datagram NOW FROM BYTES`.
fn datagram(alloc: Global, core: &mut ClientCore, mut words: Words<'_>) -> Result<(), Refusal> {
    let now = words.number()?;
    let from = words.address()?;
    core.datagram(now, from, &words.bytes(alloc)?)
}

/// `tick NOW`.
fn tick(
    core: &mut ClientCore,
    mut words: Words<'_>,
    answer: &mut AnswerText,
) -> Result<(), Refusal> {
    let Ticked {
        datagrams,
        closings,
    } = core.tick(words.number()?)?;
    for closing in closings {
        left(closing, answer)?;
    }
    for datagram in &datagrams {
        answer.word("to")?;
        answer.address(datagram.to)?;
        answer.bytes(&datagram.bytes)?;
    }
    Ok(())
}

fn left(closing: Left, answer: &mut AnswerText) -> Result<(), Refusal> {
    let Left {
        circuit,
        notices,
        bytes,
    } = closing;
    answer.of("silent", circuit)?;
    answer.notices(notices)?;
    answer.word("left")?;
    answer.bytes(bytes.bytes())
}

/// Why, the notices, and the bytes that are left.
fn closed(closing: Closing, answer: &mut AnswerText) -> Result<(), Refusal> {
    let Closing { why, notices, left } = closing;
    answer.word("closed")?;
    answer.word(word_of(why))?;
    answer.notices(notices)?;
    answer.word("left")?;
    answer.bytes(left.bytes())
}

fn word_of(why: Why) -> &'static str {
    match why {
        Why::OutOfMemory => "out of memory",
        Why::Misaligned => "misaligned",
        Why::TooLarge => "too large",
        Why::Silence => "silence",
        Why::Asked => "asked",
        Why::Cut => "cut",
    }
}
