//! The lines of events by their verbs, but for `post` and `add`: one `match` in `read_event`.
ghost use Rattle.std.specs.Prelude.{◌<◌, IfErr, IfOk};
ghost use Rattle.ca_text.specs.declared.refusal.Refusal.TheVariants.{BadText};
ghost use Rattle.ca_dbr.specs.Elements.{elements};
ghost use Rattle.ca_events.specs.Events.{event_of};
ghost use Rattle.ca_script.specs.Grammar.{Refuses};
ghost use Rattle.ca_world_script.specs.Events.{Says, SaysNamed, SaysOpen, SaysSubscribe};
ghost use Rattle.ca_world_script.specs.Events.{SaysWritten};
ghost use Rattle.ca_world_script.specs.declared.verb.Verb.TheVariants.{Read, Write, WriteNotify};

use crate::datagrams::{read_cut, read_datagram};
use crate::values::{base_at, mask_of};
use crate::verb::Verb;
use ca_dbr::Value;
use ca_events::Event;
use ca_script::{Words, four_numbers, one_number, read_value, two_numbers};
use ca_text::Refusal;
use std::alloc::Global;

// Reads an event from the words after its verb. Refused as BadText, then as OutOfMemory.
pub(crate) fn read_event(alloc: Global, verb: Verb, words: Words<'_>) -> Result<Event, Refusal>
    ensures ok { IfOk result (λ e. Says verb words.entry (event_of e)) }
    ensures err { IfErr result (λ e. Refuses (Says verb words.entry) e) }
{
    match verb {
        Verb::Open => read_open(alloc, words),
        Verb::Clear => two_numbers(words).map(|(client, channel)| Event::Clear { client, channel }),
        Verb::Read => read_read(words),
        Verb::Write => read_write(alloc, words),
        Verb::WriteNotify => read_write_notify(alloc, words),
        Verb::Subscribe => read_subscribe(words),
        Verb::Unsubscribe => two_numbers(words).map(|(client, subscription)| Event::Unsubscribe {
            client,
            subscription,
        }),
        Verb::Collect => two_numbers(words).map(|(client, request)| Event::Collect {
            client,
            request,
        }),
        Verb::GiveUp => two_numbers(words).map(|(client, request)| Event::GiveUp {
            client,
            request,
        }),
        Verb::Datagram => read_datagram(alloc, words),
        Verb::Accept => one_number(words).map(|client| Event::Accept { client }),
        Verb::Up => two_numbers(words).map(|(circuit, bytes)| Event::Up { circuit, bytes }),
        Verb::Down => two_numbers(words).map(|(circuit, bytes)| Event::Down { circuit, bytes }),
        Verb::ServerStep => one_number(words).map(|circuit| Event::ServerStep { circuit }),
        Verb::ClientStep => one_number(words).map(|circuit| Event::ClientStep { circuit }),
        Verb::Pump => one_number(words).map(|circuit| Event::Pump { circuit }),
        Verb::Cut => read_cut(words),
        Verb::ClientRestart => one_number(words).map(|client| Event::ClientRestart { client }),
        Verb::ServerRestart => one_number(words).map(|server| Event::ServerRestart { server }),
        Verb::Finish => named(alloc, words).map(|(server, name)| Event::Finish { server, name }),
        Verb::Remove => named(alloc, words).map(|(server, name)| Event::Remove { server, name }),
        Verb::Tick => one_number(words).map(|moment| Event::Tick { moment }),
    }
}

// `C NAME PRIORITY`, after the verb.
fn read_open(alloc: Global, mut words: Words<'_>) -> Result<Event, Refusal>
    ensures ok { IfOk result (λ e. SaysOpen words.entry (event_of e)) }
    ensures err { IfErr result (λ e. Refuses (SaysOpen words.entry) e) }
{
    let client = words.number()?;
    let name = words.word()?;
    let priority = words.number()?;
    words.end()?;
    let name = Vec::from_slice(alloc, name)?;
    Ok(Event::Open {
        client,
        name,
        priority,
    })
}

// `C CH TYPE COUNT`, after the verb.
fn read_read(words: Words<'_>) -> Result<Event, Refusal>
    ensures ok { IfOk result (λ e. Says Read words.entry (event_of e)) }
    ensures err { IfErr result (λ e. Refuses (Says Read words.entry) e) }
{
    let (client, channel, data_type, count) = four_numbers(words)?;
    Ok(Event::Read {
        client,
        channel,
        data_type,
        count,
    })
}

// `C CH TYPE V..`, after the verb.
fn read_write(alloc: Global, words: Words<'_>) -> Result<Event, Refusal>
    ensures ok { IfOk result (λ e. Says Write words.entry (event_of e)) }
    ensures err { IfErr result (λ e. Refuses (Says Write words.entry) e) }
{
    let (client, channel, value) = written(alloc, words)?;
    Ok(Event::Write {
        client,
        channel,
        value,
    })
}

// `C CH TYPE V..`, after the verb.
fn read_write_notify(alloc: Global, words: Words<'_>) -> Result<Event, Refusal>
    ensures ok { IfOk result (λ e. Says WriteNotify words.entry (event_of e)) }
    ensures err { IfErr result (λ e. Refuses (Says WriteNotify words.entry) e) }
{
    let (client, channel, value) = written(alloc, words)?;
    Ok(Event::WriteNotify {
        client,
        channel,
        value,
    })
}

// `C CH TYPE COUNT MASK`, after the verb.
fn read_subscribe(mut words: Words<'_>) -> Result<Event, Refusal>
    ensures ok { IfOk result (λ e. SaysSubscribe words.entry (event_of e)) }
    ensures err { IfErr result (λ e. Refuses (SaysSubscribe words.entry) e) }
{
    let client = words.number()?;
    let (channel, data_type, count, mask) = four_numbers(words)?;
    let mask = mask_of(mask)?;
    Ok(Event::Subscribe {
        client,
        channel,
        data_type,
        count,
        mask,
    })
}

// `C CH TYPE V..`, after the verb: the client, the channel and the value.
fn written(alloc: Global, mut words: Words<'_>) -> Result<(u64, u64, Box<Value>), Refusal>
    ensures ok { IfOk result (λ r. SaysWritten words.entry (r.0, r.1, elements r.2.value)) }
    ensures err { IfErr result (λ e. Refuses (SaysWritten words.entry) e) }
{
    let client = words.number()?;
    let channel = words.number()?;
    let number = words.number()?;
    let base = base_at(number)?;
    let value = read_value(alloc, base, words)?;
    let boxed = Box::new(alloc, value)?;
    Ok((client, channel, boxed))
}

// `S RECORD`, after the verb: the server and the name.
fn named(alloc: Global, mut words: Words<'_>) -> Result<(u64, Vec<u8>), Refusal>
    ensures ok { IfOk result (λ r. SaysNamed words.entry (r.0, r.1.items)) }
    ensures err { IfErr result (λ e. Refuses (SaysNamed words.entry) e) }
{
    let server = words.number()?;
    let name = words.word()?;
    words.end()?;
    let name = Vec::from_slice(alloc, name)?;
    Ok((server, name))
}
