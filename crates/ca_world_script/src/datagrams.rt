//! The lines `dgram` and `cut`, which name an end by `client` or `server`.
ghost use Rattle.std.specs.Prelude.{IfErr, IfOk};
ghost use Rattle.ca_events.specs.Events.{event_of};
ghost use Rattle.ca_script.specs.Grammar.{Refuses};
ghost use Rattle.ca_script.specs.Lines.{IsHex};
ghost use Rattle.ca_world_script.specs.Events.{SaysCut, SaysDatagram};

use crate::clients::read_address;
use crate::values::end_in;
use ca_events::Event;
use ca_script::Words;
use ca_text::Refusal;
use hex::FromHexError;
use std::alloc::Global;

// `client C FROM HEX`, `server S FROM HEX`, after the verb. Refused as BadText,
// then as OutOfMemory.
pub(crate) fn read_datagram(alloc: Global, mut words: Words<'_>) -> Result<Event, Refusal>
    ensures ok { IfOk result (λ e. SaysDatagram words.entry (event_of e)) }
    ensures err { IfErr result (λ e. Refuses (SaysDatagram words.entry) e) }
{
    let end = words.word()?;
    let number = words.number()?;
    let sender = words.word()?;
    let digits = words.word()?;
    words.end()?;
    let at_client = end_in(end)?;
    let from = read_address(sender)?;
    let bytes = bytes_in(alloc, digits)?;
    if at_client {
        return Ok(Event::ClientDatagram {
            client: number,
            from,
            bytes,
        });
    }
    Ok(Event::ServerDatagram {
        server: number,
        from,
        bytes,
    })
}

// The bytes of a word's hexadecimal digits. Refused as BadText, then as OutOfMemory.
fn bytes_in(alloc: Global, word: &[u8]) -> Result<Vec<u8>, Refusal>
    ensures ok { IfOk result (λ v. IsHex word.now v.items) }
    ensures err { IfErr result (λ e. Refuses (IsHex word.now) e) }
{
    match hex::decode(alloc, word) {
        Ok(bytes) => Ok(bytes),
        Err(why) => match why {
            FromHexError::OutOfMemory => Err(Refusal::OutOfMemory),
            FromHexError::InvalidHexCharacter { .. } => Err(Refusal::BadText),
            FromHexError::OddLength => Err(Refusal::BadText),
            FromHexError::InvalidStringLength => Err(Refusal::BadText),
        },
    }
}

// `K client|server`, after the verb. Refused as BadText.
pub(crate) fn read_cut(mut words: Words<'_>) -> Result<Event, Refusal>
    ensures ok { IfOk result (λ e. SaysCut words.entry (event_of e)) }
    ensures err { IfErr result (λ e. Refuses (SaysCut words.entry) e) }
{
    let circuit = words.number()?;
    let end = words.word()?;
    words.end()?;
    if end_in(end)? {
        return Ok(Event::CutClient { circuit });
    }
    Ok(Event::CutServer { circuit })
}
