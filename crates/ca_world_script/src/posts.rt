//! The lines `post` and `add`. A post does not name its type: that is its record's, by the lines
//! above it.
ghost use Rattle.std.specs.Prelude.{◌≡◌, ◌<◌, ℕ, IfErr, IfOk, IfSome, MatchOption, length};
ghost use Rattle.ca_text.specs.Place.{At};
ghost use Rattle.ca_text.specs.declared.refusal.Refusal.TheVariants.{BadText};
ghost use Rattle.ca_dbr.specs.declared.data_type.BaseType.{BaseType};
ghost use Rattle.ca_events.specs.Events.{event_of, record_of};
ghost use Rattle.ca_records.specs.Record.{RecordState};
ghost use Rattle.ca_script.specs.Grammar.{Refuses};
ghost use Rattle.ca_world_script.specs.Events.{SaysAdd, SaysPost};
ghost use Rattle.ca_world_script.specs.Index.{added_of};
ghost use Rattle.ca_world_script.specs.Types.{HasType, IsRecorded};

use crate::types::Types;
use crate::values::mask_of;
use ca_dbr::{BaseType, Value};
use ca_events::{Addition, Event, Posting};
use ca_script::{Words, base_in, read_value, slow_in};
use ca_text::Refusal;
use ca_world_data::settings::ServerSetting;
use std::alloc::Global;

// `S RECORD MASK V..`, after the verb. Refused as BadText, then as OutOfMemory.
pub(crate) fn read_post(
    alloc: Global,
    servers: &[ServerSetting],
    types: &Types,
    mut words: Words<'_>,
) -> Result<Event, Refusal>
    ensures ok { IfOk result (λ e.
        SaysPost servers.now (added_of types.now) words.entry (event_of e)) }
    ensures err { IfErr result (λ e.
        Refuses (SaysPost servers.now (added_of types.now) words.entry) e) }
{
    let server = words.number()?;
    let name = words.word()?;
    let mask = words.number()?;
    let mask = mask_of(mask)?;
    let base = type_of(alloc, servers, types, server, name)?;
    let value = read_value(alloc, base, words)?;
    let name = Vec::from_slice(alloc, name)?;
    let posting = Posting {
        server,
        name,
        value,
        mask,
    };
    let boxed = Box::new(alloc, posting)?;
    Ok(Event::Post(boxed))
}

// The type of a record by the lines above. Refused as BadText, then as OutOfMemory.
fn type_of(
    alloc: Global,
    servers: &[ServerSetting],
    types: &Types,
    server: u64,
    name: &[u8],
) -> Result<BaseType, Refusal>
    ensures ok { IfOk result (HasType servers.now (added_of types.now) server name.now) }
    ensures only { IfOk result (λ b.
        (c : BaseType) → HasType servers.now (added_of types.now) server name.now c → c ≡ b) }
    ensures err { IfErr result
        (Refuses (HasType servers.now (added_of types.now) server name.now)) }
{
    let key = Vec::from_slice(alloc, name)?;
    if let Some(base) = types.named(server, key) {
        return Ok(base);
    }
    match recorded(servers, server, name) {
        Some(base) => Ok(base),
        None => Err(Refusal::BadText),
    }
}

// The type of a record by the lines of its server.
fn recorded(servers: &[ServerSetting], server: u64, name: &[u8]) -> Option<BaseType>
    ensures found { MatchOption result
        ((b : BaseType) → IsRecorded servers.now server name.now b → ⊥)
        (IsRecorded servers.now server name.now) }
    ensures only { IfSome result (λ b.
        (c : BaseType) → IsRecorded servers.now server name.now c → c ≡ b) }
{
    let Ok(place) = usize::try_from(server) else {
        return None;
    };
    if place >= servers.len() {
        return None;
    }
    let line = server_at(servers, place);
    match line.records.find(name) {
        Some(at) => Some(line.records.at(at).held().value().base_type()),
        None => None,
    }
}

// The server at this place.
fn server_at(servers: &[ServerSetting], place: usize) -> &ServerSetting
    requires { place < length servers.now }
    ensures { At servers.now place result.now }
{
    &servers[place]
}

// `S NAME TYPE COUNT quick|slow V..`, after the verb. Refused as BadText, then as OutOfMemory.
pub(crate) fn read_addition(alloc: Global, mut words: Words<'_>) -> Result<Addition, Refusal>
    ensures ok { IfOk result (λ a. SaysAdd words.entry a.server (record_of a)) }
    ensures err { IfErr result (λ e.
        Refuses (λ (p : ℕ × RecordState). SaysAdd words.entry p.0 p.1) e) }
{
    let server = words.number()?;
    let name = words.word()?;
    let base = base_in(words.word()?)?;
    let count = words.number()?;
    let slow = slow_in(words.word()?)?;
    let value = read_value(alloc, base, words)?;
    let name = Vec::from_slice(alloc, name)?;
    Ok(Addition {
        server,
        name,
        count,
        slow,
        value,
    })
}
