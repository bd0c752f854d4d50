//! A script, line by line: clients, then servers, each with its records and rules, then events.
//! What may come after what is judged here; the words of a line are mostly read in other files.
ghost use Rattle.std.specs.Prelude.{◌≢◌, ◌∷◌, IfErr, IfOk, OnErr, OnOk, codes, length};
ghost use Rattle.ca_script.specs.Grammar.{Refuses, parted};
ghost use Rattle.ca_world_script.specs.Index.{added_of};
ghost use Rattle.ca_world_script.specs.Scripts.{Adds, AddsAdd, AddsClient, AddsServer, AddsTo};
ghost use Rattle.ca_world_script.specs.Scripts.{RefusesScript, SaysScript, reading};
ghost use Rattle.ca_world_script.specs.Types.{Added};

use crate::clients::read_client;
use crate::events::read_event;
use crate::posts::{read_addition, read_post};
use crate::servers::with_line;
use crate::types::Types;
use crate::verb::Verb;
use ca_client_core::Address;
use ca_events::Event;
use ca_records::Records;
use ca_script::{Words, cut, is_word, read_server};
use ca_text::Refusal;
use ca_world_data::settings::{ClientSetting, ServerSetting, has_address};
use std::alloc::Global;

const LINE_FEED: u8 = b'\n';

/// A world, and what is to happen to it.
#[derive(Drop)]
pub struct Script {
    pub clients: Vec<ClientSetting>,
    pub servers: Vec<ServerSetting>,
    pub events: Vec<Event>,
}

/// Reads a script: lines of clients, then of servers, each with its records and rules, then
/// of events. Refused as BadText if a line is not understood, and as OutOfMemory; an empty
/// text is never refused.
pub fn read_script(alloc: Global, text: &[u8]) -> Result<Script, Refusal>
    ensures says { IfOk result (λ s. SaysScript text.now s) }
    ensures err { IfErr result (λ e. RefusesScript text.now e) }
    ensures some { OnErr result (length text.now ≢ 0) }
{
    let mut script = Script {
        clients: Vec::new(alloc),
        servers: Vec::new(alloc),
        events: Vec::new(alloc),
    };
    let mut types = Types::new(alloc);
    let mut left = text;
    while !left.is_empty() {
        let (line, behind) = cut(left, LINE_FEED);
        read_line(alloc, line, &mut script, &mut types)?;
        left = behind.unwrap_or(&[]);
    }
    Ok(script)
}

// Adds what one line says.
fn read_line(
    alloc: Global,
    line: &[u8],
    script: &mut Script,
    types: &mut Types,
) -> Result<(), Refusal>
    ensures ok { OnOk result (Adds (reading script.old (added_of types.old)) (parted 32 line.now)
        (reading script.new (added_of types.new))) }
    ensures err { IfErr result (λ e.
        Refuses (Adds (reading script.old (added_of types.old)) (parted 32 line.now)) e) }
{
    let mut words = Words::new(line);
    let first = words.word()?;
    if let Some(verb) = Verb::of(first) {
        let event = read_event(alloc, verb, words)?;
        script.events.push(event)?;
        return Ok(());
    }
    if is_word(first, "client") {
        return add_client(alloc, words, script);
    }
    if is_word(first, "server") {
        return add_server(alloc, words, script);
    }
    if is_word(first, "record") {
        return add_to(alloc, line, script);
    }
    if is_word(first, "rule") {
        return add_to(alloc, line, script);
    }
    if is_word(first, "post") {
        let event = read_post(alloc, &script.servers, types, words)?;
        script.events.push(event)?;
        return Ok(());
    }
    if is_word(first, "add") {
        return add_addition(alloc, words, script, types);
    }
    Err(Refusal::BadText)
}

// A client comes before all servers and events.
fn add_client(alloc: Global, words: Words<'_>, script: &mut Script) -> Result<(), Refusal>
    ensures ok { (added : Added) → OnOk result
        (AddsClient (reading script.old added) (codes "client" ∷ words.entry)
        (reading script.new added)) }
    ensures err { (added : Added) → IfErr result (λ e.
        Refuses (AddsClient (reading script.old added) (codes "client" ∷ words.entry)) e) }
{
    if !script.servers.is_empty() || !script.events.is_empty() {
        return Err(Refusal::BadText);
    }
    let client = read_client(alloc, words)?;
    script.clients.push(client)?;
    Ok(())
}

// A server of an address of its own comes before the events.
fn add_server(alloc: Global, words: Words<'_>, script: &mut Script) -> Result<(), Refusal>
    ensures ok { (added : Added) → OnOk result
        (AddsServer (reading script.old added) (codes "server" ∷ words.entry)
        (reading script.new added)) }
    ensures err { (added : Added) → IfErr result (λ e.
        Refuses (AddsServer (reading script.old added) (codes "server" ∷ words.entry)) e) }
{
    if !script.events.is_empty() {
        return Err(Refusal::BadText);
    }
    let (host, port) = read_server(words)?;
    let address = Address { host, port };
    if has_address(&script.servers, address) {
        return Err(Refusal::BadText);
    }
    let header_only = ServerSetting::new(address, Vec::new(alloc), Records::new(alloc));
    script.servers.push(header_only)?;
    Ok(())
}

// A record or a rule comes after its server, and before the events.
fn add_to(alloc: Global, line: &[u8], script: &mut Script) -> Result<(), Refusal>
    ensures ok { (added : Added) → OnOk result
        (AddsTo (reading script.old added) (parted 32 line.now)
        (reading script.new added)) }
    ensures err { (added : Added) → IfErr result (λ e.
        Refuses (AddsTo (reading script.old added) (parted 32 line.now)) e) }
{
    if !script.events.is_empty() {
        return Err(Refusal::BadText);
    }
    let Some(server) = script.servers.pop() else {
        return Err(Refusal::BadText);
    };
    let server = with_line(alloc, line, server)?;
    script.servers.push(server)?;
    Ok(())
}

// The addition of a record names its type.
fn add_addition(
    alloc: Global,
    words: Words<'_>,
    script: &mut Script,
    types: &mut Types,
) -> Result<(), Refusal>
    ensures ok { OnOk result
        (AddsAdd (reading script.old (added_of types.old)) (codes "add" ∷ words.entry)
        (reading script.new (added_of types.new))) }
    ensures err { IfErr result (λ e.
        Refuses (AddsAdd (reading script.old (added_of types.old)) (codes "add" ∷ words.entry)) e) }
{
    let addition = read_addition(alloc, words)?;
    let key = Vec::from_slice(alloc, &addition.name)?;
    let base = addition.value.base_type();
    types.name(addition.server, key, base)?;
    let boxed = Box::new(alloc, addition)?;
    script.events.push(Event::Add(boxed))?;
    Ok(())
}
