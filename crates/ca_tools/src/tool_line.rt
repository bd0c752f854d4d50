//! What the words after `get`, `put` and `monitor` ask for: three lines that differ in one option.
ghost use Rattle.std.specs.Prelude.{◌≡◌, MatchOption, codes};
ghost use Rattle.ca_tools.specs.Tools.{name_of};

use crate::line::socket_address;
use ca_script::decimal;
use ca_text::Refusal;
use clap::error::ErrorKind;
use clap::{Arg, ArgMatches, Command};
use std::alloc::{AllocError, Global};
use std::net::SocketAddrV4;

// Turns of a tool, if the words name no number.
const TURNS: u64 = 1_000;

// Bytes of a value that is put, at most: those of a STRING.
const VALUE: usize = 40;

/// What a tool does with its channel.
#[derive(Clone, Copy, Debug, PartialEq, Eq)]
pub enum Task<'a> {
    /// Reads its value.
    Get,
    /// Puts this text.
    Put(&'a str),
    /// Prints n updates.
    Monitor(u64),
}

/// `get NAME`, `put NAME --value=V` or `monitor NAME --count N`, each with `--server A:P` and, if
/// it is to be another number of turns than 1,000, `--turns N`.
#[derive(Clone, Copy, Debug, PartialEq, Eq)]
pub struct ToolLine<'a> {
    pub task: Task<'a>,
    pub name: &'a str,
    pub server: SocketAddrV4,
    pub turns: u64,
}

/// Which of the tools the first word names, with the option that is its own.
#[derive(Clone, Copy, Debug, PartialEq, Eq)]
pub enum ToolVerb {
    Get,
    Put,
    Monitor,
}

/// The tool of this name, if it is one's.
pub fn verb_of(word: &str) -> Option<ToolVerb>
    ensures { MatchOption result ((word.now ≡ codes "get" → ⊥)
        × (word.now ≡ codes "put" → ⊥)
        × (word.now ≡ codes "monitor" → ⊥))
        (λ verb. word.now ≡ name_of verb) }
{
    if word == "get" {
        return Some(ToolVerb::Get);
    }
    if word == "put" {
        return Some(ToolVerb::Put);
    }
    if word == "monitor" {
        return Some(ToolVerb::Monitor);
    }
    None
}

/// Reads the words after the name of a tool: none if they are not understood.
pub fn read_tool<'a>(
    alloc: Global,
    verb: ToolVerb,
    words: &'a [String],
) -> Result<Option<ToolLine<'a>>, Refusal> {
    // At this word clap would end the options.
    if words.iter().any(|word| word.as_str() == "--") {
        return Ok(None);
    }
    let command = grammar(alloc, verb)?;
    match command.try_get_matches_from(words) {
        Ok(matches) => Ok(meant(verb, &matches)),
        Err(error) => match error.kind() {
            ErrorKind::OutOfMemory => Err(Refusal::OutOfMemory),
            _ => Ok(None),
        },
    }
}

fn grammar<'a>(alloc: Global, verb: ToolVerb) -> Result<Command<'a>, AllocError> {
    let command = Command::new(alloc, "tool")
        .no_binary_name(true)
        .disable_help_flag(true)
        .arg(Arg::new(alloc, "name"))?
        .arg(Arg::new(alloc, "server").long("server"))?
        .arg(Arg::new(alloc, "turns").long("turns"))?;
    match verb {
        ToolVerb::Get => Ok(command),
        ToolVerb::Put => command.arg(Arg::new(alloc, "value").long("value")),
        ToolVerb::Monitor => command.arg(Arg::new(alloc, "count").long("count")),
    }
}

/// What the words mean: nothing if one is missing, is no address, no number, or too long.
fn meant<'a>(verb: ToolVerb, matches: &ArgMatches<'a>) -> Option<ToolLine<'a>> {
    let name = matches.get_str("name")?;
    let server = socket_address(matches.get_str("server")?)?;
    let turns = match matches.get_str("turns") {
        None => TURNS,
        Some(text) => decimal(text.as_bytes())?,
    };
    Some(ToolLine {
        task: task_of(verb, matches)?,
        name,
        server,
        turns,
    })
}

fn task_of<'a>(verb: ToolVerb, matches: &ArgMatches<'a>) -> Option<Task<'a>> {
    match verb {
        ToolVerb::Get => Some(Task::Get),
        ToolVerb::Put => Some(Task::Put(value_of(matches.get_str("value")?)?)),
        ToolVerb::Monitor => Some(Task::Monitor(decimal(matches.get_str("count")?.as_bytes())?)),
    }
}

fn value_of(text: &str) -> Option<&str> {
    if text.len() > VALUE {
        return None;
    }
    Some(text)
}
