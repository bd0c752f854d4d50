//! What the words after `repeater` ask for: a port, and after how many datagrams it ends.
ghost use Rattle.std.specs.Prelude.{◌≡◌, IfErr, IfOk, ℕ, MatchOption, map, option_map};
ghost use Rattle.std.specs.Prelude.{string_bytes};
ghost use Rattle.ca_text.specs.declared.refusal.Refusal.TheVariants.{OutOfMemory};
ghost use Rattle.clap.specs.Words.{app_of};
ghost use Rattle.ca.specs.RepeaterWords.{IsAsked, IsMeant, IsPort, repeater_app};

use crate::words::escapes;
use ca_script::decimal;
use ca_text::{REPEATER_PORT, Refusal};
use clap::error::ErrorKind;
use clap::{Arg, Command};
use std::alloc::{AllocError, Global};

/// `repeater [--port P] [--datagrams N]`: the port of the host's repeater, and how many datagrams
/// it takes, if it ends at all.
#[derive(Clone, Copy, Debug, PartialEq, Eq)]
pub struct RepeaterLine {
    pub port: u16,
    pub datagrams: Option<u64>,
}

/// Reads the words after `repeater`: none if they are not understood.
pub(crate) fn read_repeater<'a>(
    alloc: Global,
    words: &'a [String],
) -> Result<Option<RepeaterLine>, Refusal>
    ensures ok { IfOk result (IsAsked (map string_bytes words.entry.now)) }
    ensures err { IfErr result (λ e. e ≡ OutOfMemory) }
{
    if escapes(words) {
        return Ok(None);
    }
    let command = grammar(alloc)?;
    match command.try_get_matches_from(words) {
        Ok(matches) => Ok(meant(matches.get_str("port"), matches.get_str("datagrams"))),
        Err(error) => match error.kind() {
            ErrorKind::OutOfMemory => Err(Refusal::OutOfMemory),
            _ => Ok(None),
        },
    }
}

fn grammar<'a>(alloc: Global) -> Result<Command<'a>, AllocError>
    ensures { IfOk result (λ c. app_of c ≡ repeater_app) }
{
    let port = Arg::new(alloc, "port").long("port");
    let datagrams = Arg::new(alloc, "datagrams").long("datagrams");
    Command::new(alloc, "repeater")
        .no_binary_name(true)
        .disable_help_flag(true)
        .arg(port)?
        .arg(datagrams)
}

/// What the options' values mean: nothing if one is no number, or too great.
fn meant(port: Option<&str>, datagrams: Option<&str>) -> Option<RepeaterLine>
    ensures { IsMeant (option_map (λ t. t.now) port.entry) (option_map (λ t. t.now) datagrams.entry)
        result }
{
    let port = match port {
        None => REPEATER_PORT,
        Some(text) => port_of(text)?,
    };
    let datagrams = match datagrams {
        None => None,
        Some(text) => Some(decimal(text.as_bytes())?),
    };
    Some(RepeaterLine { port, datagrams })
}

fn port_of(text: &str) -> Option<u16>
    ensures { MatchOption result ((n : ℕ) → IsPort text.now n → ⊥) (IsPort text.now) }
{
    match decimal(text.as_bytes()) {
        None => None,
        Some(number) => u16::try_from(number).ok(),
    }
}
