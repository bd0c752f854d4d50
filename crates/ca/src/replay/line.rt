//! What the words after `replay` ask for: a file, and the seed if events are to be drawn.
ghost use Rattle.std.specs.Prelude.{◌≡◌, IfErr, IfOk, map, option_map, string_bytes};
ghost use Rattle.ca_text.specs.declared.refusal.Refusal.TheVariants.{OutOfMemory};
ghost use Rattle.clap.specs.Words.{app_of};
ghost use Rattle.ca.specs.ReplayWords.{IsMeant, IsNamed, replay_app};

use crate::words::escapes;
use ca_script::decimal;
use ca_text::Refusal;
use clap::error::ErrorKind;
use clap::{Arg, Command};
use std::alloc::{AllocError, Global};

/// `replay FILE [--seed N]`: the file of a script, and the seed that draws further
/// events, if there is one.
#[derive(Clone, Copy, Debug, PartialEq, Eq)]
pub struct ReplayLine<'a> {
    pub file: &'a str,
    pub seed: Option<u64>,
}

/// Reads the words after `replay`: none if they are not understood.
pub(crate) fn read_replay<'a>(
    alloc: Global,
    words: &'a [String],
) -> Result<Option<ReplayLine<'a>>, Refusal>
    ensures ok { IfOk result (λ r. IsNamed (map string_bytes words.entry.now) r) }
    ensures err { IfErr result (λ e. e ≡ OutOfMemory) }
{
    if escapes(words) {
        return Ok(None);
    }
    let command = grammar(alloc)?;
    match command.try_get_matches_from(words) {
        Ok(matches) => Ok(meant(matches.get_str("file"), matches.get_str("seed"))),
        Err(error) => match error.kind() {
            ErrorKind::OutOfMemory => Err(Refusal::OutOfMemory),
            _ => Ok(None),
        },
    }
}

fn grammar<'a>(alloc: Global) -> Result<Command<'a>, AllocError>
    ensures { IfOk result (λ c. app_of c ≡ replay_app) }
{
    let file = Arg::new(alloc, "file");
    let seed = Arg::new(alloc, "seed").long("seed");
    Command::new(alloc, "replay")
        .no_binary_name(true)
        .disable_help_flag(true)
        .arg(file)?
        .arg(seed)
}

/// What these values mean: nothing without a file, or if the seed is no number.
fn meant<'a>(file: Option<&'a str>, seed: Option<&str>) -> Option<ReplayLine<'a>>
    ensures { IsMeant (option_map (λ t. t.now) file.entry) (option_map (λ t. t.now) seed.entry)
        result }
{
    let file = file?;
    let seed = match seed {
        None => None,
        Some(text) => Some(decimal(text.as_bytes())?),
    };
    Some(ReplayLine { file, seed })
}
