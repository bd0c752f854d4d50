//! What the words after `answer` ask for: records of a file, or the standing ones.
ghost use Rattle.std.specs.Prelude.{◌≡◌, IfErr, IfOk, map, string_bytes};
ghost use Rattle.ca_text.specs.declared.refusal.Refusal.TheVariants.{OutOfMemory};
ghost use Rattle.clap.specs.Words.{app_of};
ghost use Rattle.ca.specs.AnswerWords.{IsWanted, answer_app};

use crate::words::escapes;
use ca_text::Refusal;
use clap::error::ErrorKind;
use clap::{Arg, Command};
use std::alloc::{AllocError, Global};

/// `answer [--records FILE]`: the file of the records that are served, if they are
/// not the standing ones.
#[derive(Clone, Copy, Debug, PartialEq, Eq)]
pub struct AnswerLine<'a> {
    pub records: Option<&'a str>,
}

/// Reads the words after `answer`: none if they are not understood.
pub(crate) fn read_answer<'a>(
    alloc: Global,
    words: &'a [String],
) -> Result<Option<AnswerLine<'a>>, Refusal>
    ensures ok { IfOk result (λ r. IsWanted (map string_bytes words.entry.now) r) }
    ensures err { IfErr result (λ e. e ≡ OutOfMemory) }
{
    if escapes(words) {
        return Ok(None);
    }
    let command = grammar(alloc)?;
    match command.try_get_matches_from(words) {
        Ok(matches) => Ok(Some(AnswerLine {
            records: matches.get_str("records"),
        })),
        Err(error) => match error.kind() {
            ErrorKind::OutOfMemory => Err(Refusal::OutOfMemory),
            _ => Ok(None),
        },
    }
}

fn grammar<'a>(alloc: Global) -> Result<Command<'a>, AllocError>
    ensures { IfOk result (λ c. app_of c ≡ answer_app) }
{
    let records = Arg::new(alloc, "records").long("records");
    Command::new(alloc, "answer")
        .no_binary_name(true)
        .disable_help_flag(true)
        .arg(records)
}
