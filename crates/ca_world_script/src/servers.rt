//! The lines `record` and `rule`, which belong to the server above them.
ghost use Rattle.std.specs.Prelude.{◌∷◌, IfErr, IfOk, codes};
ghost use Rattle.ca_script.specs.Grammar.{Refuses, parted};
ghost use Rattle.ca_script.specs.Lines.{SaysRule};
ghost use Rattle.ca_world_data.specs.Settings.{rule_of};
ghost use Rattle.ca_world_script.specs.Servers.{TakesLine, TakesRecord, TakesRule};

use ca_script::{Words, are_carried, is_word, pattern, read_record, rights_in};
use ca_text::Refusal;
use ca_world_data::settings::{RuleSetting, ServerSetting};
use std::alloc::Global;

// A server with what one line more says: a record or a rule. Refused as BadText,
// then as OutOfMemory.
pub(crate) fn with_line(
    alloc: Global,
    line: &[u8],
    server: ServerSetting,
) -> Result<ServerSetting, Refusal>
    ensures ok { IfOk result (λ s. TakesLine server (parted 32 line.now) s) }
    ensures err { IfErr result (λ e. Refuses (TakesLine server (parted 32 line.now)) e) }
{
    let mut words = Words::new(line);
    let first = words.word()?;
    if is_word(first, "record") {
        return with_record(alloc, words, server);
    }
    if is_word(first, "rule") {
        return with_rule(alloc, words, server);
    }
    Err(Refusal::BadText)
}

// A server with one record more, which the words after the line's first word say.
fn with_record(
    alloc: Global,
    words: Words<'_>,
    server: ServerSetting,
) -> Result<ServerSetting, Refusal>
    ensures ok { IfOk result (λ s. TakesRecord server (codes "record" ∷ words.entry) s) }
    ensures err { IfErr result (λ e.
        Refuses (TakesRecord server (codes "record" ∷ words.entry)) e) }
{
    let ServerSetting {
        address,
        rules,
        mut records,
    } = server;
    read_record(alloc, words, &mut records)?;
    Ok(ServerSetting::new(address, rules, records))
}

// A server with one rule more.
fn with_rule(
    alloc: Global,
    words: Words<'_>,
    server: ServerSetting,
) -> Result<ServerSetting, Refusal>
    ensures ok { IfOk result (λ s. TakesRule server (codes "rule" ∷ words.entry) s) }
    ensures err { IfErr result (λ e. Refuses (TakesRule server (codes "rule" ∷ words.entry)) e) }
{
    let rule = read_rule(alloc, words)?;
    let ServerSetting {
        address,
        mut rules,
        records,
    } = server;
    rules.push(rule)?;
    Ok(ServerSetting::new(address, rules, records))
}

// `USER HOST RECORD rw|r|w|-`, after the line's first word: `*` stands for everything. Refused as
// BadText, then as OutOfMemory.
fn read_rule(alloc: Global, mut words: Words<'_>) -> Result<RuleSetting, Refusal>
    ensures ok { IfOk result (λ r. SaysRule words.entry (rule_of r)) }
    ensures err { IfErr result (λ e. Refuses (SaysRule words.entry) e) }
{
    let user = words.word()?;
    let host = words.word()?;
    let name = words.word()?;
    let (reads, writes) = rights_in(words.word()?)?;
    words.end()?;
    if !are_carried(user, host) {
        return Err(Refusal::BadText);
    }
    let user = pattern(alloc, user)?;
    let host = pattern(alloc, host)?;
    let record_name = pattern(alloc, name)?;
    Ok(RuleSetting {
        user,
        host,
        record_name,
        reads,
        writes,
    })
}
