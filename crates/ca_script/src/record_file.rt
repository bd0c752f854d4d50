//! A record file as a server reads it at its start: lines of records and of access rules, in any
//! order. Begin at `read_records`.
ghost use Rattle.std.specs.Prelude.{◌≢◌, IfErr, IfOk, OnErr, OnOk, length};
ghost use Rattle.ca_script.specs.Grammar.{Refuses, parted};
ghost use Rattle.ca_script.specs.RecordFiles.{SaysFile, TakesLine, file_reading};

use crate::lines::{read_record, read_rule};
use crate::words::{Words, cut, is_word};
use ca_records::{Records, Rule};
use ca_text::Refusal;
use std::alloc::Global;

const LINE_FEED: u8 = b'\n';

/// What a record file says: the records of a server and the rules of access, each in order.
#[derive(Debug, Drop)]
pub struct RecordFile {
    pub records: Records,
    pub rules: Vec<Rule>,
}

/// Reads a record file: lines of records and of rules, in any order. Refused as BadText if a line
/// is not understood, and as OutOfMemory; an empty text is never refused.
pub fn read_records(alloc: Global, text: &[u8]) -> Result<RecordFile, Refusal>
    ensures says { IfOk result (λ f. SaysFile text.now (file_reading f)) }
    ensures err { IfErr result (λ e. Refuses (SaysFile text.now) e) }
    ensures some { OnErr result (length text.now ≢ 0) }
{
    let mut file = RecordFile {
        records: Records::new(alloc),
        rules: Vec::new(alloc),
    };
    let mut left = text;
    while !left.is_empty() {
        let (line, rest) = cut(left, LINE_FEED);
        read_line(alloc, line, &mut file)?;
        left = rest.unwrap_or(&[]);
    }
    Ok(file)
}

/// Adds what one line says. Refused as BadText, then as OutOfMemory.
pub fn read_line(alloc: Global, line: &[u8], file: &mut RecordFile) -> Result<(), Refusal>
    ensures ok { OnOk result (TakesLine (file_reading file.old) (parted 32 line.now)
        (file_reading file.new)) }
    ensures err { IfErr result (λ e.
        Refuses (TakesLine (file_reading file.old) (parted 32 line.now)) e) }
{
    let mut words = Words::new(line);
    let first = words.word()?;
    if is_word(first, "record") {
        return read_record(alloc, words, &mut file.records);
    }
    if is_word(first, "rule") {
        let rule = read_rule(alloc, words)?;
        file.rules.push(rule)?;
        return Ok(());
    }
    Err(Refusal::BadText)
}
