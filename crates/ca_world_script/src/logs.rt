//! The lines of a report: one for each entry of a client's log, but for its calls that were
//! accepted.
ghost use Rattle.std.specs.Prelude.{◌≡◌, ◌<◌, ◌++◌, IfErr, OnOk, Some, length, map};
ghost use Rattle.ca_text.specs.declared.refusal.Refusal.TheVariants.{OutOfMemory};
ghost use Rattle.ca_text.specs.Place.{At};
ghost use Rattle.ca_world_script.specs.Logs.{entry_text, found_text, is_shown, life_text};
ghost use Rattle.ca_world_script.specs.Logs.{line_text, lives_text, log_text, noticed_text};
ghost use Rattle.ca_world_script.specs.Logs.{status_text, told_text, updated_text};
ghost use Rattle.ca_world_script.specs.Lives.{logs_of};
ghost use Rattle.ca_world_data.specs.Seen.{intent_of, line_of};

use ca_dbr::Outcome;
use ca_script::{put, put_count, put_outcome};
use ca_text::Refusal;
use ca_world_data::history::{Ask, Intent, Kind, Line};

/// Writes the lines of a client: those of its lives, in order, by the logs of all lives.
/// Refused as OutOfMemory.
pub fn write_lives(
    client: u64,
    lives: &[usize],
    logs: &[Vec<Line>],
    out: &mut Vec<u8>,
) -> Result<(), Refusal>
    ensures ok { OnOk result (out.new.items
        ≡ out.old.items ++ lives_text client (logs_of logs.now) lives.now) }
    ensures err { IfErr result (λ e. e ≡ OutOfMemory) }
{
    for life in lives {
        write_life(client, *life, logs, out)?;
    }
    Ok(())
}

// Writes the lines of one life.
fn write_life(
    client: u64,
    life: usize,
    logs: &[Vec<Line>],
    out: &mut Vec<u8>,
) -> Result<(), Refusal>
    ensures ok { OnOk result (out.new.items
        ≡ out.old.items ++ life_text client (logs_of logs.now) life) }
    ensures err { IfErr result (λ e. e ≡ OutOfMemory) }
{
    if life >= logs.len() {
        return Ok(());
    }
    write_log(client, log_at(logs, life), out)
}

// Writes the lines of the log of a life.
fn write_log(client: u64, log: &[Line], out: &mut Vec<u8>) -> Result<(), Refusal>
    ensures ok { OnOk result (out.new.items
        ≡ out.old.items ++ log_text client (map line_of log.now)) }
    ensures err { IfErr result (λ e. e ≡ OutOfMemory) }
{
    for line in log {
        put_line(client, log, line, out)?;
    }
    Ok(())
}

// The log of a life.
fn log_at(logs: &[Vec<Line>], life: usize) -> &[Line]
    requires { life < length logs.now }
    ensures { At (logs_of logs.now) life (map line_of result.now) }
{
    &logs[life]
}

// Puts the line of one entry at the end, if it has one.
fn put_line(client: u64, log: &[Line], line: &Line, text: &mut Vec<u8>) -> Result<(), Refusal>
    ensures ok { OnOk result (text.new.items
        ≡ text.old.items ++ line_text client (map line_of log.now) (line_of line.now)) }
    ensures err { IfErr result (λ e. e ≡ OutOfMemory) }
{
    if !shows(line) {
        return Ok(());
    }
    put_count(b"", client, text)?;
    put_entry(log, line, text)?;
    put(b"\n", text)
}

// Whether an entry has a line.
fn shows(line: &Line) -> bool
    ensures { result ≡ is_shown (line_of line.now) }
{
    match line {
        Line::Opened(_, _) => false,
        Line::Called(_, _) => false,
        Line::Noticed(_, _) => true,
        Line::Updated(_, _) => true,
        Line::Refused(_) => true,
        Line::Collected(_, _) => true,
        Line::GaveUp(_, _) => true,
    }
}

fn put_entry(log: &[Line], line: &Line, text: &mut Vec<u8>) -> Result<(), Refusal>
    ensures ok { OnOk result (text.new.items
        ≡ text.old.items ++ entry_text (map line_of log.now) (line_of line.now)) }
    ensures err { IfErr result (λ e. e ≡ OutOfMemory) }
{
    match line {
        Line::Opened(_, _) => Ok(()),
        Line::Called(_, _) => Ok(()),
        Line::Noticed(intent, outcome) => put_noticed(*intent, outcome, text),
        Line::Updated(intent, outcome) => put_updated(*intent, outcome, text),
        Line::Refused(refusal) => put_count(b" refused ", u64::from(refusal.number()), text),
        Line::Collected(number, place) => {
            put_count(b" collected ", *number as u64, text)?;
            put_found(log, *place, text)
        }
        Line::GaveUp(number, place) => {
            put_count(b" gave_up ", *number as u64, text)?;
            put_found(log, *place, text)
        }
    }
}

fn put_noticed(intent: Intent, outcome: &Outcome, text: &mut Vec<u8>) -> Result<(), Refusal>
    ensures ok { OnOk result (text.new.items
        ≡ text.old.items ++ noticed_text (intent_of intent) outcome.now) }
    ensures err { IfErr result (λ e. e ≡ OutOfMemory) }
{
    match intent {
        Intent::OfCircuit => Ok(()),
        Intent::On(channel, ask) => match ask {
            Ask::Create => match outcome {
                Outcome::Done => put_count(b" live ", channel as u64, text),
                _ => put_count(b" lost ", channel as u64, text),
            },
            Ask::Request(kind, number) => match kind {
                Kind::Write => {
                    put_count(b" write_refused ", channel as u64, text)?;
                    put_status(outcome, text)?;
                    Ok(())
                }
                Kind::Read => {
                    put_count(b" completed ", number as u64, text)?;
                    put_outcome(outcome, text)
                }
                Kind::Put => {
                    put_count(b" completed ", number as u64, text)?;
                    put_outcome(outcome, text)
                }
            },
            Ask::Subscribe(number) => {
                put_count(b" ended ", number as u64, text)?;
                put_status(outcome, text)
            }
            Ask::Clear => Ok(()),
            Ask::Cancel(_) => Ok(()),
        },
    }
}

fn put_updated(intent: Intent, outcome: &Outcome, text: &mut Vec<u8>) -> Result<(), Refusal>
    ensures ok { OnOk result (text.new.items
        ≡ text.old.items ++ updated_text (intent_of intent) outcome.now) }
    ensures err { IfErr result (λ e. e ≡ OutOfMemory) }
{
    match intent {
        Intent::OfCircuit => Ok(()),
        Intent::On(_, ask) => match ask {
            Ask::Subscribe(number) => {
                put_count(b" update ", number as u64, text)?;
                put_outcome(outcome, text)
            }
            Ask::Create => Ok(()),
            Ask::Clear => Ok(()),
            Ask::Request(_, _) => Ok(()),
            Ask::Cancel(_) => Ok(()),
        },
    }
}

// Puts a status by its number alone.
fn put_status(outcome: &Outcome, text: &mut Vec<u8>) -> Result<(), Refusal>
    ensures ok { OnOk result (text.new.items ≡ text.old.items ++ status_text outcome.now) }
    ensures err { IfErr result (λ e. e ≡ OutOfMemory) }
{
    match outcome {
        Outcome::Failed(status) => put_count(b" ", u64::from(status.number), text),
        Outcome::Value(_, _) => put_outcome(outcome, text),
        Outcome::Displayed(_, _, _) => put_outcome(outcome, text),
        Outcome::Done => put_outcome(outcome, text),
        Outcome::Unreadable(_) => put_outcome(outcome, text),
        Outcome::Disconnected => put_outcome(outcome, text),
    }
}

// Puts the outcome that the line at this place tells.
fn put_found(log: &[Line], place: Option<usize>, text: &mut Vec<u8>) -> Result<(), Refusal>
    ensures ok { OnOk result (text.new.items
        ≡ text.old.items ++ found_text (map line_of log.now) place) }
    ensures err { IfErr result (λ e. e ≡ OutOfMemory) }
{
    match place {
        None => put(b" nothing", text),
        Some(place) => match log.get(place) {
            None => put(b" nothing", text),
            Some(line) => put_line_outcome(line, text),
        },
    }
}

// Puts the outcome that a line says.
fn put_line_outcome(line: &Line, text: &mut Vec<u8>) -> Result<(), Refusal>
    ensures ok { OnOk result (text.new.items
        ≡ text.old.items ++ told_text (Some (line_of line.now))) }
    ensures err { IfErr result (λ e. e ≡ OutOfMemory) }
{
    match line {
        Line::Noticed(_, outcome) => put_outcome(outcome, text),
        Line::Opened(_, _) => put(b" nothing", text),
        Line::Called(_, _) => put(b" nothing", text),
        Line::Updated(_, _) => put(b" nothing", text),
        Line::Refused(_) => put(b" nothing", text),
        Line::Collected(_, _) => put(b" nothing", text),
        Line::GaveUp(_, _) => put(b" nothing", text),
    }
}
