//! What a client's core reports goes into the log of its life, in which there is room.
ghost use Rattle.std.specs.Prelude.{◌≡◌, ◌++◌, ◌+◌, ◌≤◌, ℕ, length, map, vec_capacity, vec_len};
ghost use Rattle.ca_model.specs.ClientEvents as world;
ghost use Rattle.ca_model.specs.History.{OfCircuit};
ghost use Rattle.ca_model.specs.World.{grown};
ghost use Rattle.ca_world_data.specs.Logs.{HasRoom, lines_in};
ghost use Rattle.ca_world_data.specs.Named.{IsMeant};
ghost use Rattle.ca_world_data.specs.Seen.{intent_of, line_of, names_of};
ghost use Rattle.ca_world_data.specs.Telling.{call_lines};

use crate::client::Names;
use crate::history::{Intent, Line};
use crate::naming::{line_about, line_for};
use ca_client_core::Notices;

/// Puts these notices into the log, which are about no message of the client on a channel.
pub fn tell_all(logs: &mut Vec<Vec<Line>>, life: usize, names: &Names, notices: Notices)
    requires { HasRoom (length notices) life logs.old.items }
    ensures told { lines_in logs.new.items
        ≡ grown
        life
        (world.lines_of OfCircuit (names_of names.now) notices)
        (lines_in logs.old.items) }
    ensures room { (n : ℕ) → HasRoom (length notices + n) life logs.old.items
        → HasRoom n life logs.new.items }
{
    if life < logs.len() {
        tell_in(&mut logs[life], names, notices);
    }
}

/// Puts these notices into the log of a client whose handles mean what is beside them: what the
/// message was about is looked at first.
pub fn tell_about(
    logs: &mut Vec<Vec<Line>>,
    life: usize,
    about: Intent,
    names: &Names,
    notices: Notices,
)
    requires meant { IsMeant (names_of names.now) }
    requires lines { HasRoom (length notices) life logs.old.items }
    ensures { lines_in logs.new.items
        ≡ grown
        life
        (world.lines_of (intent_of about) (names_of names.now) notices)
        (lines_in logs.old.items) }
{
    if life < logs.len() {
        heard_in(&mut logs[life], about, names, notices);
    }
}

// Puts the notices of a message that was heard into the log itself.
fn heard_in(log: &mut Vec<Line>, about: Intent, names: &Names, notices: Notices)
    requires meant { IsMeant (names_of names.now) }
    requires lines { vec_len log.old + length notices ≤ vec_capacity log.old }
    ensures { map line_of log.new.items
        ≡ map line_of log.old.items
        ++ world.lines_of (intent_of about) (names_of names.now) notices }
{
    let mut notices = notices;
    while let Some(notice) = notices.next() {
        log.push_reserved(line_about(names, about, notice));
    }
}

/// Puts the line of a call into the log, and then what the call told.
pub fn tell_call(
    logs: &mut Vec<Vec<Line>>,
    life: usize,
    line: Line,
    names: &Names,
    notices: Notices,
)
    requires { HasRoom (length notices + 1) life logs.old.items }
    ensures { lines_in logs.new.items
        ≡ grown
        life
        (call_lines (line_of line) (names_of names.now) notices)
        (lines_in logs.old.items) }
{
    if life < logs.len() {
        call_in(&mut logs[life], line, names, notices);
    }
}

// Puts the line of a call, and then what the call told, into the log itself.
fn call_in(log: &mut Vec<Line>, line: Line, names: &Names, notices: Notices)
    requires { vec_len log.old + (length notices + 1) ≤ vec_capacity log.old }
    ensures { map line_of log.new.items
        ≡ map line_of log.old.items
        ++ call_lines (line_of line) (names_of names.now) notices }
{
    log.push_reserved(line);
    tell_in(log, names, notices);
}

// Puts these notices into the log. There is room for them.
fn tell_in(log: &mut Vec<Line>, names: &Names, notices: Notices)
    requires { vec_len log.old + length notices ≤ vec_capacity log.old }
    ensures told { map line_of log.new.items
        ≡ map line_of log.old.items
        ++ world.lines_of OfCircuit (names_of names.now) notices }
    ensures len { vec_len log.new ≡ vec_len log.old + length notices }
    ensures capacity { vec_capacity log.new ≡ vec_capacity log.old }
{
    let mut notices = notices;
    while let Some(notice) = notices.next() {
        log.push_reserved(line_for(names, Intent::OfCircuit, notice));
    }
}
