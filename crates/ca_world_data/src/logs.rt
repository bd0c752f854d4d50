//! The logs of all lives, by life. A life without a log has none that grows.
ghost use Rattle.std.specs.Prelude.{◌≡◌, ◌≢◌, [], ◌∷◌, OnErr, OnOk};
ghost use Rattle.ca_model.specs.World.{grown};
ghost use Rattle.ca_world_data.specs.Logs.{HasRoom, Notes, lines_in};
ghost use Rattle.ca_world_data.specs.Seen.{line_of};

use crate::history::Line;
use ca_text::Refusal;
use std::alloc::AllocError;

/// Makes room for n more lines in the log of a life, which takes none for none.
pub fn reserve_lines(logs: &mut Vec<Vec<Line>>, life: usize, lines: usize) -> Result<(), AllocError>
    ensures same { lines_in logs.new.items ≡ lines_in logs.old.items }
    ensures room { OnOk result (HasRoom lines life logs.new.items) }
    ensures lacks { OnErr result (lines ≢ 0) }
{
    if life < logs.len() {
        logs[life].reserve(lines)?;
    }
    Ok(())
}

/// Puts a line after those of a life's log, in which there is room.
pub fn push_line(logs: &mut Vec<Vec<Line>>, life: usize, line: Line)
    requires { HasRoom 1 life logs.old.items }
    ensures { lines_in logs.new.items ≡ grown life (line_of line ∷ []) (lines_in logs.old.items) }
{
    if life < logs.len() {
        logs[life].push_reserved(line);
    }
}

/// Puts the refusal of a call into the log. Being out of memory is no refusal of the call.
pub fn note(logs: &mut Vec<Vec<Line>>, life: usize, refusal: Refusal) -> Result<(), Refusal>
    requires { HasRoom 1 life logs.old.items }
    ensures { Notes life refusal (lines_in logs.old.items) result (lines_in logs.new.items) }
{
    match refusal {
        Refusal::OutOfMemory => Err(Refusal::OutOfMemory),
        other => {
            push_line(logs, life, Line::Refused(other));
            Ok(())
        }
    }
}
