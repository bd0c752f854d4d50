//! How a program reports its end: exit status 0 for success, 1 for a refusal, 2 for words that are
//! not understood, with a line on standard error for the last two.
ghost use Rattle.std.specs.Prelude.{◌≡◌};
ghost use Rattle.ca_link.specs.Exits.{not_understood_status, status_of};

use ca_text::Refusal;
use std::io::Write;

/// The exit status of a line that is not understood.
const NOT_UNDERSTOOD: u8 = 2;

/// The exit status of an outcome, whose refusal is told on `err`: `refused: `,
/// its number, its name.
pub fn report<W: Write>(outcome: Result<(), Refusal>, err: &mut W) -> u8
    ensures { result ≡ status_of outcome }
{
    match outcome {
        Ok(()) => 0,
        Err(refusal) => {
            // If this cannot be written the status alone tells.
            let _told = writeln!(err, "refused: {refusal}");
            1
        }
    }
}

/// Tells on `err` that the words were not understood, and gives the exit status for that.
pub fn not_understood<W: Write>(err: &mut W) -> u8
    ensures { result ≡ not_understood_status }
{
    // If this cannot be written the status alone tells.
    let _told = writeln!(err, "not understood");
    NOT_UNDERSTOOD
}
