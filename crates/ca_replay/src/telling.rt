//! The progress line on standard error during a long replay, once every 100,000 events, if that is
//! a terminal.
use ca_world::Progress;
use std::io::Write;

/// After how many events a run says how far it is.
const LINE: usize = 100_000;

/// Writes a line of progress now and then, if somebody looks.
#[derive(Drop)]
pub struct Telling<'a, W> {
    /// Where the lines go.
    pub err: &'a mut W,
    /// Whether that is a terminal.
    pub is_terminal: bool,
}

impl<W: Write> Progress for Telling<'_, W> {
    fn has_done(&mut self, done: usize, all: usize) {
        if self.is_terminal && done % LINE == 0 {
            // If this cannot be written the run goes on.
            let _told = writeln!(self.err, "{done} of {all} events");
        }
    }
}
