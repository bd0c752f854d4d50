//! The line `answer`: one circuit, from standard input to standard output or over any other
//! streams.
mod line;
mod run;
mod standing;

pub use line::AnswerLine;
pub(crate) use line::read_answer;
pub use run::{answer_file, answer_run, serve};
pub use standing::standing_records;
