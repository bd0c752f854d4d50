//! The lines of scripts and record files read, and the words of reports written.
//! There is no IO here.
#![tactic(auto)]

mod decimals;
mod element;
mod lines;
mod numbers;
mod record_file;
mod report;
mod words;

pub use decimals::decimal;
pub use element::{Element, base_in, read_all, read_value};
pub use lines::{are_carried, pattern, read_record, read_server, rights_in, slow_in};
pub use numbers::{four_numbers, one_number, two_numbers};
pub use record_file::{RecordFile, read_line, read_records};
pub use report::{put, put_count, put_outcome, write_end};
pub use words::{Pieces, Words, cut, is_word};
