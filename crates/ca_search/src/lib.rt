//! Searches: which of a client's channels are searched now, and when each is searched next.
#![tactic(auto)]

mod clock;
mod laws;
mod place;
mod search;
mod searcher;

pub use laws::searches_double;
pub use place::Place;
pub use search::Search;
pub use searcher::{Searcher, boost, due_in, pass};
