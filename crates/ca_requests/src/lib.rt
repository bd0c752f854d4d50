//! A client's requests: what was asked under which IOID, in order of issue, and what a
//! reply means to a request.
#![tactic(auto)]

mod asked;
mod drops;
mod lines;
mod outcome;
mod request;
mod request_list;
mod requests;

pub use asked::{Asked, RequestStage};
pub use outcome::image_outcome;
pub use request::Request;
pub use requests::Requests;
