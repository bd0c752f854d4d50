//! A board on which one core hands outcomes over to callers in other threads, with no lock.
//!
//! The core arms a ticket for each request and fills it when the request completes; the caller that
//! has the ticket collects the outcome. Each call is a few atomic steps on one word, and returns.
#![tactic(auto)]

mod board;
pub mod laws;
mod seats;
mod steps;
mod ticket;
mod word;

pub use board::Board;
pub use seats::{CallerSeat, CoreSeat};
pub use ticket::{Filled, Ticket};
