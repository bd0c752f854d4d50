//! The tests of the libraries, a module for each, in a crate of their own, which is run and not
//! proved: a crate with tests would be proved a second time, with them. They show what no contract
//! says. What a core shows of these libraries is a line of `tools/calls/by-hand`, and each growth
//! of theirs is refused there by `tools/growths`; what the program shows is a case in `vectors`.
#![tactic(auto)]

#[cfg(test)]
mod ample_ends;
#[cfg(test)]
mod answer;
#[cfg(test)]
mod arena;
#[cfg(test)]
mod dbr;
#[cfg(test)]
mod dgram;
#[cfg(test)]
mod display;
#[cfg(test)]
mod display_conversions;
#[cfg(test)]
mod drawn;
#[cfg(test)]
mod ids;
#[cfg(test)]
mod lines;
#[cfg(test)]
mod link;
#[cfg(test)]
mod printed;
#[cfg(test)]
mod repeat;
#[cfg(test)]
mod repeater;
#[cfg(test)]
mod replay;
#[cfg(test)]
mod script;
#[cfg(test)]
mod search;
#[cfg(test)]
mod served_displays;
#[cfg(test)]
mod served_records;
