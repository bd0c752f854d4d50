//! What the end of a circuit leaves to its caller.
use crate::notices::Notices;
use ca_client_tables::Why;
use ca_wire::Pipe;
use std::marker::Model;

/// A client's end of a circuit has ended.
#[derive(Debug, Drop)]
pub struct Closing {
    /// Why.
    pub why: Why,
    /// Its open requests complete with Disconnected, in order of issue, and then its live channels
    /// are lost, in order of index.
    pub notices: Notices,
    /// The bytes that waited to be sent.
    pub left: Pipe,
}

impl Model for Closing {
    ghost use Rattle.ca_model.specs.Answers as answer;

    ghost Value = { answer.Closing };

    ghost use Rattle.ca_client_tables.specs.Closings.{why_is};

    ghost view = { λ k. record { why = why_is k.why; notices = k.notices; left = k.left } };
}
