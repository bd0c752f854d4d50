//! One request of a client: its channel, the circuit that carries it, what it asks for, and whether
//! it is open.
ghost use Rattle.std.specs.Prelude.{◌≡◌};
ghost use Rattle.ca_ids.specs.Table.{same_handle};
ghost use Rattle.ca_requests.specs.Requests.{asks_on, is_open_in, was_sent_on};

use crate::asked::{Asked, RequestStage};
use ca_arena::Handle;
use std::marker::Model;

/// A request: its channel, its circuit, what was asked, and how far it is.
#[derive(Clone, Copy, Debug, PartialEq, Eq)]
pub struct Request {
    /// The channel of the client that it is on.
    pub channel: Handle,
    /// The circuit on which it was sent.
    pub circuit: Handle,
    /// What was asked.
    pub asked: Asked,
    /// Whether it is open.
    pub stage: RequestStage,
}

impl Model for Request {
    ghost use Rattle.std.proofs.Common.{ap, ◌∙◌};
    ghost use Rattle.ca_requests.specs.Requests as request;

    ghost Value = { request.Request };

    ghost use Rattle.ca_requests.specs.Forms.{asked_again, asked_from, asked_of, stage_again};
    ghost use Rattle.ca_requests.specs.Forms.{stage_from, stage_of};

    ghost view = { λ q. record {
      channel = q.channel;
      circuit = q.circuit;
      asked = asked_of q.asked;
      stage = stage_of q.stage;
    } };

    ghost inverse = { λ q. record {
      channel = q.channel;
      circuit = q.circuit;
      asked = asked_from q.asked;
      stage = stage_from q.stage;
    } };

    ghost inverse_ok = { λ q h. ap (λ asked. record {
      channel = q.channel;
      circuit = q.circuit;
      asked = asked;
      stage = stage_from (stage_of q.stage);
    }) (asked_again q.asked) ∙ ap (λ stage. record {
      channel = q.channel;
      circuit = q.circuit;
      asked = q.asked;
      stage = stage;
    }) (stage_again q.stage) };
}

impl Request {
    /// Whether it is on this channel.
    pub fn is_on(&self, channel: Handle) -> bool
        ensures { result ≡ asks_on channel self.now }
    {
        is_same(self.channel, channel)
    }

    /// Whether it was sent on this circuit.
    pub fn was_sent_on(&self, circuit: Handle) -> bool
        ensures { result ≡ was_sent_on circuit self.now }
    {
        is_same(self.circuit, circuit)
    }

    /// Whether it is open.
    pub fn is_open(&self) -> bool
        ensures { result ≡ is_open_in self.now.stage }
    {
        self.stage.is_open()
    }
}

// Whether both are one handle.
pub(crate) fn is_same(a: Handle, b: Handle) -> bool
    ensures { result ≡ same_handle a b }
{
    a.index == b.index && a.generation == b.generation
}
