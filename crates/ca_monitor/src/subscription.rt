//! One subscription of a client: its channel, the type, count and mask that it asked for, and its
//! stage.
ghost use Rattle.std.specs.Prelude.{◌≡◌};
ghost use Rattle.ca_monitor.specs.Stages.{stage_of};
ghost use Rattle.ca_monitor.specs.Subscriptions.{is_to};

use crate::stage::{SubscriptionStage, is_same};
use ca_arena::Handle;
use ca_text::Mask;
use std::marker::Model;

/// A subscription: its channel, what was asked for, and how far it is.
#[derive(Clone, Copy, Debug)]
pub struct Subscription {
    /// The channel of the client that it is to.
    pub channel: Handle,
    /// The type of its updates.
    pub data_type: u16,
    /// The count of their elements.
    pub count: u32,
    /// The events that it is about.
    pub mask: Mask,
    /// Whether it stands.
    pub stage: SubscriptionStage,
}

impl Model for Subscription {
    ghost use Rattle.std.proofs.Common.{ap};
    ghost use Rattle.ca_monitor.specs.Subscriptions as monitor;

    ghost Value = { monitor.Subscription };

    ghost use Rattle.ca_monitor.specs.Stages.{stage_from, stage_again, stage_of};

    ghost view = { λ s. record {
      channel = s.channel;
      data_type = s.data_type;
      count = s.count;
      mask = s.mask;
      stage = stage_of s.stage;
    } };

    ghost inverse = { λ s. record {
      channel = s.channel;
      data_type = s.data_type;
      count = s.count;
      mask = s.mask;
      stage = stage_from s.stage;
    } };

    ghost inverse_ok = { λ s h. ap (λ stage. record {
      channel = s.channel;
      data_type = s.data_type;
      count = s.count;
      mask = s.mask;
      stage = stage;
    }) (stage_again s.stage) };
}

impl Subscription {
    /// Whether it is to this channel.
    pub fn is_to(&self, channel: Handle) -> bool
        ensures { result ≡ is_to channel self.now }
    {
        is_same(self.channel, channel)
    }

    // It comes to this stage.
    pub(crate) fn set_stage(&mut self, stage: SubscriptionStage)
        ensures { self.new ≡ record self.old { stage = stage_of stage } }
    {
        self.stage = stage;
    }
}
