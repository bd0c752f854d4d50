//! How far a subscription is: active, cancelled and waiting for the server's confirmation, or ended
//! with its channel. Only an active one takes updates.
ghost use Rattle.std.specs.Prelude.{◌≡◌};
ghost use Rattle.ca_monitor.specs.Stages.{stage_of};
ghost use Rattle.ca_ids.specs.Table.{same_handle};
ghost use Rattle.ca_monitor.specs.Subscriptions.{drains_in, is_cancelled_in, stage_over, stands_in};

use ca_arena::Handle;

/// How far a subscription is.
#[derive(Clone, Copy, Debug, PartialEq, Eq)]
pub enum SubscriptionStage {
    /// It stands.
    Stands,
    /// Its caller cancelled it on this circuit, and its id drains until the confirmation.
    Cancelled(Handle),
    /// Its id drains on this circuit until its channel's clear is answered.
    Ended(Handle),
}

impl SubscriptionStage {
    /// Whether the subscription stands.
    pub fn stands(self) -> bool
        ensures { result ≡ stands_in (stage_of self) }
    {
        match self {
            SubscriptionStage::Stands => true,
            SubscriptionStage::Cancelled(_) => false,
            SubscriptionStage::Ended(_) => false,
        }
    }

    /// Whether a confirmation on this circuit is waited for.
    pub fn is_cancelled_in(self, circuit: Handle) -> bool
        ensures { result ≡ is_cancelled_in circuit (stage_of self) }
    {
        match self {
            SubscriptionStage::Stands => false,
            SubscriptionStage::Cancelled(on) => is_same(on, circuit),
            SubscriptionStage::Ended(_) => false,
        }
    }

    /// Whether the id drains on this circuit.
    pub fn drains_in(self, circuit: Handle) -> bool
        ensures { result ≡ drains_in circuit (stage_of self) }
    {
        match self {
            SubscriptionStage::Stands => false,
            SubscriptionStage::Cancelled(on) => is_same(on, circuit),
            SubscriptionStage::Ended(on) => is_same(on, circuit),
        }
    }

    /// The stage once the channel is cleared on this circuit: what stood is over.
    pub fn over(self, circuit: Handle) -> SubscriptionStage
        ensures { stage_of result ≡ stage_over circuit (stage_of self) }
    {
        match self {
            SubscriptionStage::Stands => SubscriptionStage::Ended(circuit),
            SubscriptionStage::Cancelled(on) => SubscriptionStage::Cancelled(on),
            SubscriptionStage::Ended(on) => SubscriptionStage::Ended(on),
        }
    }
}

// Whether both are one handle.
pub(crate) fn is_same(a: Handle, b: Handle) -> bool
    ensures { result ≡ same_handle a b }
{
    a.index == b.index && a.generation == b.generation
}
