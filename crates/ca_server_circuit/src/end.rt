//! The open end of a circuit: its link, subscriptions and channels, and the names that its peer
//! gave.
ghost use Rattle.std.specs.Prelude.{◌≡◌, OnErr, OnOk, [], ◌∷◌};
ghost use Rattle.ca_link.specs.Calls.{IsOpen};
ghost use Rattle.ca_link.specs.Link.{with_sent};
ghost use Rattle.ca_model.specs.Server.{new_end};

use crate::channels::ServedChannels;
use ca_link::Link;
use ca_server_subscriptions::SubscriptionsAtNeed;
use ca_wire::Message;
use std::alloc::{AllocError, Global};
use std::marker::Model;

/// An open end of a circuit.
#[derive(Drop)]
pub(crate) struct End {
    pub(crate) alloc: Global,
    // What each step needs is side by side: with many circuits it then fills
    // the fewest cache lines.
    pub(crate) link: Link,
    pub(crate) subscriptions: SubscriptionsAtNeed,
    pub(crate) channels: ServedChannels,
    // How the peer named itself.
    pub(crate) user: Vec<u8>,
    pub(crate) host: Vec<u8>,
    // Whether the peer sent a VERSION.
    pub(crate) greeted: bool,
    // Whether a channel was created, so that the names count for good.
    pub(crate) settled: bool,
}

impl Model for End {
    ghost use Rattle.ca_model.specs.Server.{ServerEnd};

    ghost Value = { ServerEnd };

    ghost use Rattle.std.specs.Coded.{codes};
    ghost use Rattle.ca_dbr.specs.Codes.{elements_code};

    ghost coded = { Prim.hlevel (codes, elements_code) };

    ghost view = { λ e.
        record {
          link = e.link;
          greeted = e.greeted;
          peer = record { user = e.user.items; host = e.host.items };
          settled = e.settled;
          channels = e.channels;
          subscriptions = e.subscriptions.subscriptions;
          queues = e.subscriptions.queues;
        } };
}

impl End {
    /// The end of a circuit that was accepted at this moment. It does not allocate yet.
    pub(crate) fn new(alloc: Global, now: u64) -> End
        ensures { result ≡ new_end now }
    {
        End {
            alloc,
            link: Link::new(alloc, now),
            subscriptions: SubscriptionsAtNeed::new(alloc),
            channels: ServedChannels::new(alloc),
            greeted: false,
            settled: false,
            user: Vec::new(alloc),
            host: Vec::new(alloc),
        }
    }
}

/// Puts a message after what waits on an open link. Without memory the link is as it was.
pub(crate) fn send(link: &mut Link, message: &Message) -> Result<(), AllocError>
    requires { IsOpen link.old }
    ensures ok { OnOk result (link.new ≡ with_sent (message.now ∷ []) link.old) }
    ensures err { OnErr result (link.new ≡ link.old) }
{
    match link.queue_own(message) {
        Ok(()) => Ok(()),
        Err(_) => Err(AllocError),
    }
}
