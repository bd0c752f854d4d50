//! Whether a subscription comes before a given place in the order of EVENT_ADDs. The indexes use it
//! to search by halving.
ghost use Rattle.std.specs.Prelude.{◌≡◌};
ghost use Rattle.ca_server_subscriptions.specs.Order.{is_before};

use crate::queued_subscription::QueuedSubscription;
use ca_queue::SubKey;
use indexmap::IndexMap;

// Whether the subscription of this key is among those before this place.
pub(crate) fn is_before(
    standing: &IndexMap<SubKey, QueuedSubscription>,
    place: usize,
    key: SubKey,
) -> bool
    ensures { result ≡ is_before standing.now.entries place key }
{
    match standing.get_index_of(&key) {
        Some(found) => found < place,
        None => false,
    }
}
