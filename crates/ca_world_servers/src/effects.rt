//! What a message did beside its replies, by the effect that its step reports, is told
//! of its circuit. A step that closed its end tells no effect: whether its message wrote
//! is read off the core.
ghost use Rattle.std.specs.Prelude.{◌≡◌, map};
ghost use Rattle.ca_world_data.specs.Seen.{joined_of, queue_of};
ghost use Rattle.ca_world_servers.specs.Effects.{BeginsNew, HasRoomBy, numbers_by, wrote_in};
ghost use Rattle.ca_world_servers.specs.Losing.{AreSeated};

use crate::coming::Coming;
use crate::handling::{begin_channel, begin_standing, end_channel, end_standing, switch_events};
use ca_queue::SubKey;
use ca_server_core::{Effect, ServerCore};
use ca_world_data::joined::Joined;

/// What the message at this place did, on the channels and subscriptions of its circuit. There is
/// room for it.
pub fn tell_on(joined: &mut Joined, effect: Effect, place: usize)
    requires seated { AreSeated (joined_of joined.old) }
    requires new { BeginsNew effect (map (λ q. queue_of q.0) joined.old.queues.items) }
    requires room { HasRoomBy effect joined.old }
    ensures { joined_of joined.new ≡ numbers_by effect place (joined_of joined.old) }
{
    match effect {
        Effect::Created(sid) => begin_channel(joined, sid, place),
        Effect::Subscribed(sid, sub) => begin_standing(joined, SubKey { sid, sub }, place),
        Effect::Cleared(sid) => end_channel(joined, sid),
        Effect::Cancelled(sid, sub) => end_standing(joined, SubKey { sid, sub }),
        Effect::Switched(on) => switch_events(joined, on),
        Effect::Quiet => {}
        Effect::Refused => {}
        Effect::WriteRefused(_) => {}
        Effect::Wrote(_) => {}
        Effect::Busied(_) => {}
        Effect::Queued(_) => {}
    }
}

/// Whether this write was applied, and then whether it made its record busy, by a message whose
/// step closed its end. It goes by the count of applied writes before it.
pub fn wrote_of(core: &ServerCore, applied: u64, write: &Option<Coming>) -> Option<bool>
    ensures { result ≡ wrote_in core.now applied write.now }
{
    if core.applied() <= applied {
        return None;
    }
    match write {
        Some(write) => Some(write.busies),
        None => None,
    }
}
