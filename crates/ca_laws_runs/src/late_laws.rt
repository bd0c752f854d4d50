//! The late reply to a WRITE_NOTIFY on a slow record: one at most, sent once the put is finished.
//! Replies in the same step are in `answered_laws.rt`.
ghost use Rattle.std.specs.Prelude.{List, Option};
ghost use Rattle.ca_model.specs.Events.{Event};
ghost use Rattle.ca_model.specs.Runs.{Runs};
ghost use Rattle.ca_model.specs.World.{IsSetting, Setting, World};
ghost use Rattle.ca_laws_runs.specs.Lately.{AreAnsweredLately};

/// After every run from a well-formed setting each message that a server handled, on any circuit,
/// got one reply at most beside those in its step, and that is the one that was due late: to a put
/// that waited or made its record busy, with its type, its count and its IOID, telling that it was
/// done. It comes only once the put is finished, before its channel was cleared; and if it is
/// finished so, and the server's end is open, it was sent. Together with what
/// `messages_are_answered` says this is what the statement's `answered` asks of late replies.
pub fn late_replies_are_those_due()
    ensures { (s : Setting) (es : List Event) (stopped : Option Event) (w : World) → IsSetting s
        → Runs s es stopped w → AreAnsweredLately w }
{}
