//! The updates of a subscription that has not ended, sent and queued: rising numbers, each with the
//! value of its post, the newest among them. Subscriptions that ended are in `follow_laws.rt`.
ghost use Rattle.std.specs.Prelude.{List, Option};
ghost use Rattle.ca_model.specs.Events.{Event};
ghost use Rattle.ca_model.specs.Runs.{Happens, Runs};
ghost use Rattle.ca_model.specs.World.{IsSetting, Setting, World, opening};
ghost use Rattle.ca_laws_parts.specs.Seats.{Sound, TakesSent};
ghost use Rattle.ca_laws_runs.specs.Follows.{AllFollow};
ghost use Rattle.ca_laws_runs.specs.Clause.{StandingFollow};

/// Each subscription that is at an open end of a server came by an EVENT_ADD that was handled, on a
/// channel that is open and of a record that is there. What the server counts for it is how many
/// posts of that record it saw, by the log of the server's life. Its updates, those that were sent
/// and then those that wait, have numbers that rise and end in the newest, and each shows the post
/// of its number. So it is before any event, after each event, and after every run.
///
/// The setting is well-formed; nothing else is asked for.
pub fn subscriptions_follow_their_posts()
    ensures begins { (s : Setting) → AllFollow (opening s) }
    ensures event { (s : Setting) (w new : World) (e : Event) → TakesSent w → Happens w e new
        → Sound s w → AllFollow w → AllFollow new }
    ensures run { (s : Setting) (es : List Event) (stopped : Option Event) (w : World)
        → IsSetting s → Runs s es stopped w → AllFollow w }
{}

/// So the statement's clause of updates holds of each subscription that is at an open end: its
/// updates, sent and then queued, carry matching posts by rising numbers, each that was sent shows
/// its post, and the newest is among them. This is so after every run.
pub fn what_stands_follows_its_record()
    ensures follows { (w : World) → AllFollow w → StandingFollow w }
    ensures run { (s : Setting) (es : List Event) (stopped : Option Event) (w : World)
        → IsSetting s → Runs s es stopped w → StandingFollow w }
{}
