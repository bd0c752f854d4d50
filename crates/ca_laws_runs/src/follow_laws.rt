//! The updates of every accepted EVENT_ADD follow the posts of its record, also after the
//! subscription or the circuit has ended. Begin at `follows_record_in_runs`; `post_laws.rt` comes
//! before.
ghost use Rattle.std.specs.Prelude.{List, Option};
ghost use Rattle.ca_model.specs.Events.{Event};
ghost use Rattle.ca_model.specs.Runs.{Runs};
ghost use Rattle.ca_model.specs.World.{IsSetting, Setting, World};
ghost use Rattle.ca_laws_runs.specs.Known.{AllKnown};
ghost use Rattle.ca_laws_runs.specs.Listed.{AllListed};
ghost use Rattle.ca_laws_runs.specs.Record.{AllFollowRecord, FollowRecord};
ghost use Rattle.ca_laws_runs.specs.Sent.{AllSent};

/// After every run each record that the log of a server's life added, and did not remove, is among
/// the records of that server, under its name and number.
pub fn listed_records_are_there()
    ensures { (s : Setting) (es : List Event) (stopped : Option Event) (w : World) → IsSetting s
        → Runs s es stopped w → AllListed w }
{}

/// After every run each EVENT_ADD that was handled at an open end of a server was refused, or its
/// subscription stands, or that was cancelled, cleared or lost its record. The record on which the
/// EVENT_ADD of a subscription that stands acted, by the lists of its circuit, is the one that has
/// the subscription's name.
pub fn what_was_added_stands_or_is_over()
    ensures { (s : Setting) (es : List Event) (stopped : Option Event) (w : World) → IsSetting s
        → Runs s es stopped w → AllKnown w }
{}

/// After every run each update that was sent on a circuit, whether that has ended or not, shows the
/// post of its number, of the record on which its EVENT_ADD acted; and the numbers of one EVENT_ADD
/// rise.
pub fn what_was_sent_shows_its_posts()
    ensures { (s : Setting) (es : List Event) (stopped : Option Event) (w : World) → IsSetting s
        → Runs s es stopped w → AllSent w }
{}

/// So after every run the updates of each accepted EVENT_ADD follow its record, as the statement
/// has it: those that were sent and then those that are queued carry matching posts by rising
/// numbers, each that was sent shows its post, and while the subscription lasts the newest is among
/// them. This holds also of subscriptions that were cancelled, cleared or lost, and of circuits
/// that have ended. The logs of the two lives that each circuit joins are there, so it is the
/// statement's own clause.
///
/// The setting is well-formed; nothing else is asked for.
pub fn follows_record_in_runs()
    ensures each { (s : Setting) (es : List Event) (stopped : Option Event) (w : World)
        → IsSetting s → Runs s es stopped w → AllFollowRecord w }
    ensures clause { (s : Setting) (es : List Event) (stopped : Option Event) (w : World)
        → IsSetting s → Runs s es stopped w → FollowRecord w }
{}
