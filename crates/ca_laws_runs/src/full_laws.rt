//! A server that has no SID left for a circuit is right: by the messages on that circuit, every
//! index is in use or has run out of generations.
ghost use Rattle.std.specs.Prelude.{List, Option};
ghost use Rattle.ca_model.specs.Events.{Event};
ghost use Rattle.ca_model.specs.Runs.{Runs};
ghost use Rattle.ca_model.specs.World.{IsSetting, Setting, World};
ghost use Rattle.ca_laws_runs.specs.KnewFull.{KnowFull};

/// After every run from a well-formed setting, a server's core that has no SID to give on an open
/// end has none by the lists: each index is that of an open channel, or a channel was created there
/// as often as there are generations. This is `full` of what a server knew.
pub fn servers_know_when_they_are_full()
    ensures { (s : Setting) (es : List Event) (stopped : Option Event) (w : World) → IsSetting s
        → Runs s es stopped w → KnowFull w }
{}
