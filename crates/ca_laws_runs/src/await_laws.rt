//! A put that waits has a record to wait for: when a record is removed, all puts that wait for it
//! are withdrawn.
ghost use Rattle.std.specs.Prelude.{List, Option};
ghost use Rattle.ca_model.specs.Events.{Event};
ghost use Rattle.ca_model.specs.Runs.{Runs};
ghost use Rattle.ca_model.specs.World.{IsSetting, Setting, World};
ghost use Rattle.ca_laws_runs.specs.Awaiting.{AllAwaiting};

/// After every run from a well-formed setting each put that waits, by the log of the present life
/// of a server, waits for a record that is there: when a record is removed, all puts that wait
/// for it are withdrawn.
pub fn puts_wait_for_records()
    ensures { (s : Setting) (es : List Event) (stopped : Option Event) (w : World) → IsSetting s
        → Runs s es stopped w → AllAwaiting w }
{}
