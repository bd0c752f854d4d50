//! A channel that a server has retired lost its record, and its client was sent a SERVER_DISCONN.
ghost use Rattle.std.specs.Prelude.{List, Option};
ghost use Rattle.ca_model.specs.Events.{Event};
ghost use Rattle.ca_model.specs.Runs.{Runs};
ghost use Rattle.ca_model.specs.World.{IsSetting, Setting, World};
ghost use Rattle.ca_laws_runs.specs.Gone.{AllGone};

/// After every run from a well-formed setting, each channel that is retired in a server's core, on
/// an open end, lost its record: the log of the server's life removed the record that had its name
/// when it was created, and a SERVER_DISCONN about its CREATE_CHAN was sent.
pub fn retired_channels_lost_their_records()
    ensures { (s : Setting) (es : List Event) (stopped : Option Event) (w : World) → IsSetting s
        → Runs s es stopped w → AllGone w }
{}
