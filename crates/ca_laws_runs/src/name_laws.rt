//! That channels and records keep their names, by the logs: a part of the clause `ActsOnRecord`.
ghost use Rattle.std.specs.Prelude.{List, Option};
ghost use Rattle.ca_model.specs.Events.{Event};
ghost use Rattle.ca_model.specs.Origins.{ComeFromEvents};
ghost use Rattle.ca_model.specs.Runs.{Runs};
ghost use Rattle.ca_model.specs.World.{IsSetting, Setting, World};
ghost use Rattle.ca_laws_runs.specs.Names.{AllKeepRecords, NamesAreKept};

/// After every run from a well-formed setting, by the log of each life of a server, ended or not: a
/// record is added once, and only while no other has its name; and it is removed only while it is
/// there.
pub fn records_keep_their_names()
    ensures { (s : Setting) (es : List Event) (stopped : Option Event) (w : World) → IsSetting s
        → Runs s es stopped w → AllKeepRecords w }
{}

/// After every such run each post, addition, removal and finish in the log of each life of a server
/// is from an event of its own, in their order, but for the records that the server was given.
pub fn entries_come_from_events()
    ensures { (s : Setting) (es : List Event) (stopped : Option Event) (w : World) → IsSetting s
        → Runs s es stopped w → ComeFromEvents s es w.server_logs }
{}

/// After every such run channels and records keep their names, by the logs of the lives that each
/// circuit joins: this is `names` of the statement's clause `ActsOnRecord`.
pub fn names_are_kept()
    ensures { (s : Setting) (es : List Event) (stopped : Option Event) (w : World) → IsSetting s
        → Runs s es stopped w → NamesAreKept w }
{}
