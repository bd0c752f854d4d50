//! When a server answers ECA_BADCHID: only if the record of the channel had been removed by then,
//! and then to every read, put, write and subscription that it answers.
ghost use Rattle.std.specs.Prelude.{List, Option};
ghost use Rattle.ca_model.specs.Events.{Event};
ghost use Rattle.ca_model.specs.Runs.{Runs};
ghost use Rattle.ca_model.specs.World.{IsSetting, Setting, World};
ghost use Rattle.ca_laws_runs.specs.Refused.{AreRefused, AreRetired};

/// After every run from a well-formed setting a server answered a message by BADCHID only if the
/// record on which it was handled had been removed then. This is `retired` of the statement's
/// clause `ActsOnRecord`. It holds also of ends that have ended.
pub fn bad_channels_lost_their_records()
    ensures { (s : Setting) (es : List Event) (stopped : Option Event) (w : World) → IsSetting s
        → Runs s es stopped w → AreRetired w }
{}

/// After every such run each reply to a read, a put, a write or a subscription that was handled on
/// a record which had been removed then reports BADCHID, also if another record has the name by
/// then. This is `refused` of the clause.
pub fn channels_of_removed_records_are_bad()
    ensures { (s : Setting) (es : List Event) (stopped : Option Event) (w : World) → IsSetting s
        → Runs s es stopped w → AreRefused w }
{}
