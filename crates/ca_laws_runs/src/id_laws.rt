//! A client gives an id (CID, IOID or subscription id) again only once it has read the message that
//! frees the last id with that index.
ghost use Rattle.std.specs.Prelude.{List, Option};
ghost use Rattle.ca_model.specs.Events.{Event};
ghost use Rattle.ca_model.specs.Runs.{AreEvents, Runs};
ghost use Rattle.ca_model.specs.World.{IsSetting, Setting, World};
ghost use Rattle.ca_laws_runs.specs.LegalIds.{ClientsGiveFreeIds};

/// After every run from a well-formed setting by well-formed events, a client gives an id on a
/// circuit only if each id of the same kind and index that it gave there before is free again: it
/// read what frees it between. This is `ids` of the statement's `LegalClient`. It holds also of
/// what an end sent that has ended.
pub fn clients_give_free_ids()
    ensures { (s : Setting) (es : List Event) (stopped : Option Event) (w : World) → IsSetting s
        → AreEvents es → Runs s es stopped w → ClientsGiveFreeIds w }
{}
