//! A channel that is live at its client is open at the server, and its record exists or a
//! SERVER_DISCONN is on its way. `servers_act_on_records` is the whole clause `ActsOnRecord`.
ghost use Rattle.std.specs.Prelude.{List, Option};
ghost use Rattle.ca_model.specs.Events.{Event};
ghost use Rattle.ca_model.specs.Runs.{AreEvents, Runs};
ghost use Rattle.ca_model.specs.World.{IsSetting, Setting, World};
ghost use Rattle.ca_laws_runs.specs.LiveRead.{AllCleared, LiveAreThere};
ghost use Rattle.ca_laws_runs.specs.Whole.{ActOnRecords};

/// After every run from a well-formed setting by well-formed events, a client that read a
/// SERVER_DISCONN has sent a CLEAR_CHANNEL, under its SID, of the channel that was created by the
/// message that the SERVER_DISCONN is about.
pub fn what_lost_its_record_is_cleared()
    ensures { (s : Setting) (es : List Event) (stopped : Option Event) (w : World) → IsSetting s
        → AreEvents es → Runs s es stopped w → AllCleared w }
{}

/// After every such run each channel that is live at its client is open at the server under the
/// same SID, for a record with the name under which the client opened it; and while the server's
/// end is open, that record is there, or a SERVER_DISCONN for the channel was sent and is unread.
/// This is `live` of the statement's clause `ActsOnRecord`.
pub fn live_channels_have_their_records()
    ensures { (s : Setting) (es : List Event) (stopped : Option Event) (w : World) → IsSetting s
        → AreEvents es → Runs s es stopped w → LiveAreThere w }
{}

/// So after every such run servers act on the records that their channels name: this is the
/// whole of the statement's clause `ActsOnRecord`, of every circuit with the logs of the
/// lives that it joins.
pub fn servers_act_on_records()
    ensures { (s : Setting) (es : List Event) (stopped : Option Event) (w : World) → IsSetting s
        → AreEvents es → Runs s es stopped w → ActOnRecords w }
{}
