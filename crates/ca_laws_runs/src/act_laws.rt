//! A server handles each message on the record that its channel names, from the CREATE_CHAN on. The
//! whole clause `ActsOnRecord` is put together in `live_laws.rt`.
ghost use Rattle.std.specs.Prelude.{List, Option};
ghost use Rattle.ca_model.specs.Events.{Event};
ghost use Rattle.ca_model.specs.Runs.{AreEvents, Runs};
ghost use Rattle.ca_model.specs.World.{IsSetting, Setting, World};
ghost use Rattle.ca_laws_runs.specs.Acts.{ActsAre, CreationsAre, LiveAreOpen, OpenOnce};

/// After every run each reply that creates a channel created it for a record that the server had
/// then under the name in the CREATE_CHAN: this is `Created` of the statement.
pub fn channels_are_created_for_their_records()
    ensures { (s : Setting) (es : List Event) (stopped : Option Event) (w : World) → IsSetting s
        → Runs s es stopped w → CreationsAre w }
{}

/// After every run from a well-formed setting by well-formed events each message on a channel that
/// a server handled was handled on the record that the channel names: on that of the channel which
/// was open then under its SID, and which has the name under which the client opened its channel.
/// This is `acts` of the statement's clause `ActsOnRecord`. It holds also of ends that have ended.
pub fn messages_act_on_the_record_that_is_named()
    ensures { (s : Setting) (es : List Event) (stopped : Option Event) (w : World) → IsSetting s
        → AreEvents es → Runs s es stopped w → ActsAre w }
{}

/// After every such run each channel that is live at its client is open at the server under the
/// same SID, for a record with the name under which the client opened it. This is `live` of the
/// clause but for its last part, that the record is there or a SERVER_DISCONN is unread.
pub fn live_channels_are_open()
    ensures { (s : Setting) (es : List Event) (stopped : Option Event) (w : World) → IsSetting s
        → AreEvents es → Runs s es stopped w → LiveAreOpen w }
{}

/// In every world to which a run leads, whatever its setting and events, no log of a client reports
/// of a channel twice that it was opened: this is the client's part of `names` of the clause.
pub fn a_channel_is_opened_once()
    ensures { (s : Setting) (es : List Event) (stopped : Option Event) (w : World)
        → Runs s es stopped w → OpenOnce w }
{}
