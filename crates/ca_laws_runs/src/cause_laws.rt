//! Messages of a server come after the message that they are about; a channel gets at most one
//! SERVER_DISCONN and a message at most one ERROR, which quotes its header.
ghost use Rattle.std.specs.Prelude.{List, Option};
ghost use Rattle.ca_model.specs.Events.{Event};
ghost use Rattle.ca_model.specs.Runs.{Runs};
ghost use Rattle.ca_model.specs.World.{IsSetting, Setting, World};
ghost use Rattle.ca_laws_runs.specs.Causes.{ChannelsAreRemovedOnce, ErrorsQuoteTheirOwn};
ghost use Rattle.ca_laws_runs.specs.Causes.{MessagesAreRefusedOnce, MessagesComeAfter};

/// After every run from a well-formed setting each message of a server, on each circuit, was sent
/// in the step that handled the message that it is about, or after that step: replies, late replies
/// to puts, updates and SERVER_DISCONNs. This is the second half of `caused` of the statement's
/// clause `AnswersOwn`. It holds also of what an end sent that has ended.
pub fn messages_come_after_what_they_are_about()
    ensures { (s : Setting) (es : List Event) (stopped : Option Event) (w : World) → IsSetting s
        → Runs s es stopped w → MessagesComeAfter w }
{}

/// After every run from a well-formed setting no two SERVER_DISCONNs on a circuit are about one
/// message of its client, and so no channel has two: this is `removed` of the statement's clause
/// `AnswersOwn`. It holds also of what an end sent that has ended.
pub fn channels_are_removed_once()
    ensures { (s : Setting) (es : List Event) (stopped : Option Event) (w : World) → IsSetting s
        → Runs s es stopped w → ChannelsAreRemovedOnce w }
{}

/// After every run from a well-formed setting no two ERRORs on a circuit are about one message of
/// its client, and each quotes the header of the message that it is about: each is sent as that is
/// handled, before anything else. So a plain write is refused once.
pub fn messages_are_refused_once()
    ensures once { (s : Setting) (es : List Event) (stopped : Option Event) (w : World)
        → IsSetting s → Runs s es stopped w → MessagesAreRefusedOnce w }
    ensures quote { (s : Setting) (es : List Event) (stopped : Option Event) (w : World)
        → IsSetting s → Runs s es stopped w → ErrorsQuoteTheirOwn w }
{}
