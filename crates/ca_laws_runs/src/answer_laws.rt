//! Why a server sends each message: every update comes from an accepted EVENT_ADD, every
//! SERVER_DISCONN from a removed record. Also that the server's records agree with its log.
ghost use Rattle.std.specs.Prelude.{List, Option};
ghost use Rattle.ca_model.specs.Events.{Event};
ghost use Rattle.ca_model.specs.Runs.{Runs};
ghost use Rattle.ca_model.specs.World.{IsSetting, Setting, World};
ghost use Rattle.ca_laws_runs.specs.Causing.{MessagesAreCaused};
ghost use Rattle.ca_laws_runs.specs.Knew.{AllUnended, KnowRecords};

/// After every run from a well-formed setting each message of a server has its cause: an
/// update an EVENT_ADD that was accepted, on a record; a SERVER_DISCONN a channel whose record
/// the log removed while it was open. And it was sent in the step of what it is about, or
/// later. This is `caused` of the statement's clause `AnswersOwn`. It holds also of what an
/// end sent that has ended.
pub fn messages_have_their_causes()
    ensures { (s : Setting) (es : List Event) (stopped : Option Event) (w : World) → IsSetting s
        → Runs s es stopped w → MessagesAreCaused w }
{}

/// After every run from a well-formed setting, what each server's core knows of its records is what
/// the log of its life says: which record has a name, and that none has another; its state, with
/// the value of its last post; whether a put makes it busy; and how many puts wait. This is
/// `records` of what a server knew.
pub fn servers_know_their_records()
    ensures { (s : Setting) (es : List Event) (stopped : Option Event) (w : World) → IsSetting s
        → Runs s es stopped w → KnowRecords w }
{}

/// After every run from a well-formed setting, of a subscription that is at an open end no cancel
/// was handled since its EVENT_ADD, and no clear of its channel.
pub fn what_stands_was_not_ended()
    ensures { (s : Setting) (es : List Event) (stopped : Option Event) (w : World) → IsSetting s
        → Runs s es stopped w → AllUnended w }
{}
