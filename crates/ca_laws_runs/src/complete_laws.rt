//! What callers learn of their requests and channels: each result comes from the reply to that very
//! request, and comes once. Begin at `calls_complete_once`, the whole clause `CompletesOnce`.
ghost use Rattle.std.specs.Prelude.{List, Option};
ghost use Rattle.ca_model.specs.Events.{Event};
ghost use Rattle.ca_model.specs.Runs.{AreEvents, Runs};
ghost use Rattle.ca_model.specs.World.{IsSetting, Setting, World, told};
ghost use Rattle.ca_laws_parts.specs.Says.{CompleteOnce};
ghost use Rattle.ca_laws_runs.specs.ToldParts.{CreationsAreTold, DoneIsApplied, FailedIsNot};
ghost use Rattle.ca_laws_runs.specs.ToldParts.{LostWereLive, NoneIsLostSince, NoticesAreTold};
ghost use Rattle.ca_laws_runs.specs.ToldParts.{RequestsAreTold, UsesAreToldOnce};

/// After every run from a well-formed setting by well-formed events, each notice of a read, a
/// put or a plain write that does not tell Disconnected was told when a message was read: the
/// reply to that very request, or the ERROR that quotes it, whose caller had not cleared the
/// channel; and it is what that message means. This is `told` of the statement's clause
/// `CompletesOnce`, of these notices.
pub fn requests_are_told_of_their_own()
    ensures { (s : Setting) (es : List Event) (stopped : Option Event) (w : World) → IsSetting s
        → AreEvents es → Runs s es stopped w → RequestsAreTold w }
{}

/// After every such run, a client reports each read, put, plain write and subscription once at
/// most. This is `once` of the clause, complete.
pub fn uses_are_told_of_once()
    ensures { (s : Setting) (es : List Event) (stopped : Option Event) (w : World) → IsSetting s
        → AreEvents es → Runs s es stopped w → UsesAreToldOnce w }
{}

/// After every such run a put whose caller was told Done was applied, and a put or a plain
/// write whose caller was told of a failure never is. These are `done` and `failed` of the
/// statement's clause `NotTwice`.
pub fn callers_are_told_what_became_of_their_writes()
    ensures done { (s : Setting) (es : List Event) (stopped : Option Event) (w : World)
        → IsSetting s → AreEvents es → Runs s es stopped w → DoneIsApplied (told w) }
    ensures failed { (s : Setting) (es : List Event) (stopped : Option Event) (w : World)
        → IsSetting s → AreEvents es → Runs s es stopped w → FailedIsNot (told w) }
{}

/// After every such run each notice in a client's log says what the reply to its own message
/// means, in the step that read that reply, while its caller had not ended it; or it reports
/// Disconnected, and then the client's end of the circuit has ended, or the channel was cleared
/// by its caller before, or a SERVER_DISCONN for it was read in that step. This is `told` of
/// the clause, complete.
pub fn notices_are_told_of_their_own()
    ensures { (s : Setting) (es : List Event) (stopped : Option Event) (w : World) → IsSetting s
        → AreEvents es → Runs s es stopped w → NoticesAreTold w }
{}

/// After every such run each reply that creates a channel and that its client read was told first
/// of all in the step that read it, Done; or the client cleared the channel after that creation,
/// since its caller had given it up. So a channel that was ever live was told so: the beginning of
/// `lost` of the clause.
pub fn creations_are_told()
    ensures { (s : Setting) (es : List Event) (stopped : Option Event) (w : World) → IsSetting s
        → AreEvents es → Runs s es stopped w → CreationsAreTold (told w) }
{}

/// After every such run a channel that its caller is told to be lost was told to be live before,
/// as the reply was read by which it was created on its circuit, and no loss of it was told
/// since; and the client's end of that circuit has ended, or the SERVER_DISCONN for that
/// creation was read in the step that told the loss. Its caller had not cleared it. This is
/// `lost` of the clause, complete.
pub fn lost_channels_were_live()
    ensures { (s : Setting) (es : List Event) (stopped : Option Event) (w : World) → IsSetting s
        → AreEvents es → Runs s es stopped w → LostWereLive w }
{}

/// After every such run, while the client's end of a circuit is open and the SID of a channel was
/// not cleared there since a reply that was read created it, no loss of that channel was told
/// since. This is the core of what `lost` of the clause says of the lines between.
pub fn live_channels_were_not_lost()
    ensures { (s : Setting) (es : List Event) (stopped : Option Event) (w : World) → IsSetting s
        → AreEvents es → Runs s es stopped w → NoneIsLostSince (told w) }
{}

/// After every such run the log of each life of a client says of its calls and channels what the
/// statement's clause `CompletesOnce` says: the clause, complete.
pub fn calls_complete_once()
    ensures { (s : Setting) (es : List Event) (stopped : Option Event) (w : World) → IsSetting s
        → AreEvents es → Runs s es stopped w → CompleteOnce w }
{}
