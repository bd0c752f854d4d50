//! What callers learn of channels and subscriptions comes from the replies to their own CREATE_CHAN
//! or EVENT_ADD, and a subscriber gets the updates that were sent in order, with none left out.
ghost use Rattle.std.specs.Prelude.{List, Option};
ghost use Rattle.ca_model.specs.Events.{Event};
ghost use Rattle.ca_model.specs.Runs.{AreEvents, Runs};
ghost use Rattle.ca_model.specs.World.{IsSetting, Setting, World};
ghost use Rattle.ca_laws_runs.specs.ToldLines.{LastingAreTold, SubscribersSee, UpdatesAreOwn};

/// After every run from a well-formed setting by well-formed events, each update that a client's
/// log has was told when a message was read: an update of an EVENT_ADD that was meant as that
/// subscription, which its caller had neither cancelled nor cleared; and it is what that message
/// means. This is `own` of the statement's clause `Sees`.
pub fn updates_are_told_of_their_own()
    ensures { (s : Setting) (es : List Event) (stopped : Option Event) (w : World) → IsSetting s
        → AreEvents es → Runs s es stopped w → UpdatesAreOwn w }
{}

/// After every such run, each notice of a channel or of a subscription that does not tell
/// Disconnected was told when a message was read: a reply to its own CREATE_CHAN or EVENT_ADD,
/// which its caller had neither cleared nor cancelled; and it is what that message means. This is
/// `told` of the statement's clause `CompletesOnce`, of these notices.
pub fn channels_and_subscriptions_are_told_of_their_own()
    ensures { (s : Setting) (es : List Event) (stopped : Option Event) (w : World) → IsSetting s
        → AreEvents es → Runs s es stopped w → LastingAreTold w }
{}

/// After every such run a subscriber saw the updates of each EVENT_ADD in order and with none left
/// out: before an update was told, each that was sent earlier on the circuit for the same EVENT_ADD
/// was. With `own` this is the statement's clause `Sees`, complete.
pub fn subscribers_see_their_updates()
    ensures { (s : Setting) (es : List Event) (stopped : Option Event) (w : World) → IsSetting s
        → AreEvents es → Runs s es stopped w → SubscribersSee w }
{}
