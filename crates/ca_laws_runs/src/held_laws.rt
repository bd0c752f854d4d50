//! That each id that is on its way on a circuit still means what it was given for, in every run:
//! the fact by which no reply is taken for another's. Begin at `all_circuits_are_held`.
ghost use Rattle.std.specs.Prelude.{List, Option, ℕ};
ghost use Rattle.ca_text.specs.Place.{At};
ghost use Rattle.ca_model.specs.History.{Sent, Told};
ghost use Rattle.ca_model.specs.Speech.{Id, Speaks};
ghost use Rattle.ca_model.specs.Channels.{Suits};
ghost use Rattle.ca_model.specs.Causes.{TakesOwn};
ghost use Rattle.ca_model.specs.Events.{ClientStep, Event, ServerStep};
ghost use Rattle.ca_model.specs.Runs.{AreEvents, Happens, Runs};
ghost use Rattle.ca_model.specs.World.{IsSetting, Joined, Setting, World};
ghost use Rattle.ca_laws_runs.specs.Held.{AllCircuitsHeld, IsKnownStep};
ghost use Rattle.ca_laws_runs.specs.About.{ReadsAbout};
ghost use Rattle.ca_laws_runs.specs.Tells.{NoticesTell};
ghost use Rattle.ca_laws_runs.specs.Under.{AllSayRight};
ghost use Rattle.ca_laws_runs.specs.Sides.{AllSided};

/// In every run from a well-formed setting by well-formed events all circuits are held, by what
/// their servers keep: ids in flight mean their own, and clients hold each id that may still come
/// back.
pub fn all_circuits_are_held()
    ensures { (s : Setting) (es : List Event) (stopped : Option Event) (w : World) → IsSetting s
        → AreEvents es → Runs s es stopped w → AllCircuitsHeld w }
{}

/// In every such run clients go by their SIDs: each message on a channel has the SID under which
/// that was created last; a channel is cleared before it is created again on its circuit; and an
/// EVENT_CANCEL has the subscription id of its EVENT_ADD. A channel that is live at a client was
/// created by a reply that the client read, and each that was created so is live, or was cleared
/// since.
pub fn clients_go_by_their_sids()
    ensures says { (s : Setting) (es : List Event) (stopped : Option Event) (w : World)
        → IsSetting s → AreEvents es → Runs s es stopped w → AllSayRight w }
    ensures sides { (s : Setting) (es : List Event) (stopped : Option Event) (w : World)
        → IsSetting s → AreEvents es → Runs s es stopped w → AllSided w }
{}

/// In every such run each message of a client is what was meant, and a client takes an id in a
/// message of its server for what that message is about: these are `asked` and `own` of the
/// statement's clause `AnswersOwn`.
pub fn messages_mean_their_own()
    ensures asked { (s : Setting) (es : List Event) (stopped : Option Event) (w : World)
        → IsSetting s → AreEvents es → Runs s es stopped w → (n k : ℕ) (c : Joined) (q : Sent)
        → At w.circuits n c → At c.lists.up k q → Suits q.intent q.message }
    ensures own { (s : Setting) (es : List Event) (stopped : Option Event) (w : World)
        → IsSetting s → AreEvents es → Runs s es stopped w → (n j : ℕ) (c : Joined) (t : Told)
        (id : Id) → At w.circuits n c → At c.lists.down j t → Speaks t.message id
        → TakesOwn c.lists j t.place id }
{}

/// After every such run, what a server's end takes next it handles as it was meant: a WRITE on the
/// channel for which it was meant; and for what a CLEAR_CHANNEL or an EVENT_CANCEL ends nothing is
/// kept then.
pub fn what_servers_take_is_handled_as_it_was_meant()
    ensures { (s : Setting) (es : List Event) (stopped : Option Event) (w new : World) (k : ℕ)
        → IsSetting s → AreEvents es → Runs s es stopped w → Happens w (ServerStep k) new
        → IsKnownStep w (ServerStep k) new }
{}

/// After every such run, what a client's end takes next is about what it finds there, and
/// each notice that the client makes of it says what it means, of what was meant by the
/// message that it is about.
pub fn what_clients_take_is_told_of_its_own()
    ensures about { (s : Setting) (es : List Event) (stopped : Option Event) (w new : World) (k : ℕ)
        → IsSetting s → AreEvents es → Runs s es stopped w → Happens w (ClientStep k) new
        → ReadsAbout w k }
    ensures tells { (s : Setting) (es : List Event) (stopped : Option Event) (w new : World) (k : ℕ)
        → IsSetting s → AreEvents es → Runs s es stopped w → Happens w (ClientStep k) new
        → NoticesTell w k }
{}
