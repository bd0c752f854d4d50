//! Every event keeps the records of a server in agreement with its log of writes, and so with the
//! replies that it sent. The laws over whole runs are in `written.rt`.
ghost use Rattle.std.specs.Prelude.{◌≡◌, List, Option, ℕ};
ghost use Rattle.ca_text.specs.Place.{At};
ghost use Rattle.ca_model.specs.Speech.{In, Stored};
ghost use Rattle.ca_model.specs.History.{Entry, Finished, Intent, Line, Noticed, On, Put, Request};
ghost use Rattle.ca_model.specs.History.{Withdrawn};
ghost use Rattle.ca_model.specs.Channels.{IsApplied, IsBusyUntil, IsDropped, Stands};
ghost use Rattle.ca_model.specs.Events.{Event};
ghost use Rattle.ca_model.specs.Runs.{Happens, Runs};
ghost use Rattle.ca_model.specs.World.{IsSetting, Setting, World, opening, told};
ghost use Rattle.ca_laws_parts.specs.Lives.{IsOfMessage};
ghost use Rattle.ca_laws_parts.specs.Seats.{AllTakeSent, Sound, TakesSent};
ghost use Rattle.ca_laws_parts.specs.Says.{AllAsked, AreNumbered, CompleteOnce, Says};
ghost use Rattle.ca_laws_parts.specs.WritesSteps.{AllInStep};
ghost use Rattle.ca_text.specs.declared.status.Status.{Status};
ghost use Rattle.ca_dbr.specs.declared.value.Outcome.TheVariants.{Done, Failed};

/// Whatever event happens to a world, its writes stay sound: the records of each server are what
/// the log of its life tells, each log has each write once, and each open circuit has its end at
/// its server. So it is after every run.
///
/// What the end of a circuit takes next is the message that its client sent next, in each world on
/// the way.
pub fn each_event_keeps_writes()
    ensures begins { (s : Setting) → IsSetting s → Sound s (opening s) }
    ensures event { (s : Setting) (w new : World) (e : Event) → IsSetting s → TakesSent w
        → Happens w e new → Sound s w → Sound s new }
    ensures run { (s : Setting) (es : List Event) (stopped : Option Event) (w : World)
        → IsSetting s → Runs s es stopped w → AllTakeSent (opening s) es → Sound s w }
{}

/// If writes are sound, as they are after every run, no write is applied twice, in all lives of all
/// servers; each has the value of its own message; a put that waits is dropped only with its
/// record, its channel or its circuit; and a record finishes one put at a time, each once.
pub fn sound_writes_are_applied_once()
    ensures once { (s : Setting) (w : World) → Sound s w → (n k l m i j r q : ℕ) (v u : Stored)
        → IsApplied (told w) n k l i r v → IsApplied (told w) n k m j q u → (l ≡ m) × (i ≡ j) }
    ensures own { (s : Setting) (w : World) → Sound s w → (n k l i r : ℕ) (v : Stored)
        → IsApplied (told w) n k l i r v → IsOfMessage w n k l i r v }
    ensures dropped { (s : Setting) (w : World) → Sound s w → (n k l i : ℕ) (y : List Entry)
        → At w.server_logs l y → At y i (Withdrawn n k) → IsDropped (told w) n k l i y }
    ensures finished { (s : Setting) (w : World) → Sound s w → (n k l e : ℕ) (y : List Entry)
        → At w.server_logs l y → At y e (Finished n k)
        → IsBusyUntil y n k e × ((f : ℕ) → At y f (Finished n k) → e ≡ f) }
{}

/// What replies say of writes is so by the logs of servers, before any event, after each event, and
/// after every run: a put that a reply reports Done is applied, and of a write that a reply reports
/// Failed the log never tells.
///
/// What the end of a circuit takes next is the message that its client sent next, in each world on
/// the way. At an event each open circuit is in step with its end at its server, and writes are
/// sound, as they are in every such run.
pub fn each_event_keeps_what_replies_say()
    ensures begins { (s : Setting) → Says (opening s) }
    ensures event { (s : Setting) (w new : World) (e : Event) → IsSetting s → TakesSent w
        → AllInStep w → Happens w e new → Sound s w → Says w → Says new }
    ensures run { (s : Setting) (es : List Event) (stopped : Option Event) (w : World)
        → IsSetting s → Runs s es stopped w → AllTakeSent (opening s) es → Says w }
{}

/// Each circuit that is open at its server is in step with its end there: the same subscriptions
/// are in both, each once, and the same updates wait in both. So it is before any event, after each
/// event, and after every run; and so each update that leaves a queue has its number in front
/// there, and is told as an update.
///
/// What the end of a circuit takes next is the message that its client sent next, in each world on
/// the way; and at an event writes are sound, as they are in every such run.
pub fn ends_and_circuits_stay_in_step()
    ensures begins { (s : Setting) → AllInStep (opening s) }
    ensures event { (s : Setting) (w new : World) (e : Event) → TakesSent w → Happens w e new
        → Sound s w → AllInStep w → AllInStep new }
    ensures run { (s : Setting) (es : List Event) (stopped : Option Event) (w : World)
        → IsSetting s → Runs s es stopped w → AllTakeSent (opening s) es → AllInStep w }
    ensures numbered { (w : World) → AllInStep w → AreNumbered w }
{}

/// If replies say what is so, a put that completed Done was applied, and a write whose caller was
/// told of a failure never is.
///
/// Each message of a client is what was meant, and notices tell what replies to them mean.
pub fn callers_are_told_what_became_of_writes()
    ensures done { (s : Setting) (w : World) → Sound s w → Says w → AllAsked w → CompleteOnce w
        → (life channel number : ℕ) (x : List Line) → At w.client_logs life x
        → In x (Noticed (On channel (Request Put number)) Done)
        → (n k l i r : ℕ) × (v : Stored)
        × Stands (told w) life (On channel (Request Put number)) n k
        × IsApplied (told w) n k l i r v }
    ensures failed { (s : Setting) (w : World) → Sound s w → Says w → AllAsked w → CompleteOnce w
        → (life n k l i r : ℕ) (intent : Intent) (status : Status) (x : List Line) (v : Stored)
        → At w.client_logs life x → In x (Noticed intent (Failed status))
        → Stands (told w) life intent n k → IsApplied (told w) n k l i r v → ⊥ }
{}
