//! Over every run: no write is applied twice, and a caller's Done or Failed is right. Begin here;
//! `writes_in_runs.rt` has the steps and `write_laws.rt` the single messages.
ghost use Rattle.std.specs.Prelude.{◌≡◌, List, ℕ};
ghost use Rattle.ca_text.specs.Place.{At};
ghost use Rattle.ca_text.specs.declared.status.Status.{Status};
ghost use Rattle.ca_dbr.specs.declared.value.Outcome.TheVariants.{Done, Failed};
ghost use Rattle.ca_model.specs.Speech.{In, Stored};
ghost use Rattle.ca_model.specs.History.{Entry, Finished, Intent, Line, Noticed, On, Put, Request};
ghost use Rattle.ca_model.specs.History.{Withdrawn};
ghost use Rattle.ca_model.specs.Channels.{IsApplied, IsBusyUntil, IsDropped, Stands};
ghost use Rattle.ca_model.specs.World.{World, told};
ghost use Rattle.ca_laws_parts.specs.Lives.{IsOfMessage};
ghost use Rattle.ca_laws_parts.specs.Says.{AllAsked, CompleteOnce, Says};
ghost use Rattle.ca_laws_parts.specs.WritesSteps.{AllInStep};
ghost use Rattle.ca_laws_parts.specs.Runs.{IsReached};

/// After every run no write is applied twice, in all lives of all servers, and each that is applied
/// has the value of its own message. A put that waits is dropped only with its record, its channel
/// or its circuit. A record finishes one put at a time, each once. What replies say of writes is so
/// by the logs of servers; each message of a client is of the kind that was meant; and the
/// subscriptions and the updates of each open end are in step with its circuit.
///
/// The setting of the run is well-formed; nothing else is asked for.
pub fn writes_are_applied_once_in_runs()
    ensures once { (w : World) → IsReached w → (n k l m i j r q : ℕ) (v u : Stored)
        → IsApplied (told w) n k l i r v → IsApplied (told w) n k m j q u → (l ≡ m) × (i ≡ j) }
    ensures own { (w : World) → IsReached w → (n k l i r : ℕ) (v : Stored)
        → IsApplied (told w) n k l i r v → IsOfMessage w n k l i r v }
    ensures dropped { (w : World) → IsReached w → (n k l i : ℕ) (y : List Entry)
        → At w.server_logs l y → At y i (Withdrawn n k) → IsDropped (told w) n k l i y }
    ensures finished { (w : World) → IsReached w → (n k l e : ℕ) (y : List Entry)
        → At w.server_logs l y → At y e (Finished n k)
        → IsBusyUntil y n k e × ((f : ℕ) → At y f (Finished n k) → e ≡ f) }
    ensures replies { (w : World) → IsReached w → Says w }
    ensures asked { (w : World) → IsReached w → AllAsked w }
    ensures in_step { (w : World) → IsReached w → AllInStep w }
{}

/// After every run a put whose completion was told Done was applied, and a write whose caller was
/// told of a failure never is, if notices tell what replies to their own messages mean.
///
/// The setting of the run is well-formed.
pub fn callers_are_told_right_in_runs()
    ensures done { (w : World) → IsReached w → CompleteOnce w → (life channel number : ℕ)
        (x : List Line) → At w.client_logs life x
        → In x (Noticed (On channel (Request Put number)) Done)
        → (n k l i r : ℕ) × (v : Stored)
        × Stands (told w) life (On channel (Request Put number)) n k
        × IsApplied (told w) n k l i r v }
    ensures failed { (w : World) → IsReached w → CompleteOnce w → (life n k l i r : ℕ)
        (intent : Intent) (status : Status) (x : List Line) (v : Stored) → At w.client_logs life x
        → In x (Noticed intent (Failed status)) → Stands (told w) life intent n k
        → IsApplied (told w) n k l i r v → ⊥ }
{}
