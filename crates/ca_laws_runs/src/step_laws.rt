//! What each event keeps of the ids that are on their way: the induction over runs, under
//! conditions on the steps of ends (`what_is_held_in_runs`), without which `held_laws.rt` has it.
ghost use Rattle.std.specs.Prelude.{◌≡◌, ◌∷◌, List, Option, [], length, true, ℕ};
ghost use Rattle.ca_text.specs.Place.{At};
ghost use Rattle.ca_wire.specs.Fields.{Fields};
ghost use Rattle.ca_model.specs.ServerSteps.{Handled, Stepped};
ghost use Rattle.ca_model.specs.History.{Told};
ghost use Rattle.ca_model.specs.Speech.{Id, In, Speaks};
ghost use Rattle.ca_model.specs.Causes.{TakesOwn};
ghost use Rattle.ca_model.specs.Events.{Event, Finish, ServerStep};
ghost use Rattle.ca_model.specs.Runs.{AreEvents, Happens, Runs};
ghost use Rattle.ca_model.specs.ServerEvents.{ServerStepped, StepHandles};
ghost use Rattle.ca_model.specs.World.{IsSetting, Joined, ServerSide, Setting, World, opening};
ghost use Rattle.ca_laws_parts.specs.Runs.{IsReached};
ghost use Rattle.ca_laws_parts.specs.Awaited.{KeepsAwaited};
ghost use Rattle.ca_laws_parts.specs.Kept.{kept};
ghost use Rattle.ca_laws_parts.specs.Circuit.{HeldAt};
ghost use Rattle.ca_laws_parts.specs.Says.{AllAsked};
ghost use Rattle.ca_laws_runs.specs.HeldAnswering.{AllAnswer};
ghost use Rattle.ca_laws_runs.specs.Creations.{AllCreations};
ghost use Rattle.ca_laws_runs.specs.Held.{AllCircuitsHeld, AllKnown, IsKnownStep};
ghost use Rattle.ca_laws_runs.specs.Worlds.{IsOther, IsOwnNext, ServersStand};

/// Each put that makes a record of a server busy, or waits, came on a channel whose handle had been
/// given before it; if that channel is open still, it was created before the put, and the channel
/// of a put that waits is open. This holds beside what is known of writes, clients, bytes and what
/// is on circuits: before any event, after each event, and after every run.
///
/// The setting is well-formed; nothing else is asked for.
pub fn puts_came_on_their_channels()
    ensures begins { (s : Setting) → IsSetting s → ServersStand s (opening s) }
    ensures event { (s : Setting) (w new : World) (e : Event) → IsSetting s → Happens w e new
        → ServersStand s w → ServersStand s new }
    ensures run { (s : Setting) (es : List Event) (stopped : Option Event) (w : World)
        → IsSetting s → Runs s es stopped w → ServersStand s w }
{}

/// In every world to which a run leads, the put whose reply a server's core awaits to send is kept
/// on the circuit where it came.
pub fn what_is_awaited_is_kept()
    ensures { (w : World) → IsReached w → KeepsAwaited w }
{}

/// After every run, each event but a step of an end keeps what is held of each circuit that
/// is there, by what its server keeps for it then: also updates that leave their queues, a
/// finish and a removal.
pub fn events_keep_what_is_held()
    ensures { (w new : World) (l : ℕ) (e : Event) → IsReached w → IsOther e → Happens w e new
        → HeldAt (kept w l) w l → HeldAt (kept new l) new l }
{}

/// After every run, a step of a server's end that handles no message keeps what is held of each
/// circuit, and one that handles a message that of the other circuits. A message that has one reply
/// leaves nothing that is kept for it.
///
/// On its own circuit a message keeps what is held if the two facts of `IsOwnNext` are known of it.
pub fn a_servers_step_keeps_what_is_held()
    ensures unhandled { (w new : World) (k l : ℕ) (did : Stepped)
        (happens : Happens w (ServerStep k) new) → IsReached w → (did ≡ Handled → ⊥)
        → ServerStepped w k happens.0.j happens.0.y did new → HeldAt (kept w l) w l
        → HeldAt (kept new l) new l }
    ensures others { (w new : World) (k l : ℕ) (j : Joined) (y : ServerSide) → IsReached w
        → Happens w (ServerStep k) new → StepHandles w k j y new → At w.circuits k j
        → (l ≡ k → ⊥) → HeldAt (kept w l) w l → HeldAt (kept new l) new l }
    ensures gone { (w new : World) (k : ℕ) (j : Joined) (y : ServerSide)
        (f : StepHandles w k j y new) (m : Fields) → IsReached w → Happens w (ServerStep k) new
        → At w.circuits k j → At w.servers j.server y → j.lists.server_open ≡ true
        → (f.steps.0).replies ≡ m ∷ [] → In (kept new k) (length j.lists.handled) → ⊥ }
    ensures own { (w new : World) (k : ℕ) (j : Joined) (y : ServerSide)
        (f : StepHandles w k j y new) → IsReached w → Happens w (ServerStep k) new
        → At w.circuits k j → At w.servers j.server y → j.lists.server_open ≡ true
        → IsOwnNext w new k j y f → HeldAt (kept w k) w k → HeldAt (kept new k) new k }
{}

/// What is held of all circuits stays so over every event, and over every run, as far as it is
/// known of each message that an end takes what it is about: `IsOwnNext` at a server, and `IsHeard`
/// at a client. Nothing else is asked for except that setting and events are well-formed.
pub fn what_is_held_in_runs()
    ensures begins { (s : Setting) → AllCircuitsHeld (opening s) }
    ensures event { (s : Setting) (es : List Event) (stopped : Option Event) (w new : World)
        (e : Event) → IsSetting s → AreEvents es → Runs s es stopped w → Happens w e new
        → IsKnownStep w e new → AllCircuitsHeld w → AllCircuitsHeld new }
    ensures run { (s : Setting) (es : List Event) (stopped : Option Event) (w : World)
        → IsSetting s → AreEvents es → Runs s es stopped w → AllKnown (opening s) es
        → AllCircuitsHeld w }
{}

/// If that is so, each message of a client is what was meant, and each id in a message of a server
/// is taken for what that message is about, whatever ids were given again.
pub fn what_is_held_is_what_was_meant()
    ensures asked { (w : World) → AllCircuitsHeld w → AllAsked w }
    ensures own { (w : World) → AllCircuitsHeld w → (n i : ℕ) (c : Joined) (t : Told) (id : Id)
        → At w.circuits n c → At c.lists.down i t → Speaks t.message id
        → TakesOwn c.lists i t.place id }
{}

/// In every world to which a run leads, each channel that is noted as open on a circuit was created
/// by a reply about its CREATE_CHAN, under its SID; no CLEAR_CHANNEL of that SID was handled since;
/// and no two are open under one SID.
pub fn open_channels_were_told()
    ensures { (w : World) → IsReached w → AllCreations w }
{}

/// In every world to which a run leads, each reply of a server is about a message of its kind: a
/// CREATE_CH_FAIL about a CREATE_CHAN, a CLEAR_CHANNEL about the client's, and an EVENT_ADD
/// about an EVENT_CANCEL.
pub fn replies_answer_their_kind()
    ensures { (w : World) → IsReached w → AllAnswer w }
{}
