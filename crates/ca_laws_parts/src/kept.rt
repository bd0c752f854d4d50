//! What a server keeps for the messages of a circuit (open channels, subscriptions, queued updates,
//! waiting puts), and which of its events leave the meaning of ids as it was.
ghost use Rattle.std.specs.Prelude.{◌<◌, ◌≡◌, ◌⊎◌, List, Option, length, ℕ};
ghost use Rattle.ca_text.specs.Place.{At};
ghost use Rattle.ca_model.specs.Speech.{In};
ghost use Rattle.ca_model.specs.Events.{Event, Finish, Pump, Remove, ServerStep};
ghost use Rattle.ca_model.specs.Runs.{Happens, Runs};
ghost use Rattle.ca_model.specs.World.{IsSetting, Joined, ServerSide, Setting, World, opening};
ghost use Rattle.ca_model.specs.ServerEvents.{StepHandles};
ghost use Rattle.ca_laws_parts.specs.Calm.{IsCalm};
ghost use Rattle.ca_laws_parts.specs.Circuit.{HeldAt};
ghost use Rattle.ca_laws_parts.specs.Clients.{ClientsStand};
ghost use Rattle.ca_laws_parts.specs.Seats.{AllTakeSent, Sound, TakesSent};
ghost use Rattle.ca_laws_parts.specs.WritesSteps.{AllInStep};
ghost use Rattle.ca_laws_parts.specs.Awaited.{KeepsAwaited};
ghost use Rattle.ca_laws_parts.specs.Channels.{AllChannels};
ghost use Rattle.ca_laws_parts.specs.Kept.{kept};
ghost use Rattle.ca_laws_parts.specs.Messages.{AllMessages};
ghost use Rattle.ca_laws_parts.specs.Numbers.{AllNumbers};
ghost use Rattle.ca_laws_parts.specs.Own.{IsOwnPlace};

/// What a server keeps for a circuit after an event it kept before; or its end has just handled the
/// message at that place.
pub fn what_is_kept_was_kept()
    ensures { (s : Setting) (w new : World) (e : Event) (n p : ℕ) → IsSetting s → TakesSent w
        → Sound s w → Happens w e new → n < length w.circuits → In (kept new n) p
        → In (kept w n) p ⊎ IsOwnPlace w e n p }
{}

/// On each circuit that is open at its server, the subscriptions that stand and the channels that
/// are open came by messages that were handled there, and each number in a queue is that of a
/// subscription that stands: before any event, after each event, and after every run.
pub fn what_stands_came_by_messages()
    ensures begins { (s : Setting) → AllMessages (opening s) }
    ensures event { (s : Setting) (w new : World) (e : Event) → IsSetting s → TakesSent w
        → Happens w e new → Sound s w → AllMessages w → AllMessages new }
    ensures run { (s : Setting) (es : List Event) (stopped : Option Event) (w : World)
        → IsSetting s → Runs s es stopped w → AllTakeSent (opening s) es → AllMessages w }
    ensures numbers_begin { (s : Setting) → AllNumbers (opening s) }
    ensures numbers { (s : Setting) (w new : World) (e : Event) → IsSetting s → TakesSent w
        → Happens w e new → Sound s w → AllNumbers w → AllNumbers new }
    ensures numbers_run { (s : Setting) (es : List Event) (stopped : Option Event) (w : World)
        → IsSetting s → Runs s es stopped w → AllTakeSent (opening s) es → AllNumbers w }
{}

/// A calm event keeps what is held of each circuit, by what the server keeps for it then: from a
/// well-formed setting, if writes are sound, clients stand, and an open end at a server takes next
/// what was sent to it next. So it is in every run.
pub fn calm_events_keep_what_is_held()
    ensures { (s : Setting) (w new : World) (l : ℕ) (e : Event) → IsSetting s → TakesSent w
        → Sound s w → ClientsStand w → IsCalm e → Happens w e new → HeldAt (kept w l) w l
        → HeldAt (kept new l) new l }
{}

/// So do updates that leave the queues of an end, if also ends and circuits are in step, and what
/// stands came by messages.
pub fn updates_keep_what_is_held()
    ensures { (s : Setting) (w new : World) (k l : ℕ) → IsSetting s → TakesSent w → Sound s w
        → AllInStep w → AllMessages w → AllNumbers w → Happens w (Pump k) new
        → HeldAt (kept w l) w l → HeldAt (kept new l) new l }
{}

/// So does a removal: its SERVER_DISCONNs are about channels that were created on their circuits,
/// each under its SID and with its CID. What stands came by messages, and channels are those that
/// were created.
pub fn removals_keep_what_is_held()
    ensures { (s : Setting) (w new : World) (i l : ℕ) (name : List ℕ) → IsSetting s → TakesSent w
        → Sound s w → AllMessages w → AllChannels w → Happens w (Remove i name) new
        → HeldAt (kept w l) w l → HeldAt (kept new l) new l }
{}

/// And a finish, after which nothing is kept for its put, if the put whose reply the server's core
/// awaits to send was kept.
pub fn finishes_keep_what_is_held()
    ensures { (s : Setting) (w new : World) (i l : ℕ) (name : List ℕ) → IsSetting s → TakesSent w
        → Sound s w → AllMessages w → KeepsAwaited w → Happens w (Finish i name) new
        → HeldAt (kept w l) w l → HeldAt (kept new l) new l }
{}

/// A step of a server's end that handles a message keeps what is held of the other circuits. On its
/// own its server kept all that it keeps then, but for that message.
pub fn steps_keep_what_others_hold()
    ensures others { (s : Setting) (w new : World) (k l : ℕ) (j : Joined) (y : ServerSide)
        → IsSetting s → TakesSent w → Sound s w → Happens w (ServerStep k) new
        → At w.circuits k j → StepHandles w k j y new → (l ≡ k → ⊥) → HeldAt (kept w l) w l
        → HeldAt (kept new l) new l }
    ensures were { (s : Setting) (w new : World) (k p : ℕ) (j : Joined) → IsSetting s → TakesSent w
        → Sound s w → Happens w (ServerStep k) new → At w.circuits k j → In (kept new k) p
        → In (kept w k) p ⊎ (p ≡ length j.lists.handled) }
{}

/// Each open channel of a server's end was created on its circuit, and each creation that is noted
/// there is of an open channel: before any event, after each event, and after every run.
pub fn channels_are_those_that_were_created()
    ensures begins { (s : Setting) → AllChannels (opening s) }
    ensures event { (s : Setting) (w new : World) (e : Event) → TakesSent w → Happens w e new
        → Sound s w → AllChannels w → AllChannels new }
    ensures run { (s : Setting) (es : List Event) (stopped : Option Event) (w : World)
        → IsSetting s → Runs s es stopped w → AllTakeSent (opening s) es → AllChannels w }
{}
