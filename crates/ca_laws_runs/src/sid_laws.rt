//! A message on a channel carries the SID that the channel got when it was last created, so the
//! server handles it on the channel that the client meant.
ghost use Rattle.std.specs.Prelude.{◌+◌, ◌<◌, ◌≡◌, length, true, ℕ};
ghost use Rattle.ca_text.specs.Place.{At};
ghost use Rattle.ca_text.specs.declared.command.Command.TheVariants.{Write};
ghost use Rattle.ca_link.specs.Link.{with_rest};
ghost use Rattle.ca_model.specs.History.{Ask, Circuit, Create, On, Reply, Sent, Told};
ghost use Rattle.ca_model.specs.ServerSteps.{knows};
ghost use Rattle.ca_model.specs.Speech.{Creates, Is, sid_in};
ghost use Rattle.ca_model.specs.Events.{ServerStep};
ghost use Rattle.ca_model.specs.Runs.{Happens};
ghost use Rattle.ca_model.specs.ServerEvents.{StepHandles};
ghost use Rattle.ca_model.specs.World.{Joined, ServerSide, World};
ghost use Rattle.ca_laws_parts.specs.Flows.{IsCidOf, with_sent, with_told};
ghost use Rattle.ca_laws_parts.specs.Sids.{IsClearedWithin};
ghost use Rattle.ca_laws_parts.specs.Replies.{IsCidAt};
ghost use Rattle.ca_laws_parts.specs.Runs.{IsReached};
ghost use Rattle.ca_laws_runs.specs.Created.{AllCreated};
ghost use Rattle.ca_laws_runs.specs.Held.{IsKnownStep};
ghost use Rattle.ca_laws_runs.specs.Under.{
  AllSayRight,
  AllUnder,
  AreClearedBetween,
  AreUnder,
  IsCreatedBefore,
  IsUse,
};

/// In every world to which a run leads, on each circuit: each reply by which a channel was created
/// is about a CREATE_CHAN that was handled; between two creations under one SID the client cleared
/// that SID; and while the server's end is open, the channel is open, or a CLEAR_CHANNEL of its
/// SID was handled since.
pub fn created_channels_are_open_or_cleared()
    ensures { (w : World) → IsReached w → AllCreated w }
{}

/// In such a world, if each message on a channel goes under the SID under which its channel was
/// created last (`AllUnder`), the WRITE that a server's end handles next is handled on the channel
/// for which it was meant: this is `writes` of `IsOwnNext`.
pub fn writes_are_handled_on_their_channel()
    ensures { (w : World) → IsReached w → AllUnder w → (new : World) (k : ℕ) (j : Joined)
        (y : ServerSide) (f : StepHandles w k j y new) → At w.circuits k j
        → At w.servers j.server y → j.lists.server_open ≡ true → (s : Sent)
        → At j.lists.up (length j.lists.handled) s → Is Write s.message → (cid : ℕ)
        → IsCidAt
        (knows y.core (record f.e { link = with_rest (f.steps.0).rest f.e.link })) s.message.p1 cid
        → IsCidOf j.lists.up (length j.lists.handled) s.intent cid }
{}

/// So all that `what_is_held_in_runs` asks of a step of a server's end is known (`IsOwnNext`), also
/// that nothing is kept then for what the message ends, if clients also cleared a channel before
/// they created it again, and cancelled subscriptions by their own ids (`AllSayRight`).
pub fn a_message_is_handled_as_it_was_meant()
    ensures { (w new : World) (k : ℕ) → IsReached w → AllSayRight w → Happens w (ServerStep k) new
        → IsKnownStep w (ServerStep k) new }
{}

/// What clients say stays right as the lists of a circuit grow, and so does under which SID a
/// channel was created last: a message is sent, under the SID of its channel, and a CREATE_CHAN
/// only once the channel was cleared; and a message is told, after whose CREATE_CHAN none was sent
/// on the channel if a channel is created by it.
pub fn what_clients_say_grows()
    ensures past { (c : Circuit) (s : Sent) (channel j k sid : ℕ)
        → ((ask : Ask) → s.intent ≡ On channel ask → IsUse ask)
        → IsCreatedBefore c channel j k sid (length c.up)
        → IsCreatedBefore (with_sent s c) channel j k sid (length c.up + 1) }
    ensures sent { (c : Circuit) (s : Sent)
        → ((channel : ℕ) (ask : Ask) → s.intent ≡ On channel ask → (ask ≡ Create → ⊥)
        → (j k : ℕ) × IsCreatedBefore c channel j k (sid_in s.message) (length c.up))
        → AreUnder c → AreUnder (with_sent s c) }
    ensures created { (c : Circuit) (s : Sent)
        → ((p channel i sid : ℕ) (r : Sent) (t : Told) → s.intent ≡ On channel Create → At c.up p r
        → r.intent ≡ On channel Create → At c.down i t → t.place ≡ p → t.cause ≡ Reply
        → Creates t.message sid → IsClearedWithin c.up sid p (length c.up))
        → AreClearedBetween c → AreClearedBetween (with_sent s c) }
    ensures told { (c : Circuit) (t : Told) → AreUnder c → AreUnder (with_told t c) }
    ensures answered { (c : Circuit) (t : Told)
        → ((k channel sid : ℕ) (r q : Sent) → t.cause ≡ Reply → Creates t.message sid
        → At c.up t.place r → r.intent ≡ On channel Create → t.place < k → At c.up k q
        → q.intent ≡ On channel Create → ⊥)
        → AreClearedBetween c → AreClearedBetween (with_told t c) }
{}
