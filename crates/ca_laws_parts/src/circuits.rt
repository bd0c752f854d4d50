//! A call of a client, bytes that move, a cut, and a step of either end keep the meaning of every
//! id in flight, on every circuit of the world. The remaining events are in `other_laws.rt` and
//! `calm.rt`.
ghost use Rattle.std.specs.Prelude.{◌≡◌, List, Some, true, ℕ};
ghost use Rattle.ca_text.specs.Place.{At};
ghost use Rattle.ca_arena.specs.declared.handle.Handle.{Handle};
ghost use Rattle.ca_dbr.specs.Elements.{Elements};
ghost use Rattle.ca_link.specs.Link.{TakesFirst, with_rest};
ghost use Rattle.ca_wire.specs.Fields.{Fields};
ghost use Rattle.ca_model.specs.Client.{Connection, connection_at};
ghost use Rattle.ca_model.specs.ClientEnds.{after_taking};
ghost use Rattle.ca_model.specs.History.{Intent};
ghost use Rattle.ca_model.specs.ServerSteps.{Handled, Stepped, knows};
ghost use Rattle.ca_model.specs.ClientEvents.{HappensClear, HappensClientStep, HappensCutClient};
ghost use Rattle.ca_model.specs.ClientEvents.{HappensDown, HappensRead, HappensSubscribe};
ghost use Rattle.ca_model.specs.ClientEvents.{HappensUnsubscribe, HappensUp, HappensWrite};
ghost use Rattle.ca_model.specs.ClientEvents.{HappensWriteNotify};
ghost use Rattle.ca_model.specs.ServerEvents.{HappensCutServer, ServerStepped, StepHandles};
ghost use Rattle.ca_model.specs.World.{ClientSide, Joined, ServerSide, World};
ghost use Rattle.ca_laws_parts.specs.Circuit.{HeldAt, IsKnown, IsNext};
ghost use Rattle.ca_laws_parts.specs.Clients.{ClientsStand};

/// A read, a put, a write, a subscription, its end, or a clear by a client, done or refused, keeps
/// what is held of each circuit of the world: its messages may be sent, and each id that may still
/// come back is held by what it was given to last.
///
/// All clients stand, as in every run.
pub fn calls_keep_each_circuit()
    ensures read { (kept : List ℕ) (w new : World) (i k c : ℕ) (x : ClientSide) (h : Handle)
        (data_type count : ℕ) → At w.clients i x → ClientsStand w
        → HappensRead w i x c h data_type count new → HeldAt kept w k → HeldAt kept new k }
    ensures write_notify { (kept : List ℕ) (w new : World) (i k c : ℕ) (x : ClientSide) (h : Handle)
        (e : Elements) → At w.clients i x → ClientsStand w → HappensWriteNotify w i x c h e new
        → HeldAt kept w k → HeldAt kept new k }
    ensures write { (kept : List ℕ) (w new : World) (i k c : ℕ) (x : ClientSide) (h : Handle)
        (e : Elements) → At w.clients i x → HappensWrite w i x c h e new → HeldAt kept w k
        → HeldAt kept new k }
    ensures subscribe { (kept : List ℕ) (w new : World) (i k c : ℕ) (x : ClientSide) (h : Handle)
        (data_type count mask : ℕ) → At w.clients i x → ClientsStand w
        → HappensSubscribe w i x c h data_type count mask new → HeldAt kept w k
        → HeldAt kept new k }
    ensures unsubscribe { (kept : List ℕ) (w new : World) (i k : ℕ) (x : ClientSide)
        (s : Handle × Intent) → At w.clients i x → ClientsStand w → HappensUnsubscribe w i x s new
        → HeldAt kept w k → HeldAt kept new k }
    ensures clear { (kept : List ℕ) (w new : World) (i k c : ℕ) (x : ClientSide) (h : Handle)
        → At w.clients i x → ClientsStand w → HappensClear w i x c h new → HeldAt kept w k
        → HeldAt kept new k }
{}

/// So do bytes that move on any circuit, and the cut of an end at its client or at its server.
pub fn moves_keep_each_circuit()
    ensures up { (kept : List ℕ) (w new : World) (k l n : ℕ) (j : Joined) (x : ClientSide)
        (y : ServerSide) → At w.circuits k j → At w.clients j.client x → HappensUp w k n j x y new
        → HeldAt kept w l → HeldAt kept new l }
    ensures down { (kept : List ℕ) (w new : World) (k l n : ℕ) (j : Joined) (x : ClientSide)
        (y : ServerSide) → At w.circuits k j → At w.clients j.client x → HappensDown w k n j x y new
        → HeldAt kept w l → HeldAt kept new l }
    ensures cut_client { (kept : List ℕ) (w new : World) (k l : ℕ) (j : Joined) (x : ClientSide)
        → At w.circuits k j → At w.clients j.client x → j.lists.client_open ≡ true → ClientsStand w
        → HappensCutClient w k j x new → HeldAt kept w l → HeldAt kept new l }
    ensures cut_server { (kept : List ℕ) (w new : World) (k l : ℕ) (j : Joined) (y : ServerSide)
        → HappensCutServer w k j y new → HeldAt kept w l → HeldAt kept new l }
{}

/// So does a step of a client's end: whatever message it reads, and whether it reads one or closes.
/// The message that comes next is one that the server sent, and it is known what that is about.
///
/// Its end is open; it is connected, and sound, as all clients are in a run.
pub fn a_clients_step_keeps_each_circuit()
    ensures { (kept : List ℕ) (w new : World) (k l : ℕ) (j : Joined) (x : ClientSide)
        → At w.circuits k j → At w.clients j.client x → j.lists.client_open ≡ true → ClientsStand w
        → ((d : Connection) (m : Fields) (rest : List ℕ)
        → connection_at x.core j.at_client ≡ Some d → TakesFirst d.link m rest
        → IsKnown x.names (after_taking j.at_client rest x.core) j.at_client j.lists m)
        → HappensClientStep w k j x new → HeldAt kept w l → HeldAt kept new l }
{}

/// So does a step of a server's end: on its own circuit with what the server keeps for
/// places then, by what is known of the message that it handled; on the others, and if it
/// handled none, as it was.
pub fn a_servers_step_keeps_each_circuit()
    ensures own { (kept now : List ℕ) (w new : World) (k : ℕ) (j : Joined) (y : ServerSide)
        (s : StepHandles w k j y new) → At w.circuits k j
        → IsNext kept now j.lists
        (knows y.core (record s.e { link = with_rest (s.steps.0).rest s.e.link })) (s.steps.0).m
        (s.steps.0).replies → HeldAt kept w k → HeldAt now new k }
    ensures others { (kept : List ℕ) (w new : World) (k l : ℕ) (j : Joined) (y : ServerSide)
        → At w.circuits k j → StepHandles w k j y new → (l ≡ k → ⊥) → HeldAt kept w l
        → HeldAt kept new l }
    ensures unhandled { (kept : List ℕ) (w new : World) (k l : ℕ) (j : Joined) (y : ServerSide)
        (did : Stepped) → At w.circuits k j → (did ≡ Handled → ⊥) → ServerStepped w k j y did new
        → HeldAt kept w l → HeldAt kept new l }
{}
