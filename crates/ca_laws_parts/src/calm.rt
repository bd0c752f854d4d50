//! One law that gathers the events which change little: all but a message that is read, an update
//! that leaves, a finished put and a removed record.
ghost use Rattle.std.specs.Prelude.{List, ℕ};
ghost use Rattle.ca_model.specs.Events.{Event};
ghost use Rattle.ca_model.specs.Runs.{Happens};
ghost use Rattle.ca_model.specs.World.{World};
ghost use Rattle.ca_laws_parts.specs.Calm.{IsCalm};
ghost use Rattle.ca_laws_parts.specs.Circuit.{HeldAt};
ghost use Rattle.ca_laws_parts.specs.Clients.{ClientsStand};

/// Every event but a step of an end, updates that leave their queues, a finish and a removal keeps
/// what is held of each circuit that is there, in a world whose clients stand, as in every run.
pub fn calm_events_keep_each_circuit()
    ensures { (kept : List ℕ) (w new : World) (l : ℕ) (e : Event) → IsCalm e → ClientsStand w
        → Happens w e new → HeldAt kept w l → HeldAt kept new l }
{}
