//! Events that send no request of a caller: opened channels, collected results, posts, restarts,
//! datagrams, new circuits and the passing of time. Each keeps the meaning of every id in flight.
ghost use Rattle.std.specs.Prelude.{◌<◌, List, Option, length, ℕ};
ghost use Rattle.ca_text.specs.Place.{At};
ghost use Rattle.ca_dbr.specs.Elements.{Elements};
ghost use Rattle.ca_records.specs.Record.{RecordState};
ghost use Rattle.ca_model.specs.Ends.{Address};
ghost use Rattle.ca_model.specs.History.{Intent, Line};
ghost use Rattle.ca_model.specs.ClientEvents.{HappensAccept, HappensClientDatagram};
ghost use Rattle.ca_model.specs.ClientEvents.{HappensClientRestart, HappensHandingOut, HappensOpen};
ghost use Rattle.ca_model.specs.ClientEvents.{WantsFirst};
ghost use Rattle.ca_model.specs.ServerEvents.{HappensAdd, HappensPost, HappensServerRestart};
ghost use Rattle.ca_model.specs.Runs.{TicksAll};
ghost use Rattle.ca_model.specs.World.{ClientSide, ServerSide, World};
ghost use Rattle.ca_laws_parts.specs.Circuit.{HeldAt};
ghost use Rattle.ca_laws_parts.specs.Clients.{ClientsStand};

/// So does a channel that is opened, what became of a request that is handed out or given up, a
/// post or a new record at a server, and a server that begins again.
pub fn quiet_events_keep_each_circuit()
    ensures opened { (kept : List ℕ) (w new : World) (i k : ℕ) (x : ClientSide) (name : List ℕ)
        (priority : ℕ) → At w.clients i x → ClientsStand w → HappensOpen w i x name priority new
        → HeldAt kept w k → HeldAt kept new k }
    ensures handed_out { (kept : List ℕ) (w new : World) (k : ℕ) (x : ClientSide) (number : ℕ)
        (meant : Intent) (line : Option ℕ → Line)
        → HappensHandingOut w x number meant line new → HeldAt kept w k → HeldAt kept new k }
    ensures post { (kept : List ℕ) (w new : World) (i k : ℕ) (y : ServerSide) (name : List ℕ)
        (e : Elements) (mask : ℕ) → HappensPost w i y name e mask new → HeldAt kept w k
        → HeldAt kept new k }
    ensures add { (kept : List ℕ) (w new : World) (i k : ℕ) (y : ServerSide) (r : RecordState)
        → HappensAdd w i y r new → HeldAt kept w k → HeldAt kept new k }
    ensures server_restart { (kept : List ℕ) (w new : World) (i k : ℕ) (y : ServerSide)
        → HappensServerRestart w i y new → HeldAt kept w k → HeldAt kept new k }
{}

/// So does a client that begins again, whose ends are closed then, a datagram that reaches one,
/// which may create channels, a circuit that is made, and a moment that is handed in.
pub fn a_clients_life_keeps_each_circuit()
    ensures restart { (kept : List ℕ) (w new : World) (i k : ℕ) (x : ClientSide)
        → At w.clients i x → HappensClientRestart w i x new → HeldAt kept w k → HeldAt kept new k }
    ensures datagram { (kept : List ℕ) (w new : World) (i k : ℕ) (x : ClientSide) (from : Address)
        (bytes : List ℕ) → At w.clients i x → ClientsStand w
        → HappensClientDatagram w i x from bytes new → HeldAt kept w k → HeldAt kept new k }
    ensures accept { (kept : List ℕ) (w new : World) (c k : ℕ) (x : ClientSide) (v : WantsFirst w x)
        → At w.clients c x → ClientsStand w → HappensAccept w c x v new → HeldAt kept w k
        → HeldAt kept new k }
    // And it is held of the circuit that was made.
    ensures made { (kept : List ℕ) (w new : World) (c : ℕ) (x : ClientSide) (v : WantsFirst w x)
        → At w.clients c x → ClientsStand w → HappensAccept w c x v new
        → length w.circuits < length new.circuits → HeldAt kept new (length w.circuits) }
    // A moment is handed to clients, in order.
    ensures ticks { (kept : List ℕ) (moment k : ℕ) (clients : List ℕ) (w new : World)
        → TicksAll moment w clients new → HeldAt kept w k → HeldAt kept new k }
{}
