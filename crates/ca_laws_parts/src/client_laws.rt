//! A client's tables stay consistent in every run: handles refer to entries that exist, requests
//! and subscriptions are on channels, and channels are on circuits.
ghost use Rattle.std.specs.Prelude.{List, Option, ℕ};
ghost use Rattle.ca_model.specs.Events.{Event};
ghost use Rattle.ca_model.specs.Runs.{Happens, Runs};
ghost use Rattle.ca_model.specs.World.{Setting, World};
ghost use Rattle.ca_laws_parts.specs.Clients.{ClientsStand};

/// In each world to which a run leads, whatever its setting and events, all clients are sound:
/// names name what tables gave, requests and subscriptions are where their channels were live,
/// channels are on circuits that are connected or wanted, and each open end is connected under
/// a handle of its own.
///
/// Every event keeps that.
pub fn clients_stand_in_runs()
    ensures runs { (setting : Setting) (es : List Event) (stopped : Option Event) (w : World)
        → Runs setting es stopped w → ClientsStand w }
    ensures event { (w new : World) (e : Event) → ClientsStand w → Happens w e new
        → ClientsStand new }
{}
