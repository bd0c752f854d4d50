//! One law on the model of a client: reading a message, clearing a channel and losing a circuit
//! keep requests and subscriptions on channels that were live.
ghost use Rattle.std.specs.Prelude.{◌≡◌, Some};
ghost use Rattle.ca_arena.specs.declared.handle.Handle.{Handle};
ghost use Rattle.ca_wire.specs.Fields.{Fields};
ghost use Rattle.ca_model.specs.Client.{Client, Standing, ended, standing_at};
ghost use Rattle.ca_model.specs.ClientCalls.{cleared};
ghost use Rattle.ca_model.specs.Hears.{Effect, Hears};
ghost use Rattle.ca_model.specs.Placed.{IsPlaced};

/// Whatever message a client reads, whichever channel its caller clears, and whichever circuit
/// ends: requests and subscriptions stay where their channels were live, and channels on circuits
/// that are connected or wanted.
pub fn a_client_stays_placed()
    ensures heard { (x : Client) (c : Handle) (m : Fields) (e : Effect) → IsPlaced x
        → Hears x c m e → IsPlaced e.core }
    ensures cleared { (x : Client) (h : Handle) (s : Standing) → IsPlaced x
        → standing_at x h ≡ Some s → IsPlaced (cleared h s x) }
    ensures ended { (x : Client) (c : Handle) → IsPlaced x → IsPlaced (ended c x) }
{}
