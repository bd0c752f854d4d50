//! Laws of what calls count: the writes that they apply and the puts that come to wait.
ghost use Rattle.std.specs.Prelude.{◌≡◌, ◌≤◌, ◌+◌, Bool, Err, List, Ok, Option, Result, ℕ};
ghost use Rattle.ca_arena.specs.declared.handle.Handle.{Handle};
ghost use Rattle.ca_server.specs.Counts.{AreApart, CountsNext, CountsNothing, CountsOne};
ghost use Rattle.ca_model.specs.Server.{Server};
ghost use Rattle.ca_model.specs.ServerCalls.{AddsRecord, Beacons, Finishes, Posts, Removes};
ghost use Rattle.ca_model.specs.ServerCalls.{stamped, waiting};
ghost use Rattle.ca_model.specs.ServerSteps.{Accepts, Cuts, Gives, Pumps, Sends, Stepped, Steps};
ghost use Rattle.ca_model.specs.ServerSteps.{Update};
ghost use Rattle.ca_model.specs.Speech.{Stored};
ghost use Rattle.ca_records.specs.Record.{RecordState};
ghost use Rattle.ca_server_core.specs.Pumping.{HandsOver};
ghost use Rattle.ca_records.specs.declared.puts.Stamp.{Stamp};
ghost use Rattle.ca_text.specs.Limits.{applied_limit};
ghost use Rattle.ca_text.specs.declared.refusal.Refusal.{Refusal};
ghost use Rattle.ca_wire.specs.Fields.{Fields};

/// A step applies one write at most, or makes one wait, as long as the names of records are apart.
pub fn a_step_counts_one_write()
    ensures { (old : Server) (h : Handle) (did : Stepped) (new : Server)
        → old.applied ≤ applied_limit → AreApart old.records → Steps old h did new
        → CountsOne old new }
{}

/// A finish applies the put that waits next for its record, if there is one, as long as counts
/// stay below the limit. A refused one changes nothing.
pub fn a_finish_applies_the_next_put()
    ensures ok { (old : Server) (name : List ℕ) (sent : List (Handle × Fields)) (new : Server)
        → old.applied + waiting old ≤ applied_limit → Finishes old name sent (Ok tt) new
        → CountsNext old name new }
    ensures err { (old : Server) (name : List ℕ) (sent : List (Handle × Fields)) (e : Refusal)
        (new : Server) → Finishes old name sent (Err e) new → new ≡ old }
{}

/// Every other call applies no write, and makes no put wait.
pub fn other_calls_count_nothing()
    ensures accepts { (old : Server) (r : Result Handle Refusal) (new : Server)
        → Accepts old r new → CountsNothing old new }
    ensures gives { (old : Server) (h : Handle) (bytes : List ℕ) (r : Result (Unit {0}) Refusal)
        (new : Server) → Gives old h bytes r new → CountsNothing old new }
    ensures sends { (old : Server) (h : Handle) (n : ℕ) (new : Server) → Sends old h n new
        → CountsNothing old new }
    ensures hands { (old : Server) (h : Handle) (out : List ℕ) (new : Server)
        → HandsOver old h out new → CountsNothing old new }
    ensures cuts { (old : Server) (h : Handle) (new : Server) → Cuts old h new
        → CountsNothing old new }
    ensures pumps { (old : Server) (h : Handle) (updates : List Update) (new : Server)
        → Pumps old h updates new → CountsNothing old new }
    ensures stamps { (old : Server) (s : Stamp) (new : Server) → new ≡ stamped s old
        → CountsNothing old new }
    ensures beacons { (old : Server) (now : ℕ) (sent : Option (List ℕ)) (new : Server)
        → Beacons old now sent new → CountsNothing old new }
    ensures posts { (old : Server) (name : List ℕ) (v : Stored) (mask : ℕ) (gone : Handle → Bool)
        (r : Result (Unit {0}) Refusal) (new : Server) → Posts old name v mask gone r new
        → CountsNothing old new }
    ensures removes { (old : Server) (name : List ℕ) (gone : Handle → Bool) (left : Handle → ℕ)
        (r : Result (Unit {0}) Refusal) (new : Server) → Removes old name gone left r new
        → CountsNothing old new }
    ensures adds { (old : Server) (s : RecordState) (behind : ℕ) (r : Result (Unit {0}) Refusal)
        (new : Server) → AddsRecord old s behind r new → CountsNothing old new }
{}
