//! Everything a server sends is a well-formed message, each field of its width. The client's part
//! is in `byte_laws.rt`.
ghost use Rattle.std.specs.Prelude.{[], ◌<◌, ◌≡◌, ◌^◌, Bool, List, Ok, Option, map, ℕ};
ghost use Rattle.ca_arena.specs.declared.handle.Handle.{Handle};
ghost use Rattle.ca_dbr.specs.Elements.{Elements};
ghost use Rattle.ca_dbr.specs.Held.{IsHeldValue};
ghost use Rattle.ca_records.specs.Record.{IsRecord, RecordState, unset};
ghost use Rattle.ca_records.specs.Rules.{Rule};
ghost use Rattle.ca_text.specs.Place.{At};
ghost use Rattle.ca_text.specs.declared.command.Command.TheVariants.{EventAdd, ServerDisconnect};
ghost use Rattle.ca_model.specs.History.{Reply, Told};
ghost use Rattle.ca_model.specs.Speech.{Is};
ghost use Rattle.ca_wire.specs.Fields.{Fields};
ghost use Rattle.ca_wire.specs.Messages.{disconnect};
ghost use Rattle.ca_ids.specs.Table.{under};
ghost use Rattle.ca_model.specs.Server.{OpenChannel, Server, ServerEnd, new_server};
ghost use Rattle.ca_model.specs.ServerCalls.{AddsRecord, Finishes, Posts, Removes};
ghost use Rattle.ca_model.specs.ServerSteps.{Accepts, Cuts, Gives, HasEnd, LeftOf, Next, Pumps};
ghost use Rattle.ca_model.specs.ServerSteps.{Reaches, Sends, Update, closed};
ghost use Rattle.ca_model.specs.Events.{Event};
ghost use Rattle.ca_model.specs.Runs.{AreEvents, Happens, IsEvent, Runs};
ghost use Rattle.ca_model.specs.ServerEvents.{disconnected_at};
ghost use Rattle.ca_model.specs.World.{IsSetting, Joined, Setting, World, opening};
ghost use Rattle.ca_laws_parts.specs.Runs.{HearsSent, Stands};
ghost use Rattle.ca_laws_parts.specs.ServerFits.{AllCaused, ServerFits, ServersFit};
ghost use Rattle.ca_laws_parts.specs.Streams.{AreMessages};

/// All that a server's calls send are messages, each field of its width, and its core fits
/// messages after them: the replies that are due for a message that it takes, the updates
/// that leave its queues, the reply to a put that is finished, and the SERVER_DISCONNs of a
/// record that is removed.
///
/// Its core fits messages before; and a value that is posted, or that a new record has, is one.
pub fn a_server_sends_messages()
    ensures begins { (port now : ℕ) (rules : List Rule) (states : List RecordState)
        → port < 2 ^ 16 → ((i : ℕ) (r : RecordState) → At states i r → IsRecord r)
        → ServerFits (new_server port now rules states) }
    ensures accepts { (y : Server) (h : Handle) (new : Server) → Accepts y (Ok h) new
        → ServerFits y → ServerFits new }
    ensures gives { (y new : Server) (h : Handle) (bytes : List ℕ) → Gives y h bytes (Ok tt) new
        → ServerFits y → ServerFits new }
    ensures sends { (y new : Server) (h : Handle) (n : ℕ) → Sends y h n new → ServerFits y
        → ServerFits new }
    ensures cuts { (y : Server) (h : Handle) (new : Server) → Cuts y h new → ServerFits y
        → ServerFits new }
    // A message is taken, and its write reaches subscriptions; or the end closes on it.
    ensures takes { (y : Server) (h : Handle) (e : ServerEnd) (n : Next y h e)
        (gone : Handle → Bool)
        (new : Server) → HasEnd y h e → ServerFits y → Reaches n.action gone n.after new
        → AreMessages n.replies × ServerFits new }
    ensures closes { (y : Server) (h : Handle) (e : ServerEnd) (n : Next y h e)
        (written : Option (Handle → Bool)) (new : Server) → HasEnd y h e → ServerFits y
        → LeftOf n written new → ServerFits (closed h new) }
    ensures pumps { (y : Server) (h : Handle) (us : List Update) (new : Server)
        → Pumps y h us new → ServerFits y
        → AreMessages (map (λ (u : Update). u.message) us) × ServerFits new }
    ensures posts { (y : Server) (name : List ℕ) (e : Elements) (mask : ℕ) (gone : Handle → Bool)
        (new : Server) → IsHeldValue e
        → Posts y name (record { value = e; meta = unset }) mask gone (Ok tt) new → ServerFits y
        → ServerFits new }
    ensures finishes { (y : Server) (name : List ℕ) (sent : List (Handle × Fields)) (new : Server)
        → Finishes y name sent (Ok tt) new → ServerFits y
        → AreMessages (map (λ (s : Handle × Fields). s.1) sent) × ServerFits new }
    ensures removes { (y : Server) (name : List ℕ) (gone : Handle → Bool) (left : Handle → ℕ)
        (new : Server) → Removes y name gone left (Ok tt) new → ServerFits y → ServerFits new }
    ensures disconnects { (y : Server) (name : List ℕ) (gone : Handle → Bool) (left : Handle → ℕ)
        (h : Handle) → ServerFits y
        → AreMessages (map (λ (c : Handle × OpenChannel). disconnect c.1.cid)
        (disconnected_at name gone left h (under y.circuits h))) }
    ensures adds { (y : Server) (r : RecordState) (behind : ℕ) (new : Server) → IsHeldValue r.value
        → AddsRecord y r behind (Ok tt) new → ServerFits y → ServerFits new }
{}

/// Whatever event happens to a world, what its servers sent are messages, each field of its width.
/// So it is after every run; and an end at a client takes next there what was sent to it next.
///
/// The setting is well-formed, and so are the events: values are values, as their types say.
pub fn servers_send_messages_in_runs()
    ensures begins { (s : Setting) → IsSetting s → ServersFit (opening s) }
    ensures event { (s : Setting) (w new : World) (e : Event) → IsSetting s → IsEvent e
        → Stands s w → Happens w e new → ServersFit w → ServersFit new }
    ensures run { (s : Setting) (es : List Event) (stopped : Option Event) (w : World)
        → IsSetting s → AreEvents es → Runs s es stopped w → ServersFit w }
    ensures hears { (s : Setting) (es : List Event) (stopped : Option Event) (w : World)
        → IsSetting s → AreEvents es → Runs s es stopped w → HearsSent w }
    // What a server sends that is no reply is a SERVER_DISCONN, or an EVENT_ADD with a payload: so
    // anything else is a reply.
    ensures caused { (s : Setting) (es : List Event) (stopped : Option Event) (w : World)
        → IsSetting s → AreEvents es → Runs s es stopped w → AllCaused w }
    ensures reply { (w : World) → AllCaused w → (n i : ℕ) (c : Joined) (t : Told)
        → At w.circuits n c → At c.lists.down i t → (Is ServerDisconnect t.message → ⊥)
        → (Is EventAdd t.message → t.message.payload ≡ []) → t.cause ≡ Reply }
{}
