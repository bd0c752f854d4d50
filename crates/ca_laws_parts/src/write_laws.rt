//! Writes, beside the log of a server's life: what each event adds to it, that the records are as
//! it says, and that each write is in it once.
ghost use Rattle.std.specs.Prelude.{[], ◌≡◌, ◌<◌, ◌≤◌, ◌+◌, ◌++◌, ◌∷◌, ◌⊎◌, Bool, List, None};
ghost use Rattle.std.specs.Prelude.{Option, Some, drop, false, filter, length, map, not, take};
ghost use Rattle.std.specs.Prelude.{true, ℕ};
ghost use Rattle.std.specs.Str.{bytes_eq};
ghost use Rattle.ca_text.specs.Place.{At};
ghost use Rattle.ca_arena.specs.declared.handle.Handle.{Handle};
ghost use Rattle.ca_dbr.specs.declared.value.Meta.{Meta};
ghost use Rattle.ca_text.specs.declared.command.Command.TheVariants.{WriteNotify};
ghost use Rattle.ca_text.specs.declared.status.Status.{Status};
ghost use Rattle.ca_dbr.specs.declared.value.Outcome.TheVariants.{Done, Failed};
ghost use Rattle.ca_dbr.specs.Elements.{Elements};
ghost use Rattle.ca_dbr.specs.Held.{kind_of};
ghost use Rattle.ca_model.specs.Due.{Action, Applies, Due, Knows, Nothing};
ghost use Rattle.ca_requests.specs.Meaning.{Means};
ghost use Rattle.ca_records.specs.declared.puts.Put.{Put};
ghost use Rattle.ca_records.specs.Puts.{Record, WaitingPut, finished, new_record, record_named};
ghost use Rattle.ca_records.specs.Puts.{removed, with_record, with_value, with_waiting, withdrawn};
ghost use Rattle.ca_records.specs.Record.{RecordState};
ghost use Rattle.ca_wire.specs.Fields.{Fields};
ghost use Rattle.ca_model.specs.Speech.{In, Is, Stored};
ghost use Rattle.ca_model.specs.History.{Added, Applied, Entry, Finished, Posted, Sent, Waits};
ghost use Rattle.ca_model.specs.History.{Withdrawn};
ghost use Rattle.ca_model.specs.Known.{IsNow};
ghost use Rattle.ca_model.specs.Channels.{Has, IsApplied, IsBusyUntil, IsDropped, IsHandledIn};
ghost use Rattle.ca_model.specs.Channels.{IsTaken};
ghost use Rattle.ca_model.specs.ServerEvents.{acted, channel_withdrawals, ending, ends_at, ends_by};
ghost use Rattle.ca_model.specs.ServerEvents.{ends_here, finish_entry, first_of, is_of_channel};
ghost use Rattle.ca_model.specs.ServerEvents.{logged_by, next_busy, next_entries, noted, number_of};
ghost use Rattle.ca_model.specs.ServerEvents.{posted_entry, records_after, removal_entries};
ghost use Rattle.ca_model.specs.ServerEvents.{replied_at, server_after, side_of, with_core};
ghost use Rattle.ca_model.specs.ServerEvents.{withdrawals, without_channel, without_puts};
ghost use Rattle.ca_model.specs.ServerEvents as event;
ghost use Rattle.ca_model.specs.World.{IsSetting, Joined, PutPlace, RecordSide, ServerSide};
ghost use Rattle.ca_model.specs.World.{Setting, World, numbered, opening, record_begun, told};
ghost use Rattle.ca_laws_parts.specs.Agrees.{LoseAll, TestsAgree};
ghost use Rattle.ca_laws_parts.specs.Lives.{AreLater, AreOpen, AreSlow, CameOn, EndsAgree};
ghost use Rattle.ca_laws_parts.specs.Lives.{IsOfMessage, IsPutOf, IsWriting, Life, LogsOnce};
ghost use Rattle.ca_laws_parts.specs.Lives.{LostOn, SaysSo};
ghost use Rattle.ca_model.specs.Server.{Server, ServerEnd};
ghost use Rattle.ca_model.specs.ServerSteps.{Records, known_record, knows};
ghost use Rattle.ca_laws_parts.specs.Taken.{Handling, Takes};
ghost use Rattle.ca_laws_parts.specs.Moves.{EndsOnly, Midway, Writes, addition_told, finish_told};
ghost use Rattle.ca_laws_parts.specs.Moves.{post_told, removal_told, restarted};
ghost use Rattle.ca_laws_parts.specs.Once.{IsUntold, MayTell, Once, write_in};

/// A log has each write once, as long as each new entry may be told.
pub fn a_log_has_each_write_once()
    ensures begins { (circuits : List Joined) (life : ℕ)
        → Once (CameOn circuits life) (LostOn circuits) [] }
    ensures told { (circuits : List Joined) (life : ℕ) (y : List Entry) (e : Entry)
        → Once (CameOn circuits life) (LostOn circuits) y
        → MayTell (CameOn circuits life) (LostOn circuits) y e
        → Once (CameOn circuits life) (LostOn circuits) (y ++ e ∷ []) }
{}

/// The records of a server are what the log of its life tells, whatever happens: a write is
/// applied, a put makes its record busy or comes to wait, a busy put is finished and the next is
/// applied, puts are withdrawn, values are posted, and records come and go.
pub fn records_agree_with_their_log()
    // A life begins, with records of different names.
    ensures begins { (circuits : List Joined) (server life : ℕ) (states : List RecordState)
        → ((i j : ℕ) (r s : RecordState) → At states i r → At states j s → r.name ≡ s.name
        → i ≡ j)
        → Life circuits server life (numbered 0 Added states) (map new_record states)
        (numbered 0 record_begun states) (length states) }
    // A write that the log does not tell of is applied, and makes its record busy or not.
    ensures applied { (circuits : List Joined) (server life : ℕ) (y : List Entry)
        (cs : List Record) (rs : List RecordSide) (n i : ℕ) (c : Record) (r : RecordSide)
        (p : PutPlace) (v : Stored) → At cs i c → At rs i r → IsUntold y p
        → CameOn circuits life IsTaken p (length y) v.value
        → kind_of v.value ≡ kind_of c.state.value
        → Life circuits server life y cs rs n
        → Life circuits server life (y ++ Applied p.circuit p.place r.number v false ∷ [])
        (with_record r.name (with_value v.value v.meta) cs) rs n }
    ensures busied { (circuits : List Joined) (server life : ℕ) (y : List Entry)
        (cs : List Record) (rs : List RecordSide) (n i : ℕ) (c : Record) (r : RecordSide)
        (p : PutPlace) (b : Put) (v : Stored) → At cs i c → At rs i r → c.busy ≡ None
        → IsUntold y p → CameOn circuits life IsTaken p (length y) v.value
        → kind_of v.value ≡ kind_of c.state.value → IsPutOf circuits server p b
        → c.state.slow ≡ true → Life circuits server life y cs rs n
        → Life circuits server life (y ++ Applied p.circuit p.place r.number v true ∷ [])
        (with_record r.name
        (λ (d : Record). record (with_value v.value v.meta d) { busy = Some b }) cs)
        (event.with_record r.name (λ (q : RecordSide). record q { busy = Some p }) rs) n }
    // A put comes to wait.
    ensures waits { (circuits : List Joined) (server life : ℕ) (y : List Entry)
        (cs : List Record) (rs : List RecordSide) (n i : ℕ) (c : Record) (r : RecordSide)
        (p : PutPlace) (w : WaitingPut) (meta : Meta) → At cs i c → At rs i r
        → kind_of w.value ≡ kind_of c.state.value → IsUntold y p
        → CameOn circuits life IsHandledIn p (length y) w.value → IsPutOf circuits server p w.put
        → Life circuits server life y cs rs n
        → Life circuits server life
        (y ++ Waits p.circuit p.place r.number (record { value = w.value; meta = meta }) ∷ [])
        (with_record r.name (with_waiting w) cs)
        (event.with_record r.name
        (λ (q : RecordSide). record q { waiting = q.waiting ++ p ∷ [] }) rs) n }
    // The busy put is finished, and the next is applied, if one waits.
    ensures finished { (circuits : List Joined) (server life : ℕ) (y : List Entry)
        (side : ServerSide) (cs : List Record) (rs : List RecordSide) (n i : ℕ) (c : Record)
        (r : RecordSide) (p : PutPlace) → At cs i c → At rs i r → r.busy ≡ Some p
        → Life circuits server life y cs rs n
        → Life circuits server life
        (y ++ finish_entry p ∷ next_entries side r (first_of c.waiting) (first_of r.waiting))
        (with_record r.name (λ (q : Record). finished side.core.stamp q q.waiting) cs)
        (event.with_record r.name next_busy rs) n }
    // Circuits end, or a channel is cleared: its waiting puts are withdrawn.
    ensures gone { (circuits : List Joined) (server life : ℕ) (y : List Entry) (cs : List Record)
        (rs : List RecordSide) (n : ℕ) (gone : ℕ → Bool) (lost : Put → Bool)
        → TestsAgree (λ (p : PutPlace). gone p.circuit) lost cs rs
        → LoseAll (LostOn circuits) (λ (p : PutPlace). gone p.circuit) y rs
        → Life circuits server life y cs rs n
        → Life circuits server life (y ++ withdrawals gone rs) (withdrawn lost cs)
        (map (without_puts gone) rs) n }
    ensures cleared { (circuits : List Joined) (server life : ℕ) (y : List Entry)
        (cs : List Record) (rs : List RecordSide) (n : ℕ) (h : Handle) (sid : ℕ)
        (which : PutPlace → Bool) → TestsAgree which (is_of_channel h sid) cs rs
        → LoseAll (LostOn circuits) which y rs → Life circuits server life y cs rs n
        → Life circuits server life (y ++ channel_withdrawals h sid cs rs)
        (withdrawn (is_of_channel h sid) cs) (with_core (without_channel h sid) cs rs) n }
    // A value is posted.
    ensures posted { (circuits : List Joined) (server life : ℕ) (y : List Entry)
        (cs : List Record) (rs : List RecordSide) (n i : ℕ) (c : Record) (r : RecordSide)
        (mask : ℕ) (v : Stored) → At cs i c → At rs i r → kind_of v.value ≡ kind_of c.state.value
        → Life circuits server life y cs rs n
        → Life circuits server life (y ++ Posted r.number mask v ∷ [])
        (with_record r.name (with_value v.value v.meta) cs) rs n }
    // A record is removed, with the puts that wait for it; or one is added.
    ensures removed { (circuits : List Joined) (server life : ℕ) (y : List Entry)
        (cs : List Record) (rs : List RecordSide) (n i : ℕ) (r : RecordSide) → At rs i r
        → Life circuits server life y cs rs n
        → Life circuits server life (y ++ removal_entries r.name rs) (removed r.name cs)
        (filter (λ (q : RecordSide). not (bytes_eq q.name r.name)) rs) n }
    ensures added { (circuits : List Joined) (server life : ℕ) (y : List Entry)
        (cs : List Record) (rs : List RecordSide) (n : ℕ) (s : RecordState) (behind : ℕ)
        → ((i : ℕ) (r : RecordSide) → At rs i r → r.name ≡ s.name → ⊥)
        → Life circuits server life y cs rs n
        → Life circuits server life (y ++ Added n s ∷ [])
        (take behind cs ++ new_record s ∷ drop behind cs)
        (take behind rs ++ record_begun n s ∷ drop behind rs) (n + 1) }
    // Nothing happens except that circuits go on.
    ensures later { (old new : List Joined) (server life : ℕ) (y : List Entry)
        (cs : List Record) (rs : List RecordSide) (n : ℕ) → AreLater old new
        → Life old server life y cs rs n → Life new server life y cs rs n }
    // What the server knows of a record is what the log tells of its number, which has its name.
    ensures known { (circuits : List Joined) (server life : ℕ) (y : List Entry)
        (cs : List Record) (rs : List RecordSide) (n i : ℕ) (c : Record) (r : RecordSide)
        → At cs i c → At rs i r → Life circuits server life y cs rs n
        → IsNow y r.number (known_record c) × Has y r.number r.name }
    // The number by which an event names a record is that of the one that has the name.
    ensures numbers { (circuits : List Joined) (server life : ℕ) (y : List Entry)
        (cs : List Record) (rs : List RecordSide) (n i : ℕ) (r : RecordSide) → At rs i r
        → Life circuits server life y cs rs n → number_of r.name rs ≡ r.number }
{}

/// If the log of each life has each write once, no write is applied twice, in all lives of all
/// servers; each has the value of its own message; a put that waits is dropped only with its
/// record, its channel or its circuit; and a record finishes one put at a time, each once.
pub fn no_write_is_applied_twice()
    ensures once { (w : World) → LogsOnce w → (n k l m i j r q : ℕ) (v u : Stored)
        → IsApplied (told w) n k l i r v → IsApplied (told w) n k m j q u → (l ≡ m) × (i ≡ j) }
    ensures own { (w : World) → LogsOnce w → (n k l i r : ℕ) (v : Stored)
        → IsApplied (told w) n k l i r v → IsOfMessage w n k l i r v }
    ensures dropped { (w : World) → LogsOnce w → (n k l i : ℕ) (y : List Entry)
        → At w.server_logs l y → At y i (Withdrawn n k) → IsDropped (told w) n k l i y }
    ensures finished { (w : World) → LogsOnce w → (n k l e : ℕ) (y : List Entry)
        → At w.server_logs l y → At y e (Finished n k)
        → IsBusyUntil y n k e × ((f : ℕ) → At y f (Finished n k) → e ≡ f) }
{}

/// A server takes a message: what that does, by what is due for it, keeps records and log in
/// agreement. Its write is applied or comes to wait, or the puts of the channel that it clears are
/// withdrawn.
pub fn a_message_keeps_records_and_log()
    ensures { (circuits : List Joined) (i life : ℕ) (log : List Entry) (rs : List RecordSide)
        (n : ℕ) (old : Server) (h : Handle) (e : ServerEnd) (p : PutPlace) (s : Sent)
        (replies : List Fields) (did : Action) (new : Server)
        → (t : Takes circuits i life log rs h p s)
        → t.step.logged + length (logged_by old h p did rs) ≤ t.step.after
        → Due (knows old e) s.message replies did → Records old h e s.message did new
        → Life circuits i life log old.records rs n
        → Life circuits i life (log ++ logged_by old h p did rs) new.records
        (records_after old h p did rs) n }
{}

/// Ends of a server's circuits end, in whatever event: the puts that wait there are withdrawn, and
/// records and log agree again. A put that waits came on a circuit whose end is open.
pub fn ends_of_circuits_withdraw_puts()
    ensures { (circuits : List Joined) (server life : ℕ) (y : List Entry) (cs : List Record)
        (rs : List RecordSide) (n : ℕ) (ends : Joined → Option (List ℕ)) (lost : Put → Bool)
        → AreOpen circuits rs → EndsAgree circuits server ends lost
        → Life circuits server life y cs rs n
        → Life (map (ending ends) circuits) server life
        (y ++ withdrawals (ends_at ends circuits) rs) (withdrawn lost cs)
        (map (without_puts (ends_at ends circuits)) rs) n
        × AreOpen (map (ending ends) circuits) (map (without_puts (ends_at ends circuits)) rs) }
{}

/// What is due for a write says what is done: a put that is told Done at once is applied, if only
/// slow records are busy; and a write that is told Failed does nothing.
pub fn due_replies_say_what_is_done()
    ensures done { (k : Knows) (m : Fields) (replies : List Fields) (action : Action) (r : Fields)
        → AreSlow k → Due k m replies action → Is WriteNotify m → In replies r → Means r Done
        → (name : List ℕ) × (value : Elements) × (action ≡ Applies name value false) }
    ensures failed { (k : Knows) (m : Fields) (replies : List Fields) (action : Action)
        (r : Fields) (s : Status) → Due k m replies action → IsWriting m → In replies r
        → Means r (Failed s) → action ≡ Nothing }
{}

/// What a reply says of a write stays so as the log grows, if each new entry about that write comes
/// after another.
pub fn what_a_reply_says_stays_so()
    ensures { (y : List Entry) (p : PutPlace) (s : Sent) (m : Fields) (e : Entry)
        → (write_in e ≡ Some p → (f : Entry) × In y f × (write_in f ≡ Some p)) → SaysSo y p s m
        → SaysSo (y ++ e ∷ []) p s m }
{}

/// What holds of the writes of a world (each server's records are what the log of its life tells,
/// and each log has each write once) holds before any event. It stays so while servers and logs
/// stay as they are and circuits go on, as is meant for events at a client; as a record is added;
/// and as a server begins a new life.
pub fn writes_stay_as_a_world_goes_on()
    ensures begins { (s : Setting) → IsSetting s → Writes (opening s) }
    ensures stays { (w new : World) → new.servers ≡ w.servers → new.server_logs ≡ w.server_logs
        → AreLater w.circuits new.circuits
        → ((n : ℕ) (c d : Joined) → At w.circuits n c → At new.circuits n d
        → d.lists.server_open ≡ c.lists.server_open) → Writes w → Writes new }
    ensures added { (w : World) (i : ℕ) (y : ServerSide) (r : RecordState) (behind : ℕ)
        (core : Server) → At w.servers i y → record_named y.core.records r.name ≡ None
        → core.records ≡ take behind y.core.records ++ new_record r ∷ drop behind y.core.records
        → Writes w → Writes (addition_told w i y r behind core) }
    ensures restarted { (w : World) (i : ℕ) (y : ServerSide) → At w.servers i y
        → ((j k : ℕ) (r s : RecordState) → At y.setting.records j r → At y.setting.records k s
        → r.name ≡ s.name → j ≡ k)
        → Writes w → Writes (restarted w i y) }
{}

/// An event at a server keeps what holds of writes: a message is handled, with all that follows; or
/// the event is told first, as a post, a finish, a removal, or nothing at all, and then circuits of
/// this server end, and the core withdraws just the puts that wait there.
pub fn events_at_a_server_keep_writes()
    ensures nothing { (w : World) (i : ℕ) (y : ServerSide) (at : At w.servers i y) (h : Writes w)
        → Midway w w i y y (h.lives i y at).log [] y.core.records }
    ensures posted { (w : World) (i : ℕ) (y : ServerSide) (name : List ℕ) (v : Stored) (mask : ℕ)
        (c : Record) (at : At w.servers i y) (h : Writes w)
        → record_named y.core.records name ≡ Some c → kind_of v.value ≡ kind_of c.state.value
        → Midway w (post_told w i y name v mask) i y y (h.lives i y at).log
        (posted_entry y name v mask)
        (with_record name (with_value v.value v.meta) y.core.records) }
    ensures finished { (w : World) (i : ℕ) (y : ServerSide) (name : List ℕ)
        (sent : List (Handle × Fields)) (c : Record) (r : RecordSide) (place : ℕ) (p : PutPlace)
        (at : At w.servers i y) (h : Writes w) → record_named y.core.records name ≡ Some c
        → At y.records place r → r.name ≡ name → r.busy ≡ Some p
        → Midway w (replied_at p sent (finish_told w i y name c r p)) i y
        (record y { records = event.with_record name next_busy y.records }) (h.lives i y at).log
        (finish_entry p ∷ next_entries y r (first_of c.waiting) (first_of r.waiting))
        (with_record name (λ (q : Record). finished y.core.stamp q q.waiting) y.core.records) }
    ensures removed { (w : World) (i : ℕ) (y : ServerSide) (name : List ℕ)
        (gone : Handle → Bool) (left : Handle → ℕ) (c : Record) (at : At w.servers i y)
        (h : Writes w) → record_named y.core.records name ≡ Some c
        → Midway w (removal_told w i y name gone left) i y
        (record y {
          records = filter (λ (r : RecordSide). not (bytes_eq r.name name)) y.records;
        }) (h.lives i y at).log (removal_entries name y.records)
        (removed name y.core.records) }
    // A step of a server's end handles a message, and is noted.
    ensures handled { (w : World) (k : ℕ) (j : Joined) (y : ServerSide) (e : ServerEnd) (s : Sent)
        (replies : List Fields) (did : Action) (recorded core : Server) (lost : Put → Bool)
        → Handling w k j y core lost s → Due (knows y.core e) s.message replies did
        → Records y.core j.at_server e s.message did recorded
        → core.records ≡ withdrawn lost recorded.records → Writes w
        → Writes (noted k j y replies w
        (server_after j.server (side_of j.server y (acted k j y did w)) (ends_by j.server core)
        core (acted k j y did w))) }
    // In any other event circuits end after it is told.
    ensures ends { (w mid : World) (i : ℕ) (y side : ServerSide) (log more : List Entry)
        (records : List Record) (ends : Joined → Option (List ℕ)) (lost : Put → Bool)
        (core : Server) → Midway w mid i y side log more records → Writes w
        → core.records ≡ withdrawn lost records → EndsAgree mid.circuits i ends lost
        → EndsOnly mid.circuits i ends → Writes (server_after i side ends core mid) }
    // By the core's answer only circuits of this server end, also in a step that closes its own.
    ensures only { (circuits : List Joined) (i : ℕ) (core : Server)
        → EndsOnly circuits i (ends_by i core) }
    ensures closed { (circuits : List Joined) (j : Joined) (left : List ℕ) (i : ℕ) (core : Server)
        → EndsOnly circuits i (ends_here j left i core) }
{}
