//! One circuit, whose two lists grow: what ids and SIDs in flight mean, and what its client's
//! tables hold. Begin with `ids_mean_their_own` and `requests_hold_their_ids`.
ghost use Rattle.std.specs.Prelude.{[], ◌≡◌, ◌++◌, ◌<◌, ◌≤◌, ◌⊎◌, ◌∷◌, Bool, List, Some, false};
ghost use Rattle.std.specs.Prelude.{length, map, take, true, ℕ};
ghost use Rattle.ca_text.specs.declared.command.Command.TheVariants.{CreateChannel};
ghost use Rattle.ca_text.specs.declared.command.Command.TheVariants.{CreateChannelFail, EventAdd};
ghost use Rattle.ca_text.specs.declared.command.Command.TheVariants.{EventCancel, ReadNotify};
ghost use Rattle.ca_text.specs.declared.command.Command.TheVariants.{Write, WriteNotify};
ghost use Rattle.ca_text.specs.Limits.{arena_slots};
ghost use Rattle.ca_text.specs.Place.{At};
ghost use Rattle.ca_wire.specs.Fields.{Fields};
ghost use Rattle.ca_wire.specs.Header.{HeaderFits};
ghost use Rattle.ca_wire.specs.Message.{header_of};
ghost use Rattle.ca_wire.specs.declared.requests.Wanted.{Wanted};
ghost use Rattle.ca_wire.specs.Messages.{disconnect};
ghost use Rattle.ca_arena.specs.declared.handle.Handle.{Handle};
ghost use Rattle.ca_ids.specs.Table.{MayGive, Table, by_wire, under, with_all, with_all_freed};
ghost use Rattle.ca_ids.specs.Table.{with_changed, with_freed, with_held};
ghost use Rattle.ca_ids.specs.Wire.{wire_of};
ghost use Rattle.ca_records.specs.declared.puts.Put.{Put};
ghost use Rattle.ca_requests.specs.Requests.{Asked, Request as HeldRequest, answered_by};
ghost use Rattle.ca_requests.specs.Requests.{channel_over, was_sent_on};
ghost use Rattle.ca_model.specs.Client.{Channel, Client, Creating, Leaving, Live, Native, Phase};
ghost use Rattle.ca_model.specs.Client.{channel_on, found_on, is_on_in, searched_again, sending};
ghost use Rattle.ca_model.specs.Client.{standing_at, with_requests, with_standing, without_channel};
ghost use Rattle.ca_model.specs.Client as standing;
ghost use Rattle.ca_model.specs.ClientCalls.{LiveChannel, Shape, clear_sent, cleared, issued};
ghost use Rattle.ca_model.specs.ClientCalls.{new_subscription};
ghost use Rattle.ca_model.specs.Answers.{Sending};
ghost use Rattle.ca_monitor.specs.Subscriptions.{Cancelled, Subscription, confirmed_by, with_stage};
ghost use Rattle.ca_model.specs.Due.{Action, Due, Knows};
ghost use Rattle.ca_model.specs.Hears.{without_drained, without_request, without_subscription};
ghost use Rattle.ca_model.specs.History.{Ask, Cancel, Circuit, Clear, Create, Entry, Intent, Kind};
ghost use Rattle.ca_model.specs.History.{On, Reply, Request, Sent, Step, Subscribe, Told};
ghost use Rattle.ca_model.specs.ServerCalls.{finish_reply};
ghost use Rattle.ca_model.specs.Speech.{Cid, Creates, Gives, Id, In, Ioid, Is, Speaks, Stored};
ghost use Rattle.ca_model.specs.Speech.{SubId, name_in, sid_in};
ghost use Rattle.ca_model.specs.Updates.{ShowsTo};
ghost use Rattle.ca_model.specs.Channels.{Has, IsOpen, Suits, before, named};
ghost use Rattle.ca_model.specs.ClientEvents.{cancelled, channel_number, meant_by};
ghost use Rattle.ca_model.specs.World.{Names};
ghost use Rattle.ca_laws_parts.specs.Flows.{Awaits, Concerns, Ends, Flows, IsCidOf, IsGiven};
ghost use Rattle.ca_laws_parts.specs.Flows.{IsLast, IsPending, MaySend, MayTell, NoMore};
ghost use Rattle.ca_laws_parts.specs.Flows.{with_handled, with_heard, with_sent, with_told};
ghost use Rattle.ca_laws_parts.specs.Held.{Holds, HoldsRequests, IsAsking, IsNew, OnChannels};
ghost use Rattle.ca_laws_parts.specs.Held.{clear_of, has_id, is_asked, is_subscribed, with_request};
ghost use Rattle.ca_laws_parts.specs.Held.{with_subscription};
ghost use Rattle.ca_laws_parts.specs.CircuitSteps.{removal_of, replied, update_of};
ghost use Rattle.ca_laws_parts.specs.Sids.{IsLiveBefore, MayCreate, Sids};
ghost use Rattle.ca_laws_parts.specs.Replies.{IsCidAt, IsOfMessage};

/// The ids that are in flight on a circuit mean what they were sent for, however its lists grow.
pub fn ids_mean_their_own()
    ensures new { (c : Circuit) → c.up ≡ [] → c.down ≡ [] → c.heard ≡ [] → Flows (Awaits c []) c }
    // The client sends a message that it may send; it reads its next one.
    ensures sent { (kept : List ℕ) (c : Circuit) (s : Sent) → MaySend (Awaits c kept) c s
        → Flows (Awaits c kept) c → Flows (Awaits c kept) (with_sent s c) }
    ensures read { (kept : List ℕ) (c : Circuit) (h : Step) → h.sent ≡ length c.up
        → length c.heard < length c.down → Flows (Awaits c kept) c
        → Flows (Awaits c kept) (with_heard h c) }
    // The server sends one that it may send, and keeps less; it has handled its next one, and may
    // keep something for it.
    ensures told { (kept fewer : List ℕ) (c : Circuit) (t : Told)
        → MayTell (Awaits c kept) (Awaits c fewer) c t → Flows (Awaits c kept) c
        → Flows (Awaits c fewer) (with_told t c) }
    ensures handled { (kept now : List ℕ) (c : Circuit) (h : Step)
        → ((p : ℕ) → In now p → In kept p ⊎ (p ≡ length c.handled)) → Flows (Awaits c kept) c
        → Flows (Awaits (with_handled h c) now) (with_handled h c) }
{}

/// The replies that are due for a message speak only of the ids that it gave or cleared, of the
/// subscription that it cancelled, and, if it is a WRITE, of the CID of its channel.
pub fn due_replies_speak_of_their_message()
    ensures { (k : Knows) (m : Fields) (replies : List Fields) (action : Action)
        → HeaderFits (header_of m) → Due k m replies action → (i : ℕ) (r : Fields) → At replies i r
        → (id : Id) → Speaks r id → IsOfMessage k m id }
{}

/// An IOID is free again once the reply to its request was read: nothing that may still come speaks
/// of it. Nothing comes at all about what is over. And what holds an id finds by it only messages
/// about what the id was given to.
pub fn an_id_is_free_again()
    ensures request { (kept : List ℕ) (c : Circuit) (h : Step) (t : Told) (s : Sent) (n : ℕ)
        → Flows (Awaits c kept) c → At c.down (length c.heard) t → t.cause ≡ Reply
        → At c.up t.place s → IsLast t.message s.intent → Speaks t.message (Ioid n) → (p : ℕ)
        → IsPending (Awaits c kept) (with_heard h c) p (Ioid n) → ⊥ }
    ensures given { (kept : List ℕ) (c : Circuit) (h : Step) (t : Told) (s : Sent) (id : Id)
        → Flows (Awaits c kept) c → At c.down (length c.heard) t → t.cause ≡ Reply
        → At c.up t.place s → IsLast t.message s.intent → Gives s.message id → Speaks t.message id
        → ((p : ℕ) → t.place < p → Concerns c.up p id → ⊥) → (p : ℕ)
        → IsPending (Awaits c kept) (with_heard h c) p id → ⊥ }
    ensures over { (kept : List ℕ) (c : Circuit) (h : Step) (p : ℕ) (id : Id)
        → NoMore (Awaits c kept) c (length c.heard) p
        → IsPending (Awaits c kept) (with_heard h c) p id → ⊥ }
    ensures own { (kept : List ℕ) (c : Circuit) (t : Told) (id : Id) (k number : ℕ)
        → Flows (Awaits c kept) c → At c.down (length c.heard) t → Speaks t.message id
        → IsGiven c.up id k number
        → (r : Sent) × At c.up t.place r × (named id r.intent ≡ Some number) × (k ≤ t.place) }
{}

/// So each message of a server speaks only of ids that the client's message concerns about which it
/// is: each reply that is due, if a WRITE was handled on the channel for which it was meant; the
/// reply of a finish; a SERVER_DISCONN; and an update.
pub fn what_is_told_speaks_of_its_own()
    ensures reply { (up : List Sent) (place : ℕ) (s : Sent) (k : Knows) (replies : List Fields)
        (action : Action) → At up place s → HeaderFits (header_of s.message)
        → Due k s.message replies action
        → (Is Write s.message → (cid : ℕ) → IsCidAt k s.message.p1 cid
        → IsCidOf up place s.intent cid) → (i : ℕ) (r : Fields) → At replies i r → (id : Id)
        → Speaks r id → Concerns up place id }
    ensures finish { (up : List Sent) (place : ℕ) (s : Sent) (p : Put) → At up place s
        → Is WriteNotify s.message → s.message.p2 ≡ p.ioid → (id : Id) → Speaks (finish_reply p) id
        → Concerns up place id }
    ensures removal { (up : List Sent) (place : ℕ) (s : Sent) (cid : ℕ) → At up place s
        → Is CreateChannel s.message → s.message.p1 ≡ cid → (id : Id) → Speaks (disconnect cid) id
        → Concerns up place id }
    ensures update { (up : List Sent) (place : ℕ) (s : Sent) (w : Wanted) (v : Stored) (m : Fields)
        → At up place s → Is EventAdd s.message → s.message.p2 ≡ w.id → ShowsTo w v m → (id : Id)
        → Speaks m id → Concerns up place id }
{}

/// What is in a table of wire ids after each change is what was there and was not changed, and what
/// was put there; an id that may be given is held by nothing; and what holds a wire id is found by
/// it.
pub fn tables_hold_what_was_put_there<T>()
    ensures fresh { (t : Table T) (g h : Handle) (v : T) → length t ≤ arena_slots → MayGive t h
        → under t g ≡ Some v → wire_of g ≡ wire_of h → ⊥ }
    ensures one { (t : Table T) (g h : Handle) (v w : T) → length t ≤ arena_slots
        → under t g ≡ Some v → under t h ≡ Some w → wire_of g ≡ wire_of h → g ≡ h }
    ensures found { (t : Table T) (h : Handle) (v : T) → length t ≤ arena_slots → under t h ≡ Some v
        → by_wire t (wire_of h) ≡ Some (h, v) }
    ensures finds { (t : Table T) (id : ℕ) (e : Handle × T) → by_wire t id ≡ Some e
        → (under t e.0 ≡ Some e.1) × (wire_of e.0 ≡ id) }
    // Something new holds an id: nothing else changes.
    ensures held { (t : Table T) (h : Handle) (v : T) → MayGive t h
        → under (with_held h v t) h ≡ Some v }
    ensures held_too { (t : Table T) (g h : Handle) (v w : T) → MayGive t h → under t g ≡ Some w
        → under (with_held h v t) g ≡ Some w }
    ensures held_only { (t : Table T) (g h : Handle) (v w : T) → under (with_held h v t) g ≡ Some w
        → ((g ≡ h) × (w ≡ v)) ⊎ (under t g ≡ Some w) }
    // One is changed, or its id is free.
    ensures changed { (f : T → T) (t : Table T) (h : Handle) (u : T) → under t h ≡ Some u
        → under (with_changed f h t) h ≡ Some (f u) }
    ensures changed_only { (f : T → T) (t : Table T) (g h : Handle) (w : T)
        → under (with_changed f h t) g ≡ Some w
        → ((g ≡ h) × ((u : T) × (under t h ≡ Some u) × (w ≡ f u)))
        ⊎ ((g ≡ h → ⊥) × (under t g ≡ Some w)) }
    ensures others_stay { (f : T → T) (t : Table T) (g h : Handle) (w : T) → under t g ≡ Some w
        → (g ≡ h → ⊥)
        → (under (with_changed f h t) g ≡ Some w) × (under (with_freed h t) g ≡ Some w) }
    ensures freed { (t : Table T) (g h : Handle) (w : T) → under (with_freed h t) g ≡ Some w
        → (g ≡ h → ⊥) × (under t g ≡ Some w) }
    // All are changed, or the ids of those that a test names are free.
    ensures all { (f : T → T) (t : Table T) (g : Handle) (u : T) → under t g ≡ Some u
        → under (with_all f t) g ≡ Some (f u) }
    ensures all_only { (f : T → T) (t : Table T) (g : Handle) (w : T)
        → under (with_all f t) g ≡ Some w → (u : T) × (under t g ≡ Some u) × (w ≡ f u) }
    ensures all_freed { (frees : T → Bool) (t : Table T) (g : Handle) (u : T) → under t g ≡ Some u
        → frees u ≡ false → under (with_all_freed frees t) g ≡ Some u }
    ensures all_freed_only { (frees : T → Bool) (t : Table T) (g : Handle) (w : T)
        → under (with_all_freed frees t) g ≡ Some w → (under t g ≡ Some w) × (frees w ≡ false) }
{}

/// A client's requests on a circuit hold their IOIDs, as its lists grow: each IOID that may still
/// come back is held, and was given last to the request that holds it.
pub fn requests_hold_their_ids()
    // The lists grow, and the table stays.
    ensures sent { (kept : List ℕ) (on : Handle) (meant : Handle → Intent) (t : Table HeldRequest)
        (c : Circuit) (s : Sent) → ((n : ℕ) → Gives s.message (Ioid n) → ⊥)
        → HoldsRequests (Awaits c kept) on meant t c
        → HoldsRequests (Awaits c kept) on meant t (with_sent s c) }
    ensures told { (kept fewer : List ℕ) (on : Handle) (meant : Handle → Intent)
        (t : Table HeldRequest) (c : Circuit) (u : Told)
        → MayTell (Awaits c kept) (Awaits c fewer) c u → HoldsRequests (Awaits c kept) on meant t c
        → HoldsRequests (Awaits c fewer) on meant t (with_told u c) }
    ensures handled { (kept now : List ℕ) (on : Handle) (meant : Handle → Intent)
        (t : Table HeldRequest) (c : Circuit) (g : Step)
        → ((p : ℕ) → In now p → In kept p ⊎ (p ≡ length c.handled))
        → HoldsRequests (Awaits c kept) on meant t c
        → HoldsRequests (Awaits (with_handled g c) now) on meant t (with_handled g c) }
    ensures heard { (kept : List ℕ) (on : Handle) (meant : Handle → Intent) (t : Table HeldRequest)
        (c : Circuit) (g : Step) → HoldsRequests (Awaits c kept) on meant t c
        → HoldsRequests (Awaits c kept) on meant t (with_heard g c) }
    // A request is issued: nothing that may still come speaks of its IOID. And its reply is read,
    // which frees that.
    ensures fresh { (kept : List ℕ) (on : Handle) (meant : Handle → Intent) (t : Table HeldRequest)
        (c : Circuit) (q : Handle) → MayGive t q → HoldsRequests (Awaits c kept) on meant t c
        → (p : ℕ) → IsPending (Awaits c kept) c p (Ioid (wire_of q)) → ⊥ }
    ensures issued { (kept : List ℕ) (on : Handle) (meant : Handle → Intent) (t : Table HeldRequest)
        (c : Circuit) (q : Handle) (r : HeldRequest) (s : Sent) (number : ℕ) → MayGive t q
        → was_sent_on on r ≡ true → Gives s.message (Ioid (wire_of q)) → meant q ≡ s.intent
        → named (Ioid (wire_of q)) s.intent ≡ Some number
        → HoldsRequests (Awaits c kept) on meant t c
        → HoldsRequests (Awaits c kept) on meant (with_held q r t) (with_sent s c) }
    ensures replied { (kept : List ℕ) (on : Handle) (meant : Handle → Intent)
        (t : Table HeldRequest) (c : Circuit) (g : Step) (u : Told) (s : Sent) (q : Handle)
        → Flows (Awaits c kept) c → At c.down (length c.heard) u → u.cause ≡ Reply
        → At c.up u.place s → IsLast u.message s.intent → Speaks u.message (Ioid (wire_of q))
        → HoldsRequests (Awaits c kept) on meant t c
        → HoldsRequests (Awaits c kept) on meant (with_freed q t) (with_heard g c) }
    // A channel is over, and its requests drain; those of which nothing may still come are freed.
    ensures over { (kept : List ℕ) (on channel : Handle) (meant : Handle → Intent)
        (t : Table HeldRequest) (c : Circuit) → HoldsRequests (Awaits c kept) on meant t c
        → HoldsRequests (Awaits c kept) on meant (channel_over channel t) c }
    ensures freed { (kept : List ℕ) (on : Handle) (meant : Handle → Intent)
        (frees : HeldRequest → Bool) (t : Table HeldRequest) (c : Circuit)
        → ((p n : ℕ) (q : Handle) (r : HeldRequest) → IsPending (Awaits c kept) c p (Ioid n)
        → under t q ≡ Some r → wire_of q ≡ n → was_sent_on on r ≡ true → frees r ≡ false)
        → HoldsRequests (Awaits c kept) on meant t c
        → HoldsRequests (Awaits c kept) on meant (with_all_freed frees t) c }
{}

/// What the SIDs in a client's messages mean on a circuit, as its lists grow: each message on a
/// channel has the SID under which that is live. So it is handled on the channel that was meant,
/// and under one SID one channel is live.
pub fn sids_mean_their_channel()
    ensures new { (c : Circuit) → c.up ≡ [] → c.down ≡ [] → c.heard ≡ [] → c.handled ≡ [] → Sids c }
    ensures sent { (c : Circuit) (s : Sent)
        → ((channel : ℕ) (ask : Ask) → s.intent ≡ On channel ask → (ask ≡ Create → ⊥)
        → (j k : ℕ) × IsLiveBefore c channel j k (sid_in s.message) (length c.up)) → Sids c
        → Sids (with_sent s c) }
    ensures read { (c : Circuit) (g : Step) → g.sent ≡ length c.up → length c.handled ≤ length c.up
        → length c.heard < length c.down → Sids c → Sids (with_heard g c) }
    ensures handled { (c : Circuit) (h : Step) → h.sent ≡ length c.down → Sids c
        → Sids (with_handled h c) }
    ensures told { (c : Circuit) (t : Told) → t.place < length c.handled
        → ((sid : ℕ) → Creates t.message sid → MayCreate c sid t.place) → Sids c
        → Sids (with_told t c) }
    ensures one { (c : Circuit) (a b i j k l sid at : ℕ) → Sids c → IsLiveBefore c a i k sid at
        → IsLiveBefore c b j l sid at → (i ≡ j) × (k ≡ l) }
    ensures acts { (c : Circuit) (y : List Entry) (p channel : ℕ) (s : Sent) (ask : Ask) (h : Step)
        → Sids c → At c.up p s → s.intent ≡ On channel ask → (ask ≡ Create → ⊥) → At c.handled p h
        → (j k : ℕ) × (t : Told) × (q : Sent) × At c.down j t × (t.place ≡ k) × At c.up k q
        × (q.intent ≡ On channel Create)
        × ((r : ℕ) (g : Step) → At c.handled k g
        → Has (take g.logged (take h.logged y)) r (name_in q.message)
        → Gives q.message (Cid t.message.p1)
        → IsOpen (before c p h) (take h.logged y) j k (sid_in s.message) r) }
{}

/// A caller clears a live channel: its CLEAR_CHANNEL may be sent, and what the client's tables hold
/// of the circuit stays so.
pub fn a_clear_keeps_what_is_held()
    ensures { (kept : List ℕ) (on : Handle) (n : Names) (x : Client) (c : Circuit) (h : Handle)
        (native : Native) (rights : ℕ)
        → standing_at x h ≡ Some (standing.On on (Live native rights))
        → Holds (Awaits c kept) on n x c
        → MaySend (Awaits c kept) c (clear_of n native.sid h)
        × Holds (Awaits c kept) on n
        (sending (clear_sent on native.sid h ∷ [])
        (cleared h (standing.On on (Live native rights)) x))
        (with_sent (clear_of n native.sid h) c) }
{}

/// A server's events leave the meaning of ids as it was: it handles its next message with the
/// replies that are due; a put is finished; and later messages go out, of a removal or as updates.
pub fn a_servers_events_keep_meanings()
    // The server keeps nothing for a message with one reply, nor for what that ends.
    ensures step { (kept now : List ℕ) (c : Circuit) (h : Step) (s : Sent) (k : Knows)
        (replies : List Fields) (action : Action) → At c.up (length c.handled) s
        → HeaderFits (header_of s.message) → Due k s.message replies action
        → (Is Write s.message → (cid : ℕ) → IsCidAt k s.message.p1 cid
        → IsCidOf c.up (length c.handled) s.intent cid)
        → ((p : ℕ) → In now p → In kept p ⊎ (p ≡ length c.handled))
        → ((m : Fields) → replies ≡ m ∷ [] → In now (length c.handled) → ⊥)
        → ((p : ℕ) (r : Sent) → At c.up p r → p < length c.handled → Ends s.intent r.intent
        → In now p → ⊥) → Flows (Awaits c kept) c
        → Flows (Awaits (with_handled h c) now)
        (with_handled h (record c { down = c.down ++ map (replied (length c.handled)) replies })) }
    ensures finish { (kept fewer : List ℕ) (c : Circuit) (place : ℕ) (s : Sent) (p : Put)
        → At c.up place s → Is WriteNotify s.message → s.message.p2 ≡ p.ioid
        → place < length c.handled → In kept place → ((l : ℕ) → In fewer l → In kept l)
        → (In fewer place → ⊥) → Flows (Awaits c kept) c
        → Flows (Awaits c fewer) (with_told (replied place (finish_reply p)) c) }
    ensures removal { (kept fewer : List ℕ) (c : Circuit) (place cid : ℕ) (s : Sent)
        → At c.up place s → Is CreateChannel s.message → s.message.p1 ≡ cid → In kept place
        → ((l : ℕ) → In fewer l → In kept l) → Flows (Awaits c kept) c
        → Flows (Awaits c fewer) (with_told (removal_of place cid) c) }
    ensures update { (kept fewer : List ℕ) (c : Circuit) (place number : ℕ) (s : Sent) (w : Wanted)
        (v : Stored) (m : Fields) → At c.up place s → Is EventAdd s.message → s.message.p2 ≡ w.id
        → ShowsTo w v m → In kept place → ((l : ℕ) → In fewer l → In kept l)
        → Flows (Awaits c kept) c
        → Flows (Awaits c fewer) (with_told (update_of place number m) c) }
{}

/// A caller reads, or puts with notification: the message may be sent, and what the client's tables
/// hold of the circuit stays so, with the new request among them.
pub fn a_request_keeps_what_is_held()
    ensures sent { (kept : List ℕ) (on : Handle) (n : Names) (x : Client) (c : Circuit) (s : Sent)
        (q : Handle) (kind : Kind) (channel number : ℕ) → IsAsking s → s.message.p2 ≡ wire_of q
        → s.intent ≡ On channel (Request kind number) → Suits s.intent s.message
        → MayGive x.requests q → IsNew n.requests q → Holds (Awaits c kept) on n x c
        → MaySend (Awaits c kept) c s }
    ensures held { (kept : List ℕ) (on : Handle) (n : Names) (x : Client) (c : Circuit) (s : Sent)
        (q : Handle) (kind : Kind) (channel number : ℕ) (h : Handle) (l : LiveChannel)
        (asked : Asked) (y : Sending) → IsAsking s → s.message.p2 ≡ wire_of q
        → s.intent ≡ On channel (Request kind number) → Suits s.intent s.message
        → MayGive x.requests q → IsNew n.requests q → l.circuit ≡ on
        → Holds (Awaits c kept) on n x c
        → Holds (Awaits c kept) on (with_request q s.intent n)
        (sending (y ∷ []) (issued h l asked q x)) (with_sent s c) }
{}

/// What a client reads keeps what its tables hold of the circuit: the reply to a request is about
/// what was meant by it, and frees its IOID; a SERVER_DISCONN of a live channel makes its
/// CLEAR_CHANNEL go out; and the reply to a CLEAR_CHANNEL frees the CID of the channel and the ids
/// of its requests and subscriptions. Any other message, as far as it changes no table, keeps it
/// too.
pub fn what_is_read_keeps_what_is_held()
    ensures any { (kept : List ℕ) (on : Handle) (n : Names) (x : Client) (c : Circuit) (g : Step)
        → Holds (Awaits c kept) on n x c → Holds (Awaits c kept) on n x (with_heard g c) }
    ensures reply { (kept : List ℕ) (on : Handle) (n : Names) (x : Client) (c : Circuit) (g : Step)
        (t : Told) (s : Sent) (q : Handle) (r : HeldRequest) → Flows (Awaits c kept) c
        → Holds (Awaits c kept) on n x c → At c.down (length c.heard) t → t.cause ≡ Reply
        → Is ReadNotify t.message ⊎ Is WriteNotify t.message → At c.up t.place s
        → answered_by on t.message.command t.message.p2 x.requests ≡ Some (q, r)
        → Holds (Awaits c kept) on n (without_request q x) (with_heard g c)
        × (named (Ioid (wire_of q)) s.intent ≡ named (Ioid (wire_of q)) (meant_by n.requests q)) }
    ensures removal { (kept : List ℕ) (on : Handle) (n : Names) (x : Client) (c : Circuit)
        (g : Step) (cid : ℕ) (h : Handle) (native : Native) (rights : ℕ)
        → Holds (Awaits c kept) on n x c → channel_on x on cid ≡ Some (h, Live native rights)
        → MaySend (Awaits c kept) (with_heard g c) (clear_of n native.sid h)
        × Holds (Awaits c kept) on n
        (sending (clear_sent on native.sid h ∷ [])
        (with_standing (standing.On on Leaving) h (with_requests (channel_over h x.requests) x)))
        (with_sent (clear_of n native.sid h) (with_heard g c)) }
    // Nothing was sent on the channel after its CLEAR_CHANNEL.
    ensures cleared { (kept : List ℕ) (on : Handle) (n : Names) (x : Client) (c : Circuit)
        (g : Step) (t : Told) (s : Sent) (h : Handle) (p : Phase) → Flows (Awaits c kept) c
        → Holds (Awaits c kept) on n x c → OnChannels n x c → At c.down (length c.heard) t
        → t.cause ≡ Reply → At c.up t.place s → s.intent ≡ On (channel_number n h) Clear
        → ((l : ℕ) (r : Sent) (ask : Ask) → t.place < l → At c.up l r
        → r.intent ≡ On (channel_number n h) ask → ⊥) → channel_on x on t.message.p2 ≡ Some (h, p)
        → is_asked p ≡ true
        → Holds (Awaits c kept) on n (without_channel (without_drained on h x) h) (with_heard g c)
        × Holds (Awaits c kept) on n (searched_again (without_drained on h x) h) (with_heard g c) }
{}

/// A caller subscribes on a live channel, or ends a subscription that has its id on the circuit,
/// and a channel that is not on it yet is asked for: the EVENT_ADD, the EVENT_CANCEL or the
/// CREATE_CHAN may be sent, and what the client's tables hold of the circuit stays so.
pub fn subscriptions_and_creations_keep_what_is_held()
    ensures subscribe { (kept : List ℕ) (on : Handle) (n : Names) (x : Client) (c : Circuit)
        (s : Sent) (q h : Handle) (channel number : ℕ) (ch : Channel) (a : Shape) (mask : ℕ)
        (y : Sending) → Is EventAdd s.message → s.message.p2 ≡ wire_of q
        → s.intent ≡ On channel (Subscribe number) → Suits s.intent s.message
        → MayGive x.subscriptions q → IsNew n.subscriptions q → under x.channels h ≡ Some ch
        → is_on_in is_subscribed on ch ≡ true → Holds (Awaits c kept) on n x c
        → MaySend (Awaits c kept) c s
        × Holds (Awaits c kept) on (with_subscription q s.intent n)
        (sending (y ∷ []) (record x {
          subscriptions = with_held q (new_subscription h a mask)
              x.subscriptions;
        })) (with_sent s c) }
    ensures unsubscribe { (kept : List ℕ) (on : Handle) (n : Names) (x : Client) (c : Circuit)
        (s : Sent) (q : Handle) (d : Subscription) (y : Sending) → Is EventCancel s.message
        → s.message.p2 ≡ wire_of q → s.intent ≡ cancelled (meant_by n.subscriptions q)
        → Suits s.intent s.message → under x.subscriptions q ≡ Some d
        → has_id x.channels on d ≡ true → Holds (Awaits c kept) on n x c
        → MaySend (Awaits c kept) c s
        × Holds (Awaits c kept) on n
        (sending (y ∷ []) (record x {
          subscriptions = with_stage (Cancelled on) q x.subscriptions;
        })) (with_sent s c) }
    ensures create { (kept : List ℕ) (on : Handle) (n : Names) (x : Client) (c : Circuit) (s : Sent)
        (h : Handle) (ch : Channel) (y : Sending) → Is CreateChannel s.message
        → s.message.p1 ≡ wire_of h → s.intent ≡ On (channel_number n h) Create
        → Suits s.intent s.message → under x.channels h ≡ Some ch → is_on_in is_asked on ch ≡ false
        → Holds (Awaits c kept) on n x c
        → MaySend (Awaits c kept) c s
        × Holds (Awaits c kept) on n (sending (y ∷ []) (found_on on (Creating 0) h x))
        (with_sent s c) }
{}

/// So do the others that change a table: access rights, or whatever moves a channel to a phase that
/// is like its own; a CREATE_CH_FAIL, after which the CID is free; and the confirmation of a
/// cancel, after which the subscription's id is free.
pub fn what_ends_keeps_what_is_held()
    ensures rights { (kept : List ℕ) (on : Handle) (n : Names) (x : Client) (c : Circuit) (g : Step)
        (cid : ℕ) (h : Handle) (p q : Phase) → channel_on x on cid ≡ Some (h, p)
        → is_asked p ≡ is_asked q → is_subscribed p ≡ is_subscribed q
        → Holds (Awaits c kept) on n x c
        → Holds (Awaits c kept) on n (with_standing (standing.On on q) h x) (with_heard g c) }
    // Nothing was sent on the channel after its CREATE_CHAN.
    ensures failed { (kept : List ℕ) (on : Handle) (n : Names) (x : Client) (c : Circuit) (g : Step)
        (t : Told) (s : Sent) (h : Handle) (p : Phase) → Flows (Awaits c kept) c
        → Holds (Awaits c kept) on n x c → At c.down (length c.heard) t → t.cause ≡ Reply
        → Is CreateChannelFail t.message → At c.up t.place s
        → s.intent ≡ On (channel_number n h) Create
        → ((l : ℕ) (r : Sent) (ask : Ask) → t.place < l → At c.up l r
        → r.intent ≡ On (channel_number n h) ask → ⊥) → channel_on x on t.message.p1 ≡ Some (h, p)
        → is_asked p ≡ true → is_subscribed p ≡ false
        → Holds (Awaits c kept) on n (without_channel x h) (with_heard g c)
        × Holds (Awaits c kept) on n (searched_again x h) (with_heard g c) }
    // Before its EVENT_CANCEL the subscription was subscribed to, and after it nothing was sent
    // about it.
    ensures confirmed { (kept : List ℕ) (on : Handle) (n : Names) (x : Client) (c : Circuit)
        (g : Step) (t : Told) (s : Sent) (q : Handle) (channel number : ℕ) → Flows (Awaits c kept) c
        → Holds (Awaits c kept) on n x c → OnChannels n x c → At c.down (length c.heard) t
        → t.cause ≡ Reply → Is EventAdd t.message → At c.up t.place s
        → s.intent ≡ On channel (Cancel number)
        → confirmed_by on t.message.p2 x.subscriptions ≡ Some q
        → ((p : ℕ) (r : Sent) → At c.up p r → named (SubId (wire_of q)) r.intent ≡ Some number
        → ((p < t.place) × ((a : ℕ) × (r.intent ≡ On a (Subscribe number)))) ⊎ (p ≡ t.place))
        → Holds (Awaits c kept) on n (without_subscription q x) (with_heard g c) }
{}
