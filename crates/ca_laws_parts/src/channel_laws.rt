//! What a client's tables hold of a circuit stays right as a channel is created, cleared or
//! refused, and as a server handles messages. Reads, puts and subscriptions are in `circuit.rt`.
ghost use Rattle.std.specs.Prelude.{[], ◌≡◌, ◌<◌, ◌++◌, ◌⊎◌, ◌∷◌, List, Some, false, length, map};
ghost use Rattle.std.specs.Prelude.{true, ℕ};
ghost use Rattle.ca_text.specs.declared.command.Command.TheVariants.{CreateChannel, EventAdd};
ghost use Rattle.ca_text.specs.declared.command.Command.TheVariants.{Write, WriteNotify};
ghost use Rattle.ca_text.specs.Place.{At};
ghost use Rattle.ca_arena.specs.declared.handle.Handle.{Handle};
ghost use Rattle.ca_ids.specs.Table.{same_handle, under};
ghost use Rattle.ca_ids.specs.Wire.{wire_of};
ghost use Rattle.ca_monitor.specs.Subscriptions.{Subscription, standing_to};
ghost use Rattle.ca_requests.specs.Requests.{Request as HeldRequest, answered_by, was_sent_on};
ghost use Rattle.ca_wire.specs.Fields.{Fields};
ghost use Rattle.ca_wire.specs.Header.{HeaderFits};
ghost use Rattle.ca_wire.specs.Message.{header_of};
ghost use Rattle.ca_wire.specs.declared.requests.Wanted.{Wanted};
ghost use Rattle.ca_records.specs.declared.puts.Put.{Put};
ghost use Rattle.ca_model.specs.Due.{Action, Due, Knows};
ghost use Rattle.ca_model.specs.ServerCalls.{finish_reply};
ghost use Rattle.ca_model.specs.Updates.{ShowsTo};
ghost use Rattle.ca_model.specs.Answers.{Sending};
ghost use Rattle.ca_model.specs.Client.{Channel, Client, Clearing, Connecting, Creating, Doomed};
ghost use Rattle.ca_model.specs.Client.{Leaving, Live, Native, Phase, Searching, Standing};
ghost use Rattle.ca_model.specs.Client.{channel_on, ended, is_on_in, searched_again, sending};
ghost use Rattle.ca_model.specs.Client.{standing_at, with_standing, without_channel};
ghost use Rattle.ca_model.specs.Client as standing;
ghost use Rattle.ca_model.specs.ClientCalls.{clear_sent, cleared};
ghost use Rattle.ca_model.specs.ClientEnds.{begun};
ghost use Rattle.ca_model.specs.Hears.{event_adds, subscription_on, without_drained};
ghost use Rattle.ca_model.specs.Hears.{without_request};
ghost use Rattle.ca_model.specs.Hears.{without_subscription};
ghost use Rattle.ca_model.specs.History.{Cancel, Circuit, Create, Intent, OfCircuit, On, Reply};
ghost use Rattle.ca_model.specs.History.{Request, Sent, Step, Told};
ghost use Rattle.ca_model.specs.History as history;
ghost use Rattle.ca_model.specs.Speech.{In, Ioid, Is, Speaks, Stored, SubId};
ghost use Rattle.ca_model.specs.Channels.{Suits, named};
ghost use Rattle.ca_model.specs.ClientEvents.{channel_number, meant_by};
ghost use Rattle.ca_model.specs.World.{Names};
ghost use Rattle.ca_laws_parts.specs.Flows.{Awaits, Ends, Flows, IsCidOf, MaySend, MaySendAll};
ghost use Rattle.ca_laws_parts.specs.Flows.{with_all_sent, with_handled, with_heard, with_sent};
ghost use Rattle.ca_laws_parts.specs.Flows.{with_told};
ghost use Rattle.ca_laws_parts.specs.Replies.{IsCidAt};
ghost use Rattle.ca_laws_parts.specs.CircuitSteps.{removal_of, replied, update_of};
ghost use Rattle.ca_laws_parts.specs.Held.{AreFew, HoldAlike, Holds, MeanToSubscribe, NoneAsked};
ghost use Rattle.ca_laws_parts.specs.Held.{clear_of, create_of, event_add_of, has_id, is_asked};
ghost use Rattle.ca_laws_parts.specs.Held.{waiting_on};
ghost use Rattle.ca_model.specs.Placed.{Attached};

/// The reply to a CREATE_CHAN is read: the channel is live, and the EVENT_ADDs of its subscriptions
/// may be sent; or its caller cleared it meanwhile, and its CLEAR_CHANNEL may be. What the client's
/// tables hold of the circuit stays so.
pub fn a_created_channel_keeps_what_is_held()
    ensures live { (kept : List ℕ) (on : Handle) (n : Names) (x : Client) (c : Circuit) (g : Step)
        (cid : ℕ) (h : Handle) (sid : ℕ) (native : Native) (rights was : ℕ)
        → MeanToSubscribe n x.subscriptions → Holds (Awaits c kept) on n x c
        → channel_on x on cid ≡ Some (h, Creating was)
        → MaySendAll (Awaits c kept) (with_heard g c)
        (map (event_add_of n sid) (standing_to h x.subscriptions))
        × Holds (Awaits c kept) on n
        (sending (event_adds on sid h x) (with_standing (standing.On on (Live native rights)) h x))
        (with_all_sent (map (event_add_of n sid) (standing_to h x.subscriptions))
        (with_heard g c)) }
    ensures doomed { (kept : List ℕ) (on : Handle) (n : Names) (x : Client) (c : Circuit) (g : Step)
        (cid : ℕ) (h : Handle) (sid : ℕ) → Holds (Awaits c kept) on n x c
        → channel_on x on cid ≡ Some (h, Doomed)
        → MaySend (Awaits c kept) (with_heard g c) (clear_of n sid h)
        × Holds (Awaits c kept) on n
        (sending (clear_sent on sid h ∷ []) (with_standing (standing.On on Clearing) h x))
        (with_sent (clear_of n sid h) (with_heard g c)) }
    // Messages that may be sent one after another leave the meaning of ids as it was.
    ensures all_sent { (kept : List ℕ) (c : Circuit) (ss : List Sent)
        → MaySendAll (Awaits c kept) c ss → Flows (Awaits c kept) c
        → Flows (Awaits c kept) (with_all_sent ss c) }
{}

/// A caller writes to a live channel without an answer: the WRITE may be sent, since an ERROR about
/// it speaks of the channel's own CID, and what the client's tables hold of the circuit stays so.
pub fn a_write_keeps_what_is_held()
    ensures { (kept : List ℕ) (on : Handle) (n : Names) (x : Client) (c : Circuit) (s : Sent)
        (h : Handle) (number : ℕ) (ch : Channel) (sends : List Sending) → Is Write s.message
        → s.intent ≡ On (channel_number n h) (Request history.Write number)
        → under x.channels h ≡ Some ch → is_on_in is_asked on ch ≡ true
        → ((k : ℕ) (r : Sent) → At c.up k r → r.intent ≡ On (channel_number n h) Create
        → r.message.p1 ≡ wire_of h) → Holds (Awaits c kept) on n x c
        → MaySend (Awaits c kept) c s
        × Holds (Awaits c kept) on n (sending sends x) (with_sent s c) }
{}

/// An ERROR is read that refuses a request or a subscription: it is about what was meant by that,
/// and its id is free.
pub fn a_refusal_keeps_what_is_held()
    ensures request { (kept : List ℕ) (on : Handle) (n : Names) (x : Client) (c : Circuit)
        (g : Step) (t : Told) (s : Sent) (q : Handle) (r : HeldRequest) (command ioid : ℕ)
        → Flows (Awaits c kept) c → Holds (Awaits c kept) on n x c
        → At c.down (length c.heard) t → t.cause ≡ Reply → Speaks t.message (Ioid ioid)
        → At c.up t.place s → answered_by on command ioid x.requests ≡ Some (q, r)
        → Holds (Awaits c kept) on n (without_request q x) (with_heard g c)
        × (named (Ioid (wire_of q)) s.intent ≡ named (Ioid (wire_of q)) (meant_by n.requests q)) }
    // A subscription that stands was never cancelled.
    ensures subscription { (kept : List ℕ) (on : Handle) (n : Names) (x : Client) (c : Circuit)
        (g : Step) (t : Told) (s : Sent) (q : Handle) (id number : ℕ) → Flows (Awaits c kept) c
        → Holds (Awaits c kept) on n x c → At c.down (length c.heard) t → t.cause ≡ Reply
        → At c.up t.place s → Is EventAdd s.message → Speaks t.message (SubId id)
        → subscription_on x on id ≡ Some q
        → named (SubId (wire_of q)) (meant_by n.subscriptions q) ≡ Some number
        → ((p : ℕ) (r : Sent) (a : ℕ) → At c.up p r → r.intent ≡ On a (Cancel number) → ⊥)
        → Holds (Awaits c kept) on n (without_subscription q x) (with_heard g c)
        × (named (SubId (wire_of q)) s.intent
        ≡ named (SubId (wire_of q)) (meant_by n.subscriptions q)) }
{}

/// Clients that hold the same ids of a circuit hold the same of it. So does a client after it has
/// cleared a channel that is not live: one that is being created keeps its CID until the reply, and
/// one that its record left has its CLEAR_CHANNEL out already.
pub fn a_clear_before_live_keeps_what_is_held()
    ensures alike { (kept : List ℕ) (on : Handle) (n : Names) (x y : Client) (c : Circuit)
        → HoldAlike on x y → Holds (Awaits c kept) on n x c → Holds (Awaits c kept) on n y c }
    ensures away { (on : Handle) (x : Client) (h : Handle) (s : Standing) → Attached x
        → standing_at x h ≡ Some s
        → (s ≡ Searching) ⊎ ((o : Handle) × (s ≡ standing.On o Connecting))
        → HoldAlike on x (cleared h s x) }
    ensures doomed { (on : Handle) (x : Client) (h o : Handle) (rights : ℕ) → Attached x
        → standing_at x h ≡ Some (standing.On o (Creating rights))
        → HoldAlike on x (cleared h (standing.On o (Creating rights)) x) }
    ensures left { (on : Handle) (x : Client) (h o : Handle)
        → standing_at x h ≡ Some (standing.On o Leaving)
        → HoldAlike on x (cleared h (standing.On o Leaving) x) }
{}

/// What a client does on one circuit changes nothing that it holds of another: a call, a message
/// that it reads, and the end of the circuit.
pub fn other_circuits_keep_what_is_held()
    ensures cleared { (on : Handle) (x : Client) (h o : Handle) (native : Native) (rights : ℕ)
        → standing_at x h ≡ Some (standing.On o (Live native rights)) → same_handle o on ≡ false
        → HoldAlike on x (cleared h (standing.On o (Live native rights)) x) }
    ensures phase { (c on h : Handle) (x : Client) (ch : Channel) (p q : Phase)
        → same_handle c on ≡ false → under x.channels h ≡ Some ch
        → ch.standing ≡ standing.On c p → HoldAlike on x (with_standing (standing.On c q) h x) }
    ensures gone { (c on h : Handle) (x : Client) (ch : Channel) (p : Phase)
        → same_handle c on ≡ false → under x.channels h ≡ Some ch
        → ch.standing ≡ standing.On c p
        → HoldAlike on x (without_channel x h) × HoldAlike on x (searched_again x h) }
    ensures answered { (c on h : Handle) (x : Client) (ch : Channel) (p : Phase)
        → same_handle c on ≡ false → Attached x → under x.channels h ≡ Some ch
        → ch.standing ≡ standing.On c p
        → HoldAlike on x (without_channel (without_drained c h x) h)
        × HoldAlike on x (searched_again (without_drained c h x) h) }
    ensures request { (on : Handle) (x : Client) (q : Handle) (r : HeldRequest)
        → under x.requests q ≡ Some r → was_sent_on on r ≡ false
        → HoldAlike on x (without_request q x) }
    ensures subscription { (on : Handle) (x : Client) (g : Handle) (d : Subscription)
        → under x.subscriptions g ≡ Some d → has_id x.channels on d ≡ false
        → HoldAlike on x (without_subscription g x) }
    ensures ended { (c on : Handle) (x : Client) → same_handle c on ≡ false
        → HoldAlike on x (ended c x) }
{}

/// A circuit on which nothing was sent holds nothing; messages of the circuit as a whole may be
/// sent; and when it is connected, so may the CREATE_CHANs of the channels that waited for it.
pub fn a_new_circuit_holds_what_it_creates()
    ensures new { (kept : List ℕ) (on : Handle) (n : Names) (x : Client) (c : Circuit) → c.up ≡ []
        → c.down ≡ [] → AreFew x → Attached x → NoneAsked on x → Holds (Awaits c kept) on n x c }
    ensures serving { (kept : List ℕ) (on : Handle) (n : Names) (x : Client) (c : Circuit)
        (s : Sent) → s.intent ≡ OfCircuit → Suits OfCircuit s.message
        → Holds (Awaits c kept) on n x c
        → MaySend (Awaits c kept) c s × Holds (Awaits c kept) on n x (with_sent s c) }
    ensures connects { (kept : List ℕ) (on : Handle) (n : Names) (x : Client) (c : Circuit)
        (sends : List Sending) → NoneAsked on x → Holds (Awaits c kept) on n x c
        → MaySendAll (Awaits c kept) c (map (create_of n) (waiting_on on x))
        × Holds (Awaits c kept) on n (sending sends (begun on x))
        (with_all_sent (map (create_of n) (waiting_on on x)) c) }
{}

/// A server's events leave what a client's tables hold of the circuit as it was: it handles its
/// next message with the replies that are due, a put is finished, and later messages go out.
pub fn a_servers_events_keep_what_is_held()
    ensures step { (kept now : List ℕ) (on : Handle) (n : Names) (x : Client) (c : Circuit)
        (h : Step) (s : Sent) (k : Knows) (replies : List Fields) (action : Action)
        → At c.up (length c.handled) s → HeaderFits (header_of s.message)
        → Due k s.message replies action
        → (Is Write s.message → (cid : ℕ) → IsCidAt k s.message.p1 cid
        → IsCidOf c.up (length c.handled) s.intent cid)
        → ((p : ℕ) → In now p → In kept p ⊎ (p ≡ length c.handled))
        → ((m : Fields) → replies ≡ m ∷ [] → In now (length c.handled) → ⊥)
        → ((p : ℕ) (r : Sent) → At c.up p r → p < length c.handled → Ends s.intent r.intent
        → In now p → ⊥) → Flows (Awaits c kept) c → Holds (Awaits c kept) on n x c
        → Holds (Awaits (with_handled h c) now) on n x
        (with_handled h (record c { down = c.down ++ map (replied (length c.handled)) replies })) }
    ensures finish { (kept fewer : List ℕ) (on : Handle) (n : Names) (x : Client) (c : Circuit)
        (place : ℕ) (s : Sent) (p : Put) → At c.up place s → Is WriteNotify s.message
        → s.message.p2 ≡ p.ioid → place < length c.handled → In kept place
        → ((l : ℕ) → In fewer l → In kept l) → (In fewer place → ⊥) → Flows (Awaits c kept) c
        → Holds (Awaits c kept) on n x c
        → Holds (Awaits c fewer) on n x (with_told (replied place (finish_reply p)) c) }
    ensures removal { (kept fewer : List ℕ) (on : Handle) (n : Names) (x : Client) (c : Circuit)
        (place cid : ℕ) (s : Sent) → At c.up place s → Is CreateChannel s.message
        → s.message.p1 ≡ cid → In kept place → ((l : ℕ) → In fewer l → In kept l)
        → Holds (Awaits c kept) on n x c
        → Holds (Awaits c fewer) on n x (with_told (removal_of place cid) c) }
    ensures update { (kept fewer : List ℕ) (on : Handle) (n : Names) (x : Client) (c : Circuit)
        (place number : ℕ) (s : Sent) (w : Wanted) (v : Stored) (m : Fields) → At c.up place s
        → Is EventAdd s.message → s.message.p2 ≡ w.id → ShowsTo w v m → In kept place
        → ((l : ℕ) → In fewer l → In kept l) → Holds (Awaits c kept) on n x c
        → Holds (Awaits c fewer) on n x (with_told (update_of place number m) c) }
{}
