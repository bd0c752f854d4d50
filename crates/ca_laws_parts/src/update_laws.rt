//! The queues of updates: the numbers in them rise and end in the newest post, and values and
//! numbers leave together. Begin at `a_subscriber_sees_posts`.
ghost use Rattle.std.specs.Prelude.{[], ◌≡◌, ◌+◌, ◌++◌, ◌∷◌, Bool, List, None, Some, false, map};
ghost use Rattle.std.specs.Prelude.{replicate, take, ℕ};
ghost use Rattle.std.specs.List.{FoldsTo, fold};
ghost use Rattle.ca_text.specs.Place.{At};
ghost use Rattle.ca_queue.specs.Circuit.{queue_posted, without_each};
ghost use Rattle.ca_model.specs.Server.{Open, Server, ServerEnd, Subscription, key_of, with_post};
ghost use Rattle.ca_model.specs.Server.{without_subscriptions};
ghost use Rattle.ca_arena.specs.declared.handle.Handle.{Handle};
ghost use Rattle.ca_model.specs.ServerSteps.{Acts, HasEnd, Leaves, Pumps, TakesIn};
ghost use Rattle.ca_model.specs.ServerSteps as event;
ghost use Rattle.ca_model.specs.Speech.{Stored};
ghost use Rattle.ca_model.specs.ServerEvents.{keys_concerned, number_taken, numbers_after, stamped};
ghost use Rattle.ca_model.specs.ServerEvents.{with_number, without_standing};
ghost use Rattle.ca_model.specs.Due.{Action, Adds};
ghost use Rattle.ca_model.specs.World.{Joined};
ghost use Rattle.ca_laws_parts.specs.InStep.{EndInStep, InStep, keys_standing};
ghost use Rattle.ca_queue.specs.declared.entry.SubKey.{SubKey};
ghost use Rattle.ca_queue.specs.Keys.{AreApart, is_among, same};
ghost use Rattle.ca_queue.specs.Queue.{Queue, added, cancelled, no_queue, posted, switched};
ghost use Rattle.ca_queue.specs.Queue.{with_front_taken};
ghost use Rattle.ca_queue.specs.Waiting.{entries_of, taken};
ghost use Rattle.ca_records.specs.Rules.{Rule};
ghost use Rattle.ca_model.specs.History.{Cause, Reply, Told, Update, World};
ghost use Rattle.ca_model.specs.Channels.{OfCircuits};
ghost use Rattle.ca_model.specs.Known.{IsSafe};
ghost use Rattle.ca_laws_parts.specs.Rising.{Rises, Rising};
ghost use Rattle.ca_laws_parts.specs.Seen.{SeeParts};
ghost use Rattle.ca_laws_parts.specs.Subsequence.{IsSubsequence};

/// In a safe world what the updates of each accepted EVENT_ADD show is a subsequence of its
/// record's posts, and ends in the newest while the subscription lasts.
pub fn a_subscriber_sees_posts()
    ensures { (ports : ℕ → ℕ) (rules : ℕ → List Rule) (world : World) → IsSafe ports rules world
        → OfCircuits world SeeParts }
{}

/// A beginning of a subsequence is one.
pub fn a_subsequence_begins_with_one<T>()
    ensures { (n : ℕ) (xs ys : List T) → IsSubsequence xs ys → IsSubsequence (take n xs) ys }
{}

/// What a queue does to the numbers of one subscription, those that were taken and then those that
/// wait: they rise and end in the newest, from its first entry on, whatever is added, posted,
/// taken, cancelled or turned on and off.
pub fn a_queue_keeps_numbers_rising<T>()
    // Its own calls: its first entry has the number 0, the next post the next number, and a take
    // returns the first that waits.
    ensures begins { (stamp : ℕ → T) (key : SubKey) (q : Queue T) → entries_of key q.waiting ≡ []
        → Rising stamp key [] 1 (posted key (stamp 0) (added key q)) }
    ensures posted { (stamp : ℕ → T) (key : SubKey) (gone : List ℕ) (next : ℕ) (q : Queue T)
        → Rising stamp key gone next q
        → Rising stamp key gone (next + 1) (posted key (stamp next) q) }
    ensures taken { (stamp : ℕ → T) (key : SubKey) (gone : List ℕ) (next : ℕ) (entry : T)
        (q : Queue T) → taken q.events_on q.waiting ≡ Some (key, entry)
        → Rising stamp key gone next q
        → (n : ℕ) × (entry ≡ stamp n)
        × Rising stamp key (gone ++ n ∷ []) next (with_front_taken q) }
    ensures gone { (stamp : ℕ → T) (key : SubKey) (gone : List ℕ) (next : ℕ) (q : Queue T)
        → Rising stamp key gone next q → Rises gone }
    // Those of others, and what concerns all.
    ensures others { (stamp : ℕ → T) (key other : SubKey) (gone : List ℕ) (next : ℕ) (entry : T)
        (q : Queue T) → same other key ≡ false → Rising stamp key gone next q
        → Rising stamp key gone next (added other q)
        × Rising stamp key gone next (posted other entry q)
        × Rising stamp key gone next (cancelled other q) }
    ensures others_taken { (stamp : ℕ → T) (key other : SubKey) (gone : List ℕ) (next : ℕ)
        (entry : T) (q : Queue T) → same other key ≡ false
        → taken q.events_on q.waiting ≡ Some (other, entry) → Rising stamp key gone next q
        → Rising stamp key gone next (with_front_taken q) }
    ensures rest { (stamp : ℕ → T) (key : SubKey) (gone : List ℕ) (next : ℕ) (on : Bool)
        (q : Queue T) → Rising stamp key gone next q
        → Rising stamp key gone next (switched on q)
        × (taken q.events_on q.waiting ≡ None → Rising stamp key gone next (with_front_taken q)) }
{}

/// The queues of a server's end hold the values, and those of its circuit the numbers: the same
/// updates wait in both, in the same order, whatever is done to both. So each update that leaves
/// the end has its number in front, and is told as an update.
pub fn values_and_numbers_stay_in_step()
    ensures begins { (n : ℕ) → InStep (replicate n no_queue) (replicate n no_queue) }
    ensures posted { (key : SubKey) (v : Stored) (place number : ℕ) (values : List (Queue Stored))
        (numbers : List (Queue (ℕ × Cause))) → InStep values numbers
        → InStep (map (queue_posted key v) values)
        (map (queue_posted key (place, Update number)) numbers) }
    ensures without { (gone : SubKey → Bool) (values : List (Queue Stored))
        (numbers : List (Queue (ℕ × Cause))) → InStep values numbers
        → InStep (without_each gone values) (without_each gone numbers) }
    ensures switched { (on : Bool) (values : List (Queue Stored))
        (numbers : List (Queue (ℕ × Cause))) → InStep values numbers
        → InStep (map (switched on) values) (map (switched on) numbers) }
    ensures taken_in { (s : Subscription) (v : Stored) (place : ℕ) (e new : ServerEnd)
        (numbers : List (Queue (ℕ × Cause))) → TakesIn s v e new → InStep e.queues numbers
        → InStep new.queues (number_taken (key_of s) (place, Update 0) numbers) }
    // A post, or a write, reaches the subscriptions of the end that it concerns.
    ensures reached { (name : List ℕ) (mask : ℕ) (v : Stored) (e : ServerEnd) (j : Joined)
        → map key_of e.subscriptions ≡ keys_standing j → AreApart (keys_standing j)
        → InStep e.queues j.queues
        → InStep (with_post name mask v e).queues
        (fold with_number j (keys_concerned name mask (Some (Open e)))).queues }
    // Updates leave the end.
    ensures pumped { (updates : List event.Update) (e after : ServerEnd) (j : Joined)
        → FoldsTo Leaves e updates after → InStep e.queues j.queues
        → InStep after.queues (stamped updates j).queues
        × ((i : ℕ) (t : Told) → At (stamped updates j).lists.down i t → t.cause ≡ Reply
        → At j.lists.down i t) }
    ensures numbered { (y core : Server) (h : Handle) (updates : List event.Update) (j : Joined)
        → ((e : ServerEnd) → HasEnd y h e → InStep e.queues j.queues)
        → Pumps y h updates core → (i : ℕ) (t : Told) → At (stamped updates j).lists.down i t
        → t.cause ≡ Reply → At j.lists.down i t }
{}

/// So an open end and its circuit stay in step as a message is handled, and as subscriptions end
/// with their channel: the same subscriptions are in both, each once, and the same updates wait.
///
/// A subscription begins only under a key that none has.
pub fn an_end_and_its_circuit_stay_in_step()
    ensures acts { (y : Server) (e new : ServerEnd) (place : ℕ) (did : Action) (j : Joined)
        → Acts y e did new
        → ((s : Subscription) → did ≡ Adds s → is_among (key_of s) (keys_standing j) ≡ false)
        → EndInStep e j → EndInStep new (numbers_after place did j) }
    ensures without { (gone : SubKey → Bool) (e : ServerEnd) (j : Joined) → EndInStep e j
        → EndInStep (without_subscriptions gone e) (without_standing gone j) }
{}
