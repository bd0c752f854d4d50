//! What the rules of event queues guarantee: a post always finds a place, the newest update of each
//! subscription is kept, and subscriptions do not disturb each other.
ghost use Rattle.std.specs.Prelude.{◌≡◌, ◌++◌, ◌∷◌, ◌≤◌, [], Bool, List, IsFalse, IsTrue, length};
ghost use Rattle.ca_text.specs.Limits.{queue_places};
ghost use Rattle.ca_queue.specs.declared.entry.SubKey.{SubKey};
ghost use Rattle.ca_queue.specs.Keys.{same, is_among};
ghost use Rattle.ca_queue.specs.Waiting.{after_cancel, after_post, after_take, entries_of, taken};
ghost use Rattle.ca_queue.specs.Queue.{Queue, no_queue};
ghost use Rattle.ca_queue.specs.Order.{last_of};
ghost use Rattle.ca_queue.specs.Sound.{IsSound};
ghost use Rattle.ca_queue.specs.Runs.{Call, Leads, Follows, posts_to, taken_of};

/// Whatever calls a queue sees from its beginning on, free places and subscriptions that have an
/// entry are together at least 36.
pub fn every_run_is_sound<T>()
    ensures { (calls : List (Call T)) (q : Queue T) → Leads no_queue calls q → IsSound q }
{}

/// So each post finds a place.
pub fn post_finds_a_place<T>()
    ensures { (q : Queue T) (key : SubKey) (entry : T) → IsSound q
        → IsTrue (is_among key q.subscriptions)
        → length (after_post q.events_on key entry q.waiting) ≤ queue_places }
{}

/// What was taken of a subscription, and then what waits for it, are its posts with some left out,
/// in their order, and they end in the newest.
pub fn newest_is_kept<T>()
    ensures { (key : SubKey) (calls : List (Call T)) (q : Queue T) → Leads no_queue calls q
        → Follows (taken_of key [] calls ++ entries_of key q.waiting) (posts_to key [] calls) }
{}

/// A post ends the entries of its subscription, and leaves those of each other one as they are.
pub fn post_ends_its_own<T>()
    ensures own { (on : Bool) (key : SubKey) (entry : T) (q : List (SubKey × T))
        → last_of (entries_of key (after_post on key entry q)) ≡ Some entry }
    ensures others { (on : Bool) (key other : SubKey) (entry : T) (q : List (SubKey × T))
        → IsFalse (same key other)
        → entries_of other (after_post on key entry q) ≡ entries_of other q }
{}

/// A take returns the first entry of a subscription, and leaves those after it and those of each
/// other one as they are.
pub fn take_gives_the_first_of_its_own<T>()
    ensures own { (on : Bool) (key : SubKey) (entry : T) (q : List (SubKey × T))
        → Some (key, entry) ≡ taken on q
        → entries_of key q ≡ entry ∷ entries_of key (after_take on q) }
    ensures others { (on : Bool) (key other : SubKey) (entry : T) (q : List (SubKey × T))
        → Some (key, entry) ≡ taken on q → IsFalse (same key other)
        → entries_of other (after_take on q) ≡ entries_of other q }
    ensures none { (on : Bool) (q : List (SubKey × T)) → None ≡ taken on q → after_take on q ≡ q }
{}

/// A cancel leaves the entries of each other subscription as they are, and none of its own.
pub fn cancel_takes_out_its_own<T>()
    ensures own { (key : SubKey) (q : Queue T) → entries_of key (after_cancel key q.waiting) ≡ [] }
    ensures others { (key other : SubKey) (q : Queue T) → IsFalse (same key other)
        → entries_of other (after_cancel key q.waiting) ≡ entries_of other q.waiting }
{}
