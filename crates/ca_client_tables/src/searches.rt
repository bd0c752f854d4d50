//! The searches of a client, and a moment before which none is due, so that a moment with nothing
//! due looks at none of them.
ghost use Rattle.std.specs.Prelude.{[], ◌≡◌, ◌≢◌, ◌≤◌, ◌++◌, ◌∷◌, ◌+◌, ◌<◌, IfOk, OnErr, OnOk};
ghost use Rattle.std.specs.Prelude.{false, length, take};
ghost use Rattle.ca_ids.specs.Wire.{wire_of};
ghost use Rattle.ca_search.specs.Searcher.{holds, with_all, with_one, without};
ghost use Rattle.ca_search.specs.Searches.{boosted, passed, paused, resumed, wanted_at};
ghost use Rattle.ca_client_tables.specs.Ahead.{Once};
ghost use Rattle.ca_client_tables.specs.Quiet.{AreQuiet, IsQuiet};

use ca_arena::Handle;
use ca_ids::WireId;
use ca_search::{Place, Search};
use indexmap::IndexMap;
use std::alloc::{AllocError, Global};
use std::marker::Model;

// The longest wait between two searches for a channel, in milliseconds: a later
// moment is not looked for.
const LONGEST_WAIT: u64 = 300_000;

// This many halvings find one moment among all.
const HALVINGS: usize = 20;

/// The channels that are searched for, or were found, by CID, in the order in
/// which they were opened.
#[derive(Drop)]
pub struct Searches {
    pub(crate) places: IndexMap<u32, Place>,
    // Before this moment no search is due.
    quiet: u64,
}

impl Model for Searches {
    ghost use Rattle.ca_client_tables.specs.Quiet.{Kept};

    ghost Value = { Kept };

    ghost use Rattle.indexmap.specs.IndexMap.{spare};
    ghost use Rattle.ca_client_tables.specs.Quiet.{AreQuiet};

    ghost view = { λ s. record { entries = s.places.entries; room = spare s.places } };

    ghost invariant = { λ s. AreQuiet s.quiet s.places.entries };
}

impl Searches {
    /// No searches. It does not allocate.
    pub fn new(alloc: Global) -> Searches
        ensures { result.entries ≡ [] }
    {
        Searches {
            places: IndexMap::new(alloc),
            quiet: 0,
        }
    }

    /// Makes room for one more.
    pub fn reserve(&mut self) -> Result<(), AllocError>
        ensures entries { self.new.entries ≡ self.old.entries }
        ensures ok { OnOk result (1 ≤ self.new.room) }
    {
        self.places.reserve(1)
    }

    /// Adds a channel after the others. There is room for it.
    pub fn insert(&mut self, cid: u32, place: Place)
        requires room { 1 ≤ self.old.room }
        requires fresh { holds cid self.old.entries ≡ false }
        ensures { self.new.entries ≡ self.old.entries ++ (cid, place) ∷ [] }
    {
        self.quiet = 0;
        match self.places.insert(cid, place) {
            Ok(_) => {}
            Err(_) => unreachable!(),
        }
    }

    /// A law: each CID is there once.
    pub fn know_once(&self)
        ensures { Once self.now.entries }
    {
        let _count = self.places.len();
    }

    /// Takes the channel of this CID out. The others keep their order.
    pub fn remove(&mut self, cid: u32)
        ensures entries { self.new.entries ≡ without cid self.old.entries }
        ensures out { holds cid self.new.entries ≡ false }
    {
        self.places.shift_remove(&cid);
    }

    /// There are no more searches for this channel, which was found.
    pub fn pause(&mut self, channel: Handle)
        ensures { self.new.entries ≡ with_one paused (wire_of channel) self.old.entries }
    {
        if let Some(place) = self.places.get_mut(&WireId::of(channel).number()) {
            place.pause();
        }
    }

    /// The searches for this CID begin again, as from this moment.
    pub fn resume(&mut self, cid: u32, moment: u64)
        ensures { self.new.entries ≡ with_one (resumed moment) cid self.old.entries }
    {
        self.quiet = 0;
        if let Some(place) = self.places.get_mut(&cid) {
            place.resume(moment);
        }
    }

    // All that are not paused begin again, as from this moment.
    pub(crate) fn boost(&mut self, moment: u64)
        ensures { self.new.entries ≡ with_all (boosted moment) self.old.entries }
    {
        self.quiet = 0;
        ca_search::boost(&mut self.places, moment);
    }

    /// The searches that are due at a moment, in order. Out of memory only if there is one.
    pub fn due(&self, alloc: Global, now: u64) -> Result<Vec<Search>, AllocError>
        ensures found { IfOk result (λ v. v.items ≡ wanted_at now self.now.entries) }
        ensures some { OnErr result (wanted_at now self.now.entries ≢ []) }
    {
        if now < self.quiet {
            return Ok(Vec::new(alloc));
        }
        ca_search::due_in(alloc, &self.places, now)
    }

    /// Counts the searches that are due as made now.
    pub fn pass(&mut self, now: u64)
        ensures { self.new.entries ≡ with_all (passed now) self.old.entries }
    {
        if now < self.quiet {
            return;
        }
        self.quiet = 0;
        ca_search::pass(&mut self.places, now);
        self.quiet = quiet_of(&self.places, now);
    }
}

// A moment before which none of these searches is due.
fn quiet_of(places: &IndexMap<u32, Place>, now: u64) -> u64
    ensures { AreQuiet result places.now.entries }
{
    let mut quiet = u64::MAX;
    for index in 0..places.len() {
        quiet = quiet_with(places, index, now, quiet);
    }
    quiet
}

// A moment before which no search up to this place is due, where before this limit none
// before the place is.
fn quiet_with(places: &IndexMap<u32, Place>, index: usize, now: u64, limit: u64) -> u64
    requires within { index < length places.now.entries }
    requires before { AreQuiet limit (take index places.now.entries) }
    ensures { AreQuiet result (take (index + 1) places.now.entries) }
{
    let Some((_, place)) = places.get_index(index) else {
        unreachable!()
    };
    quiet_at(place, now, limit)
}

// A moment before which no search for this channel is due: this limit, or an earlier one.
fn quiet_at(place: &Place, now: u64, limit: u64) -> u64
    ensures quiet { IsQuiet result place.now }
    ensures within { result ≤ limit }
{
    if !place.is_due(limit) {
        return limit;
    }
    if place.is_due(now) {
        return 0;
    }
    let high = limit.min(now.saturating_add(LONGEST_WAIT));
    if high < now {
        return 0;
    }
    quiet_between(place, now, high)
}

// The last moment between these before which no search for this channel is due, as far
// as it is looked for.
fn quiet_between(place: &Place, low: u64, high: u64) -> u64
    requires between { low ≤ high }
    requires quiet { IsQuiet low place.now }
    ensures quiet { IsQuiet result place.now }
    ensures within { result ≤ high }
{
    let mut range = (low, high);
    for _ in 0..HALVINGS {
        range = halved(place, range.0, range.1);
    }
    range.0
}

// The half of these moments that has the last one.
fn halved(place: &Place, low: u64, high: u64) -> (u64, u64)
    requires between { low ≤ high }
    requires quiet { IsQuiet low place.now }
    ensures quiet { IsQuiet result.0 place.now }
    ensures between { result.0 ≤ result.1 }
    ensures within { result.1 ≤ high }
{
    let middle = low + (high - low) / 2;
    if place.is_due(middle) {
        return (low, middle);
    }
    (middle, high)
}
