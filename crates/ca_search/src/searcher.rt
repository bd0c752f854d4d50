//! All channels of a client that are searched or may be searched again. Begin at `due`: it gives
//! the searches to send now. `ca_dgram` packs them into datagrams.
ghost use Rattle.std.specs.Prelude.{◌≡◌, ◌≢◌, [], IfOk, OnErr, false};
ghost use Rattle.ca_search.specs.Searches.{boosted, passed, paused, resumed, wanted_at};
ghost use Rattle.ca_search.specs.Searcher.{Adds, Finds, at, holds, with_all, with_one, without};

use crate::place::Place;
use crate::search::Search;
use ca_text::{ChannelName, Refusal};
use indexmap::IndexMap;
use std::alloc::{AllocError, Global};
use std::marker::Model;

/// The channels that a client searches, in the order in which they were added. Moments are
/// milliseconds; an earlier one than the last that was given counts as that.
///
/// A channel is looked up by a hash of its CID; `remove`, `due` and `boost` go
/// once over the places.
#[derive(Debug, Drop)]
pub struct Searcher {
    moment: u64,
    places: IndexMap<u32, Place>,
}

impl Model for Searcher {
    ghost use Rattle.ca_search.specs.Searcher.{Searches};

    ghost Value = { Searches };

    ghost view = { λ s. record { moment = s.moment; channels = s.places.entries } };
}

impl Searcher {
    /// No channel.
    pub fn new(alloc: Global) -> Searcher
        ensures { result ≡ record { moment = 0; channels = [] } }
    {
        Searcher {
            moment: 0,
            places: IndexMap::new(alloc),
        }
    }

    /// Whether there is a channel of this CID.
    pub fn has(&self, cid: u32) -> bool
        ensures { result ≡ holds cid self.now.channels }
    {
        self.places.contains_key(&cid)
    }

    /// Adds a channel after the others: its first search is due at once. Refused as OutOfMemory,
    /// which changes nothing.
    pub fn add(&mut self, cid: u32, name: &ChannelName<'_>, now: u64) -> Result<(), Refusal>
        requires { holds cid self.old.channels ≡ false }
        ensures { Adds self.old cid name.now now result self.new }
    {
        let now = self.moment.max(now);
        let alloc = *self.places.allocator();
        let name = Vec::from_slice(alloc, name.bytes())?;
        self.places.insert(cid, Place::new(name, now))?;
        self.moment = now;
        Ok(())
    }

    /// The channel was found: it is not due until it is resumed. It keeps its place.
    pub fn pause(&mut self, cid: u32)
        ensures { self.new ≡ record self.old { channels = with_one paused cid self.old.channels } }
    {
        if let Some(place) = self.places.get_mut(&cid) {
            place.pause();
        }
    }

    /// The channel is searched again: its first search is due at once.
    pub fn resume(&mut self, cid: u32, now: u64)
        ensures { self.new
            ≡ record {
              moment = at self.old now;
              channels = with_one (resumed (at self.old now)) cid self.old.channels;
            } }
    {
        let now = self.moment.max(now);
        if let Some(place) = self.places.get_mut(&cid) {
            place.resume(now);
        }
        self.moment = now;
    }

    /// Takes the channel out. The others keep their order.
    pub fn remove(&mut self, cid: u32)
        ensures { self.new ≡ record self.old { channels = without cid self.old.channels } }
    {
        self.places.shift_remove(&cid);
    }

    /// The searches that are due, in the order in which their channels were added; they count as
    /// made now. Refused as OutOfMemory only if there is one, which changes nothing.
    pub fn due(&mut self, now: u64) -> Result<Vec<Search>, Refusal>
        ensures { Finds self.old now result self.new }
    {
        let now = self.moment.max(now);
        let alloc = *self.places.allocator();
        let found = due_in(alloc, &self.places, now)?;
        pass(&mut self.places, now);
        self.moment = now;
        Ok(found)
    }

    /// All that are not paused begin again: their first searches are due at once.
    pub fn boost(&mut self, now: u64)
        ensures { self.new
            ≡ record {
              moment = at self.old now;
              channels = with_all (boosted (at self.old now)) self.old.channels;
            } }
    {
        let now = self.moment.max(now);
        boost(&mut self.places, now);
        self.moment = now;
    }
}

/// The searches that are due at a moment, in order. Out of memory only if there is one.
pub fn due_in(
    alloc: Global,
    places: &IndexMap<u32, Place>,
    now: u64,
) -> Result<Vec<Search>, AllocError>
    ensures found { IfOk result (λ v. v.items ≡ wanted_at now places.now.entries) }
    ensures some { OnErr result (wanted_at now places.now.entries ≢ []) }
{
    let mut found = Vec::new(alloc);
    for index in 0..places.len() {
        let Some((cid, place)) = places.get_index(index) else {
            unreachable!()
        };
        if place.is_due(now) {
            found.push(place.search(alloc, *cid)?)?;
        }
    }
    Ok(found)
}

/// Counts the searches that are due as made now.
pub fn pass(places: &mut IndexMap<u32, Place>, now: u64)
    ensures { places.new.entries ≡ with_all (passed now) places.old.entries }
{
    for index in 0..places.len() {
        places[index].pass(now);
    }
}

/// All that are not paused begin again: their first searches are due at once.
pub fn boost(places: &mut IndexMap<u32, Place>, now: u64)
    ensures { places.new.entries ≡ with_all (boosted now) places.old.entries }
{
    for index in 0..places.len() {
        places[index].boost(now);
    }
}
