//! One channel of a client's searches: its name, and its clock while it is not found.
ghost use Rattle.std.specs.Prelude.{◌≡◌, IfOk, Some};
ghost use Rattle.ca_text.specs.Limits.{channel_name_limit};
ghost use Rattle.ca_text.specs.Name.{IsName};
ghost use Rattle.ca_search.specs.Clock.{fresh};
ghost use Rattle.ca_search.specs.Searches.{boosted, is_due, passed, paused, resumed, wanted};

use crate::clock::SearchClock;
use crate::search::Search;
use std::alloc::{AllocError, Global};
use std::marker::Model;

/// A channel's name, and its clock, which a paused one does not have.
#[derive(Debug, Drop)]
pub struct Place {
    name: Vec<u8>,
    clock: Option<SearchClock>,
}

impl Model for Place {
    ghost use Rattle.ca_text.specs.Limits.{channel_name_limit};
    ghost use Rattle.ca_text.specs.Name.{IsName};
    ghost use Rattle.ca_search.specs.Searches.{Channel};

    ghost Value = { Channel };

    ghost view = { λ p. record { name = p.name.items; clock = p.clock } };

    ghost invariant = { λ p. IsName channel_name_limit p.name.items };
}

impl Place {
    /// Of a channel that is searched from now on.
    pub fn new(name: Vec<u8>, now: u64) -> Place
        requires { IsName channel_name_limit name.items }
        ensures { result ≡ record { name = name.items; clock = Some (fresh now) } }
    {
        Place {
            name,
            clock: Some(SearchClock::new(now)),
        }
    }

    /// Whether a search is due.
    pub fn is_due(&self, now: u64) -> bool
        ensures { result ≡ is_due now self.now }
    {
        match &self.clock {
            None => false,
            Some(clock) => clock.is_due(now),
        }
    }

    /// The search for this channel.
    pub fn search(&self, alloc: Global, cid: u32) -> Result<Search, AllocError>
        ensures { IfOk result (λ s. s ≡ wanted (cid, self.now)) }
    {
        let name = Vec::from_slice(alloc, &self.name)?;
        Ok(Search::new(cid, name))
    }

    /// The channel was found.
    pub fn pause(&mut self)
        ensures { self.new ≡ paused self.old }
    {
        self.clock = None;
    }

    /// The channel is searched again.
    pub fn resume(&mut self, now: u64)
        ensures { self.new ≡ resumed now self.old }
    {
        self.clock = Some(SearchClock::new(now));
    }

    /// Begins again, unless the channel is paused.
    pub fn boost(&mut self, now: u64)
        ensures { self.new ≡ boosted now self.old }
    {
        if self.clock.is_some() {
            self.clock = Some(SearchClock::new(now));
        }
    }

    /// Counts the search that is made now, if one is due.
    pub fn pass(&mut self, now: u64)
        ensures { self.new ≡ passed now self.old }
    {
        if let Some(clock) = &mut self.clock {
            if clock.is_due(now) {
                clock.search(now);
            }
        }
    }
}
