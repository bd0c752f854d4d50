//! The searches that are due once circuits have ended.
ghost use Rattle.std.specs.Prelude.{◌≡◌, ◌≢◌, [], IfOk, OnErr};
ghost use Rattle.ca_client_tables.specs.Ahead.{due_after, is_due_after, is_in, sought_by};
ghost use Rattle.ca_client_tables.specs.Ahead.{sought_in};

use crate::channel::{Channel, Standing, is_same};
use crate::channels::Channels;
use crate::searches::Searches;
use ca_arena::Handle;
use ca_ids::WireId;
use ca_search::{Place, Search};
use indexmap::IndexMap;
use std::alloc::{AllocError, Global};

impl Searches {
    /// The searches that are due once these circuits have ended, in order. It takes memory only if
    /// there is one.
    pub fn due_after(
        &self,
        alloc: Global,
        channels: &Channels,
        ends: &[Handle],
        moment: u64,
    ) -> Result<Vec<Search>, AllocError>
        ensures found { IfOk result (λ v. v.items
            ≡ due_after (is_in ends.now) moment channels.now self.now.entries) }
        ensures some { OnErr result (due_after
            (is_in ends.now)
            moment
            channels.now
            self.now.entries ≢ []) }
    {
        find_after(alloc, channels, &self.places, ends, moment)
    }
}

// As `due_after`, of these searches.
fn find_after(
    alloc: Global,
    channels: &Channels,
    searches: &IndexMap<u32, Place>,
    ends: &[Handle],
    moment: u64,
) -> Result<Vec<Search>, AllocError>
    ensures found { IfOk result (λ v. v.items
        ≡ due_after (is_in ends.now) moment channels.now searches.now.entries) }
    ensures some { OnErr result (due_after
        (is_in ends.now)
        moment
        channels.now
        searches.now.entries ≢ []) }
{
    let mut found = Vec::new(alloc);
    for index in 0..searches.len() {
        let Some((cid, place)) = searches.get_index(index) else {
            unreachable!()
        };
        if is_due_after(channels, ends, moment, *cid, place) {
            found.push(place.search(alloc, *cid)?)?;
        }
    }
    Ok(found)
}

// Whether the search for this CID is due once these circuits have ended.
fn is_due_after(channels: &Channels, ends: &[Handle], moment: u64, cid: u32, place: &Place) -> bool
    ensures { result ≡ is_due_after (is_in ends.now) moment channels.now (cid, place.now) }
{
    match is_sought(channels, ends, cid) {
        Some(sought) => sought,
        None => place.is_due(moment),
    }
}

// Whether the channel of a CID is searched for once these circuits have ended, if
// it is on one of them.
fn is_sought(channels: &Channels, ends: &[Handle], cid: u32) -> Option<bool>
    ensures { result ≡ sought_by (is_in ends.now) channels.now cid }
{
    match channels.by_wire(WireId::new(cid)) {
        Some((_, channel)) => channel.is_sought(ends),
        None => None,
    }
}

impl Channel {
    // Whether it is searched for once these circuits have ended, if it is on one of
    // them: it was not cleared.
    fn is_sought(&self, ends: &[Handle]) -> Option<bool>
        ensures { result ≡ sought_in (is_in ends.now) self.now.standing }
    {
        match self.standing() {
            Standing::Searching => None,
            Standing::On(circuit, phase) => {
                if has(ends, circuit) {
                    Some(!phase.is_cleared())
                } else {
                    None
                }
            }
        }
    }
}

// Whether a circuit is one of these.
fn has(circuits: &[Handle], circuit: Handle) -> bool
    ensures { result ≡ is_in circuits.now circuit }
{
    circuits.iter().any(|other| is_same(circuit, *other))
}
