//! Searches packed into datagrams.
ghost use Rattle.std.specs.Prelude.{◌≡◌, ◌≢◌, [], IfOk, OnErr, OnOk, map};
ghost use Rattle.ca_dgram.specs.Search.{searched};
ghost use Rattle.ca_model.specs.ClientEnds.{packed};
ghost use Rattle.ca_client_tables.specs.Packing.{AddsSearch, PutsSearch};

use ca_dgram::search_into;
use ca_search::Search;
use ca_text::Refusal;
use std::alloc::{AllocError, Global};
use std::mem;

/// The datagrams of these searches, in order: each is in the last one, unless that has no room for
/// it. It takes memory only if there is a search.
pub fn packed(alloc: Global, searches: &[Search]) -> Result<Vec<Vec<u8>>, AllocError>
    ensures ok { IfOk result (λ v. map (λ d. d.items) v.items ≡ packed [] searches.now) }
    ensures some { OnErr result (searches.now ≢ []) }
{
    let mut full = Vec::new(alloc);
    let mut last = Vec::new(alloc);
    for index in 0..searches.len() {
        add(alloc, &searches[index], &mut full, &mut last)?;
    }
    if last.is_empty() {
        return Ok(full);
    }
    full.push(last)?;
    Ok(full)
}

// Puts a search into the last datagram, or into a new one if that has no room for it.
fn add(
    alloc: Global,
    search: &Search,
    full: &mut Vec<Vec<u8>>,
    last: &mut Vec<u8>,
) -> Result<(), AllocError>
    ensures { OnOk result (AddsSearch
        search.now
        (map (λ d. d.items) full.old.items)
        last.old.items
        (map (λ d. d.items) full.new.items)
        last.new.items) }
{
    if put(search, last)? {
        return Ok(());
    }
    let next = first(alloc, search)?;
    full.push(mem::replace(last, next))?;
    Ok(())
}

// Puts a search into a datagram, if that has room for it.
fn put(search: &Search, datagram: &mut Vec<u8>) -> Result<bool, AllocError>
    ensures { PutsSearch search.now datagram.old.items result datagram.new.items }
{
    match search_into(search.cid(), &search.name(), datagram) {
        Ok(()) => Ok(true),
        Err(Refusal::DatagramTooLong) => Ok(false),
        Err(_) => Err(AllocError),
    }
}

// The datagram of this search alone, which has room for it.
fn first(alloc: Global, search: &Search) -> Result<Vec<u8>, AllocError>
    ensures { IfOk result (λ d. d.items ≡ searched [] search.now.cid search.now.name) }
{
    let mut datagram = Vec::new(alloc);
    match search_into(search.cid(), &search.name(), &mut datagram) {
        Ok(()) => Ok(datagram),
        Err(_) => Err(AllocError),
    }
}
