//! A searcher: a channel that was found is not searched, and keeps its place for when it is lost.
use ca_search::{Search, Searcher};
use ca_text::{ChannelName, Refusal};
use std::alloc::Global;
use std::test::Fail;

/// A searcher for channels of these CIDs.
fn searcher_of(alloc: Global, cids: &[u32]) -> Result<Searcher, Refusal> {
    let name = ChannelName::read(b"TEMP")?;
    let mut searcher = Searcher::new(alloc);
    for cid in cids {
        if !searcher.has(*cid) {
            searcher.add(*cid, &name, 0)?;
        }
    }
    Ok(searcher)
}

/// Whether the searches are for the channels of these CIDs.
fn are(searches: &[Search], cids: &[u32]) -> bool {
    searches.len() == cids.len()
        && searches.iter().zip(cids).all(|(search, cid)| search.cid() == *cid
            && search.name().bytes() == b"TEMP".as_slice())
}

/// Whether the searches that are due at this moment are for these.
fn due(searcher: &mut Searcher, now: u64, cids: &[u32]) -> Result<bool, Refusal> {
    Ok(are(&searcher.due(now)?, cids))
}

/// A channel whose search is paused is left out.
fn pauses(searcher: &mut Searcher) -> Result<bool, Refusal> {
    let all = due(searcher, 0, &[3, 1, 2])?;
    searcher.pause(1);
    let others = due(searcher, 1_000_000, &[3, 2])?;
    searcher.boost(1_000_000);
    let again = due(searcher, 1_000_000, &[3, 2])?;
    Ok(all && others && again)
}

/// It is searched for again at its place.
fn resumes(searcher: &mut Searcher) -> Result<bool, Refusal> {
    searcher.resume(1, 1_000_001);
    let alone = due(searcher, 1_000_001, &[1])?;
    let all = due(searcher, 1_000_033, &[3, 1, 2])?;
    Ok(alone && all)
}

/// An earlier moment counts as the last one.
fn removes(searcher: &mut Searcher) -> Result<bool, Refusal> {
    searcher.remove(3);
    searcher.boost(1_000_033);
    due(searcher, 0, &[1, 2])
}

// No core has a Searcher: a client's keeps the places itself.
#[test]
fn found_channels_keep_their_places(rt: HostRuntime) -> Result<(), Fail> {
    let mut searcher = searcher_of(rt.alloc(), &[3, 1, 2])?;
    assert!(rt; pauses(&mut searcher)?);
    assert!(rt; resumes(&mut searcher)?);
    assert!(rt; removes(&mut searcher)?);
    Ok(())
}
