//! The circuits that watch each record, looked up by the record's name. Begin at `watch` and
//! `last`. The record that was looked up last is found again without a hash of its name.
ghost use Rattle.std.specs.Prelude.{◌≡◌, ◌-◌, ◌↔◌, true, IfSome, OnErr, OnOk, [], length};
ghost use Rattle.std.specs.Prelude.{option_copied, slice_get, unwrap_or};
ghost use Rattle.ca_server_watchers.specs.Watching.{AreApart, Clears, LeavesAt, Watches, watching};

use crate::record_watchers::RecordWatchers;
use ca_arena::Handle;
use ca_text::is_same_name;
use indexmap::IndexMap;
use std::alloc::{AllocError, Global};
use std::marker::Model;

/// For each record that is watched, the circuits that watch it. A server has one for its
/// subscriptions, and one for its channels.
#[derive(Drop)]
pub struct Watchers {
    lines: IndexMap<Vec<u8>, RecordWatchers>,
    // Where a line was found last: mostly the same is asked for again. The name decides.
    recent: usize,
}

impl Model for Watchers {
    ghost use Rattle.ca_server_watchers.specs.Watching.{Watched};

    ghost Value = { Watched };

    ghost use Rattle.ca_server_watchers.specs.Watching.{lines_in};

    ghost view = { λ w. lines_in (λ k. k.items) w.lines.entries };
}

impl Watchers {
    /// None. It does not allocate yet.
    pub fn new(alloc: Global) -> Watchers
        ensures { result ≡ [] }
    {
        Watchers {
            lines: IndexMap::new(alloc),
            recent: 0,
        }
    }

    /// Whether no record has a line: then nobody watches any.
    pub fn is_empty(&self) -> bool
        ensures { (result ≡ true) ↔ (self.now ≡ []) }
    {
        self.lines.is_empty()
    }

    /// How many circuits watch the record of this name.
    pub fn count(&mut self, name: &[u8]) -> usize
        ensures count { result ≡ length (watching self.old name.now) }
        ensures apart { AreApart (watching self.old name.now) }
        ensures stays { self.new ≡ self.old }
    {
        // Then no name need be hashed.
        if self.lines.is_empty() {
            return 0;
        }
        match self.lines.get_full(name) {
            Some((place, _, line)) => {
                let count = line.len();
                self.recent = place;
                count
            }
            None => 0,
        }
    }

    /// The last of the circuits that watch the record of this name, and how many come before it.
    #[inline(always)]
    pub fn last(&mut self, name: &[u8], before: &mut usize) -> Option<Handle>
        ensures last { result ≡ slice_get (watching self.old name.now) before.new }
        ensures before { before.new ≡ length (watching self.old name.now) - 1 }
        ensures apart { AreApart (watching self.old name.now) }
        ensures stays { self.new ≡ self.old }
    {
        match self.recent_line(name) {
            Some(line) => line.last(before),
            None => self.hashed_last(name, before),
        }
    }

    // The last of the circuits that watch the record of this name, found by the hash of the name.
    #[inline(never)]
    fn hashed_last(&mut self, name: &[u8], before: &mut usize) -> Option<Handle>
        ensures last { result ≡ slice_get (watching self.old name.now) before.new }
        ensures before { before.new ≡ length (watching self.old name.now) - 1 }
        ensures apart { AreApart (watching self.old name.now) }
        ensures stays { self.new ≡ self.old }
    {
        // Then no name need be hashed.
        if self.lines.is_empty() {
            *before = 0;
            return None;
        }
        match self.lines.get_full(name) {
            Some((place, _, line)) => {
                let last = line.last(before);
                self.recent = place;
                last
            }
            None => {
                *before = 0;
                None
            }
        }
    }

    // The line of this name, if it was found last.
    #[inline(always)]
    fn recent_line(&self, name: &[u8]) -> Option<&RecordWatchers>
        ensures { IfSome result (λ l. l.now ≡ watching self.now name.now) }
    {
        let Some((key, line)) = self.lines.get_index(self.recent) else {
            return None;
        };
        if is_same_name(key.as_slice(), name) {
            return Some(line);
        }
        None
    }

    /// The circuits that watch the record of this name. None if it has no list: then nobody does.
    pub fn line(&self, name: &[u8]) -> Option<&RecordWatchers>
        ensures { unwrap_or (option_copied result) [] ≡ watching self.now name.now }
    {
        match self.recent_line(name) {
            Some(line) => Some(line),
            None => self.lines.get(name),
        }
    }

    /// The one at this place among them.
    pub fn at(&self, name: &[u8], place: usize) -> Option<Handle>
        ensures { result ≡ slice_get (watching self.now name.now) place }
    {
        match self.line(name) {
            Some(line) => line.at(place),
            None => None,
        }
    }

    /// This circuit watches the record of this name from now on. Without memory all is as it was.
    pub fn watch(&mut self, name: &[u8], circuit: Handle) -> Result<(), AllocError>
        ensures ok { OnOk result (Watches name.now circuit self.old self.new) }
        ensures err { OnErr result (self.new ≡ self.old) }
    {
        if let Some(line) = self.lines.get_mut(name) {
            line.add(circuit)?;
            return Ok(());
        }
        self.begin(name, circuit)
    }

    // This circuit watches the record of this name, which has no line yet. Without
    // memory all is as it was.
    fn begin(&mut self, name: &[u8], circuit: Handle) -> Result<(), AllocError>
        requires { watching self.old name.now ≡ [] }
        ensures ok { OnOk result (Watches name.now circuit self.old self.new) }
        ensures err { OnErr result (self.new ≡ self.old) }
    {
        let alloc = *self.lines.allocator();
        let mut line = RecordWatchers::new(alloc);
        line.add(circuit)?;
        let name = Vec::from_slice(alloc, name)?;
        self.lines.insert(name, line)?;
        Ok(())
    }

    /// The circuit at this place of the list of this record no longer watches it. The last of
    /// the list comes there.
    pub fn forget(&mut self, name: &[u8], place: usize)
        ensures { LeavesAt name.now place self.old self.new }
    {
        if let Some(line) = self.lines.get_mut(name) {
            line.take_out(place);
        }
    }

    /// Nobody watches the record of this name, and nothing is kept of those that did.
    pub fn forget_all(&mut self, name: &[u8])
        ensures { Clears name.now self.old self.new }
    {
        self.lines.swap_remove(name);
    }
}
