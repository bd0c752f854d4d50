//! Index of a circuit's subscriptions by the name of their record, so that a post finds those that
//! it concerns.
ghost use Rattle.std.specs.Prelude.{ℕ, ◌≡◌, List, [], None, IfSome, OnErr, OnOk};
ghost use Rattle.ca_text.specs.Place.{At};
ghost use Rattle.ca_queue.specs.declared.entry.SubKey.{SubKey};
ghost use Rattle.ca_server_subscriptions.specs.ByRecord.{Adds, Drops, IsInLine, line_of};
ghost use Rattle.ca_server_subscriptions.specs.ByRecord.{receivers_in};
ghost use Rattle.ca_server_subscriptions.specs.Subscribed.{keys_in};

use crate::queued_subscription::QueuedSubscription;
use crate::receiver::Receiver;
use crate::record_subscriptions::RecordSubscriptions;
use ca_queue::SubKey;
use ca_text::is_same_name;
use indexmap::IndexMap;
use std::alloc::{AllocError, Global};
use std::marker::Model;

/// The subscriptions of an end by the names of their records, as far as a post needs them.
#[derive(Drop)]
pub(crate) struct ByRecord {
    lines: IndexMap<Vec<u8>, RecordSubscriptions>,
}

impl Model for ByRecord {
    ghost use Rattle.ca_server_subscriptions.specs.ByRecord.{Lines};

    ghost Value = { Lines };

    ghost use Rattle.ca_server_subscriptions.specs.ByRecord.{lines_in};

    ghost view = { λ r. lines_in (λ k. k.items) r.lines.entries };
}

impl ByRecord {
    // None. It does not allocate yet.
    pub(crate) fn new(alloc: Global) -> ByRecord
        ensures { result ≡ [] }
    {
        ByRecord {
            lines: IndexMap::new(alloc),
        }
    }

    // Those on the record of this name. The line where one was found last is looked at first.
    #[inline(always)]
    pub(crate) fn receivers(&self, recent: &mut usize, name: &[u8]) -> &[Receiver]
        ensures { result.now ≡ receivers_in self.now name.now }
    {
        match self.recent_line(*recent, name) {
            Some(line) => line.as_slice(),
            None => self.hashed(recent, name),
        }
    }

    // The line here, if it is of this name.
    #[inline(always)]
    fn recent_line(&self, recent: usize, name: &[u8]) -> Option<&RecordSubscriptions>
        ensures { IfSome result (λ l. l.now ≡ receivers_in self.now name.now) }
    {
        let Some((key, line)) = self.lines.get_index(recent) else {
            return None;
        };
        if is_same_name(key.as_slice(), name) {
            return Some(line);
        }
        None
    }

    // Those on the record of this name, found by the hash of the name.
    #[inline(never)]
    fn hashed(&self, recent: &mut usize, name: &[u8]) -> &[Receiver]
        ensures { result.now ≡ receivers_in self.now name.now }
    {
        match self.lines.get_full(name) {
            Some((place, _, line)) => {
                *recent = place;
                line.as_slice()
            }
            None => &[],
        }
    }

    // The first one of the line here was found at this place of all of the end.
    #[inline(always)]
    pub(crate) fn note(&mut self, recent: usize, place: usize)
        ensures { self.new ≡ self.old }
    {
        let Some(line) = self.lines.get_index_mut(recent) else {
            return;
        };
        line.note(place);
    }

    // One more is on the record of this name, after all others. Without memory all is as it was.
    pub(crate) fn add(&mut self, name: &[u8], receiver: Receiver) -> Result<(), AllocError>
        ensures ok { OnOk result (Adds name.now receiver self.old self.new) }
        ensures err { OnErr result (self.new ≡ self.old) }
    {
        if let Some(line) = self.lines.get_mut(name) {
            line.add(receiver)?;
            return Ok(());
        }
        self.begin(name, receiver)
    }

    // One more is on the record of this name, which has no line yet. Without
    // memory all is as it was.
    fn begin(&mut self, name: &[u8], receiver: Receiver) -> Result<(), AllocError>
        requires { receivers_in self.old name.now ≡ [] }
        ensures ok { OnOk result (Adds name.now receiver self.old self.new) }
        ensures err { OnErr result (self.new ≡ self.old) }
    {
        let alloc = *self.lines.allocator();
        let line = RecordSubscriptions::one(alloc, receiver)?;
        let name = Vec::from_slice(alloc, name)?;
        self.lines.insert(name, line)?;
        Ok(())
    }

    // The subscription at this place of all of the end, on the record of this name, is gone. A line
    // that has none left goes, so that names which come and go fill no memory.
    pub(crate) fn take_out(
        &mut self,
        name: &[u8],
        standing: &IndexMap<SubKey, QueuedSubscription>,
        place: usize,
    )
        requires { IsInLine standing.now.entries place (receivers_in self.old name.now) }
        ensures goes { (key : SubKey) → At (keys_in standing.now.entries) place key
            → Drops name.now key self.old self.new }
        ensures gone { receivers_in self.new name.now ≡ [] → line_of self.new name.now ≡ None }
    {
        self.shorten(name, standing, place);
        self.drop_if_empty(name);
    }

    // The subscription at this place is gone from its record. The line may be left with none.
    fn shorten(
        &mut self,
        name: &[u8],
        standing: &IndexMap<SubKey, QueuedSubscription>,
        place: usize,
    )
        requires { IsInLine standing.now.entries place (receivers_in self.old name.now) }
        ensures { (key : SubKey) → At (keys_in standing.now.entries) place key
            → Drops name.now key self.old self.new }
    {
        let Some(line) = self.lines.get_mut(name) else {
            return;
        };
        line.take_out(standing, place);
    }

    // Without the line of this name if it has none.
    fn drop_if_empty(&mut self, name: &[u8])
        ensures stay { (other : List ℕ) →
            receivers_in self.new other ≡ receivers_in self.old other }
        ensures gone { receivers_in self.old name.now ≡ [] → line_of self.new name.now ≡ None }
    {
        let Some(line) = self.lines.get(name) else {
            return;
        };
        if line.is_empty() {
            self.drop_line(name);
        }
    }

    // Without the line of this name, which has none.
    fn drop_line(&mut self, name: &[u8])
        requires { receivers_in self.old name.now ≡ [] }
        ensures stay { (other : List ℕ) →
            receivers_in self.new other ≡ receivers_in self.old other }
        ensures gone { line_of self.new name.now ≡ None }
    {
        self.lines.swap_remove(name);
    }
}
