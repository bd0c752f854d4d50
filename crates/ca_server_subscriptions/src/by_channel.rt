//! Index of a circuit's subscriptions by the SID of their channel, for CLEAR_CHANNEL.
ghost use Rattle.std.specs.Prelude.{◌≡◌, ◌-◌, [], None, OnErr, OnOk, length, slice_get};
ghost use Rattle.ca_text.specs.Place.{At};
ghost use Rattle.ca_queue.specs.Keys.{AreApart};
ghost use Rattle.ca_server_subscriptions.specs.ByChannel.{AreByChannel, Ids, ids_in, ids_of};
ghost use Rattle.ca_server_subscriptions.specs.ByChannel.{line_of, with_id, without_id};
ghost use Rattle.ca_server_subscriptions.specs.Subscribed.{keys_in};

use crate::order::is_before;
use crate::queued_subscription::QueuedSubscription;
use ca_queue::SubKey;
use indexmap::IndexMap;
use std::alloc::{AllocError, Global};
use std::marker::Model;

/// The ids of the subscriptions of an end, by the SIDs of their channels.
#[derive(Drop)]
pub(crate) struct ByChannel {
    // Those of one channel are in the order of their EVENT_ADDs.
    lines: IndexMap<u32, Vec<u32>>,
}

impl Model for ByChannel {
    ghost use Rattle.ca_server_subscriptions.specs.ByChannel.{IdLines};

    ghost Value = { IdLines };

    ghost use Rattle.ca_server_subscriptions.specs.ByChannel.{id_lines};

    ghost view = { λ c. id_lines (λ line. line.items) c.lines.entries };
}

impl ByChannel {
    // None. It does not allocate yet.
    pub(crate) fn new(alloc: Global) -> ByChannel
        ensures { result ≡ [] }
    {
        ByChannel {
            lines: IndexMap::new(alloc),
        }
    }

    // The last one of the channel of this SID, if it has one.
    pub(crate) fn last(&self, sid: u32) -> Option<u32>
        ensures { result ≡ slice_get (ids_in self.now sid) (length (ids_in self.now sid) - 1) }
    {
        match self.lines.get(&sid) {
            Some(line) => line.as_slice().last().copied(),
            None => None,
        }
    }

    // One more of its channel, after all others. Without memory all is as it was.
    pub(crate) fn add(&mut self, key: SubKey) -> Result<(), AllocError>
        ensures ok { OnOk result (ids_in self.new ≡ with_id key (ids_in self.old)) }
        ensures err { OnErr result (ids_in self.new ≡ ids_in self.old) }
    {
        if let Some(line) = self.lines.get_mut(&key.sid) {
            line.push(key.sub)?;
            return Ok(());
        }
        self.begin(key)
    }

    // One more of its channel, which has no line yet. Without memory all is as it was.
    fn begin(&mut self, key: SubKey) -> Result<(), AllocError>
        requires { ids_in self.old key.sid ≡ [] }
        ensures ok { OnOk result (ids_in self.new ≡ with_id key (ids_in self.old)) }
        ensures err { OnErr result (ids_in self.new ≡ ids_in self.old) }
    {
        let mut line = Vec::new(*self.lines.allocator());
        line.push(key.sub)?;
        self.lines.insert(key.sid, line)?;
        Ok(())
    }

    // The last one of its channel, which `add` put there, is gone again. A line that has none left
    // goes, as in `take_out`.
    pub(crate) fn take_back(&mut self, key: SubKey)
        ensures back { (ids : Ids) → ids_in self.old ≡ with_id key ids → ids_in self.new ≡ ids }
        ensures gone { ids_in self.new key.sid ≡ [] → line_of self.new key.sid ≡ None }
    {
        self.pop(key);
        self.drop_if_empty(key.sid);
    }

    // The last one of its channel is gone again. The line may be left with none.
    fn pop(&mut self, key: SubKey)
        ensures { (ids : Ids) → ids_in self.old ≡ with_id key ids → ids_in self.new ≡ ids }
    {
        let Some(line) = self.lines.get_mut(&key.sid) else {
            return;
        };
        line.pop();
    }

    // This one, which is at this place of all of the end, is gone. A line that has none left goes,
    // so that SIDs which come and go fill no memory.
    pub(crate) fn take_out(
        &mut self,
        standing: &IndexMap<SubKey, QueuedSubscription>,
        place: usize,
        key: SubKey,
    )
        requires here { At (keys_in standing.now.entries) place key }
        requires apart { AreApart (keys_in standing.now.entries) }
        requires lines { AreByChannel self.old standing.now.entries }
        ensures goes { ids_in self.new ≡ without_id key (ids_in self.old) }
        ensures gone { ids_in self.new key.sid ≡ [] → line_of self.new key.sid ≡ None }
    {
        self.shorten(standing, place, key);
        self.drop_if_empty(key.sid);
    }

    // This one, which is at this place of all of the end, is gone. The line may be left with none.
    fn shorten(
        &mut self,
        standing: &IndexMap<SubKey, QueuedSubscription>,
        place: usize,
        key: SubKey,
    )
        requires here { At (keys_in standing.now.entries) place key }
        requires apart { AreApart (keys_in standing.now.entries) }
        requires lines { AreByChannel self.old standing.now.entries }
        ensures { ids_in self.new ≡ without_id key (ids_in self.old) }
    {
        let Some(line) = self.lines.get_mut(&key.sid) else {
            return;
        };
        let found = place_in_channel(line.as_slice(), standing, place, key);
        line.remove(found);
    }

    // Without the line of this SID if it has none.
    fn drop_if_empty(&mut self, sid: u32)
        ensures stay { ids_in self.new ≡ ids_in self.old }
        ensures gone { ids_in self.old sid ≡ [] → line_of self.new sid ≡ None }
    {
        let Some(line) = self.lines.get(&sid) else {
            return;
        };
        if line.is_empty() {
            self.drop_line(sid);
        }
    }

    // Without the line of this SID, which has none.
    fn drop_line(&mut self, sid: u32)
        requires { ids_in self.old sid ≡ [] }
        ensures stay { ids_in self.new ≡ ids_in self.old }
        ensures gone { line_of self.new sid ≡ None }
    {
        self.lines.swap_remove(&sid);
    }
}

// Where the one at this place of all of the end is in the line of its channel. Both lists are in
// the order of EVENT_ADDs, so that those which are before it in the one come first in the other.
fn place_in_channel(
    line: &[u32],
    standing: &IndexMap<SubKey, QueuedSubscription>,
    place: usize,
    key: SubKey,
) -> usize
    requires here { At (keys_in standing.now.entries) place key }
    requires apart { AreApart (keys_in standing.now.entries) }
    requires line { line.now ≡ ids_of (keys_in standing.now.entries) key.sid }
    ensures { At line.now result key.sub }
{
    let sid = key.sid;
    line.partition_point(|sub| is_before(standing, place, SubKey { sid, sub: *sub }))
}
