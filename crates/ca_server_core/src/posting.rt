//! A record has a new value from outside: it reaches the subscriptions on the record, on all
//! circuits.
ghost use Rattle.std.specs.Prelude.{◌≡◌, Bool, false, option_map};
ghost use Rattle.std.specs.Arc.{arc_value};
ghost use Rattle.ca_arena.specs.declared.handle.Handle.{Handle};
ghost use Rattle.ca_dbr.specs.Elements.{elements};
ghost use Rattle.ca_dbr.specs.Held.{displayed_by};
ghost use Rattle.ca_ids.specs.Table.{under};
ghost use Rattle.ca_dbr.specs.Data.{data_of};
ghost use Rattle.ca_model.specs.ServerCalls.{Posts, SetsDisplay};
ghost use Rattle.ca_records.specs.Store.{IsThere, display_at, records_of};
ghost use Rattle.ca_server_circuit.specs.Posting.{IsCopyAt};
ghost use Rattle.ca_server_core.specs.Covering.{AreListed, Covers};
ghost use Rattle.ca_server_core.specs.Reaching.{IsListed, PostsIn, ReachesFrom, ReachesNext};
ghost use Rattle.ca_server_core.specs.Reaching.{WatchesIn};
ghost use Rattle.ca_server_core.specs.Sound.{IsSound};

use crate::server::ServerCore;
use ca_arena::Handle;
use ca_dbr::{Display, Meta, Value};
use ca_ids::HeldTable;
use ca_records::ServedRecords;
use ca_server_circuit::Circuit;
use ca_server_subscriptions::{SHARED_COUNT, SharedUpdate};
use ca_server_watchers::Watchers;
use ca_text::Refusal;
use std::sync::Arc;

// A change of display data concerns subscriptions with this bit.
const PROPERTY_MASK: u16 = 8;

impl ServerCore {
    /// The record of this name has this value from now on, with its alarm and its time stamp;
    /// display data stay. It reaches all subscriptions on the record whose mask shares a bit with
    /// this one, on all circuits. A circuit's end without memory for an update has ended.
    ///
    /// Refused as UnknownRecord if no record has the name, as BadType if the value is not of
    /// its type, and as BadCount if it has no element or more than the greatest count. A
    /// refusal changes nothing.
    pub fn post(&mut self, name: &[u8], value: Value, meta: Meta, mask: u16) -> Result<(), Refusal>
        ensures { (gone : Handle → Bool) × Posts self.old name.now (record {
          value = displayed_by (display_at self.old.records name.now) (elements value);
          meta = meta;
        }) mask gone result self.new }
    {
        let place = self.records.post(name, value, meta)?;
        post_to_all(
            &mut self.circuits,
            &mut self.records,
            &mut self.watchers,
            place,
            mask,
        );
        Ok(())
    }

    /// The record of this name is shown by these display data from now on, and so is what waits for
    /// it. Its value, alarm and time stamp stay. They reach all subscriptions on the record whose
    /// mask has the bit PROPERTY, on all circuits. A circuit's end without memory for an update has
    /// ended.
    ///
    /// Refused as UnknownRecord if no record has the name. A refusal changes nothing.
    pub fn set_display(&mut self, name: &[u8], display: Arc<Display>) -> Result<(), Refusal>
        ensures { (gone : Handle → Bool)
            × SetsDisplay self.old name.now (data_of (arc_value display)) gone result self.new }
    {
        let place = self.records.set_display(name, display)?;
        post_to_all(
            &mut self.circuits,
            &mut self.records,
            &mut self.watchers,
            place,
            PROPERTY_MASK,
        );
        Ok(())
    }
}

/// The value of the record at this place reaches all subscriptions on it whose mask shares a bit
/// with this one, on all circuits. An end without memory for an update has ended. The circuits in
/// the record's list are visited, and no other. A list may have some that no longer watch the
/// record: these are taken out, and get nothing. It says whether there may be any.
#[inline(always)]
pub(crate) fn post_to_all(
    circuits: &mut HeldTable<Circuit>,
    records: &mut ServedRecords,
    watchers: &mut Watchers,
    place: usize,
    mask: u16,
) -> bool
    requires there { IsThere records.old place }
    requires sound { IsSound (records_of records.old) circuits.old }
    requires covered { Covers watchers.old circuits.old }
    requires listed { AreListed (records_of records.old) watchers.old }
    ensures reaches { ReachesFrom place mask circuits.old records.old circuits.new records.new }
    ensures sound { IsSound (records_of records.new) circuits.new }
    ensures covered { Covers watchers.new circuits.new }
    ensures listed { AreListed (records_of records.new) watchers.new }
    ensures none { result ≡ false → circuits.new ≡ circuits.old }
{
    // If nobody watches any record, a write pays for no more than this test.
    if watchers.is_empty() {
        return false;
    }
    post_to_watching(circuits, records, watchers, place, mask);
    true
}

/// A post to the record at this place reaches each circuit of the record's list.
#[inline(never)]
fn post_to_watching(
    circuits: &mut HeldTable<Circuit>,
    records: &mut ServedRecords,
    watchers: &mut Watchers,
    place: usize,
    mask: u16,
)
    requires there { IsThere records.old place }
    requires sound { IsSound (records_of records.old) circuits.old }
    requires covered { Covers watchers.old circuits.old }
    requires listed { AreListed (records_of records.old) watchers.old }
    ensures reaches { ReachesFrom place mask circuits.old records.old circuits.new records.new }
    ensures sound { IsSound (records_of records.new) circuits.new }
    ensures covered { Covers watchers.new circuits.new }
    ensures listed { AreListed (records_of records.new) watchers.new }
{
    let mut before = 0;
    let Some(circuit) = watchers.last(records.at(place).state().name(), &mut before) else {
        return;
    };
    let shared = share_on(circuits, records, circuit, place, before);
    post_to_this(
        circuits, records, watchers, place, mask, &shared, before, circuit,
    );
    // The last circuit is mostly the only one.
    let mut left = before;
    'posting: while left > 0 {
        left -= 1;
        post_to_one(circuits, records, watchers, place, mask, &shared, left);
    }
}

/// A copy of the value of the record at this place that this circuit and so many others share, with
/// the update that this one asks for: none if the value is small, or there are no others.
fn share_on(
    circuits: &HeldTable<Circuit>,
    records: &ServedRecords,
    circuit: Handle,
    place: usize,
    others: usize,
) -> Option<Arc<SharedUpdate>>
    requires { IsThere records.now place }
    ensures { IsCopyAt place records.now (option_map arc_value result) }
{
    let record = records.at(place).state();
    if others == 0 || record.held().value().count() < SHARED_COUNT {
        return None;
    }
    let found = circuits.by_handle(circuit)?;
    found.share(record)
}

/// A post reaches the circuit at this place of the list of those that watch the record.
#[inline(never)]
fn post_to_one(
    circuits: &mut HeldTable<Circuit>,
    records: &mut ServedRecords,
    watchers: &mut Watchers,
    place: usize,
    mask: u16,
    shared: &Option<Arc<SharedUpdate>>,
    watcher: usize,
)
    requires copy { IsCopyAt place records.old (option_map arc_value shared.now) }
    requires sound { IsSound (records_of records.old) circuits.old }
    ensures { ReachesNext place mask watcher watchers.old circuits.old records.old watchers.new
        circuits.new records.new }
{
    let Some(circuit) = watchers.at(records.at(place).state().name(), watcher) else {
        return;
    };
    post_to_this(
        circuits, records, watchers, place, mask, shared, watcher, circuit,
    );
}

/// A post reaches this circuit, which is at this place of the list. It is taken out if it no
/// longer watches the record.
#[inline(always)]
fn post_to_this(
    circuits: &mut HeldTable<Circuit>,
    records: &mut ServedRecords,
    watchers: &mut Watchers,
    place: usize,
    mask: u16,
    shared: &Option<Arc<SharedUpdate>>,
    watcher: usize,
    circuit: Handle,
)
    requires listed { IsListed place watcher circuit watchers.old records.old }
    requires copy { IsCopyAt place records.old (option_map arc_value shared.now) }
    requires sound { IsSound (records_of records.old) circuits.old }
    ensures { ReachesNext place mask watcher watchers.old circuits.old records.old watchers.new
        circuits.new records.new }
{
    if post_on(circuits, records, circuit, place, mask, shared) {
        return;
    }
    watchers.forget(records.at(place).state().name(), watcher);
}

/// A post reaches this circuit. It says whether the circuit has a subscription on the record.
#[inline(always)]
fn post_on(
    circuits: &mut HeldTable<Circuit>,
    records: &mut ServedRecords,
    circuit: Handle,
    place: usize,
    mask: u16,
    shared: &Option<Arc<SharedUpdate>>,
) -> bool
    requires copy { IsCopyAt place records.old (option_map arc_value shared.now) }
    requires sound { IsSound (records_of records.old) circuits.old }
    ensures posts { PostsIn circuits.old circuit place mask records.old circuits.new records.new }
    ensures watches { WatchesIn circuits.old circuit place records.old result }
{
    let Some(found) = circuits.by_handle_mut(circuit) else {
        return false;
    };
    found.post(circuit, place, mask, shared, records)
}
