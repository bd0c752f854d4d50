//! The channels of a client, and which of them are on each circuit.
ghost use Rattle.std.specs.Prelude.{◌≡◌, ◌≤◌, [], ℕ, Some, length, option_copied, option_map, true};
ghost use Rattle.ca_text.specs.Limits.{arena_slots};
ghost use Rattle.ca_arena.specs.Arena.{place_at};
ghost use Rattle.ca_ids.specs.Holding.{Gives};
ghost use Rattle.ca_ids.specs.Table.{Table, by_wire, held_at, is_full, under, with_all};
ghost use Rattle.ca_ids.specs.Table.{with_freed};
ghost use Rattle.ca_ids.specs.Walks.{with_place};
ghost use Rattle.ca_lists.specs.Lists.{Has, list_of};
ghost use Rattle.ca_lists.specs.Walks.{AreListed, Covers};
ghost use Rattle.ca_model.specs.Client as client;
ghost use Rattle.ca_model.specs.ClientEnds.{creating};
ghost use Rattle.ca_client_tables.specs.Connecting.{creating_at};
ghost use Rattle.ca_client_tables.specs.Ending.{EndsAll, sought};
ghost use Rattle.ca_client_tables.specs.Finding.{stood};
ghost use Rattle.ca_client_tables.specs.Forms.{standing_of};
ghost use Rattle.ca_client_tables.specs.OnCircuits.{MayBeOn, circuit_of, indices_of, is_on_index};
ghost use Rattle.ca_client_tables.specs.OnCircuits.{stood_on};
ghost use Rattle.ca_client_tables.specs.Sound.{IsClient};

use crate::candidates::Candidates;
use crate::channel::{Channel, Phase, Standing};
use crate::ending::{let_cleared_go, search_again};
use crate::searches::Searches;
use ca_arena::Handle;
use ca_ids::{HeldTable, WireId};
use ca_lists::IndexLists;
use ca_text::Refusal;
use std::alloc::Global;
use std::marker::Model;

/// The channels of a client, by their handles and by their CIDs. Those on a circuit are found
/// without a look at the others.
#[derive(Drop)]
pub struct Channels {
    table: HeldTable<Channel>,
    // The indices of the channels on each circuit, by its index, and of some that have left it.
    circuits: IndexLists,
    // Whether these lists are complete: there was memory for each entry so far.
    complete: bool,
}

impl Model for Channels {
    ghost use Rattle.ca_ids.specs.Table.{Table};
    ghost use Rattle.ca_model.specs.Client as client;

    ghost Value = { Table client.Channel };

    ghost use Rattle.std.specs.Prelude.{◌≡◌, true};
    ghost use Rattle.ca_lists.specs.Walks.{AreListed};
    ghost use Rattle.ca_client_tables.specs.OnCircuits.{circuit_of};

    ghost view = { λ c. c.table };

    ghost invariant = { λ c. c.complete ≡ true → AreListed circuit_of c.table c.circuits };
}

impl Channels {
    /// No channels. It does not allocate yet.
    pub fn new(alloc: Global) -> Channels
        ensures { result ≡ [] }
    {
        Channels {
            table: HeldTable::new(alloc),
            circuits: IndexLists::new(alloc),
            complete: true,
        }
    }

    /// How many indices were given so far.
    pub fn places(&self) -> usize
        ensures { result ≡ length self.now }
    {
        self.table.places()
    }

    /// A law: no more indices were given than CIDs have.
    pub fn know_places(&self)
        ensures { length self.now ≤ arena_slots }
    {
        self.table.know_places();
    }

    /// The channel that has a CID of this index, with its handle, if one does.
    pub fn at(&self, index: usize) -> Option<(Handle, &Channel)>
        ensures { option_map (λ e. (e.0, e.1.now)) result
            ≡ held_at index (place_at self.now index) }
    {
        channel_at(&self.table, index)
    }

    /// Whether no CID may be given.
    pub fn is_full(&self) -> bool
        ensures { result ≡ is_full self.now }
    {
        self.table.is_full()
    }

    /// Puts a channel under a handle that was never given before, as `HeldTable::open` does.
    pub fn open(&mut self, value: Channel) -> Result<Handle, (Channel, Refusal)>
        ensures { Gives self.old value result self.new }
    {
        self.complete &= value.is_searched();
        self.table.open(value)
    }

    /// The channel of this handle, unless that is stale.
    pub fn by_handle(&self, handle: Handle) -> Option<&Channel>
        ensures { option_copied result ≡ under self.now handle }
    {
        self.table.by_handle(handle)
    }

    /// The channel of this CID, with its handle.
    pub fn by_wire(&self, wire: WireId) -> Option<(Handle, &Channel)>
        ensures { option_map (λ e. (e.0, e.1.now)) result ≡ by_wire self.now wire }
    {
        self.table.by_wire(wire)
    }

    /// Takes the channel of this handle out. The handle is stale from then on, and its CID is free.
    /// It does not allocate.
    pub fn free(&mut self, handle: Handle) -> Option<Channel>
        ensures value { result ≡ under self.old handle }
        ensures after { self.new ≡ with_freed handle self.old }
    {
        let before = circuit_under(&self.table, handle);
        let found = self.table.free(handle);
        self.leave(before, handle.index);
        found
    }

    /// The indices of the channels on this circuit.
    pub(crate) fn on(&self, circuit: Handle) -> Candidates<'_>
        ensures { MayBeOn circuit.index self.now (indices_of result) }
    {
        candidates(&self.table, &self.circuits, self.complete, circuit)
    }

    // Takes an index out of the list of a circuit, unless its channel is on that circuit.
    fn leave(&mut self, circuit: Option<u16>, index: u16)
        ensures { self.new ≡ self.old }
    {
        let Some(circuit) = circuit else {
            return;
        };
        if is_on_index(&self.table, index, circuit) {
            return;
        }
        self.circuits.remove(circuit, index);
    }

    // Takes out of the list of a circuit those whose channels have left it.
    fn tidy(&mut self, circuit: u16)
        ensures { self.new ≡ self.old }
    {
        for place in (0..self.circuits.of(circuit).len()).rev() {
            self.tidy_at(circuit, place);
        }
    }

    // Takes out the one at this place, if its channel has left the circuit.
    fn tidy_at(&mut self, circuit: u16, place: usize)
        ensures { self.new ≡ self.old }
    {
        let listed = self.circuits.of(circuit);
        if place >= listed.len() {
            return;
        }
        let index = listed[place];
        self.leave(Some(circuit), index);
    }
}

/// The channel that has a CID of this index, if one does.
pub(crate) fn channel_at(table: &HeldTable<Channel>, index: usize) -> Option<(Handle, &Channel)>
    ensures { option_map (λ e. (e.0, e.1.now)) result
        ≡ held_at index (place_at table.now index) }
{
    if index >= table.places() {
        return None;
    }
    table.at(index)
}

// The index of the circuit on which a channel is.
fn circuit_under(table: &HeldTable<Channel>, handle: Handle) -> Option<u16> {
    match table.by_handle(handle) {
        Some(channel) => channel.circuit_index(),
        None => None,
    }
}

// Whether the channel at this index is on a circuit of this index.
fn is_on_index(table: &HeldTable<Channel>, index: u16, circuit: u16) -> bool
    ensures { result ≡ is_on_index circuit (place_at table.now index).value }
{
    match channel_at(table, usize::from(index)) {
        Some((_, channel)) => channel.is_on_index(circuit),
        None => false,
    }
}

// The indices of the channels on a circuit: all that were given, if not all are listed.
fn candidates<'a>(
    table: &HeldTable<Channel>,
    circuits: &'a IndexLists,
    complete: bool,
    circuit: Handle,
) -> Candidates<'a>
    requires { complete ≡ true → AreListed circuit_of table.now circuits.now }
    ensures { MayBeOn circuit.index table.now (indices_of result) }
{
    if !complete {
        return Candidates::All(table.places());
    }
    Candidates::Listed(circuits.of(circuit.index))
}

/// The channel of this handle is there from now on; a stale handle changes nothing.
pub fn set_standing(channels: &mut Channels, handle: Handle, standing: Standing)
    ensures { channels.new ≡ stood (standing_of standing) handle channels.old }
{
    let before = circuit_under(&channels.table, handle);
    channels.complete &= list(&mut channels.circuits, standing, handle.index);
    put(&mut channels.table, handle, standing);
    channels.leave(before, handle.index);
}

// Lists the index for the circuit to which a channel moves, if it moves to one. It says whether
// there was memory for that.
fn list(circuits: &mut IndexLists, standing: Standing, index: u16) -> bool
    ensures kept { (t : Table client.Channel) → AreListed circuit_of t circuits.old
        → AreListed circuit_of t circuits.new }
    ensures own { result ≡ true → (o : ℕ) → stood_on (standing_of standing) ≡ Some o
        → Has (list_of circuits.new o) index }
{
    let Standing::On(circuit, _) = standing else {
        return true;
    };
    circuits.add(circuit.index, index).is_ok()
}

/// The channel of this handle is there from now on.
pub(crate) fn put(table: &mut HeldTable<Channel>, handle: Handle, standing: Standing)
    ensures { table.new ≡ stood (standing_of standing) handle table.old }
{
    if let Some(channel) = table.by_handle_mut(handle) {
        channel.set_standing(standing);
    }
}

/// The channels of a circuit that has ended: those that were cleared are gone, the others
/// are searched for again.
pub fn end_channels(channels: &mut Channels, searches: &mut Searches, circuit: Handle, moment: u64)
    requires { IsClient channels.old searches.old.entries }
    ensures steps { EndsAll
        circuit
        moment
        (sought channels.old searches.old.entries)
        (sought channels.new searches.new.entries) }
    ensures client { IsClient channels.new searches.new.entries }
{
    let on = candidates(
        &channels.table,
        &channels.circuits,
        channels.complete,
        circuit,
    );
    let_cleared_go(&mut channels.table, searches, on, circuit);
    search_again(&mut channels.table, searches, on, circuit, moment);
    channels.tidy(circuit.index);
}

/// The channels that waited for this circuit are being created.
pub fn begin_all(channels: &mut Channels, circuit: Handle)
    ensures { channels.new ≡ with_all (creating circuit) channels.old }
{
    let on = candidates(
        &channels.table,
        &channels.circuits,
        channels.complete,
        circuit,
    );
    begin_each(&mut channels.table, on, circuit);
}

// The channels that waited for this circuit are being created. All of them are at these indices.
fn begin_each(table: &mut HeldTable<Channel>, on: Candidates, circuit: Handle)
    requires { Covers (option_map (creating circuit)) table.old (indices_of on) }
    ensures { table.new ≡ with_all (creating circuit) table.old }
{
    for place in 0..on.len() {
        begin_at(table, on.at(place), circuit);
    }
}

// The channel at this index is being created, if it waited for this circuit.
fn begin_at(table: &mut HeldTable<Channel>, index: usize, circuit: Handle)
    ensures { table.new ≡ with_place index (creating_at circuit) table.old }
{
    let Some((handle, channel)) = channel_at(table, index) else {
        return;
    };
    if !channel.is_connecting_on(circuit) {
        return;
    }
    put(table, handle, Standing::On(circuit, Phase::Creating(0)));
}

impl Channel {
    // The index of the circuit on which it is.
    fn circuit_index(&self) -> Option<u16>
        ensures { result ≡ circuit_of self.now }
    {
        match self.standing() {
            Standing::Searching => None,
            Standing::On(circuit, _) => Some(circuit.index),
        }
    }

    // Whether it is on a circuit of this index.
    fn is_on_index(&self, index: u16) -> bool
        ensures { result ≡ is_on_index index (Some self.now) }
    {
        match self.standing() {
            Standing::Searching => false,
            Standing::On(circuit, _) => circuit.index == index,
        }
    }
}
