//! All requests of a client that wait for a reply, found by IOID, by channel or by circuit. Begin
//! at `issue` and `answer`.
ghost use Rattle.std.specs.Prelude.{◌≡◌, [], OnErr, OnOk, true};
ghost use Rattle.ca_ids.specs.Holding.{IsVacant};
ghost use Rattle.ca_ids.specs.Table.{MayGive};
ghost use Rattle.ca_requests.specs.Calls.{Answers, Issues, MayIssue, WhyNot, failed_in};
ghost use Rattle.ca_requests.specs.Calls.{issued_last, new_request, open_of, with_table, without};
ghost use Rattle.ca_requests.specs.Calls.{without_if};
ghost use Rattle.ca_requests.specs.Forms.{asked_of};
ghost use Rattle.ca_requests.specs.Layout.{named};
ghost use Rattle.ca_requests.specs.Meaning.{message_of};
ghost use Rattle.ca_requests.specs.Requests.{answered_by, asks_on, channel_gone, channel_over};
ghost use Rattle.ca_requests.specs.Requests.{circuit_gone, in_order_of_issue, is_open, was_sent_on};

use crate::asked::{Asked, RequestStage};
use crate::drops::{RequestsMeant, end_each, free_all};
use crate::lines::{hand_out, note, prepare};
use crate::outcome::{LAST_PLAIN_TYPE, display_outcome, image_outcome_into, status_outcome};
use crate::request::{Request, is_same};
use crate::request_list::{GROWTH, RequestList};
use ca_arena::Handle;
use ca_dbr::{Outcome, Value};
use ca_ids::{HeldTable, WireId};
use ca_text::Refusal;
use ca_wire::Header;
use std::alloc::{AllocError, Global};
use std::marker::Model;

// The memory of this many values is kept at most.
const MOST_SPARE: usize = 1_024;

/// A client's requests: by their handles, by their IOIDs, and in order of issue.
///
/// Answering one costs the same however many are open, and so does issuing one on average: an issue
/// that finds the list at its limit goes over all of it, at most once in three times as many issues
/// as were open then. Those of a circuit or a channel are found without a look at the others; to
/// free ids, what ends many at once goes over each index that was ever given.
#[derive(Drop)]
pub struct Requests {
    table: HeldTable<Request>,
    // All that are open, in order of issue, and some that are over.
    listed: Vec<Handle>,
    // How many are listed before those that are over are taken out.
    limit: usize,
    // Those of each circuit, by its index.
    circuits: Vec<RequestList>,
    // Those of each channel, by its index.
    channels: Vec<RequestList>,
    // Values that are no longer used: those that come take their memory.
    spare: Vec<Value>,
}

impl Model for Requests {
    ghost use Rattle.ca_requests.specs.Calls.{Issued};

    ghost Value = { Issued };

    ghost use Rattle.ca_requests.specs.Layout.{issued_of};
    ghost use Rattle.ca_requests.specs.Lines.{AreRequests};

    ghost view = { λ r. issued_of r.table r.listed.items };

    ghost invariant = { λ r. AreRequests
        r.table
        r.listed.items
        r.circuits.items
        r.channels.items };
}

impl Requests {
    /// No request. It does not allocate yet.
    pub fn new(alloc: Global) -> Self
        ensures { result ≡ record { table = []; order = [] } }
    {
        Requests {
            table: HeldTable::new(alloc),
            listed: Vec::new(alloc),
            limit: 64,
            circuits: Vec::new(alloc),
            channels: Vec::new(alloc),
            spare: Vec::new(alloc),
        }
    }

    /// The handle of the request that is issued next. None if no IOID may be given.
    pub fn vacant(&self) -> Option<Handle>
        ensures { IsVacant self.now.table result }
    {
        self.table.vacant()
    }

    /// Issues a request on this channel, which is sent on this circuit, under the handle that
    /// `vacant` returns. It is open from now on. No other channel and no other circuit of these
    /// indices has an open request.
    ///
    /// Refused as StaleHandle if `vacant` returns another handle or none, then as OutOfMemory.
    pub fn issue(
        &mut self,
        vacant: Handle,
        channel: Handle,
        circuit: Handle,
        asked: Asked,
    ) -> Result<(), Refusal>
        requires { MayIssue channel circuit self.old }
        ensures { Issues
            self.old
            vacant
            (new_request channel circuit (asked_of asked))
            result
            self.new }
    {
        match self.open(vacant, channel, circuit, asked) {
            Ok(()) => Ok(()),
            Err(_) => Err(self.why_not(vacant)),
        }
    }

    // Issues a request, if the handle is the next and there is memory.
    #[inline(always)]
    fn open(
        &mut self,
        vacant: Handle,
        channel: Handle,
        circuit: Handle,
        asked: Asked,
    ) -> Result<(), AllocError>
        requires { MayIssue channel circuit self.old }
        ensures may { OnOk result (MayGive self.old.table vacant) }
        ensures ok { OnOk result (self.new
            ≡ issued_last vacant (new_request channel circuit (asked_of asked)) self.old) }
        ensures err { OnErr result (self.new ≡ self.old) }
    {
        self.tidy();
        let alloc = *self.listed.allocator();
        prepare(alloc, &mut self.circuits, &self.table, circuit)?;
        prepare(alloc, &mut self.channels, &self.table, channel)?;
        self.listed.reserve(1)?;
        let request = Request {
            channel,
            circuit,
            asked,
            stage: RequestStage::Open,
        };
        match self.table.open_at(vacant, request) {
            Ok(()) => {
                self.listed.push_reserved(vacant);
                note(&mut self.circuits, circuit, vacant);
                note(&mut self.channels, channel, vacant);
                Ok(())
            }
            Err(_) => Err(AllocError),
        }
    }

    // Why no request is issued under this handle.
    #[cold]
    #[inline(never)]
    fn why_not(&self, vacant: Handle) -> Refusal
        ensures { WhyNot self.now.table vacant result }
    {
        match self.vacant() {
            Some(next) if is_same(next, vacant) => Refusal::OutOfMemory,
            _ => Refusal::StaleHandle,
        }
    }

    // Takes those that are over out of the list once it is long.
    fn tidy(&mut self)
        ensures { self.new ≡ self.old }
    {
        if self.listed.len() < self.limit {
            return;
        }
        forget(&mut self.listed, &self.table);
        self.limit = self.listed.len().saturating_mul(GROWTH).max(64);
    }

    // The request that a reply of this command and IOID on this circuit is about.
    fn answered(&self, circuit: Handle, command: u16, ioid: u32) -> Option<(Handle, Request)>
        ensures { result ≡ answered_by circuit command ioid self.now.table }
    {
        match self.table.by_wire(WireId::new(ioid)) {
            Some((handle, request))
                if request.was_sent_on(circuit) && request.asked.command().number() == command => {
                Some((handle, *request))
            }
            _ => None,
        }
    }

    /// A reply with this header and payload was read on this circuit: the open request that it
    /// completes, with its outcome. The IOID is free then, also if it drained.
    ///
    /// Only a value takes memory, and display data; without it nothing changes.
    #[inline(always)]
    pub fn answer(
        &mut self,
        circuit: Handle,
        header: &Header,
        payload: &[u8],
    ) -> Result<Option<(Handle, Outcome)>, AllocError>
        ensures { Answers
            self.old
            circuit
            (message_of header.now payload.now)
            result
            self.new }
    {
        let Some((handle, request)) = self.answered(circuit, header.command, header.p2) else {
            return Ok(None);
        };
        if !request.is_open() {
            self.free(handle);
            return Ok(None);
        }
        let alloc = *self.listed.allocator();
        let outcome = match request.asked {
            Asked::Read(data_type, _) if data_type > LAST_PLAIN_TYPE => {
                display_outcome(alloc, header, payload)?
            }
            Asked::Read(_, _) => {
                let room = self.spare.pop();
                image_outcome_into(alloc, room, header, payload)?
            }
            Asked::Put => status_outcome(header),
        };
        self.free(handle);
        Ok(Some((handle, outcome)))
    }

    /// A value that is no longer used gives its memory to one that comes. Without memory to keep
    /// it, or with many kept, it is dropped.
    pub fn recycle(&mut self, value: Value)
        ensures { self.new ≡ self.old }
    {
        if self.spare.len() < MOST_SPARE {
            let _ = self.spare.push(value);
        }
    }

    /// An ERROR was read on this circuit that quotes a header of this command and id: the open
    /// request that failed. Its IOID is free then.
    pub fn failed(&mut self, circuit: Handle, command: u16, ioid: u32) -> Option<Handle>
        ensures about { result ≡ failed_in (answered_by circuit command ioid self.old.table) }
        ensures freed { self.new ≡ without_if result self.old }
    {
        let (handle, request) = self.answered(circuit, command, ioid)?;
        if !request.is_open() {
            return None;
        }
        self.free(handle);
        Some(handle)
    }

    // The IOID of this request is free.
    fn free(&mut self, handle: Handle)
        ensures { self.new ≡ without handle self.old }
    {
        let _ = self.table.free(handle);
    }

    /// The requests on this channel are over, and their IOIDs drain: those that were open, in order
    /// of issue. It does not allocate.
    pub fn end_channel(&mut self, channel: Handle) -> Vec<Handle>
        ensures told { result.items ≡ open_of (asks_on channel) self.old }
        ensures over { self.new ≡ with_table (channel_over channel self.old.table) self.old }
    {
        let alloc = *self.listed.allocator();
        let mut told = hand_out(alloc, &mut self.channels, channel);
        keep_open(&mut told, &self.table, RequestsMeant::OnChannel(channel));
        end_each(&mut self.table, &told);
        told
    }

    /// The IOIDs of this channel's requests are free. It does not allocate.
    pub fn free_channel(&mut self, channel: Handle)
        ensures { self.new ≡ with_table (channel_gone channel self.old.table) self.old }
    {
        free_all(&mut self.table, RequestsMeant::OnChannel(channel));
    }

    /// The IOIDs of the requests that were sent on this circuit are free: those that were open, in
    /// order of issue. It does not allocate.
    pub fn end_circuit(&mut self, circuit: Handle) -> Vec<Handle>
        ensures told { result.items ≡ open_of (was_sent_on circuit) self.old }
        ensures freed { self.new ≡ with_table (circuit_gone circuit self.old.table) self.old }
    {
        let alloc = *self.listed.allocator();
        let mut told = hand_out(alloc, &mut self.circuits, circuit);
        keep_open(&mut told, &self.table, RequestsMeant::OnCircuit(circuit));
        free_all(&mut self.table, RequestsMeant::OnCircuit(circuit));
        told
    }
}

// Takes those out of a list that are not open, or not meant.
fn keep_open(listed: &mut Vec<Handle>, table: &HeldTable<Request>, which: RequestsMeant)
    ensures { listed.new.items ≡ in_order_of_issue (named which) table.now listed.old.items }
{
    listed.retain(|handle| is_meant(table, *handle, which));
}

// Whether the request of this handle is open, and meant.
fn is_meant(table: &HeldTable<Request>, handle: Handle, which: RequestsMeant) -> bool
    ensures { result ≡ is_open (named which) table.now handle }
{
    match table.by_handle(handle) {
        Some(request) => which.names(request) && request.is_open(),
        None => false,
    }
}

// Takes those that are over out of a list.
pub(crate) fn forget(listed: &mut Vec<Handle>, table: &HeldTable<Request>)
    ensures { listed.new.items ≡ in_order_of_issue (λ q. true) table.now listed.old.items }
{
    listed.retain(|handle| is_still_open(table, *handle));
}

// Whether the request of this handle is open.
pub(crate) fn is_still_open(table: &HeldTable<Request>, handle: Handle) -> bool
    ensures { result ≡ is_open (λ q. true) table.now handle }
{
    match table.by_handle(handle) {
        Some(request) => request.is_open(),
        None => false,
    }
}
