//! The time has passed: searches, ECHOs and the ends of silent circuits are due.
ghost use Rattle.std.specs.Prelude.{List, ◌≡◌, ◌≢◌, ◌+◌, ◌<◌, ◌≤◌, [], IfOk, OnErr, flat_map};
ghost use Rattle.std.specs.Prelude.{length, map, vec_capacity, vec_len};
ghost use Rattle.ca_search.specs.Searcher.{with_all};
ghost use Rattle.ca_search.specs.Searches.{passed};
ghost use Rattle.ca_model.specs.Answers as answer;
ghost use Rattle.ca_model.specs.ClientEnds.{ClientTicks, Ticking, to_server};
ghost use Rattle.ca_client_core.specs.Marks.{undone};
ghost use Rattle.ca_client_core.specs.Moments.{all_ended, end_step};
ghost use Rattle.ca_client_core.specs.Ticked.{CarriesOut, LacksMemory, Plans, Reports};
ghost use Rattle.ca_text.specs.Limits.{arena_slots};
ghost use Rattle.ca_client_tables.specs.Ahead.{Once, due_after, is_in};

use crate::client::ClientCore;
use crate::closing::Closing;
use crate::for_histories::Sending;
use crate::marks::CircuitMark;
use crate::notices::Notices;
use ca_arena::Handle;
use ca_client_tables::{AddressedDatagram, Why, packed, to_servers};
use ca_search::Search;
use ca_text::Refusal;
use ca_wire::Pipe;
use std::alloc::AllocError;
use std::marker::Model;

/// A circuit whose end has ended after a silence that was too long.
#[derive(Debug, Drop)]
pub struct Left {
    /// The circuit.
    pub circuit: Handle,
    /// Its open requests complete with Disconnected, in order of issue, and then its live channels
    /// are lost, in order of index.
    pub notices: Notices,
    /// The bytes that waited to be sent.
    pub bytes: Pipe,
}

/// What a moment did.
#[derive(Debug, Drop)]
pub struct Ticked {
    /// The searches that are due, to each server: to be sent.
    pub datagrams: Vec<AddressedDatagram>,
    /// The circuits whose ends have ended, in order, each with its notices.
    pub closings: Vec<Left>,
}

impl Model for Ticked {
    ghost use Rattle.ca_model.specs.Answers as answer;

    ghost Value = { answer.Ticked };

    ghost use Rattle.ca_client_core.specs.Ticked.{lefts_of, notices_of};

    ghost view = { λ t. record {
      notices = notices_of t.closings.items;
      datagrams = t.datagrams.items;
      closings = lefts_of t.closings.items;
    } };
}

// What a moment asks of a client, once all that allocates is done.
#[derive(Debug, Drop)]
pub(crate) struct Plan {
    // What was sent on circuits.
    pub(crate) sent: Vec<Sending>,
    // The circuits that were silent too long.
    pub(crate) ends: Vec<Handle>,
    // Empty, with room for one for each of `ends`.
    closings: Vec<Left>,
    datagrams: Vec<AddressedDatagram>,
}

impl ClientCore {
    /// A moment: on each circuit an ECHO goes out after a silence, once, or its end ends after one
    /// that is too long; and then the searches that are due go out, in datagrams to each server,
    /// and on the circuits of name servers.
    ///
    /// Refused as OutOfMemory, only if an ECHO or a search is due, or an end ends. Nothing changes
    /// then, nor does the moment.
    pub fn tick(&mut self, now: u64) -> Result<Ticked, Refusal>
        ensures { (sent : List answer.Sending)
            × ClientTicks self.old now result sent self.new }
    {
        let before = self.moment;
        self.set_moment(before.max(now));
        let mut marks = Vec::new(self.alloc);
        match self.plan(&mut marks) {
            Ok(plan) => Ok(self.carry_out(plan)),
            Err(_) => {
                self.take_back(&marks);
                self.set_moment(before);
                Err(Refusal::OutOfMemory)
            }
        }
    }

    // All of it that allocates. What is sent goes out after marks; the ends that have to
    // end are still there.
    pub(crate) fn plan(&mut self, marks: &mut Vec<CircuitMark>) -> Result<Plan, AllocError>
        ensures kept { undone marks.new.items self.new ≡ undone marks.old.items self.old }
        ensures ok { IfOk result (λ p. Plans self.old p self.new) }
        ensures some { OnErr result (LacksMemory self.old) }
    {
        self.know_searches();
        let mut sent = Vec::new(self.alloc);
        self.note_echoes(marks, &mut sent)?;
        let ends = self.silent()?;
        let closings = Vec::with_capacity(self.alloc, ends.len())?;
        let searches = self.due_after(&ends)?;
        let packed = packed(self.alloc, &searches)?;
        let datagrams = self.to_servers(&packed)?;
        self.note_searches(&searches, marks, &mut sent)?;
        Ok(Plan {
            sent,
            ends,
            closings,
            datagrams,
        })
    }

    // The rest: the ends end, and the searches that were due count as made.
    fn carry_out(&mut self, plan: Plan) -> Ticked
        requires { length plan.ends.items + vec_len plan.closings ≤ vec_capacity plan.closings }
        ensures { CarriesOut self.old plan result self.new }
    {
        let Plan {
            ends,
            mut closings,
            datagrams,
            ..
        } = plan;
        self.end_each(&ends, &mut closings);
        self.pass_searches();
        Ticked {
            datagrams,
            closings,
        }
    }

    // The ends of these circuits end, if they were silent too long.
    fn end_each(&mut self, ends: &[Handle], closings: &mut Vec<Left>)
        requires { length ends.now + vec_len closings.old ≤ vec_capacity closings.old }
        ensures { (t : Ticking) → Reports t self.old closings.old.items
            → Reports (all_ended ends.now t) self.new closings.new.items }
    {
        for index in 0..ends.len() {
            self.end_silent(ends[index], closings);
        }
    }

    // The end of a circuit ends, if it was silent too long.
    fn end_silent(&mut self, circuit: Handle, closings: &mut Vec<Left>)
        requires { vec_len closings.old < vec_capacity closings.old }
        ensures reports { (t : Ticking) → Reports t self.old closings.old.items
            → Reports (end_step t circuit) self.new closings.new.items }
        ensures len { vec_len closings.new ≤ vec_len closings.old + 1 }
        ensures capacity { vec_capacity closings.new ≡ vec_capacity closings.old }
    {
        if !self.is_silent(circuit) {
            return;
        }
        let Closing { notices, left, .. } = self.end(circuit, Why::Silence);
        closings.push_reserved(Left {
            circuit,
            notices,
            bytes: left,
        });
    }

    // The searches that are due count as made.
    fn pass_searches(&mut self)
        ensures { self.new
            ≡ record self.old { searches = with_all (passed self.old.moment) self.old.searches } }
    {
        self.searches.pass(self.moment);
    }

    // These datagrams to each server, in order.
    fn to_servers(&self, packed: &[Vec<u8>]) -> Result<Vec<AddressedDatagram>, AllocError>
        ensures ok { IfOk result (λ v. v.items
            ≡ flat_map (to_server (map (λ d. d.items) packed.now)) self.now.servers) }
        ensures some { OnErr result (packed.now ≢ []) }
    {
        to_servers(self.alloc, &self.servers, packed)
    }

    pub(crate) fn set_moment(&mut self, moment: u64)
        ensures { self.new ≡ record self.old { moment = moment } }
    {
        self.moment = moment;
    }

    // The searches that are due once these circuits have ended, in order.
    fn due_after(&self, ends: &[Handle]) -> Result<Vec<Search>, AllocError>
        ensures found { IfOk result (λ v. v.items
            ≡ due_after (is_in ends.now) self.now.moment self.now.channels self.now.searches) }
        ensures some { OnErr result (due_after
            (is_in ends.now)
            self.now.moment
            self.now.channels
            self.now.searches ≢ []) }
    {
        if ends.is_empty() {
            return self.searches.due(self.alloc, self.moment);
        }
        self.searches
            .due_after(self.alloc, &self.channels, ends, self.moment)
    }

    // There are no more channels than CIDs have indices, and each CID is searched for once.
    fn know_searches(&self)
        ensures few { length self.now.channels ≤ arena_slots }
        ensures once { Once self.now.searches }
    {
        self.channels.know_places();
        self.searches.know_once();
    }
}
