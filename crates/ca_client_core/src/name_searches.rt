//! Searches on the circuits of name servers.
ghost use Rattle.std.specs.Prelude.{◌≡◌, ◌≢◌, [], List, IfOk, OnErr, OnOk};
ghost use Rattle.ca_wire.specs.Fields.{Fields};
ghost use Rattle.ca_wire.specs.Messages.{search_request};
ghost use Rattle.ca_model.specs.ClientEnds.{all_searched_on, is_name_connected, searches_on};
ghost use Rattle.ca_client_tables.specs.Ends.{with_messages};
ghost use Rattle.ca_client_core.specs.Foretold.{Notes};
ghost use Rattle.ca_client_core.specs.Marks.{undone};
ghost use Rattle.ca_client_core.specs.Moments.{all_searched, is_searched_on, search_step};

use crate::client::ClientCore;
use crate::for_histories::{Sending, of_circuit};
use crate::marks::CircuitMark;
use ca_arena::Handle;
use ca_search::Search;
use ca_wire::{Cid, Message, search_request};
use std::alloc::{AllocError, Global};

impl ClientCore {
    // Whether searches go out on a circuit.
    fn is_searched_on(&self, circuit: Handle) -> bool
        ensures { result ≡ is_searched_on self.now circuit }
    {
        self.is_name_connected(circuit) && !self.is_silent(circuit)
    }

    // Whether a circuit is that of a name server, and connected.
    fn is_name_connected(&self, circuit: Handle) -> bool
        ensures { result ≡ is_name_connected self.now circuit }
    {
        match self.circuits.by_handle(circuit) {
            Some(found) => found.is_name_connected(),
            None => false,
        }
    }

    // These searches go out on the circuits of name servers that are connected and were not silent
    // too long, on each after a mark, and are noted. Without memory the first of them may.
    pub(crate) fn note_searches(
        &mut self,
        searches: &[Search],
        marks: &mut Vec<CircuitMark>,
        sent: &mut Vec<Sending>,
    ) -> Result<(), AllocError>
        ensures kept { undone marks.new.items self.new ≡ undone marks.old.items self.old }
        ensures ok { OnOk result (Notes
            (all_searched searches.now self.old.order)
            self.old
            sent.old.items
            self.new
            sent.new.items) }
        ensures some { OnErr result (searches.now ≢ []) }
    {
        if searches.is_empty() {
            return Ok(());
        }
        for index in 0..self.circuits_listed() {
            let circuit = self.listed_at(index);
            self.note_searched(circuit, searches, marks, sent)?;
        }
        Ok(())
    }

    // These searches go out on this circuit, if it is one for them, and are noted.
    fn note_searched(
        &mut self,
        circuit: Handle,
        searches: &[Search],
        marks: &mut Vec<CircuitMark>,
        sent: &mut Vec<Sending>,
    ) -> Result<(), AllocError>
        ensures kept { undone marks.new.items self.new ≡ undone marks.old.items self.old }
        ensures ok { OnOk result (Notes
            (λ t. search_step searches.now t circuit)
            self.old
            sent.old.items
            self.new
            sent.new.items) }
    {
        if !self.is_searched_on(circuit) {
            return Ok(());
        }
        marks.push(self.mark(circuit))?;
        self.note_all_on(circuit, searches, sent)
    }

    // These searches go out on a circuit, and are noted.
    fn note_all_on(
        &mut self,
        circuit: Handle,
        searches: &[Search],
        sent: &mut Vec<Sending>,
    ) -> Result<(), AllocError>
        ensures ok { OnOk result (Notes
            (λ t. all_searched_on searches.now t circuit)
            self.old
            sent.old.items
            self.new
            sent.new.items) }
        ensures kept { (ms : List Fields) × (self.new ≡ with_messages circuit ms self.old) }
    {
        for index in 0..searches.len() {
            self.note_search(circuit, &searches[index], sent)?;
        }
        Ok(())
    }

    // A search goes out on a circuit and is noted, unless too much waits there.
    fn note_search(
        &mut self,
        circuit: Handle,
        search: &Search,
        sent: &mut Vec<Sending>,
    ) -> Result<(), AllocError>
        ensures ok { OnOk result (Notes
            (λ t. searches_on circuit t search.now)
            self.old
            sent.old.items
            self.new
            sent.new.items) }
        ensures kept { (ms : List Fields) × (self.new ≡ with_messages circuit ms self.old) }
    {
        if self.is_over(circuit) {
            return Ok(());
        }
        let message = search_message(self.alloc, search)?;
        self.queue(circuit, &message)?;
        sent.push(of_circuit(circuit, message))?;
        Ok(())
    }
}

// The SEARCH of a search.
fn search_message(alloc: Global, search: &Search) -> Result<Message, AllocError>
    ensures { IfOk result (λ m. m ≡ search_request search.now.cid search.now.name) }
{
    let name = search.name();
    let message = search_request(alloc, Cid::new(search.cid()), name.bytes())?;
    Ok(message)
}
