//! What the silence of a circuit asks of a client, and its ECHOs.
ghost use Rattle.std.specs.Prelude.{◌≡◌, ◌≢◌, ◌<◌, [], true, IfOk, OnErr, OnOk, Some, length};
ghost use Rattle.std.specs.Prelude.{slice_get};
ghost use Rattle.ca_link.specs.Link.{kept};
ghost use Rattle.ca_model.specs.ClientEnds.{Ticking};
ghost use Rattle.ca_client_core.specs.Foretold.{Notes};
ghost use Rattle.ca_client_core.specs.Marks.{undone};
ghost use Rattle.ca_client_core.specs.Moments.{EchoIsDue, EchoesAll, all_echoed, asked_at};
ghost use Rattle.ca_client_core.specs.Moments.{echo_step, is_echo_due, is_silent, silent_of};
ghost use Rattle.ca_client_core.specs.Silences.{echoed};

use crate::client::ClientCore;
use crate::for_histories::{Sending, of_circuit};
use crate::marks::CircuitMark;
use ca_arena::Handle;
use ca_link::Keep;
use ca_text::Command;
use ca_wire::header_only;
use std::alloc::AllocError;

impl ClientCore {
    // The circuit at this place of their order.
    pub(crate) fn listed_at(&self, index: usize) -> Handle
        requires { index < length self.now.order }
        ensures { slice_get self.now.order index ≡ Some result }
    {
        self.order[index]
    }

    // What the moment asks of a circuit; nothing, if it is not connected.
    fn asked(&self, circuit: Handle) -> Keep
        ensures { result ≡ asked_at self.now circuit }
    {
        match self.circuits.by_handle(circuit) {
            Some(found) => found.asked(self.moment),
            None => Keep::Idle,
        }
    }

    // Whether an ECHO is due on a circuit.
    fn is_echo_due(&self, circuit: Handle) -> bool
        ensures { result ≡ is_echo_due self.now circuit }
    {
        matches!(self.asked(circuit), Keep::Echo)
    }

    // Whether a circuit was silent too long.
    pub(crate) fn is_silent(&self, circuit: Handle) -> bool
        ensures { result ≡ is_silent self.now circuit }
    {
        matches!(self.asked(circuit), Keep::Close)
    }

    // The circuits that were silent too long, in order.
    pub(crate) fn silent(&self) -> Result<Vec<Handle>, AllocError>
        ensures found { IfOk result (λ v. v.items ≡ silent_of self.now self.now.order) }
        ensures some { OnErr result (silent_of self.now self.now.order ≢ []) }
    {
        let mut silent = Vec::new(self.alloc);
        for index in 0..self.circuits_listed() {
            let circuit = self.listed_at(index);
            if self.is_silent(circuit) {
                silent.push(circuit)?;
            }
        }
        Ok(silent)
    }

    // The ECHOs that are due go out, each after a mark, and are noted. Without memory the first of
    // them may.
    pub(crate) fn note_echoes(
        &mut self,
        marks: &mut Vec<CircuitMark>,
        sent: &mut Vec<Sending>,
    ) -> Result<(), AllocError>
        ensures kept { undone marks.new.items self.new ≡ undone marks.old.items self.old }
        ensures ok { OnOk result (Notes
            (all_echoed self.old.order)
            self.old
            sent.old.items
            self.new
            sent.new.items) }
        ensures echoes { OnOk result (EchoesAll self.old self.new) }
        ensures some { OnErr result (EchoIsDue self.old) }
    {
        for index in 0..self.circuits_listed() {
            let circuit = self.listed_at(index);
            self.note_echo(circuit, marks, sent)?;
        }
        Ok(())
    }

    // The ECHO of a circuit goes out and is noted, if it is due.
    fn note_echo(
        &mut self,
        circuit: Handle,
        marks: &mut Vec<CircuitMark>,
        sent: &mut Vec<Sending>,
    ) -> Result<(), AllocError>
        ensures kept { undone marks.new.items self.new ≡ undone marks.old.items self.old }
        ensures ok { OnOk result (Notes
            (λ t. echo_step t circuit)
            self.old
            sent.old.items
            self.new
            sent.new.items) }
        ensures echoes { OnOk result ((t : Ticking) → t.core ≡ self.old
            → self.new ≡ (echo_step t circuit).core) }
        ensures some { OnErr result (is_echo_due self.old circuit ≡ true) }
    {
        if !self.is_echo_due(circuit) {
            return Ok(());
        }
        sent.push(of_circuit(circuit, header_only(self.alloc, Command::Echo)))?;
        self.echo_on(circuit, marks)
    }

    // The ECHO of a circuit, if it is due.
    fn echo_on(&mut self, circuit: Handle, marks: &mut Vec<CircuitMark>) -> Result<(), AllocError>
        ensures kept { undone marks.new.items self.new ≡ undone marks.old.items self.old }
        ensures ok { OnOk result ((t : Ticking) → t.core ≡ self.old
            → self.new ≡ (echo_step t circuit).core) }
        ensures some { OnErr result (is_echo_due self.old circuit ≡ true) }
    {
        if !self.is_echo_due(circuit) {
            return Ok(());
        }
        marks.push(self.mark(circuit))?;
        self.echo(circuit)?;
        Ok(())
    }

    // An ECHO waits on a circuit whose silence asks for it, and for no other until bytes come.
    // Without memory nothing changes.
    fn echo(&mut self, circuit: Handle) -> Result<(), AllocError>
        ensures ok { OnOk result (self.new ≡ echoed circuit self.old) }
        ensures err { OnErr result (self.new ≡ self.old) }
    {
        let Some(found) = self.circuits.by_handle_mut(circuit) else {
            return Ok(());
        };
        found.echo(self.alloc, self.moment)?;
        Ok(())
    }
}
