//! Bytes that came on a circuit, and those that wait to be sent.
ghost use Rattle.std.specs.Prelude.{List, ◌≡◌, ◌≤◌, length};
ghost use Rattle.ca_model.specs.Answers.{Sending};
ghost use Rattle.ca_model.specs.ClientEnds.{ClientGives, handed_over};
ghost use Rattle.ca_model.specs.Client as client;

use crate::client::ClientCore;
use ca_arena::Handle;
use ca_text::Refusal;

impl ClientCore {
    /// Takes bytes that were read on a circuit, and whether the read left more waiting: after
    /// several such reads in a row, the client asks for a pause of updates.
    ///
    /// Refused as CircuitClosed if the circuit is not connected, then as OutOfMemory, only if there
    /// are bytes or a message to send.
    pub fn give(&mut self, circuit: Handle, bytes: &[u8], more: bool) -> Result<(), Refusal>
        ensures { (sent : List Sending)
            × ClientGives self.old circuit bytes.now more result sent self.new }
    {
        let Some(found) = self.circuits.by_handle_mut(circuit) else {
            return Err(Refusal::CircuitClosed);
        };
        found.give(self.alloc, self.moment, bytes, more)
    }

    /// The bytes that wait to be sent on a circuit; none if it is not connected.
    pub fn out_bytes(&self, circuit: Handle) -> &[u8]
        ensures { result.now ≡ client.out_bytes self.now circuit }
    {
        match self.circuits.by_handle(circuit) {
            Some(found) => found.out_bytes(),
            None => &[],
        }
    }

    /// The first n of the bytes that waited on a circuit were handed over.
    pub fn sent(&mut self, circuit: Handle, n: usize)
        requires { n ≤ length (client.out_bytes self.old circuit) }
        ensures { self.new ≡ handed_over circuit n self.old }
    {
        if let Some(found) = self.circuits.by_handle_mut(circuit) {
            found.sent(n);
        }
    }
}
