//! A request goes out: its handle, its message, and how both are taken back without memory.
ghost use Rattle.std.specs.Prelude.{◌≡◌};
ghost use Rattle.ca_requests.specs.Forms.{asked_of};
ghost use Rattle.ca_client_core.specs.Asks.{Asks, IssuesOr};
ghost use Rattle.ca_client_tables.specs.Ends.{cut_back};
ghost use Rattle.ca_model.specs.Placed.{WasLive};

use crate::client::ClientCore;
use ca_arena::Handle;
use ca_requests::Asked;
use ca_wire::Message;
use std::alloc::AllocError;

impl ClientCore {
    // Issues a request on this channel under the handle that is given next, and queues its message.
    // Without memory nothing changes.
    pub(crate) fn ask(
        &mut self,
        vacant: Handle,
        channel: Handle,
        circuit: Handle,
        asked: Asked,
        message: &Message,
    ) -> Result<(), AllocError>
        requires { WasLive self.old channel circuit }
        ensures { Asks
            self.old
            vacant
            channel
            circuit
            (asked_of asked)
            message.now
            result
            self.new }
    {
        let waiting = self.out_bytes(circuit).len();
        self.queue(circuit, message)?;
        self.issue_or_cut(waiting, vacant, channel, circuit, asked)
    }

    // Issues a request whose message was queued after this many bytes; without memory the
    // message is taken back.
    #[inline(always)]
    pub(crate) fn issue_or_cut(
        &mut self,
        waiting: usize,
        vacant: Handle,
        channel: Handle,
        circuit: Handle,
        asked: Asked,
    ) -> Result<(), AllocError>
        requires { WasLive self.old channel circuit }
        ensures { IssuesOr
            waiting
            self.old
            vacant
            channel
            circuit
            (asked_of asked)
            result
            self.new }
    {
        match self.requests.issue(vacant, channel, circuit, asked) {
            Ok(()) => Ok(()),
            Err(_) => {
                self.cut_back(circuit, waiting);
                Err(AllocError)
            }
        }
    }

    // Only the first n of the bytes on a circuit still wait.
    pub(crate) fn cut_back(&mut self, circuit: Handle, n: usize)
        ensures { self.new ≡ cut_back circuit n self.old }
    {
        if let Some(found) = self.circuits.by_handle_mut(circuit) {
            found.cut_back(n);
        }
    }
}
