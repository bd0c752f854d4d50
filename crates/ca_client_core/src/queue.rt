//! What calls share: handles are looked up, and messages are queued.
ghost use Rattle.std.specs.Prelude.{◌≡◌, OnErr, OnOk, option_map};
ghost use Rattle.ca_model.specs.Client.{standing_at};
ghost use Rattle.ca_model.specs.ClientCalls.{is_over};
ghost use Rattle.ca_model.specs.Placed.{IsPlaced};
ghost use Rattle.ca_client_tables.specs.Ends.{with_message};
ghost use Rattle.ca_client_tables.specs.Forms.{standing_of};

use crate::client::ClientCore;
use ca_arena::Handle;
use ca_client_tables::Standing;
use ca_text::OUTPUT_LIMIT;
use ca_wire::Message;
use std::alloc::AllocError;

impl ClientCore {
    // Its requests and subscriptions are where its channels are, and these on circuits that are
    // connected or wanted.
    pub(crate) fn know(&self)
        ensures { IsPlaced self.now }
    {
        let _moment = self.moment;
    }

    // Where the channel of this handle is; a stale handle names none.
    pub(crate) fn standing(&self, channel: Handle) -> Option<Standing>
        ensures { option_map standing_of result ≡ standing_at self.now channel }
    {
        match self.channels.by_handle(channel) {
            Some(found) => found.standing_unless_cleared(),
            None => None,
        }
    }

    // Whether as many bytes wait on a circuit as may, so that no message of a caller is queued.
    pub(crate) fn is_over(&self, circuit: Handle) -> bool
        ensures { result ≡ is_over self.now circuit }
    {
        self.out_bytes(circuit).len() >= OUTPUT_LIMIT
    }

    // Puts a message after what waits on a circuit that is connected.
    pub(crate) fn queue(&mut self, circuit: Handle, message: &Message) -> Result<(), AllocError>
        ensures ok { OnOk result (self.new ≡ with_message circuit message.now self.old) }
        ensures err { OnErr result (self.new ≡ self.old) }
    {
        let Some(found) = self.circuits.by_handle_mut(circuit) else {
            return Ok(());
        };
        found.queue(message)?;
        Ok(())
    }
}
