//! The reply to a put that a device has finished.
ghost use Rattle.std.specs.Prelude.{◌≡◌, OnErr, OnOk, [], ◌∷◌};
ghost use Rattle.ca_link.specs.Calls.{IsOpen};
ghost use Rattle.ca_model.specs.ServerCalls.{finish_reply};
ghost use Rattle.ca_server_circuit.specs.Handling.{replied};

use crate::end::{End, send};
use ca_records::Put;
use ca_text::{Command, Status};
use ca_wire::Message;
use std::alloc::{AllocError, Global};

impl End {
    /// The reply of a put that is finished. Without memory nothing changes.
    pub(crate) fn finish(&mut self, put: Put) -> Result<(), AllocError>
        requires { IsOpen self.old.link }
        ensures ok { OnOk result (self.new ≡ replied (finish_reply put ∷ []) self.old) }
        ensures err { OnErr result (self.new ≡ self.old) }
    {
        let reply = reply_to(self.alloc, put);
        send(&mut self.link, &reply)?;
        Ok(())
    }
}

/// The reply of a put that is finished.
fn reply_to(alloc: Global, put: Put) -> Message
    ensures { result ≡ finish_reply put }
{
    let command = Command::WriteNotify.number();
    let status = Status::NORMAL.number;
    let payload = Vec::new(alloc);
    match Message::new(command, put.data_type, put.count, status, put.ioid, payload) {
        Ok(reply) => reply,
        Err(_) => unreachable!(),
    }
}
