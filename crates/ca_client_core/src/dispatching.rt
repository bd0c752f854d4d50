//! What comes first on a circuit, and what a client makes of a message, by its command.
ghost use Rattle.std.specs.Prelude.{◌≡◌};
ghost use Rattle.ca_client_tables.specs.declared.first.First.TheVariants.{Message};
ghost use Rattle.ca_client_core.specs.Dispatch.{HearsFirst, IsOther};
ghost use Rattle.ca_client_core.specs.First.{FirstOn, without_first};

use crate::client::ClientCore;
use crate::notices::Notices;
use ca_arena::Handle;
use ca_client_tables::First;
use ca_text::Command;
use ca_wire::Head;
use std::alloc::AllocError;

impl ClientCore {
    // The first message of a circuit, which has this header, is handled and dropped: if it needs no
    // payload it is dropped first, else that is read where it came. Without memory for it nothing
    // else changes.
    pub(crate) fn hear(&mut self, circuit: Handle, head: &Head) -> Result<Notices, AllocError>
        requires { FirstOn self.old circuit (Message head.now) }
        ensures { HearsFirst self.old circuit head.now result self.new }
    {
        let Some(command) = Command::of(head.header.command) else {
            return self.skip(circuit, head);
        };
        match command {
            Command::ReadNotify => self.hear_reply(circuit, head),
            Command::WriteNotify => self.hear_reply(circuit, head),
            Command::EventAdd => self.hear_event_add(circuit, head),
            Command::Error => Ok(Notices::one(self.alloc, self.hear_error(circuit, head))),
            Command::Search => self.hear_search(circuit, head),
            Command::CreateChannel => {
                self.take(circuit, head);
                self.hear_create_channel(circuit, &head.header)
            }
            Command::CreateChannelFail => {
                self.take(circuit, head);
                self.hear_create_channel_fail(circuit, &head.header);
                Ok(Notices::none(self.alloc))
            }
            Command::AccessRights => {
                self.take(circuit, head);
                self.hear_access_rights(circuit, &head.header);
                Ok(Notices::none(self.alloc))
            }
            Command::ServerDisconnect => {
                self.take(circuit, head);
                self.hear_server_disconnect(circuit, &head.header)
            }
            Command::ClearChannel => {
                self.take(circuit, head);
                self.hear_clear_channel(circuit, &head.header);
                Ok(Notices::none(self.alloc))
            }
            // VERSION needs no answer, and no server sends the others.
            _ => self.skip(circuit, head),
        }
    }

    // It is dropped, and does nothing else.
    fn skip(&mut self, circuit: Handle, head: &Head) -> Result<Notices, AllocError>
        requires first { FirstOn self.old circuit (Message head.now) }
        requires other { IsOther head.now.header.command }
        ensures { HearsFirst self.old circuit head.now result self.new }
    {
        self.take(circuit, head);
        Ok(Notices::none(self.alloc))
    }

    // What comes first on a circuit.
    #[inline(always)]
    pub(crate) fn first(&self, circuit: Handle) -> First
        ensures { FirstOn self.now circuit result }
    {
        match self.circuits.by_handle(circuit) {
            Some(found) => found.first(),
            None => First::Gone,
        }
    }

    // Takes the first message of a circuit, which has this header.
    #[inline(always)]
    pub(crate) fn take(&mut self, circuit: Handle, head: &Head)
        requires { FirstOn self.old circuit (Message head.now) }
        ensures { self.new ≡ without_first circuit head.now self.old }
    {
        if let Some(found) = self.circuits.by_handle_mut(circuit) {
            found.drop_first(head);
        }
    }
}
