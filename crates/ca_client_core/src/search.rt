//! What a client makes of a SEARCH that comes on a circuit: it is a reply.
ghost use Rattle.std.specs.Prelude.{◌≡◌, []};
ghost use Rattle.ca_text.specs.Command.{command_number};
ghost use Rattle.ca_text.specs.declared.command.Command.TheVariants.{Search};
ghost use Rattle.ca_requests.specs.Meaning.{message_of};
ghost use Rattle.ca_client_tables.specs.declared.first.First.TheVariants as first;
ghost use Rattle.ca_client_core.specs.Dispatch.{HearsFirst};
ghost use Rattle.ca_client_core.specs.First.{FirstOn};
ghost use Rattle.ca_client_core.specs.Hearing.{FindsOr};

use crate::client::ClientCore;
use crate::notices::Notices;
use ca_arena::Handle;
use ca_client_tables::{Address, find};
use ca_wire::{Head, Header};
use std::alloc::AllocError;

impl ClientCore {
    // The reply came from the server of the circuit. Without memory for it nothing else changes.
    pub(crate) fn hear_search(
        &mut self,
        circuit: Handle,
        head: &Head,
    ) -> Result<Notices, AllocError>
        requires first { FirstOn self.old circuit (first.Message head.now) }
        requires command { head.now.header.command ≡ command_number Search }
        ensures { HearsFirst self.old circuit head.now result self.new }
    {
        self.take(circuit, head);
        let Some(found) = self.circuits.by_handle(circuit) else {
            unreachable!()
        };
        let from = found.address;
        self.hear_found(from, &head.header)?;
        Ok(Notices::none(self.alloc))
    }

    // It came from this address: a channel that is searched for was found, and is put on the
    // circuit to its server. A circuit to it is wanted from now on if there is none.
    fn hear_found(&mut self, from: Address, reply: &Header) -> Result<(), AllocError>
        ensures { FindsOr self.old from (message_of reply.now []) result self.new }
    {
        let found = find(
            self.alloc,
            &mut self.channels,
            &mut self.circuits,
            &mut self.order,
            from,
            reply,
        )?;
        if let Some(channel) = found {
            self.searches.pause(channel);
        }
        Ok(())
    }
}
