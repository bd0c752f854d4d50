//! What a client makes of a READ_NOTIFY or a WRITE_NOTIFY.
ghost use Rattle.std.specs.Prelude.{◌≡◌};
ghost use Rattle.ca_client_tables.specs.declared.first.First.TheVariants.{Message};
ghost use Rattle.ca_client_core.specs.Dispatch.{HearsFirst, HearsFirstReply, IsReply};
ghost use Rattle.ca_client_core.specs.First.{FirstOn};
ghost use Rattle.ca_client_core.specs.Hearing.{completed};
ghost use Rattle.ca_client_core.specs.Notices.{noticed};

use crate::client::ClientCore;
use crate::notice::Notice;
use crate::notices::Notices;
use ca_arena::Handle;
use ca_dbr::Outcome;
use ca_wire::Head;
use std::alloc::AllocError;

impl ClientCore {
    // Without memory for it nothing changes.
    pub(crate) fn hear_reply(&mut self, circuit: Handle, head: &Head) -> Result<Notices, AllocError>
        requires first { FirstOn self.old circuit (Message head.now) }
        requires reply { IsReply head.now.header.command }
        ensures { HearsFirst self.old circuit head.now result self.new }
    {
        let alloc = self.alloc;
        let told = self.complete(circuit, head)?;
        Ok(Notices::one(alloc, completed(told)))
    }

    // The request that the first message completes, with its outcome. Only a value takes memory;
    // without it nothing changes.
    #[inline(always)]
    pub(crate) fn complete(
        &mut self,
        circuit: Handle,
        head: &Head,
    ) -> Result<Option<(Handle, Outcome)>, AllocError>
        requires { FirstOn self.old circuit (Message head.now) }
        ensures { HearsFirstReply self.old circuit head.now result self.new }
    {
        let Some(found) = self.circuits.by_handle(circuit) else {
            unreachable!()
        };
        match self
            .requests
            .answer(circuit, &head.header, found.payload(head))
        {
            Ok(told) => {
                self.take(circuit, head);
                Ok(told)
            }
            Err(refused) => Err(refused),
        }
    }
}

// The notice of a request that is complete.
fn completed(told: Option<(Handle, Outcome)>) -> Option<Notice>
    ensures { noticed result ≡ completed told }
{
    match told {
        Some((request, outcome)) => Some(Notice::Completed(request, outcome)),
        None => None,
    }
}
