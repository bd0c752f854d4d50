//! What a client makes of a SERVER_DISCONN.
ghost use Rattle.ca_model.specs.Client as client;
ghost use Rattle.ca_client_core.specs.Hearing.{HasEffect, left_by};
ghost use Rattle.ca_client_core.specs.Again.{leaving};
ghost use Rattle.ca_client_core.specs.Turns.{MayTurn};

use crate::client::ClientCore;
use crate::notice::Notice;
use crate::notices::Notices;
use ca_arena::Handle;
use ca_client_tables::Phase;
use ca_ids::WireId;
use ca_wire::{Cid, Header, Sid, clear_request};
use std::alloc::AllocError;

impl ClientCore {
    // A live channel's requests complete with Disconnected, in order of issue; it is lost, and
    // cleared.
    pub(crate) fn hear_server_disconnect(
        &mut self,
        circuit: Handle,
        header: &Header,
    ) -> Result<Notices, AllocError>
        ensures { HasEffect self.old (left_by self.old circuit header.now) result self.new }
    {
        let Some((channel, phase)) = self.channel_on(circuit, header.p1) else {
            return Ok(Notices::none(self.alloc));
        };
        match phase {
            Phase::Connecting => Ok(Notices::none(self.alloc)),
            Phase::Creating(_) => Ok(Notices::none(self.alloc)),
            Phase::Live(native, _) => self.leave(circuit, channel, native.sid),
            Phase::Leaving => Ok(Notices::none(self.alloc)),
            Phase::Clearing => Ok(Notices::none(self.alloc)),
            Phase::Doomed => Ok(Notices::none(self.alloc)),
        }
    }

    // A live channel is lost, and is cleared under this SID.
    fn leave(&mut self, circuit: Handle, channel: Handle, sid: u32) -> Result<Notices, AllocError>
        requires { MayTurn channel circuit client.Leaving self.old }
        ensures { HasEffect self.old (leaving circuit sid channel self.old) result self.new }
    {
        let cid = Cid::new(WireId::of(channel).number());
        self.queue(circuit, &clear_request(self.alloc, Sid::new(sid), cid))?;
        let over = self.requests.end_channel(channel);
        self.set_phase(circuit, channel, Phase::Leaving);
        let lost = Notice::Lost(channel);
        Ok(Notices::of(over, Vec::new(self.alloc), Some(lost)))
    }
}
