//! What a client makes of a CREATE_CH_FAIL.
ghost use Rattle.std.specs.Prelude.{◌≡◌};
ghost use Rattle.ca_model.specs.Client.{channel_on};
ghost use Rattle.ca_model.specs.Hears.{becomes, failed};

use crate::client::ClientCore;
use ca_arena::Handle;
use ca_client_tables::Phase;
use ca_wire::Header;

impl ClientCore {
    // The channel is searched for again; one that its caller cleared meanwhile is gone.
    pub(crate) fn hear_create_channel_fail(&mut self, circuit: Handle, header: &Header)
        ensures { becomes self.new
            ≡ failed self.old (channel_on self.old circuit header.now.p1) }
    {
        self.know();
        let Some((channel, phase)) = self.channel_on(circuit, header.p1) else {
            return;
        };
        match phase {
            Phase::Connecting => {}
            Phase::Creating(_) => self.seek_again(channel),
            Phase::Live(_, _) => {}
            Phase::Leaving => {}
            Phase::Clearing => {}
            Phase::Doomed => self.remove_channel(channel),
        }
    }
}
