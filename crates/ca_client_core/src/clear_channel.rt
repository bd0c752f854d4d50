//! What a client makes of the answer to a CLEAR_CHANNEL.
ghost use Rattle.std.specs.Prelude.{◌≡◌};
ghost use Rattle.ca_model.specs.Client.{channel_on};
ghost use Rattle.ca_model.specs.Hears.{becomes, clear_answered, without_drained};

use crate::client::ClientCore;
use ca_arena::Handle;
use ca_client_tables::Phase;
use ca_wire::Header;

impl ClientCore {
    // A channel that its caller cleared is gone; one that its record left is searched for again.
    pub(crate) fn hear_clear_channel(&mut self, circuit: Handle, header: &Header)
        ensures { becomes self.new
            ≡ clear_answered self.old circuit (channel_on self.old circuit header.now.p2) }
    {
        self.know();
        let Some((channel, phase)) = self.channel_on(circuit, header.p2) else {
            return;
        };
        match phase {
            Phase::Connecting => {}
            Phase::Creating(_) => {}
            Phase::Live(_, _) => {}
            Phase::Leaving => {
                self.end_draining(circuit, channel);
                self.seek_again(channel)
            }
            Phase::Clearing => {
                self.end_draining(circuit, channel);
                self.remove_channel(channel)
            }
            Phase::Doomed => {}
        }
    }

    // The ids of a channel whose clear is answered no longer drain.
    fn end_draining(&mut self, circuit: Handle, channel: Handle)
        ensures { self.new ≡ without_drained circuit channel self.old }
    {
        self.requests.free_channel(channel);
        self.monitors.drained(circuit, channel);
    }
}
