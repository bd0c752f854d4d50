//! What a client makes of an ACCESS_RIGHTS.
ghost use Rattle.std.specs.Prelude.{◌≡◌};
ghost use Rattle.ca_model.specs.Hears.{becomes};
ghost use Rattle.ca_client_core.specs.Hearing.{rights_by};

use crate::client::ClientCore;
use ca_arena::Handle;
use ca_client_tables::Phase;
use ca_wire::Header;

impl ClientCore {
    // The rights of a channel that is being created, or is live.
    pub(crate) fn hear_access_rights(&mut self, circuit: Handle, header: &Header)
        ensures { becomes self.new ≡ rights_by self.old circuit header.now }
    {
        let Some((channel, phase)) = self.channel_on(circuit, header.p1) else {
            return;
        };
        match phase {
            Phase::Connecting => {}
            Phase::Creating(_) => self.set_phase(circuit, channel, Phase::Creating(header.p2)),
            Phase::Live(native, _) => {
                self.set_phase(circuit, channel, Phase::Live(native, header.p2))
            }
            Phase::Leaving => {}
            Phase::Clearing => {}
            Phase::Doomed => {}
        }
    }
}
