//! A channel is opened.
ghost use Rattle.std.specs.Prelude.{[]};
ghost use Rattle.ca_model.specs.ClientCalls.{ClientOpens};

use crate::client::ClientCore;
use ca_arena::Handle;
use ca_client_tables::Channel;
use ca_ids::WireId;
use ca_search::Place;
use ca_text::{ChannelName, PRIORITY_LIMIT, Refusal};

impl ClientCore {
    /// Opens a channel of this name, which is searched for from now on; its circuit is
    /// to have this priority.
    ///
    /// Refused as NameLength if this is no name, as BadPriority for a priority over 99, as
    /// ArenaFull if no CID may be given, then as OutOfMemory.
    pub fn open(&mut self, name: &[u8], priority: u16, now: u64) -> Result<Handle, Refusal>
        ensures { ClientOpens
            self.old
            (record { name = name.now; priority = priority; now = now })
            result
            []
            self.new }
    {
        let name = ChannelName::read(name)?;
        if priority > PRIORITY_LIMIT {
            return Err(Refusal::BadPriority);
        }
        if self.channels.is_full() {
            return Err(Refusal::ArenaFull);
        }
        let own = Vec::from_slice(self.alloc, name.bytes())?;
        let searched = Vec::from_slice(self.alloc, name.bytes())?;
        self.searches.reserve()?;
        let handle = match self.channels.open(Channel::new(own, priority)) {
            Ok(handle) => handle,
            Err((_, refusal)) => return Err(refusal),
        };
        let moment = self.moment.max(now);
        let cid = WireId::of(handle).number();
        self.searches.insert(cid, Place::new(searched, moment));
        self.moment = moment;
        Ok(handle)
    }
}
