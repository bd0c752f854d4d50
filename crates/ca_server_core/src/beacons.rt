//! The beacons of a server: when one is due, and its bytes.
ghost use Rattle.ca_model.specs.ServerCalls.{Beacons};

use crate::server::ServerCore;
use ca_dgram::beacon;

impl ServerCore {
    /// The beacon that is due at this moment, once: 16 bytes, to be sent in a datagram of their
    /// own. None if none is due.
    ///
    /// A moment earlier than the last counts as the last.
    pub fn beacon(&mut self, now: u64) -> Option<[u8; 16]>
        ensures { Beacons self.old now result self.new }
    {
        self.moment = self.moment.max(now);
        if !self.beacons.due(self.moment) {
            return None;
        }
        let number = self.beacons.next(self.moment);
        Some(beacon(number, self.port))
    }
}
