//! Which circuits a change of a record may have reached: for callers that pump or wake only these.
ghost use Rattle.std.specs.Prelude.{◌≡◌, [], option_copied, unwrap_or};
ghost use Rattle.ca_server_core.specs.Asking.{AreAllAmong, busy_circuit};

use crate::server::ServerCore;
use ca_arena::Handle;
use ca_records::for_histories::busy_put;
use ca_server_watchers::RecordWatchers;

// Which circuits a call of the server reaches, beside the one that it is of.
impl ServerCore {
    /// The circuits that a write, a post or a finish of the record of this name may
    /// have left updates on: each that has a subscription on the record is among them.
    /// None if nobody has one.
    ///
    /// Others may be among them: right after such a call also those whose ends it ended, without
    /// memory for their updates.
    pub fn watching(&self, name: &[u8]) -> Option<&RecordWatchers>
        ensures { AreAllAmong self.now name.now
            (unwrap_or (option_copied result) []) }
    {
        self.watchers.line(name)
    }

    /// The circuit of the put that makes the record of this name busy, which gets the reply of the
    /// next finish. None if no put does, or no record has the name.
    pub fn busy_circuit(&self, name: &[u8]) -> Option<Handle>
        ensures { result ≡ busy_circuit self.now name.now }
    {
        let Some(place) = self.records.find(name) else {
            return None;
        };
        match busy_put(self.records.at(place)) {
            Some(put) => Some(put.circuit),
            None => None,
        }
    }
}
