//! The names that the client on a circuit gave for its user and its host.
ghost use Rattle.std.specs.Prelude.{◌≡◌, option_map};
ghost use Rattle.ca_ids.specs.Table.{under};
ghost use Rattle.ca_server_core.specs.Asking.{peer_under};

use crate::server::ServerCore;
use ca_arena::Handle;

impl ServerCore {
    /// The user's name that the client on a circuit gave: empty if it gave none. None if
    /// its end is not open.
    pub fn user(&self, circuit: Handle) -> Option<&[u8]>
        ensures { option_map (λ t. t.now) result
            ≡ option_map (λ p. p.user) (peer_under (under self.now.circuits circuit)) }
    {
        match self.circuits.by_handle(circuit) {
            Some(found) => found.user(),
            None => None,
        }
    }

    /// The host's name that the client on a circuit gave: empty if it gave none. None if
    /// its end is not open.
    pub fn host(&self, circuit: Handle) -> Option<&[u8]>
        ensures { option_map (λ t. t.now) result
            ≡ option_map (λ p. p.host) (peer_under (under self.now.circuits circuit)) }
    {
        match self.circuits.by_handle(circuit) {
            Some(found) => found.host(),
            None => None,
        }
    }
}
