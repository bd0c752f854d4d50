//! What an event queue holds: a subscription's key on its circuit (SID and subscription id), and an
//! update that waits to be sent.
ghost use Rattle.std.specs.Prelude.{◌≡◌};
ghost use Rattle.ca_queue.specs.Keys.{same};

use ca_dbr::{Meta, Value};

/// The name of a subscription on its circuit.
#[derive(Clone, Copy, Debug, PartialEq, Eq, Hash)]
pub struct SubKey {
    /// The SID of its channel.
    pub sid: u32,
    /// The subscription id that the client gave.
    pub sub: u32,
}

/// An update that waits.
#[derive(Debug, Drop, PartialEq, Eq)]
pub struct Entry {
    pub value: Value,
    pub meta: Meta,
}

/// Whether both are one subscription.
pub(crate) fn is_same(a: SubKey, b: SubKey) -> bool
    ensures { result ≡ same a b }
{
    a.sid == b.sid && a.sub == b.sub
}
