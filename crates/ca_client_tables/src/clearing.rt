//! Whether a circuit is used.
ghost use Rattle.std.specs.Prelude.{◌≡◌, [], Some, false, length, nat_eq, not, true};
ghost use Rattle.ca_arena.specs.Arena.{place_at};
ghost use Rattle.ca_arena.specs.declared.handle.Handle as handle;
ghost use Rattle.ca_ids.specs.Table.{held_at};
ghost use Rattle.ca_model.specs.Client as client;
ghost use Rattle.ca_model.specs.Client.{On, is_on_in};
ghost use Rattle.ca_client_tables.specs.Ending.{is_any, named_at, named_in};

use crate::channel::{Channel, Standing, is_same};
use crate::channels::Channels;
use ca_arena::Handle;

/// Whether a channel is on this circuit.
pub fn is_used(channels: &Channels, circuit: Handle) -> bool
    ensures { nat_eq (length (named_in is_any circuit channels.now)) 0 ≡ not result }
{
    let on = channels.on(circuit);
    for place in 0..on.len() {
        if is_on_at(channels, circuit, on.at(place)) {
            return true;
        }
    }
    false
}

// Whether the channel at this index is on this circuit.
fn is_on_at(channels: &Channels, circuit: Handle, index: usize) -> bool
    ensures none { result ≡ false → named_at is_any circuit index channels.now ≡ [] }
    ensures some { result ≡ true → (h : handle.Handle) × (v : client.Channel)
        × (held_at index (place_at channels.now index) ≡ Some (h, v))
        × (is_on_in is_any circuit v ≡ true) }
{
    let Some((_, channel)) = channels.at(index) else {
        return false;
    };
    channel.is_on(circuit)
}

impl Channel {
    // Whether it is on this circuit.
    fn is_on(&self, circuit: Handle) -> bool
        ensures { result ≡ is_on_in is_any circuit self.now }
    {
        match self.standing() {
            Standing::Searching => false,
            Standing::On(on, _) => is_same(on, circuit),
        }
    }
}
