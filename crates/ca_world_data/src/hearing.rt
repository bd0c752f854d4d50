//! A datagram comes to a client of the world.
ghost use Rattle.std.specs.Prelude.{◌≡◌, ◌*◌, ◌≤◌, ℕ, length, map};
ghost use Rattle.ca_world_data.specs.Found.{AreNumbered};
ghost use Rattle.ca_world_data.specs.Hearing.{HearsDatagram};
ghost use Rattle.ca_world_data.specs.Seen.{client_of, joined_of};

use crate::client::ClientSide;
use crate::joined::Joined;
use crate::sending::{push_sendings, reserve_on_each};
use ca_client_core::Address;
use ca_client_core::for_datagrams::take_datagram;
use ca_text::Refusal;

/// A datagram that came from this address is taken by a client: what it makes the client send
/// goes up its circuits.
///
/// Refused as OutOfMemory.
pub fn hear_datagram(
    moment: u64,
    client: usize,
    side: &mut ClientSide,
    circuits: &mut Vec<Joined>,
    from: Address,
    bytes: &[u8],
) -> Result<(), Refusal>
    requires { AreNumbered
        side.old.circuits.items
        (map joined_of circuits.old.items)
        client }
    ensures hears { HearsDatagram
        client
        (record { now = moment; from = from; bytes = bytes.now })
        (client_of side.old)
        (map joined_of circuits.old.items)
        result
        (client_of side.new)
        (map joined_of circuits.new.items) }
    ensures kept { side.new.circuits.items ≡ side.old.circuits.items }
{
    reserve_on_each(&side.circuits, circuits, most_messages(bytes))?;
    let sent = take_datagram(&mut side.core, moment, from, bytes)?;
    push_sendings(client, &side.circuits, &side.names, circuits, sent);
    Ok(())
}

// How many messages these bytes may have: each takes 16 at least.
fn most_messages(bytes: &[u8]) -> usize
    ensures { (n : ℕ) → 16 * n ≤ length bytes.now → n ≤ result }
{
    bytes.len() / 16
}
