//! A datagram comes to a client. A search reply may make it send CREATE_CHAN at once, on a circuit
//! that is connected.
ghost use Rattle.std.specs.Prelude.{◌≡◌, OnErr, false, map, true};
ghost use Rattle.ca_model.specs.Events as event;
ghost use Rattle.ca_wire.specs.Stream.{NoneBegins};
ghost use Rattle.ca_world.specs.Passing.{Passes};
ghost use Rattle.ca_world_data.specs.Does.{Does};
ghost use Rattle.ca_world_data.specs.Found.{AreNumbered};
ghost use Rattle.ca_world_data.specs.Hearing.{HearsDatagram};
ghost use Rattle.ca_world_data.specs.Seen.{client_of, joined_of};

use crate::world::World;
use ca_client_core::Address;
use ca_client_core::for_datagrams::take_datagram;
use ca_text::Refusal;
use ca_wire::{One, read_one};
use ca_world_data::client::ClientSide;
use ca_world_data::hearing::hear_datagram;
use ca_world_data::joined::Joined;

impl World {
    /// A datagram from this address comes to a client: search replies and beacons. The channels
    /// that it finds are created on circuits that are connected, and wait for the others.
    pub fn client_datagram(
        &mut self,
        client: usize,
        from: Address,
        bytes: &[u8],
    ) -> Result<(), Refusal>
        ensures { Does self.old (event.ClientDatagram client from bytes.now) result self.new }
    {
        if client >= self.clients.len() {
            return Err(Refusal::BadEvent);
        }
        hear_or_pass(
            self.moment,
            client,
            &mut self.clients[client],
            &mut self.circuits,
            from,
            bytes,
        )
    }
}

// A datagram comes to this client. If there is no memory for it, one without a message is taken
// still.
fn hear_or_pass(
    moment: u64,
    client: usize,
    side: &mut ClientSide,
    circuits: &mut Vec<Joined>,
    from: Address,
    bytes: &[u8],
) -> Result<(), Refusal>
    requires { AreNumbered
        side.old.circuits.items
        (map joined_of circuits.old.items)
        client }
    ensures hears { HearsDatagram
        client
        (record { now = moment; from = from; bytes = bytes.now })
        (client_of side.old)
        (map joined_of circuits.old.items)
        result
        (client_of side.new)
        (map joined_of circuits.new.items) }
    ensures kept { side.new.circuits.items ≡ side.old.circuits.items }
    ensures lacks { OnErr result (NoneBegins bytes.now → ⊥) }
{
    match hear_datagram(moment, client, side, circuits, from, bytes) {
        Ok(()) => Ok(()),
        Err(refusal) => {
            if begins_message(bytes) {
                return Err(refusal);
            }
            pass(moment, side, from, bytes, refusal)
        }
    }
}

// A datagram without a message comes to this client, which sends nothing. One with a message may
// be refused so.
fn pass(
    moment: u64,
    side: &mut ClientSide,
    from: Address,
    bytes: &[u8],
    refusal: Refusal,
) -> Result<(), Refusal>
    ensures passes { Passes
        (record { now = moment; from = from; bytes = bytes.now })
        refusal
        (client_of side.old)
        result
        (client_of side.new) }
    ensures kept { side.new.circuits.items ≡ side.old.circuits.items }
    ensures lacks { OnErr result (NoneBegins bytes.now → ⊥) }
{
    match take_datagram(&mut side.core, moment, from, bytes) {
        Ok(_) => Ok(()),
        Err(_) => Err(refusal),
    }
}

// Whether a whole message begins these bytes.
fn begins_message(bytes: &[u8]) -> bool
    ensures begins { result ≡ true → NoneBegins bytes.now → ⊥ }
    ensures none { result ≡ false → NoneBegins bytes.now }
{
    match read_one(bytes) {
        One::Whole(_) => true,
        One::More => false,
        One::Bad(_) => false,
    }
}
