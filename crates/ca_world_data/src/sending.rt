//! What a client sends without being called for it: each message goes up the circuit that is open
//! at the client under its handle.
ghost use Rattle.std.specs.Prelude.{◌≡◌, ◌≢◌, [], OnErr, OnOk, map};
ghost use Rattle.ca_client_core.specs.ForHistories.{aim_of, sending_of};
ghost use Rattle.ca_model.specs.ClientEvents as world;
ghost use Rattle.ca_world_data.specs.Found.{AreNumbered};
ghost use Rattle.ca_world_data.specs.Seen.{intent_of, joined_of, names_of};
ghost use Rattle.ca_world_data.specs.Sends.{HasRoomForAll, HasRoomOnEach, IsRepeated, count_on};
ghost use Rattle.ca_world_data.specs.Speaking.{sent_up};

use crate::client::Names;
use crate::found::circuit_of;
use crate::history::{Ask, Intent};
use crate::joined::Joined;
use crate::naming::{channel_number, is_same, meant_by};
use crate::way::{push_sent, reserve_sent};
use ca_arena::Handle;
use ca_client_core::for_histories::{Aim, Sending};
use std::alloc::AllocError;

/// Makes room for these messages of a client on its circuits, which it has by these numbers. It
/// takes memory only if there is one.
pub fn reserve_sendings(
    client: usize,
    numbers: &[usize],
    circuits: &mut Vec<Joined>,
    sendings: &[Sending],
) -> Result<(), AllocError>
    requires { AreNumbered numbers.now (map joined_of circuits.old.items) client }
    ensures same { map joined_of circuits.new.items ≡ map joined_of circuits.old.items }
    ensures room { OnOk result (HasRoomForAll client sendings.now circuits.new.items) }
    ensures some { OnErr result (sendings.now ≢ []) }
{
    for place in 0..sendings.len() {
        if is_repeated(sendings, place) {
            continue;
        }
        let circuit = sendings[place].circuit;
        let number = circuit_of(numbers, circuits, client, circuit);
        reserve_sent(circuits, number, number_on(circuit, sendings))?;
    }
    Ok(())
}

/// Makes room for n more messages on each of the circuits of these numbers.
pub fn reserve_on_each(
    numbers: &[usize],
    circuits: &mut Vec<Joined>,
    messages: usize,
) -> Result<(), AllocError>
    ensures same { map joined_of circuits.new.items ≡ map joined_of circuits.old.items }
    ensures room { OnOk result (HasRoomOnEach messages numbers.now circuits.new.items) }
{
    for place in 0..numbers.len() {
        reserve_sent(circuits, Some(numbers[place]), messages)?;
    }
    Ok(())
}

// Whether the message before this one goes on the same circuit.
fn is_repeated(sendings: &[Sending], place: usize) -> bool
    ensures { IsRepeated sendings.now place result }
{
    if place == 0 || place >= sendings.len() {
        return false;
    }
    is_same(sendings[place - 1].circuit, sendings[place].circuit)
}

// How many of these messages go on this circuit.
fn number_on(circuit: Handle, sendings: &[Sending]) -> usize
    ensures { result ≡ count_on circuit sendings.now }
{
    sendings
        .iter()
        .filter(|sending| is_same(sending.circuit, circuit))
        .count()
}

/// Puts these messages after those of the client on its circuits, which it has by these numbers.
/// There is room for them.
pub fn push_sendings(
    client: usize,
    numbers: &[usize],
    names: &Names,
    circuits: &mut Vec<Joined>,
    sendings: Vec<Sending>,
)
    requires numbered { AreNumbered numbers.now (map joined_of circuits.old.items) client }
    requires room { HasRoomForAll client sendings.items circuits.old.items }
    ensures { map joined_of circuits.new.items
        ≡ map
        (sent_up client (names_of names.now) (map sending_of sendings.items))
        (map joined_of circuits.old.items) }
{
    for sending in sendings {
        let Sending {
            circuit,
            message,
            aim,
        } = sending;
        let number = circuit_of(numbers, circuits, client, circuit);
        let intent = intent_for(names, aim);
        push_sent(circuits, number, message, intent);
    }
}

/// The intent of a message with this aim.
pub fn intent_for(names: &Names, aim: Aim) -> Intent
    ensures { intent_of result ≡ world.intent_of (names_of names.now) (aim_of aim) }
{
    match aim {
        Aim::OfCircuit => Intent::OfCircuit,
        Aim::Create(channel) => Intent::On(channel_number(names, channel), Ask::Create),
        Aim::Clear(channel) => Intent::On(channel_number(names, channel), Ask::Clear),
        Aim::Subscribe(_, subscription) => meant_by(&names.subscriptions, subscription),
    }
}
