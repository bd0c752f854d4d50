//! The client's exports.

ghost use Rattle.std.specs.Prelude.{◌≡◌, None, IfErr, IfOk, map};
ghost use Rattle.ca_object.specs.Calling.{Calls};
ghost use Rattle.ca_c.specs.Answers.{no_object};
ghost use Rattle.ca_c.specs.Clients.{Begins, IsBegun, MayNotBegin, DoesChannel, DoesClear};
ghost use Rattle.ca_c.specs.Clients.{DoesClose, DoesConnected, DoesCut, DoesDatagram, DoesEnded};
ghost use Rattle.ca_c.specs.Clients.{DoesGive, DoesLeft, DoesNext, DoesOpen, DoesOutput, DoesPut};
ghost use Rattle.ca_c.specs.Clients.{DoesRead, DoesSearch, DoesSent, DoesStep, DoesSubscribe};
ghost use Rattle.ca_c.specs.Clients.{DoesTick, DoesUnsubscribe, DoesValue, DoesWanted, DoesWrite};
ghost use Rattle.ca_c.specs.Clients.{address_of, setting_of};

use crate::answers::{NO_OBJECT, refused};
use crate::client_object::ClientObject;
use crate::client_structs::{CvzAddress, CvzChannel, CvzNotice, CvzWanted, address};
use crate::cvz_client::CvzClient;
use ca_client_core::{Address, ClientCore};
use ca_text::Refusal;
use ca_wire::Pipe;
use std::alloc::{AllocError, Global};

/// Makes a client of this user at this host. It searches by datagrams to the servers, and on a
/// circuit to each name server. One that the struct had is freed. Refused as NameLength, then as
/// ArenaFull, or as OutOfMemory: then the struct has what it had.
#[unsafe(no_mangle)]
pub extern "C" fn cvz_client_new(
    alloc: Global,
    client: &mut CvzClient,
    user: &[u8],
    host: &[u8],
    servers: &[CvzAddress],
    names: &[CvzAddress],
    now: u64,
) -> i32
    ensures { Begins (setting_of user.now host.now servers.now names.now now) result
        client.old.value client.new.value }
{
    match begun(alloc, user, host, servers, names, now) {
        Ok(object) => {
            client.put(alloc, object);
            0
        }
        Err(refusal) => refused(refusal),
    }
}

fn begun(
    alloc: Global,
    user: &[u8],
    host: &[u8],
    servers: &[CvzAddress],
    names: &[CvzAddress],
    now: u64,
) -> Result<Box<ClientObject, Global>, Refusal>
    ensures ok { IfOk result (λ b.
        IsBegun (setting_of user.now host.now servers.now names.now now) b.value) }
    ensures err { IfErr result
        (MayNotBegin (setting_of user.now host.now servers.now names.now now)) }
{
    let user = Vec::from_slice(alloc, user)?;
    let host = Vec::from_slice(alloc, host)?;
    let servers = addresses(alloc, servers)?;
    let names = addresses(alloc, names)?;
    let core = ClientCore::new(alloc, user, host, servers, &names, now)?;
    let object = ClientObject {
        core,
        notices: None,
        brought: None,
        left: Pipe::new(alloc),
        searches: Vec::new(alloc),
        taken: 0,
        ended: Vec::new(alloc),
    };
    match Box::new(alloc, object) {
        Ok(made) => Ok(made),
        Err(_) => Err(Refusal::OutOfMemory),
    }
}

fn addresses(alloc: Global, given: &[CvzAddress]) -> Result<Vec<Address>, AllocError>
    ensures { IfOk result (λ v. v.items ≡ map address_of given.now) }
{
    let mut all = Vec::new(alloc);
    for index in 0..given.len() {
        all.push(address(given[index]))?;
    }
    Ok(all)
}

/// Frees the client, if there is one.
#[unsafe(no_mangle)]
pub extern "C" fn cvz_client_free(alloc: Global, client: &mut CvzClient)
    ensures { client.new.value ≡ None }
{
    let _ = client.take(alloc);
}

/// Opens a channel of this name, which is searched for from now on.
#[unsafe(no_mangle)]
pub extern "C" fn cvz_client_open(
    alloc: Global,
    client: &mut CvzClient,
    name: &[u8],
    priority: u16,
    now: u64,
    channel: &mut u64,
) -> i32
    ensures call { Calls no_object client.old.value result client.new.value
        (λ s n t. DoesOpen s n t name.now priority now channel.old channel.new) }
    ensures kept { client.old.value ≡ None → channel.new ≡ channel.old }
{
    let Some(mut object) = client.take(alloc) else {
        return NO_OBJECT;
    };
    let answer = object.open(name, priority, now, channel);
    client.put(alloc, object);
    answer
}

/// How far a channel is.
#[unsafe(no_mangle)]
pub extern "C" fn cvz_client_channel(
    alloc: Global,
    client: &mut CvzClient,
    channel: u64,
    told: &mut CvzChannel,
) -> i32
    ensures call { Calls no_object client.old.value result client.new.value
        (λ s n t. DoesChannel s n t channel told.old told.new) }
    ensures kept { client.old.value ≡ None → told.new ≡ told.old }
{
    let Some(object) = client.take(alloc) else {
        return NO_OBJECT;
    };
    let answer = object.channel(channel, told);
    client.put(alloc, object);
    answer
}

/// Lets a channel go.
#[unsafe(no_mangle)]
pub extern "C" fn cvz_client_clear(alloc: Global, client: &mut CvzClient, channel: u64) -> i32
    ensures { Calls no_object client.old.value result client.new.value
        (λ s n t. DoesClear s n t channel) }
{
    let Some(mut object) = client.take(alloc) else {
        return NO_OBJECT;
    };
    let answer = object.clear(channel);
    client.put(alloc, object);
    answer
}

/// Asks for the value of a channel.
#[unsafe(no_mangle)]
pub extern "C" fn cvz_client_read(
    alloc: Global,
    client: &mut CvzClient,
    channel: u64,
    data_type: u16,
    count: u32,
    request: &mut u64,
) -> i32
    ensures call { Calls no_object client.old.value result client.new.value
        (λ s n t. DoesRead s n t channel data_type count request.old request.new) }
    ensures kept { client.old.value ≡ None → request.new ≡ request.old }
{
    let Some(mut object) = client.take(alloc) else {
        return NO_OBJECT;
    };
    let answer = object.read(channel, data_type, count, request);
    client.put(alloc, object);
    answer
}

/// Writes a value, with no answer if that is done.
#[unsafe(no_mangle)]
pub extern "C" fn cvz_client_write(
    alloc: Global,
    client: &mut CvzClient,
    channel: u64,
    data_type: u16,
    count: u32,
    image: &[u8],
) -> i32
    ensures { Calls no_object client.old.value result client.new.value
        (λ s n t. DoesWrite s n t channel data_type count image.now) }
{
    let Some(mut object) = client.take(alloc) else {
        return NO_OBJECT;
    };
    let answer = object.write(alloc, channel, data_type, count, image);
    client.put(alloc, object);
    answer
}

/// Writes a value, and is told when that is done.
#[unsafe(no_mangle)]
pub extern "C" fn cvz_client_put(
    alloc: Global,
    client: &mut CvzClient,
    channel: u64,
    data_type: u16,
    count: u32,
    image: &[u8],
    request: &mut u64,
) -> i32
    ensures call { Calls no_object client.old.value result client.new.value
        (λ s n t. DoesPut s n t channel data_type count image.now request.old request.new) }
    ensures kept { client.old.value ≡ None → request.new ≡ request.old }
{
    let Some(mut object) = client.take(alloc) else {
        return NO_OBJECT;
    };
    let answer = object.put(alloc, channel, data_type, count, image, request);
    client.put(alloc, object);
    answer
}

/// Subscribes to a channel.
#[unsafe(no_mangle)]
pub extern "C" fn cvz_client_subscribe(
    alloc: Global,
    client: &mut CvzClient,
    channel: u64,
    data_type: u16,
    count: u32,
    mask: u16,
    subscription: &mut u64,
) -> i32
    ensures call { Calls no_object client.old.value result client.new.value
        (λ s n t.
        DoesSubscribe s n t channel data_type count mask subscription.old subscription.new) }
    ensures kept { client.old.value ≡ None → subscription.new ≡ subscription.old }
{
    let Some(mut object) = client.take(alloc) else {
        return NO_OBJECT;
    };
    let answer = object.subscribe(channel, data_type, count, mask, subscription);
    client.put(alloc, object);
    answer
}

/// Ends a subscription.
#[unsafe(no_mangle)]
pub extern "C" fn cvz_client_unsubscribe(
    alloc: Global,
    client: &mut CvzClient,
    subscription: u64,
) -> i32
    ensures { Calls no_object client.old.value result client.new.value
        (λ s n t. DoesUnsubscribe s n t subscription) }
{
    let Some(mut object) = client.take(alloc) else {
        return NO_OBJECT;
    };
    let answer = object.unsubscribe(subscription);
    client.put(alloc, object);
    answer
}

/// The circuit at this place of those that are wanted and not connected: 1, or 0 if there is none.
#[unsafe(no_mangle)]
pub extern "C" fn cvz_client_wanted(
    alloc: Global,
    client: &mut CvzClient,
    place: usize,
    told: &mut CvzWanted,
) -> i32
    ensures call { Calls no_object client.old.value result client.new.value
        (λ s n t. DoesWanted s n t place told.old told.new) }
    ensures kept { client.old.value ≡ None → told.new ≡ told.old }
{
    let Some(object) = client.take(alloc) else {
        return NO_OBJECT;
    };
    let answer = object.wanted(place, told);
    client.put(alloc, object);
    answer
}

/// A circuit that was wanted is connected.
#[unsafe(no_mangle)]
pub extern "C" fn cvz_client_connected(
    alloc: Global,
    client: &mut CvzClient,
    circuit: u64,
    why: &mut u32,
) -> i32
    ensures call { Calls no_object client.old.value result client.new.value
        (λ s n t. DoesConnected s n t circuit why.old why.new) }
    ensures kept { client.old.value ≡ None → why.new ≡ why.old }
{
    let Some(mut object) = client.take(alloc) else {
        return NO_OBJECT;
    };
    let answer = object.connected(circuit, why);
    client.put(alloc, object);
    answer
}

/// Takes bytes that came on a circuit, and whether more are there.
#[unsafe(no_mangle)]
pub extern "C" fn cvz_client_give(
    alloc: Global,
    client: &mut CvzClient,
    circuit: u64,
    bytes: &[u8],
    more: bool,
) -> i32
    ensures { Calls no_object client.old.value result client.new.value
        (λ s n t. DoesGive s n t circuit bytes.now more) }
{
    let Some(mut object) = client.take(alloc) else {
        return NO_OBJECT;
    };
    let answer = object.give(circuit, bytes, more);
    client.put(alloc, object);
    answer
}

/// Reads the next message of a circuit.
#[unsafe(no_mangle)]
pub extern "C" fn cvz_client_step(
    alloc: Global,
    client: &mut CvzClient,
    circuit: u64,
    why: &mut u32,
) -> i32
    ensures call { Calls no_object client.old.value result client.new.value
        (λ s n t. DoesStep s n t circuit why.old why.new) }
    ensures kept { client.old.value ≡ None → why.new ≡ why.old }
{
    let Some(mut object) = client.take(alloc) else {
        return NO_OBJECT;
    };
    let answer = object.step(circuit, why);
    client.put(alloc, object);
    answer
}

/// A circuit was lost.
#[unsafe(no_mangle)]
pub extern "C" fn cvz_client_cut(alloc: Global, client: &mut CvzClient, circuit: u64) -> i32
    ensures { Calls no_object client.old.value result client.new.value
        (λ s n t. DoesCut s n t circuit) }
{
    let Some(mut object) = client.take(alloc) else {
        return NO_OBJECT;
    };
    let answer = object.cut(circuit);
    client.put(alloc, object);
    answer
}

/// Ends a circuit.
#[unsafe(no_mangle)]
pub extern "C" fn cvz_client_close(alloc: Global, client: &mut CvzClient, circuit: u64) -> i32
    ensures { Calls no_object client.old.value result client.new.value
        (λ s n t. DoesClose s n t circuit) }
{
    let Some(mut object) = client.take(alloc) else {
        return NO_OBJECT;
    };
    let answer = object.close(circuit);
    client.put(alloc, object);
    answer
}

/// Copies bytes that wait to be sent on a circuit, as many as there is room for, and says how many.
#[unsafe(no_mangle)]
pub extern "C" fn cvz_client_output(
    alloc: Global,
    client: &mut CvzClient,
    circuit: u64,
    room: &mut [u8],
) -> usize
    ensures call { Calls 0 client.old.value result client.new.value
        (λ s n t. DoesOutput s n t circuit room.old room.new) }
    ensures kept { client.old.value ≡ None → room.new ≡ room.old }
{
    let Some(object) = client.take(alloc) else {
        return 0;
    };
    let answer = object.output(circuit, room);
    client.put(alloc, object);
    answer
}

/// The first bytes that wait on a circuit were sent. Refused as OutOfRange if fewer wait.
#[unsafe(no_mangle)]
pub extern "C" fn cvz_client_sent(
    alloc: Global,
    client: &mut CvzClient,
    circuit: u64,
    count: usize,
) -> i32
    ensures { Calls no_object client.old.value result client.new.value
        (λ s n t. DoesSent s n t circuit count) }
{
    let Some(mut object) = client.take(alloc) else {
        return NO_OBJECT;
    };
    let answer = object.sent(circuit, count);
    client.put(alloc, object);
    answer
}

/// Hands over bytes that are left to be sent on the circuit that was told closed last.
#[unsafe(no_mangle)]
pub extern "C" fn cvz_client_left(alloc: Global, client: &mut CvzClient, room: &mut [u8]) -> usize
    ensures call { Calls 0 client.old.value result client.new.value
        (λ s n t. DoesLeft s n t room.old room.new) }
    ensures kept { client.old.value ≡ None → room.new ≡ room.old }
{
    let Some(mut object) = client.take(alloc) else {
        return 0;
    };
    let answer = object.left(room);
    client.put(alloc, object);
    answer
}

/// A moment. `cvz_client_search` has the searches that are due, and `cvz_client_ended` the circuits
/// that were silent too long.
#[unsafe(no_mangle)]
pub extern "C" fn cvz_client_tick(alloc: Global, client: &mut CvzClient, now: u64) -> i32
    ensures { Calls no_object client.old.value result client.new.value
        (λ s n t. DoesTick s n t now) }
{
    let Some(mut object) = client.take(alloc) else {
        return NO_OBJECT;
    };
    let answer = object.tick(now);
    client.put(alloc, object);
    answer
}

/// Hands over the next search, to be sent there, and says how long it is: 0 once there is none.
#[unsafe(no_mangle)]
pub extern "C" fn cvz_client_search(
    alloc: Global,
    client: &mut CvzClient,
    to: &mut CvzAddress,
    room: &mut [u8],
) -> usize
    ensures call { Calls 0 client.old.value result client.new.value
        (λ s n t. DoesSearch s n t to.old to.new room.old room.new) }
    ensures kept_to { client.old.value ≡ None → to.new ≡ to.old }
    ensures kept_room { client.old.value ≡ None → room.new ≡ room.old }
{
    let Some(mut object) = client.take(alloc) else {
        return 0;
    };
    let answer = object.search(to, room);
    client.put(alloc, object);
    answer
}

/// Hands over a circuit that the last tick ended, the last one first: 1, or 0 once there is none.
#[unsafe(no_mangle)]
pub extern "C" fn cvz_client_ended(alloc: Global, client: &mut CvzClient, circuit: &mut u64) -> i32
    ensures call { Calls no_object client.old.value result client.new.value
        (λ s n t. DoesEnded s n t circuit.old circuit.new) }
    ensures kept { client.old.value ≡ None → circuit.new ≡ circuit.old }
{
    let Some(mut object) = client.take(alloc) else {
        return NO_OBJECT;
    };
    let answer = object.ended(circuit);
    client.put(alloc, object);
    answer
}

/// Takes a datagram that came from there.
#[unsafe(no_mangle)]
pub extern "C" fn cvz_client_datagram(
    alloc: Global,
    client: &mut CvzClient,
    now: u64,
    from: &CvzAddress,
    bytes: &[u8],
) -> i32
    ensures { Calls no_object client.old.value result client.new.value
        (λ s n t. DoesDatagram s n t now from.now bytes.now) }
{
    let Some(mut object) = client.take(alloc) else {
        return NO_OBJECT;
    };
    let answer = object.datagram(now, *from, bytes);
    client.put(alloc, object);
    answer
}

/// Takes the next notice of the last call that reports: 1, or 0 once there is none.
#[unsafe(no_mangle)]
pub extern "C" fn cvz_client_next(
    alloc: Global,
    client: &mut CvzClient,
    told: &mut CvzNotice,
) -> i32
    ensures call { Calls no_object client.old.value result client.new.value
        (λ s n t. DoesNext s n t told.old told.new) }
    ensures kept { client.old.value ≡ None → told.new ≡ told.old }
{
    let Some(mut object) = client.take(alloc) else {
        return NO_OBJECT;
    };
    let answer = object.next(told);
    client.put(alloc, object);
    answer
}

/// Copies the image of the value of the notice that was taken last, in this type, and
/// says how long it is.
#[unsafe(no_mangle)]
pub extern "C" fn cvz_client_value(
    alloc: Global,
    client: &mut CvzClient,
    data_type: u16,
    room: &mut [u8],
    size: &mut usize,
) -> i32
    ensures call { Calls no_object client.old.value result client.new.value
        (λ s n t. DoesValue s n t data_type size.old size.new room.old room.new) }
    ensures kept_room { client.old.value ≡ None → room.new ≡ room.old }
    ensures kept_size { client.old.value ≡ None → size.new ≡ size.old }
{
    let Some(object) = client.take(alloc) else {
        return NO_OBJECT;
    };
    let answer = object.value(alloc, data_type, room, size);
    client.put(alloc, object);
    answer
}
