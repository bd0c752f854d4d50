//! The server's exports.

ghost use Rattle.std.specs.Prelude.{◌≡◌, None, IfErr, IfOk};
ghost use Rattle.ca_script.specs.Grammar.{Refuses};
ghost use Rattle.ca_script.specs.RecordFiles.{SaysFile};
ghost use Rattle.ca_object.specs.Calling.{Calls};
ghost use Rattle.ca_c.specs.Answers.{no_object};
ghost use Rattle.ca_c.specs.Servers.{Begins, IsBegun, IsLoaded, Loads, DoesAccept, DoesAdd};
ghost use Rattle.ca_c.specs.Servers.{DoesAnswer, DoesApplied, DoesBeacon, DoesBusy, DoesCut};
ghost use Rattle.ca_c.specs.Servers.{DoesDatagram, DoesFinish, DoesFirst, DoesGive, DoesHost};
ghost use Rattle.ca_c.specs.Servers.{DoesLeft, DoesName, DoesOutput, DoesPost, DoesPump};
ghost use Rattle.ca_c.specs.Servers.{DoesRemove, DoesSent, DoesSetDisplay, DoesStamp, DoesStep};
ghost use Rattle.ca_c.specs.Servers.{DoesUser, DoesValue, DoesWaiting};

use crate::answers::{NO_OBJECT, refused};
use crate::cvz_server::CvzServer;
use crate::server_object::ServerObject;
use crate::step::CvzStep;
use ca_records::{Records, Rule};
use ca_script::{RecordFile, read_records};
use ca_server_core::ServerCore;
use ca_text::Refusal;
use ca_wire::Pipe;
use std::alloc::{AllocError, Global};

/// Makes a server of this TCP port that begins at this moment, with no record. One that the struct
/// had is freed. Refused as OutOfMemory: then the struct has what it had.
#[unsafe(no_mangle)]
pub extern "C" fn cvz_server_new(alloc: Global, server: &mut CvzServer, port: u16, now: u64) -> i32
    ensures { Begins port now result server.old.value server.new.value }
{
    let records = Records::new(alloc);
    match begun(alloc, port, now, &records, Vec::new(alloc)) {
        Ok(object) => {
            server.put(alloc, object);
            0
        }
        Err(_) => refused(Refusal::OutOfMemory),
    }
}

/// Makes a server with the records and the rules of access that the text of a record file says. One
/// that the struct had is freed. Refused as BadText if a line is not understood, or as OutOfMemory:
/// then the struct has what it had.
#[unsafe(no_mangle)]
pub extern "C" fn cvz_server_load(
    alloc: Global,
    server: &mut CvzServer,
    port: u16,
    now: u64,
    text: &[u8],
) -> i32
    ensures { Loads port now text.now result server.old.value server.new.value }
{
    match loaded(alloc, port, now, text) {
        Ok(object) => {
            server.put(alloc, object);
            0
        }
        Err(refusal) => refused(refusal),
    }
}

fn loaded(
    alloc: Global,
    port: u16,
    now: u64,
    text: &[u8],
) -> Result<Box<ServerObject, Global>, Refusal>
    ensures ok { IfOk result (λ b. IsLoaded port now text.now b.value) }
    ensures err { IfErr result (Refuses (SaysFile text.now)) }
{
    let RecordFile { records, rules } = read_records(alloc, text)?;
    Ok(begun(alloc, port, now, &records, rules)?)
}

fn begun(
    alloc: Global,
    port: u16,
    now: u64,
    records: &Records,
    rules: Vec<Rule>,
) -> Result<Box<ServerObject, Global>, AllocError>
    ensures { IfOk result (λ b. IsBegun port now rules.items records.now b.value) }
{
    let core = ServerCore::new(port, now, records, rules)?;
    let object = ServerObject {
        core,
        left: Pipe::new(alloc),
        answers: Vec::new(alloc),
        taken: 0,
    };
    match Box::new(alloc, object) {
        Ok(made) => Ok(made),
        Err(_) => Err(AllocError),
    }
}

/// Frees the server, if there is one.
#[unsafe(no_mangle)]
pub extern "C" fn cvz_server_free(alloc: Global, server: &mut CvzServer)
    ensures { server.new.value ≡ None }
{
    let _ = server.take(alloc);
}

/// Opens the end of a circuit that was accepted, and writes its handle. Refused as ArenaFull,
/// then as OutOfMemory.
#[unsafe(no_mangle)]
pub extern "C" fn cvz_server_accept(alloc: Global, server: &mut CvzServer, circuit: &mut u64) -> i32
    ensures call { Calls no_object server.old.value result server.new.value
        (λ s n t. DoesAccept s n t circuit.old circuit.new) }
    ensures kept { server.old.value ≡ None → circuit.new ≡ circuit.old }
{
    let Some(mut object) = server.take(alloc) else {
        return NO_OBJECT;
    };
    let answer = object.accept(circuit);
    server.put(alloc, object);
    answer
}

/// Takes bytes that came on a circuit. Refused as CircuitClosed if its end is not open,
/// then as OutOfMemory.
#[unsafe(no_mangle)]
pub extern "C" fn cvz_server_give(
    alloc: Global,
    server: &mut CvzServer,
    circuit: u64,
    bytes: &[u8],
) -> i32
    ensures { Calls no_object server.old.value result server.new.value
        (λ s n t. DoesGive s n t circuit bytes.now) }
{
    let Some(mut object) = server.take(alloc) else {
        return NO_OBJECT;
    };
    let answer = object.give(circuit, bytes);
    server.put(alloc, object);
    answer
}

/// Handles the next message of a circuit, and says what it did.
#[unsafe(no_mangle)]
pub extern "C" fn cvz_server_step(
    alloc: Global,
    server: &mut CvzServer,
    circuit: u64,
    told: &mut CvzStep,
) -> i32
    ensures call { Calls no_object server.old.value result server.new.value
        (λ s n t. DoesStep s n t circuit told.new) }
    ensures kept { server.old.value ≡ None → told.new ≡ told.old }
{
    let Some(mut object) = server.take(alloc) else {
        return NO_OBJECT;
    };
    let answer = object.step(circuit, told);
    server.put(alloc, object);
    answer
}

/// Puts updates that wait on a circuit after what waits to be sent.
#[unsafe(no_mangle)]
pub extern "C" fn cvz_server_pump(alloc: Global, server: &mut CvzServer, circuit: u64) -> i32
    ensures { Calls no_object server.old.value result server.new.value
        (λ s n t. DoesPump s n t circuit) }
{
    let Some(mut object) = server.take(alloc) else {
        return NO_OBJECT;
    };
    let answer = object.pump(circuit);
    server.put(alloc, object);
    answer
}

/// Copies bytes that wait to be sent on a circuit, as many as there is room for, and says how many.
/// They wait until `cvz_server_sent`.
#[unsafe(no_mangle)]
pub extern "C" fn cvz_server_output(
    alloc: Global,
    server: &mut CvzServer,
    circuit: u64,
    room: &mut [u8],
) -> usize
    ensures call { Calls 0 server.old.value result server.new.value
        (λ s n t. DoesOutput s n t circuit room.old room.new) }
    ensures kept { server.old.value ≡ None → room.new ≡ room.old }
{
    let Some(object) = server.take(alloc) else {
        return 0;
    };
    let answer = object.output(circuit, room);
    server.put(alloc, object);
    answer
}

/// The first bytes that wait on a circuit were sent. Refused as OutOfRange if fewer wait.
#[unsafe(no_mangle)]
pub extern "C" fn cvz_server_sent(
    alloc: Global,
    server: &mut CvzServer,
    circuit: u64,
    count: usize,
) -> i32
    ensures { Calls no_object server.old.value result server.new.value
        (λ s n t. DoesSent s n t circuit count) }
{
    let Some(mut object) = server.take(alloc) else {
        return NO_OBJECT;
    };
    let answer = object.sent(circuit, count);
    server.put(alloc, object);
    answer
}

/// Hands over bytes that are left to be sent on the circuit that a step told closed last.
#[unsafe(no_mangle)]
pub extern "C" fn cvz_server_left(alloc: Global, server: &mut CvzServer, room: &mut [u8]) -> usize
    ensures call { Calls 0 server.old.value result server.new.value
        (λ s n t. DoesLeft s n t room.old room.new) }
    ensures kept { server.old.value ≡ None → room.new ≡ room.old }
{
    let Some(mut object) = server.take(alloc) else {
        return 0;
    };
    let answer = object.left(room);
    server.put(alloc, object);
    answer
}

/// The caller cuts a circuit. A step says that it has closed.
#[unsafe(no_mangle)]
pub extern "C" fn cvz_server_cut(alloc: Global, server: &mut CvzServer, circuit: u64) -> i32
    ensures { Calls no_object server.old.value result server.new.value
        (λ s n t. DoesCut s n t circuit) }
{
    let Some(mut object) = server.take(alloc) else {
        return NO_OBJECT;
    };
    let answer = object.cut(circuit);
    server.put(alloc, object);
    answer
}

/// Writes that are applied from now on have this time stamp.
#[unsafe(no_mangle)]
pub extern "C" fn cvz_server_stamp(
    alloc: Global,
    server: &mut CvzServer,
    seconds: u32,
    nanos: u32,
) -> i32
    ensures { Calls no_object server.old.value result server.new.value
        (λ s n t. DoesStamp s n t seconds nanos) }
{
    let Some(mut object) = server.take(alloc) else {
        return NO_OBJECT;
    };
    let answer = object.stamp(seconds, nanos);
    server.put(alloc, object);
    answer
}

/// Serves one more record. Its value is an image of this type and count; one of a type with display
/// data gives the record those, too.
#[unsafe(no_mangle)]
pub extern "C" fn cvz_server_add(
    alloc: Global,
    server: &mut CvzServer,
    name: &[u8],
    greatest: u32,
    slow: bool,
    number: u16,
    count: u32,
    image: &[u8],
) -> i32
    ensures { Calls no_object server.old.value result server.new.value
        (λ s n t. DoesAdd s n t name.now greatest slow number count image.now) }
{
    let Some(mut object) = server.take(alloc) else {
        return NO_OBJECT;
    };
    let answer = object.add(alloc, name, greatest, slow, number, count, image);
    server.put(alloc, object);
    answer
}

/// Stops serving a record.
#[unsafe(no_mangle)]
pub extern "C" fn cvz_server_remove(alloc: Global, server: &mut CvzServer, name: &[u8]) -> i32
    ensures { Calls no_object server.old.value result server.new.value
        (λ s n t. DoesRemove s n t name.now) }
{
    let Some(mut object) = server.take(alloc) else {
        return NO_OBJECT;
    };
    let answer = object.remove(name);
    server.put(alloc, object);
    answer
}

/// A record has this value from now on, and it reaches all subscriptions whose mask shares
/// a bit with this one.
#[unsafe(no_mangle)]
pub extern "C" fn cvz_server_post(
    alloc: Global,
    server: &mut CvzServer,
    name: &[u8],
    mask: u16,
    number: u16,
    count: u32,
    image: &[u8],
) -> i32
    ensures { Calls no_object server.old.value result server.new.value
        (λ s n t. DoesPost s n t name.now mask number count image.now) }
{
    let Some(mut object) = server.take(alloc) else {
        return NO_OBJECT;
    };
    let answer = object.post(alloc, name, mask, number, count, image);
    server.put(alloc, object);
    answer
}

/// A record is shown by the display data of this image from now on, and its value reaches all
/// subscriptions whose mask has the bit PROPERTY.
#[unsafe(no_mangle)]
pub extern "C" fn cvz_server_set_display(
    alloc: Global,
    server: &mut CvzServer,
    name: &[u8],
    number: u16,
    count: u32,
    image: &[u8],
) -> i32
    ensures { Calls no_object server.old.value result server.new.value
        (λ s n t. DoesSetDisplay s n t name.now number count image.now) }
{
    let Some(mut object) = server.take(alloc) else {
        return NO_OBJECT;
    };
    let answer = object.set_display(alloc, name, number, count, image);
    server.put(alloc, object);
    answer
}

/// Finishes the busy put of a record.
#[unsafe(no_mangle)]
pub extern "C" fn cvz_server_finish(alloc: Global, server: &mut CvzServer, name: &[u8]) -> i32
    ensures { Calls no_object server.old.value result server.new.value
        (λ s n t. DoesFinish s n t name.now) }
{
    let Some(mut object) = server.take(alloc) else {
        return NO_OBJECT;
    };
    let answer = object.finish(name);
    server.put(alloc, object);
    answer
}

/// Copies the image of the value for which a put makes the record busy, in the record's own type,
/// and writes how long it is. Refused as NotBusy if no put does.
#[unsafe(no_mangle)]
pub extern "C" fn cvz_server_busy(
    alloc: Global,
    server: &mut CvzServer,
    name: &[u8],
    room: &mut [u8],
    size: &mut usize,
) -> i32
    ensures call { Calls no_object server.old.value result server.new.value
        (λ s n t. DoesBusy s n t name.now size.old size.new room.old room.new) }
    ensures kept_room { server.old.value ≡ None → room.new ≡ room.old }
    ensures kept_size { server.old.value ≡ None → size.new ≡ size.old }
{
    let Some(object) = server.take(alloc) else {
        return NO_OBJECT;
    };
    let answer = object.busy(alloc, name, room, size);
    server.put(alloc, object);
    answer
}

/// Copies the image of the record's value in this type, its own or that with status or with a time
/// stamp too, and writes its count and how long that is. Refused as UnknownRecord, as BadType,
/// then as OutOfMemory.
#[unsafe(no_mangle)]
pub extern "C" fn cvz_server_value(
    alloc: Global,
    server: &mut CvzServer,
    name: &[u8],
    number: u16,
    count: &mut u32,
    room: &mut [u8],
    size: &mut usize,
) -> i32
    ensures call { Calls no_object server.old.value result server.new.value
        (λ s n t.
        DoesValue s n t name.now number count.old count.new size.old size.new room.old room.new) }
    ensures kept_count { server.old.value ≡ None → count.new ≡ count.old }
    ensures kept_room { server.old.value ≡ None → room.new ≡ room.old }
    ensures kept_size { server.old.value ≡ None → size.new ≡ size.old }
{
    let Some(object) = server.take(alloc) else {
        return NO_OBJECT;
    };
    let answer = object.value(alloc, name, number, count, room, size);
    server.put(alloc, object);
    answer
}

/// Writes the circuit of the put that waits longest for the record, which `cvz_server_finish`
/// applies next: 1, or 0 if none waits.
#[unsafe(no_mangle)]
pub extern "C" fn cvz_server_first(
    alloc: Global,
    server: &mut CvzServer,
    name: &[u8],
    circuit: &mut u64,
) -> i32
    ensures call { Calls no_object server.old.value result server.new.value
        (λ s n t. DoesFirst s n t name.now circuit.old circuit.new) }
    ensures kept { server.old.value ≡ None → circuit.new ≡ circuit.old }
{
    let Some(object) = server.take(alloc) else {
        return NO_OBJECT;
    };
    let answer = object.first(name, circuit);
    server.put(alloc, object);
    answer
}

/// Takes a datagram. `cvz_server_answer` has the datagrams that answer it. Refused as OutOfMemory.
#[unsafe(no_mangle)]
pub extern "C" fn cvz_server_datagram(alloc: Global, server: &mut CvzServer, bytes: &[u8]) -> i32
    ensures { Calls no_object server.old.value result server.new.value
        (λ s n t. DoesDatagram s n t bytes.now) }
{
    let Some(mut object) = server.take(alloc) else {
        return NO_OBJECT;
    };
    let answer = object.datagram(bytes);
    server.put(alloc, object);
    answer
}

/// Hands over the next of the datagrams that answer, and says how long it is: 0 once there is none.
#[unsafe(no_mangle)]
pub extern "C" fn cvz_server_answer(alloc: Global, server: &mut CvzServer, room: &mut [u8]) -> usize
    ensures call { Calls 0 server.old.value result server.new.value
        (λ s n t. DoesAnswer s n t room.old room.new) }
    ensures kept { server.old.value ≡ None → room.new ≡ room.old }
{
    let Some(mut object) = server.take(alloc) else {
        return 0;
    };
    let answer = object.answer(room);
    server.put(alloc, object);
    answer
}

/// The beacon that is due at this moment, once: 16 bytes, or 0 if none is due.
#[unsafe(no_mangle)]
pub extern "C" fn cvz_server_beacon(
    alloc: Global,
    server: &mut CvzServer,
    now: u64,
    room: &mut [u8],
) -> usize
    ensures call { Calls 0 server.old.value result server.new.value
        (λ s n t. DoesBeacon s n t now room.old room.new) }
    ensures kept { server.old.value ≡ None → room.new ≡ room.old }
{
    let Some(mut object) = server.take(alloc) else {
        return 0;
    };
    let answer = object.beacon(now, room);
    server.put(alloc, object);
    answer
}

/// How many writes were applied.
#[unsafe(no_mangle)]
pub extern "C" fn cvz_server_applied(alloc: Global, server: &mut CvzServer) -> u64
    ensures { Calls 0 server.old.value result server.new.value
        (λ s n t. DoesApplied s n t) }
{
    let Some(object) = server.take(alloc) else {
        return 0;
    };
    let answer = object.applied();
    server.put(alloc, object);
    answer
}

/// How many puts wait.
#[unsafe(no_mangle)]
pub extern "C" fn cvz_server_waiting(alloc: Global, server: &mut CvzServer) -> u64
    ensures { Calls 0 server.old.value result server.new.value
        (λ s n t. DoesWaiting s n t) }
{
    let Some(object) = server.take(alloc) else {
        return 0;
    };
    let answer = object.waiting();
    server.put(alloc, object);
    answer
}

/// The name of the record of the open channel of this SID on a circuit, and how long it
/// is: 0 if there is none.
#[unsafe(no_mangle)]
pub extern "C" fn cvz_server_name(
    alloc: Global,
    server: &mut CvzServer,
    circuit: u64,
    sid: u32,
    room: &mut [u8],
) -> usize
    ensures call { Calls 0 server.old.value result server.new.value
        (λ s n t. DoesName s n t circuit sid room.old room.new) }
    ensures kept { server.old.value ≡ None → room.new ≡ room.old }
{
    let Some(object) = server.take(alloc) else {
        return 0;
    };
    let answer = object.name(circuit, sid, room);
    server.put(alloc, object);
    answer
}

/// The user's name that the client on a circuit gave: copies it, as far as there is room for it,
/// and says how long it is: 0 if there is none.
#[unsafe(no_mangle)]
pub extern "C" fn cvz_server_user(
    alloc: Global,
    server: &mut CvzServer,
    circuit: u64,
    room: &mut [u8],
) -> usize
    ensures call { Calls 0 server.old.value result server.new.value
        (λ s n t. DoesUser s n t circuit room.old room.new) }
    ensures kept { server.old.value ≡ None → room.new ≡ room.old }
{
    let Some(object) = server.take(alloc) else {
        return 0;
    };
    let answer = object.user(circuit, room);
    server.put(alloc, object);
    answer
}

/// The host's name that the client on a circuit gave: copies it, as far as there is room for it,
/// and says how long it is: 0 if there is none.
#[unsafe(no_mangle)]
pub extern "C" fn cvz_server_host(
    alloc: Global,
    server: &mut CvzServer,
    circuit: u64,
    room: &mut [u8],
) -> usize
    ensures call { Calls 0 server.old.value result server.new.value
        (λ s n t. DoesHost s n t circuit room.old room.new) }
    ensures kept { server.old.value ≡ None → room.new ≡ room.old }
{
    let Some(object) = server.take(alloc) else {
        return 0;
    };
    let answer = object.host(circuit, room);
    server.put(alloc, object);
    answer
}
