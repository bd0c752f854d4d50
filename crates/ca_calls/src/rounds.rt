//! Calls in rounds, for bench/client and bench/server, which time them: nothing is read from the
//! line between them, and nothing is answered. The circuits and channels are the first ones, in
//! turn: 0.1, 1.1 and so on.

use crate::words::Words;
use ca_arena::Handle;
use ca_client_core::{ClientCore, Stepped};
use ca_server_core::{CoreStep, ServerCore};
use ca_text::Refusal;
use std::alloc::Global;

/// The number of the type LONG.
const LONG: u16 = 5;

/// `reads CIRCUIT CHANNELS ROUNDS BYTES`: in each round, on each channel, a read of one LONG is
/// issued, sent and completed. The bytes are what is after the IOID in its reply.
pub fn reads(alloc: Global, core: &mut ClientCore, mut words: Words<'_>) -> Result<(), Refusal> {
    let circuit = words.handle()?;
    let channels = words.number16()?;
    let rounds = words.count()?;
    let value = words.bytes(alloc)?;
    for _ in 0..rounds {
        for index in 0..channels {
            read(core, circuit, first(index), &value)?;
        }
    }
    Ok(())
}

/// The header of a READ_NOTIFY of one LONG, up to its IOID.
const REPLY: [u8; 12] = *b"\0\x0F\0\x08\0\x05\0\x01\0\0\0\x01";

/// One read, issued and completed.
fn read(
    core: &mut ClientCore,
    circuit: Handle,
    channel: Handle,
    value: &[u8],
) -> Result<(), Refusal> {
    core.read(channel, LONG, 1)?;
    let mut ioid = [0u8; 4];
    if let Some(bytes) = core.out_bytes(circuit).get(12..16) {
        ioid.copy_from_slice(bytes);
    }
    core.sent(circuit, core.out_bytes(circuit).len());
    core.give(circuit, &REPLY, true)?;
    core.give(circuit, &ioid, true)?;
    core.give(circuit, value, false)?;
    match core.step(circuit) {
        Stepped::Notices(_) => Ok(()),
        _ => Err(Refusal::BadText),
    }
}

/// `ticks ROUNDS NOW`: n ticks at one moment.
pub fn ticks(core: &mut ClientCore, mut words: Words<'_>) -> Result<(), Refusal> {
    let rounds = words.count()?;
    let now = words.number()?;
    for _ in 0..rounds {
        core.tick(now)?;
    }
    Ok(())
}

/// `handles CIRCUITS ROUNDS BYTES`: in each round each circuit is given a message, handles it, and
/// sends what there is to be sent.
pub fn handles(alloc: Global, core: &mut ServerCore, mut words: Words<'_>) -> Result<(), Refusal> {
    let circuits = words.number16()?;
    let rounds = words.count()?;
    let message = words.bytes(alloc)?;
    for _ in 0..rounds {
        for index in 0..circuits {
            handle(core, first(index), &message)?;
        }
    }
    Ok(())
}

fn handle(core: &mut ServerCore, circuit: Handle, message: &[u8]) -> Result<(), Refusal> {
    core.give(circuit, message)?;
    let CoreStep::Handled(_) = core.step(circuit) else {
        return Err(Refusal::BadText);
    };
    send(core, circuit);
    Ok(())
}

/// `posts CIRCUITS ROUNDS NAME MASK TYPE COUNT BYTES`: in each round a record is posted to, and
/// each circuit sends its updates.
pub fn posts(alloc: Global, core: &mut ServerCore, mut words: Words<'_>) -> Result<(), Refusal> {
    let circuits = words.number16()?;
    let rounds = words.count()?;
    let name = words.word()?.as_bytes();
    let mask = words.number16()?;
    let (value, meta) = words.value(alloc)?;
    for _ in 0..rounds {
        core.post(name, value.copy(alloc)?, meta, mask)?;
        for index in 0..circuits {
            send(core, first(index));
        }
    }
    Ok(())
}

/// A circuit puts its updates into what is to be sent, and sends it.
fn send(core: &mut ServerCore, circuit: Handle) {
    core.pump(circuit);
    core.sent(circuit, core.out_bytes(circuit).len());
}

/// The first handle with this index.
fn first(index: u16) -> Handle {
    Handle {
        index,
        generation: 1,
    }
}
