//! Rounds on the records of a server, of which one is found by its name: puts with their finish,
//! and posts.
use ca_arena::Handle;
use ca_dbr::{Meta, Value};
use ca_records::{Put, ServedRecords};
use ca_text::Refusal;
use std::alloc::{AllocError, Global};

/// The handle of the circuit and the channel on which the puts come.
const HANDLE: Handle = Handle {
    index: 0,
    generation: 1,
};

const PUT: Put = Put {
    circuit: HANDLE,
    channel: HANDLE,
    data_type: 5,
    count: 1,
    ioid: 0,
};

/// Rounds of a put with notification to one of n records, which is found by its name, and of the
/// put's finish.
pub fn puts(alloc: Global, count: u32, rounds: u32) -> Result<(), Refusal> {
    let mut served = served(alloc, count)?;
    let name = name_of(alloc, count / 2)?;
    for _ in 0..rounds {
        put(&mut served, name.as_bytes(), long(alloc)?)?;
        served.finish(name.as_bytes())?;
    }
    Ok(())
}

/// Rounds of a post to one of n records.
pub fn posts(alloc: Global, count: u32, rounds: u32) -> Result<(), Refusal> {
    let mut served = served(alloc, count)?;
    let name = name_of(alloc, count / 2)?;
    for _ in 0..rounds {
        served.post(name.as_bytes(), long(alloc)?, Meta::ZERO)?;
    }
    Ok(())
}

fn put(served: &mut ServedRecords, name: &[u8], value: Value) -> Result<(), Refusal> {
    let Some(place) = served.find(name) else {
        return Err(Refusal::UnknownRecord);
    };
    let limit = served.at(place).state().count() as usize;
    let count = value.count();
    if count == 0 || count > limit {
        return Err(Refusal::BadCount);
    }
    served.begin_write(place, Some(PUT), value)?;
    Ok(())
}

/// This many records of one LONG, on which puts take time.
fn served(alloc: Global, count: u32) -> Result<ServedRecords, Refusal> {
    let mut served = ServedRecords::new(alloc, Vec::new(alloc));
    for i in 0..count {
        served.add(name_of(alloc, i)?.as_bytes(), 1, true, long(alloc)?)?;
    }
    Ok(served)
}

fn name_of(alloc: Global, number: u32) -> Result<String, AllocError> {
    format!(in alloc; "beam:current:{number}")
}

fn long(alloc: Global) -> Result<Value, AllocError> {
    Ok(Value::Longs(vec![in alloc; 1; 1]?))
}
