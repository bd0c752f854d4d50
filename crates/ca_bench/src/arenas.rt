//! Rounds on an arena, and on a slab to compare it with, whose keys are used again.
use ca_arena::{Arena, Handle};
use ca_text::Refusal;
use slab::Slab;
use std::alloc::Global;

/// Rounds on an arena of n values: one at a random place is looked up, removed,
/// and another inserted.
pub fn arenas(alloc: Global, live: u32, rounds: u32) -> Result<(), Refusal> {
    let mut arena = Arena::new(alloc);
    let mut handles = Vec::new(alloc);
    for value in 0..live {
        handles.push(insert(&mut arena, u64::from(value))?)?;
    }
    let mut drawn = 1;
    for _ in 0..rounds {
        drawn = next(drawn);
        if let Some(handle) = handles.get_mut(place(drawn, live)) {
            *handle = renew(&mut arena, *handle)?;
        }
    }
    Ok(())
}

/// Rounds on a slab of n values, as `arenas` does them on an arena.
pub fn slabs(alloc: Global, live: u32, rounds: u32) -> Result<(), Refusal> {
    let mut slab = Slab::new(alloc);
    let mut keys = Vec::new(alloc);
    for value in 0..live {
        keys.push(put(&mut slab, u64::from(value))?)?;
    }
    let mut drawn = 1;
    for _ in 0..rounds {
        drawn = next(drawn);
        if let Some(key) = keys.get_mut(place(drawn, live)) {
            *key = replace(&mut slab, *key)?;
        }
    }
    Ok(())
}

// Each round is one call that is not inlined, here and on the slab: neither is kept in registers
// from round to round, as no caller keeps a table.
#[inline(never)]
fn renew(arena: &mut Arena<u64>, handle: Handle) -> Result<Handle, Refusal> {
    let seen = arena.get(handle).copied().unwrap_or(0);
    let value = arena.remove(handle)?;
    insert(arena, value.wrapping_add(seen).wrapping_add(1))
}

fn insert(arena: &mut Arena<u64>, value: u64) -> Result<Handle, Refusal> {
    match arena.insert(value) {
        Ok(handle) => Ok(handle),
        Err((_, refusal)) => Err(refusal),
    }
}

#[inline(never)]
fn replace(slab: &mut Slab<u64>, key: usize) -> Result<usize, Refusal> {
    let seen = slab.get(key).copied().unwrap_or(0);
    let Some(value) = slab.try_remove(key) else {
        return Err(Refusal::StaleHandle);
    };
    put(slab, value.wrapping_add(seen).wrapping_add(1))
}

fn put(slab: &mut Slab<u64>, value: u64) -> Result<usize, Refusal> {
    match slab.insert(value) {
        Ok(key) => Ok(key),
        Err(_) => Err(Refusal::OutOfMemory),
    }
}

/// The next number of a linear congruence.
fn next(drawn: u32) -> u32 {
    drawn.wrapping_mul(1_664_525).wrapping_add(1_013_904_223)
}

/// The place below n for a number that was drawn.
fn place(drawn: u32, live: u32) -> usize {
    (u64::from(drawn) * u64::from(live) >> 32) as usize
}
