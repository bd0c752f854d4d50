//! An arena drops each value once, and of 64 inserts only the first needs memory.
use ca_arena::{Arena, Handle};
use ca_text::Refusal;
use std::rc::Rc;
use std::test::Fail;

/// Inserts 130 values, which count their drops.
fn fill(arena: &mut Arena<Rc<u8>>, counted: &Rc<u8>) -> Result<(), Refusal> {
    for _ in 0..130 {
        if let Err((_, refusal)) = arena.insert(counted.clone()?) {
            return Err(refusal);
        }
    }
    Ok(())
}

/// Removes 40 of them.
fn thin(arena: &mut Arena<Rc<u8>>) -> Result<(), Refusal> {
    for index in 50..90 {
        arena.remove(Handle {
            index,
            generation: 1,
        })?;
    }
    Ok(())
}

#[test]
fn each_value_is_dropped_once(rt: HostRuntime) -> Result<(), Fail> {
    let counted = Rc::new(rt.alloc(), 0)?;
    let mut arena = Arena::new(rt.alloc());
    fill(&mut arena, &counted)?;
    assert!(rt; Rc::strong_count(&counted) == 131);
    thin(&mut arena)?;
    assert!(rt; Rc::strong_count(&counted) == 91);
    drop(arena);
    assert!(rt; Rc::strong_count(&counted) == 1);
    Ok(())
}

// Run it too with the Nth growth refused, for each N: `rt try --test --fail-alloc N`.
#[test]
fn only_the_first_of_64_inserts_grows(rt: HostRuntime) {
    let mut arena = Arena::new(rt.alloc());
    for value in 0..64u16 {
        let refused = arena.insert(value).is_err();
        assert!(rt; value == 0 || !refused);
    }
}
