//! A server keeps a new record at the place of one that was removed, if there is one, and a record
//! keeps its display data.
use ca_arena::Handle;
use ca_dbr::{Display, Limits, Meta, Value};
use ca_display::Held;
use ca_records::{Begun, Put, ServedRecords};
use ca_text::Refusal;
use std::alloc::Global;
use std::sync::Arc;
use std::test::Fail;

/// Adds a record of one LONG, and reports its place.
fn add(alloc: Global, served: &mut ServedRecords, name: &[u8]) -> Result<usize, Refusal> {
    served.add(name, 1, false, Value::Longs(vec![in alloc; 5; 1]?))
}

#[test]
fn a_place_that_became_free_is_taken_first(rt: HostRuntime) -> Result<(), Fail> {
    let mut served = ServedRecords::new(rt.alloc(), Vec::new(rt.alloc()));
    for (name, place) in [(b"TEMP".as_slice(), 0), (b"SLOW", 1)] {
        assert!(rt; add(rt.alloc(), &mut served, name) == Ok(place));
    }
    assert!(rt; served.remove(b"TEMP") == Ok(0));
    for (name, place) in [(b"A".as_slice(), 0), (b"B", 2)] {
        assert!(rt; add(rt.alloc(), &mut served, name) == Ok(place));
    }
    Ok(())
}

/// One LONG, with display data of one state.
fn shown(alloc: Global, number: i32) -> Result<Held, Refusal> {
    let mut display = Display::new(alloc, b"mA", 0, Limits::ZERO)?;
    display.add_state(b"off")?;
    let value = Value::Longs(vec![in alloc; number; 1]?);
    match Arc::new(alloc, display) {
        Ok(display) => Ok(Held::displayed(value, display)),
        Err(_) => Err(Refusal::OutOfMemory),
    }
}

/// Whether the record at this place holds this LONG, with display data of one state.
fn holds(served: &ServedRecords, place: usize, number: i32) -> bool {
    let held = served.at(place).state().held();
    let Some(display) = held.display() else {
        return false;
    };
    let Value::Longs(items) = held.value() else {
        return false;
    };
    display.states.len() == 1 && items.len() == 1 && items[0] == number
}

#[test]
fn writes_and_posts_leave_display_data(rt: HostRuntime) -> Result<(), Fail> {
    let alloc = rt.alloc();
    let mut served = ServedRecords::new(alloc, Vec::new(alloc));
    let place = served.add_held(b"TEMP", 1, true, shown(alloc, 1)?)?;
    assert!(rt; holds(&served, place, 1));
    // Read over the value, and converted.
    assert!(rt; served.write_one(place, false, 5, &[0, 0, 0, 2]));
    assert!(rt; holds(&served, place, 2));
    let begun = served.begin_write(place, None, Value::Ints(vec![in alloc; 3; 1]?))?;
    assert!(rt; begun == Begun::Applied(false));
    assert!(rt; holds(&served, place, 3));
    // A put that makes the record busy, and one that waits for its end.
    let handle = Handle {
        index: 0,
        generation: 1,
    };
    let put = Put {
        circuit: handle,
        channel: handle,
        data_type: 5,
        count: 1,
        ioid: 1,
    };
    let begun = served.begin_write(place, Some(put), Value::Longs(vec![in alloc; 4; 1]?))?;
    assert!(rt; begun == Begun::Applied(true));
    let begun = served.begin_write(place, Some(put), Value::Chars(vec![in alloc; 5; 1]?))?;
    assert!(rt; begun == Begun::Waiting);
    assert!(rt; holds(&served, place, 4));
    assert!(rt; served.finish_at(place).is_some());
    assert!(rt; holds(&served, place, 5));
    let posted = served.post(b"TEMP", Value::Longs(vec![in alloc; 6; 1]?), Meta::ZERO);
    assert!(rt; posted == Ok(place));
    assert!(rt; holds(&served, place, 6));
    let posted = served.post(b"TEMP", Value::Ints(vec![in alloc; 7; 1]?), Meta::ZERO);
    assert!(rt; posted == Err(Refusal::BadType));
    assert!(rt; holds(&served, place, 6));
    Ok(())
}
