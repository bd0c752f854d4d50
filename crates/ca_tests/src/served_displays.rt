//! What a server does with records that have display data: its reads and updates in each type, puts
//! that it converts, and display data that are set. The images are those of `display.rt`.
use crate::display::{
    IMAGE_21, IMAGE_22, IMAGE_23, IMAGE_25, IMAGE_26, IMAGE_27, IMAGE_28, IMAGE_29, IMAGE_30,
    IMAGE_32, IMAGE_33, IMAGE_34, gain, state, text,
};
use ca_arena::Handle;
use ca_dbr::{Display, Limits, Value};
use ca_records::Records;
use ca_server_core::ServerCore;
use ca_text::Refusal;
use std::alloc::Global;
use std::sync::Arc;
use std::test::Fail;

// A server of the record GAIN, with a channel to it, on a circuit.
#[derive(Drop)]
struct Served {
    core: ServerCore,
    circuit: Handle,
    sid: [u8; 4],
}

impl Served {
    fn new(alloc: Global, mut core: ServerCore) -> Result<Served, Fail> {
        let circuit = core.accept()?;
        let mut served = Served {
            core,
            circuit,
            sid: [0; 4],
        };
        let mut create = vec![in alloc; 0; 24]?;
        create[1] = 18;
        create[3] = 8;
        create[15] = 13;
        create[16..20].copy_from_slice(b"GAIN");
        let replies = served.answer(alloc, &create)?;
        served.sid.copy_from_slice(&replies[28..32]);
        Ok(served)
    }

    /// What it answers this message.
    fn answer(&mut self, alloc: Global, message: &[u8]) -> Result<Vec<u8>, Fail> {
        self.core.give(self.circuit, message)?;
        self.core.step(self.circuit);
        self.core.pump(self.circuit);
        let replies = Vec::from_slice(alloc, self.core.out_bytes(self.circuit))?;
        self.core.sent(self.circuit, replies.len());
        Ok(replies)
    }

    /// What it answers a READ_NOTIFY of one element in this type.
    fn read(&mut self, alloc: Global, number: u16) -> Result<Vec<u8>, Fail> {
        let mut read = vec![in alloc; 0; 16]?;
        read[1] = 15;
        read[5] = number as u8;
        read[7] = 1;
        read[8..12].copy_from_slice(&self.sid);
        read[15] = 9;
        self.answer(alloc, &read)
    }

    /// The status that it answers a WRITE_NOTIFY of one element of this type.
    fn put(&mut self, alloc: Global, number: u16, element: &[u8]) -> Result<u8, Fail> {
        Ok(self.write(alloc, number, element)?[11])
    }

    /// What it answers a WRITE_NOTIFY of one element of this type.
    fn write(&mut self, alloc: Global, number: u16, element: &[u8]) -> Result<Vec<u8>, Fail> {
        let size = element.len().next_multiple_of(8);
        let mut put = vec![in alloc; 0; 16 + size]?;
        put[1] = 19;
        put[3] = size as u8;
        put[5] = number as u8;
        put[7] = 1;
        put[8..12].copy_from_slice(&self.sid);
        put[15] = 9;
        put[16..16 + element.len()].copy_from_slice(element);
        self.answer(alloc, &put)
    }

    /// What it answers an EVENT_ADD for one element in this type, under an id that is its number.
    fn subscribe(&mut self, alloc: Global, number: u16) -> Result<Vec<u8>, Fail> {
        self.subscribe_to(alloc, number, 1)
    }

    /// What it answers an EVENT_ADD for what this mask selects.
    fn subscribe_to(&mut self, alloc: Global, number: u16, mask: u8) -> Result<Vec<u8>, Fail> {
        let mut add = vec![in alloc; 0; 32]?;
        add[1] = 1;
        add[3] = 16;
        add[5] = number as u8;
        add[7] = 1;
        add[8..12].copy_from_slice(&self.sid);
        add[15] = number as u8;
        add[29] = mask;
        self.answer(alloc, &add)
    }
}

// Whether these are one message, of this command, type and id, with this image and its padding.
fn is_shown(bytes: &[u8], command: u8, number: u16, id: u8, image: &[u8]) -> bool {
    let size = image.len().next_multiple_of(8);
    let head = [
        0,
        command,
        0,
        size as u8,
        0,
        number as u8,
        0,
        1,
        0,
        0,
        0,
        1,
        0,
        0,
        0,
        id,
    ];
    bytes.len() == 16 + size
        && bytes.starts_with(&head)
        && bytes[16..].starts_with(image)
        && bytes[16 + image.len()..].iter().all(|byte| *byte == 0)
}

// What a server's reads and updates show of that record.
#[test]
fn a_server_shows_each_type(rt: HostRuntime) -> Result<(), Fail> {
    let alloc = rt.alloc();
    let mut core = ServerCore::new(5_064, 0, &Records::new(alloc), Vec::new(alloc))?;
    let value = Value::Doubles(vec![in alloc; 0x4006_0000_0000_0000]?);
    let display = Arc::new(alloc, gain(alloc)?)?;
    core.add_displayed(b"GAIN", 1, false, value, display)?;
    let mut served = Served::new(alloc, core)?;
    for (number, image) in [
        (21, IMAGE_21.as_slice()),
        (22, &IMAGE_22),
        (23, &IMAGE_23),
        (25, &IMAGE_25),
        (26, &IMAGE_26),
        (27, &IMAGE_27),
        (28, &IMAGE_28),
        (29, &IMAGE_29),
        (30, &IMAGE_30),
        (32, &IMAGE_32),
        (33, &IMAGE_33),
        (34, &IMAGE_34),
        (0, &IMAGE_21[4..]),
        (3, &[0, 2]),
        (5, &[0, 0, 0, 2]),
        (6, &[0x40, 0x06, 0, 0, 0, 0, 0, 0]),
    ] {
        let reply = served.read(alloc, number)?;
        assert!(rt; is_shown(&reply, 15, number, 9, image));
        let update = served.subscribe(alloc, number)?;
        assert!(rt; is_shown(&update, 1, number, number as u8, image));
    }
    // There is no type 35.
    let refused = served.read(alloc, 35)?;
    assert!(rt; refused.len() == 16 && refused[11] == 114);
    Ok(())
}

// Puts of each type to a record of a DOUBLE: a number goes to the nearest, and a text is the number
// that it writes.
#[test]
fn a_server_converts_puts(rt: HostRuntime) -> Result<(), Fail> {
    let alloc = rt.alloc();
    let mut core = ServerCore::new(5_064, 0, &Records::new(alloc), Vec::new(alloc))?;
    let display = Arc::new(alloc, gain(alloc)?)?;
    core.add_displayed(
        b"GAIN",
        1,
        false,
        Value::Doubles(vec![in alloc; 0]?),
        display,
    )?;
    let mut served = Served::new(alloc, core)?;
    for (number, element, double) in [
        (0, b"2.75".as_slice(), [0x40, 0x06, 0, 0, 0, 0, 0, 0]),
        (1, &[0xff, 0xfe], [0xc0, 0, 0, 0, 0, 0, 0, 0]),
        (2, &[0x40, 0x30, 0, 0], [0x40, 0x06, 0, 0, 0, 0, 0, 0]),
        (3, &[0, 3], [0x40, 0x08, 0, 0, 0, 0, 0, 0]),
        (4, &[5], [0x40, 0x14, 0, 0, 0, 0, 0, 0]),
        (5, &[0, 0, 0, 2], [0x40, 0, 0, 0, 0, 0, 0, 0]),
        (
            6,
            &[0x3f, 0xf0, 0, 0, 0, 0, 0, 0],
            [0x3f, 0xf0, 0, 0, 0, 0, 0, 0],
        ),
    ] {
        assert!(rt; served.put(alloc, number, element)? == 1);
        assert!(rt; is_shown(&served.read(alloc, 6)?, 15, 6, 9, &double));
    }
    // A text that is no number is refused, and changes nothing.
    assert!(rt; served.put(alloc, 0, b"volts")? == 160);
    assert!(rt;
        is_shown(
            &served.read(alloc, 6)?,
            15,
            6,
            9,
            &[0x3f, 0xf0, 0, 0, 0, 0, 0, 0]
        )
    );
    Ok(())
}

// Puts to a record of states: by a state's name, by its number as a text, and by a DOUBLE.
#[test]
fn a_server_converts_puts_of_states(rt: HostRuntime) -> Result<(), Fail> {
    let alloc = rt.alloc();
    let mut core = ServerCore::new(5_064, 0, &Records::new(alloc), Vec::new(alloc))?;
    let display = Arc::new(alloc, state(alloc)?)?;
    core.add_displayed(b"GAIN", 1, false, Value::Enums(vec![in alloc; 0]?), display)?;
    let mut served = Served::new(alloc, core)?;
    for (number, element, state) in [
        (0, b"on".as_slice(), [0, 1]),
        (0, b"2", [0, 2]),
        (6, &[0, 0, 0, 0, 0, 0, 0, 0], [0, 0]),
        (6, &[0x3f, 0xf8, 0, 0, 0, 0, 0, 0], [0, 1]),
    ] {
        assert!(rt; served.put(alloc, number, element)? == 1);
        assert!(rt; is_shown(&served.read(alloc, 3)?, 15, 3, 9, &state));
    }
    assert!(rt; served.put(alloc, 0, b"off and on")? == 160);
    Ok(())
}

// Display data that are set: who subscribed to properties is told, and alone; the value stays, and
// a put that waits will be shown so too.
#[test]
fn a_server_sets_display_data(rt: HostRuntime) -> Result<(), Fail> {
    let alloc = rt.alloc();
    let mut core = ServerCore::new(5_064, 0, &Records::new(alloc), Vec::new(alloc))?;
    let value = Value::Doubles(vec![in alloc; 0x4006_0000_0000_0000]?);
    let plain = Arc::new(alloc, Display::new(alloc, b"", 0, Limits::ZERO)?)?;
    core.add_displayed(b"GAIN", 1, true, value, plain)?;
    let mut served = Served::new(alloc, core)?;
    served.subscribe_to(alloc, 34, 8)?;
    served.subscribe_to(alloc, 6, 7)?;
    let display = Arc::new(alloc, gain(alloc)?)?;
    served.core.set_display(b"GAIN", display)?;
    let update = served.answer(alloc, &[])?;
    assert!(rt; is_shown(&update, 1, 34, 34, &IMAGE_34));
    // The first put is applied, which the other subscription is told, and the second waits.
    let one = [0x3f, 0xf0, 0, 0, 0, 0, 0, 0];
    assert!(rt; is_shown(&served.write(alloc, 6, &one)?, 1, 6, 6, &one));
    assert!(rt; served.write(alloc, 6, &IMAGE_34[80..])?.is_empty());
    let display = Arc::new(alloc, state(alloc)?)?;
    served.core.set_display(b"GAIN", display)?;
    let display = Arc::new(alloc, gain(alloc)?)?;
    served.core.set_display(b"GAIN", display)?;
    served.answer(alloc, &[])?;
    served.core.finish(b"GAIN")?;
    served.answer(alloc, &[])?;
    assert!(rt; is_shown(&served.read(alloc, 34)?, 15, 34, 9, &IMAGE_34));
    let display = Arc::new(alloc, gain(alloc)?)?;
    let refused = served.core.set_display(b"NONE", display);
    assert!(rt; refused == Err(Refusal::UnknownRecord));
    Ok(())
}

// A record of states at a server.
#[test]
fn a_server_shows_states(rt: HostRuntime) -> Result<(), Fail> {
    let alloc = rt.alloc();
    let mut core = ServerCore::new(5_064, 0, &Records::new(alloc), Vec::new(alloc))?;
    let display = Arc::new(alloc, state(alloc)?)?;
    core.add_displayed(b"GAIN", 1, false, Value::Enums(vec![in alloc; 1]?), display)?;
    let mut served = Served::new(alloc, core)?;
    let text = served.read(alloc, 0)?;
    assert!(rt; text[16..].starts_with(b"on\0"));
    let graphic = served.read(alloc, 24)?;
    assert!(rt; graphic.len() == 16 + 424 && graphic[20..].starts_with(&[0, 3]));
    assert!(rt; graphic[22..].starts_with(b"off\0") && graphic[48..].starts_with(b"on\0"));
    assert!(rt; graphic[16 + 422..].starts_with(&[0, 1]));
    Ok(())
}

// A record without display data lacks the types that show some.
#[test]
fn a_server_refuses_types_that_a_record_lacks(rt: HostRuntime) -> Result<(), Fail> {
    let alloc = rt.alloc();
    let mut records = Records::new(alloc);
    records.define(b"GAIN", 1, false, Value::Longs(vec![in alloc; 2]?))?;
    let core = ServerCore::new(5_064, 0, &records, Vec::new(alloc))?;
    let mut served = Served::new(alloc, core)?;
    assert!(rt; is_shown(&served.read(alloc, 5)?, 15, 5, 9, &[0, 0, 0, 2]));
    for number in 21..36 {
        let refused = served.read(alloc, number)?;
        assert!(rt; refused.len() == 16 && refused[1] == 15 && refused[11] == 114);
        let refused = served.subscribe(alloc, number)?;
        // An ERROR with the header of its message.
        assert!(rt; refused[1] == 11 && refused[15] == 114 && refused[17] == 1);
    }
    Ok(())
}
