//! What a record with display data sends. Every image here was recorded from an input/output
//! controller of EPICS Base 7.0.3.1, from an `ao` with PREC 3, EGU mA/s, HOPR 100.5, LOPR -20.25,
//! HIHI 90.5, HIGH 80.25, LOW -10.5, LOLO -15.75, DRVH 95.125, DRVL -18.0625 and VAL 2.75, and from
//! an `mbbo` of three states. Where C leaves bytes as they were (padding, and a text after its zero
//! byte), there are zero bytes in place of what came.
use ca_dbr::{Display, Limits, Meta, Value};
use ca_display::{display_size, read_display, write_display};
use ca_text::Refusal;
use std::alloc::Global;
use std::test::Fail;

pub(crate) const IMAGE_21: [u8; 44] = [
    0x00, 0x00, 0x00, 0x00, 0x32, 0x2e, 0x37, 0x35, 0x30, 0x00, 0x00, 0x00, 0x00, 0x00, 0x00, 0x00,
    0x00, 0x00, 0x00, 0x00, 0x00, 0x00, 0x00, 0x00, 0x00, 0x00, 0x00, 0x00, 0x00, 0x00, 0x00, 0x00,
    0x00, 0x00, 0x00, 0x00, 0x00, 0x00, 0x00, 0x00, 0x00, 0x00, 0x00, 0x00,
];

pub(crate) const IMAGE_22: [u8; 26] = [
    0x00, 0x00, 0x00, 0x00, 0x6d, 0x41, 0x2f, 0x73, 0x00, 0x00, 0x00, 0x00, 0x00, 0x64, 0xff, 0xec,
    0x00, 0x5a, 0x00, 0x50, 0xff, 0xf6, 0xff, 0xf1, 0x00, 0x02,
];

pub(crate) const IMAGE_23: [u8; 44] = [
    0x00, 0x00, 0x00, 0x00, 0x00, 0x03, 0x00, 0x00, 0x6d, 0x41, 0x2f, 0x73, 0x00, 0x00, 0x00, 0x00,
    0x42, 0xc9, 0x00, 0x00, 0xc1, 0xa2, 0x00, 0x00, 0x42, 0xb5, 0x00, 0x00, 0x42, 0xa0, 0x80, 0x00,
    0xc1, 0x28, 0x00, 0x00, 0xc1, 0x7c, 0x00, 0x00, 0x40, 0x30, 0x00, 0x00,
];

pub(crate) const IMAGE_25: [u8; 20] = [
    0x00, 0x00, 0x00, 0x00, 0x6d, 0x41, 0x2f, 0x73, 0x00, 0x00, 0x00, 0x00, 0x64, 0xec, 0x5a, 0x50,
    0xf6, 0xf1, 0x00, 0x02,
];

pub(crate) const IMAGE_26: [u8; 40] = [
    0x00, 0x00, 0x00, 0x00, 0x6d, 0x41, 0x2f, 0x73, 0x00, 0x00, 0x00, 0x00, 0x00, 0x00, 0x00, 0x64,
    0xff, 0xff, 0xff, 0xec, 0x00, 0x00, 0x00, 0x5a, 0x00, 0x00, 0x00, 0x50, 0xff, 0xff, 0xff, 0xf6,
    0xff, 0xff, 0xff, 0xf1, 0x00, 0x00, 0x00, 0x02,
];

pub(crate) const IMAGE_27: [u8; 72] = [
    0x00, 0x00, 0x00, 0x00, 0x00, 0x03, 0x00, 0x00, 0x6d, 0x41, 0x2f, 0x73, 0x00, 0x00, 0x00, 0x00,
    0x40, 0x59, 0x20, 0x00, 0x00, 0x00, 0x00, 0x00, 0xc0, 0x34, 0x40, 0x00, 0x00, 0x00, 0x00, 0x00,
    0x40, 0x56, 0xa0, 0x00, 0x00, 0x00, 0x00, 0x00, 0x40, 0x54, 0x10, 0x00, 0x00, 0x00, 0x00, 0x00,
    0xc0, 0x25, 0x00, 0x00, 0x00, 0x00, 0x00, 0x00, 0xc0, 0x2f, 0x80, 0x00, 0x00, 0x00, 0x00, 0x00,
    0x40, 0x06, 0x00, 0x00, 0x00, 0x00, 0x00, 0x00,
];

pub(crate) const IMAGE_28: [u8; 44] = [
    0x00, 0x00, 0x00, 0x00, 0x32, 0x2e, 0x37, 0x35, 0x30, 0x00, 0x00, 0x00, 0x00, 0x00, 0x00, 0x00,
    0x00, 0x00, 0x00, 0x00, 0x00, 0x00, 0x00, 0x00, 0x00, 0x00, 0x00, 0x00, 0x00, 0x00, 0x00, 0x00,
    0x00, 0x00, 0x00, 0x00, 0x00, 0x00, 0x00, 0x00, 0x00, 0x00, 0x00, 0x00,
];

pub(crate) const IMAGE_29: [u8; 30] = [
    0x00, 0x00, 0x00, 0x00, 0x6d, 0x41, 0x2f, 0x73, 0x00, 0x00, 0x00, 0x00, 0x00, 0x64, 0xff, 0xec,
    0x00, 0x5a, 0x00, 0x50, 0xff, 0xf6, 0xff, 0xf1, 0x00, 0x5f, 0xff, 0xee, 0x00, 0x02,
];

pub(crate) const IMAGE_30: [u8; 52] = [
    0x00, 0x00, 0x00, 0x00, 0x00, 0x03, 0x00, 0x00, 0x6d, 0x41, 0x2f, 0x73, 0x00, 0x00, 0x00, 0x00,
    0x42, 0xc9, 0x00, 0x00, 0xc1, 0xa2, 0x00, 0x00, 0x42, 0xb5, 0x00, 0x00, 0x42, 0xa0, 0x80, 0x00,
    0xc1, 0x28, 0x00, 0x00, 0xc1, 0x7c, 0x00, 0x00, 0x42, 0xbe, 0x40, 0x00, 0xc1, 0x90, 0x80, 0x00,
    0x40, 0x30, 0x00, 0x00,
];

pub(crate) const IMAGE_32: [u8; 22] = [
    0x00, 0x00, 0x00, 0x00, 0x6d, 0x41, 0x2f, 0x73, 0x00, 0x00, 0x00, 0x00, 0x64, 0xec, 0x5a, 0x50,
    0xf6, 0xf1, 0x5f, 0xee, 0x00, 0x02,
];

pub(crate) const IMAGE_33: [u8; 48] = [
    0x00, 0x00, 0x00, 0x00, 0x6d, 0x41, 0x2f, 0x73, 0x00, 0x00, 0x00, 0x00, 0x00, 0x00, 0x00, 0x64,
    0xff, 0xff, 0xff, 0xec, 0x00, 0x00, 0x00, 0x5a, 0x00, 0x00, 0x00, 0x50, 0xff, 0xff, 0xff, 0xf6,
    0xff, 0xff, 0xff, 0xf1, 0x00, 0x00, 0x00, 0x5f, 0xff, 0xff, 0xff, 0xee, 0x00, 0x00, 0x00, 0x02,
];

pub(crate) const IMAGE_34: [u8; 88] = [
    0x00, 0x00, 0x00, 0x00, 0x00, 0x03, 0x00, 0x00, 0x6d, 0x41, 0x2f, 0x73, 0x00, 0x00, 0x00, 0x00,
    0x40, 0x59, 0x20, 0x00, 0x00, 0x00, 0x00, 0x00, 0xc0, 0x34, 0x40, 0x00, 0x00, 0x00, 0x00, 0x00,
    0x40, 0x56, 0xa0, 0x00, 0x00, 0x00, 0x00, 0x00, 0x40, 0x54, 0x10, 0x00, 0x00, 0x00, 0x00, 0x00,
    0xc0, 0x25, 0x00, 0x00, 0x00, 0x00, 0x00, 0x00, 0xc0, 0x2f, 0x80, 0x00, 0x00, 0x00, 0x00, 0x00,
    0x40, 0x57, 0xc8, 0x00, 0x00, 0x00, 0x00, 0x00, 0xc0, 0x32, 0x10, 0x00, 0x00, 0x00, 0x00, 0x00,
    0x40, 0x06, 0x00, 0x00, 0x00, 0x00, 0x00, 0x00,
];

pub(crate) const LIMITS: Limits = Limits {
    upper_display: 0x4059_2000_0000_0000,
    lower_display: 0xc034_4000_0000_0000,
    upper_alarm: 0x4056_a000_0000_0000,
    upper_warning: 0x4054_1000_0000_0000,
    lower_warning: 0xc025_0000_0000_0000,
    lower_alarm: 0xc02f_8000_0000_0000,
    upper_control: 0x4057_c800_0000_0000,
    lower_control: 0xc032_1000_0000_0000,
};

/// The numbers above towards zero: 100, -20, 90, 80, -10, -15, 95 and -18.
const WHOLE: Limits = Limits {
    upper_display: 0x4059_0000_0000_0000,
    lower_display: 0xc034_0000_0000_0000,
    upper_alarm: 0x4056_8000_0000_0000,
    upper_warning: 0x4054_0000_0000_0000,
    lower_warning: 0xc024_0000_0000_0000,
    lower_alarm: 0xc02e_0000_0000_0000,
    upper_control: 0x4057_c000_0000_0000,
    lower_control: 0xc032_0000_0000_0000,
};

const ALARM: Meta = Meta {
    status: 7,
    severity: 1,
    ..Meta::ZERO
};

pub(crate) fn gain(alloc: Global) -> Result<Display, Refusal> {
    Display::new(alloc, b"mA/s", 3, LIMITS)
}

pub(crate) fn state(alloc: Global) -> Result<Display, Refusal> {
    let mut display = Display::new(alloc, b"", 0, Limits::ZERO)?;
    display.add_state(b"off")?;
    display.add_state(b"on")?;
    display.add_state(b"failed, but still running")?;
    Ok(display)
}

/// Whether this value has this image, with this display data.
fn has_image(
    alloc: Global,
    number: u16,
    value: &Value,
    meta: &Meta,
    display: &Display,
    image: &[u8],
) -> Result<bool, Refusal> {
    let mut bytes = Vec::new(alloc);
    write_display(number, 1, value, meta, display, &mut bytes)?;
    Ok(bytes.as_slice() == image && display_size(number, 1)? == image.len())
}

/// Whether this value is read of the image, with the limits of a graphic type or of a control type.
fn has_reading(
    alloc: Global,
    number: u16,
    image: &[u8],
    value: &Value,
    precision: i16,
    limits: Limits,
) -> Result<bool, Refusal> {
    let (again, meta, display) = read_display(alloc, number, 1, image)?;
    let limits = if number < 28 {
        Limits {
            upper_control: 0,
            lower_control: 0,
            ..limits
        }
    } else {
        limits
    };
    let is_display = display.precision == precision
        && display.limits == limits
        && display.units == *b"mA/s\0\0\0\0"
        && display.states.is_empty();
    Ok(is_display && again == *value && meta == Meta::ZERO)
}

#[test]
fn images_of_ints(rt: HostRuntime) -> Result<(), Fail> {
    let alloc = rt.alloc();
    let display = gain(alloc)?;
    let value = Value::Ints(vec![in alloc; 2]?);
    assert!(rt; has_image(alloc, 22, &value, &Meta::ZERO, &display, &IMAGE_22)?);
    assert!(rt; has_reading(alloc, 22, &IMAGE_22, &value, 0, WHOLE)?);
    assert!(rt; has_image(alloc, 29, &value, &Meta::ZERO, &display, &IMAGE_29)?);
    assert!(rt; has_reading(alloc, 29, &IMAGE_29, &value, 0, WHOLE)?);
    Ok(())
}

#[test]
fn images_of_floats(rt: HostRuntime) -> Result<(), Fail> {
    let alloc = rt.alloc();
    let display = gain(alloc)?;
    let value = Value::Floats(vec![in alloc; 0x4030_0000]?);
    assert!(rt; has_image(alloc, 23, &value, &Meta::ZERO, &display, &IMAGE_23)?);
    assert!(rt; has_reading(alloc, 23, &IMAGE_23, &value, 3, LIMITS)?);
    assert!(rt; has_image(alloc, 30, &value, &Meta::ZERO, &display, &IMAGE_30)?);
    assert!(rt; has_reading(alloc, 30, &IMAGE_30, &value, 3, LIMITS)?);
    Ok(())
}

#[test]
fn images_of_longs(rt: HostRuntime) -> Result<(), Fail> {
    let alloc = rt.alloc();
    let display = gain(alloc)?;
    let value = Value::Longs(vec![in alloc; 2]?);
    assert!(rt; has_image(alloc, 26, &value, &Meta::ZERO, &display, &IMAGE_26)?);
    assert!(rt; has_reading(alloc, 26, &IMAGE_26, &value, 0, WHOLE)?);
    assert!(rt; has_image(alloc, 33, &value, &Meta::ZERO, &display, &IMAGE_33)?);
    assert!(rt; has_reading(alloc, 33, &IMAGE_33, &value, 0, WHOLE)?);
    Ok(())
}

#[test]
fn images_of_doubles(rt: HostRuntime) -> Result<(), Fail> {
    let alloc = rt.alloc();
    let display = gain(alloc)?;
    let value = Value::Doubles(vec![in alloc; 0x4006_0000_0000_0000]?);
    assert!(rt; has_image(alloc, 27, &value, &Meta::ZERO, &display, &IMAGE_27)?);
    assert!(rt; has_reading(alloc, 27, &IMAGE_27, &value, 3, LIMITS)?);
    assert!(rt; has_image(alloc, 34, &value, &Meta::ZERO, &display, &IMAGE_34)?);
    assert!(rt; has_reading(alloc, 34, &IMAGE_34, &value, 3, LIMITS)?);
    Ok(())
}

// A CHAR has no number below zero: of -20 it has the low byte.
#[test]
fn images_of_chars(rt: HostRuntime) -> Result<(), Fail> {
    let alloc = rt.alloc();
    let display = gain(alloc)?;
    let value = Value::Chars(vec![in alloc; 2]?);
    assert!(rt; has_image(alloc, 25, &value, &Meta::ZERO, &display, &IMAGE_25)?);
    assert!(rt; has_image(alloc, 32, &value, &Meta::ZERO, &display, &IMAGE_32)?);
    let (again, _, low) = read_display(alloc, 25, 1, &IMAGE_25)?;
    assert!(rt; again == value && low.limits.lower_display == 0x406d_8000_0000_0000);
    Ok(())
}

#[test]
fn images_of_strings(rt: HostRuntime) -> Result<(), Fail> {
    let alloc = rt.alloc();
    let display = gain(alloc)?;
    let mut text = [0; 40];
    text[..5].copy_from_slice(b"2.750");
    let value = Value::Strings(vec![in alloc; text]?);
    assert!(rt; has_image(alloc, 21, &value, &Meta::ZERO, &display, &IMAGE_21)?);
    assert!(rt; has_image(alloc, 28, &value, &Meta::ZERO, &display, &IMAGE_28)?);
    let (again, _, none) = read_display(alloc, 28, 1, &IMAGE_28)?;
    assert!(rt; again == value && none == Display::new(alloc, b"", 0, Limits::ZERO)?);
    Ok(())
}

#[test]
fn images_of_enums(rt: HostRuntime) -> Result<(), Fail> {
    let alloc = rt.alloc();
    let display = state(alloc)?;
    let value = Value::Enums(vec![in alloc; 1]?);
    let mut image = [0; 424];
    image[..6].copy_from_slice(&[0, 7, 0, 1, 0, 3]);
    image[6..9].copy_from_slice(b"off");
    image[32..34].copy_from_slice(b"on");
    image[58..83].copy_from_slice(b"failed, but still running");
    image[423] = 1;
    assert!(rt; has_image(alloc, 24, &value, &ALARM, &display, &image)?);
    assert!(rt; has_image(alloc, 31, &value, &ALARM, &display, &image)?);
    assert!(rt; read_display(alloc, 31, 1, &image) == Ok((value, ALARM, display)));
    image[5] = 17;
    assert!(rt; read_display(alloc, 24, 1, &image) == Err(Refusal::BadCount));
    assert!(rt; read_display(alloc, 24, 1, &image[..421]) == Err(Refusal::Short));
    Ok(())
}

// A waveform: the elements are one after another, and what is missing is zero.
#[test]
fn images_of_rows(rt: HostRuntime) -> Result<(), Fail> {
    let alloc = rt.alloc();
    let display = gain(alloc)?;
    let value = Value::Ints(vec![in alloc; 1, 2, 3]?);
    let mut bytes = Vec::new(alloc);
    write_display(22, 5, &value, &Meta::ZERO, &display, &mut bytes)?;
    assert!(rt; bytes.starts_with(&IMAGE_22[..24]));
    assert!(rt; bytes.ends_with(&[0, 1, 0, 2, 0, 3, 0, 0, 0, 0]) && bytes.len() == 34);
    bytes.clear();
    write_display(22, 2, &value, &Meta::ZERO, &display, &mut bytes)?;
    assert!(rt; bytes.ends_with(&[0, 1, 0, 2]) && bytes.len() == 28);
    Ok(())
}

// One record, of a DOUBLE, as it is shown in each type: so its images were recorded.
#[test]
fn images_of_one_record(rt: HostRuntime) -> Result<(), Fail> {
    let alloc = rt.alloc();
    let display = gain(alloc)?;
    let value = Value::Doubles(vec![in alloc; 0x4006_0000_0000_0000]?);
    for (number, image) in [
        (21, IMAGE_21.as_slice()),
        (22, &IMAGE_22),
        (23, &IMAGE_23),
        (25, &IMAGE_25),
        (26, &IMAGE_26),
        (27, &IMAGE_27),
        (28, &IMAGE_28),
        (29, &IMAGE_29),
        (30, &IMAGE_30),
        (32, &IMAGE_32),
        (33, &IMAGE_33),
        (34, &IMAGE_34),
    ] {
        assert!(rt; has_image(alloc, number, &value, &Meta::ZERO, &display, image)?);
    }
    Ok(())
}

// The types without display data: plain, with status, and with a time stamp.
#[test]
fn images_without_display_data(rt: HostRuntime) -> Result<(), Fail> {
    let alloc = rt.alloc();
    let display = gain(alloc)?;
    let value = Value::Doubles(vec![in alloc; 0x4006_0000_0000_0000]?);
    let meta = Meta {
        seconds: 258,
        nanos: 3,
        ..ALARM
    };
    let mut plain = [0; 40];
    plain[..5].copy_from_slice(b"2.750");
    assert!(rt; has_image(alloc, 0, &value, &meta, &display, &plain)?);
    let double = [0x40, 0x06, 0, 0, 0, 0, 0, 0];
    assert!(rt; has_image(alloc, 6, &value, &meta, &display, &double)?);
    let status = [0, 7, 0, 1, 0, 0, 0, 2];
    assert!(rt; has_image(alloc, 12, &value, &meta, &display, &status)?);
    let time = [0, 7, 0, 1, 0, 0, 1, 2, 0, 0, 0, 3, 0, 0, 0, 2];
    assert!(rt; has_image(alloc, 15, &value, &meta, &display, &time)?);
    // Three elements are wanted, and two are there.
    let longs = Value::Longs(vec![in alloc; 1, -2]?);
    let mut bytes = Vec::new(alloc);
    write_display(1, 3, &longs, &meta, &display, &mut bytes)?;
    assert!(rt; bytes.ends_with(&[0, 1, 0xff, 0xfe, 0, 0]) && bytes.len() == 6);
    Ok(())
}

/// The text in a STRING.
pub(crate) fn text(bytes: &[u8]) -> [u8; 40] {
    let mut field = [0; 40];
    let size = bytes.len().min(40);
    field[..size].copy_from_slice(&bytes[..size]);
    field
}

#[test]
fn refusals(rt: HostRuntime) -> Result<(), Fail> {
    let alloc = rt.alloc();
    let value = Value::Longs(vec![in alloc; 2]?);
    let mut display = gain(alloc)?;
    let mut bytes = vec![in alloc; 9]?;
    for number in [35, 65535] {
        let result = write_display(number, 1, &value, &Meta::ZERO, &display, &mut bytes);
        assert!(rt; result == Err(Refusal::BadType));
        assert!(rt; display_size(number, 1) == Err(Refusal::BadType));
    }
    // 300 is no CHAR; as the second of two elements it does not matter to a read of one.
    let longs = Value::Longs(vec![in alloc; 2, 300]?);
    let result = write_display(25, 2, &longs, &Meta::ZERO, &display, &mut bytes);
    assert!(rt; result == Err(Refusal::OutOfRange));
    assert!(rt; bytes.ends_with(&[9]) && bytes.len() == 1);
    assert!(rt; has_image(alloc, 25, &longs, &Meta::ZERO, &display, &IMAGE_25)?);
    assert!(rt; Display::new(alloc, b"12345678", 0, LIMITS) == Err(Refusal::NameLength));
    assert!(rt; display.add_state(b"a name that is too long, by") == Err(Refusal::NameLength));
    for _ in 0..16 {
        display.add_state(b"")?;
    }
    assert!(rt; display.add_state(b"more") == Err(Refusal::BadCount));
    assert!(rt; read_display(alloc, 26, 1, &IMAGE_26[..39]) == Err(Refusal::Short));
    assert!(rt; read_display(alloc, 20, 1, &IMAGE_26) == Err(Refusal::BadType));
    Ok(())
}
