//! Values: images of the greatest count of elements, in each type and form; and which of several
//! faults a conversion reports.
use ca_dbr::{BaseType, DataType, Form, Meta, Value, convert, image_size, read_value, write_value};
use ca_text::Refusal;
use std::alloc::Global;
use std::test::Fail;

/// The greatest count of elements.
const MOST: u32 = 262_144;

const META: Meta = Meta {
    status: 3,
    severity: 1,
    seconds: 0x0102_0304,
    nanos: 0x0a0b_0c0d,
};

/// What an image tells of META in the form of a status.
const ALARM: Meta = Meta {
    seconds: 0,
    nanos: 0,
    ..META
};

/// Forty bytes that begin with these.
fn text(front: &[u8]) -> [u8; 40] {
    let mut all = [0; 40];
    for (to, from) in all.iter_mut().zip(front) {
        *to = *from;
    }
    all
}

/// MOST elements of this type, each of these bytes.
fn elements(alloc: Global, base: BaseType, element: &[u8]) -> Result<Value, Refusal> {
    let mut plain = Vec::new(alloc);
    for _ in 0..MOST {
        plain.extend_from_slice(element)?;
    }
    let form = Form::Plain;
    let (value, _) = read_value(alloc, DataType { base, form }.number(), MOST, &plain)?;
    Ok(value)
}

/// Whether a value has an image in this form, which begins with these bytes, and from which it is
/// read again with this metadata.
fn has_image(
    alloc: Global,
    value: &Value,
    form: Form,
    front: &[u8],
    meta: &Meta,
) -> Result<bool, Refusal> {
    let base = value.base_type();
    let number = DataType { base, form }.number();
    let mut bytes = Vec::new(alloc);
    write_value(number, value, &META, &mut bytes)?;
    let is_sized = image_size(number, MOST) == Ok(bytes.len());
    let (again, with) = read_value(alloc, number, MOST, &bytes)?;
    Ok(is_sized && bytes.starts_with(front) && again == *value && with == *meta)
}

/// Whether MOST such elements have an image in each form. That of a form with metadata begins with
/// these bytes, its first element's among them.
fn has_images(
    alloc: Global,
    base: BaseType,
    element: &[u8],
    status: &[u8],
    time: &[u8],
) -> Result<bool, Refusal> {
    let value = elements(alloc, base, element)?;
    let plain = has_image(alloc, &value, Form::Plain, element, &Meta::ZERO)?;
    let status = has_image(alloc, &value, Form::Status, status, &ALARM)?;
    let time = has_image(alloc, &value, Form::Time, time, &META)?;
    Ok(plain && status && time)
}

// An element of each type but STRING, and what its images with status and with time begin with.
// The images of few elements are lines of tools/calls/by-hand.
const IMAGES: [(BaseType, &[u8], &[u8], &[u8]); 6] = [
    (
        BaseType::Int,
        b"\xff\xfe",
        b"\0\x03\0\x01\xff\xfe",
        b"\0\x03\0\x01\x01\x02\x03\x04\x0a\x0b\x0c\x0d\0\0\xff\xfe",
    ),
    (
        BaseType::Float,
        b"\x3f\x80\0\0",
        b"\0\x03\0\x01\x3f\x80\0\0",
        b"\0\x03\0\x01\x01\x02\x03\x04\x0a\x0b\x0c\x0d\x3f\x80\0\0",
    ),
    (
        BaseType::Enum,
        b"\x01\x02",
        b"\0\x03\0\x01\x01\x02",
        b"\0\x03\0\x01\x01\x02\x03\x04\x0a\x0b\x0c\x0d\0\0\x01\x02",
    ),
    (
        BaseType::Char,
        b"\xc8",
        b"\0\x03\0\x01\0\xc8",
        b"\0\x03\0\x01\x01\x02\x03\x04\x0a\x0b\x0c\x0d\0\0\0\xc8",
    ),
    (
        BaseType::Long,
        b"\xff\xff\xff\xfe",
        b"\0\x03\0\x01\xff\xff\xff\xfe",
        b"\0\x03\0\x01\x01\x02\x03\x04\x0a\x0b\x0c\x0d\xff\xff\xff\xfe",
    ),
    (
        BaseType::Double,
        b"\x3f\xf0\0\0\0\0\0\0",
        b"\0\x03\0\x01\0\0\0\0\x3f\xf0\0\0\0\0\0\0",
        b"\0\x03\0\x01\x01\x02\x03\x04\x0a\x0b\x0c\x0d\0\0\0\0\x3f\xf0\0\0\0\0\0\0",
    ),
];

#[test]
fn greatest_counts_have_images(rt: HostRuntime) -> Result<(), Fail> {
    let status = b"\0\x03\0\x01OK\0";
    let time = b"\0\x03\0\x01\x01\x02\x03\x04\x0a\x0b\x0c\x0dOK\0";
    assert!(rt; has_images(rt.alloc(), BaseType::String, &text(b"OK"), status, time)?);
    for (base, element, status, time) in IMAGES {
        assert!(rt; has_images(rt.alloc(), base, element, status, time)?);
    }
    Ok(())
}

/// Why a conversion of these texts, with a bar between them, to a type is refused, if it is.
fn fault(alloc: Global, texts: &str, number: u16) -> Result<Option<Refusal>, Refusal> {
    let mut elements = Vec::new(alloc);
    for front in texts.split("|") {
        elements.push(text(front.as_bytes()))?;
    }
    Ok(convert(alloc, &Value::Strings(elements), number).err())
}

// No status tells a text that is no number from a number that does not fit.
#[test]
fn first_fault_decides(rt: HostRuntime) -> Result<(), Fail> {
    let rows = [
        ("1|-2|007", 5, None),
        ("4x2|1|1", 5, Some(Refusal::BadText)),
        ("|1|1", 5, Some(Refusal::BadText)),
        ("   |1|1", 5, Some(Refusal::BadText)),
        ("-|1|1", 5, Some(Refusal::BadText)),
        ("+1|1|1", 5, Some(Refusal::BadText)),
        ("1 2|1|1", 5, Some(Refusal::BadText)),
        ("\t1|1|1", 5, Some(Refusal::BadText)),
        ("2147483648|1|1", 5, Some(Refusal::OutOfRange)),
        (
            "-9999999999999999999999999999999999999999|1|1",
            5,
            Some(Refusal::OutOfRange),
        ),
        ("1|70000|x", 1, Some(Refusal::OutOfRange)),
        ("1|x|70000", 1, Some(Refusal::BadText)),
        ("1|x|70000", 7, Some(Refusal::BadType)),
        ("1|x|70000", 6, Some(Refusal::NoConvert)),
    ];
    for (texts, number, refusal) in rows {
        assert!(rt; fault(rt.alloc(), texts, number)? == refusal, "at {texts}");
    }
    Ok(())
}
