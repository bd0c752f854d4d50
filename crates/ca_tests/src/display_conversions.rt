//! Conversions between types by display data, as EPICS Base's server makes them, and the alarms of
//! values by limits.
use crate::display::{LIMITS, gain, state, text};
use ca_dbr::{BaseType, Display, Limits, Value};
use ca_display::{alarm_of, convert_display};
use ca_text::Refusal;
use std::alloc::Global;
use std::test::Fail;

/// Whether a text is this value in a type.
fn reads_as(alloc: Global, bytes: &[u8], display: &Display, to: &Value) -> Result<bool, Refusal> {
    let value = Value::Strings(vec![in alloc; text(bytes)]?);
    Ok(convert_display(alloc, &value, to.base_type(), display)? == *to)
}

/// Why a text is no element of a type.
fn refused(alloc: Global, bytes: &[u8], base: BaseType, display: &Display) -> Option<Refusal> {
    let value = match vec![in alloc; text(bytes)] {
        Err(_) => return Some(Refusal::OutOfMemory),
        Ok(items) => Value::Strings(items),
    };
    convert_display(alloc, &value, base, display).err()
}

// Texts as C's strtod and strtof read them. What these say is too large (ERANGE), a controller of
// EPICS Base refuses.
#[test]
fn texts_as_reals(rt: HostRuntime) -> Result<(), Fail> {
    let alloc = rt.alloc();
    let display = gain(alloc)?;
    for (bytes, bits) in [
        (b"2.75".as_slice(), 0x4006_0000_0000_0000),
        (b" -1.5e3 ", 0xc097_7000_0000_0000),
        (b"0.1", 0x3fb9_9999_9999_999a),
        (b"9007199254740993", 0x4340_0000_0000_0000),
        (b"1.7976931348623158e308", 0x7fef_ffff_ffff_ffff),
        (b"-inf", 0xfff0_0000_0000_0000),
    ] {
        let to = Value::Doubles(vec![in alloc; bits]?);
        assert!(rt; reads_as(alloc, bytes, &display, &to)?);
    }
    // By the DOUBLE nearest to this text, which is a half, it would be the even 0x3f800000.
    let to = Value::Floats(vec![in alloc; 0x3f80_0001]?);
    assert!(rt; reads_as(alloc, b"1.000000059604644775390626", &display, &to)?);
    let to = Value::Floats(vec![in alloc; 0xff80_0000]?);
    assert!(rt; reads_as(alloc, b"-infinity", &display, &to)?);
    assert!(rt; refused(alloc, b"1e39", BaseType::Float, &display) == Some(Refusal::BadText));
    for bytes in [
        b"".as_slice(),
        b" ",
        b"mA",
        b"1.5 mA",
        b"0x10",
        b"1 2",
        b"1e309",
        b"-1e400 ",
    ] {
        assert!(rt; refused(alloc, bytes, BaseType::Double, &display) == Some(Refusal::BadText));
        assert!(rt; refused(alloc, bytes, BaseType::Float, &display) == Some(Refusal::BadText));
        assert!(rt; refused(alloc, bytes, BaseType::Long, &display) == Some(Refusal::BadText));
    }
    Ok(())
}

// Towards zero, as C casts a DOUBLE, and refused where C leaves open what comes.
#[test]
fn texts_as_whole_numbers(rt: HostRuntime) -> Result<(), Fail> {
    let alloc = rt.alloc();
    let display = gain(alloc)?;
    for (bytes, number) in [
        (b"21".as_slice(), 21),
        (b"-2.75", -2),
        (b"1.5e3", 1500),
        (b"-0.9", 0),
        (b"2147483647.5", 2_147_483_647),
        (b"-2147483648.9", -2_147_483_648),
    ] {
        let to = Value::Longs(vec![in alloc; number]?);
        assert!(rt; reads_as(alloc, bytes, &display, &to)?);
    }
    let to = Value::Ints(vec![in alloc; -32768]?);
    assert!(rt; reads_as(alloc, b"-32768.5", &display, &to)?);
    let to = Value::Chars(vec![in alloc; 255]?);
    assert!(rt; reads_as(alloc, b"255.9", &display, &to)?);
    for (bytes, base) in [
        (b"2147483648".as_slice(), BaseType::Long),
        (b"1e30", BaseType::Long),
        (b"nan", BaseType::Long),
        (b"32768", BaseType::Int),
        (b"-1", BaseType::Char),
        (b"256", BaseType::Char),
        (b"65536", BaseType::Enum),
    ] {
        assert!(rt; refused(alloc, bytes, base, &display) == Some(Refusal::OutOfRange));
    }
    Ok(())
}

#[test]
fn numbers_in_other_types(rt: HostRuntime) -> Result<(), Fail> {
    let alloc = rt.alloc();
    let display = gain(alloc)?;
    // 16777217 is between two FLOATs, and the even one is below.
    let longs = Value::Longs(vec![in alloc; 16_777_217, -3]?);
    let to = Value::Floats(vec![in alloc; 0x4b80_0000, 0xc040_0000]?);
    assert!(rt; convert_display(alloc, &longs, BaseType::Float, &display)? == to);
    let to = Value::Doubles(vec![in alloc; 0x4170_0000_1000_0000, 0xc008_0000_0000_0000]?);
    assert!(rt; convert_display(alloc, &longs, BaseType::Double, &display)? == to);
    // -2.75, 0.1 and 1e300.
    let (low, tenth, far) = (
        0xc006_0000_0000_0000,
        0x3fb9_9999_9999_999a,
        0x7e37_e43c_8800_759c,
    );
    let doubles = Value::Doubles(vec![in alloc; low, tenth, far]?);
    let to = Value::Floats(vec![in alloc; 0xc030_0000, 0x3dcc_cccd, 0x7f80_0000]?);
    assert!(rt; convert_display(alloc, &doubles, BaseType::Float, &display)? == to);
    let result = convert_display(alloc, &doubles, BaseType::Long, &display);
    assert!(rt; result == Err(Refusal::OutOfRange));
    let doubles = Value::Doubles(vec![in alloc; low, tenth]?);
    let to = Value::Longs(vec![in alloc; -2, 0]?);
    assert!(rt; convert_display(alloc, &doubles, BaseType::Long, &display)? == to);
    let result = convert_display(alloc, &doubles, BaseType::Char, &display);
    assert!(rt; result == Err(Refusal::OutOfRange));
    let floats = Value::Floats(vec![in alloc; 0x4030_0000]?);
    let to = Value::Doubles(vec![in alloc; 0x4006_0000_0000_0000]?);
    assert!(rt; convert_display(alloc, &floats, BaseType::Double, &display)? == to);
    // The first element that does not convert decides.
    let mixed = Value::Strings(vec![in alloc; text(b"1e9"), text(b"1e10"), text(b"no")]?);
    let result = convert_display(alloc, &mixed, BaseType::Long, &display);
    assert!(rt; result == Err(Refusal::OutOfRange));
    Ok(())
}

// As an `mbbo` of EPICS Base with the same states; where it has no name for a state, the number.
#[test]
fn states_as_texts(rt: HostRuntime) -> Result<(), Fail> {
    let alloc = rt.alloc();
    let mut display = state(alloc)?;
    let enums = Value::Enums(vec![in alloc; 1, 0, 2, 3]?);
    let named = b"failed, but still running".as_slice();
    let texts = vec![in alloc; text(b"on"), text(b"off"), text(named), text(b"3")]?;
    let to = Value::Strings(texts);
    assert!(rt; convert_display(alloc, &enums, BaseType::String, &display)? == to);
    assert!(rt; convert_display(alloc, &to, BaseType::Enum, &display)? == enums);
    display.add_state(b"")?;
    display.add_state(b"on")?;
    assert!(rt; convert_display(alloc, &enums, BaseType::String, &display)? == to);
    let to = Value::Enums(vec![in alloc; 1]?);
    assert!(rt; reads_as(alloc, b"on", &display, &to)?);
    assert!(rt; reads_as(alloc, b"1", &display, &to)?);
    assert!(rt; refused(alloc, b"", BaseType::Enum, &display) == Some(Refusal::BadText));
    assert!(rt; refused(alloc, b"of", BaseType::Enum, &display) == Some(Refusal::BadText));
    let to = Value::Doubles(vec![in alloc; 0x4000_0000_0000_0000]?);
    let enums = Value::Enums(vec![in alloc; 2]?);
    assert!(rt; convert_display(alloc, &enums, BaseType::Double, &display)? == to);
    Ok(())
}

/// Whether a DOUBLE or FLOAT is this text, with this precision.
pub(crate) fn has_text(
    alloc: Global,
    value: &Value,
    precision: i16,
    bytes: &[u8],
) -> Result<bool, Refusal> {
    let display = Display::new(alloc, b"", precision, LIMITS)?;
    let to = Value::Strings(vec![in alloc; text(bytes)]?);
    Ok(convert_display(alloc, value, BaseType::String, &display)? == to)
}

// As `cvtDoubleToString` of EPICS Base 7.0.3.1 shows them: its digits are cut from products, so a
// half goes up, and 0.15, which is below it, goes up too.
#[test]
fn doubles_as_texts(rt: HostRuntime) -> Result<(), Fail> {
    let alloc = rt.alloc();
    for (bits, precision, bytes) in [
        (0x4006_0000_0000_0000, 3, b"2.750".as_slice()),
        (0x4006_0000_0000_0000, 0, b"3"),
        (0x4004_0000_0000_0000, 0, b"3"),
        (0x3fc0_0000_0000_0000, 2, b"0.13"),
        (0x4005_6666_6666_6666, 2, b"2.67"),
        (0x3fc3_3333_3333_3333, 1, b"0.2"),
        (0x8000_0000_0000_0000, 2, b"0.00"),
        (0xbf50_624d_d2f1_a9fc, 2, b"-0.00"),
        (0x3fd5_5555_5555_5555, 8, b"0.33333333"),
        (0x3fef_ffff_ff76_8fa1, 3, b"1.000"),
        (0x4058_fccc_cccc_cccd, 1, b"100.0"),
        (0xc132_d687_e51e_b851, 2, b"-1234567.89"),
        (0x4163_12cf_ffff_2e49, 3, b"10000000.000"),
        (0x4163_12d0_0000_0000, 3, b"10000000.000"),
    ] {
        let value = Value::Doubles(vec![in alloc; bits]?);
        assert!(rt; has_text(alloc, &value, precision, bytes)?);
    }
    Ok(())
}

// As `cvtFloatToString` shows them.
#[test]
fn floats_as_texts(rt: HostRuntime) -> Result<(), Fail> {
    let alloc = rt.alloc();
    for (bits, precision, bytes) in [
        (0x4030_0000, 3, b"2.750".as_slice()),
        (0x3eaa_aaab, 8, b"0.33333334"),
        (0x3dcc_cccd, 8, b"0.10000000"),
        (0x8000_0000, 3, b"0.000"),
        (0xbe00_0000, 2, b"-0.13"),
        (0x4020_0000, 0, b"3"),
        (0x4b18_967f, 8, b"9999999.00000000"),
        (0x4b18_9680, 2, b"10000000.00"),
    ] {
        let value = Value::Floats(vec![in alloc; bits]?);
        assert!(rt; has_text(alloc, &value, precision, bytes)?);
    }
    Ok(())
}

// By HIHI 90.5, HIGH 80.25, LOW -10.5 and LOLO -15.75, as the fields of an `ao` are described.
#[test]
fn alarms(rt: HostRuntime) -> Result<(), Fail> {
    let alloc = rt.alloc();
    for (bits, alarm) in [
        (0x4056_a000_0000_0000, (3, 2)),
        (0x4056_9000_0000_0000, (4, 1)),
        (0x4054_1000_0000_0000, (4, 1)),
        (0x4054_0000_0000_0000, (0, 0)),
        (0xc024_0000_0000_0000, (0, 0)),
        (0xc025_0000_0000_0000, (6, 1)),
        (0xc02f_0000_0000_0000, (6, 1)),
        (0xc02f_8000_0000_0000, (5, 2)),
        (0x7ff8_0000_0000_0000, (0, 0)),
    ] {
        let value = Value::Doubles(vec![in alloc; bits]?);
        assert!(rt; alarm_of(&LIMITS, &value) == alarm);
    }
    let value = Value::Longs(vec![in alloc; 91]?);
    assert!(rt; alarm_of(&LIMITS, &value) == (3, 2));
    // A record without limits, as an image of LONGs has it.
    assert!(rt; alarm_of(&Limits::ZERO, &value) == (0, 0));
    let value = Value::Chars(vec![in alloc; 81]?);
    assert!(rt; alarm_of(&LIMITS, &value) == (4, 1));
    let value = Value::Floats(vec![in alloc; 0xc180_0000]?);
    assert!(rt; alarm_of(&LIMITS, &value) == (5, 2));
    let value = Value::Ints(vec![in alloc; 91, 91]?);
    assert!(rt; alarm_of(&LIMITS, &value) == (0, 0));
    let value = Value::Enums(vec![in alloc; 91]?);
    assert!(rt; alarm_of(&LIMITS, &value) == (0, 0));
    Ok(())
}
