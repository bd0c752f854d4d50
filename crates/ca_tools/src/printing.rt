//! How a value is printed: a line of the name and the elements.
use ca_dbr::Value;
use ca_link::Sink;
use ca_text::Refusal;
use std::alloc::Global;
use std::fmt;
use std::fmt::Write;

// Calls of a sink, at most.
const CALLS: u64 = 1 << 62;

/// Prints a line: the name, and the elements of a value with a space before each. Whole numbers are
/// decimal, FLOAT and DOUBLE their bits in hexadecimal digits, and of a STRING the bytes before the
/// first zero are printed, each that is not in ASCII from space to tilde as a dot.
pub(crate) fn print_value<K: Sink>(
    alloc: Global,
    name: &str,
    value: &Value,
    sink: &mut K,
) -> Result<(), Refusal> {
    let mut line = String::new(alloc);
    match spell(&mut line, name, value) {
        Ok(()) => print(&line, sink),
        Err(_) => Err(Refusal::OutOfMemory),
    }
}

/// Prints the line that says that a put is done.
pub(crate) fn print_done<K: Sink>(alloc: Global, name: &str, sink: &mut K) -> Result<(), Refusal> {
    let mut line = String::new(alloc);
    match writeln!(line, "{name} done") {
        Ok(()) => print(&line, sink),
        Err(_) => Err(Refusal::OutOfMemory),
    }
}

// Refused as Device if the sink fails, or was called too often to count one call more.
fn print<K: Sink>(line: &String, sink: &mut K) -> Result<(), Refusal> {
    if sink.calls() >= CALLS || sink.faults() >= CALLS {
        return Err(Refusal::Device);
    }
    sink.write(line.as_bytes())?;
    Ok(())
}

fn spell(line: &mut String, name: &str, value: &Value) -> fmt::Result {
    line.write_str(name)?;
    match value {
        Value::Strings(items) => spell_texts(line, items)?,
        Value::Ints(items) => spell_all(line, items)?,
        Value::Enums(items) => spell_all(line, items)?,
        Value::Chars(items) => spell_all(line, items)?,
        Value::Longs(items) => spell_all(line, items)?,
        Value::Floats(items) => spell_floats(line, items)?,
        Value::Doubles(items) => spell_doubles(line, items)?,
    }
    line.write_str("\n")
}

fn spell_all<T: fmt::Display>(line: &mut String, items: &[T]) -> fmt::Result {
    for item in items {
        write!(line, " {item}")?;
    }
    Ok(())
}

fn spell_floats(line: &mut String, items: &[u32]) -> fmt::Result {
    for item in items {
        write!(line, " {item:08x}")?;
    }
    Ok(())
}

fn spell_doubles(line: &mut String, items: &[u64]) -> fmt::Result {
    for item in items {
        write!(line, " {item:016x}")?;
    }
    Ok(())
}

fn spell_texts(line: &mut String, items: &[[u8; 40]]) -> fmt::Result {
    for item in items {
        line.write_str(" ")?;
        spell_text(line, item.as_slice())?;
    }
    Ok(())
}

fn spell_text(line: &mut String, text: &[u8]) -> fmt::Result {
    for byte in text {
        if *byte == 0 {
            break;
        }
        let seen = match byte {
            0x20..=0x7E => char::from(*byte),
            _ => '.',
        };
        line.write_char(seen)?;
    }
    Ok(())
}
