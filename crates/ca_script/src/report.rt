//! Parts of a report's lines: what became of a request, with a value in hexadecimal digits, and the
//! last line, which gives the number of events.
ghost use Rattle.std.specs.Prelude.{◌≡◌, ◌++◌, IfErr, OnOk, codes, decimal};
ghost use Rattle.hex.specs.Hex.{encode_lower};
ghost use Rattle.ca_text.specs.declared.refusal.Refusal.TheVariants.{OutOfMemory};
ghost use Rattle.ca_dbr.specs.Elements.{bytes_of, elements};
ghost use Rattle.ca_script.specs.Report.{counted, end_text, outcome_text, value_text};

use ca_dbr::{Meta, Outcome, Value, write_value};
use ca_text::Refusal;
use itoa::Buffer;

/// Writes the last line of a report: how many events were done. Refused as OutOfMemory; the
/// text is then as before.
pub fn write_end(events: u64, out: &mut Vec<u8>) -> Result<(), Refusal>
    ensures ok { OnOk result (out.new.items ≡ out.old.items ++ end_text events) }
    ensures err { IfErr result (λ e. (e ≡ OutOfMemory) × (out.new.items ≡ out.old.items)) }
{
    let mut text = Vec::new(*out.allocator());
    put_count(b"events ", events, &mut text)?;
    text.extend_from_slice(b"\n")?;
    out.extend_from_slice(&text)?;
    Ok(())
}

/// Puts what became of a request at the end. Refused as OutOfMemory.
pub fn put_outcome(outcome: &Outcome, text: &mut Vec<u8>) -> Result<(), Refusal>
    ensures ok { OnOk result (text.new.items ≡ text.old.items ++ outcome_text outcome.now) }
    ensures err { IfErr result (λ e. e ≡ OutOfMemory) }
{
    match outcome {
        Outcome::Value(value, _) => put_value(value, text),
        Outcome::Displayed(value, _, _) => put_value(value, text),
        Outcome::Done => put(b" done", text),
        Outcome::Failed(status) => put_count(b" status ", u64::from(status.number), text),
        Outcome::Unreadable(refusal) => put_count(
            b" unreadable ",
            u64::from(refusal.number()),
            text,
        ),
        Outcome::Disconnected => put(b" disconnected", text),
    }
}

fn put_value(value: &Value, text: &mut Vec<u8>) -> Result<(), Refusal>
    ensures ok { OnOk result (text.new.items ≡ text.old.items ++ value_text (elements value.now)) }
    ensures err { IfErr result (λ e. e ≡ OutOfMemory) }
{
    let alloc = *text.allocator();
    put_count(b" value ", u64::from(value.base_type().number()), text)?;
    put_count(b" ", value.count() as u64, text)?;
    let mut bytes = Vec::new(alloc);
    put_elements(value, &mut bytes)?;
    put(b" ", text)?;
    let digits = hex::encode(alloc, bytes)?;
    put(digits.as_bytes(), text)
}

/// Puts the elements of a value at the end, without metadata.
fn put_elements(value: &Value, bytes: &mut Vec<u8>) -> Result<(), Refusal>
    ensures ok { OnOk result (bytes.new.items ≡ bytes.old.items ++ bytes_of (elements value.now)) }
    ensures err { IfErr result (λ e. e ≡ OutOfMemory) }
{
    write_value(value.base_type().number(), value, &Meta::ZERO, bytes)
}

/// Puts a word and a decimal number at the end. Refused as OutOfMemory.
pub fn put_count(word: &[u8], number: u64, text: &mut Vec<u8>) -> Result<(), Refusal>
    ensures ok { OnOk result (text.new.items ≡ text.old.items ++ counted word.now number) }
    ensures err { IfErr result (λ e. e ≡ OutOfMemory) }
{
    let mut buffer = Buffer::new();
    text.extend_from_slice(word)?;
    text.extend_from_slice(buffer.format(number).as_bytes())?;
    Ok(())
}

/// Puts a word at the end. Refused as OutOfMemory.
pub fn put(word: &[u8], text: &mut Vec<u8>) -> Result<(), Refusal>
    ensures ok { OnOk result (text.new.items ≡ text.old.items ++ word.now) }
    ensures err { IfErr result (λ e. e ≡ OutOfMemory) }
{
    text.extend_from_slice(word)?;
    Ok(())
}
