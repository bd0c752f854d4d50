//! The six records that `answer` serves without a file: LONGs, a DOUBLE and a STRING, among them a
//! slow one and one of up to 20,000 elements.
ghost use Rattle.std.specs.Prelude.{◌≡◌, [], ◌∷◌, IfOk, IfErr, OnOk};
ghost use Rattle.ca_text.specs.declared.refusal.Refusal.TheVariants.{OutOfMemory};
ghost use Rattle.ca.specs.Standing.{gain, note, setp, slow, standing, temp, wave};

use ca_dbr::Value;
use ca_records::Records;
use ca_text::Refusal;
use std::alloc::Global;

/// The bit pattern of 1.0.
const ONE: u64 = 0x3FF0_0000_0000_0000;

/// The text "OK".
const OK: [u8; 40] =
    *b"OK\0\0\0\0\0\0\0\0\0\0\0\0\0\0\0\0\0\0\0\0\0\0\0\0\0\0\0\0\0\0\0\0\0\0\0\0\0\0";

/// The records that are served if no file names others: TEMP, SETP, WAVE and SLOW of LONG elements,
/// GAIN of a DOUBLE and NOTE of a STRING.
pub fn standing_records(alloc: Global) -> Result<Records, Refusal>
    ensures ok { IfOk result (λ r. r ≡ standing) }
    ensures err { IfErr result (λ e. e ≡ OutOfMemory) }
{
    let mut records = Records::new(alloc);
    define_numbers(alloc, &mut records)?;
    define_others(alloc, &mut records)?;
    Ok(records)
}

// TEMP, SETP and GAIN.
fn define_numbers(alloc: Global, records: &mut Records) -> Result<(), Refusal>
    requires { records.old ≡ [] }
    ensures ok { OnOk result (records.new ≡ temp ∷ setp ∷ gain ∷ []) }
    ensures err { IfErr result (λ e. e ≡ OutOfMemory) }
{
    records.define(b"TEMP", 1, false, Value::Longs(vec![in alloc; 21]?))?;
    records.define(b"SETP", 1, false, Value::Longs(vec![in alloc; 0]?))?;
    records.define(b"GAIN", 1, false, Value::Doubles(vec![in alloc; ONE]?))?;
    Ok(())
}

// NOTE, WAVE and SLOW, after those.
fn define_others(alloc: Global, records: &mut Records) -> Result<(), Refusal>
    requires { records.old ≡ temp ∷ setp ∷ gain ∷ [] }
    ensures ok { OnOk result (records.new ≡ standing) }
    ensures err { IfErr result (λ e. e ≡ OutOfMemory) }
{
    records.define(b"NOTE", 1, false, Value::Strings(vec![in alloc; OK]?))?;
    records.define(b"WAVE", 20_000, false, Value::Longs(vec![in alloc; 7]?))?;
    records.define(b"SLOW", 1, true, Value::Longs(vec![in alloc; 0]?))?;
    Ok(())
}
