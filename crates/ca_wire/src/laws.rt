//! What the wire format guarantees: bytes can be read in one way only, in whatever pieces they
//! arrive, and a message that was written is read again unchanged.
ghost use Rattle.std.specs.Prelude.{◌≡◌, ◌++◌, ℕ, List, None, Ok};
ghost use Rattle.ca_wire.specs.declared.reading.One.{One};
ghost use Rattle.ca_wire.specs.declared.reading.Head.{Head};
ghost use Rattle.ca_wire.specs.declared.reading.One.TheVariants.{Whole};
ghost use Rattle.ca_wire.specs.Fields.{Fields};
ghost use Rattle.ca_wire.specs.Message.{IsMessage, Spells, header_of, spelling};
ghost use Rattle.ca_wire.specs.Stream.{Held, IsStream};
ghost use Rattle.ca_wire.specs.Reading.{IsOne, Nexts};
ghost use Rattle.ca_wire.specs.Traces.{Call, Trace, empty, given_by, taken_by};

/// Bytes are read in one way. Whenever a reader answers that no complete message is there, what was
/// taken and what is left are the one stream of all bytes that came, in whatever pieces they came.
pub fn one_reading()
    ensures front { (m n : Fields) (a b x y : List ℕ) → Spells a m → Spells b n → a ++ x ≡ b ++ y
        → (m ≡ n) × (a ≡ b) × (x ≡ y) }
    ensures read { (calls : List Call) (held after : Held) → Trace empty calls held
        → Nexts held (Ok None) after → IsStream (given_by calls) (taken_by calls) held.bytes }
    ensures only { (bytes : List ℕ) (ms ns : List Fields) (x y : List ℕ) → IsStream bytes ms x
        → IsStream bytes ns y → (ms ≡ ns) × (x ≡ y) }
{}

/// What was spelled is read again, whatever follows.
pub fn read_again()
    ensures spells { (m : Fields) → IsMessage m → Spells (spelling m) m }
    ensures again { (m : Fields) (one : One) (rest : List ℕ) → IsMessage m
        → IsOne (spelling m ++ rest) one
        → (head : Head) × (one ≡ Whole head) × (head.header ≡ header_of m) }
{}
