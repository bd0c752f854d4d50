//! The status codes (ECA) that replies and updates carry, as numbers on the wire.
use std::fmt;

/// The status of a reply or an update: a message number times 8, plus a severity, which is 0
/// for a warning, 1 for success, 2 for an error, 3 for information and 6 for a fatal error
/// (section "Status Codes").
///
/// A peer may send any number.
#[derive(Clone, Copy, Debug, PartialEq, Eq)]
pub struct Status {
    /// The number, as it is in a message.
    pub number: u32,
}

impl Status {
    /// It went well.
    pub const NORMAL: Status = Status { number: 1 };

    /// There was no memory.
    pub const ALLOCMEM: Status = Status { number: 48 };

    /// The type does not exist, or not here.
    pub const BADTYPE: Status = Status { number: 114 };

    /// The peer failed within itself.
    pub const INTERNAL: Status = Status { number: 142 };

    /// The value could not be had in the wanted type.
    pub const GETFAIL: Status = Status { number: 152 };

    /// The value could not be put.
    pub const PUTFAIL: Status = Status { number: 160 };

    /// The subscription could not be made.
    pub const ADDFAIL: Status = Status { number: 168 };

    /// More elements than there may be, or none.
    pub const BADCOUNT: Status = Status { number: 176 };

    /// The channel is not connected.
    pub const DISCONN: Status = Status { number: 192 };

    /// The right to read is missing.
    pub const NORDACCESS: Status = Status { number: 368 };

    /// The right to write is missing.
    pub const NOWTACCESS: Status = Status { number: 376 };

    /// No conversion between these types.
    pub const NOCONVERT: Status = Status { number: 400 };

    /// No open channel has this SID.
    pub const BADCHID: Status = Status { number: 410 };
}

impl fmt::Display for Status {
    ghost use Rattle.std.specs.Prelude.{Some, decimal};

    ghost output = { λ s. Some (decimal s.number) };

    fn fmt<W: fmt::Write>(&self, f: &mut fmt::Formatter<W>) -> fmt::Result {
        let number = self.number;
        write!(f, "{number}")
    }
}
