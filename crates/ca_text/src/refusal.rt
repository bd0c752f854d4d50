//! The errors of all calls of the libraries. Each has a number and a name, which the programs
//! print.
ghost use Rattle.std.specs.Prelude.{◌≡◌, ℕ};
ghost use Rattle.ca_text.specs.Refusal.{refusal_name, refusal_number};

use crate::status::Status;
use std::alloc::{AllocError, AllocFailed};
use std::error::Error;
use std::fmt;

/// Why a call was refused. Each has a number, which the programs print.
///
/// The object is then as it was before, but for these: after `Misaligned` or `TooLarge` a reader of
/// a stream answers `CircuitClosed` from then on, and after `Device` the circuit is closed.
#[derive(Clone, Copy, Debug, PartialEq, Eq)]
pub enum Refusal {
    /// A growth was refused. It comes last in every order of checks.
    OutOfMemory,
    /// A payload size that is not a multiple of 8.
    Misaligned,
    /// A payload over the limit.
    TooLarge,
    /// A type that does not exist, or not here.
    BadType,
    /// A payload with fewer bytes than its elements take.
    Short,
    /// No conversion between these types.
    NoConvert,
    /// A number outside the wanted type.
    OutOfRange,
    /// A text that is no number, or a line that is not understood.
    BadText,
    /// Every slot is taken.
    ArenaFull,
    /// A handle or a wire id that names nothing now.
    StaleHandle,
    /// A wire id that may still come back.
    Draining,
    /// A name that is empty, too long, or has a zero byte.
    NameLength,
    /// The channel is not live.
    NotLive,
    /// The right to read or to write is missing.
    NoAccess,
    /// More elements than there may be, or none.
    BadCount,
    /// The circuit was lost, or time ran out.
    Disconnected,
    /// The circuit has ended.
    CircuitClosed,
    /// The queue has all its subscriptions.
    TooManySubscriptions,
    /// The datagram has no room for this.
    DatagramTooLong,
    /// No record has this name.
    UnknownRecord,
    /// The record is not busy.
    NotBusy,
    /// The event cannot happen now.
    BadEvent,
    /// The system refused a file, a stream, a socket or a thread.
    Device,
    /// Every cell of the board is taken.
    NoCell,
    /// A priority over 99.
    BadPriority,
    /// Too many bytes wait to be sent.
    OutputFull,
    /// The server answered with this status.
    ServerRefused(Status),
    /// A record of this name is served now.
    RecordExists,
}

impl Refusal {
    /// Its number.
    pub fn number(self) -> u8
        ensures { result ≡ refusal_number self }
    {
        match self {
            Refusal::OutOfMemory => 1,
            Refusal::Misaligned => 2,
            Refusal::TooLarge => 3,
            Refusal::BadType => 4,
            Refusal::Short => 5,
            Refusal::NoConvert => 6,
            Refusal::OutOfRange => 7,
            Refusal::BadText => 8,
            Refusal::ArenaFull => 9,
            Refusal::StaleHandle => 10,
            Refusal::Draining => 11,
            Refusal::NameLength => 12,
            Refusal::NotLive => 13,
            Refusal::NoAccess => 14,
            Refusal::BadCount => 15,
            Refusal::Disconnected => 16,
            Refusal::CircuitClosed => 17,
            Refusal::TooManySubscriptions => 18,
            Refusal::DatagramTooLong => 19,
            Refusal::UnknownRecord => 20,
            Refusal::NotBusy => 21,
            Refusal::BadEvent => 22,
            Refusal::Device => 23,
            Refusal::NoCell => 24,
            Refusal::BadPriority => 25,
            Refusal::OutputFull => 26,
            Refusal::ServerRefused(_) => 27,
            Refusal::RecordExists => 28,
        }
    }

    // The name that is printed after it.
    fn name(self) -> &'static str
        ensures { result.now ≡ refusal_name self }
    {
        match self {
            Refusal::OutOfMemory => "OutOfMemory",
            Refusal::Misaligned => "Misaligned",
            Refusal::TooLarge => "TooLarge",
            Refusal::BadType => "BadType",
            Refusal::Short => "Short",
            Refusal::NoConvert => "NoConvert",
            Refusal::OutOfRange => "OutOfRange",
            Refusal::BadText => "BadText",
            Refusal::ArenaFull => "ArenaFull",
            Refusal::StaleHandle => "StaleHandle",
            Refusal::Draining => "Draining",
            Refusal::NameLength => "NameLength",
            Refusal::NotLive => "NotLive",
            Refusal::NoAccess => "NoAccess",
            Refusal::BadCount => "BadCount",
            Refusal::Disconnected => "Disconnected",
            Refusal::CircuitClosed => "CircuitClosed",
            Refusal::TooManySubscriptions => "TooManySubscriptions",
            Refusal::DatagramTooLong => "DatagramTooLong",
            Refusal::UnknownRecord => "UnknownRecord",
            Refusal::NotBusy => "NotBusy",
            Refusal::BadEvent => "BadEvent",
            Refusal::Device => "Device",
            Refusal::NoCell => "NoCell",
            Refusal::BadPriority => "BadPriority",
            Refusal::OutputFull => "OutputFull",
            Refusal::ServerRefused(_) => "ServerRefused",
            Refusal::RecordExists => "RecordExists",
        }
    }
}

impl fmt::Display for Refusal {
    ghost use Rattle.std.specs.Prelude.{Some};
    ghost use Rattle.ca_text.specs.Refusal.{refusal_text};

    ghost output = { λ r. Some (refusal_text r) };

    fn fmt<W: fmt::Write>(&self, f: &mut fmt::Formatter<W>) -> fmt::Result {
        let number = self.number();
        let name = self.name();
        match self {
            Refusal::ServerRefused(status) => write!(f, "{number} {name} {status}"),
            _ => write!(f, "{number} {name}"),
        }
    }
}

impl Error for Refusal {}

impl From<AllocError> for Refusal {
    ghost use Rattle.ca_text.specs.declared.refusal.Refusal.TheVariants.{OutOfMemory};

    ghost from_gives = { λ _ e. e ≡ OutOfMemory };

    fn from(_e: AllocError) -> Refusal {
        Refusal::OutOfMemory
    }
}

impl<T: Drop> From<AllocFailed<T>> for Refusal {
    ghost use Rattle.ca_text.specs.declared.refusal.Refusal.TheVariants.{OutOfMemory};

    ghost from_gives = { λ _ e. e ≡ OutOfMemory };

    fn from(_e: AllocFailed<T>) -> Refusal {
        Refusal::OutOfMemory
    }
}
