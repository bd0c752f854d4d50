//! A put with notification (WRITE_NOTIFY) that a record keeps until it is finished, the time stamp
//! of writes, and the results of beginning and of finishing a write.
ghost use Rattle.std.specs.Prelude.{◌≡◌, ◌≤◌};
ghost use Rattle.ca_records.specs.Judging.{fewer_waiting, more_waiting};
ghost use Rattle.ca_records.specs.Puts.{written_meta};

use ca_arena::Handle;
use ca_dbr::{Meta, Value};
use ca_display::Held;
use ca_text::Status;
use std::alloc::AllocError;

/// A put with notification: the circuit and the channel that it came on, and what its reply
/// needs of its header.
#[derive(Clone, Copy, Debug, PartialEq, Eq)]
pub struct Put {
    pub circuit: Handle,
    pub channel: Handle,
    /// The type and the count of the request, which its reply repeats.
    pub data_type: u16,
    pub count: u32,
    pub ioid: u32,
}

/// The time stamp of writes: seconds since 1990-01-01 00:00:00 UTC, and nanoseconds.
#[derive(Clone, Copy, Debug, PartialEq, Eq)]
pub struct Stamp {
    pub seconds: u32,
    pub nanos: u32,
}

impl Stamp {
    // What goes with what was written: its alarm, and the stamp.
    #[inline(always)]
    pub(crate) fn meta(self, held: &Held) -> Meta
        ensures { result ≡ written_meta held.now self }
    {
        let (status, severity) = held.alarm();
        Meta {
            status,
            severity,
            seconds: self.seconds,
            nanos: self.nanos,
        }
    }
}

/// What a write came to.
#[derive(Clone, Copy, Debug, PartialEq, Eq)]
pub enum Begun {
    /// It was applied; true if its put made the record busy.
    Applied(bool),
    /// Its put waits until those before it are finished.
    Waiting,
    /// It was refused by this status, and changed nothing.
    Refused(Status),
}

/// What the end of a busy put left.
#[derive(Clone, Copy, Debug, PartialEq, Eq)]
pub struct Finished {
    /// The place of its record.
    pub place: usize,
    /// The put that was busy.
    pub ended: Put,
    /// The put that waited next, and was applied, if one waited.
    pub applied: Option<Put>,
}

// A put that waits, and the value that its record is to have then.
#[derive(Debug, Drop)]
pub(crate) struct QueuedPut {
    pub(crate) put: Put,
    pub(crate) value: Value,
}

// How many more puts wait after a write.
pub(crate) fn more_waiting(begun: &Result<Begun, AllocError>) -> usize
    ensures more { result ≡ more_waiting begun.now }
    ensures one { result ≤ 1 }
{
    match begun {
        Ok(Begun::Waiting) => 1,
        Ok(Begun::Applied(_)) => 0,
        Ok(Begun::Refused(_)) => 0,
        Err(_) => 0,
    }
}

// How many puts wait no longer, after this one was applied, or none.
pub(crate) fn fewer_waiting(applied: &Option<Put>) -> usize
    ensures { result ≡ fewer_waiting applied.now }
{
    match applied {
        Some(_) => 1,
        None => 0,
    }
}
