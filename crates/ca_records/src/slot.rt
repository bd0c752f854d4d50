//! A place in a server's list of records: a record, or a link in the chain of free places.
ghost use Rattle.std.specs.Prelude.{◌≡◌, IsNone, Some};
ghost use Rattle.std.specs.Borrow.{sem};
ghost use Rattle.ca_records.specs.declared.slot.RecordSlot.TheVariants.{Free, Full};
ghost use Rattle.ca_records.specs.Chain.{IsFull};
ghost use Rattle.ca_records.specs.Lending.{lends_full};

use crate::served_record::ServedRecord;
use std::mem;

// What is at a place: a record, or nothing; then it names the free place after it, if there is one.
#[derive(Debug, Drop)]
pub(crate) enum RecordSlot {
    Full(ServedRecord),
    Free(Option<usize>),
}

impl RecordSlot {
    // Its record.
    pub(crate) fn record(&self) -> &ServedRecord
        requires { IsFull self.now }
        ensures { self.now ≡ Full result.now }
    {
        match self {
            RecordSlot::Full(record) => record,
            RecordSlot::Free(_) => unreachable!(),
        }
    }

    // Its record, for writing.
    pub(crate) fn record_mut(&mut self) -> &mut ServedRecord
        requires { IsFull self.old }
        ensures* writes_back { sem 𝓛 (lends_full self.entry result) }
        ensures value { self.old ≡ Full result.now }
    {
        match self {
            RecordSlot::Full(record) => record,
            RecordSlot::Free(_) => unreachable!(),
        }
    }

    // Takes a record in, and tells the free place that it named.
    pub(crate) fn fill(&mut self, served: ServedRecord) -> Option<usize>
        requires { IsFull self.old → ⊥ }
        ensures was { self.old ≡ Free result }
        ensures full { self.new ≡ Full served }
    {
        match mem::replace(self, RecordSlot::Full(served)) {
            RecordSlot::Free(next) => next,
            RecordSlot::Full(_) => unreachable!(),
        }
    }
}
