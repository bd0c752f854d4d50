//! What a recorder of histories asks of the records: the puts of each, in order. No
//! server needs these calls.
ghost use Rattle.std.specs.Prelude.{◌≡◌, ◌<◌, length};
ghost use Rattle.ca_text.specs.Place.{At};
ghost use Rattle.ca_records.specs.ForHistories.{WaitsAt};

use crate::puts::Put;
use crate::served_record::ServedRecord;

/// The put that makes this record busy.
pub fn busy_put(served: &ServedRecord) -> Option<Put>
    ensures { result ≡ served.now.busy }
{
    served.busy_put()
}

/// The put that waits for this record after n others.
pub fn waiting_put(served: &ServedRecord, place: usize) -> Put
    requires { place < length served.now.waiting }
    ensures { WaitsAt served.now place result }
{
    served.waiting()[place].put
}
