//! What a server refuses of a removal, a post or a new record whatever memory there is. Such an
//! event takes none, since nothing changes.
ghost use Rattle.std.specs.Prelude.{◌≡◌, ◌<◌, ◌≤◌, ◌≢◌, ◌⊎◌, Bool, false, is_some, true};
ghost use Rattle.ca_dbr.specs.Elements.{count_of, elements};
ghost use Rattle.ca_dbr.specs.Held.{kind_of};
ghost use Rattle.ca_records.specs.Puts.{record_named};
ghost use Rattle.ca_records.specs.Record.{HoldsValue, unset};
ghost use Rattle.ca_text.specs.Limits.{record_name_limit};
ghost use Rattle.ca_text.specs.Name.{IsName};
ghost use Rattle.ca_world.specs.Judging.{JudgesAdd, JudgesPost};

use ca_dbr::Value;
use ca_display::Held;
use ca_server_core::ServerCore;
use ca_text::{ELEMENT_LIMIT, RecordName};

/// Whether the server has the record of this name.
pub(crate) fn takes_removal(core: &ServerCore, name: &[u8]) -> bool
    ensures { result ≡ is_some (record_named core.now.records name.now) }
{
    match core.record(name) {
        Some(_) => true,
        None => false,
    }
}

/// Whether the server takes the post of a value.
pub(crate) fn takes_post(core: &ServerCore, name: &[u8], value: &Value) -> bool
    ensures { JudgesPost core.now.records name.now (elements value.now) result }
{
    match core.record(name) {
        Some(kept) => fits_in(kept.held(), kept.count(), value),
        None => false,
    }
}

// Whether a value may come in place of this by a post: of its type, which has no display data, with
// one element to the greatest count.
fn fits_in(kept: &Held, count: u32, value: &Value) -> bool
    ensures fits { result ≡ true
        → (kind_of (elements value.now) ≡ kind_of kept.now)
        × (0 < count_of (elements value.now)) × (count_of (elements value.now) ≤ count) }
    ensures faults { result ≡ false
        → (kind_of (elements value.now) ≢ kind_of kept.now)
        ⊎ ((kind_of (elements value.now) ≡ kind_of kept.now)
        × ((count_of (elements value.now) ≡ 0) ⊎ (count < count_of (elements value.now)))) }
{
    if value.base_type() != kept.value().base_type() {
        return false;
    }
    if kept.display().is_some() {
        return false;
    }
    let present = value.count();
    if present == 0 || present > count as usize {
        return false;
    }
    true
}

/// Whether the server takes a new record.
pub(crate) fn takes_record(core: &ServerCore, name: &[u8], count: u64, value: &Value) -> bool
    ensures { (slow : Bool)
        → JudgesAdd core.now.records (record {
          name = name.now;
          count = count;
          slow = slow;
          value = elements value.now;
          meta = unset;
        }) result }
{
    if !is_named(name) {
        return false;
    }
    if takes_removal(core, name) {
        return false;
    }
    may_hold(count, value)
}

// Whether a record may have this name.
fn is_named(name: &[u8]) -> bool
    ensures yes { result ≡ true → IsName record_name_limit name.now }
    ensures no { result ≡ false → IsName record_name_limit name.now → ⊥ }
{
    RecordName::read(name).is_ok()
}

// Whether a record may have this value under this greatest count.
fn may_hold(count: u64, value: &Value) -> bool
    ensures yes { result ≡ true → HoldsValue count (elements value.now) }
    ensures no { result ≡ false → HoldsValue count (elements value.now) → ⊥ }
{
    let present = value.count() as u64;
    if present == 0 || present > count || count > ELEMENT_LIMIT as u64 {
        return false;
    }
    true
}
