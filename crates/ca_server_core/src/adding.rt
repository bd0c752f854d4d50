//! A record is added to those that a server serves.
ghost use Rattle.std.specs.Prelude.{ℕ};
ghost use Rattle.std.specs.Arc.{arc_value};
ghost use Rattle.ca_dbr.specs.Elements.{displayed, elements};
ghost use Rattle.ca_dbr.specs.Data.{data_of};
ghost use Rattle.ca_model.specs.ServerCalls.{AddsRecord};
ghost use Rattle.ca_records.specs.Record.{unset};

use crate::server::ServerCore;
use ca_dbr::{Display, Value};
use ca_display::Held;
use ca_text::Refusal;
use std::sync::Arc;

impl ServerCore {
    /// Serves one more record, neither busy nor waited for, with metadata of zeros.
    ///
    /// Refused as NameLength if this is no name, as RecordExists if it is served, as BadCount if
    /// the record may not have this value, and then as OutOfMemory. A refusal changes nothing.
    pub fn add_record(
        &mut self,
        name: &[u8],
        count: u32,
        slow: bool,
        value: Value,
    ) -> Result<(), Refusal>
        ensures { (behind : ℕ) × AddsRecord self.old (record {
          name = name.now;
          count = count;
          slow = slow;
          value = elements value;
          meta = unset;
        }) behind result self.new }
    {
        self.records.add(name, count, slow, value)?;
        Ok(())
    }

    /// Serves one more record that has display data, with which it is shown in all 35 types: as
    /// `add_record`.
    pub fn add_displayed(
        &mut self,
        name: &[u8],
        count: u32,
        slow: bool,
        value: Value,
        display: Arc<Display>,
    ) -> Result<(), Refusal>
        ensures { (behind : ℕ) × AddsRecord self.old (record {
          name = name.now;
          count = count;
          slow = slow;
          value = displayed (data_of (arc_value display)) (elements value);
          meta = unset;
        }) behind result self.new }
    {
        self.records
            .add_held(name, count, slow, Held::displayed(value, display))?;
        Ok(())
    }
}
