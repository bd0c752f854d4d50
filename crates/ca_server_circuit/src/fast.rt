//! Fast paths: most messages read, write or put one element. Such a message is handled without a
//! copy of it, and without allocation. Each is tried on the first message before its header is read
//! as a whole. If it applies it is a step as any other, by the same definition (`EndSteps`); if it
//! does not, nothing has changed, and the plain path does the rest.
//!
//! Only speed depends on them: with `FAST` false no contract changes.
ghost use Rattle.std.specs.Prelude.{◌≡◌, ◌<◌, length};
ghost use Rattle.ca_text.specs.Limits.{output_limit};
ghost use Rattle.ca_link.specs.Calls.{IsOpen};
ghost use Rattle.ca_records.specs.Store.{records_of};
ghost use Rattle.ca_server_circuit.specs.Handling.{AreServed};
ghost use Rattle.ca_server_circuit.specs.Stepping.{IsFast};

use crate::end::End;
use crate::step::EndStep;
use ca_arena::Handle;
use ca_records::ServedRecords;
use ca_text::Command;

pub(crate) mod put;
pub(crate) mod read;
pub(crate) mod write;

/// Whether they are taken.
pub(crate) const FAST: bool = true;

impl End {
    /// Handles the first message by a fast path, if one applies.
    #[inline(always)]
    pub(crate) fn step_fast(
        &mut self,
        circuit: Handle,
        records: &mut ServedRecords,
    ) -> Option<EndStep>
        requires open { IsOpen self.old.link }
        requires room { length self.old.link.output < output_limit }
        requires served { AreServed (records_of records.old) self.old.channels }
        ensures { IsFast circuit self.old records.old result self.new records.new }
    {
        if !FAST {
            return None;
        }
        match self.read_fast(records) {
            Some(step) => Some(step),
            None => self.step_scalar(circuit, records),
        }
    }

    /// Handles the first message, if it is a WRITE or a WRITE_NOTIFY of one element of at most
    /// eight bytes, in the type of its record, that is applied at once.
    #[inline(always)]
    fn step_scalar(&mut self, circuit: Handle, records: &mut ServedRecords) -> Option<EndStep>
        requires room { length self.old.link.output < output_limit }
        requires served { AreServed (records_of records.old) self.old.channels }
        ensures { IsFast circuit self.old records.old result self.new records.new }
    {
        if let Some(wanted) = self.link.first_of_eight_bytes(Command::Write) {
            return match self.write_scalar(records, &wanted) {
                Some(left) => Some(EndStep::Handled(left)),
                None => None,
            };
        }
        if let Some(wanted) = self.link.first_of_eight_bytes(Command::WriteNotify) {
            return match self.put_notify_scalar(circuit, records, &wanted) {
                Some(left) => Some(EndStep::Handled(left)),
                None => None,
            };
        }
        None
    }
}
