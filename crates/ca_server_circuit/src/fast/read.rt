//! The fast path of a READ_NOTIFY: it is taken where it came, whatever it reads, and one element,
//! in the type that is asked for, is shown in eight bytes. 503 instructions a read in place of 769
//! (`bench/answer --instructions`).
ghost use Rattle.std.specs.Prelude.{◌≡◌, ◌<◌, IfSome, OnErr, OnOk, [], ◌∷◌, length};
ghost use Rattle.ca_arena.specs.declared.handle.Handle.{Handle};
ghost use Rattle.ca_text.specs.Limits.{output_limit};
ghost use Rattle.ca_link.specs.Calls.{IsOpen};
ghost use Rattle.ca_link.specs.Link.{with_sent};
ghost use Rattle.ca_records.specs.Store.{records_of};
ghost use Rattle.ca_wire.specs.Messages.{scalar, read_request};
ghost use Rattle.ca_server_circuit.specs.Handling.{AreServed};
ghost use Rattle.ca_server_circuit.specs.Showing.{AnswersRead, scalar_reply};
ghost use Rattle.ca_server_circuit.specs.Stepping.{IsFast};

use crate::bytes::know_bytes;
use crate::cause::EndCause;
use crate::effect::Effect;
use crate::end::End;
use crate::fast::FAST;
use crate::step::{EndStep, FollowUp};
use ca_link::Link;
use ca_records::{Record, ServedRecords};
use ca_text::Command;
use ca_wire::{ScalarMessage, Wanted};
use std::alloc::AllocError;

impl End {
    /// Handles the first message, if it is a READ_NOTIFY without payload.
    #[inline(always)]
    pub(crate) fn read_fast(&mut self, records: &ServedRecords) -> Option<EndStep>
        requires open { IsOpen self.old.link }
        requires room { length self.old.link.output < output_limit }
        requires served { AreServed (records_of records.now) self.old.channels }
        ensures { (circuit : Handle)
            → IsFast circuit self.old records.now result self.new records.now }
    {
        know_bytes(self.link.in_bytes());
        match self.link.next_without_payload(Command::ReadNotify) {
            Some(wanted) => match self.read(records, &wanted) {
                Ok(()) => Some(EndStep::Handled(FollowUp::Quiet(Effect::Quiet))),
                Err(_) => Some(EndStep::Breaks(EndCause::OutOfMemory)),
            },
            None => None,
        }
    }
}

/// What shows the record to this read in eight bytes, if it has one element, of the
/// type that is asked for.
#[inline(always)]
pub(crate) fn shown_scalar(of: &Record, rights: u32, wanted: &Wanted) -> Option<u64>
    ensures { IfSome result (λ n.
        AnswersRead of.now rights (read_request wanted.now) (scalar (scalar_reply wanted.now n))) }
{
    if !FAST || rights % 2 != 1 || wanted.count > 1 {
        return None;
    }
    of.held().value().scalar(wanted.data_type)
}

/// Answers a read by one element.
#[inline(always)]
pub(crate) fn send_scalar(link: &mut Link, wanted: &Wanted, payload: u64) -> Result<(), AllocError>
    requires { IsOpen link.old }
    ensures ok { OnOk result (link.new
        ≡ with_sent (scalar (scalar_reply wanted.now payload) ∷ []) link.old) }
    ensures err { OnErr result (link.new ≡ link.old) }
{
    let said = ScalarMessage {
        command: Command::ReadNotify,
        data_type: wanted.data_type,
        id: wanted.id,
        payload,
    };
    match link.queue_scalar(said) {
        Ok(()) => Ok(()),
        Err(_) => Err(AllocError),
    }
}
