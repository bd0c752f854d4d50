//! A step of an open end: the next message is taken and handled by its command.
ghost use Rattle.std.specs.Prelude.{◌≡◌, ◌<◌, IfOk, OnErr, length};
ghost use Rattle.ca_text.specs.Limits.{output_limit};
ghost use Rattle.ca_link.specs.Calls.{IsOpen};
ghost use Rattle.ca_records.specs.Store.{records_of};
ghost use Rattle.ca_wire.specs.Reading.{IsWhole};
ghost use Rattle.ca_model.specs.Due.{Due};
ghost use Rattle.ca_server_circuit.specs.Clearing.{ArePuts};
ghost use Rattle.ca_server_circuit.specs.Handling.{AllStay, AreServed, Does, MayLack, effect_of};
ghost use Rattle.ca_server_circuit.specs.Handling.{is_wrote, known};
ghost use Rattle.ca_server_circuit.specs.Stepping.{EndSteps, cause_for, first_at};

use crate::bytes::know_bytes;
use crate::cause::EndCause;
use crate::effect::Effect;
use crate::end::End;
use ca_arena::Handle;
use ca_records::ServedRecords;
use ca_text::{Command, Refusal};
use ca_wire::{Head, One, read_one};
use std::alloc::AllocError;

/// What a message that was handled leaves its server to do.
#[derive(Clone, Copy, Debug, PartialEq, Eq)]
pub enum FollowUp {
    /// Nothing: the message did this.
    Quiet(Effect),
    /// The write to the record at this place was applied, and is to reach its subscriptions;
    /// whether it made the record busy, and the SID of its channel.
    Wrote(usize, bool, u32),
    /// A subscription to the record at this place began; its SID, and its subscription id.
    Began(usize, u32, u32),
    /// A channel to the record at this place was created, which has this SID.
    Opened(usize, u32),
}

/// What one step of an open end did.
#[derive(Clone, Copy, Debug, PartialEq, Eq)]
pub enum EndStep {
    /// It handled a message.
    Handled(FollowUp),
    /// No complete message is there.
    NeedBytes,
    /// So much waits to be sent that no message is handled.
    OutputFull,
    /// The end is to be closed.
    Breaks(EndCause),
}

impl FollowUp {
    /// Whether a write was applied.
    pub fn is_write(self) -> bool
        ensures { result ≡ is_wrote self }
    {
        match self {
            FollowUp::Wrote(_, _, _) => true,
            _ => false,
        }
    }

    /// What the message did.
    #[inline(always)]
    pub fn effect(self) -> Effect
        ensures { result ≡ effect_of self }
    {
        match self {
            FollowUp::Quiet(effect) => effect,
            FollowUp::Wrote(_, true, sid) => Effect::Busied(sid),
            FollowUp::Wrote(_, false, sid) => Effect::Wrote(sid),
            FollowUp::Began(_, sid, sub) => Effect::Subscribed(sid, sub),
            FollowUp::Opened(_, sid) => Effect::Created(sid),
        }
    }
}

impl End {
    /// Handles the next message of this circuit where it came, unless 262,144 bytes wait to
    /// be sent, and drops it.
    #[inline(always)]
    pub(crate) fn step(
        &mut self,
        port: u16,
        circuit: Handle,
        records: &mut ServedRecords,
    ) -> EndStep
        requires open { IsOpen self.old.link }
        requires served { AreServed (records_of records.old) self.old.channels }
        requires puts { ArePuts circuit (records_of records.old) self.old.channels }
        ensures { EndSteps port circuit self.old records.old result self.new records.new }
    {
        if self.link.is_full() {
            return EndStep::OutputFull;
        }
        match self.step_fast(circuit, records) {
            Some(step) => step,
            None => self.step_plain(port, circuit, records),
        }
    }

    /// Handles the first message, whatever it is, and drops it.
    #[inline(always)]
    fn step_plain(&mut self, port: u16, circuit: Handle, records: &mut ServedRecords) -> EndStep
        requires open { IsOpen self.old.link }
        requires room { length self.old.link.output < output_limit }
        requires served { AreServed (records_of records.old) self.old.channels }
        requires puts { ArePuts circuit (records_of records.old) self.old.channels }
        ensures { EndSteps port circuit self.old records.old result self.new records.new }
    {
        know_bytes(self.link.in_bytes());
        match read_one(self.link.in_bytes()) {
            One::Whole(head) => match self.handle(port, circuit, records, &head) {
                Ok(left) => {
                    self.link.drop_front(head.start + head.header.size as usize);
                    EndStep::Handled(left)
                }
                Err(_) => EndStep::Breaks(EndCause::OutOfMemory),
            },
            One::More => EndStep::NeedBytes,
            One::Bad(refusal) => EndStep::Breaks(cause_of(refusal)),
        }
    }

    /// Handles the first message of this circuit, which has this header, at a server of this TCP
    /// port, and says what it leaves the server to do. The message stays where it came.
    ///
    /// If there is no memory for it the records and what waits to be sent are as they were, and the
    /// end is to be closed.
    // What is rare is out of line, also from each other, so that a common message does
    // not pay for its locals.
    #[inline(never)]
    fn handle(
        &mut self,
        port: u16,
        circuit: Handle,
        records: &mut ServedRecords,
        head: &Head,
    ) -> Result<FollowUp, AllocError>
        requires open { IsOpen self.old.link }
        requires served { AreServed (records_of records.old) self.old.channels }
        requires puts { ArePuts circuit (records_of records.old) self.old.channels }
        requires whole { IsWhole self.old.link.input.bytes head.now }
        ensures ok { IfOk result (λ effect.
            Does (Due (known port records.old self.old)
            (first_at self.old.link.input.bytes head.now)) records.old circuit self.old
            (first_at self.old.link.input.bytes head.now) effect records.new self.new) }
        ensures err { OnErr result (records.new ≡ records.old) }
        ensures output { OnErr result (self.new.link.output ≡ self.old.link.output) }
        ensures channels { OnErr result (AllStay self.old.channels self.new.channels) }
        ensures memory { OnErr result (MayLack (known port records.old self.old)
            (first_at self.old.link.input.bytes head.now)) }
    {
        let Some(command) = Command::of(head.header.command) else {
            return Ok(FollowUp::Quiet(Effect::Quiet));
        };
        match command {
            Command::Version => self.version(),
            Command::ClientName => self.client_name(head),
            Command::HostName => self.host_name(head),
            Command::Echo => self.echo(),
            Command::Search => self.search(port, records, head),
            Command::CreateChannel => self.create_chan(records, head),
            Command::ClearChannel => self.clear_channel(circuit, records, &head.header),
            Command::ReadNotify => self.read_notify(records, head),
            Command::Write => self.write(records, head),
            Command::WriteNotify => self.write_notify(circuit, records, head),
            Command::EventAdd => self.event_add(records, head),
            Command::EventCancel => self.event_cancel(&head.header),
            Command::EventsOff => Ok(self.events_off()),
            Command::EventsOn => Ok(self.events_on()),
            // Any other command is ignored.
            _ => Ok(FollowUp::Quiet(Effect::Quiet)),
        }
    }
}

/// The cause of an end whose next header is refused for this.
fn cause_of(refusal: Refusal) -> EndCause
    ensures { result ≡ cause_for refusal }
{
    match refusal {
        Refusal::Misaligned => EndCause::Misaligned,
        Refusal::TooLarge => EndCause::TooLarge,
        _ => EndCause::OutOfMemory,
    }
}
