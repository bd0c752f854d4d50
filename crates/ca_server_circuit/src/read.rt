//! READ_NOTIFY on an open end, and what its reply is made of.
ghost use Rattle.std.specs.Prelude.{ℕ, ◌≡◌, IfOk, MatchOption, OnErr, OnOk, [], ◌∷◌};
ghost use Rattle.ca_text.specs.declared.refusal.Refusal.TheVariants.{OutOfMemory};
ghost use Rattle.ca_link.specs.Calls.{IsOpen};
ghost use Rattle.ca_link.specs.Link.{with_sent};
ghost use Rattle.ca_records.specs.Record.{IsRecord};
ghost use Rattle.ca_records.specs.Store.{records_of};
ghost use Rattle.ca_wire.specs.Fields.{Fields};
ghost use Rattle.ca_wire.specs.Messages.{read_request, status_reply};
ghost use Rattle.ca_model.specs.Faults.{read_count};
ghost use Rattle.ca_server_circuit.specs.declared.effect.Effect.TheVariants as told;
ghost use Rattle.ca_server_circuit.specs.declared.step.FollowUp.TheVariants.{Quiet};
ghost use Rattle.ca_server_circuit.specs.Handling.{AreServed, Reads, Replies, known};
ghost use Rattle.ca_server_circuit.specs.Showing.{AnswersRead, IsInOrder, IsWanted, ShowsRead};
ghost use Rattle.ca_server_circuit.specs.Showing.{status_for};
ghost use Rattle.ca_server_circuit.specs.Stepping.{named_by};

use crate::effect::Effect;
use crate::end::{End, send};
use crate::fast::read::{send_scalar, shown_scalar};
use crate::in_place::named_by;
use crate::seek::Sought;
use crate::shown::{Shown, shown_size};
use crate::step::FollowUp;
use ca_link::Link;
use ca_records::{Record, ServedRecords};
use ca_text::{PAYLOAD_LIMIT, Refusal, Status};
use ca_wire::{Head, Wanted, read_head, read_status};
use std::alloc::{AllocError, Global};

/// What a read asks for: how many elements, and the bytes of their image.
#[derive(Clone, Copy, Debug, PartialEq, Eq)]
pub(crate) struct ReadSize {
    pub(crate) count: u32,
    pub(crate) size: usize,
}

impl End {
    /// READ_NOTIFY.
    pub(crate) fn read_notify(
        &mut self,
        records: &ServedRecords,
        head: &Head,
    ) -> Result<FollowUp, AllocError>
        requires open { IsOpen self.old.link }
        requires served { AreServed (records_of records.now) self.old.channels }
        ensures tells { IfOk result (λ did. did ≡ Quiet told.Quiet) }
        ensures ok { OnOk result ((port : ℕ)
            → Replies (Reads (known port records.now self.old)
            (read_request (named_by head.now.header))) self.old self.new) }
        ensures output { OnErr result (self.new.link.output ≡ self.old.link.output) }
        ensures channels { OnErr result (self.new.channels ≡ self.old.channels) }
    {
        self.read(records, &named_by(&head.header))?;
        Ok(FollowUp::Quiet(Effect::Quiet))
    }

    /// Answers a read of what this names, from the record of its channel.
    pub(crate) fn read(
        &mut self,
        records: &ServedRecords,
        wanted: &Wanted,
    ) -> Result<(), AllocError>
        requires open { IsOpen self.old.link }
        requires served { AreServed (records_of records.now) self.old.channels }
        ensures ok { OnOk result ((port : ℕ)
            → Replies (Reads (known port records.now self.old) (read_request wanted.now))
            self.old self.new) }
        ensures output { OnErr result (self.new.link.output ≡ self.old.link.output) }
        ensures channels { OnErr result (self.new.channels ≡ self.old.channels) }
    {
        match self.seek(records, wanted.sid) {
            Sought::Stray(_) => {
                send_status(self.alloc, &mut self.link, wanted, Status::BADCHID)?;
                Ok(())
            }
            Sought::Served(seat) => {
                let record = records.at(seat.place).state();
                let rights = records.rights(&self.user, &self.host, record.name());
                answer(self.alloc, &mut self.link, record, rights, wanted)?;
                Ok(())
            }
        }
    }
}

/// Answers a read of this record under these rights: by the status of its first
/// fault, or the value.
fn answer(
    alloc: Global,
    link: &mut Link,
    of: &Record,
    rights: u32,
    wanted: &Wanted,
) -> Result<(), AllocError>
    requires { IsOpen link.old }
    ensures ok { OnOk result ((reply : Fields)
        × AnswersRead of.now rights (read_request wanted.now) reply
        × (link.new ≡ with_sent (reply ∷ []) link.old)) }
    ensures err { OnErr result (link.new ≡ link.old) }
{
    if let Some(payload) = shown_scalar(of, rights, wanted) {
        return send_scalar(link, wanted, payload);
    }
    match measure(of, rights, wanted) {
        Err(status) => {
            send(link, &read_status(alloc, wanted, status))?;
            Ok(())
        }
        Ok(asked) => {
            show(alloc, link, of, asked, wanted)?;
            Ok(())
        }
    }
}

/// Answers a read by a status.
#[inline(never)]
fn send_status(
    alloc: Global,
    link: &mut Link,
    wanted: &Wanted,
    status: Status,
) -> Result<(), AllocError>
    requires { IsOpen link.old }
    ensures ok { OnOk result (link.new
        ≡ with_sent (status_reply (read_request wanted.now) status.number ∷ []) link.old) }
    ensures err { OnErr result (link.new ≡ link.old) }
{
    let reply = read_status(alloc, wanted, status);
    send(link, &reply)
}

/// What a read asks for, or the status that refuses it. The elements are not looked at.
fn measure(of: &Record, rights: u32, wanted: &Wanted) -> Result<ReadSize, Status>
    ensures { IsWanted of.now rights (read_request wanted.now) result }
{
    let count = count_of(of, wanted);
    let Some(size) = shown_size(of.held(), wanted.data_type, count) else {
        return Err(Status::BADTYPE);
    };
    if rights % 2 != 1 {
        return Err(Status::NORDACCESS);
    }
    if count > of.count() {
        return Err(Status::BADCOUNT);
    }
    if size > PAYLOAD_LIMIT {
        return Err(Status::BADCOUNT);
    }
    Ok(ReadSize { count, size })
}

/// How many elements a read asks for: 0 means the present count.
fn count_of(of: &Record, wanted: &Wanted) -> u32
    ensures count { result ≡ read_count of.now (read_request wanted.now) }
    ensures state { IsRecord of.now }
{
    let present = of.held().value().count() as u32;
    let count = wanted.count;
    if count == 0 { present } else { count }
}

/// Answers a read by the elements that it is shown, whose image is made in its place, or by the
/// status of the first that has no place in its type.
fn show(
    alloc: Global,
    link: &mut Link,
    of: &Record,
    asked: ReadSize,
    wanted: &Wanted,
) -> Result<(), AllocError>
    requires open { IsOpen link.old }
    requires order { IsInOrder of.now (read_request wanted.now) asked }
    ensures ok { OnOk result ((reply : Fields) × ShowsRead of.now (read_request wanted.now) reply
        × (link.new ≡ with_sent (reply ∷ []) link.old)) }
    ensures err { OnErr result (link.new ≡ link.old) }
{
    let held = of.held();
    held.know();
    let image = Shown {
        data_type: wanted.data_type,
        count: asked.count,
        held,
        meta: of.meta(),
    };
    let head = read_head(alloc, wanted, asked.count);
    match link.queue_made(&head, asked.size, &image) {
        Ok(()) => Ok(()),
        Err(refusal) => match status_of(refusal) {
            None => Err(AllocError),
            Some(status) => {
                send(link, &read_status(alloc, wanted, status))?;
                Ok(())
            }
        },
    }
}

/// The status that says why a value was not shown, or none if there was no memory.
pub(crate) fn status_of(refusal: Refusal) -> Option<Status>
    ensures { MatchOption result (refusal ≡ OutOfMemory)
        (λ s. (refusal ≡ OutOfMemory → ⊥) × (s.number ≡ status_for refusal)) }
{
    match refusal {
        Refusal::OutOfMemory => None,
        Refusal::NoConvert => Some(Status::NOCONVERT),
        _ => Some(Status::GETFAIL),
    }
}
