//! EVENT_ADD on an open end.
ghost use Rattle.std.specs.Prelude.{ℕ, ◌≡◌, IfOk, OnErr, OnOk, MatchOption, [], None, Some};
ghost use Rattle.std.specs.Prelude.{not, slice_index_or};
ghost use Rattle.ca_arena.specs.declared.handle.Handle.{Handle};
ghost use Rattle.ca_text.specs.Command.{command_number};
ghost use Rattle.ca_text.specs.declared.command.Command.TheVariants as command;
ghost use Rattle.ca_link.specs.Calls.{IsOpen};
ghost use Rattle.ca_records.specs.Store.{records_of};
ghost use Rattle.ca_wire.specs.Messages.{mask_in};
ghost use Rattle.ca_wire.specs.Reading.{IsWhole};
ghost use Rattle.ca_dbr.specs.Held.{display_of};
ghost use Rattle.ca_display.specs.declared.image_type.ImageType.{ImageType};
ghost use Rattle.ca_display.specs.Types.{base_in};
ghost use Rattle.ca_model.specs.Faults.{subscribed_count, subscription_fault};
ghost use Rattle.ca_model.specs.Images.{image_type_of, lacks_conversion_to};
ghost use Rattle.ca_server_circuit.specs.Handling.{AreServed, Does, Subscribes, known};
ghost use Rattle.ca_server_circuit.specs.Seeking.{IsServed};
ghost use Rattle.ca_server_circuit.specs.Stepping.{first_at, message_of};
ghost use Rattle.ca_server_circuit.specs.Subscribing.{CanJoin, HasJoined, MayBegin};

use crate::effect::Effect;
use crate::end::End;
use crate::in_place::{key_of, named_by};
use crate::seek::{Seat, Sought};
use crate::shown::shown_size;
use crate::step::FollowUp;
use ca_dbr::has_conversion;
use ca_display::{Held, ImageType};
use ca_records::{Record, ServedRecords};
use ca_server_subscriptions::Update;
use ca_text::{CIRCUIT_QUEUES, PAYLOAD_LIMIT, QUEUE_SUBSCRIPTIONS, Status};
use ca_wire::{Head, Header};
use std::alloc::AllocError;

/// Bytes of the payload of an EVENT_ADD.
const EVENT_SIZE: usize = 16;

impl End {
    /// EVENT_ADD: refused by ERROR; or its subscription begins, whose first update
    /// is the present value.
    #[inline(never)]
    pub(crate) fn event_add(
        &mut self,
        records: &ServedRecords,
        head: &Head,
    ) -> Result<FollowUp, AllocError>
        requires open { IsOpen self.old.link }
        requires served { AreServed (records_of records.now) self.old.channels }
        requires whole { IsWhole self.old.link.input.bytes head.now }
        requires command { head.now.header.command ≡ command_number command.EventAdd }
        ensures ok { IfOk result (λ effect. (port : ℕ) (h : Handle)
            → Does (Subscribes (known port records.now self.old)
            (first_at self.old.link.input.bytes head.now)) records.now h self.old
            (first_at self.old.link.input.bytes head.now) effect records.now self.new) }
        ensures output { OnErr result (self.new.link.output ≡ self.old.link.output) }
        ensures channels { OnErr result (self.new.channels ≡ self.old.channels) }
    {
        let wanted = named_by(&head.header);
        match self.seek(records, wanted.sid) {
            Sought::Stray(cid) => {
                self.refuse(cid, Status::BADCHID, head)?;
                Ok(FollowUp::Quiet(Effect::Quiet))
            }
            Sought::Served(seat) => self.subscribe_on(seat, records, head),
        }
    }

    /// EVENT_ADD on the record of this channel.
    fn subscribe_on(
        &mut self,
        seat: Seat,
        records: &ServedRecords,
        head: &Head,
    ) -> Result<FollowUp, AllocError>
        requires open { IsOpen self.old.link }
        requires served { IsServed records.now self.old head.now.header.p1 seat }
        requires whole { IsWhole self.old.link.input.bytes head.now }
        requires command { head.now.header.command ≡ command_number command.EventAdd }
        ensures ok { IfOk result (λ effect. (port : ℕ) (h : Handle)
            → Does (Subscribes (known port records.now self.old)
            (first_at self.old.link.input.bytes head.now)) records.now h self.old
            (first_at self.old.link.input.bytes head.now) effect records.now self.new) }
        ensures output { OnErr result (self.new.link.output ≡ self.old.link.output) }
        ensures channels { OnErr result (self.new.channels ≡ self.old.channels) }
    {
        let state = records.at(seat.place).state();
        let rights = records.rights(&self.user, &self.host, state.name());
        let in_use = self.subscriptions.has(key_of(&head.header));
        let others = self.subscriptions.len();
        let payload = self.payload(head);
        match event_fault(state, rights, in_use, others, &head.header, payload) {
            None => {
                self.join(state, head)?;
                Ok(FollowUp::Began(seat.place, head.header.p1, head.header.p2))
            }
            Some(status) => {
                self.refuse(seat.cid, status, head)?;
                Ok(FollowUp::Quiet(Effect::Quiet))
            }
        }
    }

    /// Begins the subscription that an EVENT_ADD asks for, on this record. Without
    /// memory all is as it was.
    fn join(&mut self, of: &Record, head: &Head) -> Result<(), AllocError>
        requires whole { IsWhole self.old.link.input.bytes head.now }
        requires may { CanJoin self.old (first_at self.old.link.input.bytes head.now) }
        ensures ok { OnOk result (HasJoined of.now (first_at self.old.link.input.bytes head.now)
            self.old self.new) }
        ensures err { OnErr result (self.new ≡ self.old) }
    {
        let name = Vec::from_slice(self.alloc, of.name())?;
        let update = Update::of(self.alloc, of.held(), *of.meta())?;
        let mask = mask_in(self.payload(head));
        self.subscriptions
            .begin(named_by(&head.header), name, mask, update)?;
        Ok(())
    }
}

/// The first fault of an EVENT_ADD on this record under these rights, whose key is in use or not,
/// beside that many other subscriptions.
fn event_fault(
    of: &Record,
    rights: u32,
    in_use: bool,
    others: usize,
    header: &Header,
    payload: &[u8],
) -> Option<Status>
    ensures { MatchOption result
        ((subscription_fault of.now rights in_use others (message_of header.now payload.now)
        (image_type_of header.now.data_type) ≡ None)
        × MayBegin in_use others (message_of header.now payload.now))
        (λ s.
        subscription_fault of.now rights in_use others (message_of header.now payload.now)
        (image_type_of header.now.data_type) ≡ Some s.number) }
{
    let count = count_of(of, header);
    let held = of.held();
    let Some(size) = shown_size(held, header.data_type, count) else {
        return Some(Status::BADTYPE);
    };
    if rights % 2 != 1 {
        return Some(Status::NORDACCESS);
    }
    if payload.len() < EVENT_SIZE {
        return Some(Status::ADDFAIL);
    }
    if mask_in(payload) % 16 == 0 {
        return Some(Status::ADDFAIL);
    }
    if in_use {
        return Some(Status::ADDFAIL);
    }
    if count > of.count() {
        return Some(Status::BADCOUNT);
    }
    if size > PAYLOAD_LIMIT {
        return Some(Status::BADCOUNT);
    }
    if !converts(held, header.data_type) {
        return Some(Status::NOCONVERT);
    }
    if others >= CIRCUIT_QUEUES * QUEUE_SUBSCRIPTIONS {
        return Some(Status::ADDFAIL);
    }
    None
}

/// Whether what a record holds converts to the type of this number, which exists: with display data
/// each type does to each other.
fn converts(held: &Held, number: u16) -> bool
    ensures { (t : ImageType) → image_type_of number ≡ Some t
        → lacks_conversion_to (display_of held.now) held.now (base_in t) ≡ not result }
{
    if held.display().is_some() {
        return true;
    }
    match ImageType::of(number) {
        Some(image_type) => has_conversion(held.value().base_type(), image_type.base()),
        None => false,
    }
}

/// How many elements a subscription is for: 0 means the greatest count.
fn count_of(of: &Record, header: &Header) -> u32
    ensures { result ≡ subscribed_count of.now (message_of header.now []) }
{
    let count = header.count;
    if count == 0 { of.count() } else { count }
}

/// The mask in the payload of an EVENT_ADD: 0 if it ends before it.
fn mask_in(payload: &[u8]) -> u16
    ensures { (h : Header) → result ≡ mask_in (message_of h payload.now) }
{
    u16::from(byte_at(payload, 12)) * 256 + u16::from(byte_at(payload, 13))
}

/// The byte at this place, or 0.
fn byte_at(bytes: &[u8], place: usize) -> u8
    ensures { result ≡ slice_index_or bytes.now place 0 }
{
    if place < bytes.len() { bytes[place] } else { 0 }
}
