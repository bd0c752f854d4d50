//! Updates of an open end: a post makes them, and a pump sends them.
ghost use Rattle.std.specs.Prelude.{◌≡◌, ◌<◌, ◌≤◌, ◌==◌, ◌++◌, IfOk, IfSome, OnErr, OnOk, [], ◌∷◌};
ghost use Rattle.std.specs.Prelude.{false, if◌then◌else◌, length, option_map, replicate, true};
ghost use Rattle.std.specs.Arc.{arc_value};
ghost use Rattle.std.specs.List.{list_any};
ghost use Rattle.ca_text.specs.Limits.{element_limit, output_limit, payload_limit};
ghost use Rattle.ca_dbr.specs.Elements.{count_of};
ghost use Rattle.ca_link.specs.Calls.{IsOpen};
ghost use Rattle.ca_link.specs.Link.{with_sent};
ghost use Rattle.ca_wire.specs.Fields.{Fields};
ghost use Rattle.ca_wire.specs.Messages.{scalar, update};
ghost use Rattle.ca_model.specs.Server.{concerns, with_post};
ghost use Rattle.ca_model.specs.Updates.{ShowsTo};
ghost use Rattle.ca_server_circuit.specs.AtOnce.{ShowsAtOnce};
ghost use Rattle.ca_server_circuit.specs.Concerned.{ShowsWithin, SizesAt};
ghost use Rattle.ca_server_circuit.specs.CircuitOutput.{Grows, SendsBehind, bytes_of, end_behind};
ghost use Rattle.ca_server_circuit.specs.Pumping.{PumpsEnd, PumpsOne, PumpsOver, scalar_update};
ghost use Rattle.ca_server_circuit.specs.Subscribing.{events_of};
ghost use Rattle.ca_server_circuit.specs.Posting.{stored_of};
ghost use Rattle.ca_server_subscriptions.specs.Sharing.{IsCopy};
ghost use Rattle.ca_server_subscriptions.specs.Subscribed.{IsAskable, is_on};

use crate::circuit_output::CircuitOutput;
use crate::end::End;
use crate::read::status_of;
use crate::shown::{Shown, Zeros};
use ca_display::display_size;
use ca_link::Link;
use ca_records::Record;
use ca_server_subscriptions::{Posted, SharedUpdate, Update};
use ca_text::{Command, Status};
use ca_wire::{Answered, Ioid, ScalarMessage, Wanted, update_head};
use std::alloc::{AllocError, Global};
use std::sync::Arc;

impl End {
    /// A post to this record: each subscription that it concerns gets an update, in their
    /// order. It says whether one is on the record. Without memory for one some have it, and
    /// the end is to be closed.
    #[inline(always)]
    pub(crate) fn post(
        &mut self,
        of: &Record,
        mask: u16,
        shared: &Option<Arc<SharedUpdate>>,
    ) -> Result<bool, AllocError>
        requires { IsCopy (stored_of of.now) (option_map arc_value shared.now) }
        ensures ok { OnOk result (self.new
            ≡ with_post of.now.name mask (stored_of of.now) self.old) }
        ensures on { IfOk result (λ on.
            on ≡ list_any (is_on of.now.name) self.old.subscriptions) }
        ensures concerned { OnErr result
            (list_any (concerns of.now.name mask) self.old.subscriptions ≡ true) }
        ensures link { self.new.link ≡ self.old.link }
        ensures channels { self.new.channels ≡ self.old.channels }
    {
        let posted = Posted::of(of.held(), of.meta(), shared);
        let on = self.subscriptions.post(of.name(), mask, &posted)?;
        Ok(on)
    }

    /// A copy of this record's value that circuits share, with the image that the first
    /// subscription on it asks for. None if there is none, or no memory.
    #[inline(never)]
    pub(crate) fn share(&self, of: &Record) -> Option<Arc<SharedUpdate>>
        ensures { IsCopy (stored_of of.now) (option_map arc_value result) }
    {
        let wanted = self.subscriptions.wanted_on(of.name())?;
        let present = of.held().value().count() as u32;
        let count = if wanted.count == 0 {
            present
        } else {
            wanted.count
        };
        SharedUpdate::of(self.alloc, of.held(), of.meta(), wanted.data_type, count)
    }

    /// A post to this record and then a pump, if they leave no more than one update in the
    /// output, for which nothing need go through the queues: it is shown at once. If it says
    /// false, all is as it was.
    #[inline(always)]
    pub(crate) fn show_at_once(&mut self, of: &Record, mask: u16) -> bool
        requires { IsOpen self.old.link }
        ensures shown { result ≡ true → ShowsAtOnce of.now mask self.old self.new }
        ensures stays { result ≡ false → self.new ≡ self.old }
    {
        if self.link.is_full() {
            return false;
        }
        let Some(wanted) = self.subscriptions.only_one(of.name(), mask) else {
            return false;
        };
        match value_scalar(&wanted, of) {
            Some(payload) => send_scalar(&mut self.link, &wanted, payload).is_ok(),
            None => false,
        }
    }

    /// Puts updates into the output until none may go. Without memory for the next the end is to be
    /// closed, and the output has those before it.
    #[inline(always)]
    pub(crate) fn pump(&mut self) -> Result<(), AllocError>
        requires { IsOpen self.old.link }
        ensures { PumpsEnd self.old result self.new }
    {
        // Nothing waits after most messages.
        if self.subscriptions.is_idle() {
            return Ok(());
        }
        self.pump_waiting()
    }

    /// The updates that wait go as by `pump`. As a function of its own it leaves `pump` so small
    /// that a read takes 227 instructions in place of 252 (`bench/answer --instructions`).
    #[inline(never)]
    fn pump_waiting(&mut self) -> Result<(), AllocError>
        requires { IsOpen self.old.link }
        ensures { PumpsEnd self.old result self.new }
    {
        let mut whole = CircuitOutput::sharing(self.alloc, false);
        self.pump_all(&mut whole)
    }

    /// Updates leave until none may go, and all that waits with them. Without memory for the next
    /// those before it leave, and the end is to be closed. Up to this many bytes are copied.
    pub(crate) fn pump_over(
        &mut self,
        copied: usize,
        to: &mut CircuitOutput,
    ) -> Result<(), AllocError>
        requires open { IsOpen self.old.link }
        requires nothing { (to.old.before ≡ []) × (to.old.last ≡ []) }
        ensures { PumpsOver self.old result self.new (bytes_of to.new) }
    {
        let pumped = self.pump_all(to);
        to.take_last(copied, &mut self.link);
        pumped
    }

    /// Updates go into the output, or leave with what waits there, until none may go.
    #[inline(never)]
    fn pump_all(&mut self, to: &mut CircuitOutput) -> Result<(), AllocError>
        requires { IsOpen self.old.link }
        ensures pumps { PumpsEnd (end_behind to.old.before self.old) result
            (end_behind to.new.before self.new) }
        ensures grows { Grows to.old to.new }
    {
        let mut more = true;
        'pumping: while more {
            more = self.pump_one(to)?;
        }
        Ok(())
    }

    /// One update goes into the output, or leaves with what waits there. Says whether one might go.
    fn pump_one(&mut self, to: &mut CircuitOutput) -> Result<bool, AllocError>
        requires { IsOpen self.old.link }
        ensures pumps { PumpsOne (end_behind to.old.before self.old) result
            (end_behind to.new.before self.new) }
        ensures grows { Grows to.old to.new }
    {
        if to.is_full(&self.link) {
            return Ok(false);
        }
        if self.subscriptions.is_idle() {
            return Ok(false);
        }
        // Mostly one update waits alone: it is shown without a move.
        let Some((wanted, update)) = self.subscriptions.first() else {
            return self.pump_queued(to);
        };
        show(self.alloc, &mut self.link, to, &wanted, update)?;
        self.subscriptions.drop_first();
        Ok(true)
    }

    /// The next update of a queue goes into the output, which is not full, or leaves with what
    /// waits there. Says whether there was one.
    #[inline(never)]
    fn pump_queued(&mut self, to: &mut CircuitOutput) -> Result<bool, AllocError>
        requires open { IsOpen self.old.link }
        requires room { length (to.old.before ++ self.old.link.output) < output_limit }
        ensures pumps { PumpsOne (end_behind to.old.before self.old) result
            (end_behind to.new.before self.new) }
        ensures grows { Grows to.old to.new }
    {
        let Some((wanted, update)) = self.subscriptions.take()? else {
            return Ok(false);
        };
        show(self.alloc, &mut self.link, to, &wanted, &update)?;
        self.subscriptions.recycle(update);
        Ok(true)
    }

    /// How many bytes of payload the update has at most that has this number from the front
    /// of the queue at this place, if one waits there. Only a recorder of histories needs it.
    pub(crate) fn update_size(&self, place: usize, index: usize) -> Option<usize>
        ensures { SizesAt (events_of self.now) place index result }
    {
        let Some((wanted, update)) = self.subscriptions.update_at(place, index) else {
            return None;
        };
        Some(payload_size(&wanted, update))
    }
}

/// How many bytes of payload an update has at most that shows this to whoever asked so: an
/// image, or as many zero bytes, and those of its padding.
fn payload_size(wanted: &Wanted, shown: &Update) -> usize
    requires { IsAskable wanted.now }
    ensures { ShowsWithin wanted.now shown.now result }
{
    let count = count_for(wanted.count, shown);
    let Ok(size) = display_size(wanted.data_type, count) else {
        unreachable!()
    };
    shown.held().know();
    size + 7
}

/// Shows an update as its subscription asks: GETFAIL and zero bytes if its elements have
/// no place in that type.
#[inline(always)]
fn show(
    alloc: Global,
    link: &mut Link,
    to: &mut CircuitOutput,
    wanted: &Wanted,
    shown: &Update,
) -> Result<(), AllocError>
    requires open { IsOpen link.old }
    requires room { length (to.old.before ++ link.old.output) < output_limit }
    requires askable { IsAskable wanted.now }
    ensures ok { OnOk result ((m : Fields) × ShowsTo wanted.now shown.now m
        × SendsBehind m to.old link.old to.new link.new) }
    ensures some { OnErr result ((m : Fields) × ShowsTo wanted.now shown.now m) }
    ensures err { OnErr result ((link.new ≡ link.old) × (to.new ≡ to.old)) }
    ensures grows { Grows to.old to.new }
{
    match shown_scalar(wanted, shown) {
        Some(payload) => send_scalar(link, wanted, payload),
        None => {
            let count = count_for(wanted.count, shown);
            match to.shared(shown, wanted.data_type, count) {
                Some(shared) => to.share(alloc, link, wanted.id, shared),
                None => show_image(alloc, link, *wanted, shown),
            }
        }
    }
}

/// The eight bytes that show an update as its subscription asks, if it has one element, of the
/// type that is asked for.
#[inline(always)]
fn shown_scalar(wanted: &Wanted, shown: &Update) -> Option<u64>
    ensures { IfSome result (λ n.
        ShowsTo wanted.now shown.now (scalar (scalar_update wanted.now n))) }
{
    if wanted.count > 1 {
        return None;
    }
    shown.held().value().scalar(wanted.data_type)
}

/// The eight bytes that show a record's value as a subscription asks, if it has one element, of the
/// type that is asked for.
#[inline(always)]
fn value_scalar(wanted: &Wanted, of: &Record) -> Option<u64>
    ensures { IfSome result (λ n. ShowsTo wanted.now
        (record { value = of.now.value; meta = of.now.meta })
        (scalar (scalar_update wanted.now n))) }
{
    if wanted.count > 1 {
        return None;
    }
    of.held().value().scalar(wanted.data_type)
}

/// Puts an update of one element after what waits on an open link. Without memory the link is as it
/// was. As a function of its own it writes the message in its place; inlined, after all those
/// tests, it made the message elsewhere and copied it.
#[inline(never)]
fn send_scalar(link: &mut Link, wanted: &Wanted, payload: u64) -> Result<(), AllocError>
    requires { IsOpen link.old }
    ensures ok { OnOk result (link.new
        ≡ with_sent (scalar (scalar_update wanted.now payload) ∷ []) link.old) }
    ensures err { OnErr result (link.new ≡ link.old) }
{
    let said = ScalarMessage {
        command: Command::EventAdd,
        data_type: wanted.data_type,
        id: wanted.id,
        payload,
    };
    match link.queue_scalar(said) {
        Ok(()) => Ok(()),
        Err(_) => Err(AllocError),
    }
}

/// Puts an update after what waits on an open link, with an image that is made in its place.
#[inline(never)]
fn show_image(
    alloc: Global,
    link: &mut Link,
    wanted: Wanted,
    shown: &Update,
) -> Result<(), AllocError>
    requires open { IsOpen link.old }
    requires askable { IsAskable wanted }
    ensures ok { OnOk result ((m : Fields) × ShowsTo wanted shown.now m
        × (link.new ≡ with_sent (m ∷ []) link.old)) }
    ensures some { OnErr result ((m : Fields) × ShowsTo wanted shown.now m) }
    ensures err { OnErr result (link.new ≡ link.old) }
{
    let Wanted {
        sid: _,
        id,
        data_type,
        count,
    } = wanted;
    let count = count_for(count, shown);
    let Ok(size) = display_size(data_type, count) else {
        unreachable!()
    };
    let held = shown.held();
    held.know();
    let image = Shown {
        data_type,
        count,
        held,
        meta: shown.meta(),
    };
    let head = update_head(alloc, answered(id, Status::NORMAL, data_type, count));
    match link.queue_made(&head, size, &image) {
        Ok(()) => Ok(()),
        Err(refusal) => match status_of(refusal) {
            None => Err(AllocError),
            // An update has one status for each refusal: GETFAIL.
            Some(_) => {
                let about = answered(id, Status::GETFAIL, data_type, count);
                match send_zeros(alloc, link, about, size) {
                    Ok(()) => Ok(()),
                    Err(_) => Err(AllocError),
                }
            }
        },
    }
}

/// Puts an update with n zero bytes after what waits on an open link. Without memory
/// the link is as it was.
#[inline(never)]
fn send_zeros(
    alloc: Global,
    link: &mut Link,
    about: Answered,
    size: usize,
) -> Result<(), AllocError>
    requires open { IsOpen link.old }
    requires within { size ≤ payload_limit }
    ensures ok { OnOk result (link.new
        ≡ with_sent
        (update about.data_type about.count about.status.number about.id (replicate size 0) ∷ [])
        link.old) }
    ensures err { OnErr result (link.new ≡ link.old) }
{
    let head = update_head(alloc, about);
    match link.queue_made(&head, size, &Zeros { size }) {
        Ok(()) => Ok(()),
        Err(_) => Err(AllocError),
    }
}

/// What an update is about, how it went, and how many elements it has.
fn answered(id: Ioid, status: Status, data_type: u16, count: u32) -> Answered
    ensures { result
        ≡ record { id = id; status = status; data_type = data_type; count = count } }
{
    Answered {
        id,
        status,
        data_type,
        count,
    }
}

/// How many elements an update has: a count of 0 means the present count.
fn count_for(count: u32, update: &Update) -> u32
    requires { count ≤ element_limit }
    ensures count { result ≡ (if count == 0 then count_of update.now.value else count) }
    ensures limit { result ≤ element_limit }
{
    let present = update.held().value().count() as u32;
    if count == 0 { present } else { count }
}
