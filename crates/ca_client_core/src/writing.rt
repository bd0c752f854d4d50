//! Writes and puts with notification go out.
ghost use Rattle.std.specs.Prelude.{◌≡◌, OnErr, OnOk, ◌<◌, None, false, List};
ghost use Rattle.ca_dbr.specs.Elements.{elements};
ghost use Rattle.ca_client_tables.specs.Ends.{with_message};
ghost use Rattle.ca_client_core.specs.Lives.{live_of};
ghost use Rattle.ca_client_tables.specs.Puts.{IsSmall};
ghost use Rattle.ca_client_core.specs.Puts.{put_message, MayPut, live_put_fault};
ghost use Rattle.ca_text.specs.declared.command.Command.TheVariants.{WriteNotify};
ghost use Rattle.ca_ids.specs.Wire.{wire_of};
ghost use Rattle.ca_requests.specs.Requests.{Put};
ghost use Rattle.ca_model.specs.Answers.{Sending};
ghost use Rattle.ca_model.specs.ClientCalls.{ClientPuts, ClientWrites, is_misfit};
ghost use Rattle.ca_client_core.specs.Asks.{Asks};
ghost use Rattle.ca_model.specs.Placed.{WasLive};
ghost use Rattle.ca_client_tables.specs.Forms.{native_of};

use crate::client::ClientCore;
use crate::live::Live;
use ca_arena::Handle;
use ca_client_tables::{Native, size_of};
use ca_dbr::Value;
use ca_ids::WireId;
use ca_requests::Asked;
use ca_text::{Command, PAYLOAD_LIMIT, Refusal};
use ca_wire::{Ioid, Sid, Wanted, put_head};
use std::alloc::AllocError;

impl ClientCore {
    // Queues a write of this value, which is made in its place. Without memory nothing changes.
    pub(crate) fn queue_value(
        &mut self,
        live: Live,
        command: Command,
        id: Ioid,
        value: &Value,
    ) -> Result<(), AllocError>
        requires { IsSmall (elements value.now) }
        ensures ok { OnOk result (self.new
            ≡ with_message
            live.circuit
            (put_message command (live_of live) (elements value.now) id)
            self.old) }
        ensures err { OnErr result (self.new ≡ self.old) }
    {
        let wanted = Wanted {
            sid: Sid::new(live.native.sid),
            id,
            data_type: value.base_type().number(),
            count: value.count() as u32,
        };
        let head = put_head(self.alloc, command, wanted);
        let Some(found) = self.circuits.by_handle_mut(live.circuit) else {
            return Ok(());
        };
        found.queue_value(&head, value)?;
        Ok(())
    }

    /// Writes a value to a channel, with no answer if that is done.
    ///
    /// Refused as StaleHandle, as NotLive, as NoAccess without the right to write, as BadCount for
    /// no element, more elements than the channel has or more bytes than a message takes, as
    /// OutputFull if too much waits, then as OutOfMemory.
    pub fn write(&mut self, channel: Handle, value: &Value) -> Result<(), Refusal>
        ensures { (sent : List Sending)
            × ClientWrites self.old channel (elements value.now) result sent self.new }
    {
        let live = self.puttable(channel, value)?;
        match self.queue_value(live, Command::Write, Ioid::new(0), value) {
            Ok(()) => Ok(()),
            Err(_) => Err(Refusal::OutOfMemory),
        }
    }

    /// Writes a value to a channel. The request completes once that is done, or failed.
    ///
    /// Refused as StaleHandle, as NotLive, as NoAccess without the right to write, as BadCount for
    /// no element, more elements than the channel has or more bytes than a message takes, as
    /// OutputFull if too much waits, as ArenaFull if no IOID may be given, then as OutOfMemory.
    pub fn write_notify(&mut self, channel: Handle, value: &Value) -> Result<Handle, Refusal>
        ensures { (sent : List Sending)
            × ClientPuts self.old channel (elements value.now) result sent self.new }
    {
        let live = self.puttable(channel, value)?;
        let Some(request) = self.requests.vacant() else {
            return Err(Refusal::ArenaFull);
        };
        match self.put(request, channel, live, value) {
            Ok(()) => Ok(request),
            Err(_) => Err(Refusal::OutOfMemory),
        }
    }

    // Issues a put under the handle that is given next, and queues its message. Without
    // memory nothing changes.
    fn put(
        &mut self,
        vacant: Handle,
        channel: Handle,
        live: Live,
        value: &Value,
    ) -> Result<(), AllocError>
        requires small { IsSmall (elements value.now) }
        requires live { WasLive self.old channel live.circuit }
        ensures { Asks
            self.old
            vacant
            channel
            live.circuit
            Put
            (put_message WriteNotify (live_of live) (elements value.now) (wire_of vacant))
            result
            self.new }
    {
        let waiting = self.out_bytes(live.circuit).len();
        let id = Ioid::new(WireId::of(vacant).number());
        self.queue_value(live, Command::WriteNotify, id, value)?;
        self.issue_or_cut(waiting, vacant, channel, live.circuit, Asked::Put)
    }

    // The live channel to which a value may be written, while an id is free for that.
    fn puttable(&self, channel: Handle, value: &Value) -> Result<Live, Refusal>
        ensures { MayPut self.now channel (elements value.now) result }
    {
        let live = self.live(channel)?;
        match self.put_fault(live, value) {
            Some(refusal) => Err(refusal),
            None => Ok(live),
        }
    }

    // Why a write to a live channel is refused while an id is free for it.
    fn put_fault(&self, live: Live, value: &Value) -> Option<Refusal>
        ensures small { result ≡ None → IsSmall (elements value.now) }
        ensures fault { result
            ≡ live_put_fault
            self.now
            false
            live.circuit
            (native_of live.native)
            live.rights
            (elements value.now) }
    {
        if live.rights / 2 % 2 != 1 {
            return Some(Refusal::NoAccess);
        }
        if is_misfit(live.native, value) {
            return Some(Refusal::BadCount);
        }
        if self.is_over(live.circuit) {
            return Some(Refusal::OutputFull);
        }
        None
    }
}

// Whether a value has no element, more than its channel takes, or more bytes than a payload has.
fn is_misfit(native: Native, value: &Value) -> bool
    ensures misfit { result ≡ is_misfit (native_of native) (elements value.now) }
    ensures small { result ≡ false → IsSmall (elements value.now) }
{
    let count = value.count();
    if count == 0 {
        return true;
    }
    if count > native.count as usize {
        return true;
    }
    size_of(value) > PAYLOAD_LIMIT
}
