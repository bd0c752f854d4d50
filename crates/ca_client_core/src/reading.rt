//! A read of a channel is asked for.
ghost use Rattle.std.specs.Prelude.{◌≡◌, List};
ghost use Rattle.ca_model.specs.Answers.{Sending};
ghost use Rattle.ca_model.specs.ClientCalls.{ClientReads, ClientReadsDisplay, ReadsUnless};
ghost use Rattle.ca_model.specs.ClientCalls.{IsLive};
ghost use Rattle.ca_client_core.specs.Lives.{ioid_fault, live_of};

use crate::client::ClientCore;
use crate::live::Live;
use ca_arena::Handle;
use ca_dbr::Value;
use ca_ids::WireId;
use ca_requests::Asked;
use ca_text::Refusal;
use ca_wire::{Ioid, Sid, Wanted, read_request};

impl ClientCore {
    /// Asks for the value of a channel, as this type from 0 to 20 and with this many elements; a
    /// count of 0 asks for those that there are.
    ///
    /// Refused as StaleHandle, as NotLive, as BadType for a type over 20, as NoAccess without the
    /// right to read, as BadCount for more elements than the channel has, as OutputFull if too much
    /// waits, as ArenaFull if no IOID may be given, then as OutOfMemory.
    pub fn read(&mut self, channel: Handle, data_type: u16, count: u32) -> Result<Handle, Refusal>
        ensures { (sent : List Sending)
            × ClientReads
            self.old
            channel
            (record { data_type = data_type; count = count })
            result
            sent
            self.new }
    {
        let live = self.askable(channel, data_type, count)?;
        self.read_on(live, channel, data_type, count)
    }

    /// Asks for the value of a channel with display data, as this type from 21 to 34 and with this
    /// many elements; a count of 0 asks for those that there are.
    ///
    /// Refused as `read` is, but as BadType for any other type.
    pub fn read_display(
        &mut self,
        channel: Handle,
        data_type: u16,
        count: u32,
    ) -> Result<Handle, Refusal>
        ensures { (sent : List Sending)
            × ClientReadsDisplay
            self.old
            channel
            (record { data_type = data_type; count = count })
            result
            sent
            self.new }
    {
        let live = self.displayable(channel, data_type, count)?;
        self.read_on(live, channel, data_type, count)
    }

    // Asks for the value of this live channel, which may be asked for if an IOID may be given.
    fn read_on(
        &mut self,
        live: Live,
        channel: Handle,
        data_type: u16,
        count: u32,
    ) -> Result<Handle, Refusal>
        requires { IsLive self.old channel (live_of live) }
        ensures { (sent : List Sending)
            × ReadsUnless
            (ioid_fault self.old)
            self.old
            channel
            (record { data_type = data_type; count = count })
            result
            sent
            self.new }
    {
        let Some(request) = self.requests.vacant() else {
            return Err(Refusal::ArenaFull);
        };
        let wanted = Wanted {
            sid: Sid::new(live.native.sid),
            id: Ioid::new(WireId::of(request).number()),
            data_type,
            count,
        };
        let message = read_request(self.alloc, wanted);
        let asked = Asked::Read(data_type, count);
        match self.ask(request, channel, live.circuit, asked, &message) {
            Ok(()) => Ok(request),
            Err(_) => Err(Refusal::OutOfMemory),
        }
    }

    /// The memory of this value is kept for the value of a later read. Without memory to keep it,
    /// or with many kept, it is dropped.
    pub fn recycle_value(&mut self, value: Value)
        ensures { self.new ≡ self.old }
    {
        self.requests.recycle(value);
    }
}
