//! Live channels, and which reads and subscriptions a client may send on one.
ghost use Rattle.std.specs.Prelude.{◌≡◌, ◌<◌, IfOk, None, false};
ghost use Rattle.ca_model.specs.Client.{standing_at};
ghost use Rattle.ca_client_core.specs.Calls.{live_in, live_ask_fault};
ghost use Rattle.ca_client_core.specs.Lives.{lives, MayAsk, MayAskDisplay};

use crate::client::ClientCore;
use ca_arena::Handle;
use ca_client_tables::{Native, Phase, Standing};
use ca_text::Refusal;

// The greatest type of an image without display data.
const LAST_TYPE: u64 = 20;

// The types of images with display data.
const FIRST_DISPLAY_TYPE: u16 = 21;

const LAST_DISPLAY_TYPE: u16 = 34;

/// A channel that is live: on which circuit, as what, and with which access rights.
#[derive(Clone, Copy, Debug, PartialEq, Eq)]
pub(crate) struct Live {
    pub(crate) circuit: Handle,
    pub(crate) native: Native,
    pub(crate) rights: u32,
}

impl ClientCore {
    // The channel of this handle, if it is live.
    pub(crate) fn live(&self, channel: Handle) -> Result<Live, Refusal>
        ensures { lives result ≡ live_in (standing_at self.now channel) }
    {
        let Some(standing) = self.standing(channel) else {
            return Err(Refusal::StaleHandle);
        };
        match standing {
            Standing::Searching => Err(Refusal::NotLive),
            Standing::On(circuit, phase) => match phase {
                Phase::Connecting => Err(Refusal::NotLive),
                Phase::Creating(_) => Err(Refusal::NotLive),
                Phase::Live(native, rights) => Ok(Live {
                    circuit,
                    native,
                    rights,
                }),
                Phase::Leaving => Err(Refusal::NotLive),
                Phase::Clearing => Err(Refusal::NotLive),
                Phase::Doomed => Err(Refusal::NotLive),
            },
        }
    }

    // The live channel on which a read or a subscription may go out, while an id is free for it.
    pub(crate) fn askable(
        &self,
        channel: Handle,
        data_type: u16,
        count: u32,
    ) -> Result<Live, Refusal>
        ensures { MayAsk
            self.now
            channel
            (record { data_type = data_type; count = count })
            result }
    {
        self.askable_wide(channel, u64::from(data_type), u64::from(count))
    }

    // The live channel on which a read or a subscription may go out, of a type and a count that may
    // be greater than any that a message carries.
    pub(crate) fn askable_wide(
        &self,
        channel: Handle,
        data_type: u64,
        count: u64,
    ) -> Result<Live, Refusal>
        ensures may { MayAsk
            self.now
            channel
            (record { data_type = data_type; count = count })
            result }
        ensures fits { IfOk result (λ _. (data_type < 65536) × (count < 4294967296)) }
    {
        let live = self.live(channel)?;
        match self.ask_fault(live, data_type > LAST_TYPE, count) {
            Some(refusal) => Err(refusal),
            None => Ok(live),
        }
    }

    // The live channel on which a read with display data may go out, while an id is free for it.
    pub(crate) fn displayable(
        &self,
        channel: Handle,
        data_type: u16,
        count: u32,
    ) -> Result<Live, Refusal>
        ensures { MayAskDisplay
            self.now
            channel
            (record { data_type = data_type; count = count })
            result }
    {
        let live = self.live(channel)?;
        let is_bad = (data_type < FIRST_DISPLAY_TYPE) | (data_type > LAST_DISPLAY_TYPE);
        match self.ask_fault(live, is_bad, u64::from(count)) {
            Some(refusal) => Err(refusal),
            None => Ok(live),
        }
    }

    // Why a read or a subscription on a live channel, of a type that is bad or not, is refused
    // while an id is free for it.
    fn ask_fault(&self, live: Live, is_bad: bool, count: u64) -> Option<Refusal>
        ensures fault { result
            ≡ live_ask_fault is_bad self.now false live.circuit live.native.count live.rights
            count }
        ensures fits { result ≡ None → (is_bad ≡ false) × (count < 4294967296) }
    {
        if is_bad {
            return Some(Refusal::BadType);
        }
        if live.rights % 2 != 1 {
            return Some(Refusal::NoAccess);
        }
        if count > u64::from(live.native.count) {
            return Some(Refusal::BadCount);
        }
        if self.is_over(live.circuit) {
            return Some(Refusal::OutputFull);
        }
        None
    }
}
