//! How far a channel is, as callers see it.
ghost use Rattle.std.specs.Prelude.{◌≡◌};
ghost use Rattle.ca_client_tables.specs.Forms.{standing_of};
ghost use Rattle.ca_client_core.specs.Forms.{stated};
ghost use Rattle.ca_model.specs.ChannelState.{channel_state, state_in};
ghost use Rattle.ca_model.specs.Client.{standing_unless_cleared};

use crate::client::ClientCore;
use ca_arena::Handle;
use ca_client_tables::{Phase, Standing};
use ca_text::Refusal;

/// How far a channel is.
#[derive(Clone, Copy, Debug, PartialEq, Eq)]
pub enum ChannelState {
    /// It is searched for.
    Searching,
    /// It was found, and waits for its circuit to be connected.
    Connecting,
    /// It is being created.
    Creating,
    /// It is live: its native type, its greatest count, and its access rights, the bits 1 to
    /// read and 2 to write.
    Live(u16, u32, u32),
    /// Its record was removed.
    Leaving,
}

impl ClientCore {
    /// Where a channel is. Refused as StaleHandle if the handle is stale.
    pub fn channel_state(&self, channel: Handle) -> Result<ChannelState, Refusal>
        ensures { stated result ≡ channel_state self.now channel }
    {
        match self.channels.by_handle(channel) {
            Some(found) => reported(found.standing()),
            None => Err(Refusal::StaleHandle),
        }
    }
}

// What is reported of a channel that is there.
fn reported(standing: Standing) -> Result<ChannelState, Refusal>
    ensures { stated result ≡ state_in (standing_unless_cleared (standing_of standing)) }
{
    match standing {
        Standing::Searching => Ok(ChannelState::Searching),
        Standing::On(_, phase) => match phase {
            Phase::Connecting => Ok(ChannelState::Connecting),
            Phase::Creating(_) => Ok(ChannelState::Creating),
            Phase::Live(native, rights) => {
                Ok(ChannelState::Live(native.data_type, native.count, rights))
            }
            Phase::Leaving => Ok(ChannelState::Leaving),
            Phase::Clearing => Err(Refusal::StaleHandle),
            Phase::Doomed => Err(Refusal::StaleHandle),
        },
    }
}
