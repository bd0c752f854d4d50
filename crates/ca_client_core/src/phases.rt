//! How far a channel is on its circuit, and what brings it further.
ghost use Rattle.std.specs.Prelude.{◌≡◌, OnErr, OnOk, option_map, true};
ghost use Rattle.ca_model.specs.Client as client;
ghost use Rattle.ca_model.specs.Client.{On, channel_on, searched_again, with_standing};
ghost use Rattle.ca_model.specs.Client.{without_channel};
ghost use Rattle.ca_client_tables.specs.Forms.{native_of, phase_of};
ghost use Rattle.ca_client_core.specs.Hearing.{found_as};
ghost use Rattle.ca_client_tables.specs.Listed.{is_live_in};
ghost use Rattle.ca_client_core.specs.Turns.{MayTurn};
ghost use Rattle.ca_model.specs.Placed.{HasNothingOut};

use crate::client::ClientCore;
use ca_arena::Handle;
use ca_client_tables::{Native, Phase, Standing, note_live, set_standing};
use ca_ids::WireId;
use std::alloc::AllocError;

impl ClientCore {
    // The channel of this CID, and how far it is on this circuit.
    pub(crate) fn channel_on(&self, circuit: Handle, cid: u32) -> Option<(Handle, Phase)>
        ensures { option_map found_as result ≡ channel_on self.now circuit cid }
    {
        let Some((handle, channel)) = self.channels.by_wire(WireId::new(cid)) else {
            return None;
        };
        match channel.phase_on(circuit) {
            Some(phase) => Some((handle, phase)),
            None => None,
        }
    }

    // The channel is on this circuit, in this phase.
    pub(crate) fn set_phase(&mut self, circuit: Handle, channel: Handle, phase: Phase)
        requires turn { MayTurn channel circuit (phase_of phase) self.old }
        requires alive { client.is_live (phase_of phase) ≡ true
            → is_live_in self.old.channels channel ≡ true }
        ensures { self.new ≡ with_standing (On circuit (phase_of phase)) channel self.old }
    {
        set_standing(&mut self.channels, channel, Standing::On(circuit, phase));
    }

    // The channel is live on this circuit. Without memory nothing changes.
    pub(crate) fn make_live(
        &mut self,
        circuit: Handle,
        channel: Handle,
        native: Native,
        rights: u32,
    ) -> Result<(), AllocError>
        requires { MayTurn channel circuit (client.Live (native_of native) rights) self.old }
        ensures ok { OnOk result (self.new
            ≡ with_standing
            (On circuit (client.Live (native_of native) rights))
            channel
            self.old) }
        ensures err { OnErr result (self.new ≡ self.old) }
    {
        note_live(
            self.alloc,
            &mut self.lives,
            &self.channels,
            circuit,
            channel,
        )?;
        set_standing(
            &mut self.channels,
            channel,
            Standing::On(circuit, Phase::Live(native, rights)),
        );
        Ok(())
    }

    // The channel is searched for again, as from the beginning.
    pub(crate) fn seek_again(&mut self, channel: Handle)
        requires { HasNothingOut channel self.old }
        ensures { self.new ≡ searched_again self.old channel }
    {
        set_standing(&mut self.channels, channel, Standing::Searching);
        self.searches
            .resume(WireId::of(channel).number(), self.moment);
    }

    // Nothing has the CID of this channel.
    pub(crate) fn remove_channel(&mut self, channel: Handle)
        requires { HasNothingOut channel self.old }
        ensures { self.new ≡ without_channel self.old channel }
    {
        let _ = self.channels.free(channel);
        self.searches.remove(WireId::of(channel).number());
    }
}
