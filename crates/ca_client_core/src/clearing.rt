//! A channel is cleared by its caller.
ghost use Rattle.std.specs.Prelude.{◌≡◌, ◌<◌, List, Some, is_none, true};
ghost use Rattle.ca_requests.specs.Requests.{asks_on};
ghost use Rattle.ca_model.specs.Answers.{Sending};
ghost use Rattle.ca_model.specs.Client as client;
ghost use Rattle.ca_model.specs.Client.{On, connection_at, disconnections, with_standing};
ghost use Rattle.ca_model.specs.Client.{without_channel};
ghost use Rattle.ca_model.specs.ClientCalls.{ClientClears, all_over, unsubscribed_all, unwanted};
ghost use Rattle.ca_client_core.specs.Clearing.{ClearsLive};
ghost use Rattle.ca_client_core.specs.Turns.{MayTurn, WasLiveOn};
ghost use Rattle.ca_model.specs.Placed.{HasNothingOut};

use crate::client::ClientCore;
use crate::notices::Notices;
use ca_arena::Handle;
use ca_client_tables::{Phase, Standing, is_used, let_go, set_standing};
use ca_ids::WireId;
use ca_text::Refusal;
use ca_wire::{Cid, Sid, clear_request};

impl ClientCore {
    /// Clears a channel: its handle names nothing from now on, and each of its open requests is
    /// complete with Disconnected, in order of issue.
    ///
    /// Refused as StaleHandle if the handle is stale, then as OutOfMemory, only for the
    /// CLEAR_CHANNEL of a live channel.
    pub fn clear(&mut self, channel: Handle) -> Result<Notices, Refusal>
        ensures { (sent : List Sending)
            × ClientClears self.old channel result sent self.new }
    {
        self.know();
        let Some(standing) = self.standing(channel) else {
            return Err(Refusal::StaleHandle);
        };
        match standing {
            Standing::Searching => {
                self.let_channel_go(channel);
                Ok(Notices::none(self.alloc))
            }
            Standing::On(circuit, phase) => match phase {
                Phase::Connecting => {
                    self.let_channel_go(channel);
                    self.let_unwanted_go(circuit);
                    Ok(Notices::none(self.alloc))
                }
                Phase::Creating(_) => {
                    self.doom(circuit, channel);
                    Ok(Notices::none(self.alloc))
                }
                Phase::Live(native, _) => self.clear_live(circuit, channel, native.sid),
                Phase::Leaving => Ok(self.end_all(circuit, channel)),
                Phase::Clearing => Err(Refusal::StaleHandle),
                Phase::Doomed => Err(Refusal::StaleHandle),
            },
        }
    }

    // The ids of the channel's subscriptions are free.
    fn free_subscriptions(&mut self, channel: Handle)
        ensures { self.new ≡ unsubscribed_all channel self.old }
    {
        self.monitors.free_channel(channel);
    }

    // Nothing is on the way for a channel that was not live.
    fn let_channel_go(&mut self, channel: Handle)
        requires { HasNothingOut channel self.old }
        ensures { self.new ≡ without_channel (unsubscribed_all channel self.old) channel }
    {
        self.free_subscriptions(channel);
        self.remove_channel(channel);
    }

    // A channel that is being created is cleared once it is created.
    fn doom(&mut self, circuit: Handle, channel: Handle)
        requires { MayTurn channel circuit client.Doomed self.old }
        ensures { self.new
            ≡ with_standing (On circuit client.Doomed) channel (unsubscribed_all channel self.old) }
    {
        self.free_subscriptions(channel);
        self.set_phase(circuit, channel, Phase::Doomed);
    }

    // A live channel is cleared: its CLEAR_CHANNEL goes out. Without memory nothing changes.
    fn clear_live(&mut self, circuit: Handle, channel: Handle, sid: u32) -> Result<Notices, Refusal>
        requires { WasLiveOn channel circuit self.old }
        ensures { ClearsLive self.old channel circuit sid result self.new }
    {
        let cid = Cid::new(WireId::of(channel).number());
        let message = clear_request(self.alloc, Sid::new(sid), cid);
        match self.queue(circuit, &message) {
            Ok(()) => Ok(self.end_all(circuit, channel)),
            Err(_) => Err(Refusal::OutOfMemory),
        }
    }

    // The requests and subscriptions of a channel that was live are over, and it waits for the
    // answer to its clear.
    fn end_all(&mut self, circuit: Handle, channel: Handle) -> Notices
        requires { WasLiveOn channel circuit self.old }
        ensures told { result ≡ disconnections (asks_on channel) self.old }
        ensures over { self.new
            ≡ with_standing (On circuit client.Clearing) channel
            (all_over circuit channel self.old) }
    {
        let told = self.requests.end_channel(channel);
        self.monitors.end_channel(circuit, channel);
        set_standing(
            &mut self.channels,
            channel,
            Standing::On(circuit, Phase::Clearing),
        );
        Notices::of(told, Vec::new(self.alloc), None)
    }

    // A circuit that is not connected, and that no channel wants any more, is dropped.
    fn let_unwanted_go(&mut self, circuit: Handle)
        requires { is_none (connection_at self.old circuit) ≡ true }
        ensures { self.new ≡ unwanted circuit self.old }
    {
        if is_used(&self.channels, circuit) {
            return;
        }
        let Some(found) = self.circuits.by_handle(circuit) else {
            return;
        };
        let is_name = found.is_name;
        let _ = let_go(
            self.alloc,
            &mut self.circuits,
            &mut self.order,
            circuit,
            is_name,
        );
    }
}
