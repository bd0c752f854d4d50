//! What a client makes of the reply to a CREATE_CHAN.
ghost use Rattle.std.specs.Prelude.{[], ◌≡◌, OnErr, OnOk, length};
ghost use Rattle.ca_model.specs.Client as client;
ghost use Rattle.ca_requests.specs.Meaning.{message_of};
ghost use Rattle.ca_model.specs.Client.{out_bytes};
ghost use Rattle.ca_model.specs.Hears.{native_in};
ghost use Rattle.ca_client_tables.specs.Forms.{native_of};
ghost use Rattle.ca_client_core.specs.Hearing.{HasEffect, created_by};
ghost use Rattle.ca_client_tables.specs.Ends.{cut_back, with_message, with_messages};
ghost use Rattle.ca_client_core.specs.Again.{add_message, add_messages, dooming, living};
ghost use Rattle.ca_client_core.specs.Again.{subscribed_again};
ghost use Rattle.ca_client_core.specs.Turns.{MayTurn};

use crate::client::ClientCore;
use crate::notice::Notice;
use crate::notices::Notices;
use crate::subscribing::add_message;
use ca_arena::Handle;
use ca_client_tables::{Native, Phase};
use ca_ids::WireId;
use ca_monitor::Subscription;
use ca_wire::{Cid, Header, Sid, clear_request};
use std::alloc::AllocError;

impl ClientCore {
    // The channel is live, and is subscribed to again under the same ids; one that its caller
    // cleared meanwhile is cleared now.
    pub(crate) fn hear_create_channel(
        &mut self,
        circuit: Handle,
        header: &Header,
    ) -> Result<Notices, AllocError>
        ensures { HasEffect self.old (created_by self.old circuit header.now) result self.new }
    {
        let Some((channel, phase)) = self.channel_on(circuit, header.p1) else {
            return Ok(Notices::none(self.alloc));
        };
        match phase {
            Phase::Connecting => Ok(Notices::none(self.alloc)),
            Phase::Creating(rights) => { self.go_live(circuit, channel, native_in(header), rights) }
            Phase::Live(_, _) => Ok(Notices::none(self.alloc)),
            Phase::Leaving => Ok(Notices::none(self.alloc)),
            Phase::Clearing => Ok(Notices::none(self.alloc)),
            Phase::Doomed => self.clear_doomed(circuit, channel, header.p2),
        }
    }

    // A channel that is being created is live as this, with these access rights.
    fn go_live(
        &mut self,
        circuit: Handle,
        channel: Handle,
        native: Native,
        rights: u32,
    ) -> Result<Notices, AllocError>
        requires { MayTurn channel circuit (client.Live (native_of native) rights) self.old }
        ensures { HasEffect
            self.old
            (living circuit (native_of native) rights channel self.old)
            result
            self.new }
    {
        let waiting = self.out_bytes(circuit).len();
        self.subscribe_again(circuit, native.sid, channel)?;
        match self.make_live(circuit, channel, native, rights) {
            Ok(()) => Ok(Notices::one(self.alloc, Some(Notice::Live(channel)))),
            Err(_) => {
                self.cut_back(circuit, waiting);
                Err(AllocError)
            }
        }
    }

    // A channel that its caller cleared while it was being created is cleared under this SID.
    fn clear_doomed(
        &mut self,
        circuit: Handle,
        channel: Handle,
        sid: u32,
    ) -> Result<Notices, AllocError>
        requires { MayTurn channel circuit client.Clearing self.old }
        ensures { HasEffect self.old (dooming circuit sid channel self.old) result self.new }
    {
        let cid = Cid::new(WireId::of(channel).number());
        self.queue(circuit, &clear_request(self.alloc, Sid::new(sid), cid))?;
        self.set_phase(circuit, channel, Phase::Clearing);
        Ok(Notices::none(self.alloc))
    }

    // The EVENT_ADDs of a channel's subscriptions wait, in order of index.
    // Without memory none does.
    fn subscribe_again(
        &mut self,
        circuit: Handle,
        sid: u32,
        channel: Handle,
    ) -> Result<(), AllocError>
        ensures ok { OnOk result (self.new ≡ subscribed_again circuit sid channel self.old) }
        ensures err { OnErr result (self.new ≡ self.old) }
    {
        let standing = self.monitors.standing_to(self.alloc, channel)?;
        let waiting = self.out_bytes(circuit).len();
        match self.queue_adds(circuit, sid, &standing) {
            Ok(()) => Ok(()),
            Err(_) => {
                self.cut_back(circuit, waiting);
                Err(AllocError)
            }
        }
    }

    // The EVENT_ADDs of these subscriptions wait. Without memory the first of them may.
    fn queue_adds(
        &mut self,
        circuit: Handle,
        sid: u32,
        standing: &[(Handle, Subscription)],
    ) -> Result<(), AllocError>
        ensures ok { OnOk result (self.new
            ≡ with_messages circuit (add_messages sid standing.now) self.old) }
        ensures err { OnErr result (cut_back circuit (length (out_bytes self.old circuit)) self.new
            ≡ self.old) }
    {
        for index in 0..standing.len() {
            self.queue_add(circuit, sid, standing[index])?;
        }
        Ok(())
    }

    // The EVENT_ADD of a subscription waits.
    fn queue_add(
        &mut self,
        circuit: Handle,
        sid: u32,
        standing: (Handle, Subscription),
    ) -> Result<(), AllocError>
        ensures ok { OnOk result (self.new
            ≡ with_message circuit (add_message sid standing) self.old) }
        ensures err { OnErr result (self.new ≡ self.old) }
    {
        let message = add_message(self.alloc, sid, standing)?;
        self.queue(circuit, &message)
    }
}

// What a CREATE_CHAN says of its channel.
fn native_in(header: &Header) -> Native
    ensures { native_of result ≡ native_in (message_of header.now []) }
{
    Native {
        sid: header.p2,
        data_type: header.data_type,
        count: header.count,
    }
}
