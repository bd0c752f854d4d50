//! What a client makes of an ERROR.
ghost use Rattle.std.specs.Prelude.{◌≡◌, [], MatchOption};
ghost use Rattle.ca_wire.specs.Reading.{BeginsHeader, NoHeader};
ghost use Rattle.ca_requests.specs.Meaning.{message_of};
ghost use Rattle.ca_requests.specs.Requests.{answered_by};
ghost use Rattle.ca_model.specs.Client.{channel_on};
ghost use Rattle.ca_model.specs.Hears.{Fails, any_failed, doing, failing, subscription_on};
ghost use Rattle.ca_model.specs.Hears.{subscription_failed, write_failed};
ghost use Rattle.ca_client_tables.specs.declared.first.First.TheVariants.{Message};
ghost use Rattle.ca_client_core.specs.First.{FirstOn, first_on, without_first};
ghost use Rattle.ca_client_core.specs.Hearing.{request_over, subscription_over, write_refused};
ghost use Rattle.ca_client_core.specs.Notices.{noticed};

use crate::client::ClientCore;
use crate::notice::Notice;
use ca_arena::Handle;
use ca_client_tables::Phase;
use ca_dbr::Outcome;
use ca_text::{Command, Status};
use ca_wire::{Head, Header, quoted};

impl ClientCore {
    // The request whose header it quotes has failed. An ERROR that quotes none is skipped.
    pub(crate) fn hear_error(&mut self, circuit: Handle, head: &Head) -> Option<Notice>
        requires { FirstOn self.old circuit (Message head.now) }
        ensures { Fails
            (without_first circuit head.now self.old)
            circuit
            (first_on self.old circuit head.now)
            (doing [] (noticed result) self.new) }
    {
        let quoted = self.quoted_by(circuit, head);
        self.take(circuit, head);
        match quoted {
            Some(request) => self.hear_failed(circuit, &request.header, &head.header),
            None => None,
        }
    }

    // The header that the first message of a circuit, which is an ERROR with this header, quotes.
    fn quoted_by(&self, circuit: Handle, head: &Head) -> Option<Head>
        requires { FirstOn self.now circuit (Message head.now) }
        ensures { MatchOption
            result
            (NoHeader (first_on self.now circuit head.now).payload)
            (BeginsHeader (first_on self.now circuit head.now).payload) }
    {
        match self.circuits.by_handle(circuit) {
            Some(found) => quoted(found.payload(head)),
            None => None,
        }
    }

    // The request with this header failed: a WRITE, an EVENT_ADD, or a request with an answer.
    fn hear_failed(&mut self, circuit: Handle, request: &Header, error: &Header) -> Option<Notice>
        ensures { doing [] (noticed result) self.new
            ≡ failing self.old circuit (message_of error.now []) request.now }
    {
        let status = Status { number: error.p2 };
        if request.command == Command::Write.number() {
            return match self.hear_write_failed(circuit, error) {
                Some(channel) => Some(Notice::WriteRefused(channel, status)),
                None => None,
            };
        }
        if request.command == Command::EventAdd.number() {
            return match self.hear_subscription_failed(circuit, request.p2, error) {
                Some(subscription) => Some(Notice::SubscriptionEnded(subscription, status)),
                None => None,
            };
        }
        match self.hear_request_failed(circuit, request.command, request.p2, error) {
            Some(request) => Some(Notice::Completed(request, Outcome::Failed(status))),
            None => None,
        }
    }

    // An ERROR quotes a WRITE: the channel on which that failed, if it is live.
    fn hear_write_failed(&self, circuit: Handle, error: &Header) -> Option<Handle>
        ensures { doing [] (write_refused (message_of error.now []) result) self.now
            ≡ write_failed
            self.now
            (message_of error.now [])
            (channel_on self.now circuit error.now.p1) }
    {
        let Some((channel, phase)) = self.channel_on(circuit, error.p1) else {
            return None;
        };
        match phase {
            Phase::Connecting => None,
            Phase::Creating(_) => None,
            Phase::Live(_, _) => Some(channel),
            Phase::Leaving => None,
            Phase::Clearing => None,
            Phase::Doomed => None,
        }
    }

    // An ERROR quotes an EVENT_ADD of this id: the subscription that is over.
    fn hear_subscription_failed(
        &mut self,
        circuit: Handle,
        id: u32,
        error: &Header,
    ) -> Option<Handle>
        ensures { doing [] (subscription_over (message_of error.now []) result) self.new
            ≡ subscription_failed self.old (message_of error.now [])
            (subscription_on self.old circuit id) }
    {
        let Some(subscription) = self.subscription_on(circuit, id) else {
            return None;
        };
        self.monitors.free(subscription);
        Some(subscription)
    }

    // An ERROR quotes a request of this command and id: the one that failed.
    fn hear_request_failed(
        &mut self,
        circuit: Handle,
        command: u16,
        id: u32,
        error: &Header,
    ) -> Option<Handle>
        ensures { doing [] (request_over (message_of error.now []) result) self.new
            ≡ any_failed
            self.old
            (message_of error.now [])
            (answered_by circuit command id self.old.requests) }
    {
        self.requests.failed(circuit, command, id)
    }
}
