//! A step of a circuit: its next message is read.
ghost use Rattle.std.specs.Prelude.{◌≡◌, List, true};
ghost use Rattle.ca_model.specs.Answers.{Sending};
ghost use Rattle.ca_model.specs.ClientEnds.{ClientConnects, ClientSteps, gone};
ghost use Rattle.ca_client_core.specs.Replying.{ReadsReply, as_reply};
ghost use Rattle.ca_client_core.specs.Dispatch.{IsReply};
ghost use Rattle.ca_client_core.specs.Stepping.{stepped_as};

use crate::client::ClientCore;
use crate::closing::Closing;
use crate::notices::Notices;
use ca_arena::Handle;
use ca_client_tables::{First, Why};
use ca_dbr::Outcome;
use ca_text::Command;
use ca_wire::{Header, Pipe};
use std::alloc::{AllocError, Global};

/// What a step of a client's end of a circuit did.
#[derive(Debug, Drop)]
pub enum Stepped {
    /// It read a message, with these notices.
    Notices(Notices),
    /// No complete message is there.
    NeedBytes,
    /// The end has ended. The bytes that waited before the step are left.
    Closed(Closing),
}

/// What became of a reply that was to be read. Most messages are replies; any other report of a
/// step is large.
#[derive(Debug, Drop)]
pub enum Reply {
    /// It completed this request with this outcome.
    Completed(Handle, Outcome),
    /// No open request awaited it.
    Unawaited,
    /// No complete message is there.
    NeedBytes,
    /// Something else comes first, or there is no memory for it, and nothing has changed: `step`
    /// tells which.
    Other,
}

impl ClientCore {
    /// Reads the next message of a circuit, if a complete one is there.
    ///
    /// The end closes at a header that is refused, and without memory for the message, which then
    /// does nothing. A circuit that is not connected is reported as cut, and nothing changes.
    pub fn step(&mut self, circuit: Handle) -> Stepped
        ensures { (sent : List Sending)
            × ClientSteps self.old circuit (stepped_as result) sent self.new }
    {
        let alloc = self.alloc;
        match self.first(circuit) {
            First::Gone => Stepped::Closed(Closing::gone(alloc)),
            First::NeedBytes => Stepped::NeedBytes,
            First::Message(head) => match self.hear(circuit, &head) {
                Ok(told) => Stepped::Notices(told),
                Err(_) => Stepped::Closed(self.end(circuit, Why::OutOfMemory)),
            },
            First::Bad(why) => Stepped::Closed(self.end(circuit, why)),
        }
    }

    /// Reads the next message of a circuit as `step` does, if it is a reply.
    #[inline(always)]
    pub fn read_reply(&mut self, circuit: Handle) -> Reply
        ensures { ReadsReply self.old circuit result self.new }
    {
        match self.first(circuit) {
            First::Message(head) if is_reply(&head.header) => {
                as_reply(self.complete(circuit, &head))
            }
            First::NeedBytes => Reply::NeedBytes,
            _ => Reply::Other,
        }
    }

    /// A circuit that is wanted was connected: its set-up waits to be sent, and then the channels
    /// that waited for it are created.
    ///
    /// Without memory the end has ended at once. A circuit that is not wanted, or is connected, is
    /// reported as cut, and nothing changes.
    pub fn connected(&mut self, circuit: Handle) -> Option<Closing>
        ensures { (sent : List Sending)
            × ClientConnects self.old circuit result sent self.new }
    {
        let Some(found) = self.unconnected(circuit) else {
            return Some(Closing::gone(self.alloc));
        };
        let priority = found.priority;
        match self.begin(circuit, priority) {
            Ok(()) => None,
            Err(_) => Some(self.end(circuit, Why::OutOfMemory)),
        }
    }
}

// Whether a message with this header is a reply.
fn is_reply(header: &Header) -> bool
    ensures { result ≡ true → IsReply header.now.command }
{
    header.command == Command::ReadNotify.number()
        || header.command == Command::WriteNotify.number()
}

// What became of a reply with this result.
#[inline(always)]
fn as_reply(told: Result<Option<(Handle, Outcome)>, AllocError>) -> Reply
    ensures { result ≡ as_reply told }
{
    match told {
        Ok(Some((request, outcome))) => Reply::Completed(request, outcome),
        Ok(None) => Reply::Unawaited,
        Err(_) => Reply::Other,
    }
}

impl Closing {
    // The end of a circuit that is not there: it is cut, with no notices and no bytes left.
    fn gone(alloc: Global) -> Closing
        ensures { result ≡ gone }
    {
        Closing {
            why: Why::Cut,
            notices: Notices::none(alloc),
            left: Pipe::new(alloc),
        }
    }
}
