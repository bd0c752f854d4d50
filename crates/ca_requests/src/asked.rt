//! What a request asks for: a read (READ_NOTIFY) or a put with notification (WRITE_NOTIFY); and
//! whether it is open or only its IOID is still in use.
ghost use Rattle.std.specs.Prelude.{◌≡◌};
ghost use Rattle.ca_requests.specs.Forms.{asked_of, stage_of};
ghost use Rattle.ca_requests.specs.Requests.{command_of, is_open_in};

use ca_text::Command;

/// What was asked.
#[derive(Clone, Copy, Debug, PartialEq, Eq)]
pub enum Asked {
    /// A read, of this type and count.
    Read(u16, u32),
    /// A put with notification.
    Put,
}

/// How far a request is.
#[derive(Clone, Copy, Debug, PartialEq, Eq)]
pub enum RequestStage {
    /// It is open.
    Open,
    /// It is over, and its IOID drains.
    Draining,
}

impl Asked {
    /// The command of its message, and of the reply.
    pub fn command(self) -> Command
        ensures { result ≡ command_of (asked_of self) }
    {
        match self {
            Asked::Read(_, _) => Command::ReadNotify,
            Asked::Put => Command::WriteNotify,
        }
    }
}

impl RequestStage {
    /// Whether the request is open.
    pub fn is_open(self) -> bool
        ensures { result ≡ is_open_in (stage_of self) }
    {
        match self {
            RequestStage::Open => true,
            RequestStage::Draining => false,
        }
    }
}
