//! The commands of the protocol, each with its number in the header of a message.
ghost use Rattle.std.specs.Prelude.{◌≡◌, ℕ, MatchOption};
ghost use Rattle.ca_text.specs.declared.command.Command.{Command};
ghost use Rattle.ca_text.specs.Command.{command_number};

/// What a message asks or tells (section "CA Protocol Messages").
///
/// A message with any other number is skipped by its length.
#[derive(Clone, Copy, Debug, PartialEq, Eq)]
pub enum Command {
    Version,
    EventAdd,
    EventCancel,
    Write,
    Search,
    EventsOff,
    EventsOn,
    Error,
    ClearChannel,
    RsrvIsUp,
    NotFound,
    ReadNotify,
    RepeaterConfirm,
    CreateChannel,
    WriteNotify,
    ClientName,
    HostName,
    AccessRights,
    Echo,
    RepeaterRegister,
    CreateChannelFail,
    ServerDisconnect,
}

impl Command {
    /// The number in the first field of a header.
    pub fn number(self) -> u16
        ensures { result ≡ command_number self }
    {
        match self {
            Command::Version => 0,
            Command::EventAdd => 1,
            Command::EventCancel => 2,
            Command::Write => 4,
            Command::Search => 6,
            Command::EventsOff => 8,
            Command::EventsOn => 9,
            Command::Error => 11,
            Command::ClearChannel => 12,
            Command::RsrvIsUp => 13,
            Command::NotFound => 14,
            Command::ReadNotify => 15,
            Command::RepeaterConfirm => 17,
            Command::CreateChannel => 18,
            Command::WriteNotify => 19,
            Command::ClientName => 20,
            Command::HostName => 21,
            Command::AccessRights => 22,
            Command::Echo => 23,
            Command::RepeaterRegister => 24,
            Command::CreateChannelFail => 26,
            Command::ServerDisconnect => 27,
        }
    }

    /// The command of this number, if there is one.
    pub fn of(number: u16) -> Option<Command>
        ensures { MatchOption result ((c : Command) → command_number c ≡ number → ⊥)
            (λ c. command_number c ≡ number) }
    {
        match number {
            0 => Some(Command::Version),
            1 => Some(Command::EventAdd),
            2 => Some(Command::EventCancel),
            4 => Some(Command::Write),
            6 => Some(Command::Search),
            8 => Some(Command::EventsOff),
            9 => Some(Command::EventsOn),
            11 => Some(Command::Error),
            12 => Some(Command::ClearChannel),
            13 => Some(Command::RsrvIsUp),
            14 => Some(Command::NotFound),
            15 => Some(Command::ReadNotify),
            17 => Some(Command::RepeaterConfirm),
            18 => Some(Command::CreateChannel),
            19 => Some(Command::WriteNotify),
            20 => Some(Command::ClientName),
            21 => Some(Command::HostName),
            22 => Some(Command::AccessRights),
            23 => Some(Command::Echo),
            24 => Some(Command::RepeaterRegister),
            26 => Some(Command::CreateChannelFail),
            27 => Some(Command::ServerDisconnect),
            _ => None,
        }
    }
}
