//! A channel as a client keeps it: its name, its priority and how far it is.
ghost use Rattle.std.specs.Prelude.{◌≡◌, ◌≤◌, IfOk, option_map};
ghost use Rattle.ca_text.specs.Limits.{channel_name_limit, priority_limit};
ghost use Rattle.ca_text.specs.Name.{IsName};
ghost use Rattle.ca_ids.specs.Table.{same_handle};
ghost use Rattle.ca_ids.specs.Wire.{wire_of};
ghost use Rattle.ca_wire.specs.Messages.{create_request};
ghost use Rattle.ca_client_tables.specs.Ending.{is_kept};
ghost use Rattle.ca_client_tables.specs.Forms.{cleared_in, phase_of, standing_of};
ghost use Rattle.ca_model.specs.Client as client;
ghost use Rattle.ca_model.specs.Client.{standing_unless_cleared, On};

use ca_arena::Handle;
use ca_ids::WireId;
use ca_wire::{Cid, Message, create_request};
use std::alloc::{AllocError, Global};
use std::marker::Model;

/// What the reply to a CREATE_CHAN says of a channel: its SID, its native type
/// and its greatest count.
#[derive(Clone, Copy, Debug, PartialEq, Eq)]
pub struct Native {
    /// The id by which messages to its server name it.
    pub sid: u32,
    /// Its native type.
    pub data_type: u16,
    /// The greatest count of its elements.
    pub count: u32,
}

/// How far a channel is on its circuit.
#[derive(Clone, Copy, Debug, PartialEq, Eq)]
pub enum Phase {
    /// It waits for the circuit to be connected.
    Connecting,
    /// It is being created, with the access rights that came so far.
    Creating(u32),
    /// It is live, with the access rights that came last.
    Live(Native, u32),
    /// Its record was removed, and its clear is not answered.
    Leaving,
    /// Its caller cleared it, and the clear is not answered.
    Clearing,
    /// Its caller cleared it while it was being created.
    Doomed,
}

/// A channel is searched for, or it is on a circuit.
#[derive(Clone, Copy, Debug, PartialEq, Eq)]
pub enum Standing {
    /// It is searched for.
    Searching,
    /// It is on this circuit, in this phase.
    On(Handle, Phase),
}

/// A channel as its caller opened it, and where it is.
#[derive(Debug, Drop)]
pub struct Channel {
    // Each message on it reads this, so it is first, next to the state of its slot.
    standing: Standing,
    priority: u16,
    name: Vec<u8>,
}

impl Model for Channel {
    ghost use Rattle.ca_model.specs.Client as client;

    ghost Value = { client.Channel };

    ghost use Rattle.std.specs.Prelude.{◌≤◌};
    ghost use Rattle.ca_text.specs.Limits.{channel_name_limit, priority_limit};
    ghost use Rattle.ca_text.specs.Name.{IsName};
    ghost use Rattle.ca_client_tables.specs.Forms.{standing_of};

    ghost view = { λ c.
        record { name = c.name.items; priority = c.priority; standing = standing_of c.standing } };

    ghost invariant = { λ c.
        IsName channel_name_limit c.name.items × (c.priority ≤ priority_limit) };
}

impl Phase {
    /// Whether the channel is live.
    pub(crate) fn is_live(self) -> bool
        ensures { result ≡ client.is_live (phase_of self) }
    {
        matches!(self, Phase::Live(_, _))
    }

    /// Whether its caller cleared it.
    pub(crate) fn is_cleared(self) -> bool
        ensures { result ≡ client.is_cleared (phase_of self) }
    {
        matches!(self, Phase::Clearing | Phase::Doomed)
    }
}

// Whether both are the same handle.
pub(crate) fn is_same(a: Handle, b: Handle) -> bool
    ensures { result ≡ same_handle a b }
{
    a.index == b.index && a.generation == b.generation
}

impl Channel {
    /// A channel that is searched for.
    pub fn new(name: Vec<u8>, priority: u16) -> Channel
        requires name { IsName channel_name_limit name.items }
        requires priority { priority ≤ priority_limit }
        ensures { result
            ≡ record { name = name.items; priority = priority; standing = client.Searching } }
    {
        Channel {
            standing: Standing::Searching,
            priority,
            name,
        }
    }

    /// The priority of its circuit.
    pub(crate) fn priority(&self) -> u16
        ensures is { result ≡ self.now.priority }
        ensures within { result ≤ priority_limit }
    {
        self.priority
    }

    /// The CREATE_CHAN of this channel, which has this handle.
    pub fn create_message(&self, alloc: Global, own: Handle) -> Result<Message, AllocError>
        ensures { IfOk result (λ m. m ≡ create_request (wire_of own) self.now.name) }
    {
        create_request(alloc, Cid::new(WireId::of(own).number()), &self.name)
    }

    /// Where it is.
    pub fn standing(&self) -> Standing
        ensures { standing_of result ≡ self.now.standing }
    {
        self.standing
    }

    /// Whether its caller cleared it.
    pub(crate) fn is_cleared(&self) -> bool
        ensures { result ≡ cleared_in self.now.standing }
    {
        match self.standing {
            Standing::Searching => false,
            Standing::On(_, phase) => phase.is_cleared(),
        }
    }

    /// Whether its caller cleared it, and its end on this circuit is waited for.
    pub(crate) fn is_cleared_on(&self, circuit: Handle) -> bool
        ensures { result ≡ client.is_on_in client.is_cleared circuit self.now }
    {
        match self.standing {
            Standing::Searching => false,
            Standing::On(on, phase) => is_same(on, circuit) && phase.is_cleared(),
        }
    }

    /// Whether it is live on this circuit.
    pub fn is_live_on(&self, circuit: Handle) -> bool
        ensures { result ≡ client.is_on_in client.is_live circuit self.now }
    {
        match self.standing {
            Standing::Searching => false,
            Standing::On(on, phase) => is_same(on, circuit) && phase.is_live(),
        }
    }

    /// Whether it is on this circuit, and its caller did not clear it.
    pub(crate) fn is_kept_on(&self, circuit: Handle) -> bool
        ensures { result ≡ client.is_on_in is_kept circuit self.now }
    {
        match self.standing {
            Standing::Searching => false,
            Standing::On(on, phase) => is_same(on, circuit) && !phase.is_cleared(),
        }
    }

    /// From now on it is there.
    pub(crate) fn set_standing(&mut self, standing: Standing)
        ensures { self.new ≡ record self.old { standing = standing_of standing } }
    {
        self.standing = standing;
    }

    /// Where it is, until its caller clears it.
    pub fn standing_unless_cleared(&self) -> Option<Standing>
        ensures { option_map standing_of result ≡ standing_unless_cleared self.now.standing }
    {
        if self.is_cleared() {
            return None;
        }
        Some(self.standing)
    }

    /// How far it is on this circuit, if it is on it.
    pub fn phase_on(&self, circuit: Handle) -> Option<Phase>
        ensures { option_map phase_of result ≡ client.phase_on circuit self.now.standing }
    {
        match self.standing() {
            Standing::Searching => None,
            Standing::On(on, phase) => {
                if is_same(on, circuit) {
                    Some(phase)
                } else {
                    None
                }
            }
        }
    }
}
