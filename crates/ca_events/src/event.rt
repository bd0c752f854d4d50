//! The events of a simulated world of clients and servers: calls, datagrams, bytes that arrive,
//! circuits that are cut, and the passing of time. `ca_world` carries them out.
ghost use Rattle.std.specs.Prelude.{◌≡◌, ◌<◌};
ghost use Rattle.ca_text.specs.Mask.{HasEvent};
ghost use Rattle.ca_events.specs.Events.{event_of, moment_of};
ghost use Rattle.ca_model.specs.Runs.{IsEvent};

use ca_client_tables::Address;
use ca_dbr::Value;
use ca_text::Mask;

/// A value that is posted to a record of a server.
#[derive(Drop)]
pub struct Posting {
    pub server: u64,
    pub name: Vec<u8>,
    pub value: Value,
    pub mask: Mask,
}

/// A record that is added to those of a server.
#[derive(Drop)]
pub struct Addition {
    pub server: u64,
    pub name: Vec<u8>,
    pub count: u64,
    pub slow: bool,
    pub value: Value,
}

/// What may happen to a world. What few events carry is in a box, so that all the others are
/// small. Clients, servers and circuits are counted from 0, circuits in the order in which
/// they were accepted; channels, requests and subscriptions by their client's accepted calls
/// in its present life.
#[derive(Drop)]
pub enum Event {
    /// A client opens a channel.
    Open {
        client: u64,
        name: Vec<u8>,
        priority: u64,
    },
    Clear {
        client: u64,
        channel: u64,
    },
    Read {
        client: u64,
        channel: u64,
        data_type: u64,
        count: u64,
    },
    /// A write without notification.
    Write {
        client: u64,
        channel: u64,
        value: Box<Value>,
    },
    WriteNotify {
        client: u64,
        channel: u64,
        value: Box<Value>,
    },
    Subscribe {
        client: u64,
        channel: u64,
        data_type: u64,
        count: u64,
        mask: Mask,
    },
    Unsubscribe {
        client: u64,
        subscription: u64,
    },
    /// The outcome of a request is collected.
    Collect {
        client: u64,
        request: u64,
    },
    GiveUp {
        client: u64,
        request: u64,
    },
    /// These bytes come to a client as a datagram, from this address.
    ClientDatagram {
        client: u64,
        from: Address,
        bytes: Vec<u8>,
    },
    ServerDatagram {
        server: u64,
        from: Address,
        bytes: Vec<u8>,
    },
    /// The first circuit that the client wants, and whose address has a server, is made.
    Accept {
        client: u64,
    },
    /// This many bytes of a circuit reach the server.
    Up {
        circuit: u64,
        bytes: u64,
    },
    /// This many bytes of a circuit reach the client.
    Down {
        circuit: u64,
        bytes: u64,
    },
    ServerStep {
        circuit: u64,
    },
    ClientStep {
        circuit: u64,
    },
    /// Updates leave the queues of a circuit.
    Pump {
        circuit: u64,
    },
    /// The end at the client is cut.
    CutClient {
        circuit: u64,
    },
    CutServer {
        circuit: u64,
    },
    /// A client begins a new life.
    ClientRestart {
        client: u64,
    },
    ServerRestart {
        server: u64,
    },
    /// A value is posted to a record of a server.
    Post(Box<Posting>),
    /// A record's busy put is finished.
    Finish {
        server: u64,
        name: Vec<u8>,
    },
    Remove {
        server: u64,
        name: Vec<u8>,
    },
    /// A record is added to a server's.
    Add(Box<Addition>),
    /// A moment is handed to all clients, in order.
    Tick {
        moment: u64,
    },
}

impl Event {
    /// Tells that it is well-formed. It does nothing.
    pub fn know(&self)
        ensures { IsEvent (event_of self.now) }
    {
        match self {
            Event::Write { value, .. } => value.know(),
            Event::WriteNotify { value, .. } => value.know(),
            Event::Subscribe { mask, .. } => know_mask(*mask),
            Event::Post(posting) => {
                posting.value.know();
                know_mask(posting.mask);
            }
            Event::Add(addition) => addition.value.know(),
            _ => {}
        }
    }

    /// The moment that it hands to all clients, if it does that.
    pub fn moment(&self) -> Option<u64>
        ensures { result ≡ moment_of (event_of self.now) }
    {
        match self {
            Event::Tick { moment } => Some(*moment),
            _ => None,
        }
    }
}

// Tells that a mask has a bit, and what else its type says. It does nothing.
fn know_mask(mask: Mask)
    ensures event { HasEvent mask }
    ensures small { mask < 65536 }
{
    let _ = mask.bits();
}
