//! A circuit as a client keeps it: an address and a priority, with an end once it is connected, for
//! bytes that come and bytes that wait to be sent.
ghost use Rattle.std.specs.Prelude.{◌≡◌, ◌≢◌, ◌<◌, ◌≤◌, ◌⊎◌, [], IsSome, None, OnErr, OnOk, Some};
ghost use Rattle.std.specs.Prelude.{length, option_and_then};
ghost use Rattle.ca_monitor.specs.ReadRun.{sent_by_read};
ghost use Rattle.ca_model.specs.Client as client;
ghost use Rattle.ca_client_tables.specs.Ends.{GivesAt, cut_in, handed, queued, read_given};
ghost use Rattle.ca_client_tables.specs.Ends.{waiting_in};
ghost use Rattle.ca_client_tables.specs.Marks.{in_restored, mark_in};
ghost use Rattle.ca_client_tables.specs.Names.{is_name_in};
ghost use Rattle.ca_client_tables.specs.Silences.{asked_in, echo_in};

use crate::address::Address;
use ca_arena::Handle;
use ca_link::{Keep, Link, Mark};
use ca_monitor::ReadRun;
use ca_text::{Command, Refusal};
use ca_wire::{Message, header_only};
use std::alloc::{AllocError, Global};
use std::marker::Model;

/// The client's end of a connected circuit: its bytes, and its reads in a row.
#[derive(Debug, Drop)]
pub struct Connection {
    pub(crate) link: Link,
    pub(crate) run: ReadRun,
}

impl Model for Connection {
    ghost use Rattle.ca_model.specs.Client as client;

    ghost Value = { client.Connection };

    ghost use Rattle.std.specs.Prelude.{◌≡◌, false};

    ghost view = { λ c. record { link = c.link; run = c.run } };

    // It met no bad header: such an end ends at once.
    ghost invariant = { λ c. c.link.input.closed ≡ false };
}

/// A circuit to an address, under a priority: it is a name server's, or channels want it. It has an
/// end once it is connected.
#[derive(Debug, Drop)]
pub struct ClientCircuit {
    /// Where its server is.
    pub address: Address,
    /// Its priority, from 0 to 99.
    pub priority: u16,
    /// Whether it is that of a name server.
    pub is_name: bool,
    /// Its end, once it is connected.
    pub connection: Option<Connection>,
}

impl Model for ClientCircuit {
    ghost use Rattle.ca_model.specs.Client as client;

    ghost Value = { client.ClientCircuit };

    ghost use Rattle.std.specs.Prelude.{◌≤◌};
    ghost use Rattle.ca_text.specs.Limits.{priority_limit};

    ghost view = { λ c. record {
      address = c.address;
      priority = c.priority;
      is_name = c.is_name;
      connection = c.connection;
    } };

    ghost invariant = { λ c. c.priority ≤ priority_limit };
}

/// A circuit that is wanted, and not connected.
#[derive(Clone, Copy, Debug, PartialEq, Eq)]
pub struct WantedCircuit {
    /// Its handle from now on.
    pub circuit: Handle,
    /// Where its server is.
    pub address: Address,
    /// Its priority, from 0 to 99.
    pub priority: u16,
}

impl Model for WantedCircuit {
    ghost use Rattle.ca_model.specs.ClientCalls as calls;

    ghost Value = { calls.WantedCircuit };

    ghost view = { λ w.
        record { circuit = w.circuit; address = w.address; priority = w.priority } };

    ghost inverse = { λ w. record {
      circuit = w.circuit;
      address = record { host = w.address.host; port = w.address.port };
      priority = w.priority;
    } };
}

impl ClientCircuit {
    /// Whether it is that of a name server, and connected.
    pub fn is_name_connected(&self) -> bool
        ensures { result ≡ is_name_in self.now }
    {
        self.is_name && self.connection.is_some()
    }

    /// Takes bytes of a read at this moment, and whether the read left more waiting.
    ///
    /// Refused as CircuitClosed if it is not connected, then as OutOfMemory, only if there are
    /// bytes or a message to send. Nothing changes then.
    pub fn give(
        &mut self,
        alloc: Global,
        moment: u64,
        bytes: &[u8],
        more: bool,
    ) -> Result<(), Refusal>
        ensures { GivesAt moment bytes.now more self.old result self.new }
    {
        let Some(connection) = &mut self.connection else {
            return Err(Refusal::CircuitClosed);
        };
        if connection.give(alloc, moment, bytes, more).is_err() {
            return Err(Refusal::OutOfMemory);
        }
        Ok(())
    }

    /// What a read makes the client send, by whether it left more waiting.
    pub fn sends_by_read(&self, more: bool) -> Option<Command>
        ensures { result
            ≡ option_and_then
            (λ (e : client.Connection). sent_by_read more e.run) self.now.connection }
    {
        match &self.connection {
            Some(connection) => {
                let mut run = connection.run;
                run.after_read(more)
            }
            None => None,
        }
    }

    /// Puts a message after what waits, if it is connected: only then it allocates. Without
    /// memory nothing changes.
    pub fn queue(&mut self, message: &Message) -> Result<(), AllocError>
        ensures ok { OnOk result (self.new ≡ queued message.now self.old) }
        ensures err { OnErr result (self.new ≡ self.old) }
        ensures some { OnErr result (IsSome self.old.connection) }
    {
        let Some(connection) = &mut self.connection else {
            return Ok(());
        };
        if connection.link.queue_own(message).is_err() {
            return Err(AllocError);
        }
        Ok(())
    }

    /// Only the first n of the bytes still wait.
    pub fn cut_back(&mut self, n: usize)
        ensures { self.new ≡ cut_in n self.old }
    {
        if let Some(connection) = &mut self.connection {
            connection.link.truncate(n);
        }
    }

    /// The bytes that wait to be sent; none if it is not connected.
    pub fn out_bytes(&self) -> &[u8]
        ensures { result.now ≡ waiting_in self.now }
    {
        match &self.connection {
            Some(connection) => connection.link.out_bytes(),
            None => &[],
        }
    }

    /// The first n of the bytes that waited were handed over.
    pub fn sent(&mut self, n: usize)
        requires { n ≤ length (waiting_in self.old) }
        ensures { self.new ≡ handed n self.old }
    {
        if let Some(connection) = &mut self.connection {
            connection.link.sent(n);
        }
    }

    /// How its end is; without one there is nothing to take back.
    pub fn mark(&self) -> Mark
        ensures { result ≡ mark_in self.now }
    {
        match &self.connection {
            Some(connection) => connection.link.mark(),
            None => Mark {
                waiting: 0,
                echoed: false,
            },
        }
    }

    /// Its end is as it was at this mark.
    pub fn restore(&mut self, mark: Mark)
        ensures { self.new ≡ in_restored mark self.old }
    {
        if let Some(connection) = &mut self.connection {
            connection.link.restore(mark);
        }
    }

    /// What this moment asks of its end; nothing, if it is not connected.
    pub fn asked(&self, moment: u64) -> Keep
        ensures { result ≡ asked_in moment self.now.connection }
    {
        match &self.connection {
            Some(connection) => connection.link.asked(moment),
            None => Keep::Idle,
        }
    }

    /// An ECHO waits, if it is connected, and it is noted that the silence asked for it. Only then
    /// it allocates. Without memory nothing changes.
    pub fn echo(&mut self, alloc: Global, moment: u64) -> Result<(), AllocError>
        ensures ok { OnOk result (self.new ≡ echo_in moment self.old) }
        ensures err { OnErr result (self.new ≡ self.old) }
        ensures some { OnErr result (IsSome self.old.connection) }
    {
        let Some(connection) = &mut self.connection else {
            return Ok(());
        };
        let echo = header_only(alloc, Command::Echo);
        if connection.link.queue_own(&echo).is_err() {
            return Err(AllocError);
        }
        let _asked = connection.link.tick(moment);
        Ok(())
    }
}

impl Connection {
    // Takes bytes of a read, and queues what that makes the client send.
    fn give(
        &mut self,
        alloc: Global,
        moment: u64,
        bytes: &[u8],
        more: bool,
    ) -> Result<(), AllocError>
        ensures ok { OnOk result (self.new ≡ read_given moment bytes.now more self.old) }
        ensures err { OnErr result (self.new ≡ self.old) }
        ensures some { OnErr result ((bytes.now ≢ []) ⊎ (sent_by_read more self.old.run ≢ None)) }
    {
        let mut run = self.run;
        let Some(command) = run.after_read(more) else {
            if self.link.give(moment, bytes).is_err() {
                return Err(AllocError);
            }
            self.run = run;
            return Ok(());
        };
        let before = self.link.out_bytes().len();
        if self.link.queue_own(&header_only(alloc, command)).is_err() {
            return Err(AllocError);
        }
        if self.link.give(moment, bytes).is_err() {
            self.link.truncate(before);
            return Err(AllocError);
        }
        self.run = run;
        Ok(())
    }
}
