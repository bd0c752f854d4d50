//! What is under the lock of a client.
ghost use Rattle.std.specs.Prelude.{◌≡◌, ◌≤◌, [], IfErr, IfOk, List, length};
ghost use Rattle.ca_board.specs.Views.{caller_start};
ghost use Rattle.ca_dbr.specs.Elements.{elements};
ghost use Rattle.ca_model.specs.Answers.{Sending};
ghost use Rattle.ca_model.specs.Client.{out_bytes};
ghost use Rattle.ca_model.specs.ClientCalls.{ClientOpens, ClientSubscribes, ClientUnsubscribes};
ghost use Rattle.ca_model.specs.ClientCalls.{ClientWrites};
ghost use Rattle.ca_model.specs.ClientEnds.{ClientGives, ClientReceives, handed_over};
ghost use Rattle.ca_client.specs.Calls.{HasNotBegun, IsFresh};
ghost use Rattle.ca_client.specs.Turns.{with_core};

use crate::caller::Caller;
use ca_arena::Handle;
use ca_board::{Board, CoreSeat, Ticket};
use ca_client_core::{Address, ClientCore};
use ca_dbr::Value;
use ca_text::{ARENA_SLOTS, Mask, Refusal};
use std::alloc::{AllocError, Global};
use std::marker::Model;
use std::sync::Arc;

/// What a client's lock keeps: the core and its seat at the board, the ticket of each request that
/// waits, and the board.
///
/// Each request of the core that waits has a ticket. So the core is lent to be read, and its calls
/// that complete no request are here.
#[derive(Drop)]
pub struct ClientState {
    pub(crate) core: ClientCore,
    pub(crate) seat: CoreSeat,
    pub(crate) tickets: Vec<Ticket>,
    pub(crate) board: Arc<Board>,
}

impl Model for ClientState {
    ghost use Rattle.ca_client.specs.Awaited.{StateView, IsState};

    ghost Value = { StateView };

    ghost use Rattle.std.specs.Arc.{arc_value};
    ghost use Rattle.std.specs.Coded.{codes};
    ghost use Rattle.ca_client_core.specs.Codes.{servers_code};

    ghost coded = { Prim.hlevel (codes, servers_code) };

    ghost view = { λ s. record { core = s.core; seat = s.seat; tickets = s.tickets.items } };

    ghost invariant = { λ s. IsState s.core s.seat (arc_value s.board) s.tickets.items };
}

impl ClientState {
    /// A state in which nothing was asked. Refused as `ClientCore::new`, and as OutOfMemory.
    pub fn new(
        alloc: Global,
        user: Vec<u8>,
        host: Vec<u8>,
        servers: Vec<Address>,
        names: &[Address],
        now: u64,
    ) -> Result<ClientState, Refusal>
        ensures ok { IfOk result (IsFresh (record {
          peer = record { user = user.items; host = host.items };
          servers = servers.items;
          names = names.now;
          now = now;
        })) }
        ensures err { IfErr result (HasNotBegun (record {
          peer = record { user = user.items; host = host.items };
          servers = servers.items;
          names = names.now;
          now = now;
        })) }
    {
        let core = ClientCore::new(alloc, user, host, servers, names, now)?;
        let (board, seat) = Board::new(alloc)?;
        let none = Ticket {
            cell: 0,
            generation: 0,
        };
        let tickets = vec![in alloc; none; ARENA_SLOTS]?;
        let board = Arc::new(alloc, board)?;
        let state = ClientState {
            core,
            seat,
            tickets,
            board,
        };
        Ok(state)
    }

    /// A new caller, for any thread.
    pub fn caller(&mut self) -> Result<Caller, AllocError>
        ensures same { self.new ≡ self.old }
        ensures new { IfOk result (λ c. c ≡ caller_start self.old.seat.board) }
    {
        let board = Arc::try_clone(&self.board)?;
        let seat = board.caller(&mut self.seat);
        Ok(Caller { board, seat })
    }

    /// The core, to be read.
    pub fn core(&self) -> &ClientCore
        ensures { result.now ≡ self.now.core }
    {
        &self.core
    }

    /// Opens a channel, as `ClientCore::open`.
    pub fn open(&mut self, name: &[u8], priority: u16, now: u64) -> Result<Handle, Refusal>
        ensures opens { ClientOpens
            self.old.core
            (record { name = name.now; priority = priority; now = now })
            result
            []
            self.new.core }
        ensures rest { self.new ≡ with_core self.new.core self.old }
    {
        self.core.open(name, priority, now)
    }

    /// Writes a value with no answer, as `ClientCore::write`.
    pub fn write(&mut self, channel: Handle, value: &Value) -> Result<(), Refusal>
        ensures writes { (sent : List Sending)
            × ClientWrites self.old.core channel (elements value.now) result sent self.new.core }
        ensures rest { self.new ≡ with_core self.new.core self.old }
    {
        self.core.write(channel, value)
    }

    /// Subscribes to a channel, as `ClientCore::subscribe`.
    pub fn subscribe(
        &mut self,
        channel: Handle,
        data_type: u16,
        count: u32,
        mask: Mask,
    ) -> Result<Handle, Refusal>
        ensures subscribes { (sent : List Sending)
            × ClientSubscribes
            self.old.core
            channel
            (record { data_type = data_type; count = count })
            mask
            result
            sent
            self.new.core }
        ensures rest { self.new ≡ with_core self.new.core self.old }
    {
        self.core.subscribe(channel, data_type, count, mask)
    }

    /// Cancels a subscription, as `ClientCore::unsubscribe`.
    pub fn unsubscribe(&mut self, subscription: Handle) -> Result<(), Refusal>
        ensures unsubscribes { (sent : List Sending)
            × ClientUnsubscribes self.old.core subscription result sent self.new.core }
        ensures rest { self.new ≡ with_core self.new.core self.old }
    {
        self.core.unsubscribe(subscription)
    }

    /// Takes a datagram, as `ClientCore::datagram`.
    pub fn datagram(&mut self, now: u64, from: Address, bytes: &[u8]) -> Result<(), Refusal>
        ensures receives { (sent : List Sending)
            × ClientReceives
            self.old.core
            (record { now = now; from = from; bytes = bytes.now })
            result
            sent
            self.new.core }
        ensures rest { self.new ≡ with_core self.new.core self.old }
    {
        self.core.datagram(now, from, bytes)
    }

    /// The memory of this value is kept for the value of a later read, as
    /// `ClientCore::recycle_value`.
    pub fn recycle(&mut self, value: Value)
        ensures { self.new ≡ self.old }
    {
        self.core.recycle_value(value);
    }

    // Takes bytes that were read on a circuit, and whether the read left more waiting,
    // as `ClientCore::give`.
    pub(crate) fn give(&mut self, circuit: Handle, bytes: &[u8], more: bool) -> Result<(), Refusal>
        ensures gives { (sent : List Sending)
            × ClientGives self.old.core circuit bytes.now more result sent self.new.core }
        ensures rest { self.new ≡ with_core self.new.core self.old }
    {
        self.core.give(circuit, bytes, more)
    }

    // The first n of the bytes that waited on a circuit were handed over, as `ClientCore::sent`.
    pub(crate) fn sent(&mut self, circuit: Handle, n: usize)
        requires { n ≤ length (out_bytes self.old.core circuit) }
        ensures { self.new ≡ with_core (handed_over circuit n self.old.core) self.old }
    {
        self.core.sent(circuit, n)
    }
}
