//! `Context`, through which callers in any thread use one client. All its calls are here; read a
//! wait first (`wait_on`, `lead`, `follow`), in which a caller may move the bytes itself.
ghost use Rattle.ca_board.specs.Views.{HasCollected, HasGivenUp};

use crate::addresses::to_system;
use crate::circuits::Tries;
use crate::deadline::{Deadline, time_of};
use crate::engine::{Engine, Moments};
use crate::lead::EventPoll;
use crate::listener::{Change, Listener, SubscribedListener, SubscribedListeners};
use crate::shared::{LockedClient, SharedClient};
use ca_arena::Handle;
use ca_board::Ticket;
use ca_client::{Answer, Caller, CoreCall, RequestCall, step_under_lock};
use ca_client_core::{Address, ChannelState};
use ca_dbr::{Outcome, Value};
use ca_dgram::register;
use ca_text::{Mask, Refusal};
use mio::net::UdpSocket;
use mio::{Interest, Registry, Token};
use std::alloc::{AllocError, Global};
use std::net::{Ipv4Addr, Net, SocketAddr};
use std::sync::{Arc, Wait};
use std::time::{Clock, Duration, Instant};

const DATAGRAMS: Token = Token(1);

// This many requests are made under one hold of the lock at most: some microseconds, as long as a
// thread that finds the lock taken pauses between its tries.
const AT_ONCE: usize = 32;

/// A client that threads share, whose subscriptions are heard by an `L` each. Its thread of input
/// and output ends once it is dropped, as after `end`.
#[derive(Drop)]
pub struct Context<L: Listener> {
    shared: Arc<SharedClient<L>>,
}

/// What a wait for an outcome ended with.
#[derive(Debug, Drop)]
pub enum Waited {
    /// The outcome: Disconnected if the circuit was lost.
    Outcome(Outcome),
    /// The time is over, and the outcome may still come.
    TimedOut,
    /// None comes: it was collected before, the ticket was given up, or the client has ended.
    Over,
}

/// What a client begins with.
#[derive(Drop)]
pub struct Setting {
    /// The user whose client it is.
    pub user: Vec<u8>,
    /// The host on which it is.
    pub host: Vec<u8>,
    /// Where searches go in datagrams.
    pub servers: Vec<Address>,
    /// Where they go on circuits.
    pub names: Vec<Address>,
    /// The repeater, if there is one.
    pub repeater: Option<Address>,
}

impl<L: Listener> Context<L> {
    /// A client, and the work of its thread of input and output, which `start` starts. A register
    /// goes to the repeater, if there is one.
    ///
    /// Refused as `ClientCore::new`, as Device if the system refuses a socket, and as OutOfMemory.
    pub fn new<R: Net + Clock + Copy + Drop>(
        rt: R,
        alloc: Global,
        setting: Setting,
    ) -> Result<(Context<L>, Engine<R, L>), Refusal> {
        let Ok(began) = Instant::now(&rt) else {
            return Err(Refusal::Device);
        };
        let sockets = EventPoll::new(&rt, alloc, 256)?;
        let call = EventPoll::new(&rt, alloc, 4)?;
        let sockets_waker = sockets.waker()?;
        let thread_waker = call.waker()?;
        let Ok(registry) = sockets.registry().try_clone() else {
            return Err(Refusal::Device);
        };
        let datagrams = datagrams(&rt, &registry, call.registry())?;
        if let Some(address) = setting.repeater {
            let _ = datagrams.send_to(&register(Ipv4Addr::LOCALHOST), to_system(address));
        }
        let listeners = SubscribedListeners::new(alloc)?;
        let locked = LockedClient::new(alloc, setting)?;
        let shared = SharedClient::new(locked, sockets, sockets_waker, thread_waker);
        let shared = Arc::new(alloc, shared)?;
        let engine = Engine {
            net: rt,
            shared: Arc::try_clone(&shared)?,
            registry,
            call,
            datagrams,
            tries: Tries::new(alloc),
            listeners,
            told: Vec::new(alloc),
            moments: Moments::new(began),
        };
        Ok((Context { shared }, engine))
    }

    /// A caller, for one thread.
    pub fn caller<R: Wait>(&self, rt: &R) -> Result<Caller, AllocError> {
        self.shared.locked.lock(rt).state.caller()
    }

    /// The outcome of a ticket, if it is there. It waits for nobody. If it is not there, requests
    /// that wait to be sent go out, and what came may be read, so that a later call finds it.
    pub fn collect(&self, caller: &mut Caller, ticket: Ticket) -> Option<Outcome>
        ensures { HasCollected caller.old ticket result caller.new }
    {
        let outcome = caller.collect(ticket);
        if outcome.is_none() {
            self.shared.look();
        }
        outcome
    }

    /// Ends a ticket: its outcome, if that was there already. It waits for nobody.
    pub fn give_up(&self, caller: &mut Caller, ticket: Ticket) -> Option<Outcome>
        ensures { HasGivenUp caller.old ticket result caller.new }
    {
        caller.give_up(ticket)
    }

    /// Opens a channel of this name, which is searched for from now on. Refused
    /// as `ClientCore::open`.
    pub fn open<R: Wait>(&self, rt: &R, name: &[u8], priority: u16) -> Result<Handle, Refusal> {
        let opened = self.shared.locked.lock(rt).open(name, priority);
        self.shared.wake();
        opened
    }

    /// Opens a channel as `open` does, at the lowest priority at which fewer than 288 channels of
    /// this client are open.
    ///
    /// A client has one circuit to a server for each priority, and a server takes 288
    /// subscriptions on a circuit. So channels that are opened by this call can have a
    /// subscription each, also if many thousands are of one server: 28,800 at once. The places of
    /// channels that were cleared are used again.
    ///
    /// Refused as BadPriority if there are 288 at each of the priorities 0 to
    /// 99, and then as `open`.
    pub fn open_spread<R: Wait>(&self, rt: &R, name: &[u8]) -> Result<Handle, Refusal> {
        let opened = self.shared.locked.lock(rt).open_spread(name);
        self.shared.wake();
        opened
    }

    /// Asks for the value of a channel. Refused as NoCell if too many requests are in flight, and
    /// then as `ClientCore::read`.
    ///
    /// It may go out only once a caller looks for an outcome (`collect`, `wait`), some 10 ms later
    /// at the latest: so requests in a row share a few writes.
    pub fn get<R: Wait>(
        &self,
        rt: &R,
        channel: Handle,
        data_type: u16,
        count: u32,
    ) -> Result<Ticket, Refusal> {
        self.issue(rt, None, &RequestCall::Read(channel, data_type, count))
    }

    /// Asks for the value of a channel with display data: units, precision, limits and the names of
    /// states, as the type has them. Refused as NoCell if too many requests are in flight, and then
    /// as `ClientCore::read_display`. It goes out as with `get`.
    pub fn get_display<R: Wait>(
        &self,
        rt: &R,
        channel: Handle,
        data_type: u16,
        count: u32,
    ) -> Result<Ticket, Refusal> {
        self.issue(
            rt,
            None,
            &RequestCall::ReadDisplay(channel, data_type, count),
        )
    }

    /// Asks for the value of a channel as `get`, into the memory of a value that is no longer used.
    pub fn get_into<R: Wait>(
        &self,
        rt: &R,
        channel: Handle,
        data_type: u16,
        count: u32,
        room: Value,
    ) -> Result<Ticket, Refusal> {
        self.issue(
            rt,
            Some(room),
            &RequestCall::Read(channel, data_type, count),
        )
    }

    /// Makes requests in order, each as `get` and `put_notify` do, and adds their tickets: one hold
    /// of the lock serves several. The memory of the rooms, which are values that are no longer
    /// used, is used again.
    ///
    /// It ends with the first that is refused, as `get` and `put_notify` refuse it, and as
    /// OutOfMemory if there is none for a ticket: the tickets of those before it were added.
    pub fn request_all<R: Wait>(
        &self,
        rt: &R,
        requests: &[RequestCall],
        rooms: &mut Vec<Value>,
        tickets: &mut Vec<Ticket>,
    ) -> Result<(), Refusal> {
        for some in requests.chunks(AT_ONCE) {
            let mut guard = self.shared.hold(rt);
            let (made, all) = guard.request_each(some, rooms, tickets);
            self.shared.ask();
            drop(guard);
            if !all {
                self.shared.wake();
            }
            made?;
        }
        Ok(())
    }

    /// Writes a value, with an outcome. Refused as NoCell if too many requests are in flight, and
    /// then as `ClientCore::write_notify`.
    ///
    /// It may go out only once a caller looks for an outcome (`collect`, `wait`), some 10 ms
    /// later at the latest.
    pub fn put_notify<R: Wait>(
        &self,
        rt: &R,
        channel: Handle,
        value: Value,
    ) -> Result<Ticket, Refusal> {
        self.issue(rt, None, &RequestCall::Put(channel, value))
    }

    fn issue<R: Wait>(
        &self,
        rt: &R,
        room: Option<Value>,
        request: &RequestCall,
    ) -> Result<Ticket, Refusal> {
        let mut guard = self.shared.hold(rt);
        let issued = guard.issue(room, request);
        if guard.needs_thread() {
            self.shared.ask();
        }
        drop(guard);
        let (ticket, all) = issued?;
        if !all {
            self.shared.wake();
        }
        Ok(ticket)
    }

    /// Writes a value, with no outcome: it goes out at once. Refused as `ClientCore::write`.
    pub fn put<R: Wait>(&self, rt: &R, channel: Handle, value: &Value) -> Result<(), Refusal> {
        let written = self.shared.locked.lock(rt).state.write(channel, value);
        self.shared.wake();
        written
    }

    /// Subscribes to a channel: the listener hears its updates. A refusal, as
    /// `ClientCore::subscribe`, hands the listener back.
    pub fn monitor<R: Wait>(
        &self,
        rt: &R,
        channel: Handle,
        data_type: u16,
        count: u32,
        mask: Mask,
        listener: L,
    ) -> Result<Handle, (L, Refusal)> {
        let added = self
            .shared
            .locked
            .lock(rt)
            .monitor(channel, data_type, count, mask, listener);
        self.shared.wake();
        added
    }

    /// Cancels a subscription. Refused as `ClientCore::unsubscribe`.
    ///
    /// Its listener hears nothing more that was read before: but for the one update that it hears,
    /// or is about to hear, as this call is made in another thread. The call waits for nobody,
    /// since a listener may make it.
    pub fn unsubscribe<R: Wait>(&self, rt: &R, subscription: Handle) -> Result<(), Refusal> {
        let ended = self.shared.locked.lock(rt).unsubscribe(subscription);
        if ended.is_ok() {
            self.shared.cancel();
        }
        self.shared.wake();
        ended
    }

    /// Clears a channel: its requests are complete with Disconnected. Refused as
    /// `ClientCore::clear`.
    pub fn clear<R: Wait>(&self, rt: &R, channel: Handle) -> Result<(), Refusal> {
        let cleared = self.shared.locked.lock(rt).clear(channel);
        self.shared.call_all();
        cleared
    }

    /// Where a channel is. Refused as StaleHandle if the handle is stale.
    pub fn channel_state<R: Wait>(&self, rt: &R, channel: Handle) -> Result<ChannelState, Refusal> {
        self.shared
            .locked
            .lock(rt)
            .state
            .core()
            .channel_state(channel)
    }

    /// Waits for the outcome of a ticket, for at most n turns of 10 ms. None as `wait_for` says
    /// `TimedOut` or `Over`.
    pub fn wait<R: Wait + Clock>(
        &self,
        rt: &R,
        caller: &mut Caller,
        ticket: Ticket,
        turns: u64,
    ) -> Option<Outcome> {
        match self.wait_for(rt, caller, ticket, time_of(turns)) {
            Waited::Outcome(outcome) => Some(outcome),
            _ => None,
        }
    }

    /// Waits for the outcome of a ticket, for this time at most. A caller that waits alone moves
    /// the bytes of circuits itself.
    pub fn wait_for<R: Wait + Clock>(
        &self,
        rt: &R,
        caller: &mut Caller,
        ticket: Ticket,
        most: Duration,
    ) -> Waited {
        if let Some(outcome) = caller.collect(ticket) {
            return Waited::Outcome(outcome);
        }
        self.wait_on(rt, caller, ticket, most)
    }

    // Waits for an outcome that was not there yet. Most are there, once one was waited for, and a
    // function pays for the locals of all that it takes into itself: so this is out of line.
    #[inline(never)]
    fn wait_on<R: Wait + Clock>(
        &self,
        rt: &R,
        caller: &mut Caller,
        ticket: Ticket,
        most: Duration,
    ) -> Waited {
        let deadline = Deadline::new(rt, most);
        for _ in rt.forever() {
            let Some(left) = deadline.left(rt) else {
                break;
            };
            match self.wait_once(rt, caller, ticket, left) {
                Led::Found(outcome) => return Waited::Outcome(outcome),
                Led::Moved => {}
                Led::Left => break,
            }
        }
        match self.collect(caller, ticket) {
            Some(outcome) => Waited::Outcome(outcome),
            None if self.shared.has_ended() || caller.has_ended(ticket) => Waited::Over,
            None => Waited::TimedOut,
        }
    }

    // Waits for a turn, of the thread of input and output or its own, for this time at most. It is
    // Left if nothing is to be waited for any more: that thread, or the ticket, has ended.
    fn wait_once<R: Wait + Clock>(
        &self,
        rt: &R,
        caller: &mut Caller,
        ticket: Ticket,
        most: Duration,
    ) -> Led {
        let seen = self.shared.turns();
        match self.lead(rt, caller, ticket, most) {
            Led::Found(outcome) => return Led::Found(outcome),
            Led::Moved => {}
            Led::Left => {
                self.shared.flush();
                if let Some(outcome) = caller.collect(ticket) {
                    return Led::Found(outcome);
                }
                if self.shared.park(rt, seen, most) {
                    return Led::Left;
                }
            }
        }
        match caller.collect(ticket) {
            Some(outcome) => Led::Found(outcome),
            None if caller.has_ended(ticket) => Led::Left,
            None => Led::Moved,
        }
    }

    // Looks for the outcome of a ticket. If it is not there, it moves bytes in the place of the
    // thread of input and output, unless others wait.
    fn lead<R: Wait + Clock>(
        &self,
        rt: &R,
        caller: &mut Caller,
        ticket: Ticket,
        most: Duration,
    ) -> Led {
        let Some(mut guard) = self.shared.hold_to_lead(rt) else {
            return Led::Left;
        };
        let brought = guard.move_bytes(true);
        let found = caller.collect(ticket);
        let waits = !brought.any && !brought.more && found.is_none();
        if waits {
            guard.lead.begin();
        }
        let calls = guard.calls(brought);
        drop(guard);
        if waits {
            self.follow(rt, most);
        } else {
            self.shared.leave(calls);
        }
        match found {
            Some(outcome) => Led::Found(outcome),
            None => Led::Moved,
        }
    }

    // Waits for the sockets, and reads what came.
    fn follow<R: Wait + Clock>(&self, rt: &R, most: Duration) {
        self.shared.watch(rt, most);
        let mut guard = self.shared.hold(rt);
        guard.lead.end();
        let brought = guard.move_bytes(true);
        let calls = guard.calls(brought);
        drop(guard);
        self.shared.leave(calls);
    }

    /// Waits until a channel is live, for at most n turns of 10 ms, and says whether it is.
    pub fn wait_live<R: Wait + Clock>(&self, rt: &R, channel: Handle, turns: u64) -> bool {
        let state = self.wait_live_for(rt, channel, time_of(turns));
        matches!(state, Ok(ChannelState::Live(_, _, _)))
    }

    /// Waits until a channel is live, for this time at most, and says where it is then: one that is
    /// not live once the time is over, or the client has ended, may be so later. Refused as
    /// StaleHandle, at once, if the handle is stale.
    pub fn wait_live_for<R: Wait + Clock>(
        &self,
        rt: &R,
        channel: Handle,
        most: Duration,
    ) -> Result<ChannelState, Refusal> {
        let deadline = Deadline::new(rt, most);
        for _ in rt.forever() {
            let seen = self.shared.turns();
            let state = self.channel_state(rt, channel)?;
            if let ChannelState::Live(_, _, _) = state {
                return Ok(state);
            }
            let Some(left) = deadline.left(rt) else {
                return Ok(state);
            };
            if self.shared.park(rt, seen, left) {
                break;
            }
        }
        self.channel_state(rt, channel)
    }

    /// Has the thread of input and output close all circuits, and end.
    pub fn end<R: Wait>(&self, rt: &R) {
        self.shared.locked.lock(rt).ending = true;
        self.shared.call_all();
    }
}

// What a caller that looks for an outcome found.
#[derive(Drop)]
enum Led {
    Found(Outcome),
    // It is not there. A turn is over.
    Moved,
    // It is not there, and was left to the thread of input and output.
    Left,
}

impl<L: Listener> LockedClient<L> {
    fn open(&mut self, name: &[u8], priority: u16) -> Result<Handle, Refusal> {
        let channel = self.state.open(name, priority, self.moment)?;
        self.spread.add(channel, priority);
        Ok(channel)
    }

    fn open_spread(&mut self, name: &[u8]) -> Result<Handle, Refusal> {
        match self.spread.lowest() {
            Some(priority) => self.open(name, priority),
            None => Err(Refusal::BadPriority),
        }
    }

    fn clear(&mut self, channel: Handle) -> Result<(), Refusal> {
        match step_under_lock(&mut self.state, CoreCall::Clear(channel)) {
            Answer::Refused(refusal) => Err(refusal),
            _ => {
                self.spread.remove(channel);
                Ok(())
            }
        }
    }

    fn monitor(
        &mut self,
        channel: Handle,
        data_type: u16,
        count: u32,
        mask: Mask,
        listener: L,
    ) -> Result<Handle, (L, Refusal)> {
        if self.changes.reserve(1).is_err() {
            return Err((listener, Refusal::OutOfMemory));
        }
        match self.state.subscribe(channel, data_type, count, mask) {
            Ok(subscription) => {
                self.lead.hear();
                self.changes.push_reserved(Change::Hears(SubscribedListener {
                    subscription,
                    listener,
                }));
                Ok(subscription)
            }
            Err(refusal) => Err((listener, refusal)),
        }
    }

    fn unsubscribe(&mut self, subscription: Handle) -> Result<(), Refusal> {
        self.changes.reserve(1)?;
        self.state.unsubscribe(subscription)?;
        self.changes.push_reserved(Change::Ends(subscription));
        Ok(())
    }
}

// A socket for datagrams. Those that come end the wait of the thread of input and
// output, at either place.
fn datagrams<R: Net>(rt: &R, sockets: &Registry, call: &Registry) -> Result<UdpSocket, Refusal> {
    let any = SocketAddr::from((Ipv4Addr::UNSPECIFIED, 0));
    let Ok(mut datagrams) = UdpSocket::bind(rt, any) else {
        return Err(Refusal::Device);
    };
    // Searches go to broadcast addresses too.
    let is_registered = datagrams.set_broadcast(true).is_ok()
        && sockets
            .register(&mut datagrams, DATAGRAMS, Interest::READABLE)
            .is_ok()
        && call
            .register(&mut datagrams, DATAGRAMS, Interest::READABLE)
            .is_ok();
    if !is_registered {
        return Err(Refusal::Device);
    }
    Ok(datagrams)
}
