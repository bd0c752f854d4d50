//! `serve` from its sockets to its count of applied writes: polls are opened, four threads are
//! started beside those of circuits, and all are joined at the end.
ghost use Rattle.std.specs.Prelude.{◌≡◌, ◌-◌, ◌^◌, None};

use crate::accepting::{Door, SOCKET, accept_all, join_all, new_poll};
use crate::clock::moment_now;
use crate::datagrams::{DatagramThread, Desk};
use crate::locked::SharedServer;
use crate::meter::Meter;
use crate::parking::{Parking, Poller, SOCKETS};
use crate::processing::{Device, Processor};
use crate::work::started;
use ca_records::{Records, Rule};
use ca_server::State;
use ca_text::Refusal;
use indexmap::{IndexMap, IndexSet};
use mio::net::{TcpListener, UdpSocket};
use mio::{Events, Interest, Poll, Waker};
use std::alloc::Global;
use std::marker::Brand;
use std::net;
use std::net::{Net, SocketAddr};
use std::sync::ledger::{Blank, Ledger};
use std::sync::{Arc, Mutex, Wait};
use std::thread::{JoinHandle, Threads};
use std::time::{Clock, Duration};

// Bytes of a datagram that is received, at most.
const DATAGRAM: usize = 65_536;

/// Where a server is reached, and where its beacons go.
#[derive(Drop)]
pub struct Places {
    pub listener: net::TcpListener,
    pub datagrams: net::UdpSocket,
    pub beacons: SocketAddr,
}

/// How a server serves.
#[derive(Drop)]
pub struct Options {
    /// The number of circuits after whose end the server ends: without one it does not.
    pub circuits: Option<u64>,
    /// A circuit is cut if bytes wait to be sent on it and its socket takes none for this time.
    /// Without one it is not.
    pub patience: Option<Duration>,
    /// Where it counts, if anywhere.
    pub meter: Option<Meter>,
}

impl Options {
    /// Those of a server that cuts no circuit for what its socket does not take, and counts
    /// nothing.
    pub fn new(circuits: Option<u64>) -> Options
        ensures circuits { result.circuits ≡ circuits }
        ensures others { (result.patience ≡ None) × (result.meter ≡ None) }
    {
        Options {
            circuits,
            patience: None,
            meter: None,
        }
    }
}

/// Serves records. Reports how many writes were applied for the circuits.
///
/// A connection for which there is no room is closed at once. Refused as Device if a socket or a
/// thread cannot be had, and as OutOfMemory.
pub fn serve<
    D: Device + Send + Sync + 'static,
    R: Threads
        + Wait
        + Clock
        + Net<Stream = net::TcpStream, Listener = net::TcpListener>
        + Copy
        + Send
        + 'static,
>(
    rt: R,
    alloc: Global,
    places: Places,
    records: &Records,
    rules: Vec<Rule>,
    device: D,
    options: Options,
) -> Result<u64, Refusal> {
    serve_as::<Brand, D, R>(
        rt,
        alloc,
        Blank::new(u64::MAX),
        places,
        records,
        rules,
        device,
        options,
    )
}

// Serves with this ledger of the circuits' shares. All threads are joined at the end.
fn serve_as<
    L: Ledger + Send + Sync + 'static,
    D: Device + Send + Sync + 'static,
    R: Threads
        + Wait
        + Clock
        + Net<Stream = net::TcpStream, Listener = net::TcpListener>
        + Copy
        + Send
        + 'static,
>(
    rt: R,
    alloc: Global,
    blank: Blank,
    places: Places,
    records: &Records,
    rules: Vec<Rule>,
    device: D,
    options: Options,
) -> Result<u64, Refusal>
    requires name { blank.name ≡ L.name }
    requires parts { blank.parts ≡ L.parts }
    requires all { blank.parts ≡ 2 ^ 64 - 1 }
{
    let circuits = options.circuits;
    let port = port_of(&places)?;
    let (book, mut all) = blank.open::<L>();
    let state = State::new(book, port, moment_now(&rt), records, rules)?;
    let (mut door, desk, accepting, answering) = opened(&rt, alloc, places)?;
    let (poll, parking) = open_parking(&rt)?;
    let shared = Arc::new(
        alloc,
        SharedServer::new(
            alloc,
            state,
            slow_names(alloc, records)?,
            parking,
            accepting,
            answering,
            device,
            options,
        )?,
    )?;
    let mut helpers = Vec::new(alloc);
    let helped = start_helpers(rt, alloc, &shared, desk, poll, &mut helpers);
    if helped.is_err() {
        shared.end(&rt);
    }
    let mut running = IndexMap::new(alloc);
    accept_all(
        rt,
        alloc,
        &shared,
        &mut door,
        circuits,
        &mut running,
        &mut all,
    );
    shared.end(&rt);
    join_all(&rt, &mut running, &mut all);
    join_helpers(&rt, &mut helpers);
    helped?;
    Ok(shared.locked.lock(&rt).state.audit(&mut all))
}

// The names of the slow records.
fn slow_names(alloc: Global, records: &Records) -> Result<IndexSet<Vec<u8>>, Refusal> {
    let mut names = IndexSet::new(alloc);
    for place in 0..records.len() {
        let record = records.at(place);
        if record.is_slow() {
            names.insert(Vec::from_slice(alloc, record.name())?)?;
        }
    }
    Ok(names)
}

// The port of the listener. No call of either socket waits from here on.
fn port_of(places: &Places) -> Result<u16, Refusal> {
    let Ok(address) = places.listener.local_addr() else {
        return Err(Refusal::Device);
    };
    if places.listener.set_nonblocking(true).is_err()
        || places.datagrams.set_nonblocking(true).is_err()
    {
        return Err(Refusal::Device);
    }
    Ok(address.port())
}

// Where connections and datagrams come in, and what wakes the threads that wait for them.
fn opened<R: Net>(
    rt: &R,
    alloc: Global,
    places: Places,
) -> Result<(Door, Desk, Waker, Waker), Refusal> {
    let Places {
        listener,
        datagrams,
        beacons,
    } = places;
    let (door, accepting) = open_door(rt, alloc, TcpListener::from_std(listener))?;
    let (desk, answering) = open_desk(rt, alloc, UdpSocket::from_std(datagrams), beacons)?;
    Ok((door, desk, accepting, answering))
}

fn open_door<R: Net>(
    rt: &R,
    alloc: Global,
    mut listener: TcpListener,
) -> Result<(Door, Waker), Refusal> {
    let events = Events::with_capacity(alloc, 4)?;
    let (poll, waker) = new_poll(rt)?;
    let Ok(()) = poll
        .registry()
        .register(&mut listener, SOCKET, Interest::READABLE)
    else {
        return Err(Refusal::Device);
    };
    let spare = Poll::new(rt).ok();
    let door = Door {
        listener,
        poll,
        events,
        spare,
    };
    Ok((door, waker))
}

fn open_desk<R: Net>(
    rt: &R,
    alloc: Global,
    mut socket: UdpSocket,
    beacons: SocketAddr,
) -> Result<(Desk, Waker), Refusal> {
    let events = Events::with_capacity(alloc, 4)?;
    let buffer = vec![in alloc; 0; DATAGRAM]?;
    let (poll, waker) = new_poll(rt)?;
    let Ok(()) = poll
        .registry()
        .register(&mut socket, SOCKET, Interest::READABLE)
    else {
        return Err(Refusal::Device);
    };
    let desk = Desk {
        socket,
        poll,
        events,
        buffer,
        beacons,
    };
    Ok((desk, waker))
}

// The poll that all circuits share that are parked, and what they need for that.
fn open_parking<R: Net>(rt: &R) -> Result<(Poll, Parking), Refusal> {
    let (poll, waker) = new_poll(rt)?;
    let Ok(registry) = poll.registry().try_clone() else {
        return Err(Refusal::Device);
    };
    let parking = Parking {
        registry,
        waker,
        polls: Mutex::new(0),
    };
    Ok((poll, parking))
}

// Starts the thread for datagrams, the polling thread and two processing threads.
fn start_helpers<
    L: Ledger + Send + Sync + 'static,
    D: Device + Send + Sync + 'static,
    R: Threads
        + Wait
        + Clock
        + Net<Stream = net::TcpStream, Listener = net::TcpListener>
        + Copy
        + Send
        + 'static,
>(
    rt: R,
    alloc: Global,
    shared: &Arc<SharedServer<L, D>>,
    desk: Desk,
    poll: Poll,
    helpers: &mut Vec<JoinHandle<()>>,
) -> Result<(), Refusal> {
    helpers.reserve(4)?;
    let datagrams = DatagramThread {
        shared: Arc::try_clone(shared)?,
        desk,
        tally: shared.tally()?,
    };
    helpers.push_reserved(started(rt, datagrams)?);
    let poller = Poller {
        shared: Arc::try_clone(shared)?,
        poll,
        events: Events::with_capacity(alloc, SOCKETS)?,
    };
    helpers.push_reserved(started(rt, poller)?);
    let processor = Processor {
        shared: Arc::try_clone(shared)?,
    };
    helpers.push_reserved(started(rt, processor)?);
    let another = Processor {
        shared: Arc::try_clone(shared)?,
    };
    helpers.push_reserved(started(rt, another)?);
    Ok(())
}

fn join_helpers<R: Threads>(rt: &R, helpers: &mut Vec<JoinHandle<()>>) {
    while let Some(helper) = helpers.pop() {
        helper.join(rt);
    }
}
