//! The thread that answers searches and sends beacons, by one socket. What goes out is the core's
//! to say; if a datagram cannot be sent, nothing is done about it.
use crate::clock::moment_now;
use crate::locked::SharedServer;
use crate::processing::Device;
use crate::tally::Tally;
use crate::work::ThreadWork;
use mio::net::UdpSocket;
use mio::{Events, Poll};
use std::alloc::Global;
use std::net::{Net, SocketAddr, TcpListener, TcpStream};
use std::sync::ledger::Ledger;
use std::sync::{Arc, Wait};
use std::time::{Clock, Duration};
use std::{io, thread};

// Datagrams that are answered between two looks at the clock.
const DATAGRAMS: u32 = 64;

// After the first beacon the next is due in this many milliseconds, and then each time in twice as
// many, up to a limit.
const FIRST: u64 = 20;

const LAST: u64 = 15_000;

// A wait that the system refuses is this many milliseconds long, and so is one after a read that it
// refuses.
const PAUSE: u64 = 10;

/// The thread that answers searches, and sends beacons.
#[derive(Drop)]
pub(crate) struct DatagramThread<L: Ledger, D: Device> {
    pub(crate) shared: Arc<SharedServer<L, D>>,
    pub(crate) desk: Desk,
    pub(crate) tally: Tally,
}

/// A socket for datagrams, and what is done with it.
#[derive(Drop)]
pub(crate) struct Desk {
    pub(crate) socket: UdpSocket,
    pub(crate) poll: Poll,
    pub(crate) events: Events<Global>,
    pub(crate) buffer: Vec<u8>,
    pub(crate) beacons: SocketAddr,
}

impl<L: Ledger, D: Device> ThreadWork<()> for DatagramThread<L, D> {
    fn run<R: Wait + Clock + Net<Stream = TcpStream, Listener = TcpListener>>(self, rt: &R) {
        let DatagramThread {
            shared,
            mut desk,
            mut tally,
        } = self;
        let mut due = 0u64;
        let mut pause = FIRST;
        for _ in rt.forever() {
            let now = moment_now(rt);
            if now >= due {
                if beacon(rt, &shared, &desk, now) {
                    due = now.saturating_add(pause);
                    pause = pause.saturating_mul(2).min(LAST);
                } else {
                    due = now.saturating_add(FIRST);
                }
            }
            if shared.locked.lock(rt).ending {
                break;
            }
            match answer_some(rt, &shared, &mut desk, &mut tally) {
                Answering::Some => {}
                Answering::All => desk.wait(rt, due.saturating_sub(now)),
                Answering::Failed => thread::sleep(rt, Duration::from_millis(PAUSE)),
            }
        }
    }
}

// What is left of the datagrams that came.
enum Answering {
    All,
    // More may be there.
    Some,
    // No datagram could be read, for a fault that may last.
    Failed,
}

impl Desk {
    // Waits for a datagram, for that many milliseconds at most, or until the thread is woken.
    fn wait<R: Clock>(&mut self, rt: &R, milliseconds: u64) {
        let most = Duration::from_millis(milliseconds);
        if self.poll.poll(&mut self.events, Some(most)).is_err() {
            thread::sleep(rt, Duration::from_millis(PAUSE));
        }
    }
}

// Sends the beacon, if one is due, and tells whether one was. One that cannot be sent is left out.
fn beacon<L: Ledger, D: Device, R: Wait>(
    rt: &R,
    shared: &SharedServer<L, D>,
    desk: &Desk,
    now: u64,
) -> bool {
    let Some(beacon) = shared.locked.lock(rt).state.beacon(now) else {
        return false;
    };
    let _lost = desk.socket.send_to(&beacon, desk.beacons);
    true
}

// Answers some datagrams, and tells what may be left.
fn answer_some<L: Ledger, D: Device, R: Wait>(
    rt: &R,
    shared: &SharedServer<L, D>,
    desk: &mut Desk,
    tally: &mut Tally,
) -> Answering {
    for _ in 0..DATAGRAMS {
        match desk.socket.recv_from(desk.buffer.as_mut_slice()) {
            Ok((count, from)) => {
                if count <= desk.buffer.len() {
                    answer(
                        rt,
                        shared,
                        &desk.socket,
                        &desk.buffer.as_slice()[..count],
                        from,
                        tally,
                    );
                }
            }
            Err(error) => match error.kind() {
                io::ErrorKind::WouldBlock => return Answering::All,
                io::ErrorKind::Interrupted => {}
                // Of another fault there is nothing to be done: it may be of a datagram that was
                // sent.
                _ => return Answering::Failed,
            },
        }
    }
    Answering::Some
}

// Answers the searches of a datagram. What cannot be sent is left out: a client searches again.
fn answer<L: Ledger, D: Device, R: Wait>(
    rt: &R,
    shared: &SharedServer<L, D>,
    socket: &UdpSocket,
    bytes: &[u8],
    from: SocketAddr,
    tally: &mut Tally,
) {
    let answers = shared.locked.lock(rt).state.core().datagram(bytes);
    let Ok(answers) = answers else {
        return;
    };
    for datagram in &answers {
        tally.count(datagram.as_slice());
        let _lost = socket.send_to(datagram.as_slice(), from);
    }
}
