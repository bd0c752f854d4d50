//! Slow records: the `Device` that processes what was put to one, and the two threads that call it,
//! with the lock released, and then finish the put.
use crate::locked::{LockedServer, SharedServer};
use crate::ringing::Rings;
use crate::work::ThreadWork;
use ca_dbr::Value;
use ca_text::Refusal;
use std::alloc::Global;
use std::net::{Net, TcpListener, TcpStream};
use std::sync::ledger::Ledger;
use std::sync::{Arc, Wait};
use std::thread;
use std::time::{Clock, Duration};

/// Does what a slow record needs. It is called with no lock held, by two threads: for one record at
/// a time by one of them.
///
/// A call that takes long keeps one of the two, so that two such calls hold up the other slow
/// records. One that never returns holds up the end of the server.
pub trait Device: Drop {
    /// Processes the value that was put to the record of this name.
    fn process(&self, record: &[u8], value: &Value);
}

/// A processing thread.
#[derive(Drop)]
pub(crate) struct Processor<L: Ledger, D: Device> {
    pub(crate) shared: Arc<SharedServer<L, D>>,
}

impl<L: Ledger, D: Device> ThreadWork<()> for Processor<L, D> {
    // Takes up one record after another, until the server is to end: nobody would hear of a put
    // that is finished then.
    fn run<R: Wait + Clock + Net<Stream = TcpStream, Listener = TcpListener>>(self, rt: &R) {
        let Processor { shared } = self;
        for _ in rt.forever() {
            let mut guard = shared.given.wait_while(
                rt,
                shared.locked.lock(rt),
                |l| l.busy.is_empty() && !l.ending,
            );
            if guard.ending {
                break;
            }
            let Some(place) = guard.busy.pop_front() else {
                break;
            };
            drop(guard);
            if let Some(name) = shared.slow.get_index(place) {
                process(rt, &shared, place, name);
            }
        }
    }
}

// Has the device process the put that makes the record of this name busy.
fn process<L: Ledger, D: Device, R: Wait + Clock>(
    rt: &R,
    shared: &SharedServer<L, D>,
    place: usize,
    name: &[u8],
) {
    for _ in rt.forever() {
        let value = value_of(&*shared.locked.lock(rt), shared.alloc, name);
        match value {
            None => break,
            // A copy that finds no memory is tried again.
            Some(Err(_)) => thread::sleep(rt, Duration::from_millis(1)),
            Some(Ok(value)) => {
                shared.device.process(name, &value);
                finish(rt, shared, place, name);
                break;
            }
        }
    }
}

// The put of the record of this name was processed: whoever is to hear of it is woken.
fn finish<L: Ledger, D: Device, R: Wait + Clock>(
    rt: &R,
    shared: &SharedServer<L, D>,
    place: usize,
    name: &[u8],
) {
    let mut rings = Rings::new(shared.alloc);
    let mut guard = shared.locked.lock(rt);
    let locked = &mut *guard;
    locked.finish(rt, place, name);
    shared.note_writes(locked);
    locked.bells.share_out(&mut rings);
    drop(guard);
    rings.ring_all();
}

// What was put to the record of this name, unless the server is to end.
fn value_of<L: Ledger>(
    locked: &LockedServer<L>,
    alloc: Global,
    name: &[u8],
) -> Option<Result<Value, Refusal>> {
    if locked.ending {
        return None;
    }
    match locked.state.core().busy_value(name) {
        Some(held) => Some(held.value().copy(alloc)),
        None => None,
    }
}
