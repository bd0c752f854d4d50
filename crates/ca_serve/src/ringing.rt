//! How the thread of a circuit is woken. Bells that are to ring are noted under the lock, and rung
//! with the lock released: whoever noted them takes a few along, and each thread that is woken
//! takes one. So a write that reaches many is told of on all cores, whoever wrote goes on, and only
//! a few threads at a time want the lock.
use ca_arena::Handle;
use indexmap::IndexMap;
use mio::Waker;
use std::alloc::{AllocError, Global};
use std::collections::VecDeque;
use std::mem;
use std::sync::Arc;
use std::thread::Parker;

// Bells that a thread takes along from a hold in which it noted some, and from another. Did each
// take several, all whom a write reaches would be awake at once, and wait for the lock: 1,000
// updates take a seventh longer then.
const FIRST: usize = 4;

const NEXT: usize = 1;

/// What wakes a thread.
#[derive(Drop)]
pub(crate) struct Wake {
    // Of the poll that its circuit has for itself, unless it is parked.
    waker: Option<Arc<Waker>>,
    parker: Arc<Parker>,
}

impl Wake {
    // Wakes the thread, at its poll or its parker.
    fn ring(&self) {
        match &self.waker {
            Some(waker) => ring(waker),
            None => self.parker.unpark(),
        }
    }

    fn again(&self) -> Result<Wake, AllocError> {
        let waker = match &self.waker {
            Some(waker) => Some(Arc::try_clone(waker)?),
            None => None,
        };
        Ok(Wake {
            waker,
            parker: Arc::try_clone(&self.parker)?,
        })
    }
}

// How the thread of a circuit is woken.
#[derive(Drop)]
struct Bell {
    circuit: Handle,
    wake: Wake,
    // The thread waits for bytes, nothing waits to be sent on its circuit, and nobody is about to
    // wake it.
    is_idle: bool,
    // It is among those that are to ring.
    is_due: bool,
}

/// The bells of the circuits that have a thread. They lie under the lock.
#[derive(Drop)]
pub(crate) struct Bells {
    // By the index of the circuit's handle.
    all: IndexMap<u16, Bell>,
    // Those that are to ring, and that no thread has taken along yet, in the order in which they
    // were noted.
    due: VecDeque<u16>,
    // Some were noted since any were taken along.
    is_more: bool,
}

impl Bells {
    pub(crate) fn new(alloc: Global) -> Bells {
        Bells {
            all: IndexMap::new(alloc),
            due: VecDeque::new(alloc),
            is_more: false,
        }
    }

    /// A circuit has a bell from now on, whose thread is parked, but not idle.
    pub(crate) fn add(&mut self, circuit: Handle, parker: Arc<Parker>) -> Result<(), AllocError> {
        let bell = Bell {
            circuit,
            wake: Wake {
                waker: None,
                parker,
            },
            is_idle: false,
            is_due: false,
        };
        match self.all.insert(circuit.index, bell) {
            Ok(_) => Ok(()),
            Err(_) => Err(AllocError),
        }
    }

    /// The circuit of this bell was closed.
    pub(crate) fn remove(&mut self, circuit: Handle) {
        self.all.swap_remove(&circuit.index);
    }

    /// From now on a ring of the circuit's bell is for this waker, or for the parker. The other one
    /// comes back.
    pub(crate) fn hang(
        &mut self,
        circuit: Handle,
        waker: Option<Arc<Waker>>,
    ) -> Option<Arc<Waker>> {
        let mut other = waker;
        if let Some(bell) = self.all.get_mut(&circuit.index) {
            mem::swap(&mut bell.wake.waker, &mut other);
        }
        other
    }

    /// Whether a circuit's thread is idle from now on.
    pub(crate) fn rest(&mut self, circuit: Handle, is_idle: bool) {
        if let Some(bell) = self.all.get_mut(&circuit.index) {
            bell.is_idle = is_idle;
        }
    }

    /// The bell of this circuit is to ring, if it has one and its thread is idle.
    pub(crate) fn note(&mut self, circuit: Handle) {
        let Bells { all, due, is_more } = self;
        if let Some(bell) = all.get_mut(&circuit.index) {
            if bell.circuit == circuit {
                bell.note(due);
                *is_more = true;
            }
        }
    }

    /// The bells of all idle threads are to ring.
    pub(crate) fn note_all(&mut self) {
        let Bells { all, due, is_more } = self;
        for (_, bell) in all {
            bell.note(due);
        }
        *is_more = true;
    }

    /// A thread takes along some of those that are to ring. It does so in each hold under which it
    /// may have noted any, and in each turn: so each that is taken along and rung has more of them
    /// taken along, until none is left.
    pub(crate) fn share_out(&mut self, rings: &mut Rings) {
        let Bells { all, due, is_more } = self;
        let most = if *is_more { FIRST } else { NEXT };
        *is_more = false;
        for _ in 0..due.len() {
            let Some(index) = due.pop_front() else {
                return;
            };
            if let Some(bell) = all.get_mut(&index) {
                bell.go(rings);
            }
            if rings.wakes.len() >= most {
                return;
            }
        }
    }

    /// The thread of this index is to be woken if it is parked, whatever it waits for there.
    pub(crate) fn call(&self, index: u16, rings: &mut Rings) {
        if let Some(bell) = self.all.get(&index) {
            bell.call(rings);
        }
    }

    /// All threads that are parked are to be woken.
    pub(crate) fn call_all(&self, rings: &mut Rings) {
        for (_, bell) in &self.all {
            bell.call(rings);
        }
    }

    /// Rings all, at once.
    pub(crate) fn ring_all(&self) {
        for (_, bell) in &self.all {
            bell.wake.ring();
        }
    }
}

impl Bell {
    // It is to ring, if its thread is idle. Without memory for that it rings at once.
    fn note(&mut self, due: &mut VecDeque<u16>) {
        if !self.is_idle {
            return;
        }
        self.is_idle = false;
        if self.is_due {
            return;
        }
        match due.push_back(self.circuit.index) {
            Ok(()) => self.is_due = true,
            Err(_) => self.wake.ring(),
        }
    }

    // It is taken along, if it is to ring and its thread took no turn since.
    fn go(&mut self, rings: &mut Rings) {
        if !self.is_due {
            return;
        }
        self.is_due = false;
        if self.is_idle {
            return;
        }
        match self.wake.again() {
            Ok(wake) => rings.add(wake),
            Err(_) => self.wake.ring(),
        }
    }

    fn call(&self, rings: &mut Rings) {
        match Arc::try_clone(&self.wake.parker) {
            Ok(parker) => rings.add(Wake {
                waker: None,
                parker,
            }),
            Err(_) => self.wake.parker.unpark(),
        }
    }
}

/// Bells that a thread rings once it has let the lock go.
#[derive(Drop)]
pub(crate) struct Rings {
    wakes: Vec<Wake>,
}

impl Rings {
    pub(crate) fn new(alloc: Global) -> Rings {
        Rings {
            wakes: Vec::new(alloc),
        }
    }

    // Without memory for that it rings at once.
    fn add(&mut self, wake: Wake) {
        if let Err(refused) = self.wakes.push(wake) {
            refused.value.ring();
        }
    }

    pub(crate) fn ring_all(&mut self) {
        while let Some(wake) = self.wakes.pop() {
            wake.ring();
        }
    }
}

/// Wakes a thread. A wake that fails was of a thread that is at its end.
pub(crate) fn ring(waker: &Waker) {
    let _gone = waker.wake();
}
