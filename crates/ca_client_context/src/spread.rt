//! How many channels are open at each priority: so `open_spread` finds one whose circuit still has
//! room for a subscription on one more channel.
use ca_arena::Handle;
use ca_text::ARENA_SLOTS;
use std::alloc::{AllocError, Global};

// Subscriptions of a circuit, at most: a server refuses one more. This many channels with one
// each are on a circuit.
const EACH: u32 = 288;

// A client has a circuit to a server for each priority, of which there are this many.
const PRIORITIES: usize = 100;

// How many channels a client has at each priority.
#[derive(Drop)]
pub(crate) struct Spread {
    channels: [u32; PRIORITIES],
    // The priority of the channel that was opened last under each index.
    priorities: Vec<u16>,
}

impl Spread {
    pub(crate) fn new(alloc: Global) -> Result<Spread, AllocError> {
        Ok(Spread {
            channels: [0; PRIORITIES],
            priorities: vec![in alloc; 0; ARENA_SLOTS]?,
        })
    }

    // The lowest priority at which there is room for a channel with a subscription.
    pub(crate) fn lowest(&self) -> Option<u16> {
        let place = self.channels.iter().position(|channels| *channels < EACH)?;
        u16::try_from(place).ok()
    }

    // A channel was opened at this priority.
    pub(crate) fn add(&mut self, channel: Handle, priority: u16) {
        if let Some(place) = self.priorities.get_mut(usize::from(channel.index)) {
            *place = priority;
        }
        if let Some(channels) = self.channels.get_mut(usize::from(priority)) {
            *channels = channels.saturating_add(1);
        }
    }

    // It was cleared.
    pub(crate) fn remove(&mut self, channel: Handle) {
        let Some(priority) = self.priorities.get(usize::from(channel.index)) else {
            return;
        };
        if let Some(channels) = self.channels.get_mut(usize::from(*priority)) {
            *channels = channels.saturating_sub(1);
        }
    }
}
