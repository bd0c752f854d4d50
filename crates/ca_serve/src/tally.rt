//! The replies of one circuit, counted as they go to its socket, with no lock held.

use crate::meter::{Meter, Replies};
use ca_server_core::CircuitOutput;
use ca_text::{Command, Status};
use ca_wire::{Header, One, read_one};
use std::alloc::Global;

/// Counts replies for a meter, if there is one.
#[derive(Drop)]
pub(crate) struct Tally {
    meter: Option<Meter>,
    // For each index of a SID the generation of the channel that is open there.
    open: Vec<Option<u16>>,
    counted: Replies,
}

impl Tally {
    pub(crate) fn new(alloc: Global, meter: Option<Meter>) -> Tally {
        Tally {
            meter,
            open: Vec::new(alloc),
            counted: Replies::NONE,
        }
    }

    /// Counts these replies, each of which is whole.
    pub(crate) fn count(&mut self, replies: &[u8]) {
        if self.meter.is_none() {
            return;
        }
        let mut left = replies;
        // Each turn takes a reply.
        for _ in 0..replies.len() {
            let One::Whole(head) = read_one(left) else {
                break;
            };
            self.note(&head.header);
            let size = head.start.saturating_add(head.header.size as usize);
            left = match left.get(size..) {
                Some(after) => after,
                None => &[],
            };
        }
        if let Some(meter) = &self.meter {
            meter.add(&self.counted);
        }
        self.counted = Replies::NONE;
    }

    /// Counts all replies that leave. Each image is that of an update.
    pub(crate) fn count_all(&mut self, output: Option<&CircuitOutput>) {
        let Some(output) = output else {
            return;
        };
        for piece in output.pieces() {
            let (before, _, _) = piece.parts();
            self.count(before);
            one_more(&mut self.counted.updates);
        }
        self.count(output.last());
    }

    /// The circuit is open.
    pub(crate) fn begin(&self) {
        if let Some(meter) = &self.meter {
            meter.note_circuit(true);
        }
    }

    /// The circuit was closed, and these bytes are left.
    pub(crate) fn end(&mut self, left: &[u8]) {
        self.count(left);
        for place in &self.open {
            if place.is_some() {
                one_more(&mut self.counted.cleared);
            }
        }
        self.open.clear();
        self.count(&[]);
        if let Some(meter) = &self.meter {
            meter.note_circuit(false);
        }
    }

    // Counts the reply of this header.
    fn note(&mut self, header: &Header) {
        let is_normal = header.p1 == Status::NORMAL.number;
        let counted = &mut self.counted;
        match Command::of(header.command) {
            Some(Command::ReadNotify) if is_normal => one_more(&mut counted.reads),
            Some(Command::WriteNotify) if is_normal => {}
            // One without a payload confirms a cancel.
            Some(Command::EventAdd) if header.size > 0 => one_more(&mut counted.updates),
            Some(Command::Search) => one_more(&mut counted.searches),
            Some(Command::CreateChannel) => self.open(header.p2),
            Some(Command::ClearChannel) => self.clear(header.p1),
            Some(Command::ReadNotify)
            | Some(Command::WriteNotify)
            | Some(Command::Error)
            | Some(Command::CreateChannelFail) => one_more(&mut counted.refused),
            _ => {}
        }
    }

    // The channel of this SID is open. Without memory for that it is not counted.
    fn open(&mut self, sid: u32) {
        let (index, generation) = parts_of(sid);
        if index >= self.open.len() && self.open.resize(index.saturating_add(1), None).is_err() {
            return;
        }
        if let Some(place) = self.open.get_mut(index) {
            *place = Some(generation);
            one_more(&mut self.counted.created);
        }
    }

    // The channel of this SID is cleared, if it was open.
    fn clear(&mut self, sid: u32) {
        let (index, generation) = parts_of(sid);
        if let Some(place) = self.open.get_mut(index) {
            if *place == Some(generation) {
                *place = None;
                one_more(&mut self.counted.cleared);
            }
        }
    }
}

// The index of a SID, and its generation.
fn parts_of(sid: u32) -> (usize, u16) {
    let [first, second, third, fourth] = sid.to_be_bytes();
    let index = u16::from_be_bytes([third, fourth]);
    (usize::from(index), u16::from_be_bytes([first, second]))
}

fn one_more(number: &mut u64) {
    *number = number.saturating_add(1);
}
