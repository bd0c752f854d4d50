//! A server as C has it: its core, and what a call made that C has not taken yet.

ghost use Rattle.std.specs.Prelude.{◌≡◌, ◌<◌, ◌≤◌, IfErr, IfOk};
ghost use Rattle.std.specs.Arc.{arc_value};
ghost use Rattle.ca_dbr.specs.declared.value.Meta.{Meta};
ghost use Rattle.ca_dbr.specs.Elements.{count_of, elements};
ghost use Rattle.ca_dbr.specs.Data.{data_of};
ghost use Rattle.ca_display.specs.Reading.{DisplayRefused};
ghost use Rattle.ca_c.specs.Answers.{IsDisplayImage};
ghost use Rattle.ca_c.specs.Servers.{AddsDisplayed, AddsPlain};
ghost use Rattle.ca_c.specs.Servers.{DoesAccept, DoesAdd, DoesAnswer, DoesApplied, DoesBeacon};
ghost use Rattle.ca_c.specs.Servers.{DoesBusy, DoesCut, DoesDatagram, DoesFinish, DoesFirst};
ghost use Rattle.ca_c.specs.Servers.{DoesGive, DoesHost, DoesLeft, DoesName, DoesOutput, DoesPost};
ghost use Rattle.ca_c.specs.Servers.{DoesPump, DoesRemove, DoesSent, DoesSetDisplay, DoesStamp};
ghost use Rattle.ca_c.specs.Servers.{DoesStep, DoesUser, DoesValue, DoesWaiting};

use crate::answers::{
    FIRST_DISPLAY, code, copied, copied_value, filled, handle, number, refused, shown,
};
use crate::step::{CvzStep, c_step, step_number};
use ca_dbr::{Display, Meta, Value, read_value};
use ca_display::read_display;
use ca_records::Record;
use ca_server_core::{CoreStep, ServerCore};
use ca_text::Refusal;
use ca_wire::{Pipe, Sid};
use std::alloc::{AllocError, Global};
use std::sync::Arc;

/// A server's core, with what C may take of its last calls.
#[derive(Drop)]
pub struct ServerObject {
    pub core: ServerCore,
    /// What is left to be sent on the circuit that a step reported closed last.
    pub left: Pipe,
    /// The datagrams that answer the one that was given last, and how many of them C has taken.
    pub answers: Vec<Vec<u8>>,
    pub taken: usize,
}

impl ServerObject {
    pub(crate) fn accept(&mut self, circuit: &mut u64) -> i32
        ensures { DoesAccept self.old result self.new circuit.old circuit.new }
    {
        match self.core.accept() {
            Ok(opened) => {
                *circuit = number(opened);
                0
            }
            Err(refusal) => refused(refusal),
        }
    }

    pub(crate) fn give(&mut self, circuit: u64, bytes: &[u8]) -> i32
        ensures { DoesGive self.old result self.new circuit bytes.now }
    {
        code(self.core.give(handle(circuit), bytes))
    }

    #[tactic(auto, unfolding(crate::specs::Servers::DoesStep))]
    pub(crate) fn step(&mut self, circuit: u64, told: &mut CvzStep) -> i32
        ensures { DoesStep self.old result self.new circuit told.new }
    {
        let did = self.core.step(handle(circuit));
        *told = c_step(&did);
        let answer = step_number(&did);
        if let CoreStep::Closed(_, left) = did {
            self.left = left;
        }
        answer
    }

    #[tactic(auto, unfolding(crate::specs::Servers::DoesPump))]
    pub(crate) fn pump(&mut self, circuit: u64) -> i32
        ensures { DoesPump self.old result self.new circuit }
    {
        self.core.pump(handle(circuit));
        0
    }

    pub(crate) fn cut(&mut self, circuit: u64) -> i32
        ensures { DoesCut self.old result self.new circuit }
    {
        self.core.cut(handle(circuit));
        0
    }

    pub(crate) fn stamp(&mut self, seconds: u32, nanos: u32) -> i32
        ensures { DoesStamp self.old result self.new seconds nanos }
    {
        self.core.stamp(seconds, nanos);
        0
    }

    pub(crate) fn output(&self, circuit: u64, room: &mut [u8]) -> usize
        ensures { DoesOutput self.now result self.now circuit room.old room.new }
    {
        filled(self.core.out_bytes(handle(circuit)), room)
    }

    pub(crate) fn sent(&mut self, circuit: u64, count: usize) -> i32
        ensures { DoesSent self.old result self.new circuit count }
    {
        let circuit = handle(circuit);
        if self.core.out_bytes(circuit).len() < count {
            return refused(Refusal::OutOfRange);
        }
        self.core.sent(circuit, count);
        0
    }

    pub(crate) fn left(&mut self, room: &mut [u8]) -> usize
        ensures { DoesLeft self.old result self.new room.old room.new }
    {
        let n = filled(self.left.bytes(), room);
        self.left.sent(n);
        n
    }

    #[tactic(auto, unfolding(crate::specs::Servers::DoesAdd))]
    pub(crate) fn add(
        &mut self,
        alloc: Global,
        name: &[u8],
        greatest: u32,
        slow: bool,
        number: u16,
        count: u32,
        image: &[u8],
    ) -> i32
        ensures { DoesAdd self.old result self.new name.now greatest slow number count image.now }
    {
        if number < FIRST_DISPLAY {
            self.add_plain(alloc, name, greatest, slow, number, count, image)
        } else {
            self.add_displayed(alloc, name, greatest, slow, number, count, image)
        }
    }

    #[tactic(auto, unfolding(crate::specs::Servers::AddsPlain))]
    fn add_plain(
        &mut self,
        alloc: Global,
        name: &[u8],
        greatest: u32,
        slow: bool,
        number: u16,
        count: u32,
        image: &[u8],
    ) -> i32
        ensures { AddsPlain self.old result self.new name.now greatest slow number count image.now }
    {
        match read_value(alloc, number, count, image) {
            Ok((value, _)) => code(self.core.add_record(name, greatest, slow, value)),
            Err(refusal) => refused(refusal),
        }
    }

    #[tactic(auto, unfolding(crate::specs::Servers::AddsDisplayed))]
    fn add_displayed(
        &mut self,
        alloc: Global,
        name: &[u8],
        greatest: u32,
        slow: bool,
        number: u16,
        count: u32,
        image: &[u8],
    ) -> i32
        ensures { AddsDisplayed
            self.old result self.new name.now greatest slow number count image.now }
    {
        match read_shown(alloc, number, count, image) {
            Ok((value, display)) => {
                code(
                    self.core
                        .add_displayed(name, greatest, slow, value, display),
                )
            }
            Err(refusal) => refused(refusal),
        }
    }

    #[tactic(auto, unfolding(crate::specs::Servers::DoesRemove))]
    pub(crate) fn remove(&mut self, name: &[u8]) -> i32
        ensures { DoesRemove self.old result self.new name.now }
    {
        code(self.core.remove_record(name))
    }

    #[tactic(auto, unfolding(crate::specs::Servers::DoesPost))]
    pub(crate) fn post(
        &mut self,
        alloc: Global,
        name: &[u8],
        mask: u16,
        number: u16,
        count: u32,
        image: &[u8],
    ) -> i32
        ensures { DoesPost self.old result self.new name.now mask number count image.now }
    {
        match read_value(alloc, number, count, image) {
            Ok((value, meta)) => code(self.core.post(name, value, meta, mask)),
            Err(refusal) => refused(refusal),
        }
    }

    #[tactic(auto, unfolding(crate::specs::Servers::DoesSetDisplay))]
    pub(crate) fn set_display(
        &mut self,
        alloc: Global,
        name: &[u8],
        number: u16,
        count: u32,
        image: &[u8],
    ) -> i32
        ensures { DoesSetDisplay self.old result self.new name.now number count image.now }
    {
        match read_shown(alloc, number, count, image) {
            Ok((_, display)) => code(self.core.set_display(name, display)),
            Err(refusal) => refused(refusal),
        }
    }

    #[tactic(auto, unfolding(crate::specs::Servers::DoesFinish))]
    pub(crate) fn finish(&mut self, name: &[u8]) -> i32
        ensures { DoesFinish self.old result self.new name.now }
    {
        code(self.core.finish(name))
    }

    #[tactic(auto, unfolding(crate::specs::Servers::DoesBusy))]
    pub(crate) fn busy(&self, alloc: Global, name: &[u8], room: &mut [u8], size: &mut usize) -> i32
        ensures { DoesBusy self.now result self.now name.now size.old size.new room.old room.new }
    {
        let Some(held) = self.core.busy_value(name) else {
            return refused(Refusal::NotBusy);
        };
        let value = held.value();
        let own = value.base_type().number();
        shown(alloc, own, value, &Meta::ZERO, room, size)
    }

    #[tactic(auto, unfolding(crate::specs::Servers::DoesValue))]
    pub(crate) fn value(
        &self,
        alloc: Global,
        name: &[u8],
        number: u16,
        count: &mut u32,
        room: &mut [u8],
        size: &mut usize,
    ) -> i32
        ensures { DoesValue self.now result self.now name.now number count.old count.new
            size.old size.new room.old room.new }
    {
        let Some(record) = self.core.record(name) else {
            return refused(Refusal::UnknownRecord);
        };
        match copied_value(
            alloc,
            number,
            record.held().value(),
            record.meta(),
            room,
            size,
        ) {
            Ok(()) => {
                *count = count_of(record);
                0
            }
            Err(refusal) => refused(refusal),
        }
    }

    #[tactic(auto, unfolding(crate::specs::Servers::DoesFirst))]
    pub(crate) fn first(&self, name: &[u8], circuit: &mut u64) -> i32
        ensures { DoesFirst self.now result self.now name.now circuit.old circuit.new }
    {
        match self.core.first_waiting(name) {
            Some(waiting) => {
                *circuit = number(waiting);
                1
            }
            None => 0,
        }
    }

    #[tactic(auto, unfolding(crate::specs::Servers::DoesDatagram))]
    pub(crate) fn datagram(&mut self, bytes: &[u8]) -> i32
        ensures { DoesDatagram self.old result self.new bytes.now }
    {
        match self.core.datagram(bytes) {
            Ok(answers) => {
                self.answers = answers;
                self.taken = 0;
                0
            }
            Err(refusal) => refused(refusal),
        }
    }

    pub(crate) fn answer(&mut self, room: &mut [u8]) -> usize
        ensures { DoesAnswer self.old result self.new room.old room.new }
    {
        let Some(answer) = self.answers.get(self.taken) else {
            return 0;
        };
        let n = filled(answer.as_slice(), room);
        self.taken += 1;
        n
    }

    #[tactic(auto, unfolding(crate::specs::Servers::DoesBeacon))]
    pub(crate) fn beacon(&mut self, now: u64, room: &mut [u8]) -> usize
        ensures { DoesBeacon self.old result self.new now room.old room.new }
    {
        match self.core.beacon(now) {
            Some(bytes) => filled(&bytes, room),
            None => 0,
        }
    }

    pub(crate) fn applied(&self) -> u64
        ensures { DoesApplied self.now result self.now }
    {
        self.core.applied()
    }

    pub(crate) fn waiting(&self) -> u64
        ensures { DoesWaiting self.now result self.now }
    {
        self.core.waiting()
    }

    #[tactic(auto, unfolding(crate::specs::Servers::DoesName))]
    pub(crate) fn name(&self, circuit: u64, sid: u32, room: &mut [u8]) -> usize
        ensures { DoesName self.now result self.now circuit sid room.old room.new }
    {
        match self.core.served_name(handle(circuit), Sid::new(sid)) {
            Some(name) => filled(name, room),
            None => 0,
        }
    }

    #[tactic(auto, unfolding(crate::specs::Servers::DoesUser))]
    pub(crate) fn user(&self, circuit: u64, room: &mut [u8]) -> usize
        ensures { DoesUser self.now result self.now circuit room.old room.new }
    {
        match self.core.user(handle(circuit)) {
            Some(user) => copied(user, room),
            None => 0,
        }
    }

    #[tactic(auto, unfolding(crate::specs::Servers::DoesHost))]
    pub(crate) fn host(&self, circuit: u64, room: &mut [u8]) -> usize
        ensures { DoesHost self.now result self.now circuit room.old room.new }
    {
        match self.core.host(handle(circuit)) {
            Some(host) => copied(host, room),
            None => 0,
        }
    }
}

/// How many elements its value has.
fn count_of(record: &Record) -> u32
    ensures { result ≡ count_of record.now.value }
{
    record.held().value().count() as u32
}

/// The value and the display data of this image.
fn read_shown(
    alloc: Global,
    number: u16,
    count: u32,
    image: &[u8],
) -> Result<(Value, Arc<Display>), Refusal>
    ensures read { IfOk result (λ r. (meta : Meta)
        × IsDisplayImage number count image.now (elements r.0) meta (data_of (arc_value r.1))) }
    ensures refused { IfErr result (DisplayRefused number count image.now) }
{
    let (value, _, display) = read_display(alloc, number, count, image)?;
    match Arc::new(alloc, display) {
        Ok(display) => Ok((value, display)),
        Err(_) => Err(Refusal::OutOfMemory),
    }
}
