//! A client as C has it: its core, and what a call made that C has not taken yet.

ghost use Rattle.std.specs.Prelude.{◌≡◌};
ghost use Rattle.ca_c.specs.Answers.{Tells, code_of, number_of};
ghost use Rattle.ca_c.specs.Clients.{DoesChannel, DoesClear, DoesClose, DoesConnected, DoesCut};
ghost use Rattle.ca_c.specs.Clients.{DoesDatagram, DoesEnded, DoesGive, DoesLeft, DoesNext};
ghost use Rattle.ca_c.specs.Clients.{DoesOpen, DoesOutput, DoesPut, DoesRead, DoesSearch, DoesSent};
ghost use Rattle.ca_c.specs.Clients.{DoesStep, DoesSubscribe, DoesTick, DoesUnsubscribe, DoesValue};
ghost use Rattle.ca_c.specs.Clients.{DoesWanted, DoesWrite, brought_by, c_wanted};

use crate::answers::{FIRST_DISPLAY, code, displayed, filled, handle, number, refused, shown};
use crate::client_structs::{
    CvzAddress, CvzChannel, CvzNotice, CvzWanted, address, c_channel, c_notice, why_number,
};
use ca_arena::Handle;
use ca_client_core::{
    AddressedDatagram, ClientCore, Closing, Left, Notice, Notices, Stepped, WantedCircuit,
};
use ca_dbr::{Outcome, read_value};
use ca_text::{Mask, Refusal};
use ca_wire::Pipe;
use std::alloc::Global;

/// A client's core, with what C may take of its last calls.
#[derive(Drop)]
pub struct ClientObject {
    pub core: ClientCore,
    /// What the last call reported that reports.
    pub notices: Option<Notices>,
    /// What the notice that was taken last brought.
    pub brought: Option<Outcome>,
    /// What is left to be sent on the circuit that was told closed last.
    pub left: Pipe,
    /// The searches of the last tick, and how many of them C has taken.
    pub searches: Vec<AddressedDatagram>,
    pub taken: usize,
    /// The circuits that the last tick ended.
    pub ended: Vec<Left>,
}

impl ClientObject {
    pub(crate) fn open(&mut self, name: &[u8], priority: u16, now: u64, channel: &mut u64) -> i32
        ensures { DoesOpen self.old result self.new name.now priority now channel.old channel.new }
    {
        given(self.core.open(name, priority, now), channel)
    }

    #[tactic(auto, unfolding(crate::specs::Clients::DoesChannel))]
    pub(crate) fn channel(&self, channel: u64, told: &mut CvzChannel) -> i32
        ensures { DoesChannel self.now result self.now channel told.old told.new }
    {
        match self.core.channel_state(handle(channel)) {
            Ok(state) => {
                *told = c_channel(state);
                0
            }
            Err(refusal) => refused(refusal),
        }
    }

    #[tactic(auto, unfolding(crate::specs::Clients::DoesClear))]
    pub(crate) fn clear(&mut self, channel: u64) -> i32
        ensures { DoesClear self.old result self.new channel }
    {
        match self.core.clear(handle(channel)) {
            Ok(notices) => {
                self.notices = Some(notices);
                0
            }
            Err(refusal) => refused(refusal),
        }
    }

    #[tactic(auto, unfolding(crate::specs::Clients::DoesRead))]
    pub(crate) fn read(
        &mut self,
        channel: u64,
        data_type: u16,
        count: u32,
        request: &mut u64,
    ) -> i32
        ensures { DoesRead self.old result self.new channel data_type count
            request.old request.new }
    {
        let channel = handle(channel);
        if data_type < FIRST_DISPLAY {
            return given(self.core.read(channel, data_type, count), request);
        }
        given(self.core.read_display(channel, data_type, count), request)
    }

    #[tactic(auto, unfolding(crate::specs::Clients::DoesWrite))]
    pub(crate) fn write(
        &mut self,
        alloc: Global,
        channel: u64,
        data_type: u16,
        count: u32,
        image: &[u8],
    ) -> i32
        ensures { DoesWrite self.old result self.new channel data_type count image.now }
    {
        match read_value(alloc, data_type, count, image) {
            Ok((value, _)) => code(self.core.write(handle(channel), &value)),
            Err(refusal) => refused(refusal),
        }
    }

    #[tactic(auto, unfolding(crate::specs::Clients::DoesPut))]
    pub(crate) fn put(
        &mut self,
        alloc: Global,
        channel: u64,
        data_type: u16,
        count: u32,
        image: &[u8],
        request: &mut u64,
    ) -> i32
        ensures { DoesPut self.old result self.new channel data_type count image.now
            request.old request.new }
    {
        match read_value(alloc, data_type, count, image) {
            Ok((value, _)) => given(self.core.write_notify(handle(channel), &value), request),
            Err(refusal) => refused(refusal),
        }
    }

    #[tactic(auto, unfolding(crate::specs::Clients::DoesSubscribe))]
    pub(crate) fn subscribe(
        &mut self,
        channel: u64,
        data_type: u16,
        count: u32,
        mask: u16,
        subscription: &mut u64,
    ) -> i32
        ensures { DoesSubscribe self.old result self.new channel data_type count mask
            subscription.old subscription.new }
    {
        let Some(mask) = Mask::new(mask) else {
            return refused(Refusal::BadEvent);
        };
        given(
            self.core.subscribe(handle(channel), data_type, count, mask),
            subscription,
        )
    }

    #[tactic(auto, unfolding(crate::specs::Clients::DoesUnsubscribe))]
    pub(crate) fn unsubscribe(&mut self, subscription: u64) -> i32
        ensures { DoesUnsubscribe self.old result self.new subscription }
    {
        code(self.core.unsubscribe(handle(subscription)))
    }

    pub(crate) fn wanted(&self, place: usize, told: &mut CvzWanted) -> i32
        ensures { DoesWanted self.now result self.now place told.old told.new }
    {
        let Some(found) = self.core.wanted(place) else {
            return 0;
        };
        *told = c_wanted(&found);
        1
    }

    #[tactic(auto, unfolding(crate::specs::Clients::DoesConnected))]
    pub(crate) fn connected(&mut self, circuit: u64, why: &mut u32) -> i32
        ensures { DoesConnected self.old result self.new circuit why.old why.new }
    {
        match self.core.connected(handle(circuit)) {
            None => 0,
            Some(closing) => {
                *why = why_number(closing.why);
                self.notices = Some(closing.notices);
                self.left = closing.left;
                3
            }
        }
    }

    #[tactic(auto, unfolding(crate::specs::Clients::DoesGive))]
    pub(crate) fn give(&mut self, circuit: u64, bytes: &[u8], more: bool) -> i32
        ensures { DoesGive self.old result self.new circuit bytes.now more }
    {
        code(self.core.give(handle(circuit), bytes, more))
    }

    #[tactic(auto, unfolding(crate::specs::Clients::DoesStep))]
    pub(crate) fn step(&mut self, circuit: u64, why: &mut u32) -> i32
        ensures { DoesStep self.old result self.new circuit why.old why.new }
    {
        match self.core.step(handle(circuit)) {
            Stepped::NeedBytes => 0,
            Stepped::Notices(notices) => {
                self.notices = Some(notices);
                1
            }
            Stepped::Closed(closing) => {
                *why = why_number(closing.why);
                self.notices = Some(closing.notices);
                self.left = closing.left;
                3
            }
        }
    }

    #[tactic(auto, unfolding(crate::specs::Clients::DoesCut))]
    pub(crate) fn cut(&mut self, circuit: u64) -> i32
        ensures { DoesCut self.old result self.new circuit }
    {
        let closing = self.core.cut(handle(circuit));
        self.notices = Some(closing.notices);
        self.left = closing.left;
        0
    }

    #[tactic(auto, unfolding(crate::specs::Clients::DoesClose))]
    pub(crate) fn close(&mut self, circuit: u64) -> i32
        ensures { DoesClose self.old result self.new circuit }
    {
        let closing = self.core.close(handle(circuit));
        self.notices = Some(closing.notices);
        self.left = closing.left;
        0
    }

    pub(crate) fn output(&self, circuit: u64, room: &mut [u8]) -> usize
        ensures { DoesOutput self.now result self.now circuit room.old room.new }
    {
        filled(self.core.out_bytes(handle(circuit)), room)
    }

    pub(crate) fn sent(&mut self, circuit: u64, count: usize) -> i32
        ensures { DoesSent self.old result self.new circuit count }
    {
        let circuit = handle(circuit);
        if self.core.out_bytes(circuit).len() < count {
            return refused(Refusal::OutOfRange);
        }
        self.core.sent(circuit, count);
        0
    }

    pub(crate) fn left(&mut self, room: &mut [u8]) -> usize
        ensures { DoesLeft self.old result self.new room.old room.new }
    {
        let n = filled(self.left.bytes(), room);
        self.left.sent(n);
        n
    }

    #[tactic(auto, unfolding(crate::specs::Clients::DoesTick))]
    pub(crate) fn tick(&mut self, now: u64) -> i32
        ensures { DoesTick self.old result self.new now }
    {
        match self.core.tick(now) {
            Ok(ticked) => {
                self.searches = ticked.datagrams;
                self.taken = 0;
                self.ended = ticked.closings;
                0
            }
            Err(refusal) => refused(refusal),
        }
    }

    pub(crate) fn search(&mut self, to: &mut CvzAddress, room: &mut [u8]) -> usize
        ensures { DoesSearch self.old result self.new to.old to.new room.old room.new }
    {
        let Some(search) = self.searches.get(self.taken) else {
            return 0;
        };
        *to = CvzAddress {
            host: search.to.host,
            port: search.to.port,
        };
        let n = filled(search.bytes.as_slice(), room);
        self.taken += 1;
        n
    }

    pub(crate) fn ended(&mut self, circuit: &mut u64) -> i32
        ensures { DoesEnded self.old result self.new circuit.old circuit.new }
    {
        match self.ended.pop() {
            Some(left) => {
                *circuit = number(left.circuit);
                self.notices = Some(left.notices);
                self.left = left.bytes;
                1
            }
            None => 0,
        }
    }

    #[tactic(auto, unfolding(crate::specs::Clients::DoesDatagram))]
    pub(crate) fn datagram(&mut self, now: u64, from: CvzAddress, bytes: &[u8]) -> i32
        ensures { DoesDatagram self.old result self.new now from bytes.now }
    {
        code(self.core.datagram(now, address(from), bytes))
    }

    #[tactic(auto, unfolding(crate::specs::Clients::DoesNext))]
    pub(crate) fn next(&mut self, told: &mut CvzNotice) -> i32
        ensures { DoesNext self.old result self.new told.old told.new }
    {
        let Some(notices) = &mut self.notices else {
            return 0;
        };
        let Some(notice) = notices.next() else {
            return 0;
        };
        *told = c_notice(&notice);
        self.brought = brought_by(notice);
        1
    }

    #[tactic(auto, unfolding(crate::specs::Clients::DoesValue))]
    pub(crate) fn value(
        &self,
        alloc: Global,
        data_type: u16,
        room: &mut [u8],
        size: &mut usize,
    ) -> i32
        ensures { DoesValue self.now result self.now data_type size.old size.new room.old room.new }
    {
        match &self.brought {
            Some(Outcome::Value(value, meta)) => {
                shown(alloc, data_type, value, meta, room, size)
            }
            Some(Outcome::Displayed(value, meta, display)) => {
                displayed(alloc, data_type, value, meta, display, room, size)
            }
            _ => refused(Refusal::BadType),
        }
    }
}

/// Writes the number of a handle that was given.
fn given(answer: Result<Handle, Refusal>, out: &mut u64) -> i32
    ensures code { result ≡ code_of answer }
    ensures told { Tells number_of answer out.old out.new }
{
    match answer {
        Ok(given) => {
            *out = number(given);
            0
        }
        Err(refusal) => refused(refusal),
    }
}

/// What is told of a circuit that is wanted.
fn c_wanted(found: &WantedCircuit) -> CvzWanted
    ensures { result ≡ c_wanted found.now }
{
    CvzWanted {
        circuit: number(found.circuit),
        host: found.address.host,
        port: found.address.port,
        priority: found.priority,
    }
}

/// What a notice brought to a request or a subscription.
fn brought_by(notice: Notice) -> Option<Outcome>
    ensures { result ≡ brought_by notice }
{
    match notice {
        Notice::Completed(_, outcome) => Some(outcome),
        Notice::Update(_, outcome) => Some(outcome),
        _ => None,
    }
}
