//! A circuit of a server: its open end, or the bytes that an ended one left.
ghost use Rattle.std.specs.Prelude.{◌≡◌, ◌≢◌, ◌≤◌, [], IfOk, OnErr, Some, false, length};
ghost use Rattle.std.specs.Prelude.{option_map, true};
ghost use Rattle.std.specs.Arc.{arc_value};
ghost use Rattle.ca_model.specs.Server.{ServerEnd, new_end};
ghost use Rattle.ca_model.specs.Server as server;
ghost use Rattle.ca_model.specs.ServerSteps.{Rests, output_of};
ghost use Rattle.ca_records.specs.Store.{IsThere, records_of};
ghost use Rattle.ca_server_circuit.specs.AtOnce.{ShowsAt};
ghost use Rattle.ca_server_circuit.specs.Circuits.{CircuitIsSound, GivesAt, IsLive, SendsAt};
ghost use Rattle.ca_server_circuit.specs.Circuits.{circuit_of, is_open};
ghost use Rattle.ca_server_circuit.specs.Clearing.{ArePuts};
ghost use Rattle.ca_server_circuit.specs.Concerned.{ConcernsOn, SizesOn, bytes_on, channels_on};
ghost use Rattle.ca_server_circuit.specs.Ending.{ArePutsAt, EndsAt, IsLeft, WithdrawsAll};
ghost use Rattle.ca_server_circuit.specs.Finishing.{RepliesAt};
ghost use Rattle.ca_server_circuit.specs.Peeking.{NamesAt, peer_on};
ghost use Rattle.ca_server_circuit.specs.CircuitOutput.{bytes_of};
ghost use Rattle.ca_server_circuit.specs.Posting.{IsCopyAt, PostsAt, WatchesAt, stored_of};
ghost use Rattle.ca_server_circuit.specs.Pumping.{PumpsAt, PumpsOverAt};
ghost use Rattle.ca_server_circuit.specs.Removing.{LosesAt, MayLose};
ghost use Rattle.ca_server_circuit.specs.Serving.{CircuitSteps};
ghost use Rattle.ca_server_circuit.specs.Stepping.{why_is};
ghost use Rattle.ca_server_subscriptions.specs.Sharing.{IsCopy};

use crate::cause::EndCause;
use crate::circuit_output::CircuitOutput;
use crate::end::End;
use crate::step::EndStep;
use ca_arena::Handle;
use ca_link::Spares;
use ca_records::{Put, Record, ServedRecords};
use ca_server_subscriptions::SharedUpdate;
use ca_text::Refusal;
use ca_wire::{Pipe, Sid};
use std::alloc::{AllocError, Global};
use std::marker::Model;
use std::sync::Arc;

/// A circuit of a server.
#[derive(Drop)]
pub struct Circuit {
    state: CircuitState,
}

// Its end is open, or ended in another call than a step, and left these bytes. A
// step reports that once.
#[derive(Drop)]
enum CircuitState {
    Open(End),
    Ended(EndCause, Pipe),
}

impl Model for Circuit {
    ghost use Rattle.ca_model.specs.Server.{ServerCircuit};

    ghost Value = { ServerCircuit };

    ghost use Rattle.std.specs.Coded.{codes};
    ghost use Rattle.ca_dbr.specs.Codes.{elements_code};

    ghost coded = { Prim.hlevel (codes, elements_code) };

    ghost use Rattle.ca_server_circuit.specs.Circuits.{circuit_of};

    ghost view = { λ c. circuit_of c.state };
}

impl Circuit {
    /// A circuit that was accepted at this moment. It does not allocate yet.
    pub fn new(alloc: Global, now: u64) -> Circuit
        ensures { result ≡ server.Open (new_end now) }
    {
        let end = End::new(alloc, now);
        Circuit {
            state: CircuitState::Open(end),
        }
    }

    /// Takes bytes that came at this moment. Refused as CircuitClosed if its end is not open,
    /// then as OutOfMemory.
    pub fn give(&mut self, now: u64, bytes: &[u8]) -> Result<(), Refusal>
        requires { IsLive self.old }
        ensures { GivesAt now bytes.now self.old result self.new }
    {
        match &mut self.state {
            CircuitState::Open(end) => end.link.give(now, bytes),
            CircuitState::Ended(_, _) => Err(Refusal::CircuitClosed),
        }
    }

    /// Takes the memory of the spare rows for its bytes, if it has none.
    pub fn borrow_from(&mut self, spares: &mut Spares)
        ensures { self.new ≡ self.old }
    {
        match &mut self.state {
            CircuitState::Open(end) => end.link.borrow_from(spares),
            CircuitState::Ended(_, _) => {}
        }
    }

    /// Gives memory without bytes to the spare rows that have none.
    pub fn give_back(&mut self, spares: &mut Spares)
        ensures { self.new ≡ self.old }
    {
        match &mut self.state {
            CircuitState::Open(end) => end.link.give_back(spares),
            CircuitState::Ended(_, _) => {}
        }
    }

    /// The bytes that wait to be sent: none if its end is not open.
    pub fn out_bytes(&self) -> &[u8]
        ensures { result.now ≡ output_of (Some self.now) }
    {
        match &self.state {
            CircuitState::Open(end) => end.link.out_bytes(),
            CircuitState::Ended(_, _) => &[],
        }
    }

    /// One step of its end, which has ended if the step broke. None if it had ended before.
    #[inline(always)]
    pub fn step(
        &mut self,
        port: u16,
        circuit: Handle,
        records: &mut ServedRecords,
    ) -> Option<EndStep>
        requires { CircuitIsSound (records_of records.old) circuit self.old }
        ensures { CircuitSteps port circuit self.old records.old result self.new records.new }
    {
        match &mut self.state {
            CircuitState::Open(end) => {
                let did = end.step(port, circuit, records);
                end.know();
                match did {
                    EndStep::Handled(effect) => Some(EndStep::Handled(effect)),
                    EndStep::NeedBytes => Some(EndStep::NeedBytes),
                    EndStep::OutputFull => Some(EndStep::OutputFull),
                    EndStep::Breaks(cause) => {
                        self.close(circuit, cause, records);
                        Some(EndStep::Breaks(cause))
                    }
                }
            }
            CircuitState::Ended(_, _) => None,
        }
    }

    /// The reply of a put that is finished, if its channel is open. The end has ended if there
    /// is no memory for it.
    pub fn reply(&mut self, put: Put, records: &mut ServedRecords)
        requires { CircuitIsSound (records_of records.old) put.circuit self.old }
        ensures { RepliesAt put self.old records.old self.new records.new }
    {
        match &mut self.state {
            CircuitState::Open(end) => {
                if !end.channels.has(put.channel) {
                    return;
                }
                match end.finish(put) {
                    Ok(()) => {}
                    Err(_) => self.close(put.circuit, EndCause::OutOfMemory, records),
                }
            }
            CircuitState::Ended(_, _) => {}
        }
    }

    /// A post to the record at this place: the subscriptions of its end that it concerns get an
    /// update. The end has ended if there is no memory for one. It says whether the end was open,
    /// with a subscription on the record.
    #[inline(always)]
    pub fn post(
        &mut self,
        circuit: Handle,
        place: usize,
        mask: u16,
        shared: &Option<Arc<SharedUpdate>>,
        records: &mut ServedRecords,
    ) -> bool
        requires copy { IsCopyAt place records.old (option_map arc_value shared.now) }
        requires sound { CircuitIsSound (records_of records.old) circuit self.old }
        ensures posts { PostsAt circuit place mask self.old records.old self.new records.new }
        ensures watches { WatchesAt place self.old records.old result }
    {
        match &mut self.state {
            CircuitState::Open(end) => match end.post(records.at(place).state(), mask, shared) {
                Ok(on) => {
                    end.know();
                    on
                }
                Err(_) => {
                    self.close(circuit, EndCause::OutOfMemory, records);
                    true
                }
            },
            CircuitState::Ended(_, _) => false,
        }
    }

    /// A post to the record at this place and then a pump, if they leave no more than one update in
    /// the output of its end: it is shown at once. If it says false, all is as it was.
    #[inline(always)]
    pub fn show_at_once(
        &mut self,
        circuit: Handle,
        place: usize,
        mask: u16,
        records: &ServedRecords,
    ) -> bool
        requires there { IsThere records.now place }
        requires sound { CircuitIsSound (records_of records.now) circuit self.old }
        ensures shown { result ≡ true → ShowsAt circuit place mask self.old records.now self.new }
        ensures watches { result ≡ true → WatchesAt place self.old records.now true }
        ensures opens { result ≡ true → is_open (Some self.new) ≡ true }
        ensures stays { result ≡ false → self.new ≡ self.old }
    {
        match &mut self.state {
            CircuitState::Open(end) => {
                let shown = end.show_at_once(records.at(place).state(), mask);
                end.know();
                shown
            }
            CircuitState::Ended(_, _) => false,
        }
    }

    /// Updates leave the queues of its end until none may. The end has ended if there is no
    /// memory for the next.
    pub fn pump(&mut self, circuit: Handle, records: &mut ServedRecords)
        requires { CircuitIsSound (records_of records.old) circuit self.old }
        ensures { PumpsAt circuit self.old records.old self.new records.new }
    {
        match &mut self.state {
            CircuitState::Open(end) => match end.pump() {
                Ok(()) => end.know(),
                Err(_) => self.close(circuit, EndCause::OutOfMemory, records),
            },
            CircuitState::Ended(_, _) => {}
        }
    }

    /// Updates leave the queues of its end until none may, and with them all bytes that wait, or
    /// that its end left. The end has ended if there is no memory for the next. Up to this many
    /// bytes are copied.
    pub fn pump_over(
        &mut self,
        circuit: Handle,
        records: &mut ServedRecords,
        copied: usize,
        to: &mut CircuitOutput,
    )
        requires sound { CircuitIsSound (records_of records.old) circuit self.old }
        requires nothing { (to.old.before ≡ []) × (to.old.last ≡ []) }
        ensures { PumpsOverAt circuit self.old records.old self.new records.new (bytes_of to.new) }
    {
        match &mut self.state {
            CircuitState::Open(end) => match end.pump_over(copied, to) {
                Ok(()) => end.know(),
                Err(_) => self.close(circuit, EndCause::OutOfMemory, records),
            },
            CircuitState::Ended(_, left) => to.take(left),
        }
    }

    /// A copy of the value of this record that circuits share, with the update that the first
    /// subscription of its end on it asks for. None if there is none, or no memory.
    pub fn share(&self, of: &Record) -> Option<Arc<SharedUpdate>>
        ensures { IsCopy (stored_of of.now) (option_map arc_value result) }
    {
        match &self.state {
            CircuitState::Open(end) => end.share(of),
            CircuitState::Ended(_, _) => None,
        }
    }

    /// Tells if no update waits on its end and events are on: then a pump does nothing.
    pub fn is_idle(&self) -> bool
        ensures { result ≡ true → (e : ServerEnd) → self.now ≡ server.Open e → Rests e }
    {
        match &self.state {
            CircuitState::Open(end) => end.subscriptions.is_idle(),
            CircuitState::Ended(_, _) => true,
        }
    }

    /// The record of this name was removed: each channel of its end to it gets a
    /// SERVER_DISCONN, loses its subscriptions, and is retired. The end has ended if there is
    /// no memory for a SERVER_DISCONN.
    pub fn lose(&mut self, circuit: Handle, name: &[u8], records: &mut ServedRecords)
        requires { MayLose (records_of records.old) circuit self.old }
        ensures { LosesAt circuit name.now self.old records.old self.new records.new }
    {
        match &mut self.state {
            CircuitState::Open(end) => match end.lose(name) {
                Ok(()) => end.know(),
                Err(_) => self.close(circuit, EndCause::OutOfMemory, records),
            },
            CircuitState::Ended(_, _) => {}
        }
    }

    /// Why its end has ended, and what it left. One that is open is cut.
    pub fn into_left(self) -> (EndCause, Pipe)
        ensures { IsLeft self result.0 result.1 }
    {
        match self.state {
            CircuitState::Open(end) => (EndCause::Cut, end.link.into_left()),
            CircuitState::Ended(cause, left) => (cause, left),
        }
    }

    /// Its end ends for this cause, if it is open: its puts that wait are taken out of the records,
    /// and what waits to be sent is left. It does not allocate.
    pub fn end(&mut self, circuit: Handle, cause: EndCause, records: &mut ServedRecords)
        requires { CircuitIsSound (records_of records.old) circuit self.old }
        ensures { EndsAt circuit self.old records.old (why_is cause) self.new records.new }
    {
        self.close(circuit, cause, records);
    }

    // Its end ends for this cause in the middle of a call, when no more is known of it than where
    // its puts are. It has a function of its own so that the calls do not pay for its locals, in
    // which an end has room.
    #[cold]
    #[inline(never)]
    fn close(&mut self, circuit: Handle, cause: EndCause, records: &mut ServedRecords)
        requires { ArePutsAt circuit (records_of records.old) self.old }
        ensures { EndsAt circuit self.old records.old (why_is cause) self.new records.new }
    {
        match &mut self.state {
            CircuitState::Open(end) => self.state = ended(end, circuit, cause, records),
            CircuitState::Ended(_, _) => {}
        }
    }

    /// The first n of the bytes that wait were handed over.
    pub fn sent(&mut self, n: usize)
        requires { n ≤ length (output_of (Some self.old)) }
        ensures { SendsAt n self.old self.new }
    {
        match &mut self.state {
            CircuitState::Open(end) => end.link.sent(n),
            CircuitState::Ended(_, _) => {}
        }
    }

    /// The place of the queue that has the subscription at this place of its end, if a post to the
    /// record of this name, with this mask, concerns it. Only a recorder of histories needs it.
    pub fn concerned_at(&self, place: usize, name: &[u8], mask: u16) -> Option<usize>
        ensures { ConcernsOn name.now mask place self.now result }
    {
        match &self.state {
            CircuitState::Open(end) => end.subscriptions.concerned_at(place, name, mask),
            CircuitState::Ended(_, _) => None,
        }
    }

    /// How many bytes of payload the update has at most that has this number from the front
    /// of the queue at this place, if its end is open and one waits there. Only a recorder of
    /// histories needs it.
    pub fn update_size(&self, place: usize, index: usize) -> Option<usize>
        ensures { SizesOn self.now place index result }
    {
        match &self.state {
            CircuitState::Open(end) => end.update_size(place, index),
            CircuitState::Ended(_, _) => None,
        }
    }

    /// The bytes that wait to be sent, or that its end left which has ended. Only a recorder
    /// of histories needs it.
    pub fn bytes(&self) -> &[u8]
        ensures { result.now ≡ bytes_on self.now }
    {
        match &self.state {
            CircuitState::Open(_) => self.out_bytes(),
            CircuitState::Ended(_, left) => left.bytes(),
        }
    }

    /// The SID and the CID of each channel to the record of this name at its end, in order of
    /// index: none if that is not open. Refused without memory, only if there is one. Only a
    /// recorder of histories needs it.
    pub fn channels_to(&self, alloc: Global, name: &[u8]) -> Result<Vec<(u32, u32)>, AllocError>
        ensures ok { IfOk result (λ all. all.items ≡ channels_on name.now self.now) }
        ensures some { OnErr result (channels_on name.now self.now ≢ []) }
    {
        match &self.state {
            CircuitState::Open(end) => end.channels_to(name),
            CircuitState::Ended(_, _) => Ok(Vec::new(alloc)),
        }
    }

    /// Whether its end is open.
    pub fn is_open(&self) -> bool
        ensures { result ≡ is_open (Some self.now) }
    {
        match &self.state {
            CircuitState::Open(_) => true,
            CircuitState::Ended(_, _) => false,
        }
    }

    /// The name of the record of the open channel of this SID, if that record was not removed: none
    /// if its end is not open.
    pub fn served_name(&self, sid: Sid) -> Option<&[u8]>
        ensures { NamesAt self.now sid (option_map (λ t. t.now) result) }
    {
        match &self.state {
            CircuitState::Open(end) => end.served_name(sid),
            CircuitState::Ended(_, _) => None,
        }
    }

    /// The user's name that the client gave: empty if it gave none, and none if
    /// its end is not open.
    pub fn user(&self) -> Option<&[u8]>
        ensures { option_map (λ t. t.now) result ≡ option_map (λ p. p.user) (peer_on self.now) }
    {
        match &self.state {
            CircuitState::Open(end) => Some(end.user.as_slice()),
            CircuitState::Ended(_, _) => None,
        }
    }

    /// The host's name that the client gave: empty if it gave none, and none if
    /// its end is not open.
    pub fn host(&self) -> Option<&[u8]>
        ensures { option_map (λ t. t.now) result ≡ option_map (λ p. p.host) (peer_on self.now) }
    {
        match &self.state {
            CircuitState::Open(end) => Some(end.host.as_slice()),
            CircuitState::Ended(_, _) => None,
        }
    }
}

// The state of a circuit whose end ends for this cause: its puts that wait are taken out of the
// records, and what waits to be sent is left.
fn ended(
    end: &mut End,
    circuit: Handle,
    cause: EndCause,
    records: &mut ServedRecords,
) -> CircuitState
    requires { ArePuts circuit (records_of records.old) end.old.channels }
    ensures state { circuit_of result ≡ server.Ended (why_is cause) end.old.link.output }
    ensures records { WithdrawsAll circuit records.old records.new }
{
    let left = end.leave(circuit, records);
    CircuitState::Ended(cause, left)
}
