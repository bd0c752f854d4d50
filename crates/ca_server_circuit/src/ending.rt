//! An open end is left: its puts that wait are dropped.
ghost use Rattle.std.specs.Prelude.{◌≡◌, ◌+◌, ◌<◌, ◌≤◌, length};
ghost use Rattle.ca_text.specs.Limits.{arena_slots};
ghost use Rattle.ca_records.specs.Store.{records_of};
ghost use Rattle.ca_server_circuit.specs.Clearing.{ArePuts};
ghost use Rattle.ca_server_circuit.specs.Ending.{Walks, WithdrawsAll};
ghost use Rattle.ca_server_circuit.specs.Subscribing.{events_of};
ghost use Rattle.ca_server_subscriptions.specs.Subscribed.{HasRoom};

use crate::end::End;
use ca_arena::Handle;
use ca_link::Link;
use ca_records::ServedRecords;
use ca_wire::Pipe;

impl End {
    /// The end is to be closed: the puts of its circuit that wait are taken out of the records, and
    /// what waits to be sent is left. It does not allocate.
    pub(crate) fn leave(&mut self, circuit: Handle, records: &mut ServedRecords) -> Pipe
        requires { ArePuts circuit (records_of records.old) self.old.channels }
        ensures left { result ≡ self.old.link.output }
        ensures records { WithdrawsAll circuit records.old records.new }
    {
        self.withdraw_all(circuit, records);
        let ended = std::mem::replace(&mut self.link, Link::new(self.alloc, 0));
        ended.into_left()
    }

    /// A queue has room unless there are as many subscriptions as there may be, and there are
    /// not too many channels.
    pub(crate) fn know(&self)
        ensures room { HasRoom (events_of self.now) }
        ensures few { length self.now.channels ≤ arena_slots }
    {
        self.subscriptions.know();
        self.channels.know();
    }

    /// Takes the puts of this circuit that wait out of the records, channel by channel.
    fn withdraw_all(&self, circuit: Handle, records: &mut ServedRecords)
        requires { ArePuts circuit (records_of records.old) self.now.channels }
        ensures { WithdrawsAll circuit records.old records.new }
    {
        for index in 0..self.channels.places() {
            self.withdraw_on(index, circuit, records);
        }
    }

    /// Takes the puts of this circuit that wait for the record of the channel of this
    /// index out of that record.
    fn withdraw_on(&self, index: usize, circuit: Handle, records: &mut ServedRecords)
        requires { index < length self.now.channels }
        ensures { Walks index (index + 1) circuit self.now.channels records.old records.new }
    {
        let Some((_, channel)) = self.channels.at(index) else {
            return;
        };
        if channel.is_retired() {
            return;
        }
        let Some(place) = records.find_near(channel.place(), channel.name()) else {
            return;
        };
        records.withdraw(place, circuit, None);
    }
}
