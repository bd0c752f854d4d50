//! What a client makes of a datagram.
ghost use Rattle.std.specs.Prelude.{List};
ghost use Rattle.ca_model.specs.Answers as answer;
ghost use Rattle.ca_model.specs.ClientEnds.{ClientReceives};
ghost use Rattle.ca_client_core.specs.ForDatagrams.{NotesDatagram};

use crate::client::ClientCore;
use crate::for_datagrams::push_creations;
use crate::for_histories::Sending;
use ca_client_tables::{Address, Noted, receive_all, settle};
use ca_dgram::Datagram;
use ca_text::Refusal;
use std::alloc::AllocError;

impl ClientCore {
    /// Takes a datagram that came from this address: search replies and beacons, one after another,
    /// as far as it is good.
    ///
    /// Refused as OutOfMemory, only if there is a message in it.
    pub fn datagram(&mut self, now: u64, from: Address, bytes: &[u8]) -> Result<(), Refusal>
        ensures { (sent : List answer.Sending)
            × ClientReceives
            self.old
            (record { now = now; from = from; bytes = bytes.now })
            result
            sent
            self.new }
    {
        match self.receive(now, from, bytes) {
            Ok(_sent) => Ok(()),
            Err(_) => Err(Refusal::OutOfMemory),
        }
    }

    // Takes a datagram: what that sends.
    pub(crate) fn receive(
        &mut self,
        now: u64,
        from: Address,
        bytes: &[u8],
    ) -> Result<Vec<Sending>, AllocError>
        ensures { NotesDatagram
            self.old
            (record { now = now; from = from; bytes = bytes.now })
            result
            self.new }
    {
        let Ok(datagram) = Datagram::read(self.alloc, bytes) else {
            return Err(AllocError);
        };
        let messages = datagram.messages();
        let mut sent = Vec::new(self.alloc);
        sent.reserve(messages.len())?;
        let moment = self.moment.max(now);
        match receive_all(
            self.alloc,
            &mut self.channels,
            &mut self.circuits,
            &mut self.order,
            &mut self.beacons,
            from,
            messages,
        ) {
            Ok(noted) => {
                self.moment = moment;
                let Noted {
                    done,
                    sent: creations,
                } = noted;
                settle(&mut self.searches, moment, &done);
                push_creations(&mut sent, creations);
                Ok(sent)
            }
            Err(_) => Err(AllocError),
        }
    }
}
