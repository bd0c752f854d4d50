//! A circuit is cut, or ended by its caller, and what is left of it.
ghost use Rattle.std.specs.Prelude.{List, ◌≡◌, None};
ghost use Rattle.ca_model.specs.Answers.{Sending};
ghost use Rattle.ca_model.specs.ClientEnds.{ClientCloses, ClientCuts};
ghost use Rattle.ca_model.specs.Client.{closing, ended};
ghost use Rattle.ca_client_tables.specs.Closings.{why_is};

use crate::client::ClientCore;
use crate::closing::Closing;
use crate::notices::Notices;
use ca_arena::Handle;
use ca_client_tables::{Why, end_channels, let_go, list_live, take_live};
use ca_wire::Pipe;

impl ClientCore {
    /// A circuit was cut: the client's end of it has ended. It does not allocate.
    pub fn cut(&mut self, circuit: Handle) -> Closing
        ensures { (sent : List Sending)
            × ClientCuts self.old circuit result sent self.new }
    {
        self.end(circuit, Why::Cut)
    }

    /// Ends the client's end of a circuit, as its caller asks. It does not allocate.
    pub fn close(&mut self, circuit: Handle) -> Closing
        ensures { (sent : List Sending)
            × ClientCloses self.old circuit result sent self.new }
    {
        self.end(circuit, Why::Asked)
    }

    // The end of this circuit has ended for this cause: its notices, and the bytes that waited.
    // It does not allocate.
    pub(crate) fn end(&mut self, circuit: Handle, why: Why) -> Closing
        ensures told { result ≡ closing (why_is why) circuit self.old }
        ensures ended { self.new ≡ ended circuit self.old }
    {
        let Some(found) = self.circuits.by_handle(circuit) else {
            return Closing {
                why,
                notices: Notices::none(self.alloc),
                left: Pipe::new(self.alloc),
            };
        };
        let is_name = found.is_name;
        let mut lost = take_live(self.alloc, &mut self.lives, circuit);
        list_live(&self.channels, circuit, &mut lost);
        let told = self.requests.end_circuit(circuit);
        self.monitors.free_circuit(circuit);
        end_channels(&mut self.channels, &mut self.searches, circuit, self.moment);
        let left = let_go(
            self.alloc,
            &mut self.circuits,
            &mut self.order,
            circuit,
            is_name,
        );
        Closing {
            why,
            notices: Notices::of(told, lost, None),
            left,
        }
    }
}
