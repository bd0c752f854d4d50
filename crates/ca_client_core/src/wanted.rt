//! The circuits that a client wants to be connected.
ghost use Rattle.std.specs.Prelude.{◌≡◌, length, slice_get};
ghost use Rattle.ca_client_core.specs.Wanted.{Passes, wanted_in_place};
ghost use Rattle.ca_model.specs.ClientCalls.{wanted};

use crate::client::ClientCore;
use ca_client_tables::WantedCircuit;

impl ClientCore {
    /// The circuit at this place of those that are wanted and not connected: those of name servers
    /// first, and then in the order in which they came to be wanted. It goes over all circuits.
    pub fn wanted(&self, place: usize) -> Option<WantedCircuit>
        ensures { result ≡ slice_get (wanted self.now) place }
    {
        let mut left = place;
        for index in 0..self.circuits_listed() {
            match self.pass_over(index, left) {
                Ok(found) => return Some(found),
                Err(rest) => left = rest,
            }
        }
        None
    }

    /// How many circuits are wanted or connected.
    pub fn circuits_listed(&self) -> usize
        ensures { result ≡ length self.now.order }
    {
        self.order.len()
    }

    /// The circuit at this place of their order, if it is wanted and not connected.
    pub fn wanted_at(&self, place: usize) -> Option<WantedCircuit>
        ensures { result ≡ wanted_in_place self.now place }
    {
        let Some(circuit) = self.order.get(place) else {
            return None;
        };
        match self.circuits.by_handle(*circuit) {
            Some(found) if found.connection.is_none() => Some(WantedCircuit {
                circuit: *circuit,
                address: found.address,
                priority: found.priority,
            }),
            _ => None,
        }
    }

    // The circuit at this place of their order, if it is wanted and no more are to be passed over;
    // else how many are, after it.
    fn pass_over(&self, place: usize, left: usize) -> Result<WantedCircuit, usize>
        ensures { Passes (wanted_in_place self.now place) left result }
    {
        let Some(found) = self.wanted_at(place) else {
            return Err(left);
        };
        if left == 0 {
            return Ok(found);
        }
        Err(left - 1)
    }
}
