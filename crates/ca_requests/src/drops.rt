//! What ends many requests at once. No memory is asked for: to free ids it goes over the table.
ghost use Rattle.std.specs.Prelude.{◌≡◌, ◌<◌, length};
ghost use Rattle.ca_ids.specs.Table.{with_all_freed, with_changed};
ghost use Rattle.ca_ids.specs.Walks.{with_place};
ghost use Rattle.ca_requests.specs.Layout.{drained, each_drained, named, place_freed};

use crate::asked::RequestStage;
use crate::request::Request;
use ca_arena::Handle;
use ca_ids::HeldTable;

/// Which requests are meant: those on a channel, or those that were sent on a circuit.
#[derive(Clone, Copy, Debug, PartialEq, Eq)]
pub(crate) enum RequestsMeant {
    OnChannel(Handle),
    OnCircuit(Handle),
}

impl RequestsMeant {
    /// Whether this request is meant.
    pub(crate) fn names(self, request: &Request) -> bool
        ensures { result ≡ named self request.now }
    {
        match self {
            RequestsMeant::OnChannel(channel) => request.is_on(channel),
            RequestsMeant::OnCircuit(circuit) => request.was_sent_on(circuit),
        }
    }
}

/// The IOIDs of the requests that are meant are free.
pub(crate) fn free_all(table: &mut HeldTable<Request>, which: RequestsMeant)
    ensures { table.new ≡ with_all_freed (named which) table.old }
{
    let places = table.places();
    for index in 0..places {
        free_at(table, index, which);
    }
}

fn free_at(table: &mut HeldTable<Request>, index: usize, which: RequestsMeant)
    requires { index < length table.old }
    ensures { table.new ≡ with_place index (place_freed which) table.old }
{
    let Some((handle, request)) = table.at(index) else {
        return;
    };
    if !which.names(request) {
        return;
    }
    let _ = table.free(handle);
}

/// These requests are over, and their IOIDs drain.
pub(crate) fn end_each(table: &mut HeldTable<Request>, requests: &[Handle])
    ensures { table.new ≡ each_drained requests.now table.old }
{
    for index in 0..requests.len() {
        end_one(table, requests[index]);
    }
}

fn end_one(table: &mut HeldTable<Request>, handle: Handle)
    ensures { table.new ≡ with_changed drained handle table.old }
{
    if let Some(request) = table.by_handle_mut(handle) {
        request.stage = RequestStage::Draining;
    }
}
