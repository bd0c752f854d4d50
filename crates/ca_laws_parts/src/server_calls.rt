//! What a server's core sends is legal whatever its peers send: SIDs, updates, confirmations and
//! SERVER_DISCONNs. The client's side is in `client_calls.rt`.
ghost use Rattle.ca_arena.specs.declared.handle.Handle.{Handle};
ghost use Rattle.ca_model.specs.Server.{Server};
ghost use Rattle.ca_model.specs.ServerSteps.{Stepped, Steps};
ghost use Rattle.ca_laws_parts.specs.ServerRows.{Did, ServersSendLegally, StepDoes};

/// Over any row of calls of one server's core, with whatever its peers send: what it sends on each
/// circuit is legal, said by ids alone. A SID is given only if no open channel has its index; an
/// update is for an EVENT_ADD that was read on a channel that is open, whose record is there, and
/// that was not cancelled; a confirmation answers the EVENT_CANCEL that was read just before; and a
/// SERVER_DISCONN is for an open channel, once.
pub fn what_a_server_sends_is_legal()
    ensures { ServersSendLegally }
{}

/// A step in a row of calls is a step as the statement defines it, of which it is said what it read
/// and sent; and each step is one.
pub fn a_servers_steps_are_those_of_rows()
    ensures every { (old : Server) (h : Handle) (answer : Stepped) (new : Server)
        → Steps old h answer new → (d : Did) × StepDoes old h answer d new }
    ensures only { (old : Server) (h : Handle) (answer : Stepped) (d : Did) (new : Server)
        → StepDoes old h answer d new → Steps old h answer new }
{}
