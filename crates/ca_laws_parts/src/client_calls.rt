//! What a client's core sends is legal whatever its peers send, and which call sends which message.
//! The server's side is in `server_calls.rt`.
ghost use Rattle.std.specs.Prelude.{List, Option};
ghost use Rattle.ca_arena.specs.declared.handle.Handle.{Handle};
ghost use Rattle.ca_wire.specs.Fields.{Fields};
ghost use Rattle.ca_model.specs.Answers.{Sending, Stepped};
ghost use Rattle.ca_model.specs.Client.{Client};
ghost use Rattle.ca_model.specs.ClientEnds.{ClientSteps};
ghost use Rattle.ca_laws_parts.specs.ClientRows.{ClientsSendLegally, Reads};
ghost use Rattle.ca_laws_parts.specs.ClientSends.{AddsAreSent, RequestsAreSentOnce};

/// Over any row of calls of one client's core, with whatever its peers send: what it sends on each
/// circuit is legal, said by ids alone. Messages on a channel go out under the SID that the reply
/// to its CREATE_CHAN gave, none after its CLEAR_CHANNEL, and after a SERVER_DISCONN nothing else;
/// an EVENT_CANCEL is for an EVENT_ADD that was not cancelled; and an id is given only once each id
/// of its kind and index was freed by a message that was read.
pub fn what_a_client_sends_is_legal()
    ensures { ClientsSendLegally }
{}

/// A step in a row of calls is a step as the statement defines it, of which it is said which
/// message it read; and each step is one.
pub fn a_clients_steps_are_those_of_rows()
    ensures every { (old : Client) (c : Handle) (answer : Stepped) (sent : List Sending)
        (new : Client) → ClientSteps old c answer sent new
        → (read : Option Fields) × Reads old c read answer sent new }
    ensures only { (old : Client) (c : Handle) (read : Option Fields) (answer : Stepped)
        (sent : List Sending) (new : Client) → Reads old c read answer sent new
        → ClientSteps old c answer sent new }
{}

/// A read, a put with notification and a plain write go out in their own call, once, and in no
/// other. An EVENT_ADD goes out in its own call, or as its channel comes to be live, also on
/// another circuit: then for each subscription that is on that channel, and for no other, under its
/// own id and the new SID.
pub fn which_call_sends_what()
    ensures requests { RequestsAreSentOnce }
    ensures subscriptions { AddsAreSent }
{}
