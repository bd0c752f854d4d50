//! A client accepts each call once, sends it in one message on one circuit, and reports its result
//! at most once: the first clauses of `CompletesOnce`. These laws need no well-formed setting.
ghost use Rattle.std.specs.Prelude.{List, Option};
ghost use Rattle.ca_model.specs.Channels.{OfClients};
ghost use Rattle.ca_model.specs.Events.{Event};
ghost use Rattle.ca_model.specs.Runs.{Runs};
ghost use Rattle.ca_model.specs.World.{Setting, World, told};
ghost use Rattle.ca_laws_runs.specs.Once.{CallsOnce, SendsCalled, StandsOnce, TellsOnce};
ghost use Rattle.ca_laws_runs.specs.Once.{WritesTellFailed};

/// In every world to which a run leads, whatever its setting and events, no call of a client is
/// twice in a log: requests, plain writes and subscriptions have numbers of their own, and what was
/// cleared or cancelled once is not cleared or cancelled again. This is `one_call` of the
/// statement's clause `CompletesOnce`.
pub fn a_call_is_accepted_once()
    ensures { (s : Setting) (es : List Event) (stopped : Option Event) (w : World)
        → Runs s es stopped w → OfClients (told w) (CallsOnce (told w)) }
{}

/// In every such world a request or a plain write of a client is at one place of one circuit:
/// no other message of that life of the client, on any circuit, was meant so. This is
/// `at_one` of the clause.
pub fn a_request_is_at_one_place()
    ensures { (s : Setting) (es : List Event) (stopped : Option Event) (w : World)
        → Runs s es stopped w → OfClients (told w) (StandsOnce (told w)) }
{}

/// In every such world each request and each plain write that a client called was sent: a message
/// that was meant so is on a circuit of that life of the client. This is `sent` of the clause.
pub fn what_was_called_was_sent()
    ensures { (s : Setting) (es : List Event) (stopped : Option Event) (w : World)
        → Runs s es stopped w → OfClients (told w) (SendsCalled (told w)) }
{}

/// In every such world a client reports each read, each put with notification and each subscription
/// once at most. This is `once` of the clause, without plain writes: of these the client keeps
/// nothing, so that one refusal at most is told is its server's to show.
pub fn what_is_awaited_is_told_once()
    ensures { (s : Setting) (es : List Event) (stopped : Option Event) (w : World)
        → Runs s es stopped w → OfClients (told w) (TellsOnce (told w)) }
{}

/// In every such world what a client tells of a plain write is that it failed: no request that it
/// keeps is a plain write, so that only a refusal tells of one.
pub fn plain_writes_are_told_of_as_failed()
    ensures { (s : Setting) (es : List Event) (stopped : Option Event) (w : World)
        → Runs s es stopped w → OfClients (told w) (WritesTellFailed (told w)) }
{}
