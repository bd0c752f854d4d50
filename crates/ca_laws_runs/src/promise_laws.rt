//! The promise: `runs_are_safe`, the law for which all others are there. The three before it put
//! the last two parts of it together, `AnswersOwn` and `Legal`.
ghost use Rattle.std.specs.Prelude.{List, Option};
ghost use Rattle.ca_model.specs.Worlds.{IsLegalWorld, Promise};
ghost use Rattle.ca_model.specs.Events.{Event};
ghost use Rattle.ca_model.specs.Runs.{AreEvents, Runs};
ghost use Rattle.ca_model.specs.World.{IsSetting, Setting, World};
ghost use Rattle.ca_laws_runs.specs.Promised.{AllAreAnswered, AnswersAreOwn};

/// After every run from a well-formed setting each message that a server handled, on any circuit,
/// is answered as the statement has it: it got in its step just the replies that were due by what
/// the server knew then, which is what the lists and the log said; the step logged what was due,
/// and besides only withdrawals; and a put that waited or made its record busy got one late reply
/// at most, once it was finished. This is `answered` of the statement's clause `AnswersOwn`.
pub fn each_message_is_answered()
    ensures { (s : Setting) (es : List Event) (stopped : Option Event) (w : World) → IsSetting s
        → Runs s es stopped w → AllAreAnswered w }
{}

/// After every run from a well-formed setting by well-formed events, each message of a client is
/// what was meant, and each of a server has its cause, which was handled before; no creation has
/// two SERVER_DISCONNs; an id is taken for what the cause is about; each handled message is
/// answered; and steps are in order. This is the statement's clause `AnswersOwn`, of each circuit.
pub fn each_answer_is_its_own_requests()
    ensures { (s : Setting) (es : List Event) (stopped : Option Event) (w : World) → IsSetting s
        → AreEvents es → Runs s es stopped w → AnswersAreOwn w }
{}

/// After every such run each end of each circuit sent what it may and what it has to, and each
/// accepted subscription was sent. This is `Legal` of the statement.
pub fn what_is_sent_is_legal()
    ensures { (s : Setting) (es : List Event) (stopped : Option Event) (w : World) → IsSetting s
        → AreEvents es → Runs s es stopped w → IsLegalWorld w }
{}

/// The whole: from a well-formed setting, whatever well-formed events in a row lead to is safe, and
/// legal. Servers act on the records that channels name; each answer is its own request's, once; no
/// write is applied twice; subscribers see their record's posts in order, up to the newest; each
/// end sends what it may; and the posts, additions, removals and finishes in servers' logs come
/// from the events. All events count: cuts, restarts, datagrams, records that come and go, and
/// calls that memory stopped.
pub fn runs_are_safe()
    ensures { Promise }
{}
