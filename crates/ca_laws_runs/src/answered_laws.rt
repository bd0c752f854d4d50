//! The replies that a server sends in the step that handles a message, and what that step logs.
//! Replies to puts that finish later are in `late_laws.rt`.
ghost use Rattle.std.specs.Prelude.{List, Option};
ghost use Rattle.ca_model.specs.Events.{Event};
ghost use Rattle.ca_model.specs.Runs.{Runs};
ghost use Rattle.ca_model.specs.World.{IsSetting, Setting, World};
ghost use Rattle.ca_laws_runs.specs.AnswerDue.{AreAnsweredDue};
ghost use Rattle.ca_laws_runs.specs.FollowsAnswering.{AreAnswered};

/// After every run from a well-formed setting each message that a server handled, on any circuit,
/// got in its step the replies that were due, each once and in order, before any later message was
/// handled. They were due by what the server knew then, and that is what the lists and the log said
/// of its records, its peer, its open channels and its subscriptions, and of whether it was full.
/// Its step logged the write that was due, if there was one, or the withdrawals of the puts that
/// waited on the channel that it cleared, and besides only withdrawals. Any other reply about it is
/// to a put, says that it was done, and came once it was finished, before its channel was cleared.
/// This is the most of `answered` of the statement's clause `AnswersOwn`.
pub fn messages_are_answered()
    ensures { (s : Setting) (es : List Event) (stopped : Option Event) (w : World) → IsSetting s
        → Runs s es stopped w → AreAnswered w }
{}

/// And all of that was due by the statement's own words (`IsDue`): the replies, the one that comes
/// late if there is one, and what the step logged, by what the server knew then. Its port and its
/// rules are those that the server of that life was given; its records, its peer, its open
/// channels, whether it was full, and its subscriptions are as the lists of the circuit and the
/// log of its life say, as far as they went before that step. A CLEAR_CHANNEL withdraws just the
/// puts that wait on its channel, each once. This holds of each message that was handled, also at
/// ends that have ended.
pub fn messages_are_answered_as_is_due()
    ensures { (s : Setting) (es : List Event) (stopped : Option Event) (w : World) → IsSetting s
        → Runs s es stopped w → AreAnsweredDue w }
{}
