//! Which reply is due for each command that a server reads, with examples that are due and others
//! that are not.
ghost use Rattle.ca_model_examples.specs.DueReplies.{AreDue, AreNotDue, RepliesLate, creations_due};
ghost use Rattle.ca_model_examples.specs.DueReplies.{creations_not_due, greetings_due};
ghost use Rattle.ca_model_examples.specs.DueReplies.{greetings_not_due, others_due, others_not_due};
ghost use Rattle.ca_model_examples.specs.DueReplies.{puts_due, puts_not_due, reads_due};
ghost use Rattle.ca_model_examples.specs.DueReplies.{reads_not_due, searches_due, searches_not_due};
ghost use Rattle.ca_model_examples.specs.DueReplies.{subscriptions_due, subscriptions_not_due};
ghost use Rattle.ca_model_examples.specs.DueReplies.{writes_due, writes_not_due};

/// VERSION, CLIENT_NAME, HOST_NAME and ECHO: the first VERSION is answered, and names count until a
/// channel was created.
pub fn greetings_are_due()
    ensures due { AreDue greetings_due }
    ensures not_due { AreNotDue greetings_not_due }
{}

/// SEARCH: a name that is served is answered, and another by NOT_FOUND if the type is 10.
pub fn searches_are_due()
    ensures due { AreDue searches_due }
    ensures not_due { AreNotDue searches_not_due }
{}

/// CREATE_CHAN: a channel gets a SID whose index is free; or CREATE_CH_FAIL.
pub fn creations_are_due()
    ensures due { AreDue creations_due }
    ensures not_due { AreNotDue creations_not_due }
{}

/// READ_NOTIFY: a value, or a status in its own reply.
pub fn reads_are_due()
    ensures due { AreDue reads_due }
    ensures not_due { AreNotDue reads_not_due }
{}

/// WRITE: nothing is answered, or an ERROR.
pub fn writes_are_due()
    ensures due { AreDue writes_due }
    ensures not_due { AreNotDue writes_not_due }
{}

/// WRITE_NOTIFY: done at once, late, or refused in its reply.
pub fn puts_are_due()
    ensures due { AreDue puts_due }
    ensures not_due { AreNotDue puts_not_due }
    ensures late { RepliesLate }
{}

/// EVENT_ADD: a subscription begins without a reply, or an ERROR.
pub fn subscriptions_are_due()
    ensures due { AreDue subscriptions_due }
    ensures not_due { AreNotDue subscriptions_not_due }
{}

/// EVENT_CANCEL, CLEAR_CHANNEL, EVENTS_OFF and EVENTS_ON; and any other command is skipped.
pub fn others_are_due()
    ensures due { AreDue others_due }
    ensures not_due { AreNotDue others_not_due }
{}
