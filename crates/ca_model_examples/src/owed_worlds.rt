//! Unsafe histories in which a reply or a log entry is missing, early, wrong or about another
//! record, or a caller gets a result that no message gave.
ghost use Rattle.std.specs.Prelude.{false};
ghost use Rattle.ca_model.specs.History.{Applied, Waits};
ghost use Rattle.ca_model.specs.Known.{IsSafe};
ghost use Rattle.ca_model_examples.specs.Worlds.{Unsafe, alarmed, ports, rules};
ghost use Rattle.ca_model_examples.specs.Owed.{logs_put, UnsafeAsDue, UnsafeBesides, UnsafeSlow};
ghost use Rattle.ca_model_examples.specs.Owed.{UnsafeUnlogged, UnsafeUnsent, answered_by_value};
ghost use Rattle.ca_model_examples.specs.Owed.{answered_cleared, answered_otherwise};
ghost use Rattle.ca_model_examples.specs.Owed.{answered_unfinished, answered_withdrawn};
ghost use Rattle.ca_model_examples.specs.Owed.{foreign_refusal, lost_for_nothing, refused_creation};
ghost use Rattle.ca_model_examples.specs.Owed.{unanswered_put};

/// The reply that is due for a message is sent and its entry logged, and its step logs no other.
pub fn what_is_not_as_due_is_unsafe()
    ensures unsent { UnsafeUnsent }
    ensures unlogged { UnsafeUnlogged }
    ensures besides { UnsafeBesides }
{}

/// A put on a slow record is not answered as is due if its reply comes before it is finished, after
/// it was withdrawn, after its channel was cleared, or with another status; nor if it does not come
/// once it is finished.
pub fn an_early_or_lost_late_reply_is_unsafe()
    ensures unfinished { UnsafeSlow answered_unfinished }
    ensures withdrawn { UnsafeSlow answered_withdrawn }
    ensures cleared { UnsafeSlow answered_cleared }
    ensures otherwise { UnsafeSlow answered_otherwise }
    ensures lost { UnsafeSlow unanswered_put }
{}

/// A notice is wrong if the message that says it is about something else; and so is a Disconnected
/// for a read whose circuit and channel are there.
pub fn an_unsaid_notice_is_unsafe()
    ensures of_another { Unsafe foreign_refusal }
    ensures not_lost { Unsafe lost_for_nothing }
{}

/// No server refuses a CREATE_CHAN while a record has its name, its CID is free, and SIDs may be
/// given.
pub fn a_creation_refused_for_nothing_is_unsafe()
    ensures { UnsafeAsDue refused_creation }
{}

/// No write is logged with an alarm in its own step, at once or to wait.
pub fn a_write_with_an_alarm_is_unsafe()
    ensures made { UnsafeAsDue (logs_put (Applied 0 1 0 alarmed false)) }
    ensures waits { UnsafeAsDue (logs_put (Waits 0 1 0 alarmed)) }
{}

/// A read on a channel to TEMP, which is 21, is not answered by the value of SETP, which is 5.
pub fn a_read_is_of_the_record_that_was_asked_for()
    ensures own { IsSafe ports rules (answered_by_value 21) }
    ensures of_another { UnsafeAsDue (answered_by_value 5) }
{}
