//! Worked calls of a server's core: circuits that it accepts, messages that it takes, the order in
//! which updates leave, beacons and search replies.
ghost use Rattle.ca_model_examples.specs.ServerAnswers.{AcceptsFirst, AcceptsNotSo, AddsNotSo};
ghost use Rattle.ca_model_examples.specs.ServerAnswers.{AddsToFirst, AnnouncesItself};
ghost use Rattle.ca_model_examples.specs.ServerAnswers.{AnswersSearches, AnswersVersions};
ghost use Rattle.ca_model_examples.specs.ServerAnswers.{ClearsItsOwn, ClosesOnBadHeader};
ghost use Rattle.ca_model_examples.specs.ServerAnswers.{EndsNoOther, FinishKeepsOpen};
ghost use Rattle.ca_model_examples.specs.ServerAnswers.{FinishesNotSo, FinishesUnawaited};
ghost use Rattle.ca_model_examples.specs.ServerAnswers.{GivesBytes, IsFullAt, LeavesNotSo};
ghost use Rattle.ca_model_examples.specs.ServerAnswers.{NeedsBytes, PacksReplies, PumpsOn};
ghost use Rattle.ca_model_examples.specs.ServerAnswers.{ReportsOnce, SendsBytes};

/// Circuits are accepted under a free index, and bytes move while their ends are open.
pub fn circuits_come_and_get_bytes()
    ensures accepts { AcceptsFirst }
    ensures accepts_not_so { AcceptsNotSo }
    ensures gives { GivesBytes }
    ensures sends { SendsBytes }
{}

/// A step takes no message while the output is full or none has come whole, and closes the end on a
/// bad header.
pub fn a_step_answers_why_it_takes_none()
    ensures is_full { IsFullAt }
    ensures needs_bytes { NeedsBytes }
    ensures closes { ClosesOnBadHeader }
    ensures reports_once { ReportsOnce }
{}

/// A cleared channel takes its own puts with it, and a subscription goes to the first queue with
/// room.
pub fn messages_act_on_their_own()
    ensures clears { ClearsItsOwn }
    ensures adds { AddsToFirst }
    ensures ends_no_other { EndsNoOther }
{}

/// Updates leave the first queue first, while there is room and events are on.
pub fn updates_leave_in_order()
    ensures not_so { LeavesNotSo }
    ensures pumps_on { PumpsOn }
{}

/// Beacons, and datagrams of search replies.
pub fn a_server_is_found()
    ensures beacons { AnnouncesItself }
    ensures answers { AnswersSearches }
    ensures packs { PacksReplies }
{}

/// The finish of a put whose channel was cleared is not answered, and a circuit whose put was
/// answered ends for nothing but an update.
pub fn a_finish_is_answered_if_awaited()
    ensures unawaited { FinishesUnawaited }
    ensures not_so { FinishesNotSo }
    ensures keeps_open { FinishKeepsOpen }
{}

/// The engine of a circuit writes the reply to a message, and nothing if none is due.
pub fn an_engine_answers()
    ensures { AnswersVersions }
{}

/// A record has a name of 60 bytes at most, that is not served, and a value that fits.
pub fn records_are_added_if_they_fit()
    ensures { AddsNotSo }
{}
