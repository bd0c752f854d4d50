//! Worked events at a server: a write, a post, a finished put, a removed or added record, a cut and
//! a restart, with what each leaves.
ghost use Rattle.ca_model_examples.specs.ServerHappens.{AddHappens, AddsRefused, CannotBe};
ghost use Rattle.ca_model_examples.specs.ServerHappens.{CutHappens, DatagramHappens, FinishHappens};
ghost use Rattle.ca_model_examples.specs.ServerHappens.{FinishesRefused, LackHappens, LacksNotSo};
ghost use Rattle.ca_model_examples.specs.ServerHappens.{PostHappens, PostsRefused, PumpHappens};
ghost use Rattle.ca_model_examples.specs.ServerHappens.{RemoveHappens, RestartHappens, UpHappens};
ghost use Rattle.ca_model_examples.specs.ServerHappens.{WriteHappens};

/// A write is applied and reaches two subscriptions on two circuits; their updates leave in the
/// order of the entries.
pub fn a_write_reaches_its_subscriptions()
    ensures step { WriteHappens }
    ensures pump { PumpHappens }
{}

/// A circuit is cut, and a server begins again: puts that wait are withdrawn, and what waited to be
/// sent may still come. A write is applied of an end that closes out of memory only if that lacked
/// memory for its own update.
pub fn ends_leave_what_waited()
    ensures cut { CutHappens }
    ensures restart { RestartHappens }
    ensures lacks_memory { LackHappens }
    ensures lacks_not_so { LacksNotSo }
{}

/// A post reaches the subscriptions that share a mask bit with it.
pub fn a_post_reaches_its_subscriptions()
    ensures posted { PostHappens }
    ensures refused { PostsRefused }
{}

/// The finish of a put is answered, and the next put is applied.
pub fn a_finish_applies_the_next_put()
    ensures finished { FinishHappens }
    ensures refused { FinishesRefused }
{}

/// A record is removed, with all that depends on it; and one is added.
pub fn records_come_and_go()
    ensures removed { RemoveHappens }
    ensures added { AddHappens }
    ensures refused { AddsRefused }
{}

/// Bytes of an end that has ended still come, and a datagram leaves a server as it was.
pub fn bytes_come()
    ensures up { UpHappens }
    ensures datagram { DatagramHappens }
{}

/// What is not there, or not open, cannot be done.
pub fn what_is_not_there_cannot_be()
    ensures { CannotBe }
{}
