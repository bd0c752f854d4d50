//! Worked events at a client: each call of its callers, bytes that move, a datagram, a cut, a
//! restart and a tick, with what each leaves in its log.
ghost use Rattle.ca_model_examples.specs.ClientCallEvents.{ClearLeaves, Collects, GivesUp};
ghost use Rattle.ca_model_examples.specs.ClientCallEvents.{OpenLeaves, PutLeaves, ReadLeaves};
ghost use Rattle.ca_model_examples.specs.ClientCallEvents.{SubscribeLeaves, UnsubscribeLeaves};
ghost use Rattle.ca_model_examples.specs.ClientCallEvents.{WriteLeaves};
ghost use Rattle.ca_model_examples.specs.ClientEndEvents.{AboutPlace, AcceptMakes, CutEnds};
ghost use Rattle.ca_model_examples.specs.ClientEndEvents.{DatagramFinds, DownMoves, NoticeLines};
ghost use Rattle.ca_model_examples.specs.ClientEndEvents.{RestartForgets, StepHears, TickEnds};
ghost use Rattle.ca_model_examples.specs.ClientEndEvents.{TickStops, UpMoves};

/// A channel is opened under the next number; a priority or a name that is none is refused.
pub fn a_call_opens()
    ensures { OpenLeaves }
{}

/// A read has the next number of the requests, in its line and in the intent of its message.
pub fn a_call_reads()
    ensures { ReadLeaves }
{}

/// A plain write has the next number of the writes.
pub fn a_call_writes()
    ensures { WriteLeaves }
{}

/// A put with notification is numbered with the reads.
pub fn a_call_puts()
    ensures { PutLeaves }
{}

/// A subscription has the next number of the subscriptions.
pub fn a_call_subscribes()
    ensures { SubscribeLeaves }
{}

/// A subscription is cancelled by its number.
pub fn a_call_unsubscribes()
    ensures { UnsubscribeLeaves }
{}

/// A channel is cleared: the call is logged, and then the request that it disconnects.
pub fn a_call_clears()
    ensures { ClearLeaves }
{}

/// What became of a request is collected once, and not before it is there.
pub fn an_outcome_is_collected()
    ensures { Collects }
{}

/// A request that is given up hands out nothing later.
pub fn a_request_is_given_up()
    ensures { GivesUp }
{}

/// The first bytes that wait reach the server, also those of an end that has ended; no more than
/// wait.
pub fn bytes_go_up()
    ensures { UpMoves }
{}

/// Bytes reach the client, which counts the reads that left some; none come to a closed end.
pub fn bytes_come_down()
    ensures { DownMoves }
{}

/// A cut disconnects the read, and then loses the channel; what waited is left.
pub fn a_cut_is_told()
    ensures { CutEnds }
{}

/// A client begins again in a life of its own, and tells nothing of the old one.
pub fn a_restart_forgets()
    ensures { RestartForgets }
{}

/// The circuit that is wanted is made; a full server refuses it.
pub fn a_circuit_is_accepted()
    ensures { AcceptMakes }
{}

/// Each notice is a line about what its handle names.
pub fn notices_are_lines()
    ensures { NoticeLines }
{}

/// A message is about the one at its place.
pub fn an_answer_is_about_its_place()
    ensures { AboutPlace }
{}

/// A reply is read in a step of its own, and its notice told; a closed end takes no step.
pub fn a_step_hears()
    ensures { StepHears }
{}

/// A moment comes to each client in turn, and ends a silence that was too long. If memory lacks at
/// a client, those before it
/// had the moment.
pub fn a_tick_ends_a_silence()
    ensures ends { TickEnds }
    ensures stops { TickStops }
{}

/// A search reply makes the circuit wanted that it names.
pub fn a_datagram_comes()
    ensures { DatagramFinds }
{}
