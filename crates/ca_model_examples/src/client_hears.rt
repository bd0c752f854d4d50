//! Worked messages that a client reads, above all those that do not fit or that fail: what it does,
//! and what it skips.
ghost use Rattle.ca_model_examples.specs.ClientHears.{ClearedWhileWaiting, ConfirmedThere};
ghost use Rattle.ca_model_examples.specs.ClientHears.{CreationFails, Errors, Found, LastFaults};
ghost use Rattle.ca_model_examples.specs.ClientHears.{NoneFree, OutOfTurn, PauseIsSent};
ghost use Rattle.ca_model_examples.specs.ClientHears.{RepliesByCommand, Skipped, SubscribedAgain};
ghost use Rattle.ca_model_examples.specs.ClientHears.{Unsubscribes};

/// A creation that failed is searched again at once, unless it was cleared.
pub fn a_creation_fails()
    ensures { CreationFails }
{}

/// A message that does not fit its channel does nothing.
pub fn messages_out_of_turn_are_skipped()
    ensures { OutOfTurn }
{}

/// A channel is found at the address in the reply, or where that came from.
pub fn a_channel_is_found()
    ensures { Found }
{}

/// If no circuit can be had a search reply is skipped.
pub fn no_circuit_is_free()
    ensures { NoneFree }
{}

/// A channel that waited for its circuit is gone at once, and so is the circuit.
pub fn a_waiting_channel_is_cleared()
    ensures { ClearedWhileWaiting }
{}

/// A reply of another command, circuit or IOID is about no request.
pub fn a_reply_fits_its_request()
    ensures { RepliesByCommand }
{}

/// A confirmation on another circuit is about no cancel.
pub fn a_confirmation_fits_its_circuit()
    ensures { ConfirmedThere }
{}

/// NOT_FOUND and ECHO are skipped.
pub fn other_commands_are_skipped()
    ensures { Skipped }
{}

/// An ERROR is told of what its header names.
pub fn errors_are_told()
    ensures { Errors }
{}

/// The subscriptions that stand go out when their channel is live again.
pub fn subscriptions_go_out_again()
    ensures { SubscribedAgain }
{}

/// What becomes of the id of a subscription, in each state of its channel.
pub fn a_subscription_is_ended()
    ensures { Unsubscribes }
{}

/// Too much that waits is refused before a full table.
pub fn the_last_faults()
    ensures { LastFaults }
{}

/// The tenth read that left bytes sends EVENTS_OFF, the end of the pause EVENTS_ON.
pub fn a_pause_is_asked_for()
    ensures { PauseIsSent }
{}
