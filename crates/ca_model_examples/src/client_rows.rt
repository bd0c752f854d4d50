//! Worked sequences of a client's calls and messages, from the search for a name to a live channel,
//! a loss and a new search, with the ids and bytes that they give.
ghost use Rattle.ca_model_examples.specs.ClientRows.{BeaconBoosts, ClearedAfterLive};
ghost use Rattle.ca_model_examples.specs.ClientRows.{ClearedBeforeLive, ConfirmationFrees};
ghost use Rattle.ca_model_examples.specs.ClientRows.{CutLoses, DisconnectLeaves, EchoThenClose};
ghost use Rattle.ca_model_examples.specs.ClientRows.{FoundAgain, FullDatagrams, Greets};
ghost use Rattle.ca_model_examples.specs.ClientRows.{IdsOfSubscriptions, InOrderOfIssue};
ghost use Rattle.ca_model_examples.specs.ClientRows.{LateReplyFrees, LeftIsSearchedAgain};
ghost use Rattle.ca_model_examples.specs.ClientRows.{LiveAndRead, NameIsWanted, NoPauseAtNine};
ghost use Rattle.ca_model_examples.specs.ClientRows.{OneSearch, OnlyLive, OnlySkipped, PauseAtTen};
ghost use Rattle.ca_model_examples.specs.ClientRows.{ReadFaults, SearchesOnName, UpdateToNobody};
ghost use Rattle.ca_model_examples.specs.ClientRows.{WriteFaults};

/// A channel is found, its circuit is connected and sends 88 bytes, and it becomes live and is
/// read.
pub fn a_channel_becomes_live()
    ensures greets { Greets }
    ensures live { LiveAndRead }
    ensures only { OnlyLive }
{}

/// The first fault of a call decides.
pub fn the_first_fault_decides()
    ensures reads { ReadFaults }
    ensures writes { WriteFaults }
{}

/// Requests that are lost complete in order of issue.
pub fn requests_complete_in_order_of_issue()
    ensures { InOrderOfIssue }
{}

/// A cut completes the open request with Disconnected, then tells that the channel is lost, and it
/// is searched again.
pub fn a_lost_channel_is_searched_again()
    ensures lost { CutLoses }
    ensures found { FoundAgain }
{}

/// A channel that is cleared while it is being created is cleared when its reply comes; a live one
/// at once.
pub fn a_cleared_channel_ends()
    ensures before { ClearedBeforeLive }
    ensures after { ClearedAfterLive }
{}

/// SERVER_DISCONN completes what is open, and the channel is searched again once its clear is
/// answered.
pub fn a_removed_record_is_left()
    ensures leaves { DisconnectLeaves }
    ensures late { LateReplyFrees }
    ensures again { LeftIsSearchedAgain }
{}

/// The first subscription's id is 00010000. Once that is cancelled the next one has 00010001,
/// updates of the first go to
/// nobody, and after its confirmation the next one has 00020000.
pub fn a_cancelled_subscription_drains()
    ensures ids { IdsOfSubscriptions }
    ensures nobody { UpdateToNobody }
    ensures only { OnlySkipped }
    ensures frees { ConfirmationFrees }
{}

/// The tenth read in a row that left bytes asks for a pause.
pub fn reads_ask_for_a_pause()
    ensures nine { NoPauseAtNine }
    ensures ten { PauseAtTen }
{}

/// The datagram of one search, byte for byte; and names of 500 and 471 bytes in one datagram, of
/// 500 and 472 in two.
pub fn searches_are_packed()
    ensures one { OneSearch }
    ensures full { FullDatagrams }
{}

/// A name server's circuit is wanted from the start, and searches go out on it.
pub fn names_are_searched_over_circuits()
    ensures wanted { NameIsWanted }
    ensures searches { SearchesOnName }
{}

/// A beacon that is an anomaly makes all searches due at once.
pub fn an_anomaly_boosts_searches()
    ensures { BeaconBoosts }
{}

/// A silence of 30,000 milliseconds sends an ECHO, once, and one of 35,000 ends the circuit.
pub fn a_silence_is_ended()
    ensures { EchoThenClose }
{}
