//! Calls and events at the edge of what is allowed: the same moment again, all bytes that wait, the
//! last priority, an update with count 0.
ghost use Rattle.ca_model_examples.specs.Limits.{AcceptIsLast, AllBytes, CancelWaits};
ghost use Rattle.ca_model_examples.specs.Limits.{CountsPresent, DatagramMoment, DisconnectsOnce};
ghost use Rattle.ca_model_examples.specs.Limits.{LastPriority, LateReplyDrains, NameComesFirst};
ghost use Rattle.ca_model_examples.specs.Limits.{PostsNotSo, SameMoment, UpdateElsewhere};

/// A tick may have the moment of the last one; all bytes that wait may move, and no more; a circuit
/// is made after the others; and a datagram comes at the moment of the world.
pub fn events_have_their_limits()
    ensures moment { SameMoment }
    ensures bytes { AllBytes }
    ensures last { AcceptIsLast }
    ensures datagram { DatagramMoment }
{}

/// A name that is none is refused before a priority that is none, 99 is one, and a cancel is
/// refused
/// while too much waits; an update counts on its circuit, and a late reply ends the draining of its
/// id.
pub fn a_clients_calls_have_their_limits()
    ensures name { NameComesFirst }
    ensures priority { LastPriority }
    ensures cancel { CancelWaits }
    ensures update { UpdateElsewhere }
    ensures late { LateReplyDrains }
{}

/// A post has an element, and its type is checked before its count; a channel has one
/// SERVER_DISCONN; and an update with the count 0 has the elements that there are.
pub fn a_servers_calls_have_their_limits()
    ensures posts { PostsNotSo }
    ensures once { DisconnectsOnce }
    ensures count { CountsPresent }
{}
