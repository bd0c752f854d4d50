//! What each end may send by the messages on the circuit: updates and SERVER_DISCONNs of servers,
//! and the SIDs under which clients send. Other parts are in `legal_laws.rt` and `id_laws.rt`.
ghost use Rattle.std.specs.Prelude.{List, Option};
ghost use Rattle.ca_model.specs.Events.{Event};
ghost use Rattle.ca_model.specs.Runs.{AreEvents, Runs};
ghost use Rattle.ca_model.specs.World.{IsSetting, Setting, World};
ghost use Rattle.ca_laws_runs.specs.LegalEnds.{
  ClientsGoByChannels,
  ServersAreLegal,
  ServersTellOfRemovals,
  ServersUpdateWhatStands,
};

/// After every run from a well-formed setting by well-formed events each update of a server is for
/// an EVENT_ADD that it read on a channel that is open, of which it sent no SERVER_DISCONN, which
/// it did not refuse, and whose EVENT_CANCEL it has not read. This is `updates` of the statement's
/// `LegalServer`. It holds also of what an end sent that has ended.
pub fn servers_update_what_stands()
    ensures { (s : Setting) (es : List Event) (stopped : Option Event) (w : World) → IsSetting s
        → AreEvents es → Runs s es stopped w → ServersUpdateWhatStands w }
{}

/// So after every such run all that a server sends on a circuit is what it may send, by what it
/// sent and read there alone: this is `server` of the statement's `LegalCircuit`.
pub fn servers_send_what_they_may()
    ensures { (s : Setting) (es : List Event) (stopped : Option Event) (w : World) → IsSetting s
        → AreEvents es → Runs s es stopped w → ServersAreLegal w }
{}

/// After every run from a well-formed setting each channel that was open when the log removed its
/// record has a SERVER_DISCONN, if the server's end of its circuit is open, also if it was cleared
/// since. This is `told` of the statement's `LegalCircuit`.
pub fn servers_tell_of_removals()
    ensures { (s : Setting) (es : List Event) (stopped : Option Event) (w : World) → IsSetting s
        → Runs s es stopped w → ServersTellOfRemovals w }
{}

/// After every run from a well-formed setting by well-formed events, each message of a client on a
/// channel goes out under the SID of one that it has: it asked for the channel, it read the reply
/// that gave the SID, and has sent no CLEAR_CHANNEL of it since. A CLEAR_CHANNEL has its CID; and
/// once a SERVER_DISCONN for the channel was read nothing else goes out on it. This is `on_channel`
/// of the statement's `LegalClient`. It holds also of what an end sent that has ended.
pub fn clients_go_by_their_channels()
    ensures { (s : Setting) (es : List Event) (stopped : Option Event) (w : World) → IsSetting s
        → AreEvents es → Runs s es stopped w → ClientsGoByChannels w }
{}
