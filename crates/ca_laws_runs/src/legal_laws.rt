//! What each end may send, and what it has to: parts of `Legal`, each by itself. More are in
//! `id_laws.rt` and `sent_laws.rt`, and `what_is_sent_is_legal` in `promise_laws.rt` has all.
ghost use Rattle.std.specs.Prelude.{List, Option};
ghost use Rattle.ca_model.specs.Channels.{OfClients};
ghost use Rattle.ca_model.specs.Legal.{IsSent};
ghost use Rattle.ca_model.specs.Events.{Event};
ghost use Rattle.ca_model.specs.Runs.{AreEvents, Runs};
ghost use Rattle.ca_model.specs.World.{IsSetting, Setting, World, told};
ghost use Rattle.ca_laws_runs.specs.Anew.{LiveSubscriptionsAreHeld, SubscriptionsAreAddedAnew};
ghost use Rattle.ca_laws_runs.specs.LegalAnew.{
  EndedSubscriptionsAreNotAdded,
  LiveChannelsAreSubscribedTo,
};
ghost use Rattle.ca_laws_runs.specs.LegalParts.{
  AddsWereHeld,
  ClientsCancelWhatWasAdded,
  ClientsSendOnChannels,
  MessagesWereCalled,
  ServersConfirmAtOnce,
  ServersEndOpenChannels,
  ServersGiveFreeSids,
  SubscriptionsAreAddedApart,
};

/// In every world to which a run leads, whatever its setting and events, each accepted subscription
/// has an EVENT_ADD on a circuit of that life of its client: this is `subscriptions` of `Legal`.
pub fn accepted_subscriptions_were_sent()
    ensures { (s : Setting) (es : List Event) (stopped : Option Event) (w : World)
        → Runs s es stopped w → OfClients (told w) (IsSent (told w)) }
{}

/// After every run from a well-formed setting by well-formed events, each message that a client
/// sent for a channel was called, by the log of its client's life, for what it asks for: a read or
/// an EVENT_ADD for its type and count, an EVENT_ADD also for its mask, a write with the value that
/// it carries. A CREATE_CHAN has the name under which its channel was opened; and a CLEAR_CHANNEL
/// that was not called answers a SERVER_DISCONN. This is `called` of the statement's
/// `LegalCircuit`. It holds also of what an end sent that has ended.
pub fn what_a_client_sends_was_called()
    ensures { (s : Setting) (es : List Event) (stopped : Option Event) (w : World) → IsSetting s
        → AreEvents es → Runs s es stopped w → MessagesWereCalled w }
{}

/// After every run from a well-formed setting by well-formed events, a server gives a SID on a
/// circuit only if no channel that is open there has its index: of each that had, it read the
/// CLEAR_CHANNEL between. This is `sids` of the statement's `LegalServer`. It holds also of what an
/// end sent that has ended.
pub fn servers_give_free_sids()
    ensures { (s : Setting) (es : List Event) (stopped : Option Event) (w : World) → IsSetting s
        → AreEvents es → Runs s es stopped w → ServersGiveFreeSids w }
{}

/// After every such run each EVENT_ADD without payload of a server answers the
/// EVENT_CANCEL that it read just before, with its SID and its subscription id. This is
/// `confirmations` of `LegalServer`.
pub fn servers_confirm_at_once()
    ensures { (s : Setting) (es : List Event) (stopped : Option Event) (w : World) → IsSetting s
        → AreEvents es → Runs s es stopped w → ServersConfirmAtOnce w }
{}

/// After every run from a well-formed setting each SERVER_DISCONN of a server is for a channel that
/// it created on that circuit, of which it has read no CLEAR_CHANNEL since, and the first for it.
/// This is `disconnects` of `LegalServer`. It holds also of what an end sent that has ended.
pub fn servers_disconnect_open_channels()
    ensures { (s : Setting) (es : List Event) (stopped : Option Event) (w : World) → IsSetting s
        → Runs s es stopped w → ServersEndOpenChannels w }
{}

/// After every run from a well-formed setting, between two EVENT_ADDs of one subscription on a
/// circuit its channel was created again there. This is `apart` of the statement's `LegalCircuit`.
/// It holds also of what an end sent that has ended.
pub fn subscriptions_are_added_apart()
    ensures { (s : Setting) (es : List Event) (stopped : Option Event) (w : World) → IsSetting s
        → Runs s es stopped w → SubscriptionsAreAddedApart w }
{}

/// After every run from a well-formed setting by well-formed events, each message of a client on a
/// channel goes out under the SID of one that it has: it asked for the channel, it read the reply
/// that gave the SID, both before, and has sent no CLEAR_CHANNEL of it since. A CLEAR_CHANNEL has
/// its CID. This is `on_channel` of the statement's `LegalClient`, but for what goes out once a
/// SERVER_DISCONN was read. It holds also of what an end sent that has ended.
pub fn clients_send_on_channels_that_they_have()
    ensures { (s : Setting) (es : List Event) (stopped : Option Event) (w : World) → IsSetting s
        → AreEvents es → Runs s es stopped w → ClientsSendOnChannels w }
{}

/// After every run from a well-formed setting by well-formed events, a subscription that is in its
/// client's table has its EVENT_ADD on each open circuit on which its channel is live, after that
/// channel's last CREATE_CHAN there.
pub fn live_subscriptions_were_added()
    ensures { (s : Setting) (es : List Event) (stopped : Option Event) (w : World) → IsSetting s
        → AreEvents es → Runs s es stopped w → SubscriptionsAreAddedAnew w }
{}

/// After every run from a well-formed setting by well-formed events each EVENT_CANCEL of a client
/// is for an EVENT_ADD that it sent before, with its SID and its subscription id, and of which it
/// sent no EVENT_CANCEL between. This is `cancels` of the statement's `LegalClient`. It holds also
/// of what an end sent that has ended.
pub fn clients_cancel_what_was_added()
    ensures { (s : Setting) (es : List Event) (stopped : Option Event) (w : World) → IsSetting s
        → AreEvents es → Runs s es stopped w → ClientsCancelWhatWasAdded w }
{}

/// After every run a subscription that is in its client's table, on a channel that is live, is held
/// by the log of that client's life: its caller neither cancelled it nor cleared its channel, and
/// no notice told of its end.
pub fn live_subscriptions_are_held_by_logs()
    ensures { (s : Setting) (es : List Event) (stopped : Option Event) (w : World)
        → Runs s es stopped w → LiveSubscriptionsAreHeld w }
{}

/// After every run from a well-formed setting by well-formed events, what a client subscribed to
/// was held by its log as it read each message that it had read before that EVENT_ADD: its caller
/// had ended neither it nor its channel, and no notice had told of its end. It holds also of what
/// an end sent that has ended.
pub fn subscriptions_were_held_as_they_were_added()
    ensures { (s : Setting) (es : List Event) (stopped : Option Event) (w : World) → IsSetting s
        → AreEvents es → Runs s es stopped w → AddsWereHeld w }
{}

/// After every run from a well-formed setting by well-formed events, each time that a channel
/// becomes live at its client, each of its subscriptions that stands then by the client's log has
/// an EVENT_ADD from there on, and before the channel is created again. The statement's
/// `LegalCircuit` has it. It holds also of what an end sent that has ended.
pub fn live_channels_are_subscribed_to()
    ensures { (s : Setting) (es : List Event) (stopped : Option Event) (w : World) → IsSetting s
        → AreEvents es → Runs s es stopped w → LiveChannelsAreSubscribedTo w }
{}

/// After every such run no subscription has an EVENT_ADD after a CREATE_CHAN of its channel that
/// its caller, or a refusal, had ended by the client's log as that channel became live. This is
/// `ended` of `LegalCircuit`. It holds also of what an end sent that has ended.
pub fn ended_subscriptions_are_not_added()
    ensures { (s : Setting) (es : List Event) (stopped : Option Event) (w : World) → IsSetting s
        → AreEvents es → Runs s es stopped w → EndedSubscriptionsAreNotAdded w }
{}
