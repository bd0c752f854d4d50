//! What a client makes of each message that it reads concerns the request, subscription or channel
//! that the message is about. This holds as long as servers take messages as they were meant.
ghost use Rattle.std.specs.Prelude.{List, Option, ℕ};
ghost use Rattle.ca_model.specs.Events.{ClientStep, Event};
ghost use Rattle.ca_model.specs.Runs.{AreEvents, Happens, Runs};
ghost use Rattle.ca_model.specs.World.{IsSetting, Setting, World, opening};
ghost use Rattle.ca_laws_parts.specs.Clients.{ClientsStand};
ghost use Rattle.ca_laws_runs.specs.Held.{AllCircuitsHeld};
ghost use Rattle.ca_laws_runs.specs.About.{AllOwn, IsOwnStep, ReadsAbout};
ghost use Rattle.ca_laws_runs.specs.Quiet.{ClientsQuiet};
ghost use Rattle.ca_laws_runs.specs.Tells.{NoticesTell};

/// Requests and subscriptions of a client are numbered in order, each on the channel that the core
/// has for it. On each circuit whose end at the client is open, a channel that is being created has
/// its CREATE_CHAN as the last that was sent on it; a live one was only used since; of one that is
/// being cleared its CLEAR_CHANNEL is the last. No EVENT_CANCEL was sent of a subscription that
/// stands, and nothing about one that was cancelled since that. On all circuits an EVENT_CANCEL has
/// the subscription id of its EVENT_ADD.
///
/// So it is before any event, after each event, and in every world to which a run leads, whatever
/// its setting and events.
pub fn what_was_sent_is_as_channels_are()
    ensures begins { (s : Setting) → ClientsQuiet (opening s) }
    ensures event { (w new : World) (e : Event) → ClientsStand w → ClientsQuiet w → Happens w e new
        → ClientsQuiet new }
    ensures run { (s : Setting) (es : List Event) (stopped : Option Event) (w : World)
        → Runs s es stopped w → ClientsQuiet w }
{}

/// After every run in which what is held of circuits is held, the message that a client reads
/// next is about what it finds: a request or a subscription is on its channel; a CREATE_CH_FAIL
/// of a channel that was not created is about its CREATE_CHAN, a CLEAR_CHANNEL about the
/// client's, and nothing was sent since on the channel; a confirmation is about the EVENT_CANCEL
/// of that subscription; and an ERROR that refuses a subscription is about an EVENT_ADD of one
/// that was not cancelled.
pub fn what_is_read_is_about_what_it_finds()
    ensures { (s : Setting) (es : List Event) (stopped : Option Event) (w new : World) (k : ℕ)
        → IsSetting s → AreEvents es → Runs s es stopped w → Happens w (ClientStep k) new
        → AllCircuitsHeld w → ReadsAbout w k }
{}

/// What is held of all circuits stays so over every event, and over every run, as far as it is
/// known of each message that a server takes what it is about (`IsOwnNext`). Of clients nothing is
/// asked for except that setting and events are well-formed.
pub fn what_is_held_by_what_servers_take()
    ensures event { (s : Setting) (es : List Event) (stopped : Option Event) (w new : World)
        (e : Event) → IsSetting s → AreEvents es → Runs s es stopped w → Happens w e new
        → IsOwnStep w e new → AllCircuitsHeld w → AllCircuitsHeld new }
    ensures run { (s : Setting) (es : List Event) (stopped : Option Event) (w : World)
        → IsSetting s → AreEvents es → Runs s es stopped w → AllOwn (opening s) es
        → AllCircuitsHeld w }
{}

/// So each notice that a client makes of a message says what that message means, of what was
/// meant by the message that it is about: by its own request, its own subscription, or the
/// CREATE_CHAN of its channel; or it reports Disconnected, of a SERVER_DISCONN. A refused plain
/// write is told of its channel.
pub fn each_notice_tells_of_its_own_message()
    ensures { (s : Setting) (es : List Event) (stopped : Option Event) (w new : World) (k : ℕ)
        → IsSetting s → AreEvents es → Runs s es stopped w → Happens w (ClientStep k) new
        → AllCircuitsHeld w → NoticesTell w k }
{}
