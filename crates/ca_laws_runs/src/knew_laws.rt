//! What a server's core knows of a circuit (its open channels, its subscriptions, and the peer's
//! user and host) is what the messages on that circuit say.
ghost use Rattle.std.specs.Prelude.{List, Option};
ghost use Rattle.ca_model.specs.Events.{Event};
ghost use Rattle.ca_model.specs.Runs.{Runs};
ghost use Rattle.ca_model.specs.World.{IsSetting, Setting, World};
ghost use Rattle.ca_laws_runs.specs.KnewFaces.{KeepSettings, KnowFaces};
ghost use Rattle.ca_laws_runs.specs.KnewLists.{KnowChannels, KnowKeys};

/// After every run from a well-formed setting, the open channels that a server's core knows on an
/// open end are just those that are open by the lists of the circuit, each once, with its SID, its
/// CID and its name; and it is retired exactly if the log removed its record. This is `channels`
/// of what a server knew.
pub fn servers_know_their_channels()
    ensures { (s : Setting) (es : List Event) (stopped : Option Event) (w : World) → IsSetting s
        → Runs s es stopped w → KnowChannels w }
{}

/// After every such run, the keys that a server's core knows on an open end are just those of the
/// subscriptions that last, by the lists of the circuit and the log: each of an EVENT_ADD that was
/// accepted, whose record is there, and that was neither cancelled nor cleared. This is `keys` of
/// what a server knew.
pub fn servers_know_their_keys()
    ensures { (s : Setting) (es : List Event) (stopped : Option Event) (w : World) → IsSetting s
        → Runs s es stopped w → KnowKeys w }
{}

/// After every such run, what a server's core knows of the peer on an open end is what the lists of
/// the circuit say: whether a VERSION was handled; the texts of the last CLIENT_NAME and of the
/// last HOST_NAME that were handled before a channel was created; and whether one was created.
/// These are `greeted`, `user`, `host` and `settled` of what a server knew.
pub fn servers_know_their_peers()
    ensures { (s : Setting) (es : List Event) (stopped : Option Event) (w : World) → IsSetting s
        → Runs s es stopped w → KnowFaces w }
{}

/// After every such run each server's core has the port and the rules that the server was given.
pub fn servers_keep_their_settings()
    ensures { (s : Setting) (es : List Event) (stopped : Option Event) (w : World) → IsSetting s
        → Runs s es stopped w → KeepSettings w }
{}
