//! The steps of the two ends of a circuit are in order: one step for each message, each within what
//! was sent and logged by then.
ghost use Rattle.std.specs.Prelude.{List, Option};
ghost use Rattle.ca_model.specs.Events.{Event};
ghost use Rattle.ca_model.specs.Runs.{AreEvents, Runs};
ghost use Rattle.ca_model.specs.World.{IsSetting, Setting, World};
ghost use Rattle.ca_laws_runs.specs.OrderSteps.{HaveLives, ServerStepsAre, StepsAre};

/// After every run each circuit joins lives that have logs, and an end that is open at a client
/// joins the present life of its client. Nothing is asked for.
pub fn circuits_join_lives()
    ensures { (s : Setting) (es : List Event) (stopped : Option Event) (w : World)
        → Runs s es stopped w → HaveLives w }
{}

/// After every run from a well-formed setting the steps of the server's end of each circuit are in
/// order: one for each of the first messages that came to it, each within what it sent and within
/// the log of its life, and later ones with no less sent and logged. This is the server's part of
/// `in_order` of the statement's clause `AnswersOwn`. It holds also of an end that has ended.
pub fn steps_of_servers_are_in_order()
    ensures { (s : Setting) (es : List Event) (stopped : Option Event) (w : World) → IsSetting s
        → Runs s es stopped w → ServerStepsAre w }
{}

/// After every run from a well-formed setting by well-formed events the steps of both ends of each
/// circuit are in order: this is `in_order` of the statement's clause `AnswersOwn`, with the logs
/// of the lives that the circuit joins.
pub fn steps_are_in_order()
    ensures { (s : Setting) (es : List Event) (stopped : Option Event) (w : World) → IsSetting s
        → AreEvents es → Runs s es stopped w → StepsAre w }
{}
