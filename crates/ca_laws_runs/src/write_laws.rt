//! Writes from the caller to the record: each has the caller's value, reaches the record that the
//! channel names, and is applied at most once. Begin at `writes_are_not_made_twice`.
ghost use Rattle.std.specs.Prelude.{List, Option};
ghost use Rattle.ca_model.specs.Events.{Event};
ghost use Rattle.ca_model.specs.Runs.{AreEvents, Runs};
ghost use Rattle.ca_model.specs.World.{IsSetting, Setting, World};
ghost use Rattle.ca_laws_runs.specs.Carried.{AllCarried, AllTitled};
ghost use Rattle.ca_laws_runs.specs.OwnWrites.{WritesAreNotTwice, WritesAreOwn};

/// After every run by well-formed events the log of a client's life has the call of each read, put
/// and plain write that it sent: a read asks for the type and the count of its call, and a put or a
/// plain write carries the value.
pub fn writes_carry_what_callers_gave()
    ensures { (s : Setting) (es : List Event) (stopped : Option Event) (w : World) → AreEvents es
        → Runs s es stopped w → AllCarried w }
{}

/// After every run from a well-formed setting by well-formed events each write that a server's log
/// reports, as one that was applied or that waits, is of a record that was added under the name
/// under which the caller opened the channel of that write. It holds also of the write of a message
/// on which the server's end closed.
pub fn writes_are_of_the_record_that_is_named()
    ensures { (s : Setting) (es : List Event) (stopped : Option Event) (w : World) → IsSetting s
        → AreEvents es → Runs s es stopped w → AllTitled w }
{}

/// So after every such run what was applied is the value that the caller gave, converted to
/// the type of the record, on a record with the name of the caller's channel that was there
/// then. It was applied in the step that handled it, also if the server's end closed in that
/// step, or after it had waited, and a put that was withdrawn never is. This is `own` of the
/// statement's clause `NotTwice`.
pub fn what_is_applied_is_what_callers_gave()
    ensures { (s : Setting) (es : List Event) (stopped : Option Event) (w : World) → IsSetting s
        → AreEvents es → Runs s es stopped w → WritesAreOwn w }
{}

/// After every run from a well-formed setting by well-formed events no write is applied twice, in
/// all lives of all servers; each that is applied has its caller's value, on the record that the
/// caller's channel names; a put that waits is dropped only with its record, its channel or its
/// circuit; a record finishes one put at a time, each once; a put that was told Done is applied,
/// and a write that was told Failed is not. This is the statement's clause `NotTwice`, complete.
pub fn writes_are_not_made_twice()
    ensures { (s : Setting) (es : List Event) (stopped : Option Event) (w : World) → IsSetting s
        → AreEvents es → Runs s es stopped w → WritesAreNotTwice w }
{}
