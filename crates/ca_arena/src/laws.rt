//! What an arena guarantees: no handle is given twice, and a handle whose value was removed never
//! finds anything again.
ghost use Rattle.std.specs.Prelude.{◌≡◌, List, None};
ghost use Rattle.ca_arena.specs.declared.handle.Handle.{Handle};
ghost use Rattle.ca_arena.specs.Arena.{Contents, empty, find, Removes};
ghost use Rattle.ca_arena.specs.Traces.{Call, Leads, given_by, AreApart};

/// Whatever is inserted into an arena and removed from it, from its beginning on, no
/// handle is given twice.
pub fn no_handle_twice<T>()
    ensures { (calls : List (Call T)) (after : Contents T) → Leads empty calls after
        → AreApart (given_by calls) }
{}

/// A handle whose value was taken out finds nothing ever after.
pub fn stale_stays_stale<T>()
    ensures { (before later : List (Call T)) (now left after : Contents T) (handle : Handle)
        (value : T) → Leads empty before now → Removes now handle (Ok value) left
        → Leads left later after → find after handle ≡ None }
{}
