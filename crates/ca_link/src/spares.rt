//! Buffers that the circuits of a server share. A circuit borrows them while it has bytes to keep,
//! so that an idle circuit needs no memory for its bytes.
ghost use Rattle.std.specs.Prelude.{◌≡◌, []};

use std::alloc::Global;

/// Memory for the bytes of one link, which many links have in turn: one without
/// bytes need keep none.
#[derive(Debug, Drop)]
pub struct Spares {
    pub(crate) input: Vec<u8>,
    pub(crate) output: Vec<u8>,
}

impl Spares {
    /// No memory yet.
    pub fn new(alloc: Global) -> Spares
        ensures input { result.input.items ≡ [] }
        ensures output { result.output.items ≡ [] }
    {
        Spares {
            input: Vec::new(alloc),
            output: Vec::new(alloc),
        }
    }
}
