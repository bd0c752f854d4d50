//! The handle under which an arena keeps a value. A handle that is kept too long names nothing, and
//! never another value.

/// The name of a value in an arena.
///
/// It is stale once its value was removed, and names nothing from then on.
#[derive(Clone, Copy, Debug, PartialEq, Eq)]
pub struct Handle {
    /// The place in the arena, from 0.
    pub index: u16,
    /// How many times the index was given, this time too: from 1.
    pub generation: u32,
}
