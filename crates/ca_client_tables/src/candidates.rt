//! The indices at which the channels of one circuit may be.
ghost use Rattle.std.specs.Prelude.{◌≡◌, ◌<◌, length, slice_index_or};
ghost use Rattle.ca_client_tables.specs.OnCircuits.{indices_of};

/// The indices at which the channels of a circuit are, in order, and maybe some at
/// which there is none.
#[derive(Clone, Copy, Debug)]
pub enum Candidates<'a> {
    /// These indices.
    Listed(&'a [u16]),
    /// This many, from 0 on: all that were given.
    All(usize),
}

impl Candidates<'_> {
    /// How many indices these are.
    pub(crate) fn len(self) -> usize
        ensures { result ≡ length (indices_of self.entry) }
    {
        match self {
            Candidates::Listed(listed) => listed.len(),
            Candidates::All(places) => places,
        }
    }

    /// The index at this place among them.
    pub(crate) fn at(self, place: usize) -> usize
        requires { place < length (indices_of self) }
        ensures { result ≡ slice_index_or (indices_of self.entry) place 0 }
    {
        match self {
            Candidates::Listed(listed) => usize::from(listed[place]),
            Candidates::All(_) => place,
        }
    }
}
