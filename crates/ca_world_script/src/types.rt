//! The types of the records that `add` lines name, which the posts below them need.
ghost use Rattle.std.specs.Prelude.{◌≡◌, OnOk};
ghost use Rattle.ca_world_script.specs.Index.{added_of};
ghost use Rattle.ca_world_script.specs.Types.{Adds, none_added};

use ca_dbr::BaseType;
use indexmap::IndexMap;
use std::alloc::{AllocError, Global};

/// The types that `add` lines name, by server and name.
#[derive(Drop)]
pub(crate) struct Types {
    named: IndexMap<(u64, Vec<u8>), BaseType>,
}

impl Types {
    // None yet.
    pub(crate) fn new(alloc: Global) -> Types
        ensures { added_of result ≡ none_added }
    {
        Types {
            named: IndexMap::new(alloc),
        }
    }

    // The type named last for this record of this server.
    pub(crate) fn named(&self, server: u64, name: Vec<u8>) -> Option<BaseType>
        ensures { result ≡ added_of self.now server name.items }
    {
        self.named.get(&(server, name)).copied()
    }

    // Names a type. Without memory it may be lost.
    pub(crate) fn name(
        &mut self,
        server: u64,
        name: Vec<u8>,
        base: BaseType,
    ) -> Result<(), AllocError>
        ensures { OnOk result
            (Adds server name.items base (added_of self.old) (added_of self.new)) }
    {
        self.named.insert((server, name), base)?;
        Ok(())
    }
}
