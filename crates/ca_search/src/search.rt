//! A search to be sent: the client's id of a channel (CID) and the channel's name.
ghost use Rattle.std.specs.Prelude.{◌≡◌};
ghost use Rattle.ca_text.specs.Limits.{channel_name_limit};
ghost use Rattle.ca_text.specs.Name.{IsName};

use ca_text::ChannelName;
use std::marker::Model;

/// A search that is due: the channel's id at the client, and its name.
#[derive(Debug, Drop)]
pub struct Search {
    cid: u32,
    name: Vec<u8>,
}

impl Model for Search {
    ghost use Rattle.ca_text.specs.Limits.{channel_name_limit};
    ghost use Rattle.ca_text.specs.Name.{IsName};
    ghost use Rattle.ca_search.specs.Searches.{Wanted};

    ghost Value = { Wanted };

    ghost view = { λ s. record { cid = s.cid; name = s.name.items } };

    ghost invariant = { λ s. IsName channel_name_limit s.name.items };
}

impl Search {
    // Of a name that is fit for a channel.
    pub(crate) fn new(cid: u32, name: Vec<u8>) -> Search
        requires { IsName channel_name_limit name.items }
        ensures { result ≡ record { cid = cid; name = name.items } }
    {
        Search { cid, name }
    }

    /// The channel's CID.
    pub fn cid(&self) -> u32
        ensures { result ≡ self.now.cid }
    {
        self.cid
    }

    /// The channel's name.
    pub fn name(&self) -> ChannelName<'_>
        ensures { result ≡ self.now.name }
    {
        match ChannelName::read(&self.name) {
            Ok(name) => name,
            Err(_) => unreachable!(),
        }
    }
}
